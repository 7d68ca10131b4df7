//! Lists that aren't in kind, and the way to them.
ghost use Rattle.std.specs.Prelude.{◌≡◌, ◌==◌, false};
ghost use Rattle.capnp_units.specs.Sizes.{size_number};
ghost use Rattle.capnp_relay_kinds.specs.Kinds.{Tells};

use capnp_units::sizes::ElementSize;
use std::alloc::AllocError;

/// A step on the way from the root of a message to a list.
#[derive(Clone, Copy, Debug, PartialEq, Eq)]
pub enum Step {
    /// To the field of this index of a struct or a group.
    Field(u16),
    /// To the element of this index of a list.
    Element(u32),
}

/// A list that isn't in kind.
#[derive(Debug, Drop)]
pub struct OutOfKind {
    /// The steps that lead to it from the root. A step into a group is followed by one into a field
    /// of the group.
    pub steps: Vec<Step>,
    /// The size that its elements have.
    pub size: ElementSize,
    /// The size that the schema names for them.
    pub wanted: ElementSize,
}

/// Notes a step to a list that isn't in kind. The steps that follow it were noted before it.
pub(crate) fn step_back(found: &mut OutOfKind, step: Step) -> Result<bool, AllocError>
    ensures { Tells false result }
{
    found.steps.push(step)?;
    Ok(false)
}

/// Returns whether a list has elements of the size that is wanted, and notes the sizes if it hasn't.
pub(crate) fn is_size(found: &mut OutOfKind, size: ElementSize, wanted: ElementSize) -> bool
    ensures { result ≡ (size_number wanted == size_number size) }
{
    if wanted.number() == size.number() {
        return true;
    }
    found.size = size;
    found.wanted = wanted;
    false
}
