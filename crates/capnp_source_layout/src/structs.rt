//! Whole structs: fields, unions and groups.

ghost use Rattle.std.specs.Prelude.{◌≡◌, ◌++◌, IfOk, length, vec_len};
ghost use Rattle.capnp_source_layout.specs.Drafts.{IsLayoutOf, KeepsSlots};
ghost use Rattle.capnp_source_layout.specs.Slots.{IsLaidOut};

use crate::checks::is_laid_out;
use crate::draft::{Draft, add_steps, narrowed, no_draft};
use crate::sections::DataSize;
use std::alloc::{AllocError, AllocFailed, Global};

/// A part of a struct that fields belong to.
///
/// Numbers are indices into a list of scopes: scope 0 is the struct, and each scope comes after the
/// one it belongs to. A plain group has no scope of its own if it isn't a member of a union: its
/// fields belong to the scope around it.
#[derive(Clone, Copy, Debug, PartialEq, Eq)]
pub enum Scope {
    Struct,
    /// A union in the struct or in a member of another union.
    Union { parent: usize },
    /// One member of a union: a field, or a group with its fields.
    Member { union: usize },
}

/// The size of a field.
#[derive(Clone, Copy, Debug, PartialEq, Eq)]
pub enum FieldSize {
    Void,
    Data(DataSize),
    Pointer,
}

/// The next thing to lay out, in the order of ordinals.
#[derive(Clone, Copy, Debug, PartialEq, Eq)]
pub enum Step {
    /// A field of the struct or of a member of a union.
    Field { scope: usize, size: FieldSize },
    /// The discriminant of a union with an ordinal of its own.
    Discriminant { union: usize },
}

/// The places of the fields of a struct.
#[derive(Debug, Drop)]
pub struct Layout {
    /// The size of the data section in words.
    pub data_words: u32,
    /// The number of pointers.
    pub pointers: u32,
    /// The offset of each step: of a data field in fields of its size, the index of a pointer, of a
    /// discriminant in units of 16 bits, and 0 of a void.
    pub offsets: Vec<u32>,
    /// The offset of the discriminant of each scope in units of 16 bits, if the scope is a union that has one.
    pub discriminants: Vec<Option<u32>>,
}

/// The layouts of two versions of a struct.
#[derive(Debug, Drop)]
pub struct Versions {
    pub older: Layout,
    pub newer: Layout,
}

/// A reason why a struct can't be laid out.
#[derive(Clone, Copy, Debug, PartialEq, Eq)]
pub enum LayoutFault {
    /// The step gives a union a discriminant that it has already: its second member had a field.
    Discriminant { step: usize },
    /// No such scope is there, or it is of another kind, or its parent is not before it.
    NoScope { scope: usize },
    /// An offset would pass 2^32.
    TooLarge,
    /// A slot is not apart from the others. No struct is known for which this happens.
    NotApart,
    /// An allocation was refused.
    Memory,
}

impl From<AllocError> for LayoutFault {
    ghost use Rattle.std.specs.Prelude.{◌≡◌};
    ghost use Rattle.capnp_source_layout.specs.declared.structs.LayoutFault.{LayoutFault};

    ghost from_gives = { λ _ fault. fault ≡ LayoutFault.Memory };

    fn from(_e: AllocError) -> LayoutFault {
        LayoutFault::Memory
    }
}

impl<T: Drop> From<AllocFailed<T>> for LayoutFault {
    ghost use Rattle.std.specs.Prelude.{◌≡◌};
    ghost use Rattle.capnp_source_layout.specs.declared.structs.LayoutFault.{LayoutFault};

    ghost from_gives = { λ _ fault. fault ≡ LayoutFault.Memory };

    fn from(_e: AllocFailed<T>) -> LayoutFault {
        LayoutFault::Memory
    }
}

/// Lays out a struct: its steps in the order of their ordinals.
///
/// This is `layout_of` of a draft without steps, `draft::no_draft`, to which `draft::add_steps` adds
/// them. `NotApart` says that a slot is not apart from another; no struct is known for which this
/// happens.
pub fn lay_out(alloc: Global, scopes: &[Scope], steps: &[Step]) -> Result<Layout, LayoutFault>
    ensures offsets { IfOk result (λ l. vec_len l.offsets ≡ length steps.now) }
    ensures discriminants { IfOk result (λ l. vec_len l.discriminants ≡ length scopes.now) }
    ensures slots { IfOk result (IsLaidOut scopes.now steps.now) }
{
    let mut draft = no_draft(alloc, scopes)?;
    add_steps(alloc, &mut draft, scopes, steps)?;
    layout_of(alloc, scopes, steps, &draft)
}

/// Lays out two versions of a struct: one with some of its steps, and one to which steps are added.
///
/// The draft of the older version is the draft of the newer one before the steps are added. `scopes`
/// are those of the newer version, in which the older one has no field in the scopes that are new.
pub fn lay_out_versions(
    alloc: Global,
    scopes: &[Scope],
    steps: &[Step],
    added: &[Step],
) -> Result<Versions, LayoutFault>
    ensures older { IfOk result (λ v. IsLaidOut scopes.now steps.now v.older) }
    ensures newer { IfOk result (λ v. IsLaidOut scopes.now (steps.now ++ added.now) v.newer) }
    ensures kept { IfOk result (λ v. KeepsSlots v.older v.newer) }
{
    let mut draft = no_draft(alloc, scopes)?;
    add_steps(alloc, &mut draft, scopes, steps)?;
    let older = layout_of(alloc, scopes, steps, &draft)?;
    add_steps(alloc, &mut draft, scopes, added)?;
    let mut all = Vec::from_slice(alloc, steps)?;
    all.extend_from_slice(added)?;
    let newer = layout_of(alloc, scopes, &all, &draft)?;
    Ok(Versions { older, newer })
}

/// Returns a copy of items.
fn copied<T: Copy>(alloc: Global, items: &Vec<T>) -> Result<Vec<T>, LayoutFault>
    ensures { IfOk result (λ v. v.items ≡ items.now.items) }
{
    Ok(Vec::from_slice(alloc, items)?)
}

/// Returns the layout of a draft with some steps.
pub fn layout_of(
    alloc: Global,
    scopes: &[Scope],
    steps: &[Step],
    draft: &Draft,
) -> Result<Layout, LayoutFault>
    ensures draft { IfOk result (IsLayoutOf draft.now) }
    ensures slots { IfOk result (IsLaidOut scopes.now steps.now) }
{
    let layout = Layout {
        data_words: narrowed(draft.sections.words)?,
        pointers: narrowed(draft.sections.pointers)?,
        offsets: copied(alloc, &draft.offsets)?,
        discriminants: copied(alloc, &draft.discriminants)?,
    };
    if !is_laid_out(alloc, scopes, steps, &layout, &draft.shared)? {
        return Err(LayoutFault::NotApart);
    }
    Ok(layout)
}
