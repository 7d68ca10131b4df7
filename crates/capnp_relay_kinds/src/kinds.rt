//! The test of a message.
ghost use Rattle.std.specs.Prelude.{◌≡◌, not, IfOk, IfErr, min, map};
ghost use Rattle.std.specs.Option.{is_some, is_none};
ghost use Rattle.capnp_units.specs.Segments.{words_in};
ghost use Rattle.capnp_relay_kinds.specs.Kinds.{IsTold, IsNotTold};

use crate::steps::OutOfKind;
use crate::walk::struct_at;
use capnp_model::laws::{values_on_walks, values_that_are_read};
use capnp_units::errors::Result;
use capnp_units::limiter::ReadLimiter;
use capnp_units::sizes::ElementSize;
use capnp_values_queries::structs::StructSchema;
use capnp_wire_objects::arena::ReaderArena;
use capnp_wire_objects::place::ROOT;
use capnp_wire_objects::size::size_at;
use std::alloc::Global;

/// The most levels that are walked, since each takes stack.
const MOST_LEVELS: u32 = 1024;

/// Limits of following a message.
#[derive(Clone, Copy, Debug, PartialEq, Eq)]
pub struct Limits {
    /// The most words that following it may cost.
    pub words: u32,
    /// The most levels of pointers, the root's the first.
    pub nesting: u32,
}

/// Returns the first list of a message that isn't in kind under the schema of its root, in the
/// order of reading, or `None` if all are.
///
/// A list is in kind if its elements have exactly the size that its type names: 8 bits for a list
/// of `UInt8`, a pointer for a list of texts, structs with a tag for a list of structs. Only lists
/// whose types the schema names count: those of active union members, not those below untyped
/// pointers or in fields that the schema doesn't know. Texts and data are not lists here. If all are
/// in kind, the record that a relay writes is the one that its calls make of the message's record,
/// provided that the schema's defaults and the values of the calls are in kind too.
///
/// The message is first measured like any value that is read. It is refused with the kind of its
/// first fault, if it has no value within the limits. So is a value of more than 1,024 levels,
/// whatever the limit, with `NestingLimitExceeded`. A capability isn't followed. `OutOfMemory`
/// comes only if a list isn't in kind, since only the steps to it take memory.
///
/// It takes a step for each pointer and field that the schema names, and stack for each level, and
/// for each group within another one.
pub fn first_out_of_kind<A: ReaderArena>(
    alloc: Global,
    arena: &A,
    root: StructSchema<'_>,
    limits: Limits,
) -> Result<Option<OutOfKind>>
    ensures told { IfOk result (λ found.
        IsTold root.entry limits (words_in (A.segments arena.now)) (is_none found)) }
    ensures refused { IfErr result (IsNotTold root.entry limits (words_in (A.segments arena.now))) }
{
    values_on_walks();
    values_that_are_read();
    let levels = limits.nesting.min(MOST_LEVELS);
    let mut limiter = ReadLimiter::new(Some(limits.words as u64));
    let _size = size_at(arena, &mut limiter, ROOT, levels)?;
    let mut found = OutOfKind {
        steps: Vec::new(alloc),
        size: ElementSize::Void,
        wanted: ElementSize::Void,
    };
    let set = root.set();
    let good = struct_at(arena, set, ROOT, levels, root, &mut found)?;
    if good {
        return Ok(None);
    }
    found.steps.reverse();
    Ok(Some(found))
}

/// Returns whether the lists of a message are in kind under the schema of its root. It is refused
/// like `first_out_of_kind`.
pub fn is_in_kind<A: ReaderArena>(
    alloc: Global,
    arena: &A,
    root: StructSchema<'_>,
    limits: Limits,
) -> Result<bool>
    ensures told { IfOk result (IsTold root.entry limits (words_in (A.segments arena.now))) }
    ensures refused { IfErr result (IsNotTold root.entry limits (words_in (A.segments arena.now))) }
{
    let found = first_out_of_kind(alloc, arena, root, limits)?;
    Ok(found.is_none())
}
