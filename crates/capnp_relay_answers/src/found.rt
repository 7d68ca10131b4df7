//! Writes of calls at the roots of messages, found once.
ghost use Rattle.std.specs.Prelude.{◌≡◌, IfOk, IfErr};
ghost use Rattle.capnp_units.specs.declared.kinds.ErrorKind.{ErrorKind};
ghost use Rattle.capnp_values_queries.specs.declared.structs.StructSchema.{StructSchema as AnySchema};
ghost use Rattle.capnp_calls.specs.Resolved.{KnowSplices};
ghost use Rattle.capnp_relay_answers.specs.Found.{IsFound};

use capnp_calls::Action;
use capnp_calls::resolved::Resolved;
use capnp_calls_in_place::sets::plain_sets;
use capnp_calls_in_place::splices::are_spliced;
use capnp_calls_splice::plain::PlainSet;
use capnp_units::errors::Result;
use std::alloc::Global;

/// The writes of calls, if they are known before a message is read.
#[derive(Debug, Drop)]
pub(crate) enum Found {
    /// Each writes a number into the data of the root. A root with at least `wanted` data words has
    /// a word for each number, and no number makes its last word zero. No clause says so, because
    /// the numbers are only tried there.
    Plain { sets: Vec<PlainSet>, wanted: usize },
    /// Each writes a number, a member, a text or data into a struct or a list that a path leads to.
    Spliced,
    /// There are no writes: each is a `get`. No clause says so, because each reply checks again
    /// whether its call writes.
    Gets,
    /// A call does something else.
    Unknown,
}

/// Returns whether each call is a `get`.
fn are_gets(calls: &[Resolved<'_>]) -> bool {
    for call in calls {
        if !matches!(call.action(), Action::Get) {
            return false;
        }
    }
    true
}

/// Returns the number of data words that a root must have so that each number has its word, and no
/// number can make the last word zero: one word after its own if the number is zero.
fn wanted_words(sets: &[PlainSet]) -> usize {
    let mut wanted = 0usize;
    for set in sets {
        let behind = if set.bits == 0 { 2 } else { 1 };
        wanted = wanted.max(set.word as usize + behind);
    }
    wanted
}

/// Finds the writes of these calls. `OutOfMemory`: memory for them was refused.
pub(crate) fn find_puts(alloc: Global, calls: &[Resolved<'_>]) -> Result<Found>
    ensures found { (schema : AnySchema) → KnowSplices schema calls.now
        → IfOk result (IsFound schema calls.now) }
    ensures kind { IfErr result (λ e. e.kind ≡ ErrorKind.OutOfMemory) }
{
    if let Some(sets) = plain_sets(alloc, calls)? {
        let wanted = wanted_words(&sets);
        return Ok(Found::Plain { sets, wanted });
    }
    if are_spliced(calls) {
        return Ok(Found::Spliced);
    }
    if are_gets(calls) {
        return Ok(Found::Gets);
    }
    Ok(Found::Unknown)
}
