//! Calls that set fields along paths, written into a message's canonical words in place.
ghost use Rattle.std.specs.Prelude.{◌≡◌, ◌≤◌, length, option_copied, IfOk, IfErr, IfSome};
ghost use Rattle.capnp_units.specs.declared.kinds.ErrorKind.{ErrorKind};
ghost use Rattle.capnp_values_queries.specs.declared.structs.StructSchema.{StructSchema as AnySchema};
ghost use Rattle.capnp_calls.specs.Resolved.{call_of, KnowsSplice};
ghost use Rattle.capnp_calls_in_place.specs.CallSplices.{IsCallSplice, have_splices, TellsCall, IsShortFor, TellsSplices, WantsRoom};

use capnp_calls::resolved::Resolved;
use capnp_calls_splice::put::put_splice;
use capnp_calls_splice::splice::{Splice, Spliced};
use capnp_units::errors::Result;
use capnp_units::sizes::Word;

/// Returns the write of a call, with its place. `None` if
/// - the call isn't the `set` of a plain field, a text or data, of an element of a list of one of
///   these, or of a plain or void member of a union, to a value of its type;
/// - its path leads through something other than structs, groups and elements of lists of structs;
/// - a field before the last is a member of a union.
#[inline]
pub fn call_splice<'a>(call: &'a Resolved<'_>) -> Option<&'a Splice>
    ensures found { option_copied result ≡ call.now.splice }
    ensures splice { (schema : AnySchema) → KnowsSplice schema call.now
        → IfSome result (λ p. IsCallSplice schema (call_of call.now) p.now) }
{
    call.splice()
}

/// Returns whether `call_splice` finds the write of each call.
pub fn are_spliced(calls: &[Resolved<'_>]) -> bool
    ensures { result ≡ have_splices calls.now }
{
    for call in calls {
        if call_splice(call).is_none() {
            return false;
        }
    }
    true
}

/// Does the write of a call, like `put_splice`. `Unplaced` if there is no such write.
fn write_splice(words: &mut Vec<Word>, count: usize, call: &Resolved<'_>) -> Result<Spliced>
    requires inside { count ≤ length words.old.items }
    ensures told { IfOk result (TellsCall call.now count words.old.items words.new.items) }
    ensures kind { IfErr result (λ e. e.kind ≡ ErrorKind.OutOfMemory) }
    ensures short { IfErr result (λ _. IsShortFor call.now count words.old.items) }
{
    match call_splice(call) {
        Some(splice) => put_splice(words, count, splice),
        None => Ok(Spliced::Unplaced),
    }
}

/// Does the writes of calls, one after the other, in a message whose `count` canonical words are at
/// the front of a buffer. `Done` has the number of words afterwards: the canonical words of the
/// calls' result on the value, trimmed, each struct with as many data words as it needs.
///
/// `Unplaced` if there are no calls, or the write of the first isn't found, or has no place: the
/// used words are unchanged. `Spoiled` if this happens at a later call, or if an element of a list
/// of structs would need more or fewer data words than the list has for each: some writes may be
/// done, and the words must not be used.
///
/// `OutOfMemory`: the buffer is too short for the writes, and the memory for more words was
/// refused.
pub fn write_splices(words: &mut Vec<Word>, count: usize, calls: &[Resolved<'_>]) -> Result<Spliced>
    requires inside { count ≤ length words.old.items }
    ensures told { IfOk result
        (TellsSplices calls.now count words.old.items words.new.items) }
    ensures kind { IfErr result (λ e. e.kind ≡ ErrorKind.OutOfMemory) }
    ensures wanted { IfErr result (λ _. WantsRoom calls.now) }
{
    let mut left = count;
    let mut is_whole = true;
    for call in calls {
        match write_splice(words, left, call)? {
            Spliced::Done(more) => {
                left = more;
                is_whole = false;
            }
            Spliced::Unplaced if is_whole => return Ok(Spliced::Unplaced),
            _ => return Ok(Spliced::Spoiled),
        }
    }
    if is_whole {
        return Ok(Spliced::Unplaced);
    }
    Ok(Spliced::Done(left))
}
