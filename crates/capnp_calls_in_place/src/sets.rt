//! Calls that set plain fields of a root.
ghost use Rattle.std.specs.Prelude.{◌≡◌, List, true, [], length, IfOk, IfErr, IfSome};
ghost use Rattle.capnp_units.specs.declared.kinds.ErrorKind.{ErrorKind};
ghost use Rattle.capnp_model.specs.Trees.{Tree};
ghost use Rattle.capnp_model.specs.Trimming.{trim};
ghost use Rattle.capnp_model.specs.Fits.{Fits};
ghost use Rattle.capnp_model.specs.Encoding.{canonical_words};
ghost use Rattle.capnp_model.specs.Calls.{Call as ModelCall};
ghost use Rattle.capnp_values_queries.specs.declared.structs.StructSchema.{StructSchema as AnySchema};
ghost use Rattle.capnp_calls.specs.Resolved.{call_of, calls_of, KnowsSplice, KnowSplices};
ghost use Rattle.capnp_calls_splice.specs.declared.splice.Put.TheVariants as puts;
ghost use Rattle.capnp_wire_canonical.specs.Writes.{words_view};
ghost use Rattle.capnp_calls_in_place.specs.PlainSets.{IsPlain, ArePlain, SetsWords};

use capnp_calls::resolved::Resolved;
use capnp_calls_splice::plain::PlainSet;
use capnp_calls_splice::splice::{Put, Splice};
use capnp_calls_splice::words::put_in_root;
use capnp_units::errors::Result;
use capnp_units::sizes::Word;
use std::alloc::Global;

/// Returns the number that a splice writes into the root itself; `None` if it writes something
/// else.
fn number_of(splice: &Splice) -> Option<PlainSet>
    ensures { IfSome result (λ set. (splice.now.hops.items ≡ [])
        × (splice.now.put ≡ puts.Number set)) }
{
    if !splice.hops.is_empty() {
        return None;
    }
    match &splice.put {
        Put::Number(set) => Some(*set),
        Put::Blob { .. } => None,
        Put::Member { .. } => None,
        Put::BlobAt { .. } => None,
        Put::NumberAt { .. } => None,
    }
}

/// Returns the number that a call writes into the data of a root. `None` unless the call is the
/// `set` of a plain field of the root that is not a member of a union, to a value of its type.
pub fn plain_set(call: &Resolved<'_>) -> Option<PlainSet>
    ensures { (schema : AnySchema) → KnowsSplice schema call.now
        → IfSome result (IsPlain schema (call_of call.now)) }
{
    match call.splice() {
        Some(splice) => number_of(splice),
        None => None,
    }
}

/// Returns the number that each call writes into the data of a root; `None` if a call writes no
/// number. `OutOfMemory`: the list can't grow.
pub fn plain_sets(alloc: Global, calls: &[Resolved<'_>]) -> Result<Option<Vec<PlainSet>>>
    ensures plain { (schema : AnySchema) → KnowSplices schema calls.now
        → IfOk result (λ found. IfSome found
        (λ sets. ArePlain schema (calls_of calls.now) sets.items)) }
    ensures kind { IfErr result (λ e. e.kind ≡ ErrorKind.OutOfMemory) }
{
    let mut sets = Vec::new(alloc);
    for call in calls {
        match plain_set(call) {
            Some(set) => sets.push(set)?,
            None => return Ok(None),
        }
    }
    Ok(Some(sets))
}

/// Writes numbers into the data of a root whose message has these canonical words. It returns
/// whether the words are the canonical words of the result, trimmed. They aren't if the root is not
/// a struct with a word for each number, or if its last data word becomes zero; then some of the
/// numbers may be written. Only the root's data change.
pub fn write_sets(words: &mut [Word], sets: &[PlainSet]) -> bool
    ensures sets { (schema : AnySchema) (calls : List ModelCall) (t : Tree) → result ≡ true
        → ArePlain schema calls sets.now → Fits t → trim t ≡ t
        → words_view words.old ≡ canonical_words t
        → SetsWords schema calls t (words_view words.new) }
    ensures len { length words.new ≡ length words.old }
{
    put_in_root(words, sets)
}
