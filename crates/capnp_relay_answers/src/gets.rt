//! Calls that write nothing, answered at the words of a message's value in place.
ghost use Rattle.std.specs.Prelude.{◌≡◌, ◌≤◌, ◌<◌, ◌^◌, false, length, map, IfOk, IfSome};
ghost use Rattle.capnp_model.specs.Trees.{Tree, is_null};
ghost use Rattle.capnp_model.specs.Encoding.{canonical_words};
ghost use Rattle.capnp_calls.specs.Replies.{reply_view};
ghost use Rattle.capnp_calls.specs.Resolved.{calls_of, AreResolved};
ghost use Rattle.capnp_wire_canonical.specs.Writes.{filled};
ghost use Rattle.capnp_relay_answers.specs.Gets.{ShowsRoot, TellsAt, TellsWords};

use crate::near::OneSegment;
use capnp_calls::reply::Reply;
use capnp_calls::resolved::Resolved;
use capnp_calls_replies::root::reply_to;
use capnp_model::laws::words_mean_their_value;
use capnp_model_writes::laws_of_canonical_words::canonical_words_in_place;
use capnp_model_writes::laws_of_depths::depths_of_owned_values;
use capnp_units::errors::Result;
use capnp_units::limiter::ReadLimiter;
use capnp_units::sizes::{Word, words_as_bytes};
use capnp_values::dynamic_struct;
use capnp_values::laws::pointers_are_read;
use capnp_values_queries::structs::StructSchema;
use capnp_wire::pointer::PointerReader;
use capnp_wire_canonical::laws::segments_of_words;
use capnp_wire_objects::arena::ReaderArena;
use capnp_wire_objects::place::ROOT;
use std::alloc::Global;

/// Returns the struct at the root of a message, under a schema; `None` if it can't be read as a
/// struct.
fn root_struct<'a, A: ReaderArena>(
    arena: &'a A,
    schema: StructSchema<'a>,
) -> Option<dynamic_struct::Reader<'a, A>>
    ensures schema { IfSome result (λ root. root.schema ≡ schema.entry) }
    ensures record { IfSome result
        (ShowsRoot A.segments (A.segments arena.now) (A.nesting arena.now)) }
{
    pointers_are_read();
    let mut unlimited = ReadLimiter::new(None);
    match PointerReader::at(arena, ROOT).get_struct(&mut unlimited, None) {
        Ok(reader) => Some(dynamic_struct::Reader::new(reader, schema)),
        Err(_) => None,
    }
}

/// Returns the replies of calls at a struct that is read; `None` if one of them is to be written.
/// `OutOfMemory`: an allocation was refused, or a text would have more than 1,024 nested structs,
/// groups and lists.
fn reply_each<A: ReaderArena>(
    alloc: Global,
    root: dynamic_struct::Reader<'_, A>,
    calls: &[Resolved<'_>],
) -> Result<Option<Vec<Reply>>>
    requires { AreResolved root.schema calls.now }
    ensures { IfOk result (λ found. IfSome found (λ told.
        TellsAt A.segments root.entry (calls_of calls.now) (map reply_view told.items))) }
{
    let mut replies = Vec::new(alloc);
    for call in calls {
        let reply = reply_to(alloc, root, call)?;
        match reply {
            Reply::Done => return Ok(None),
            other => replies.push(other)?,
        }
    }
    Ok(Some(replies))
}

/// Returns whether the first of the words at the front of a buffer is zero, as that of null is.
#[inline]
fn begins_with_zero(words: &[Word], count: usize) -> bool
    requires { (0 < count) × (count ≤ length words.now) }
    ensures { (t : Tree) → filled count words.now ≡ canonical_words t → result ≡ false
        → is_null t ≡ false }
{
    u64::from_le_bytes(words[0]) == 0
}

/// Returns the replies of calls at the value whose `count` canonical words are at the front of a
/// buffer, read in place. `None` if the value is not a struct, or a call is to be written.
/// `OutOfMemory`: like `reply_each`.
///
/// A null counts as an empty struct, which has other words. So it is left to the caller.
pub(crate) fn reply_in_place(
    alloc: Global,
    words: &[Word],
    count: usize,
    schema: StructSchema<'_>,
    calls: &[Resolved<'_>],
) -> Result<Option<Vec<Reply>>>
    requires count { (0 < count) × (count < 2 ^ 29) × (count ≤ length words.now) }
    requires resolved { AreResolved schema calls.now }
    ensures { IfOk result (λ found. IfSome found (λ told. TellsWords schema.entry
        (calls_of calls.now) (filled count words.now) (map reply_view told.items))) }
{
    canonical_words_in_place();
    depths_of_owned_values();
    words_mean_their_value();
    let front = &words[..count];
    segments_of_words(front);
    if begins_with_zero(words, count) {
        return Ok(None);
    }
    let message = OneSegment {
        bytes: words_as_bytes(front),
    };
    let Some(root) = root_struct(&message, schema) else {
        return Ok(None);
    };
    reply_each(alloc, root, calls)
}
