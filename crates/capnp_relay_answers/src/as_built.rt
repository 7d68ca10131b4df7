//! Answers of calls to a message in the plain form: the segments that were built go out unchanged,
//! not trimmed.
ghost use Rattle.std.specs.Prelude.{◌≡◌, ◌≤◌, ◌<◌, ◌^◌, ◌*◌, ◌/◌, ℕ, true, false, map, length, take, Some, Ok, Err, IfOk, IfErr, OnOk, [], ◌∷◌, ◌++◌};
ghost use Rattle.std.specs.Option.{is_some};
ghost use Rattle.capnp_model.specs.Segments.{root, words_at};
ghost use Rattle.capnp_model.specs.Trees.{Tree, depth};
ghost use Rattle.capnp_model.specs.Traversal.{tree_at};
ghost use Rattle.capnp_units.specs.Segments.{words_in};
ghost use Rattle.capnp_calls.specs.Resolved.{calls_of, AreResolved};
ghost use Rattle.capnp_calls.specs.Roots.{IsRoot};
ghost use Rattle.capnp_wire_canonical.specs.Writes.{filled};
ghost use Rattle.capnp_copy_arenas.specs.Deep.{IsDeep};
ghost use Rattle.capnp_copy_arenas.specs.Memory.{AllZero};
ghost use Rattle.capnp_message.specs.Built.{loans_held};
ghost use Rattle.capnp_calls.specs.Replies.{reply_view};
ghost use Rattle.capnp_relay_loop.specs.MessageAnswers.{each_segment_bytes};
ghost use Rattle.capnp_relay_loop.specs.declared.answer.Want.{Want};
ghost use Rattle.capnp_relay_answers.specs.Plain.{AtRoot, AtWords, AnswersPlainRoot, AnswersPlainWords, CopiesSegments, IsLongPlain, IsPlainAnswered, IsTooLargePlain, PutsOut};
ghost use Rattle.capnp_relay_answers.specs.RootCalls.{root_schema, root_calls};

use crate::answer::{MessageAnswer, Reason, Want, read_root};
use crate::bounds::Bounds;
use crate::built::want_after;
use crate::near::only_segment;
use crate::reading::{STACK_LEVELS, copy_segment};
use crate::root_calls::RootCalls;
use capnp_calls::reply::Reply;
use capnp_calls::resolved::Resolved;
use capnp_calls_run::root::run_root;
use capnp_copy_arenas::allocator::Allocator;
use capnp_copy_arenas::arena::BuilderArena;
use capnp_copy_arenas::laws_of_arenas::arenas_are_deep;
use capnp_message::builder::Builder;
use capnp_message_allocators::scratch::ScratchSpaceHeapAllocator;
use capnp_model::laws::{values_as_a_relation, values_on_walks, values_that_are_read};
use capnp_model_writes::laws::changes_of_values;
use capnp_model_writes::laws_of_canonical_words::canonical_words_in_place;
use capnp_model_writes::laws_of_depths::changes_with_fewer_levels;
use capnp_units::errors::Error;
use capnp_units::limiter::ReadLimiter;
use capnp_units::sizes::Word;
use capnp_values_queries::structs::StructSchema;
use capnp_wire_objects::arena::ReaderArena;
use capnp_wire_objects::place::ROOT;
use capnp_wire_objects::size::size_at;
use std::alloc::Global;

/// The most segments of a message: readers refuse a table of more (`SEGMENTS_COUNT_LIMIT`).
const MOST_SEGMENTS: usize = 511;

/// The bound of a segment's bytes: a segment has fewer.
const SEGMENT_BYTES: usize = 8 * 0x2000_0000;

/// Returns whether the value at the root of a message is at most n levels deep. `Memory`: more
/// levels than `STACK_LEVELS` are allowed, and the value has more than these.
fn keeps_levels<A: ReaderArena>(arena: &A, levels: u32) -> Result<bool, Want>
    ensures keeps { result ≡ Ok true
        → ((t : Tree) × (tree_at levels (words_in (A.segments arena.now)) root ≡ Some t)) }
    ensures deeper { (n : ℕ) (t : Tree) → result ≡ Ok false
        → tree_at n (words_in (A.segments arena.now)) root ≡ Some t → levels < depth t }
    ensures memory { IfErr result (λ want. want ≡ Want.Memory) }
{
    values_that_are_read();
    values_on_walks();
    let mut unlimited = ReadLimiter::new(None);
    let most = levels.min(STACK_LEVELS);
    match size_at(arena, &mut unlimited, ROOT, most) {
        Ok(_) => Ok(true),
        Err(_) => {
            if most < levels {
                return Err(Want::Memory);
            }
            Ok(false)
        }
    }
}

/// Adds a copy of the whole words of a segment after the others. `OutOfMemory`: memory for it was
/// refused.
fn push_copy(alloc: Global, segments: &mut Vec<Vec<u8>>, bytes: &[u8]) -> Result<(), Error>
    ensures { OnOk result (each_segment_bytes segments.new
        ≡ each_segment_bytes segments.old ++ take (8 * (length bytes.now / 8)) bytes.now ∷ []) }
{
    let copy = bytes[..8 * (bytes.len() / 8)].to_vec(alloc)?;
    segments.push(copy)?;
    Ok(())
}

/// Returns copies of the segments of a message. `Memory`: memory for them was refused. `Size`:
/// there are more than 511.
fn copy_segments<M: ReaderArena>(alloc: Global, message: &M) -> Result<Vec<Vec<u8>>, Want>
    ensures copies { IfOk result
        (λ copies. CopiesSegments (M.segments message.now) (each_segment_bytes copies)) }
    ensures size { result ≡ Err Want.Size → 511 < length (M.segments message.now) }
{
    let mut segments = Vec::new(alloc);
    let mut id = 0;
    while let Some(bytes) = message.get_segment(id) {
        if segments.len() == MOST_SEGMENTS {
            return Err(Want::Size);
        }
        if bytes.len() >= SEGMENT_BYTES {
            return Err(Want::Memory);
        }
        push_copy(alloc, &mut segments, bytes)?;
        id += 1;
    }
    Ok(segments)
}

/// Returns the output for a message that is built, with these replies. It is the message's only
/// segment, copied to the front of the buffer, which grows if it is too short; or its several
/// segments.
///
/// `Memory`: an allocation was refused. `Size`: it has more than 511 segments.
fn written_as_built<M: ReaderArena>(
    alloc: Global,
    message: &M,
    replies: Vec<Reply>,
    words: &mut Vec<Word>,
) -> Result<MessageAnswer, Want>
    requires { 0 < length (M.segments message.now) }
    ensures puts { IfOk result (PutsOut (words_in (M.segments message.now))
        (map reply_view replies.items) words.new.items) }
    ensures size { result ≡ Err Want.Size → 511 < length (M.segments message.now) }
{
    let Some(bytes) = only_segment(message) else {
        let segments = copy_segments(alloc, message)?;
        return Ok(MessageAnswer::Several { segments, replies });
    };
    if bytes.len() >= SEGMENT_BYTES {
        return Err(Want::Memory);
    }
    let count = copy_segment(bytes, words)?;
    Ok(MessageAnswer::Written { count, replies })
}

/// Answers calls in order at the root of a message, a struct or null that takes no word twice and
/// beside which all words are zero. The result is written as it is built.
fn answer_plain_root<A: BuilderArena>(
    alloc: Global,
    arena: &mut A,
    bounds: Bounds,
    schema: StructSchema<'_>,
    calls: &[Resolved<'_>],
    words: &mut Vec<Word>,
) -> Result<MessageAnswer, Want>
    requires arena { IsDeep A.segments A.nesting }
    requires there { is_some (words_at (words_in (A.segments arena.old)) root 1) ≡ true }
    requires root { IsRoot schema }
    requires resolved { AreResolved schema calls.now }
    ensures all { IfOk result (AnswersPlainRoot schema.entry (calls_of calls.now) bounds.nesting
        (words_in (A.segments arena.old)) words.new.items) }
    ensures size { result ≡ Err Want.Size → AtRoot schema.entry bounds.nesting
        (words_in (A.segments arena.old)) (IsLongPlain schema.entry (calls_of calls.now) bounds) }
    ensures books { A.books arena.new ≡ A.books arena.old }
{
    changes_of_values();
    changes_with_fewer_levels();
    values_as_a_relation();
    values_that_are_read();
    let replies = match run_root(alloc, arena, schema, calls) {
        Ok(replies) => replies,
        Err(fault) => return Err(want_after(fault, schema, calls, bounds)),
    };
    let keeps = keeps_levels(arena, bounds.nesting)?;
    if !keeps {
        return Ok(MessageAnswer::Refused(Reason::Depth));
    }
    written_as_built(alloc, arena, replies, words)
}

/// Answers calls in order at the value of a message, a struct or null, whose `count` canonical
/// words are at the front of the buffer. They become the message that is built, and the calls'
/// result is written as it is built.
fn answer_plain_built<A: Allocator>(
    alloc: Global,
    builder: &mut Builder<A>,
    count: usize,
    bounds: Bounds,
    schema: StructSchema<'_>,
    calls: &[Resolved<'_>],
    words: &mut Vec<Word>,
) -> Result<MessageAnswer, Want>
    requires empty { builder.old.memory.arena.segments.items ≡ [] }
    requires count { (0 < count) × (count < 2 ^ 29) × (count ≤ length words.old.items) }
    requires root { IsRoot schema }
    requires resolved { AreResolved schema calls.now }
    ensures all { IfOk result (AnswersPlainWords schema.entry (calls_of calls.now) bounds.nesting
        (filled count words.old.items) words.new.items) }
    ensures size { result ≡ Err Want.Size → AtWords schema.entry bounds.nesting
        (filled count words.old.items) (IsLongPlain schema.entry (calls_of calls.now) bounds) }
    ensures place { A.place builder.new.memory.arena.allocator
        ≡ A.place builder.old.memory.arena.allocator }
    ensures loans { loans_held builder.new.memory.arena
        ≡ A.loans builder.old.memory.arena.allocator }
{
    arenas_are_deep::<A>();
    canonical_words_in_place();
    builder.set_words(&words[..count])?;
    answer_plain_root(
        alloc,
        &mut builder.memory.arena,
        bounds,
        schema,
        calls,
        words,
    )
}

/// Returns the plain answer to a message, whose value is edited in memory of this allocator. All of
/// the memory is returned.
#[inline(never)]
fn answer_plain_over<L: Allocator, M: ReaderArena>(
    alloc: Global,
    allocator: &mut L,
    message: &M,
    bounds: Bounds,
    calls: &RootCalls<'_>,
    words: &mut Vec<Word>,
) -> Result<MessageAnswer, Want>
    requires one { length (L.loans allocator.old) ≤ 1 }
    ensures answer { IfOk result (IsPlainAnswered (root_schema calls.now) (root_calls calls.now)
        bounds (words_in (M.segments message.now)) words.new.items) }
    ensures size { result ≡ Err Want.Size → IsTooLargePlain (root_schema calls.now)
        (root_calls calls.now) bounds (words_in (M.segments message.now)) }
    ensures loans { L.loans allocator.new ≡ L.loans allocator.old }
    ensures place { L.place allocator.new ≡ L.place allocator.old }
{
    let count = match read_root(message, bounds, words)? {
        Ok(count) => count,
        Err(reason) => return Ok(MessageAnswer::Refused(reason)),
    };
    let mut builder = Builder::new(alloc, allocator);
    let answered = answer_plain_built(
        alloc,
        &mut builder,
        count,
        bounds,
        calls.schema,
        &calls.calls,
        words,
    );
    // A message isn't dropped: this gives its memory back.
    let _allocator = builder.into_allocator();
    answered
}

/// Answers like `answer_in_place`, in the plain form: the message that is built goes out in its 1
/// to 511 segments, with only their used words, not trimmed. One segment is at the front of the
/// buffer, several are copied apart from it. Except for the root word, each of their words is zero
/// that is not covered by an object or pad reached from the root.
///
/// `Size`: also if the message that is built has more than 511 segments. `Memory`: also if memory
/// for their copies was refused. As in the canonical form, a value of more than `STACK_LEVELS`
/// levels is refused with `Memory` if more are allowed, and so is a `get` of more than it prints.
#[inline(always)]
pub fn answer_plain_in_place<M: ReaderArena>(
    alloc: Global,
    message: &M,
    bounds: Bounds,
    calls: &RootCalls<'_>,
    region: &mut [u8],
    words: &mut Vec<Word>,
) -> Result<MessageAnswer, Want>
    requires zeros { AllZero region.old }
    ensures answer { IfOk result (IsPlainAnswered (root_schema calls.now) (root_calls calls.now)
        bounds (words_in (M.segments message.now)) words.new.items) }
    ensures size { result ≡ Err Want.Size → IsTooLargePlain (root_schema calls.now)
        (root_calls calls.now) bounds (words_in (M.segments message.now)) }
    ensures zeros { region.new ≡ region.old }
{
    let mut allocator = ScratchSpaceHeapAllocator::resume(alloc, region);
    answer_plain_over(alloc, &mut allocator, message, bounds, calls, words)
}
