//! Answers of calls to a message, made in a lent region.
ghost use Rattle.std.specs.Prelude.{◌≡◌, ◌≤◌, length, Err, IfOk, IfErr, IfSome};
ghost use Rattle.capnp_units.specs.Segments.{words_in};
ghost use Rattle.capnp_copy_arenas.specs.Memory.{AllZero};
ghost use Rattle.capnp_relay_loop.specs.declared.answer.Want.{Want};
ghost use Rattle.capnp_calls_splice.specs.Splices.{StandsWithin};
ghost use Rattle.capnp_wire_canonical.specs.Writes.{filled};
ghost use Rattle.capnp_relay_answers.specs.Answers.{AnswersWords, IsAnswered, IsTooLargeFrom, MakesTooLarge, ReadsRootValue, TellsKnown};
ghost use Rattle.capnp_relay_answers.specs.RootCalls.{root_schema, root_calls};

use crate::bounds::Bounds;
use crate::built::answer_built;
use crate::gets::reply_in_place;
use crate::reading::{can_be_opened, read_value};
use crate::root_calls::RootCalls;
use capnp_calls_splice::splice::Spliced;
use capnp_copy_arenas::allocator::Allocator;
use capnp_message::builder::Builder;
use capnp_message_allocators::scratch::ScratchSpaceHeapAllocator;
use capnp_model::laws::{trimmed_values, words_mean_their_value};
pub use capnp_relay_loop::answer::{MessageAnswer, Reason, Want};
use capnp_units::sizes::Word;
use capnp_wire_objects::arena::ReaderArena;
use std::alloc::Global;

/// The outcome of calls whose writes are known. It doesn't hold the answer, which is larger and
/// would be copied for each message.
#[derive(Clone, Copy, Debug)]
pub(crate) enum Known {
    /// All writes are done, and the message has n words then.
    Done(usize),
    /// The message is skipped.
    Refused(Reason),
    /// A write has no place. The message's n words are in the buffer as they were read.
    Stands(usize),
    /// Some of the writes may be done, and the words in the buffer must not be used.
    Spoiled,
}

/// Returns the number of words at the front of a buffer that are those of a message's value,
/// trimmed, which is a struct or null; or the reason for which the message is skipped.
#[inline(always)]
pub(crate) fn read_root<M: ReaderArena>(
    message: &M,
    bounds: Bounds,
    words: &mut Vec<Word>,
) -> Result<Result<usize, Reason>, Want>
    ensures root { IfOk result
        (ReadsRootValue bounds (words_in (M.segments message.now)) words.new.items) }
    ensures memory { IfErr result (λ want. want ≡ Want.Memory) }
{
    let Some(count) = read_value(message, bounds, words)? else {
        return Ok(Err(Reason::Value));
    };
    if !can_be_opened(words, count) {
        return Ok(Err(Reason::Root));
    }
    Ok(Ok(count))
}

/// Returns the answer if the writes of all calls are known, made in the words to which the message
/// was read, if all writes can be done there.
#[inline(always)]
fn answer_known<M: ReaderArena>(
    message: &M,
    bounds: Bounds,
    calls: &RootCalls<'_>,
    words: &mut Vec<Word>,
) -> Result<Known, Want>
    ensures answer { IfOk result (TellsKnown (root_schema calls.now) (root_calls calls.now) bounds
        (words_in (M.segments message.now)) words.new.items) }
    ensures memory { IfErr result (λ want. want ≡ Want.Memory) }
{
    trimmed_values();
    words_mean_their_value();
    let count = match read_root(message, bounds, words)? {
        Ok(count) => count,
        Err(reason) => return Ok(Known::Refused(reason)),
    };
    match calls.put(words, count)? {
        Spliced::Done(after) => Ok(Known::Done(after)),
        Spliced::Unplaced => Ok(Known::Stands(count)),
        Spliced::Spoiled => Ok(Known::Spoiled),
    }
}

/// Returns the answer of calls that are each a `get`: their replies, at the words to which the
/// message was read, and these words unchanged. `None` if its root is null.
#[inline(always)]
fn answer_gets<M: ReaderArena>(
    alloc: Global,
    message: &M,
    bounds: Bounds,
    calls: &RootCalls<'_>,
    words: &mut Vec<Word>,
) -> Result<Option<MessageAnswer>, Want>
    ensures answer { IfOk result (λ found. IfSome found (IsAnswered (root_schema calls.now)
        (root_calls calls.now) bounds (words_in (M.segments message.now)) words.new.items)) }
    ensures memory { IfErr result (λ want. want ≡ Want.Memory) }
{
    trimmed_values();
    words_mean_their_value();
    let count = match read_root(message, bounds, words)? {
        Ok(count) => count,
        Err(reason) => return Ok(Some(MessageAnswer::Refused(reason))),
    };
    let Some(replies) = reply_in_place(alloc, words, count, calls.schema, calls.resolved())? else {
        return Ok(None);
    };
    Ok(Some(MessageAnswer::Written { count, replies }))
}

/// Returns the answer to a message whose canonical words are at the front of the buffer, a struct
/// or null, which is edited in memory of this allocator. All of the memory is returned.
fn answer_read<L: Allocator>(
    alloc: Global,
    allocator: &mut L,
    bounds: Bounds,
    calls: &RootCalls<'_>,
    count: usize,
    words: &mut Vec<Word>,
) -> Result<MessageAnswer, Want>
    requires one { length (L.loans allocator.old) ≤ 1 }
    requires stands { StandsWithin words.old.items count }
    ensures answer { IfOk result (AnswersWords (root_schema calls.now) (root_calls calls.now)
        bounds.nesting (filled count words.old.items) words.new.items) }
    ensures size { result ≡ Err Want.Size → IsTooLargeFrom (root_schema calls.now)
        (root_calls calls.now) bounds (filled count words.old.items) }
    ensures loans { L.loans allocator.new ≡ L.loans allocator.old }
    ensures place { L.place allocator.new ≡ L.place allocator.old }
{
    let mut builder = Builder::new(alloc, allocator);
    let answered = answer_built(
        alloc,
        &mut builder,
        count,
        bounds,
        calls.schema,
        &calls.calls,
        words,
    );
    // A message isn't dropped: this gives its memory back.
    let _allocator = builder.into_allocator();
    answered
}

/// Returns the answer to a message, whose value is edited in memory of this allocator. All of the
/// memory is returned.
#[inline(never)]
fn answer_over<L: Allocator, M: ReaderArena>(
    alloc: Global,
    allocator: &mut L,
    message: &M,
    bounds: Bounds,
    calls: &RootCalls<'_>,
    words: &mut Vec<Word>,
) -> Result<MessageAnswer, Want>
    requires one { length (L.loans allocator.old) ≤ 1 }
    ensures answer { IfOk result (IsAnswered (root_schema calls.now) (root_calls calls.now) bounds
        (words_in (M.segments message.now)) words.new.items) }
    ensures size { result ≡ Err Want.Size → MakesTooLarge (root_schema calls.now)
        (root_calls calls.now) bounds (words_in (M.segments message.now)) }
    ensures loans { L.loans allocator.new ≡ L.loans allocator.old }
    ensures place { L.place allocator.new ≡ L.place allocator.old }
{
    let count = match read_root(message, bounds, words)? {
        Ok(count) => count,
        Err(reason) => return Ok(MessageAnswer::Refused(reason)),
    };
    answer_read(alloc, allocator, bounds, calls, count, words)
}

/// Returns the answer to a message whose canonical words are at the front of the buffer, a struct
/// or null, edited in the region. It is a function of its own, to keep the path of calls with known
/// writes short.
#[inline(never)]
fn answer_standing(
    alloc: Global,
    bounds: Bounds,
    calls: &RootCalls<'_>,
    count: usize,
    region: &mut [u8],
    words: &mut Vec<Word>,
) -> Result<MessageAnswer, Want>
    requires zeros { AllZero region.old }
    requires stands { StandsWithin words.old.items count }
    ensures answer { IfOk result (AnswersWords (root_schema calls.now) (root_calls calls.now)
        bounds.nesting (filled count words.old.items) words.new.items) }
    ensures size { result ≡ Err Want.Size → IsTooLargeFrom (root_schema calls.now)
        (root_calls calls.now) bounds (filled count words.old.items) }
    ensures zeros { region.new ≡ region.old }
{
    let mut allocator = ScratchSpaceHeapAllocator::resume(alloc, region);
    answer_read(alloc, &mut allocator, bounds, calls, count, words)
}

/// Answers like `answer_in_place`, if the writes of some call aren't known, or the words to which
/// the message was read are spoiled. It is a function of its own, to keep the path of other calls
/// short.
#[inline(never)]
fn answer_unknown<M: ReaderArena>(
    alloc: Global,
    message: &M,
    bounds: Bounds,
    calls: &RootCalls<'_>,
    region: &mut [u8],
    words: &mut Vec<Word>,
) -> Result<MessageAnswer, Want>
    requires zeros { AllZero region.old }
    ensures answer { IfOk result (IsAnswered (root_schema calls.now) (root_calls calls.now) bounds
        (words_in (M.segments message.now)) words.new.items) }
    ensures size { result ≡ Err Want.Size → MakesTooLarge (root_schema calls.now)
        (root_calls calls.now) bounds (words_in (M.segments message.now)) }
    ensures zeros { region.new ≡ region.old }
{
    if calls.are_gets() {
        if let Some(answer) = answer_gets(alloc, message, bounds, calls, words)? {
            return Ok(answer);
        }
    }
    let mut allocator = ScratchSpaceHeapAllocator::resume(alloc, region);
    answer_over(alloc, &mut allocator, message, bounds, calls, words)
}

/// Answers calls in order at the root of a message, like the model, including lists. The message's
/// value, trimmed, is copied into the region and edited there. The result is written into the
/// buffer, as its canonical words.
///
/// The value is edited in the buffer, and the region isn't touched, if each call sets
/// - a plain field, a text or data;
/// - a plain or void member of a union;
/// - an element of a list of plain values, texts or data.
///
/// The path goes through structs, groups and elements of lists of structs. A field before the last,
/// and a list on the path, is not a member of a union. Everything on the path exists, and an
/// element replaces an old one. A text or data replaces an old one too, or null beside another
/// pointer of its struct or list that leads to words. The elements of lists of structs keep their
/// widths.
///
/// If the write of the first call has no place, the message isn't read again: its value is copied
/// into the region from the buffer. The message is read once more if
/// - the write of a later call has no place;
/// - an element of a list of structs would get wider or narrower;
/// - the root is null, and there are no calls, or each is a `get`.
///
/// If each call is a `get`, and the root isn't null, the value is read in the buffer, and the
/// region isn't touched either.
///
/// A message is skipped
/// - as `Value`, if it has no value within the bounds, or a value with a capability;
/// - as `Root`, if its root is a list;
/// - as `Depth`, if the calls nest it too deeply.
///
/// The region is all zeros before, and after, whatever the answer is. It doesn't need room for the
/// message; the message's words then come from `alloc`, and so do the words that the calls add past
/// the region's end.
///
/// The buffer grows if it is too short: to the message's own words, and to its words after a call.
/// If pointers share words, so that the canonical words are more than the message's own, it grows
/// to one word more than the bounds allow. When a message is read, the buffer gets 16 words more
/// than that. Its earlier contents don't matter.
///
/// `Size`:
/// - a call that is done makes a text or data of 2^29 bytes or more including the last zero, or a
///   list of structs of 2^29 words or more;
/// - the words of the edited message, including those that calls abandon, would exceed 2^29 - 1.
///
/// `Memory`:
/// - an allocation was refused;
/// - the bounds allow more than 1,024 levels, and the value, or the result of the calls, was found
///   to have more before any other fault was met;
/// - a `get` would print more than 1,024 nested structs, groups and lists.
///
/// After either, the buffer holds words with unspecified contents.
#[inline(always)]
pub fn answer_in_place<M: ReaderArena>(
    alloc: Global,
    message: &M,
    bounds: Bounds,
    calls: &RootCalls<'_>,
    region: &mut [u8],
    words: &mut Vec<Word>,
) -> Result<MessageAnswer, Want>
    requires zeros { AllZero region.old }
    ensures answer { IfOk result (IsAnswered (root_schema calls.now) (root_calls calls.now) bounds
        (words_in (M.segments message.now)) words.new.items) }
    ensures size { result ≡ Err Want.Size → MakesTooLarge (root_schema calls.now)
        (root_calls calls.now) bounds (words_in (M.segments message.now)) }
    ensures zeros { region.new ≡ region.old }
{
    if calls.are_known() {
        match answer_known(message, bounds, calls, words)? {
            Known::Done(count) => {
                let calls = calls.calls.len();
                return Ok(MessageAnswer::Done { count, calls });
            }
            Known::Refused(reason) => return Ok(MessageAnswer::Refused(reason)),
            Known::Stands(count) => {
                return answer_standing(alloc, bounds, calls, count, region, words);
            }
            Known::Spoiled => {}
        }
    }
    answer_unknown(alloc, message, bounds, calls, region, words)
}
