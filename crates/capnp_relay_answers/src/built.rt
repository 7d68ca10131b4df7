//! Answers of calls to a value that is built.
ghost use Rattle.std.specs.Prelude.{◌≡◌, ◌⊎◌, ◌↔◌, ◌≤◌, ◌<◌, ◌^◌, true, length, Err, IfOk, ◌++◌, []};
ghost use Rattle.std.specs.Option.{is_some};
ghost use Rattle.std.specs.List.{flat_map};
ghost use Rattle.capnp_model.specs.Segments.{root, words_at};
ghost use Rattle.capnp_units.specs.Segments.{words_in};
ghost use Rattle.capnp_calls.specs.Resolved.{calls_of, AreResolved};
ghost use Rattle.capnp_calls.specs.Roots.{IsRoot};
ghost use Rattle.capnp_copy_arenas.specs.Deep.{IsDeep};
ghost use Rattle.capnp_message.specs.Built.{loans_held};
ghost use Rattle.capnp_calls_run.specs.Runs.{EndsLongRoot};
ghost use Rattle.capnp_relay_loop.specs.declared.answer.Want.{Want};
ghost use Rattle.capnp_relay_answers.specs.Answers.{AnswersRoot, AnswersWords, IsTooLargeFrom};
ghost use Rattle.capnp_relay_answers.specs.Sizes.{EndsBySize, MayPassWords};
ghost use Rattle.capnp_wire_canonical.specs.Writes.{filled};

use crate::answer::{MessageAnswer, Reason, Want};
use crate::bounds::Bounds;
use crate::reading::{STACK_LEVELS, make_room};
use crate::sizes::may_pass_words;
use capnp_calls::resolved::Resolved;
use capnp_calls_run::fault::RunFault;
use capnp_calls_run::root::run_root;
use capnp_copy_arenas::allocator::Allocator;
use capnp_copy_arenas::arena::BuilderArena;
use capnp_copy_arenas::laws_of_arenas::arenas_are_deep;
use capnp_message::builder::Builder;
use capnp_model::laws::{
    trimmed_values, values_as_a_relation, values_on_walks, values_that_are_read,
    words_mean_their_value,
};
use capnp_model_writes::laws::changes_of_values;
use capnp_model_writes::laws_of_canonical_words::canonical_words_in_place;
use capnp_units::kinds::ErrorKind;
use capnp_units::limiter::ReadLimiter;
use capnp_units::sizes::Word;
use capnp_values_queries::structs::StructSchema;
use capnp_wire_canonical::copy::write_canonical;
use capnp_wire_objects::arena::ReaderArena;
use capnp_wire_objects::place::ROOT;
use std::alloc::Global;

/// Returns the reason for no answer if a sequence of calls ends early. `Size`: a call makes a list
/// that is too long, or the message's words exceed 2^29 - 1, and the estimate allows that many.
/// `Memory`: memory was refused.
pub(crate) fn want_after(
    fault: RunFault,
    schema: StructSchema<'_>,
    calls: &[Resolved<'_>],
    bounds: Bounds,
) -> Want
    ensures { (result ≡ Want.Size)
        ↔ EndsBySize fault schema.entry (calls_of calls.now) bounds }
{
    match fault {
        RunFault::Size => Want::Size,
        RunFault::Refused(e) => {
            if e.kind == ErrorKind::SizeOverflow && may_pass_words(schema, calls, bounds) {
                return Want::Size;
            }
            Want::Memory
        }
    }
}

/// Answers calls in order at the root of a message, a struct or null that takes no word twice. The
/// canonical words of the result are written into a buffer.
///
/// `Size`: a call makes a list that is too long, or the words of the message and its edits exceed
/// 2^29 - 1.
///
/// `Memory`: an allocation was refused, or the result has more than `STACK_LEVELS` levels, although
/// more are allowed. Or a `get` would print more than 1,024 nested structs, groups and lists. The
/// calls themselves take stack for each level of the values that they clear, which are not deeper
/// than the value and the calls' own paths and values together.
fn answer_root<A: BuilderArena>(
    alloc: Global,
    arena: &mut A,
    bounds: Bounds,
    schema: StructSchema<'_>,
    calls: &[Resolved<'_>],
    words: &mut Vec<Word>,
) -> Result<MessageAnswer, Want>
    requires arena { IsDeep A.segments A.nesting }
    requires there { is_some (words_at (words_in (A.segments arena.old)) root 1) ≡ true }
    requires root { IsRoot schema }
    requires resolved { AreResolved schema calls.now }
    ensures all { IfOk result (AnswersRoot schema.entry (calls_of calls.now) bounds.nesting
        (words_in (A.segments arena.old)) words.new.items) }
    ensures size { result ≡ Err Want.Size → EndsLongRoot (words_in (A.segments arena.old))
        schema.entry (calls_of calls.now) ⊎ MayPassWords schema.entry (calls_of calls.now) bounds }
    ensures books { A.books arena.new ≡ A.books arena.old }
{
    changes_of_values();
    values_as_a_relation();
    values_on_walks();
    values_that_are_read();
    trimmed_values();
    words_mean_their_value();
    let replies = match run_root(alloc, arena, schema, calls) {
        Ok(replies) => replies,
        Err(fault) => return Err(want_after(fault, schema, calls, bounds)),
    };
    make_room(words, arena.size_in_words())?;
    let mut unlimited = ReadLimiter::new(None);
    let most = bounds.nesting.min(STACK_LEVELS);
    match write_canonical(arena, &mut unlimited, ROOT, most, words.as_mut_slice()) {
        Ok(count) => Ok(MessageAnswer::Written { count, replies }),
        Err(e) => match e.kind {
            ErrorKind::NestingLimitExceeded if most == bounds.nesting => {
                Ok(MessageAnswer::Refused(Reason::Depth))
            }
            _ => Err(Want::Memory),
        },
    }
}

/// Answers calls in order at the value of a message, a struct or null, whose `count` canonical
/// words are at the front of the buffer. They become the message that is built, and the calls'
/// result is written into the buffer.
pub(crate) fn answer_built<A: Allocator>(
    alloc: Global,
    builder: &mut Builder<A>,
    count: usize,
    bounds: Bounds,
    schema: StructSchema<'_>,
    calls: &[Resolved<'_>],
    words: &mut Vec<Word>,
) -> Result<MessageAnswer, Want>
    requires empty { builder.old.memory.arena.segments.items ≡ [] }
    requires count { (0 < count) × (count < 2 ^ 29) × (count ≤ length words.old.items) }
    requires root { IsRoot schema }
    requires resolved { AreResolved schema calls.now }
    ensures all { IfOk result (AnswersWords schema.entry (calls_of calls.now) bounds.nesting
        (filled count words.old.items) words.new.items) }
    ensures size { result ≡ Err Want.Size → IsTooLargeFrom schema.entry (calls_of calls.now)
        bounds (filled count words.old.items) }
    ensures place { A.place builder.new.memory.arena.allocator
        ≡ A.place builder.old.memory.arena.allocator }
    ensures loans { loans_held builder.new.memory.arena
        ≡ A.loans builder.old.memory.arena.allocator }
{
    arenas_are_deep::<A>();
    canonical_words_in_place();
    builder.set_words(&words[..count])?;
    answer_root(
        alloc,
        &mut builder.memory.arena,
        bounds,
        schema,
        calls,
        words,
    )
}
