//! Messages that are passed on unedited instead of being skipped.
ghost use Rattle.std.specs.Prelude.{◌≡◌, length, replicate};
ghost use Rattle.capnp_relay_loop.specs.Streams.{streams_of};
ghost use Rattle.capnp_relay_loop.specs.Pauses.{RelaysPausing};
ghost use Rattle.hagzimot_commands.specs.Passing.{passing_work};

use crate::copies::copy_segments;
use capnp_relay_loop::answer::{MessageAnswer, Reason, Want};
use capnp_relay_loop::answers::Answers;
use capnp_relay_loop::ends::{Counts, RelayFault};
use capnp_relay_loop::pauses::Pause;
use capnp_relay_loop::run::answer_all;
use capnp_stream::buffers::NoAllocSliceSegments;
use capnp_stream::forms::MessageForm;
use capnp_stream_io::traits::{BufRead, Read, Write};
use capnp_units::segments::ReaderSegments;
use capnp_units::sizes::Word;
use std::alloc::Global;
use std::cell::Cell;

/// Answers that pass on a message unedited if the inner answers would skip it. The reason for the
/// skip is noted.
#[derive(Drop)]
struct Passing<'a, A> {
    answers: &'a A,
    /// The reason for which the inner answers would skip the last message, if they would.
    noted: &'a Cell<Option<Reason>>,
}

impl<A: Answers> Answers for Passing<'_, A> {
    ghost use Rattle.hagzimot_commands.specs.Passing.{IsPassedOn, IsTooLargeToPass};

    ghost is_answer = { λ p. IsPassedOn (A.is_answer p.answers.now) };

    ghost is_too_large = { λ p. IsTooLargeToPass (A.is_too_large p.answers.now) };

    fn answer(
        &self,
        alloc: Global,
        message: &NoAllocSliceSegments<'_>,
        region: &mut [u8],
        words: &mut Vec<Word>,
    ) -> Result<MessageAnswer, Want> {
        let reason = match self.answers.answer(alloc, message, region, words) {
            Ok(MessageAnswer::Refused(reason)) => reason,
            other => return other,
        };
        if message.is_empty() {
            return Err(Want::Size);
        }
        let segments = copy_segments(alloc, message)?;
        self.noted.set(Some(reason));
        Ok(MessageAnswer::Several {
            segments,
            replies: Vec::new(alloc),
        })
    }
}

/// Works as `answer_all`, but passes on a message that would be skipped: the same segments, word
/// for word, in the form of the output. Its line of the log is `message N written`. Before that
/// line the reason for the skip is noted. Reading the note clears it.
///
/// Ends as `answer_all` does. Also `Memory`: an allocation for a message that is passed on was
/// refused, or one of its segments has 2^29 words or more.
pub fn pass_on_all<
    I: MessageForm,
    O: MessageForm,
    R: BufRead,
    W: Write,
    L: Write,
    A: Answers,
    P: Pause<R, W, L>,
>(
    alloc: Global,
    source: &mut R,
    out: &mut W,
    log: &mut L,
    answers: &A,
    noted: &Cell<Option<Reason>>,
    limit: usize,
    region: &mut [u8],
) -> Result<Counts, RelayFault>
    requires zeros { region.old ≡ replicate (length region.old) 0 }
    ensures run { let seen = streams_of ⟦<R as Read>⟧ ⟦<W as Write>⟧ ⟦<L as Write>⟧ in
        RelaysPausing P.may_fail (passing_work (A.is_answer answers.now)
        (A.is_too_large answers.now) I.reader O.writer limit W.may_grow L.may_grow)
        (seen source.old out.old log.old) (seen source.new out.new log.new) result }
    ensures zeros { region.new ≡ region.old }
{
    let passing = Passing { answers, noted };
    answer_all::<I, O, R, W, L, Passing<'_, A>, P>(alloc, source, out, log, &passing, limit, region)
}
