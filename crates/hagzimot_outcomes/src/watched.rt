//! Answers that note the outcome of each message and its calls.
ghost use Rattle.std.specs.Prelude.{◌≡◌, ℕ, List, IfOk};
ghost use Rattle.capnp_relay_loop.specs.MessageAnswers.{answer_view};
ghost use Rattle.hagzimot_outcomes.specs.Outcomes.{refused_place};
ghost use Rattle.hagzimot_outcomes.specs.Watching.{refused_call, IsOutcomeOf};

use crate::notes::Notes;
use crate::outcomes::{Cause, Outcome, RefusedCall, first_refusal, outcomes_of, refused_calls};
use crate::skips::Skips;
use capnp_calls::reply::Reply;
use capnp_relay_loop::answer::{MessageAnswer, Reason, Want};
use capnp_relay_loop::answers::Answers;
use capnp_stream::buffers::NoAllocSliceSegments;
use capnp_units::sizes::Word;
use std::alloc::{AllocError, Global};
use std::cell::Cell;

/// Returns the replies of an answer that were made one by one. Returns no replies if each call is
/// done, or if the message has no answer.
#[inline(always)]
fn replies_of(answer: &MessageAnswer) -> &[Reply]
    ensures { (into : List (List ℕ)) → refused_call (answer_view into answer.now)
        ≡ refused_place result.now }
{
    match answer {
        MessageAnswer::Written { count: _, replies } => replies.as_slice(),
        MessageAnswer::Several {
            segments: _,
            replies,
        } => replies.as_slice(),
        MessageAnswer::Done { .. } | MessageAnswer::Refused(_) => &[],
    }
}

/// Answers that pass through unchanged. Refused calls are counted, and messages without an answer
/// are looked at.
// Measured: if each call is done, nothing is counted, so a small message costs nothing more.
#[derive(Drop)]
pub struct Counted<'a, 'n, A, N> {
    pub answers: &'a A,
    /// The number of calls that were refused so far.
    pub refused: &'n Cell<u64>,
    pub notes: &'n N,
}

impl<A: Answers, N: Notes> Answers for Counted<'_, '_, A, N> {
    ghost is_answer = { λ c. A.is_answer c.answers.now };

    ghost is_too_large = { λ c. A.is_too_large c.answers.now };

    #[inline(always)]
    fn answer(
        &self,
        alloc: Global,
        message: &NoAllocSliceSegments<'_>,
        region: &mut [u8],
        words: &mut Vec<Word>,
    ) -> Result<MessageAnswer, Want> {
        let answer = self.answers.answer(alloc, message, region, words);
        match &answer {
            Ok(MessageAnswer::Refused(_)) => self.notes.look_at_refused(alloc, message),
            Ok(answer) => {
                let replies = replies_of(answer);
                if !replies.is_empty() {
                    let refused = refused_calls(replies) as u64;
                    self.refused.set(self.refused.get().saturating_add(refused));
                }
            }
            Err(_) => {}
        }
        answer
    }
}

/// Answers that note the outcome of each message. If they are strict, a message with a refused call
/// is refused too.
#[derive(Drop)]
pub struct Watched<'a, 'n, 'p, 'i, A, N> {
    pub answers: &'a A,
    /// The receiver of the outcome of each message.
    pub notes: &'n N,
    pub is_strict: bool,
    /// The calls that the answers leave out, if they leave some out.
    pub skips: Option<Skips<'p, 'i>>,
}

/// Returns the outcome of a message with this answer, whose calls all ran.
fn outcome_of(alloc: Global, answer: &MessageAnswer) -> Result<Outcome, AllocError>
    ensures { IfOk result (IsOutcomeOf answer.now) }
{
    match answer {
        MessageAnswer::Done { count: _, calls } => Ok(Outcome::Done(*calls)),
        MessageAnswer::Refused(reason) => Ok(Outcome::Refused(Cause::Message(*reason))),
        MessageAnswer::Written { count: _, replies } => {
            Ok(Outcome::Written(outcomes_of(alloc, replies)?))
        }
        MessageAnswer::Several {
            segments: _,
            replies,
        } => Ok(Outcome::Written(outcomes_of(alloc, replies)?)),
    }
}

impl<A, N: Notes> Watched<'_, '_, '_, '_, A, N> {
    ghost use Rattle.std.specs.Prelude.{◌≡◌, IfErr};
    ghost use Rattle.capnp_relay_loop.specs.declared.answer.Want.{Want};

    /// Notes the outcome of a message with this answer.
    fn note(&self, alloc: Global, answer: &MessageAnswer) -> Result<(), Want>
        ensures { IfErr result (λ want. want ≡ Want.Memory) }
    {
        let outcome = match (outcome_of(alloc, answer), self.skips) {
            (Ok(outcome), Some(skips)) => skips.among(alloc, outcome),
            (outcome, _) => outcome,
        };
        match outcome {
            Ok(outcome) => {
                self.notes.note(outcome);
                Ok(())
            }
            Err(_) => Err(Want::Memory),
        }
    }

    /// Notes that a message is refused for the call at a place, counted from 0, with this reply.
    fn note_refused(&self, reply: Option<&Reply>, place: usize) {
        let Some(Reply::Refused(kind)) = reply else {
            return;
        };
        let call = RefusedCall {
            number: place.saturating_add(1),
            kind: *kind,
        };
        let call = match self.skips {
            Some(skips) => skips.numbered(call),
            None => call,
        };
        self.notes.note(Outcome::Refused(Cause::Call(call)));
    }
}

impl<A: Answers, N: Notes> Answers for Watched<'_, '_, '_, '_, A, N> {
    ghost use Rattle.hagzimot_outcomes.specs.Watching.{IsWatched};

    ghost is_answer = { λ w. IsWatched w.is_strict (A.is_answer w.answers.now) };

    ghost is_too_large = { λ w. A.is_too_large w.answers.now };

    fn answer(
        &self,
        alloc: Global,
        message: &NoAllocSliceSegments<'_>,
        region: &mut [u8],
        words: &mut Vec<Word>,
    ) -> Result<MessageAnswer, Want> {
        let answer = self.answers.answer(alloc, message, region, words)?;
        if self.is_strict {
            let replies = replies_of(&answer);
            if let Some(place) = first_refusal(replies) {
                self.note_refused(replies.get(place), place);
                return Ok(MessageAnswer::Refused(Reason::Value));
            }
        }
        if matches!(answer, MessageAnswer::Refused(_)) {
            self.notes.look_at_refused(alloc, message);
        }
        self.note(alloc, &answer)?;
        Ok(answer)
    }
}
