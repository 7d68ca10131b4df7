//! Answers by calls, some of which run only if a member is active in the message as it is read.
ghost use Rattle.std.specs.Prelude.{◌≡◌, ℕ, List, map, IfOk};
ghost use Rattle.capnp_calls.specs.CallViews.{call_view};
ghost use Rattle.capnp_relay_loop.specs.MessageAnswers.{answer_view};
ghost use Rattle.hagzimot_clears.specs.Clears.{is_inactive_at, runs_after, running};

use crate::active::ActiveClears;
use crate::planned::PlannedCall;
use capnp_calls::Call;
use capnp_calls::reply::Reply;
use capnp_relay_answers::root_calls::RootCalls;
use capnp_relay_loop::answer::{MessageAnswer, Want};
use capnp_relay_loop::answers::Answers;
use capnp_relay_streams::at_root::{CallsAtRoot, PlainCallsAtRoot};
use capnp_stream::buffers::NoAllocSliceSegments;
use capnp_units::kinds::ErrorKind;
use capnp_units::sizes::Word;
use std::alloc::{AllocError, Global};

/// Tests whether a call met an inactive member, or has no reply. The call has a number from 0.
fn is_inactive(answer: &MessageAnswer, number: usize) -> bool
    ensures { (words : List (List ℕ))
        → result ≡ is_inactive_at (answer_view words answer.now) number }
{
    let replies = match answer {
        MessageAnswer::Written { count: _, replies } => replies,
        MessageAnswer::Several {
            segments: _,
            replies,
        } => replies,
        MessageAnswer::Done { count: _, calls } => return number >= *calls,
        MessageAnswer::Refused(_) => return true,
    };
    match replies.get(number) {
        Some(Reply::Refused(kind)) => *kind == ErrorKind::InactiveMember,
        Some(_) => false,
        None => true,
    }
}

/// Tests whether a call runs, given the answer of the probes.
fn runs(probed: &MessageAnswer, call: &PlannedCall) -> bool
    ensures { (words : List (List ℕ))
        → result ≡ runs_after (answer_view words probed.now) call.now }
{
    match call.probe {
        Some(number) => !is_inactive(probed, number),
        None => true,
    }
}

/// Returns the calls that run, given the answer of the probes.
fn running_calls(
    alloc: Global,
    probed: &MessageAnswer,
    planned: &[PlannedCall],
) -> Result<Vec<Call>, AllocError>
    ensures { (words : List (List ℕ)) → IfOk result (λ calls.
        map call_view calls.items ≡ running (answer_view words probed.now) planned.now) }
{
    let mut calls = Vec::new(alloc);
    for call in planned {
        if runs(probed, call) {
            calls.push(call.copy(alloc)?)?;
        }
    }
    Ok(calls)
}

/// Returns the places of the first 64 probes that met an inactive member, as bits.
fn inactive_bits(probed: &MessageAnswer) -> u64 {
    let mut bits: u64 = 0;
    for number in 0..64u32 {
        if is_inactive(probed, number as usize) {
            bits |= 1 << number;
        }
    }
    bits
}

impl Answers for ActiveClears<'_, '_> {
    ghost use Rattle.hagzimot_clears.specs.Clears.{IsClearedAnswer, IsTooLargeToClear};

    ghost is_answer = { λ c. IsClearedAnswer c };

    ghost is_too_large = { λ c. IsTooLargeToClear c };

    fn answer(
        &self,
        alloc: Global,
        message: &NoAllocSliceSegments<'_>,
        region: &mut [u8],
        words: &mut Vec<Word>,
    ) -> Result<MessageAnswer, Want> {
        let probed = self.probes.answer(alloc, message, region, words)?;
        self.inactive.set(inactive_bits(&probed));
        let Ok(calls) = running_calls(alloc, &probed, self.planned) else {
            return Err(Want::Memory);
        };
        let Ok(calls) = RootCalls::new(alloc, self.schema, &calls) else {
            return Err(Want::Memory);
        };
        let bounds = self.bounds;
        if self.is_plain {
            let answers = PlainCallsAtRoot { calls, bounds };
            return answers.answer(alloc, message, region, words);
        }
        let answers = CallsAtRoot { calls, bounds };
        answers.answer(alloc, message, region, words)
    }
}
