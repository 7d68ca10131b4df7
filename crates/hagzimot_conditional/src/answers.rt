//! Answers to the messages that keep an expression; the others go out as they came.

use crate::conditional::Conditional;
use capnp_relay_loop::answer::{MessageAnswer, Reason, Want};
use capnp_relay_loop::answers::Answers;
use capnp_stream::buffers::NoAllocSliceSegments;
use capnp_units::segments::ReaderSegments;
use capnp_units::sizes::Word;
use hagzimot_commands::copies::copy_segments;
use hagzimot_conditions::messages::keeps;
use std::alloc::Global;

impl<A: Answers> Answers for Conditional<'_, '_, '_, A> {
    ghost use Rattle.hagzimot_conditional.specs.Conditional.{IsConditional};
    ghost use Rattle.hagzimot_commands.specs.Passing.{IsTooLargeToPass};

    ghost is_answer = { λ c. IsConditional (A.is_answer c.answers.now) };

    ghost is_too_large = { λ c. IsTooLargeToPass (A.is_too_large c.answers.now) };

    fn answer(
        &self,
        alloc: Global,
        message: &NoAllocSliceSegments<'_>,
        region: &mut [u8],
        words: &mut Vec<Word>,
    ) -> Result<MessageAnswer, Want> {
        match keeps(self.conditions, self.sight, message) {
            Ok(true) => return self.answers.answer(alloc, message, region, words),
            Ok(false) => {}
            Err(_) => return Ok(MessageAnswer::Refused(Reason::Value)),
        }
        if message.is_empty() {
            return Err(Want::Size);
        }
        let segments = copy_segments(alloc, message)?;
        if let Some(inactive) = self.inactive {
            inactive.set(0);
        }
        Ok(MessageAnswer::Several {
            segments,
            replies: Vec::new(alloc),
        })
    }
}
