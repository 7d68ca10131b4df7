//! The trait of types that answer messages.
ghost use Rattle.std.specs.Prelude.{◌≡◌, IfOk, Err};
ghost use Rattle.capnp_model.specs.Segments.{Segments};
ghost use Rattle.capnp_model.specs.Answers.{Answer};
ghost use Rattle.capnp_units.specs.Segments.{words_in};
ghost use Rattle.capnp_stream.specs.Buffers.{found_segments};
ghost use Rattle.capnp_copy_arenas.specs.Memory.{AllZero};
ghost use Rattle.capnp_relay_loop.specs.MessageAnswers.{answer_view, StandsInBuffer};

use crate::answer::{MessageAnswer, Want};
use capnp_stream::buffers::NoAllocSliceSegments;
use capnp_units::sizes::Word;
use std::alloc::Global;

/// A type that answers messages.
pub trait Answers {
    /// Whether this is an answer to the message of these segments.
    ghost is_answer: { Self → Segments → Answer → Type 0 };

    /// Whether the message is too large to be answered.
    ghost is_too_large: { Self → Segments → Type 0 };

    /// Returns the answer to a message. The words that are written are at the front of `words`,
    /// whatever they held before. The region is all zeros, before and after.
    ///
    /// `Memory`: an allocation was refused. `Size`: the message is too large to be answered. After
    /// either, nothing is promised of the words.
    fn answer(
        &self,
        alloc: Global,
        message: &NoAllocSliceSegments<'_>,
        region: &mut [u8],
        words: &mut Vec<Word>,
    ) -> Result<MessageAnswer, Want>
        requires zeros { AllZero region.old }
        ensures value { IfOk result (λ a. is_answer self.now
            (words_in (found_segments message.now)) (answer_view words.new.items a)) }
        ensures stands { IfOk result (StandsInBuffer words.new.items) }
        ensures size { result ≡ Err Want.Size → is_too_large self.now
            (words_in (found_segments message.now)) }
        ensures zeros { region.new ≡ region.old };
}
