//! Answers to messages.
ghost use Rattle.std.specs.Prelude.{◌≡◌};
ghost use Rattle.capnp_relay_loop.specs.declared.answer.Want.{Want};

use capnp_calls::reply::Reply;
use capnp_units::errors::Error;

/// The reason for which a message is skipped.
#[derive(Clone, Copy, Debug, PartialEq, Eq)]
pub enum Reason {
    /// It has no value within the bounds, or one with a capability.
    Value,
    /// Its root is a list.
    Root,
    /// The edited value is nested too deeply.
    Depth,
}

/// The number of words at the front of a buffer that are the one written segment, and the replies
/// of the calls; or the reason for which nothing is written.
#[derive(Debug, Drop)]
pub enum MessageAnswer {
    Written {
        count: usize,
        replies: Vec<Reply>,
    },
    /// The written segment if each call is done, with the number of calls instead of their replies.
    Done {
        count: usize,
        calls: usize,
    },
    /// The bytes of each of several segments that are written, instead of words in the buffer.
    Several {
        segments: Vec<Vec<u8>>,
        replies: Vec<Reply>,
    },
    Refused(Reason),
}

/// The reason for which no answer was made.
#[derive(Clone, Copy, Debug, PartialEq, Eq)]
pub enum Want {
    /// - An allocation was refused.
    /// - Or a value has more than 1,024 levels, although more are allowed.
    /// - Or a `get` would print more than 1,024 nested structs, groups and lists.
    Memory,
    /// A call makes a text or data of 2^29 bytes or more including the last zero, or a list of
    /// structs of 2^29 words or more. Or the words of one message in memory, including those that
    /// calls abandon, would exceed 2^29 - 1. Or a message that goes out as it is built has more
    /// than 511 segments.
    Size,
}

impl From<Error> for Want {
    ghost from_gives = { λ _ want. want ≡ Want.Memory };

    fn from(_error: Error) -> Want {
        Want::Memory
    }
}
