//! The answers of calls, and the reasons why a script can't continue.

use capnp_units::errors::Error;
use capnp_units::kinds::ErrorKind;
use std::alloc::{AllocError, AllocFailed};

/// The reason why a call has no answer, or has an answer other than that it is done.
#[derive(Clone, Copy, Debug, thiserror::Error)]
pub enum Stop {
    #[error("refused")]
    Refused(ErrorKind),
    #[error("no such index")]
    NoIndex,
    #[error("no line of a script")]
    Shape,
    #[error("out of memory")]
    Memory,
}

impl From<Error> for Stop {
    fn from(error: Error) -> Stop {
        Stop::Refused(error.kind)
    }
}

impl From<AllocError> for Stop {
    fn from(_e: AllocError) -> Stop {
        Stop::Memory
    }
}

impl<T: Drop> From<AllocFailed<T>> for Stop {
    fn from(_e: AllocFailed<T>) -> Stop {
        Stop::Memory
    }
}

/// The answer of a call: that it is done, with a length or a size if it has one.
pub type Answer = Result<Option<u64>, Stop>;

/// Returns the letter of a kind.
fn letter(kind: ErrorKind) -> &'static str {
    match kind {
        ErrorKind::OutOfBounds => "a",
        ErrorKind::MalformedFarPointer => "b",
        ErrorKind::WrongPointerKind => "c",
        ErrorKind::WrongElementSize => "d",
        ErrorKind::NestingLimitExceeded => "f",
        ErrorKind::ReadLimitExceeded => "g",
        ErrorKind::CapabilityInCanonical => "h",
        ErrorKind::TextWithoutZeroByte => "i",
        ErrorKind::UnknownPointerType => "j",
        ErrorKind::SizeOverflow => "l",
        ErrorKind::OutOfMemory => "m",
        ErrorKind::BufferNotLargeEnough => "n",
        _ => "?",
    }
}

/// Returns whether a call gave the written answer: a refusal by its letter, or by no letter if
/// several faults are possible.
pub fn is_answer(written: &str, answer: Answer) -> bool {
    match answer {
        Ok(None) => written == "k",
        Ok(Some(number)) => match written.strip_prefix('k') {
            Some(text) => text.parse::<u64>().ok() == Some(number),
            None => false,
        },
        Err(Stop::NoIndex) => written == "x",
        Err(Stop::Refused(kind)) => match written.strip_prefix('e') {
            Some(text) => text.is_empty() || text == letter(kind),
            None => false,
        },
        Err(Stop::Shape | Stop::Memory) => false,
    }
}
