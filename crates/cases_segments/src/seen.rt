//! The result of a call, and whether it is the result that a case expects.

use crate::words::{bytes_of, segments_of};
use capnp_units::errors::Error;
use capnp_units::segments::ReaderSegments;
use std::alloc::{AllocError, Global};
use std::fmt::Display;

/// The result of a call.
#[derive(Drop, PartialEq)]
pub enum Seen {
    /// Bytes, which a case gives in hex.
    Bytes(Vec<u8>),
    /// The segments of a message.
    Segments(Vec<Vec<u8>>),
    /// A number, a kind of refusal, or another word.
    Word(String),
    /// A step that can't be taken.
    Nothing,
}

/// The result of a call that may need memory.
pub type Answer = Result<Seen, AllocError>;

impl Seen {
    /// Returns whether it is the result that the text gives; `x` means a step that can't be taken.
    pub fn is(&self, alloc: Global, text: &str) -> Result<bool, AllocError> {
        match self {
            Seen::Word(word) => Ok(word.as_str() == text),
            Seen::Nothing => Ok(text == "x"),
            Seen::Bytes(bytes) => match bytes_of(alloc, text)? {
                Some(wanted) => Ok(wanted == *bytes),
                None => Ok(false),
            },
            Seen::Segments(segments) => match segments_of(alloc, text)? {
                Some(wanted) => Ok(wanted == *segments),
                None => Ok(false),
            },
        }
    }
}

/// Returns a word.
pub fn word(alloc: Global, text: &str) -> Answer {
    Ok(Seen::Word(String::from_str(alloc, text)?))
}

/// Returns the name of a refusal's kind.
pub fn refusal(alloc: Global, error: Error) -> Answer {
    word(alloc, error.kind.name())
}

/// Returns a value shown as text.
pub fn shown<T: Display>(alloc: Global, value: &T) -> Answer {
    Ok(Seen::Word(format!(in alloc; "{value}")?))
}

/// Returns bytes.
pub fn bytes(alloc: Global, bytes: &[u8]) -> Answer {
    Ok(Seen::Bytes(Vec::from_slice(alloc, bytes)?))
}

/// Returns the segments of a message, and one that it shouldn't have if it gives any after its
/// last.
pub fn segments<S: ReaderSegments>(alloc: Global, message: &S) -> Answer {
    let mut all = Vec::new(alloc);
    let count = message.len().min(1000) as u32;
    for id in 0..count + 1 {
        if let Some(bytes) = message.get_segment(id) {
            all.push(Vec::from_slice(alloc, bytes)?)?;
        }
    }
    Ok(Seen::Segments(all))
}
