//! Why sources don't compile.

ghost use Rattle.std.specs.Prelude.{◌<◌, string_len};

use capnp_source_request::faults::RequestFault;
use std::alloc::{AllocError, AllocFailed, Global};
use std::fmt;

/// Lines that say what is wrong with sources: each problem begins with its file, line and column.
#[derive(Debug, Drop)]
pub struct Report {
    text: String,
    // A refusal is never without words.
    ghost said: { 0 < string_len text },
}

impl Report {
    /// Returns a report with a text, or with a fixed one if the text is empty.
    pub fn new(alloc: Global, text: String) -> Result<Report, AllocError> {
        if text.is_empty() {
            let text = String::from_str(alloc, "the sources can't be compiled (simplify them)")?;
            return Ok(Report { text });
        }
        Ok(Report { text })
    }

    /// Returns the lines. There is at least one.
    pub fn into_text(self) -> String
        ensures { 0 < string_len result }
    {
        let Report { text } = self;
        text
    }
}

/// Why sources don't compile.
#[derive(Debug, Drop)]
pub enum SourcesFault {
    /// For what these lines say.
    Problems(Report),
    /// The file of this path isn't there.
    Missing(String),
    /// A file that was asked for can't be read: its path, and why.
    Unreadable { path: String, why: String },
    /// The request would be too large.
    TooLarge,
    /// An allocation was refused.
    Memory,
}

impl From<AllocError> for SourcesFault {
    fn from(_e: AllocError) -> SourcesFault {
        SourcesFault::Memory
    }
}

impl<T: Drop> From<AllocFailed<T>> for SourcesFault {
    fn from(_e: AllocFailed<T>) -> SourcesFault {
        SourcesFault::Memory
    }
}

impl From<fmt::Error> for SourcesFault {
    fn from(_e: fmt::Error) -> SourcesFault {
        SourcesFault::Memory
    }
}

impl From<RequestFault> for SourcesFault {
    fn from(fault: RequestFault) -> SourcesFault {
        match fault {
            RequestFault::TooLarge => SourcesFault::TooLarge,
            RequestFault::Memory => SourcesFault::Memory,
        }
    }
}
