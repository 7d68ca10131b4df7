//! Failures of a run, and the texts that report them.

use capnp_relay_loop::ends::Fault;
use capnp_units::kinds::ErrorKind;
use hagzimot_schemas::schemas::SchemaTrouble;
use std::alloc::{AllocError, AllocFailed, Global};
use std::fmt::{Display, Formatter, Write};
use std::{fmt, io};

/// The status if the arguments are wrong.
pub const WRONG_WORDS: u8 = 2;

/// The status at a fault.
pub const FAULT: u8 = 4;

/// The status if the reader of the output has closed the pipe. It is the status of a program that
/// the signal of a closed pipe ended.
pub const CLOSED_PIPE: u8 = 141;

/// The reason for which a run ends before everything is done.
#[derive(Debug, Drop)]
pub enum Failure {
    /// An allocation was refused.
    Memory,
    /// The output can't be written.
    Output,
    /// The file of messages that are skipped can't be written.
    Refused,
    /// The reader of the output has closed the pipe. Nothing is reported.
    ClosedPipe,
    /// The arguments are wrong, in words.
    Words(String),
    /// The mistakes of a schema's source: lines that begin with a place.
    Source(String),
    /// Any other failure, in words.
    Text(String),
}

impl From<AllocError> for Failure {
    fn from(_e: AllocError) -> Failure {
        Failure::Memory
    }
}

impl<T: Drop> From<AllocFailed<T>> for Failure {
    fn from(_e: AllocFailed<T>) -> Failure {
        Failure::Memory
    }
}

impl From<fmt::Error> for Failure {
    fn from(_e: fmt::Error) -> Failure {
        Failure::Memory
    }
}

/// Returns the text of a kind of framing fault.
fn framing(kind: ErrorKind) -> &'static str {
    match kind {
        ErrorKind::InvalidNumberOfSegments =>
            "no message: the count of segments is not 1 to 511 (is the input in the other form?)",
        ErrorKind::FailedToFillTheWholeBuffer => "the input ends within a message",
        ErrorKind::MessageTooLarge =>
            "it has more words than --words allows (is the input in the other form?)",
        ErrorKind::PrematureEndOfPackedInput => "the packed input ends within a message",
        ErrorKind::PackedInputDidNotEndCleanlyOnASegmentBoundary =>
            "a packed run passes the end of its segment (is the input framed?)",
        _ => "no message",
    }
}

/// Returns the text of a fault of a stream.
fn reason(fault: Fault) -> &'static str {
    match fault {
        Fault::Source => "the input can't be read",
        Fault::Framing(kind) => framing(kind),
        Fault::Out => "the output can't be written",
        Fault::Log => "the log can't be written",
        Fault::Memory => "there is no memory for it",
        Fault::Size => "what its calls make is too large for a message",
    }
}

impl Failure {
    /// Returns the failure of an argument: its text, and what is wrong with it.
    pub fn words<T: Display>(alloc: Global, words: &str, why: &T) -> Failure {
        match format!(in alloc; "{words}: {why}") {
            Ok(text) => Failure::Words(text),
            Err(_) => Failure::Memory,
        }
    }

    /// Returns the failure of a range that has no message.
    pub fn contradiction(alloc: Global, first: u64, last: u64) -> Failure {
        match format!(in alloc;
            "--from {first} --to {last}: no message is chosen (--to counts from 1 too)"
        ) {
            Ok(text) => Failure::Words(text),
            Err(_) => Failure::Memory,
        }
    }

    /// Returns the failure of a file, for the system's reason.
    pub fn file(alloc: Global, name: &str, why: io::Error) -> Failure {
        Failure::about(alloc, name, &why)
    }

    /// Returns the failure of a file or an argument: its name, and what is wrong.
    pub fn about<T: Display>(alloc: Global, name: &str, why: &T) -> Failure {
        match format!(in alloc; "{name}: {why}") {
            Ok(text) => Failure::Text(text),
            Err(_) => Failure::Memory,
        }
    }

    /// Returns the failure of an output that can't be written, for the system's reason. A closed
    /// pipe ends the run, and nothing is reported.
    pub fn unwritten(alloc: Global, name: &str, why: io::Error) -> Failure {
        if why.kind() == io::ErrorKind::BrokenPipe {
            return Failure::ClosedPipe;
        }
        match format!(in alloc; "{name}: can't write: {why}") {
            Ok(text) => Failure::Text(text),
            Err(_) => Failure::Memory,
        }
    }

    /// Returns the failure of a file that has its new bytes, but may lose them if the machine
    /// stops.
    pub fn unsynced(alloc: Global, name: &str, why: io::Error) -> Failure {
        match format!(in alloc;
            "{name}: written, but its folder can't be synced: {why} (it may be lost if the machine stops now)"
        ) {
            Ok(text) => Failure::Text(text),
            Err(_) => Failure::Memory,
        }
    }

    /// Returns the failure of an output whose name is wrong.
    pub fn output_words<T: Display>(alloc: Global, option: &str, name: &str, why: &T) -> Failure {
        match format!(in alloc; "{option} {name}: {why}") {
            Ok(text) => Failure::Words(text),
            Err(_) => Failure::Memory,
        }
    }

    /// Returns the failure of two arguments that name one file, which would be lost.
    pub fn one_file(
        alloc: Global,
        option: &str,
        name: &str,
        other: &str,
        other_name: &str,
    ) -> Failure {
        match format!(in alloc;
            "{option} {name}: the same file as {other} {other_name} (name another file)"
        ) {
            Ok(text) => Failure::Words(text),
            Err(_) => Failure::Memory,
        }
    }

    /// Returns the status with which the failed run ends.
    pub fn status(&self) -> u8 {
        match self {
            Failure::ClosedPipe => CLOSED_PIPE,
            Failure::Words(_) => WRONG_WORDS,
            _ => FAULT,
        }
    }

    /// Tests whether nothing is reported.
    pub fn is_silent(&self) -> bool {
        matches!(self, Failure::ClosedPipe)
    }

    /// Returns the text before the failure. It is empty before lines that begin with a place,
    /// because editors look for the place.
    pub fn front(&self) -> &'static str {
        match self {
            Failure::Source(_) => "",
            _ => "hagzimot: ",
        }
    }

    /// Returns the failure of a schema file.
    pub fn schema(alloc: Global, name: &str, why: &SchemaTrouble) -> Failure {
        Failure::about(alloc, name, why)
    }

    /// Returns the failure of a JSON file that isn't of its sort. It says what is wrong if a closer
    /// look finds the fault.
    pub fn form(
        alloc: Global,
        name: &str,
        sort: &str,
        fault: Option<serde_json::Error>,
    ) -> Failure {
        let text = match fault {
            Some(why) if why.is_memory() => return Failure::Memory,
            Some(why) => format!(in alloc; "{name}: not a {sort} file: {why}"),
            None => format!(in alloc;
                "{name}: JSON, but not a {sort} file (the manual describes it: Calls and renames)"
            ),
        };
        match text {
            Ok(text) => Failure::Text(text),
            Err(_) => Failure::Memory,
        }
    }

    /// Returns the failure of an input that can't be read, for the system's reason.
    pub fn unread(alloc: Global, name: &str, number: u64, start: u64, why: io::Error) -> Failure {
        if start == 0 {
            return Failure::file(alloc, name, why);
        }
        match format!(in alloc; "{name}: message {number}, at byte {start}: can't read: {why}") {
            Ok(text) => Failure::Text(text),
            Err(_) => Failure::Memory,
        }
    }

    /// Returns the failure of a message of an input: its number, and the byte at which it begins.
    pub fn stream(alloc: Global, name: &str, number: u64, start: u64, fault: Fault) -> Failure {
        let why = reason(fault);
        match format!(in alloc; "{name}: message {number}, at byte {start}: {why}") {
            Ok(text) => Failure::Text(text),
            Err(_) => Failure::Memory,
        }
    }
}

impl Display for Failure {
    fn fmt<W: Write>(&self, f: &mut Formatter<W>) -> fmt::Result {
        match self {
            Failure::Memory => write!(f, "there is no memory left"),
            Failure::Output => write!(f, "the output can't be written"),
            Failure::Refused => write!(f, "the messages that are skipped can't be written"),
            Failure::ClosedPipe => write!(f, "the pipe is closed"),
            Failure::Words(text) | Failure::Source(text) | Failure::Text(text) => {
                write!(f, "{text}")
            }
        }
    }
}
