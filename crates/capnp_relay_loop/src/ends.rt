//! Ends of runs: the counts, and the faults that end a run before the end of input.

use capnp_units::kinds::ErrorKind;

/// The messages that were answered: the frames that were written whole, and the refusals that were
/// logged whole.
#[derive(Clone, Copy, Debug, PartialEq, Eq)]
pub struct Counts {
    pub written: u64,
    pub refused: u64,
}

/// The reason for which a run ends before the end of input.
#[derive(Clone, Copy, Debug, PartialEq, Eq, thiserror::Error)]
pub enum Fault {
    /// The source's device failed.
    #[error("source")]
    Source,
    /// The bytes that are left don't begin with a message.
    #[error("framing {0}")]
    Framing(ErrorKind),
    /// The output refused a frame.
    #[error("out")]
    Out,
    /// The log refused a line.
    #[error("log")]
    Log,
    /// - An allocation was refused.
    /// - Or a value has more than 1,024 levels, although more are allowed.
    /// - Or a `get` would print more than 1,024 nested structs, groups and lists.
    #[error("memory")]
    Memory,
    /// - A call makes a text, data or list that is too long for a message.
    /// - Or the words of one message in memory, including those that calls abandon, would exceed
    ///   2^29 - 1.
    /// - Or a message in the plain form has more than 511 segments, or its number would pass its
    ///   bound.
    #[error("size")]
    Size,
}

/// The reason for which a run ended before the end of input, and its counts until then.
#[derive(Clone, Copy, Debug, PartialEq, Eq, thiserror::Error)]
#[error("fault: {fault}")]
pub struct RelayFault {
    pub fault: Fault,
    pub counts: Counts,
}
