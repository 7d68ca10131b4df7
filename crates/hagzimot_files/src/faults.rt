//! Why a draft has no name, or none for good.

use std::io;

/// Why a draft didn't get its name for good.
#[derive(Debug, Drop)]
pub enum CommitError {
    /// The name holds what it held.
    Kept(io::Error),
    /// The name holds the draft, but may hold what it held before if the machine stops.
    Unsynced(io::Error),
}
