//! Where sources are read from.

use std::alloc::{AllocError, AllocFailed};

/// Why a file can't be read although it is there.
#[derive(Debug, Drop)]
pub enum ReadFault {
    /// For this reason.
    Unreadable(String),
    /// An allocation was refused.
    Memory,
}

impl From<AllocError> for ReadFault {
    fn from(_e: AllocError) -> ReadFault {
        ReadFault::Memory
    }
}

impl<T: Drop> From<AllocFailed<T>> for ReadFault {
    fn from(_e: AllocFailed<T>) -> ReadFault {
        ReadFault::Memory
    }
}

/// The files that sources are read from: those of a system, or those of a test.
pub trait Sources {
    /// Returns the bytes of the file of a path; `None` if there is no such file.
    fn read(&mut self, path: &str) -> Result<Option<Vec<u8>>, ReadFault>;
}

/// A source that is asked for.
#[derive(Debug, Drop)]
pub enum Asked {
    /// The file of this path.
    Named(String),
    /// The file of this path, whose bytes are read already.
    Read { path: String, text: Vec<u8> },
    /// Standard input, whose bytes these are.
    Standard(Vec<u8>),
}
