//! Reasons why a case can't be made.

use capnp_relay_files::fault::FileFault;
use capnp_units::errors::Error;
use hex::FromHexError;
use std::alloc::{AllocError, AllocFailed};

/// The reason why a case can't be made. The steps before its call, and after it, aren't refused
/// memory.
#[derive(Clone, Copy, Debug, thiserror::Error)]
pub enum Fault {
    #[error("no such case")]
    NoCase,
    #[error("the case can't be made")]
    Unmade,
}

impl From<AllocError> for Fault {
    fn from(_e: AllocError) -> Fault {
        Fault::Unmade
    }
}

impl<T: Drop> From<AllocFailed<T>> for Fault {
    fn from(_e: AllocFailed<T>) -> Fault {
        Fault::Unmade
    }
}

impl From<Error> for Fault {
    fn from(_e: Error) -> Fault {
        Fault::Unmade
    }
}

impl From<FileFault> for Fault {
    fn from(_e: FileFault) -> Fault {
        Fault::Unmade
    }
}

impl From<FromHexError> for Fault {
    fn from(_e: FromHexError) -> Fault {
        Fault::Unmade
    }
}
