//! Reasons why a case can't be tried, and why a call of a case has no other answer.
use capnp_relay_files::fault::FileFault;
use capnp_units::errors::Error;
use capnp_units::kinds::ErrorKind;
use hex::FromHexError;
use std::alloc::{AllocError, AllocFailed};

/// The reason why a line isn't a case.
#[derive(Clone, Copy, Debug, thiserror::Error)]
pub enum Fault {
    #[error("out of memory")]
    Memory,
    #[error("no case")]
    Shape,
}

impl From<AllocError> for Fault {
    fn from(_e: AllocError) -> Fault {
        Fault::Memory
    }
}

impl<T: Drop> From<AllocFailed<T>> for Fault {
    fn from(_e: AllocFailed<T>) -> Fault {
        Fault::Memory
    }
}

impl From<FileFault> for Fault {
    fn from(fault: FileFault) -> Fault {
        match fault {
            FileFault::Memory => Fault::Memory,
            FileFault::Form => Fault::Shape,
        }
    }
}

impl From<FromHexError> for Fault {
    fn from(fault: FromHexError) -> Fault {
        match fault {
            FromHexError::OutOfMemory => Fault::Memory,
            _ => Fault::Shape,
        }
    }
}

/// A message that a case gives, or expects, and that can't be made or read.
impl From<Error> for Fault {
    fn from(_e: Error) -> Fault {
        Fault::Shape
    }
}

/// The reason why a call isn't done.
#[derive(Clone, Copy, Debug)]
pub enum Stop {
    Refused(ErrorKind),
    /// There is no such call, or its `requires` doesn't hold.
    NoCall,
    Fault(Fault),
}

impl From<Error> for Stop {
    fn from(error: Error) -> Stop {
        Stop::Refused(error.kind)
    }
}

impl From<Fault> for Stop {
    fn from(fault: Fault) -> Stop {
        Stop::Fault(fault)
    }
}

impl From<AllocError> for Stop {
    fn from(_e: AllocError) -> Stop {
        Stop::Fault(Fault::Memory)
    }
}

impl<T: Drop> From<AllocFailed<T>> for Stop {
    fn from(_e: AllocFailed<T>) -> Stop {
        Stop::Fault(Fault::Memory)
    }
}
