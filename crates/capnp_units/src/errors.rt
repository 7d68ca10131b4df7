//! The error and the result of functions that may refuse.
ghost use Rattle.std.specs.Prelude.{◌≡◌, Some};
ghost use Rattle.capnp_model.specs.Kinds.{kind_name};
ghost use Rattle.capnp_units.specs.Errors.{kind_of};
ghost use Rattle.capnp_units.specs.declared.kinds.ErrorKind.TheVariants.{OutOfMemory};

use crate::kinds::ErrorKind;
use std::alloc::{AllocError, AllocFailed};
use std::fmt;

/// The reason why a function refused: only the kind.
#[derive(Clone, Copy, Debug, PartialEq, Eq, thiserror::Error)]
pub struct Error {
    pub kind: ErrorKind,
}

/// Writes the kind's name.
impl fmt::Display for Error {
    ghost output = { λ e. Some (kind_name (kind_of e.kind)) };

    fn fmt<W: fmt::Write>(&self, f: &mut fmt::Formatter<W>) -> fmt::Result {
        f.write_str(self.kind.name())
    }
}

impl From<ErrorKind> for Error {
    ghost from_gives = { λ k e. e.kind ≡ k };

    fn from(kind: ErrorKind) -> Error {
        Error { kind }
    }
}

impl From<AllocError> for Error {
    ghost from_gives = { λ _ e. e.kind ≡ OutOfMemory };

    fn from(_e: AllocError) -> Error {
        Error {
            kind: ErrorKind::OutOfMemory,
        }
    }
}

impl<T: Drop> From<AllocFailed<T>> for Error {
    ghost from_gives = { λ _ e. e.kind ≡ OutOfMemory };

    fn from(_e: AllocFailed<T>) -> Error {
        Error::from(AllocError)
    }
}

/// The result of a function that may refuse.
pub type Result<T> = std::result::Result<T, Error>;
