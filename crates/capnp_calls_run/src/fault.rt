//! Reasons for which sequences of calls end early.
ghost use Rattle.std.specs.Prelude.{◌≡◌};
ghost use Rattle.capnp_units.specs.declared.kinds.ErrorKind.{ErrorKind};
ghost use Rattle.capnp_calls_run.specs.declared.fault.RunFault.{RunFault};

use capnp_units::errors::Error;
use std::alloc::AllocFailed;

/// The reason for which a sequence of calls ended early.
#[derive(Clone, Copy, Debug, PartialEq, Eq)]
pub enum RunFault {
    /// A call makes a text or data of 2^29 bytes or more including the last zero, or a list of
    /// structs of 2^29 words or more.
    Size,
    /// Memory was lacking, or the arena refused, or the struct doesn't exist.
    Refused(Error),
}

impl From<Error> for RunFault {
    ghost from_gives = { λ e fault. fault ≡ RunFault.Refused e };

    fn from(error: Error) -> RunFault {
        RunFault::Refused(error)
    }
}

impl<T: Drop> From<AllocFailed<T>> for RunFault {
    ghost from_gives = { λ _ fault.
        fault ≡ RunFault.Refused (record { kind = ErrorKind.OutOfMemory }) };

    fn from(failed: AllocFailed<T>) -> RunFault {
        RunFault::Refused(Error::from(failed))
    }
}
