//! The reasons for which a file is refused.

use std::alloc::{AllocError, AllocFailed};

/// The reason for which a file is refused.
#[derive(Clone, Copy, Debug, PartialEq, Eq, thiserror::Error)]
pub enum FileFault {
    #[error("no file of this form")]
    Form,
    #[error("out of memory")]
    Memory,
}

impl From<AllocError> for FileFault {
    ghost use Rattle.std.specs.Prelude.{◌≡◌};
    ghost use Rattle.capnp_relay_files.specs.declared.fault.FileFault.{FileFault};

    ghost from_gives = { λ _ fault. fault ≡ FileFault.Memory };

    fn from(_e: AllocError) -> FileFault {
        FileFault::Memory
    }
}

impl<T: Drop> From<AllocFailed<T>> for FileFault {
    ghost use Rattle.std.specs.Prelude.{◌≡◌};
    ghost use Rattle.capnp_relay_files.specs.declared.fault.FileFault.{FileFault};

    ghost from_gives = { λ _ fault. fault ≡ FileFault.Memory };

    fn from(_e: AllocFailed<T>) -> FileFault {
        FileFault::Memory
    }
}
