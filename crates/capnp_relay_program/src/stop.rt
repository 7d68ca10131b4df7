//! The reasons for which the program ends with status 1.
ghost use Rattle.std.specs.Prelude.{◌≡◌};
ghost use Rattle.capnp_relay_loop.specs.declared.ends.Fault.{Fault};
ghost use Rattle.capnp_relay_program.specs.declared.stop.Stop.{Stop};

use capnp_relay_loop::ends::Fault;
use std::alloc::{AllocError, AllocFailed};

/// The reason for which the program ends with status 1.
#[derive(Clone, Copy, Debug, PartialEq, Eq)]
pub enum Stop {
    /// The words are not valid arguments of the program.
    Arguments,
    /// The schema file or the newer one can't be read, or has another form.
    SchemaFile,
    /// A rule of schemas is broken, by the node of this number, counted from 0.
    SchemaRule { rule: u32, node: usize },
    /// In one of the schemas, the root's id isn't that of a struct, or is that of a group.
    Root,
    /// The renames file can't be read, has another form, or renames a field of a node twice, or two
    /// fields to the same name.
    RenamesFile,
    /// The calls file can't be read, or has another form.
    CallsFile,
    /// The call of this number, counted from 1, is refused.
    Call(usize),
    /// The limits are refused.
    Options,
    /// The newer schema isn't compatible with the older.
    NotCompatible,
    /// The call of this number, counted from 1, is the first that isn't admitted beside the newer
    /// schema.
    NotAdmitted(usize),
    /// The relay met a fault, or an allocation was refused.
    Relay(Fault),
}

impl From<AllocError> for Stop {
    ghost from_gives = { λ _ stop. stop ≡ Stop.Relay Fault.Memory };

    fn from(_e: AllocError) -> Stop {
        Stop::Relay(Fault::Memory)
    }
}

impl<T: Drop> From<AllocFailed<T>> for Stop {
    ghost from_gives = { λ _ stop. stop ≡ Stop.Relay Fault.Memory };

    fn from(_e: AllocFailed<T>) -> Stop {
        Stop::Relay(Fault::Memory)
    }
}
