//! Why nothing is opened or compared.

use capnp_calls::CallFault;
use capnp_relay_streams::options::OptionsFault;
use hagzimot_schemas::schemas::SchemaTrouble;
use std::alloc::AllocError;
use std::fmt;
use std::fmt::{Display, Formatter, Write};

/// The reason for which no relay is made.
#[derive(Debug, Drop)]
pub enum RelayTrouble {
    /// The schema can't be used, or has no such root.
    Schema(SchemaTrouble),
    /// The calls aren't a calls file; what is wrong, with line and column, where a closer look
    /// finds it.
    Calls(Option<serde_json::Error>),
    /// The call of this number, counted from 1, is refused.
    Call(usize, CallFault),
    /// The limits of the calls file are refused.
    Limits(OptionsFault),
    /// An allocation was refused.
    Memory,
}

impl From<AllocError> for RelayTrouble {
    fn from(_e: AllocError) -> RelayTrouble {
        RelayTrouble::Memory
    }
}

impl Display for RelayTrouble {
    fn fmt<W: Write>(&self, f: &mut Formatter<W>) -> fmt::Result {
        match self {
            RelayTrouble::Schema(trouble) => write!(f, "schema: {trouble}"),
            RelayTrouble::Calls(Some(error)) => write!(f, "calls: not a calls file: {error}"),
            RelayTrouble::Calls(None) => write!(
                f,
                "calls: not a calls file (compare it with the manual: Calls and renames)"
            ),
            RelayTrouble::Call(number, fault) => write!(f, "calls: call {number}: {fault}"),
            RelayTrouble::Limits(fault) => write!(f, "calls: {fault}"),
            RelayTrouble::Memory => f.write_str("out of memory"),
        }
    }
}
