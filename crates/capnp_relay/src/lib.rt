//! The relay layer under one name: calls and their replies, versions of schemas, the relay in both
//! its forms, shown messages, and the program with its files.
#![tactic(auto)]

pub mod laws;
pub mod runs;
pub mod versions;

pub use crate::runs::run;
pub use crate::versions::{
    admitted, admitted_with, all_breaks, compatible, compatible_with, first_break,
};
pub use capnp_calls::reply::Reply;
pub use capnp_calls::{Action, Call, CallFault, CallValue, SlotValue, Step, Verb};
pub use capnp_calls_versions::admitted::Admission;
pub use capnp_calls_versions::breaks::{Break, FieldRule, Rule};
pub use capnp_calls_versions::renamings::{Renaming, RenamingFault, Renamings};
pub use capnp_relay_files::calls_file::{CallsFile, calls_file};
pub use capnp_relay_files::fault::FileFault;
pub use capnp_relay_files::renames_file::renames_file;
pub use capnp_relay_files::schema_file::schema_file;
pub use capnp_relay_loop::ends::{Counts, Fault, RelayFault};
pub use capnp_relay_loop::pauses::{NoPause, Pause};
pub use capnp_relay_program::program::program;
pub use capnp_relay_show::show::{ShowFault, show};
pub use capnp_relay_streams::between::{
    BetweenFault, relay_between, relay_between_pausing, relay_between_with,
};
pub use capnp_relay_streams::options::{Form, OptionsFault, ReaderOptions, RelayOptions};
pub use capnp_relay_streams::relay::{relay, relay_pausing};
