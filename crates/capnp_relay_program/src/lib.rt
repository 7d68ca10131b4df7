//! The relay's program, except for its files and streams: the arguments and the files of a run, and
//! the run.
#![tactic(auto)]

pub mod ahead;
pub mod arguments;
mod lines;
pub mod program;
mod run;
pub mod settings;
pub mod sinks;
pub mod sources;
pub mod stop;
pub mod usage;
pub mod version;
