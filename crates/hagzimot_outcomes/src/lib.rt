//! Outcomes of messages and their calls, and the lines of the log that report them.
#![tactic(auto)]

pub mod log_lines;
pub mod notes;
pub mod outcomes;
pub mod refused_calls;
pub mod skips;
pub mod watched;
