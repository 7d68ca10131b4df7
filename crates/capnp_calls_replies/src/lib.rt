//! Replies of calls at structs that are read.
#![tactic(auto)]

mod active;
pub mod checks;
mod ends;
mod faults;
mod groups;
pub mod laws;
mod messages;
mod path;
pub mod root;
mod shown;
mod values;
