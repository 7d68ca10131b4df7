//! Calls written along their paths, into a message in place.
#![tactic(auto)]

mod contents;
mod default;
mod elements;
mod end;
mod lists;
mod messages;
pub mod path;
pub mod values;
