//! Calls that set fields, written into a message's canonical words in place.
#![tactic(auto)]

pub mod sets;
pub mod splices;
