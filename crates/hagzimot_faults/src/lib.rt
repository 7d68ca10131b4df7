//! The first pointer of a message that can't be followed.
#![tactic(auto)]

pub mod locate;
pub mod steps;
