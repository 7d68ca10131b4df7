//! Calls that clear a member of a union only if it is active.
#![tactic(auto)]

pub mod active;
pub mod clears;
mod copies;
pub mod planned;
