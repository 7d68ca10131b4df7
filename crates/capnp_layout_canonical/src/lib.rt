//! Canonical copies of the values of readers, over handles.
#![tactic(auto)]

pub mod copy;
pub mod laws;
pub mod measured;
pub mod sets;
