//! Whether the lists of a message have the element sizes that its schema names.
#![tactic(auto)]

pub mod kinds;
pub mod steps;
mod structs;
mod walk;
