//! The types that the names of schema sources mean.
#![tactic(auto)]

pub mod aliases;
pub mod bindings;
pub mod chains;
pub mod copies;
pub mod paths;
pub mod resolver;
pub mod targets;
