//! The declarations of schema sources, with their names and ids.
#![tactic(auto)]

pub mod builtins;
pub mod checks;
pub mod entries;
pub mod hints;
pub mod problems;
pub mod references;
pub mod sources;
pub mod table;
