//! The nodes that schema sources compile to, as schema.capnp describes them.
#![tactic(auto)]

pub mod nodes;
pub mod problems;
pub mod types;
pub mod values;
