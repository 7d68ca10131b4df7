//! Ids of declarations that are declared without an id.
#![tactic(auto)]

pub mod ids;
