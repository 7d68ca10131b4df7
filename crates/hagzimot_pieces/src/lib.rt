//! Messages that are taken and copied by their number, without a schema.
#![tactic(auto)]

pub mod nowhere;
pub mod part_names;
pub mod runs;
