//! The rules that the nodes of compiled sources keep.
#![tactic(auto)]

pub mod groups;
pub mod nodes;
pub mod rules;
pub mod sizes;
