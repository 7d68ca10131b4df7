//! Conditions on messages, checked against a schema before any message is read, and decided
//! for each message by the fields that they name.
#![tactic(auto)]

pub mod asked;
pub mod checks;
pub mod columns;
pub mod conditions;
pub mod hops;
pub mod messages;
mod orders;
mod reads;
pub mod tables;
mod tested;
pub mod troubles;
mod ways;
