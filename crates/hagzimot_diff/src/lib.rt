//! Differences of messages, by the records that they have under a schema.
#![tactic(auto)]

pub mod json;
pub mod messages;
