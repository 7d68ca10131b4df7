//! Messages without the fields that are named, and without everything that a schema does not know.
#![tactic(auto)]

pub mod plan;
pub mod redact;
mod walk;
