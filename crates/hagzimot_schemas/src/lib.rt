//! Schemas that users give: read from files, printed, checked and compared in words.
#![tactic(auto)]

pub mod breaks;
pub mod forms;
pub mod interfaces;
pub mod json_text;
pub mod names;
pub mod nodes;
pub mod pairs;
pub mod roots;
pub mod rules;
mod same_nodes;
pub mod schema_text;
pub mod schemas;
