//! The files of the relay's program: schemas, calls and renamed fields as JSON.
#![tactic(auto)]

mod calls;
pub mod calls_file;
mod defaults;
pub mod fault;
mod fields;
mod json;
mod nodes;
pub mod renames_file;
pub mod schema_file;
mod types;
