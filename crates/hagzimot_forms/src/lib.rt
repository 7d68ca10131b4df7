//! Faults in the form of the command's JSON files, with their places.
#![tactic(auto)]

pub mod calls_form;
pub mod id_numbers;
mod ids;
pub mod renames_form;
pub mod schema_form;
