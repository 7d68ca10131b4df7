//! Copies of values from one arena into another, over places, plain and canonical.
#![tactic(auto)]

pub mod canonical;
pub mod contents;
pub mod copy;
pub mod defaults;
pub mod laws;
pub mod lists;
mod objects;
pub mod structs;
mod words;
