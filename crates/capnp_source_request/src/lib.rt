//! The request that the schema compiler writes for the plugins that generate code, of nodes that are compiled.
#![tactic(auto)]

pub mod faults;
pub mod frames;
mod members;
mod nodes;
mod objects;
pub mod requests;
mod types;
mod values;
pub mod words;
