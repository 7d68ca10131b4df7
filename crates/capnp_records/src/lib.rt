//! The schema layer of Cap'n Proto: node records as a caller writes them, and sets of them that
//! keep the schema rules.
#![tactic(auto)]

mod area;
mod by_name;
mod check;
mod defaults;
pub mod fault;
mod find;
mod groups;
pub mod laws;
mod marks;
mod names;
pub mod node;
mod nodes;
pub mod of_set;
mod overlap;
mod parts;
mod places;
pub mod raw;
mod segment;
pub mod set;
mod storage;
pub mod tables;
mod types;
mod unions;
mod values;
