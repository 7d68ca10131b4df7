//! Reading of structs and lists for writing, with at least a requested width: a narrower one is
//! widened in place.
#![tactic(auto)]

mod elements;
pub mod lists;
mod moves;
mod room;
pub mod struct_lists;
pub mod structs;
