//! The places of fields in the sections of a struct, as the Cap'n Proto compiler lays them out.
#![tactic(auto)]

pub mod checks;
pub mod draft;
pub mod holes;
pub mod laws;
pub mod levels;
pub mod sections;
pub mod slots;
pub mod structs;
pub mod usage;
