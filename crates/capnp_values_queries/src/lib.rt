//! The contents of a schema set: types, structs with their fields, enums with their enumerants, and
//! annotations.
#![tactic(auto)]

pub mod annotations;
pub mod enumerants;
pub mod enums;
pub mod fields;
pub mod introspect;
pub mod laws;
mod named;
pub mod names;
pub mod slots;
pub mod structs;
pub mod subsets;
