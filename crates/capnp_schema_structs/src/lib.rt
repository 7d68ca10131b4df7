//! Dynamic builders: values whose type is known at run time, written into a message in place.
#![tactic(auto)]

pub mod begin;
pub mod dynamic_struct;
mod group_empties;
mod group_nulls;
pub mod group_sets;
mod group_sources;
pub mod init;
pub mod initn;
pub mod laws;
pub mod roots;
pub mod setting;
pub mod slots;
pub mod values;
