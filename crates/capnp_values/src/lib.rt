//! Reading of values whose type is known at run time.
#![tactic(auto)]

pub mod any_pointer;
pub mod conversions;
mod defaults;
pub mod downcast;
pub mod dynamic_list;
pub mod dynamic_struct;
pub mod dynamic_value;
pub mod laws;
pub mod of_value;
pub mod opening;
mod plain;
pub mod source;
