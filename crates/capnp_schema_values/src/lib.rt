//! Values of dynamic builders: untyped pointers, written into a message in place, values of each
//! type, and the results of getters on builders of structs and lists.
#![tactic(auto)]

pub mod any_pointer;
pub mod blobs;
pub mod callers;
pub mod conversions;
pub mod default;
pub mod downcast;
pub mod dynamic_list;
pub mod dynamic_struct;
pub mod dynamic_value;
pub mod elements;
pub mod fields;
pub mod handles;
pub mod inputs;
pub mod lists;
pub mod placed;
pub mod plain;
pub mod slots;
pub mod structs;
