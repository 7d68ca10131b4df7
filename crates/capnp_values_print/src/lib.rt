//! The printed text of values whose type is known at run time.
#![tactic(auto)]

mod defaults;
mod fields;
pub mod laws;
mod members;
mod names;
mod single;
mod slots;
pub mod stringify;
mod values;
