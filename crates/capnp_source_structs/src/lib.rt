//! The fields, unions and groups of a struct, in order and at their places.
#![tactic(auto)]

pub mod members;
pub mod offsets;
pub mod ordinals;
pub mod shapes;
