//! Generic types of a request, with the types to which their parameters are bound.
#![tactic(auto)]

pub mod bound;
mod copies;
pub mod identity;
mod names;
pub mod plans;
pub mod scopes;
pub mod types;
