//! Messages made from JSON under a schema.
#![tactic(auto)]

pub mod draft;
pub mod fault;
pub mod fields;
pub mod make;
mod numbers;
pub mod places;
pub mod scan;
pub mod stream;
pub mod value;
