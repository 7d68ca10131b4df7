//! The values that expressions of schema sources mean under their types.
#![tactic(auto)]

mod bindings;
mod constants;
mod copies;
pub mod faults;
mod kinds;
mod leaves;
mod making;
mod messages;
pub mod names;
pub mod numbers;
mod objects;
mod sections;
mod telling;
pub mod values;
