//! Schemas from the compiler: node records of a `CodeGeneratorRequest`.
#![tactic(auto)]

mod annotations;
mod brands;
mod defaults;
pub mod fault;
mod fields;
mod floats;
mod names;
mod nodes;
mod origins;
mod planned;
mod reading;
pub mod request;
mod segments;
mod types;
