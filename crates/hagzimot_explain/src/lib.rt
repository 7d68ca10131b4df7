//! The words of a message, each with what it is.
#![tactic(auto)]

pub mod contents;
pub mod explained;
pub mod lines;
mod marking;
pub mod marks;
pub mod parts;
pub mod pointers;
pub mod rows;
