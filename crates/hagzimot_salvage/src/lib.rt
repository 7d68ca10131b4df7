//! Whole messages in a damaged stream.
#![tactic(auto)]

pub mod frames;
pub mod laws;
pub mod pieces;
pub mod roots;
pub mod written;
