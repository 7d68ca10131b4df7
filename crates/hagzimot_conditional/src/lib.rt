//! Answers to the messages that keep an expression; the others go out as they came.
#![tactic(auto)]

pub mod answers;
pub mod conditional;
