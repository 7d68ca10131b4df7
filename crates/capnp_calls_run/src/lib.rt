//! Sequences of calls at a struct of a message, in place: each call is tested on a reader of the
//! struct, and then written.
#![tactic(auto)]

pub mod builder;
pub mod fault;
pub mod root;
pub mod run;
