//! The run of `hagzimot relay` over one input, whose contract is that of the relay.
#![tactic(auto)]

pub mod asked;
pub mod run;
