//! Hagzimot in a process that isn't written in Rattle: what is made once and used for many messages
//! that lie in memory.
#![tactic(auto)]

mod calls;
pub mod frames;
pub mod handle;
pub mod kinds;
pub mod loose;
pub mod relay;
pub mod trouble;
pub mod versions;
