//! Objects that pointers name in untrusted segments: arenas, places, objects, and the sizes of
//! whole values.
//!
//! Numbers are in words of eight bytes, with the lowest byte first. Following a pointer is paid for
//! from a `ReadLimiter`.
#![tactic(auto)]

pub mod arena;
pub mod follow;
pub mod laws;
pub mod lists;
pub mod named;
pub mod near;
pub mod object;
pub mod place;
pub mod size;
pub mod structs;
mod word_pointer;
