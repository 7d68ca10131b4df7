//! Readers of untrusted segments: the objects of pointers, and their structs, lists, texts and
//! data, lent in place.
//!
//! Numbers are in words of eight bytes, the lowest byte first. A reader reads from an arena of
//! segments or from a default value, and pays for the pointers that it follows from a
//! `ReadLimiter`.
//!
//! Getters are `inline(always)`: their bodies take some ten instructions, and a call would take as
//! many again to pass readers and results through memory. Objects that aren't near are followed out
//! of line.
#![tactic(auto)]

pub mod backing;
pub mod canonical;
pub mod element;
pub mod laws;
pub mod levels;
pub mod list;
mod list_pointer;
pub mod parts;
pub mod pointer;
mod reached;
mod section;
pub mod structs;
pub mod traits;
