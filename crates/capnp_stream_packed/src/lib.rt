//! Packed streams: words in groups, messages of segments in them, and packed sources and sinks.
//!
//! Messages are segments here, read under a limit of words. Functions that need a message's reader
//! or builder, its options or its allocator are in the crate of messages.
#![tactic(auto)]

mod bytes;
mod copies;
pub mod form;
mod groups;
pub mod laws;
mod packing;
mod places;
mod runs;
pub mod serialize_packed;
mod shown;
mod sources;
pub mod streams;
mod tags;
mod unpacking;
mod written;
