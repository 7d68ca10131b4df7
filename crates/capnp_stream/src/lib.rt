//! Messages of any number of segments on streams, framed and in other forms: reading and writing
//! over the sources and sinks of `capnp_stream_io`.
//!
//! The functions take and return segments and a limit of words. Functions that need a message's
//! reader or builder, its options and its allocators are in crates above.
#![tactic(auto)]

pub mod buffers;
pub mod flat;
pub mod forms;
pub mod frames;
pub mod kept;
pub mod lent;
pub mod messages;
pub mod segments;
mod shown;
pub mod slices;
mod tables;
