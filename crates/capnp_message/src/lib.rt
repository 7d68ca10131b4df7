//! Messages: the sources of their memory, limits of reading, and whole messages that are read from
//! streams and slices.
#![tactic(auto)]

pub mod builder;
pub mod canonical;
pub mod forms;
pub mod laws;
pub mod message;
pub mod opened;
pub mod options;
pub mod placed;
pub mod reader;
pub mod roots;
pub mod scoped;
pub mod serialize;
pub mod serialize_packed;
pub mod typed;
pub mod typed_builder;
pub mod unbuffered;
pub mod words;

pub use capnp_message_allocators::{growth, heap, opening, scratch, segment, single};
pub use capnp_stream_io::{adapters, memory, slice_writer, traits};
