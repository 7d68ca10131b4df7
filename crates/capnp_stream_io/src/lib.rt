//! Sources and sinks of bytes: in memory, over slices, and over the readers and writers of a
//! program.
#![tactic(auto)]

pub mod adapters;
mod devices;
pub mod memory;
pub mod slice_writer;
pub mod traits;
