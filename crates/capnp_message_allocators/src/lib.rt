//! Sources of the memory of a message: segments of the heap, and of slices that are lent.
#![tactic(auto)]

pub mod growth;
pub mod heap;
pub mod opening;
pub mod scratch;
pub mod segment;
pub mod single;
