//! The foundation of builders: segments that an allocator hands out and takes back, arenas in which
//! words are allocated and written, and places at which values are made and cleared.
#![tactic(auto)]

pub mod allocator;
pub mod arena;
pub mod bits;
pub mod blobs;
pub mod bytes;
pub mod clear;
pub mod elements;
pub mod fields;
mod grown;
pub mod held;
pub mod init;
pub mod laws;
pub mod laws_of_arenas;
pub mod room;
pub mod segments;
pub mod struct_lists;
