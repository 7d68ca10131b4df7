//! Builders: pointers, structs and lists of a message that is written, as handles on an arena.
#![tactic(auto)]

mod blobs;
mod copies;
pub mod data_builder;
pub mod data_section;
pub mod element;
mod fronts;
pub mod gets;
pub mod list_builder;
pub mod owned;
pub mod pointer_builder;
pub mod struct_builder;
pub mod text_builder;
pub mod traits;
