//! The syntax of schema sources: a tree of the declarations, or the mistakes with their offsets.
#![tactic(auto)]

mod arguments;
pub mod cursor;
mod declarations;
pub mod faults;
mod heads;
mod methods;
pub mod source_file;
pub mod tree;
