//! The files of a schema source: found, read, compiled, and what is wrong with them in words.
#![tactic(auto)]

mod builtins;
pub mod compiling;
pub mod faults;
mod files;
pub mod imports;
mod paths;
mod reports;
pub mod sources;
