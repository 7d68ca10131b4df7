//! Writes of numbers, texts and data into the canonical words of a message, in place.
#![tactic(auto)]

mod area;
pub mod blob;
mod data;
mod elements;
pub mod plain;
mod pointers;
pub mod put;
pub mod splice;
mod tails;
pub mod texts;
pub mod words;
