//! Canonical words of values, written from the segments that hold them into a slice of words in one
//! walk.
#![tactic(auto)]

pub mod check;
pub mod copy;
mod cuts;
mod follow;
mod heads;
mod landed;
pub mod laws;
mod list_copies;
mod list_ends;
mod own_words;
mod value_copies;
mod value_ends;
mod words;
