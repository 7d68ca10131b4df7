//! Texts and data: bytes of a message, lent in place.
#![tactic(auto)]

pub mod data;
pub mod text;
