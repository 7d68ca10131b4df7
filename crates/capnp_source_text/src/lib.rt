//! The text of schema sources: tokens, values of literals, and positions.
#![tactic(auto)]

pub mod bytes;
pub mod integers;
pub mod lexemes;
pub mod literals;
pub mod positions;
pub mod tokens;
