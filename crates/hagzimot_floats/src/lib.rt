//! Texts of floats, for the whole numbers of their bits.
#![tactic(auto)]

pub mod float_bits;
pub mod float_text;
