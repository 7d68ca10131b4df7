//! Changes of a message's segments by writing: the words that belong to a value, and the laws that
//! make a change of a part a change of the whole.
#![tactic(auto)]

pub mod laws;
pub mod laws_of_canonical_words;
pub mod laws_of_clearing;
pub mod laws_of_depths;
