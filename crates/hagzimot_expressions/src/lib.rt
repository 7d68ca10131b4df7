//! Conditions on messages as text, such as `status = sent and not has customer.email`: read into a
//! tree, or what is wrong with them and where.
#![tactic(auto)]

pub mod decide;
mod lexemes;
pub mod mistakes;
mod parser;
mod paths;
mod quoted;
pub mod read;
pub mod tree;
