//! The text of a framed message, whole.
#![tactic(auto)]

mod copied;
mod framed;
pub mod show;
