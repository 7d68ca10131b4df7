//! Messages whose lists aren't in kind, in words.
#![tactic(auto)]

mod paths;
pub mod told;
