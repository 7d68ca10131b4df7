//! Versions of schemas: the tests whether a newer schema keeps an older one, and whether calls
//! under the older schema may be answered under the newer.
#![tactic(auto)]

pub mod admitted;
pub mod all_breaks;
pub mod breaks;
pub mod compatible;
mod defaults;
mod extended;
mod keeps;
mod names;
mod nodes;
mod reached;
pub mod renamings;
pub mod root;
mod types;
