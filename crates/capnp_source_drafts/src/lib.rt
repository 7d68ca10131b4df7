//! The nodes of schema sources, before their values and annotations.
#![tactic(auto)]

pub mod context;
pub mod drafts;
pub mod entries;
pub mod interfaces;
pub mod methods;
pub mod structs;
