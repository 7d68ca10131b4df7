//! Files that are written whole or not at all, under names that are compared as the system does.
#![tactic(auto)]

pub mod drafts;
pub mod faults;
pub mod files;
pub mod host;
pub mod names;
pub mod openings;
pub mod places;
pub mod record;
