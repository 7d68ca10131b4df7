//! The laws of versions: edits against trimmed values, and edits under an older schema against
//! readings under a newer one.
#![tactic(auto)]

pub mod laws;
pub mod laws_of_capabilities;
pub mod laws_of_fitting;
pub mod laws_of_relays;
pub mod laws_of_renamings;
