//! Dynamic builders of lists: lists whose elements' type is known at run time, written into a
//! message in place.
#![tactic(auto)]

mod blobs;
pub mod dynamic_list;
pub mod elements;
pub mod holding;
pub mod init;
pub mod laws;
pub mod places;
pub mod values;
