//! Calls, which read and edit the fields of a record, their replies, the messages that they set,
//! and their resolution under a schema.
#![tactic(auto)]

mod call;
mod copied;
mod ends;
pub mod find;
pub mod laws;
mod long;
pub mod message;
pub mod number;
pub mod reply;
pub mod resolved;
mod splices;
pub mod steps;

pub use call::{Action, Call, CallFault, CallValue, SlotValue, Step, Verb};
