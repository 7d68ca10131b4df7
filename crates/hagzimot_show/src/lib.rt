//! Messages of a stream as people look at them: text or JSON.
#![tactic(auto)]

mod capnp_floats;
mod escapes;
pub mod explain;
pub mod laid_out;
pub mod layout;
mod names;
mod paths;
mod reasons;
pub mod show;
mod singles;
mod unread;
mod walk;
