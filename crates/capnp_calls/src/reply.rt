//! Replies of calls.

use capnp_units::kinds::ErrorKind;

/// The reply of a call.
#[derive(Debug, Drop)]
pub enum Reply {
    /// the text of a `get`
    Text(Vec<u8>),
    Done,
    Refused(ErrorKind),
}
