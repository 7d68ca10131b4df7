//! The kinds of values that a handle holds.

use crate::relay::Relay;

/// A value that a handle holds, of one of these kinds.
#[derive(Drop)]
pub enum Kind {
    /// A relay.
    Relay(Relay),
}
