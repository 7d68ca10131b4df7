//! Answers to some of the messages.

use hagzimot_conditions::conditions::Conditions;
use hagzimot_conditions::messages::Sight;
use std::cell::Cell;

/// Answers of the messages that keep an expression. One that doesn't goes out as it came, and one
/// for which there is no answer to that is refused.
#[derive(Drop)]
pub struct Conditional<'a, 's, 'i, A> {
    pub answers: &'a A,
    pub conditions: &'a Conditions,
    pub sight: Sight<'s>,
    /// The places of the calls that didn't run, as bits, if they are noted. None are of a message
    /// that goes out as it came.
    pub inactive: Option<&'i Cell<u64>>,
}
