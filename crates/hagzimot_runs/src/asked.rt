//! Settings of a run.

use capnp_calls::Call;
use capnp_relay_answers::bounds::Bounds;
use capnp_relay_loop::answer::Reason;
use capnp_values_queries::structs::StructSchema;
use hagzimot_outcomes::skips::Skips;
use std::cell::Cell;

/// The work of a relay on each message.
#[derive(Clone, Copy)]
pub struct Asked<'a> {
    /// The struct at the root of each message.
    pub root: StructSchema<'a>,
    /// The calls that run there, in their order.
    pub calls: &'a [Call],
    /// The limits of messages.
    pub bounds: Bounds,
    /// Messages are written as the calls built them, not in canonical form.
    pub is_plain: bool,
}

/// The treatment of refused messages, and the receiver of each outcome.
#[derive(Clone, Copy)]
pub struct Watching<'n, 'p, 'i, N> {
    /// A message with a refused call is refused as a whole.
    pub is_strict: bool,
    /// A refused message is passed on unedited.
    pub passes: bool,
    pub notes: &'n N,
    /// The reason for which the last message is passed on unedited, if it is.
    pub unedited: &'n Cell<Option<Reason>>,
    /// The calls that the answers leave out, if they leave some out.
    pub skips: Option<Skips<'p, 'i>>,
}
