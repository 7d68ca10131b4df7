//! Answers by calls, some of which run only if a member is active.
ghost use Rattle.capnp_calls.specs.Roots.{IsRoot};

use crate::planned::PlannedCall;
use capnp_relay_answers::bounds::Bounds;
use capnp_relay_streams::at_root::CallsAtRoot;
use capnp_values_queries::structs::StructSchema;
use std::cell::Cell;

/// Answers by planned calls. A call without a probe runs. A call with a probe runs if the probe, a
/// `get` along its path in the message as it is read, is not refused with `InactiveMember`.
#[derive(Drop)]
pub struct ActiveClears<'a, 'i> {
    pub probes: CallsAtRoot<'a>,
    pub schema: StructSchema<'a>,
    pub planned: &'a [PlannedCall],
    pub is_plain: bool,
    pub bounds: Bounds,
    /// The probes among the first 64 that met an inactive member of the last message, as bits.
    pub inactive: &'i Cell<u64>,
    pub ghost root: { IsRoot schema },
}
