//! Receivers of the outcomes of messages.

use crate::outcomes::Outcome;
use capnp_stream::buffers::NoAllocSliceSegments;
use std::alloc::Global;

/// Takes notes of messages, for a log.
pub trait Notes {
    /// Looks at a message that has no answer, before its outcome is noted.
    fn look_at_refused(&self, alloc: Global, message: &NoAllocSliceSegments<'_>);

    /// Notes the outcome of the message that was answered last.
    fn note(&self, outcome: Outcome);
}
