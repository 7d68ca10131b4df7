//! Why an expression doesn't mean a value.

use capnp_source_syntax::tree::Span;
use std::alloc::{AllocError, AllocFailed};

/// Why an expression doesn't mean a value.
#[derive(Debug, Drop)]
pub enum ValueFault {
    /// Something is wrong from one byte of the file up to another. The text says what, and in
    /// parentheses what to do.
    Wrong {
        start: usize,
        end: usize,
        text: String,
    },
    /// The constant with this id has to have its value first. Only implementations of `Names`
    /// return this, and it is passed on.
    Pending(u64),
    /// An allocation was refused.
    Memory,
}

impl From<AllocError> for ValueFault {
    ghost use Rattle.std.specs.Prelude.{◌≡◌};
    ghost use Rattle.capnp_source_values.specs.declared.faults.ValueFault.{ValueFault};

    ghost from_gives = { λ _ fault. fault ≡ ValueFault.Memory };

    fn from(_e: AllocError) -> ValueFault {
        ValueFault::Memory
    }
}

impl<T: Drop> From<AllocFailed<T>> for ValueFault {
    ghost use Rattle.std.specs.Prelude.{◌≡◌};
    ghost use Rattle.capnp_source_values.specs.declared.faults.ValueFault.{ValueFault};

    ghost from_gives = { λ _ fault. fault ≡ ValueFault.Memory };

    fn from(_e: AllocFailed<T>) -> ValueFault {
        ValueFault::Memory
    }
}

/// A fault at a place.
pub(crate) fn wrong(span: Span, text: String) -> ValueFault {
    ValueFault::Wrong {
        start: span.start,
        end: span.end,
        text,
    }
}
