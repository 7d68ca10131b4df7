//! Reasons for which node records are not accepted as a schema set.

ghost use Rattle.std.specs.Prelude.{◌≡◌};

use std::alloc::AllocError;
use thiserror::Error;

/// The reason for which node records are not accepted as a schema set.
#[derive(Clone, Copy, Debug, PartialEq, Eq, Error)]
pub enum SchemaFault {
    /// The number of the first rule that is broken, and the place of the first node that breaks it.
    /// The model's `specs/Accepted.antt` numbers the rules.
    #[error("node {node} breaks schema rule {rule}")]
    Rule { rule: u32, node: usize },
    /// Memory ran out.
    #[error("out of memory")]
    Memory,
}

impl From<AllocError> for SchemaFault {
    ghost use Rattle.capnp_records.specs.declared.fault.SchemaFault.{SchemaFault};

    ghost from_gives = { λ _ fault. fault ≡ SchemaFault.Memory };

    fn from(_e: AllocError) -> SchemaFault {
        SchemaFault::Memory
    }
}
