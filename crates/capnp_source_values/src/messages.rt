//! Messages that are embedded as structs.

use crate::faults::ValueFault;
use crate::making::Making;
use crate::names::Names;
use crate::telling::refused;
use capnp_source_embeds::embeds::{EmbedFault, embedded_struct};
use capnp_source_nodes::values::Object;
use capnp_source_syntax::tree::Span;

/// Returns the root of a message, which is a struct.
pub(crate) fn root_of<N: Names>(
    making: &Making<N>,
    bytes: &[u8],
    span: Span,
) -> Result<Object, ValueFault> {
    let text = match embedded_struct(making.alloc, bytes) {
        Ok(object) => return Ok(object),
        Err(EmbedFault::Malformed) => {
            "the file is not a message whose root is a struct (embed what `capnp encode` writes)"
        }
        Err(EmbedFault::TooLarge) => "the message is nested too deep or too large (embed less)",
        Err(EmbedFault::Memory) => return Err(ValueFault::Memory),
    };
    Err(refused(making.alloc, span, text))
}
