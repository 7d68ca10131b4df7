//! Answers about messages.

use crate::paths::path_text;
use capnp_relay_kinds::kinds::{Limits, first_out_of_kind};
use capnp_relay_kinds::steps::OutOfKind;
use capnp_units::kinds::ErrorKind;
use capnp_units::segments::ReaderSegments;
use capnp_units::sizes::ElementSize;
use capnp_values_queries::structs::StructSchema;
use capnp_wire_objects::arena::ReaderArenaImpl;
use std::alloc::{AllocError, Global};

/// An answer about a message.
#[derive(Debug, Drop)]
pub enum Told {
    InKind,
    /// A list isn't in kind: the path to it, and why.
    OutOfKind(String),
    /// The message has no value within the limits.
    Unread,
}

/// Returns what a list with elements of a size is a list of.
fn elements(size: ElementSize) -> &'static str {
    match size {
        ElementSize::Void => "voids",
        ElementSize::Bit => "bits",
        ElementSize::Byte => "bytes",
        ElementSize::TwoBytes => "16-bit elements",
        ElementSize::FourBytes => "32-bit elements",
        ElementSize::EightBytes => "64-bit elements",
        ElementSize::Pointer => "pointers",
        ElementSize::InlineComposite => "structs",
    }
}

/// Returns the path to a list that isn't in kind, and why it isn't.
fn reason(alloc: Global, root: StructSchema<'_>, found: &OutOfKind) -> Result<String, AllocError> {
    let path = path_text(alloc, root, &found.steps)?;
    let size = elements(found.size);
    let wanted = elements(found.wanted);
    format!(in alloc; "{path}: a list of {size}, but the schema has a list of {wanted}")
}

/// Says whether the lists of the message of these segments are in kind under the schema of its
/// root, or which is the first that isn't. `AllocError`: an allocation was refused.
pub fn tell<S: ReaderSegments>(
    alloc: Global,
    segments: &S,
    root: StructSchema<'_>,
    limits: Limits,
) -> Result<Told, AllocError> {
    let arena = ReaderArenaImpl::new(segments, i32::MAX);
    match first_out_of_kind(alloc, &arena, root, limits) {
        Ok(None) => Ok(Told::InKind),
        Ok(Some(found)) => Ok(Told::OutOfKind(reason(alloc, root, &found)?)),
        Err(e) if e.kind == ErrorKind::OutOfMemory => Err(AllocError),
        Err(_) => Ok(Told::Unread),
    }
}
