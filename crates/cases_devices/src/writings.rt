//! Messages of two segments that are written to sinks that fail at each byte.

use crate::devices::{Alarm, Fault, Taking};
use capnp_message::laws::built_segments_can_be_written;
use capnp_message::message::{AllocationStrategy, Builder, HeapAllocator};
use capnp_message::{serialize, serialize_packed};
use capnp_stream_io::traits::Write;
use capnp_stream_packed::streams::PackedWrite;
use capnp_text::text;
use capnp_units::errors::{Error, Result};
use capnp_units::kinds::ErrorKind;
use std::alloc::Global;

/// Words that are packed.
const WORDS: &[u8] = &[
    1, 2, 3, 4, 5, 6, 7, 8, 0, 0, 0, 0, 0, 0, 0, 0, 1, 0, 2, 0, 3, 0, 0, 0,
];

/// Ends a message, and releases its segments.
fn end(builder: Builder<HeapAllocator>) {
    drop(builder.into_allocator());
}

/// Writes a message, or the words, in a way.
fn write<W: Write>(
    alloc: Global,
    way: &str,
    out: &mut W,
    message: &Builder<HeapAllocator>,
) -> Result<()> {
    if message.memory.arena.len() == 0 {
        return Err(Error::from(ErrorKind::OutOfBounds));
    }
    built_segments_can_be_written(message);
    match way {
        "write_framed" => serialize::write_message(alloc, out, message),
        "write_packed" => serialize_packed::write_message(alloc, out, message),
        "write_framed_segments" => serialize::write_message_segments(alloc, out, message),
        "write_packed_segments" => { serialize_packed::write_message_segments(alloc, out, message) }
        _ => PackedWrite { inner: out }.write_all(WORDS),
    }
}

/// Returns whether a sink that takes n bytes is reported to have failed, and holds the beginning
/// that it took.
fn fails_once(
    alloc: Global,
    way: &str,
    message: &Builder<HeapAllocator>,
    whole: &[u8],
    left: usize,
) -> std::result::Result<bool, Fault> {
    let alarm = Alarm::new();
    let mut out = Taking::new(alloc, left, &alarm);
    let failed = write(alloc, way, &mut out, message);
    let is_told = failed == Err(Error::from(ErrorKind::Device)) && out.failures() == 1;
    let is_beginning = Some(out.held()) == whole.get(..left);
    let mut again = Vec::new(alloc);
    write(alloc, way, &mut again, message)?;
    Ok(is_told && is_beginning && alarm.was_heard() && again.as_slice() == whole)
}

/// Returns the number of byte counts at which a sink failed, each as it should be.
fn count(
    alloc: Global,
    way: &str,
    message: &mut Builder<HeapAllocator>,
) -> std::result::Result<usize, Fault> {
    message.set_root::<text::Owned, &str>("hi there")?;
    let mut whole = Vec::new(alloc);
    write(alloc, way, &mut whole, message)?;
    for left in 0..whole.len() {
        if !fails_once(alloc, way, message, &whole, left)? {
            return Err(Fault::Differs(left));
        }
    }
    Ok(whole.len())
}

/// Returns the number of byte counts at which a sink failed for a message of its own; `None` if
/// there is no such way.
pub fn faults(alloc: Global, way: &str) -> std::result::Result<Option<usize>, Fault> {
    if !matches!(
        way,
        "write_framed"
            | "write_framed_segments"
            | "write_packed"
            | "write_packed_segments"
            | "write_words"
    ) {
        return Ok(None);
    }
    let allocator = HeapAllocator::new(alloc)
        .first_segment_words(1)
        .allocation_strategy(AllocationStrategy::FixedSize);
    let mut message = Builder::new(alloc, allocator);
    let found = count(alloc, way, &mut message);
    end(message);
    Ok(Some(found?))
}
