//! Packed messages, read from streams.
ghost use Rattle.std.specs.Prelude.{◌≡◌, ◌<◌, ◌⊎◌, length, IfOk, IfSome};
ghost use Rattle.capnp_model.specs.Packing.{unpacked};
ghost use Rattle.capnp_model.specs.Messages.{packed_message};
ghost use Rattle.capnp_stream_io.specs.Writes.{Writes, sink_seen};
ghost use Rattle.capnp_stream_packed.specs.Streams.{is_packed_fault};
ghost use Rattle.capnp_stream.specs.Reading.{TriesMessage, ReadsMessage, source_seen};
ghost use Rattle.capnp_stream.specs.Filling.{TriesFilling, FillsMessage};
ghost use Rattle.capnp_message.specs.Messages.{segments_read, segments_tried};
ghost use Rattle.capnp_message.specs.Built.{words_held};

use crate::builder::Builder;
use crate::forms::{
    read_message_in, read_message_no_alloc_in, try_read_message_in, try_read_message_no_alloc_in,
    write_message_in,
};
use crate::options::ReaderOptions;
use crate::reader::Reader;
use capnp_copy_arenas::allocator::{Allocator, SegmentBytes};
use capnp_stream::buffers::NoAllocSliceSegments;
use capnp_stream::segments::OwnedSegments;
use capnp_stream_io::traits::{BufRead, Write};
pub use capnp_stream_packed::form::Packed;
pub use capnp_stream_packed::serialize_packed::{write_message_segments, write_segment};
pub use capnp_stream_packed::streams::{PackedRead, PackedWrite};
use capnp_units::errors::Result;
use std::alloc::Global;

/// Reads the next packed message, or returns `None` if no byte is left.
///
/// `InvalidNumberOfSegments`: its table counts more than 511. `MessageTooLarge`: it has more words
/// than the options' limit. `PrematureEndOfPackedInput`, `FailedToFillTheWholeBuffer` and
/// `PackedInputDidNotEndCleanlyOnASegmentBoundary`: a piece of the message can't be read. `Device`:
/// the source failed. `OutOfMemory`: there is no memory for the segments. After a refusal less than
/// a message was taken, and no byte after the first that is at fault.
pub fn try_read_message<R: BufRead>(
    alloc: Global,
    source: &mut R,
    options: ReaderOptions,
) -> Result<Option<Reader<OwnedSegments>>>
    ensures message { TriesMessage unpacked is_packed_fault options.traversal_limit_in_words
        (source_seen R.remaining R.failures source.old) (segments_tried result)
        (source_seen R.remaining R.failures source.new) }
    ensures options { IfOk result (λ o. IfSome o (λ m. m.options ≡ options)) }
{
    try_read_message_in::<Packed, R>(alloc, source, options)
}

/// Reads the next packed message. `PrematureEndOfFile`: no byte is left. Otherwise it is refused
/// like `try_read_message`.
pub fn read_message<R: BufRead>(
    alloc: Global,
    source: &mut R,
    options: ReaderOptions,
) -> Result<Reader<OwnedSegments>>
    ensures message { ReadsMessage unpacked is_packed_fault options.traversal_limit_in_words
        (source_seen R.remaining R.failures source.old) (segments_read result)
        (source_seen R.remaining R.failures source.new) }
    ensures options { IfOk result (λ m. m.options ≡ options) }
{
    read_message_in::<Packed, R>(alloc, source, options)
}

/// Reads the next packed message, or returns `None` if no byte is left. Its table and its segments
/// are unpacked in the buffer, and no memory is taken.
///
/// `BufferNotLargeEnough`: the buffer has fewer bytes than the table and the segments unpacked.
/// Otherwise it is refused like `try_read_message`, but never with `OutOfMemory`.
pub fn try_read_message_no_alloc<'a, R: BufRead>(
    source: &mut R,
    buffer: &'a mut [u8],
    options: ReaderOptions,
) -> Result<Option<Reader<NoAllocSliceSegments<'a>>>>
    ensures message { TriesFilling unpacked is_packed_fault options.traversal_limit_in_words
        (length buffer.old) (source_seen R.remaining R.failures source.old)
        (segments_tried result) (source_seen R.remaining R.failures source.new) }
    ensures options { IfOk result (λ o. IfSome o (λ m. m.options ≡ options)) }
{
    try_read_message_no_alloc_in::<Packed, R>(source, buffer, options)
}

/// Reads the next packed message, which is unpacked in the buffer after its table.
/// `PrematureEndOfFile`: no byte is left. Otherwise it is refused like `try_read_message_no_alloc`.
pub fn read_message_no_alloc<'a, R: BufRead>(
    source: &mut R,
    buffer: &'a mut [u8],
    options: ReaderOptions,
) -> Result<Reader<NoAllocSliceSegments<'a>>>
    ensures message { FillsMessage unpacked is_packed_fault options.traversal_limit_in_words
        (length buffer.old) (source_seen R.remaining R.failures source.old)
        (segments_read result) (source_seen R.remaining R.failures source.new) }
    ensures options { IfOk result (λ m. m.options ≡ options) }
{
    read_message_no_alloc_in::<Packed, R>(source, buffer, options)
}

/// Writes the packed message of the used words of a builder's segments; there is at least one
/// segment.
///
/// After a refusal a beginning of the message was written. `OutOfMemory`: the sink needs memory, or
/// the table of more than one segment does. `BufferNotLargeEnough`: the sink has an end, and less
/// room than the message has bytes. `Device`: the sink failed.
pub fn write_message<W: Write, A: Allocator>(
    alloc: Global,
    out: &mut W,
    message: &Builder<A>,
) -> Result<()>
    requires { 0 < length message.now.memory.arena.segments.items }
    ensures { Writes (W.may_grow ⊎ (1 < length message.now.memory.arena.segments.items))
        (packed_message (words_held message.now.memory.arena))
        (sink_seen W.contents W.failures W.room out.old) result
        (sink_seen W.contents W.failures W.room out.new) }
{
    write_message_in::<Packed, W, A>(alloc, out, message)
}
