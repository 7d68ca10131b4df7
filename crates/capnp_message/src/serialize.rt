//! Framed messages, read from streams and slices.
ghost use Rattle.std.specs.Prelude.{◌≡◌, ◌≢◌, ◌<◌, ◌⊎◌, length, Ok, Err, IsOk, IfOk, IfSome, IfErr, OnErr};
ghost use Rattle.capnp_units.specs.Errors.{kind_of};
ghost use Rattle.capnp_units.specs.Segments.{words_in};
ghost use Rattle.capnp_units.specs.declared.kinds.ErrorKind.{ErrorKind};
ghost use Rattle.capnp_model.specs.Messages.{plain_words, flat_at, frame};
ghost use Rattle.capnp_stream_io.specs.Writes.{Writes, sink_seen};
ghost use Rattle.capnp_stream.specs.Buffers.{buffer_segments, found_segments};
ghost use Rattle.capnp_stream.specs.Pieces.{is_framed_fault};
ghost use Rattle.capnp_stream.specs.Reading.{TriesMessage, ReadsMessage, source_seen};
ghost use Rattle.capnp_stream.specs.Filling.{TriesFilling, FillsMessage};
ghost use Rattle.capnp_message.specs.Messages.{segments_read, segments_tried};
ghost use Rattle.capnp_message.specs.Built.{words_held};

use crate::builder::Builder;
use crate::forms::{
    read_message_in, read_message_no_alloc_in, try_read_message_in, try_read_message_no_alloc_in,
    write_message_in,
};
use crate::laws::built_segments_can_be_written;
use crate::options::ReaderOptions;
use crate::reader::Reader;
use capnp_copy_arenas::allocator::{Allocator, SegmentBytes};
pub use capnp_stream::buffers::{
    BufferSegments, NoAllocBufferSegments, NoAllocSliceSegments, SliceSegments,
};
pub use capnp_stream::flat::NoAllocSegmentTableInfo;
pub use capnp_stream::forms::Framed;
pub use capnp_stream::frames::SEGMENTS_COUNT_LIMIT;
pub use capnp_stream::messages::{
    compute_serialized_size_in_words, write_message_segments, write_message_segments_to_words,
};
pub use capnp_stream::segments::{OwnedSegments, SegmentLengthsBuilder};
use capnp_stream::slices;
use capnp_stream_io::traits::{BufRead, Write};
use capnp_units::errors::Result;
use std::alloc::Global;

/// Reads the next framed message, or returns `None` if no byte is left.
///
/// `InvalidNumberOfSegments`: its table counts more than 511. `MessageTooLarge`: it has more words
/// than the options' limit. `FailedToFillTheWholeBuffer`: the bytes end before the message does.
/// `Device`: the source failed. `OutOfMemory`: there is no memory for the segments. After a refusal
/// less than a message was taken, and no byte after the first that is at fault.
pub fn try_read_message<R: BufRead>(
    alloc: Global,
    source: &mut R,
    options: ReaderOptions,
) -> Result<Option<Reader<OwnedSegments>>>
    ensures message { TriesMessage plain_words is_framed_fault options.traversal_limit_in_words
        (source_seen R.remaining R.failures source.old) (segments_tried result)
        (source_seen R.remaining R.failures source.new) }
    ensures options { IfOk result (λ o. IfSome o (λ m. m.options ≡ options)) }
{
    try_read_message_in::<Framed, R>(alloc, source, options)
}

/// Reads the next framed message. `PrematureEndOfFile`: no byte is left. Otherwise it is refused
/// like `try_read_message`.
pub fn read_message<R: BufRead>(
    alloc: Global,
    source: &mut R,
    options: ReaderOptions,
) -> Result<Reader<OwnedSegments>>
    ensures message { ReadsMessage plain_words is_framed_fault options.traversal_limit_in_words
        (source_seen R.remaining R.failures source.old) (segments_read result)
        (source_seen R.remaining R.failures source.new) }
    ensures options { IfOk result (λ m. m.options ≡ options) }
{
    read_message_in::<Framed, R>(alloc, source, options)
}

/// Reads the next framed message, or returns `None` if no byte is left. The message is in the
/// buffer as it was read, and no memory is taken.
///
/// `BufferNotLargeEnough`: the buffer has fewer bytes than the message. Otherwise it is refused
/// like `try_read_message`, but never with `OutOfMemory`.
pub fn try_read_message_no_alloc<'a, R: BufRead>(
    source: &mut R,
    buffer: &'a mut [u8],
    options: ReaderOptions,
) -> Result<Option<Reader<NoAllocSliceSegments<'a>>>>
    ensures message { TriesFilling plain_words is_framed_fault options.traversal_limit_in_words
        (length buffer.old) (source_seen R.remaining R.failures source.old)
        (segments_tried result) (source_seen R.remaining R.failures source.new) }
    ensures options { IfOk result (λ o. IfSome o (λ m. m.options ≡ options)) }
{
    try_read_message_no_alloc_in::<Framed, R>(source, buffer, options)
}

/// Reads the next framed message, which is in the buffer as it was read. `PrematureEndOfFile`: no
/// byte is left. Otherwise it is refused like `try_read_message_no_alloc`.
pub fn read_message_no_alloc<'a, R: BufRead>(
    source: &mut R,
    buffer: &'a mut [u8],
    options: ReaderOptions,
) -> Result<Reader<NoAllocSliceSegments<'a>>>
    ensures message { FillsMessage plain_words is_framed_fault options.traversal_limit_in_words
        (length buffer.old) (source_seen R.remaining R.failures source.old)
        (segments_read result) (source_seen R.remaining R.failures source.new) }
    ensures options { IfOk result (λ m. m.options ≡ options) }
{
    read_message_no_alloc_in::<Framed, R>(source, buffer, options)
}

/// Reads the framed message at the front of the slice, and moves the slice past the message. Its
/// segments are lent from the slice.
///
/// `MessageEndsPrematurely`: no byte is left, or the segments are cut.
/// `FailedToFillTheWholeBuffer`: the table is cut. `InvalidNumberOfSegments` and `MessageTooLarge`
/// come as for streams. `OutOfMemory`: there is no memory for the table. After a refusal the slice
/// is unchanged.
pub fn read_message_from_flat_slice<'a>(
    alloc: Global,
    slice: &mut &'a [u8],
    options: ReaderOptions,
) -> Result<Reader<SliceSegments<'a>>>
    ensures message { IfOk result (λ m. flat_at options.traversal_limit_in_words slice.old.now
        ≡ Ok (words_in (buffer_segments m.segments), slice.new.now)) }
    ensures options { IfOk result (λ m. m.options ≡ options) }
    ensures refused { IfErr result (λ e. e.kind ≢ ErrorKind.OutOfMemory
        → flat_at options.traversal_limit_in_words slice.old.now ≡ Err (kind_of e.kind)) }
    ensures wanted { IfErr result (λ e. e.kind ≡ ErrorKind.OutOfMemory
        → IsOk (flat_at options.traversal_limit_in_words slice.old.now)) }
    ensures kept { OnErr result (slice.new.now ≡ slice.old.now) }
{
    match slices::read_message_from_flat_slice(alloc, slice, options.traversal_limit_in_words) {
        Ok(segments) => Ok(Reader::new(segments, options)),
        Err(e) => Err(e),
    }
}

/// Reads the message like the function above, and takes no memory.
pub fn read_message_from_flat_slice_no_alloc<'a>(
    slice: &mut &'a [u8],
    options: ReaderOptions,
) -> Result<Reader<NoAllocSliceSegments<'a>>>
    ensures message { IfOk result (λ m. flat_at options.traversal_limit_in_words slice.old.now
        ≡ Ok (words_in (found_segments m.segments), slice.new.now)) }
    ensures options { IfOk result (λ m. m.options ≡ options) }
    ensures refused { IfErr result
        (λ e. flat_at options.traversal_limit_in_words slice.old.now ≡ Err (kind_of e.kind)) }
    ensures kept { OnErr result (slice.new.now ≡ slice.old.now) }
{
    match slices::read_message_from_flat_slice_no_alloc(slice, options.traversal_limit_in_words) {
        Ok(segments) => Ok(Reader::new(segments, options)),
        Err(e) => Err(e),
    }
}

/// Writes the framed message of the used words of a builder's segments; there is at least one
/// segment.
///
/// After a refusal a beginning of the message was written. `OutOfMemory`: the sink needs memory, or
/// the table of more than one segment does. `BufferNotLargeEnough`: the sink has an end, and less
/// room than the message has bytes. `Device`: the sink failed.
pub fn write_message<W: Write, A: Allocator>(
    alloc: Global,
    out: &mut W,
    message: &Builder<A>,
) -> Result<()>
    requires { 0 < length message.now.memory.arena.segments.items }
    ensures { Writes (W.may_grow ⊎ (1 < length message.now.memory.arena.segments.items)) (frame
        (words_held message.now.memory.arena)) (sink_seen W.contents W.failures W.room out.old)
        result (sink_seen W.contents W.failures W.room out.new) }
{
    write_message_in::<Framed, W, A>(alloc, out, message)
}

/// Returns the framed message of the used words of a builder's segments as bytes; there is at least
/// one segment. `OutOfMemory`: there is no memory for the bytes, or for the table of more than one
/// segment.
pub fn write_message_to_words<A: Allocator>(alloc: Global, message: &Builder<A>) -> Result<Vec<u8>>
    requires { 0 < length message.now.memory.arena.segments.items }
    ensures text { IfOk result (λ v. v.items ≡ frame (words_held message.now.memory.arena)) }
    ensures refusal { IfErr result (λ e. e.kind ≡ ErrorKind.OutOfMemory) }
{
    built_segments_can_be_written(message);
    write_message_segments_to_words(alloc, message)
}
