//! Whole messages in the form that a type names: framed, packed, or another.
ghost use Rattle.std.specs.Prelude.{◌≡◌, ◌<◌, ◌⊎◌, length, IfOk, IfSome};
ghost use Rattle.capnp_model.specs.Messages.{spelled};
ghost use Rattle.capnp_stream_io.specs.Writes.{Writes, sink_seen};
ghost use Rattle.capnp_stream.specs.Reading.{TriesMessage, ReadsMessage, source_seen};
ghost use Rattle.capnp_stream.specs.Filling.{TriesFilling, FillsMessage};
ghost use Rattle.capnp_message.specs.Messages.{segments_read, segments_tried};
ghost use Rattle.capnp_message.specs.Built.{words_held};

use crate::builder::Builder;
use crate::laws::built_segments_can_be_written;
use crate::options::ReaderOptions;
use crate::reader::Reader;
use capnp_copy_arenas::allocator::{Allocator, SegmentBytes};
use capnp_stream::buffers::NoAllocSliceSegments;
use capnp_stream::forms::MessageForm;
use capnp_stream::messages::write_message_segments_in;
use capnp_stream::segments::OwnedSegments;
use capnp_stream::{frames, lent};
use capnp_stream_io::traits::{BufRead, Write};
use capnp_units::errors::Result;
use std::alloc::Global;

/// Reads the next message in a form, or returns `None` if no byte is left.
///
/// `InvalidNumberOfSegments`: its table counts more than 511. `MessageTooLarge`: it has more words
/// than the options' limit. `Device`: the source failed. `OutOfMemory`: there is no memory for the
/// segments. Otherwise the error of the form says why a piece can't be read. After a refusal less
/// than a message was taken, and no byte after the first that is at fault.
pub fn try_read_message_in<F: MessageForm, R: BufRead>(
    alloc: Global,
    source: &mut R,
    options: ReaderOptions,
) -> Result<Option<Reader<OwnedSegments>>>
    ensures message { TriesMessage F.reader F.faults options.traversal_limit_in_words
        (source_seen R.remaining R.failures source.old) (segments_tried result)
        (source_seen R.remaining R.failures source.new) }
    ensures options { IfOk result (λ o. IfSome o (λ m. m.options ≡ options)) }
{
    match frames::try_read_message_in::<F, R>(alloc, source, options.traversal_limit_in_words) {
        Ok(Some(segments)) => Ok(Some(Reader::new(segments, options))),
        Ok(None) => Ok(None),
        Err(e) => Err(e),
    }
}

/// Reads the next message in a form. `PrematureEndOfFile`: no byte is left. Otherwise it is refused
/// like `try_read_message_in`.
pub fn read_message_in<F: MessageForm, R: BufRead>(
    alloc: Global,
    source: &mut R,
    options: ReaderOptions,
) -> Result<Reader<OwnedSegments>>
    ensures message { ReadsMessage F.reader F.faults options.traversal_limit_in_words
        (source_seen R.remaining R.failures source.old) (segments_read result)
        (source_seen R.remaining R.failures source.new) }
    ensures options { IfOk result (λ m. m.options ≡ options) }
{
    match frames::read_message_in::<F, R>(alloc, source, options.traversal_limit_in_words) {
        Ok(segments) => Ok(Reader::new(segments, options)),
        Err(e) => Err(e),
    }
}

/// Reads the next message in a form, or returns `None` if no byte is left. Its table and its
/// segments are in the buffer, and no memory is taken.
///
/// `BufferNotLargeEnough`: the buffer has fewer bytes than the table and the segments. Otherwise it
/// is refused like `try_read_message_in`, but never with `OutOfMemory`.
pub fn try_read_message_no_alloc_in<'a, F: MessageForm, R: BufRead>(
    source: &mut R,
    buffer: &'a mut [u8],
    options: ReaderOptions,
) -> Result<Option<Reader<NoAllocSliceSegments<'a>>>>
    ensures message { TriesFilling F.reader F.faults options.traversal_limit_in_words
        (length buffer.old) (source_seen R.remaining R.failures source.old)
        (segments_tried result) (source_seen R.remaining R.failures source.new) }
    ensures options { IfOk result (λ o. IfSome o (λ m. m.options ≡ options)) }
{
    let limit = options.traversal_limit_in_words;
    match lent::try_read_message_no_alloc_in::<F, R>(source, buffer, limit) {
        Ok(Some(segments)) => Ok(Some(Reader::new(segments, options))),
        Ok(None) => Ok(None),
        Err(e) => Err(e),
    }
}

/// Reads the next message in a form into the buffer. `PrematureEndOfFile`: no byte is left.
/// Otherwise it is refused like `try_read_message_no_alloc_in`.
pub fn read_message_no_alloc_in<'a, F: MessageForm, R: BufRead>(
    source: &mut R,
    buffer: &'a mut [u8],
    options: ReaderOptions,
) -> Result<Reader<NoAllocSliceSegments<'a>>>
    ensures message { FillsMessage F.reader F.faults options.traversal_limit_in_words
        (length buffer.old) (source_seen R.remaining R.failures source.old)
        (segments_read result) (source_seen R.remaining R.failures source.new) }
    ensures options { IfOk result (λ m. m.options ≡ options) }
{
    let limit = options.traversal_limit_in_words;
    match lent::read_message_no_alloc_in::<F, R>(source, buffer, limit) {
        Ok(segments) => Ok(Reader::new(segments, options)),
        Err(e) => Err(e),
    }
}

/// Writes the message of the used words of a builder's segments in a form; there is at least one
/// segment.
///
/// After a refusal a beginning of the message was written. `OutOfMemory`: the sink needs memory, or
/// the table of more than one segment does. `BufferNotLargeEnough`: the sink has an end, and less
/// room than the message has bytes. `Device`: the sink failed.
pub fn write_message_in<F: MessageForm, W: Write, A: Allocator>(
    alloc: Global,
    out: &mut W,
    message: &Builder<A>,
) -> Result<()>
    requires { 0 < length message.now.memory.arena.segments.items }
    ensures { Writes (W.may_grow ⊎ (1 < length message.now.memory.arena.segments.items))
        (spelled F.writer (words_held message.now.memory.arena))
        (sink_seen W.contents W.failures W.room out.old) result
        (sink_seen W.contents W.failures W.room out.new) }
{
    built_segments_can_be_written(message);
    write_message_segments_in::<F, W, Builder<A>>(alloc, out, message)
}
