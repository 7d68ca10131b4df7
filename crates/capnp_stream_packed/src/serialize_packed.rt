//! Packed messages of any number of segments, written.
ghost use Rattle.std.specs.Prelude.{◌<◌, ◌⊎◌, [], ◌∷◌, length};
ghost use Rattle.capnp_units.specs.Segments.{whole_words, words_in};
ghost use Rattle.capnp_model.specs.Messages.{packed_message};
ghost use Rattle.capnp_stream.specs.Writing.{IsSegment, AreWritable};
ghost use Rattle.capnp_stream_io.specs.Writes.{Writes, sink_seen};

use crate::form::Packed;
use capnp_stream::messages::{write_message_segments_in, write_segment_in};
use capnp_stream_io::traits::Write;
use capnp_units::errors::Result;
use capnp_units::segments::ReaderSegments;
use std::alloc::Global;

/// Writes the packed message of these segments: the table's first word, its rest and each segment,
/// each as a piece.
///
/// There are 1 to 2^32 - 1 segments, each of whole words, fewer than 2^32. After a refusal a
/// beginning of the message was written. `OutOfMemory`: the sink needs memory, or the table of more
/// than one segment does. `BufferNotLargeEnough`: the sink has an end, and less room than the
/// message has bytes. `Device`: the sink failed.
pub fn write_message_segments<W: Write, S: ReaderSegments>(
    alloc: Global,
    out: &mut W,
    segments: &S,
) -> Result<()>
    requires { AreWritable (S.segments segments.now) }
    ensures { Writes (W.may_grow ⊎ (1 < length (S.segments segments.now)))
        (packed_message (words_in (S.segments segments.now)))
        (sink_seen W.contents W.failures W.room out.old) result
        (sink_seen W.contents W.failures W.room out.new) }
{
    write_message_segments_in::<Packed, W, S>(alloc, out, segments)
}

/// Writes the packed message of one segment, whose whole words these bytes are, fewer than 2^32.
/// After a refusal a beginning of the message was written, and the kind is one that
/// `write_message_segments` returns; `OutOfMemory` if the sink needs memory.
pub fn write_segment<W: Write>(out: &mut W, bytes: &[u8]) -> Result<()>
    requires { IsSegment bytes.now }
    ensures { Writes W.may_grow (packed_message (whole_words bytes.now ∷ []))
        (sink_seen W.contents W.failures W.room out.old) result
        (sink_seen W.contents W.failures W.room out.new) }
{
    write_segment_in::<Packed, W>(out, bytes)
}
