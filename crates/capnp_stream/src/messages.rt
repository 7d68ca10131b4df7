//! Messages of any number of segments, written in their forms.
ghost use Rattle.std.specs.Prelude.{◌≡◌, ◌<◌, ◌⊎◌, ◌+◌, ◌*◌, ◌/◌, ◌%◌, ◌^◌, [], ◌∷◌, ◌++◌, length, drop, map, slice_index_or, IfOk, IfErr};
ghost use Rattle.std.specs.List.{flat_map};
ghost use Rattle.capnp_units.specs.declared.kinds.ErrorKind.{ErrorKind};
ghost use Rattle.capnp_units.specs.Segments.{whole_words, words_in};
ghost use Rattle.capnp_model.specs.Messages.{frame, paired, spelled};
ghost use Rattle.capnp_stream.specs.Writing.{IsSegment, AreWritable};
ghost use Rattle.capnp_stream_io.specs.Writes.{Writes, sink_seen};

use crate::forms::{Framed, MessageForm};
use crate::frames::HALF;
use capnp_stream_io::traits::Write;
use capnp_units::errors::Result;
use capnp_units::segments::ReaderSegments;
use capnp_units::sizes::SegmentId;
use std::alloc::Global;

/// Returns the number of words of a segment; 0 if there is no such segment.
fn length_of<S: ReaderSegments>(segments: &S, id: SegmentId) -> u64
    requires { AreWritable (S.segments segments.now) }
    ensures length { result ≡ length (slice_index_or (words_in (S.segments segments.now)) id []) }
    ensures bound { result < 2 ^ 32 }
{
    match segments.get_segment(id) {
        Some(bytes) => (bytes.len() / 8) as u64,
        None => 0,
    }
}

/// Returns the words of a table after its first word, as bytes: the lengths of the segments after
/// the first, two in a word.
fn rest_of_table<S: ReaderSegments>(alloc: Global, segments: &S) -> Result<Vec<u8>>
    requires { AreWritable (S.segments segments.now) }
    ensures whole { IfOk result (λ v. length v.items % 8 ≡ 0) }
    ensures words { IfOk result (λ v. whole_words v.items
        ≡ paired (map length (drop 1 (words_in (S.segments segments.now))))) }
    ensures refusal { IfErr result
        (λ e. (e.kind ≡ ErrorKind.OutOfMemory) × (1 < length (S.segments segments.now))) }
{
    let mut table = Vec::new(alloc);
    let mut id = 1;
    while (id as usize) < segments.len() {
        let word = length_of(segments, id) + HALF * length_of(segments, id + 1);
        table.extend_from_slice(&word.to_le_bytes())?;
        id += 2;
    }
    Ok(table)
}

/// Writes a table, its first word and its rest, each as a piece.
fn write_table<F: MessageForm, W: Write>(out: &mut W, first: u64, rest: &[u8]) -> Result<()>
    requires { length rest.now % 8 ≡ 0 }
    ensures { Writes W.may_grow (F.writer (first ∷ []) ++ F.writer (whole_words rest.now))
        (sink_seen W.contents W.failures W.room out.old) result
        (sink_seen W.contents W.failures W.room out.new) }
{
    F::write_piece(out, &first.to_le_bytes())?;
    F::write_piece(out, rest)
}

/// Writes each segment as a piece.
fn write_each<F: MessageForm, W: Write, S: ReaderSegments>(out: &mut W, segments: &S) -> Result<()>
    requires { AreWritable (S.segments segments.now) }
    ensures { Writes W.may_grow (flat_map F.writer (words_in (S.segments segments.now)))
        (sink_seen W.contents W.failures W.room out.old) result
        (sink_seen W.contents W.failures W.room out.new) }
{
    let mut id = 0;
    while let Some(bytes) = segments.get_segment(id) {
        F::write_piece(out, bytes)?;
        id += 1;
    }
    Ok(())
}

/// Writes the message of these segments in a form: the table's first word, its rest and each
/// segment, each as a piece.
///
/// After a refusal a beginning of the message was written. `OutOfMemory`: the sink needs memory, or
/// the table of more than one segment does.
pub fn write_message_segments_in<F: MessageForm, W: Write, S: ReaderSegments>(
    alloc: Global,
    out: &mut W,
    segments: &S,
) -> Result<()>
    requires { AreWritable (S.segments segments.now) }
    ensures { Writes (W.may_grow ⊎ (1 < length (S.segments segments.now)))
        (spelled F.writer (words_in (S.segments segments.now)))
        (sink_seen W.contents W.failures W.room out.old) result
        (sink_seen W.contents W.failures W.room out.new) }
{
    let word = (segments.len() - 1) as u64 + HALF * length_of(segments, 0);
    let rest = rest_of_table(alloc, segments)?;
    write_table::<F, W>(out, word, &rest)?;
    write_each::<F, W, S>(out, segments)
}

/// Writes the framed message of these segments. After a refusal a beginning of the message was
/// written.
pub fn write_message_segments<W: Write, S: ReaderSegments>(
    alloc: Global,
    out: &mut W,
    segments: &S,
) -> Result<()>
    requires { AreWritable (S.segments segments.now) }
    ensures { Writes (W.may_grow ⊎ (1 < length (S.segments segments.now)))
        (frame (words_in (S.segments segments.now)))
        (sink_seen W.contents W.failures W.room out.old) result
        (sink_seen W.contents W.failures W.room out.new) }
{
    write_message_segments_in::<Framed, W, S>(alloc, out, segments)
}

/// Writes a message of one segment, which these bytes hold, in a form. After a refusal a beginning
/// of the message was written.
pub fn write_segment_in<F: MessageForm, W: Write>(out: &mut W, bytes: &[u8]) -> Result<()>
    requires { IsSegment bytes.now }
    ensures { Writes W.may_grow (spelled F.writer (whole_words bytes.now ∷ []))
        (sink_seen W.contents W.failures W.room out.old) result
        (sink_seen W.contents W.failures W.room out.new) }
{
    let word = HALF * (bytes.len() / 8) as u64;
    write_table::<F, W>(out, word, &[])?;
    F::write_piece(out, bytes)
}

/// Writes the framed message of one segment, which these bytes hold: 8 bytes and these bytes. After
/// a refusal a beginning of the message was written.
pub fn write_segment<W: Write>(out: &mut W, bytes: &[u8]) -> Result<()>
    requires whole { length bytes.now % 8 ≡ 0 }
    requires small { length bytes.now < 8 * 2 ^ 32 }
    ensures size { length (frame (whole_words bytes.now ∷ [])) ≡ 8 + length bytes.now }
    ensures writes { Writes W.may_grow (frame (whole_words bytes.now ∷ []))
        (sink_seen W.contents W.failures W.room out.old) result
        (sink_seen W.contents W.failures W.room out.new) }
{
    write_segment_in::<Framed, W>(out, bytes)
}

/// Returns the framed message of these segments, as bytes. `OutOfMemory`: there is no memory for
/// the bytes, or for the table of more than one segment.
pub fn write_message_segments_to_words<S: ReaderSegments>(
    alloc: Global,
    segments: &S,
) -> Result<Vec<u8>>
    requires { AreWritable (S.segments segments.now) }
    ensures text { IfOk result (λ v. v.items ≡ frame (words_in (S.segments segments.now))) }
    ensures refusal { IfErr result (λ e. e.kind ≡ ErrorKind.OutOfMemory) }
{
    let mut words = Vec::new(alloc);
    write_message_segments(alloc, &mut words, segments)?;
    Ok(words)
}

/// Returns the number of words of the framed message of these segments, including its table.
pub fn compute_serialized_size_in_words<S: ReaderSegments>(segments: &S) -> usize
    requires { AreWritable (S.segments segments.now) }
    ensures { 8 * result ≡ length (frame (words_in (S.segments segments.now))) }
{
    let mut total = segments.len() / 2 + 1;
    let mut id = 0;
    while (id as usize) < segments.len() {
        total += length_of(segments, id) as usize;
        id += 1;
    }
    total
}
