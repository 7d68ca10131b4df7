//! Words and segments, written by each function.
ghost use Rattle.std.specs.Prelude.{◌↔◌, IsTrue, All, map};
ghost use Rattle.capnp_stream.specs.Writing.{AreWritable, IsSegment};

use crate::seen::{Answer, Seen, refusal, word};
use crate::streams::Form;
use capnp_message::{serialize, serialize_packed};
use capnp_stream::messages::{
    compute_serialized_size_in_words, write_message_segments_to_words, write_segment,
};
use capnp_stream_io::slice_writer::SliceWriter;
use capnp_stream_io::traits::Write;
use capnp_stream_packed::streams::PackedWrite;
use capnp_units::errors::{Error, Result as Read};
use capnp_units::kinds::ErrorKind;
use std::alloc::{AllocError, Global};

/// Returns the packed bytes of words, as one piece.
pub fn packed(alloc: Global, words: &[u8]) -> Answer {
    let mut out = PackedWrite {
        inner: Vec::new(alloc),
    };
    match out.write_all(words) {
        Ok(()) => Ok(Seen::Bytes(out.inner)),
        Err(e) => refusal(alloc, e),
    }
}

/// Returns whether bytes are whole words, few enough for a segment.
fn is_segment(bytes: &[u8]) -> bool
    ensures { IsTrue result ↔ IsSegment bytes.now }
{
    bytes.len() % 8 == 0 && bytes.len() < 0x8_0000_0000
}

/// Returns whether each of these is a segment.
fn are_segments(segments: &[Vec<u8>]) -> bool
    ensures { IsTrue result ↔ All (λ v. IsSegment v.items) segments.now }
{
    segments.iter().all(|bytes| is_segment(bytes))
}

/// Returns whether segments can be written: there are some, of whole words.
#[tactic(auto, using(crate::proofs::Writable::writable))]
fn are_writable(segments: &Vec<Vec<u8>>) -> bool
    ensures { IsTrue result → AreWritable (map (λ v. v.items) segments.now.items) }
{
    let len = segments.len();
    if len == 0 || len >= 0x1_0000_0000 {
        return false;
    }
    are_segments(segments)
}

/// Writes segments in a form. Returns `None` if they can't be written.
fn write<W: Write>(
    alloc: Global,
    form: Form,
    out: &mut W,
    segments: &Vec<Vec<u8>>,
) -> Option<Read<()>> {
    if !are_writable(segments) {
        return None;
    }
    Some(match form {
        Form::Framed => serialize::write_message_segments(alloc, out, segments),
        Form::Packed => serialize_packed::write_message_segments(alloc, out, segments),
    })
}

/// Checks that the bytes fill a slice of their length, and are refused by a slice that is a byte
/// shorter.
fn fill_a_slice(
    alloc: Global,
    form: Form,
    segments: &Vec<Vec<u8>>,
    text: &[u8],
) -> Result<bool, AllocError> {
    let mut place = vec![in alloc; 0xaau8; text.len()]?;
    let mut room = SliceWriter::new(&mut place);
    let written = write(alloc, form, &mut room, segments);
    if written != Some(Ok(())) || room.as_slice() != text || room.room() != 0 {
        return Ok(false);
    }
    let Some((_, short)) = place.split_first_mut() else {
        return Ok(false);
    };
    let mut rest = short;
    let refused = write(alloc, form, &mut rest, segments);
    Ok(refused == Some(Err(Error::from(ErrorKind::BufferNotLargeEnough))))
}

/// Returns whether the other calls that write a message give the same bytes.
fn are_alike(
    alloc: Global,
    form: Form,
    segments: &Vec<Vec<u8>>,
    text: &Vec<u8>,
) -> Result<bool, AllocError> {
    if !are_writable(segments) {
        return Ok(false);
    }
    let mut again = Vec::new(alloc);
    let one = match (form, segments.as_slice()) {
        (Form::Framed, [segment]) if is_segment(segment) => write_segment(&mut again, segment),
        (Form::Packed, [segment]) if is_segment(segment) => serialize_packed::write_segment(
            &mut again, segment,
        ),
        _ => again.write_all(text),
    };
    let is_whole = match form {
        Form::Packed => true,
        Form::Framed => {
            compute_serialized_size_in_words(segments) == text.len() / 8
                && write_message_segments_to_words(alloc, segments).as_ref() == Ok(text)
        }
    };
    Ok(one.is_ok() && again == *text && is_whole)
}

/// Returns the bytes of segments in a form, if every function that writes them gives the same.
pub fn written(alloc: Global, form: Form, segments: &Vec<Vec<u8>>) -> Answer {
    let mut out = Vec::new(alloc);
    match write(alloc, form, &mut out, segments) {
        None => return Ok(Seen::Nothing),
        Some(Err(e)) => return refusal(alloc, e),
        Some(Ok(())) => {}
    }
    let is_alike = are_alike(alloc, form, segments, &out)?;
    if is_alike && fill_a_slice(alloc, form, segments, &out)? {
        return Ok(Seen::Bytes(out));
    }
    word(alloc, "unlike")
}
