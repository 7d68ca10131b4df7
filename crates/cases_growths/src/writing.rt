//! Messages that are written.

use crate::fault::Fault;
use crate::marks;
use crate::messages::{end, outcome, refusal, small};
use capnp_message::laws::built_segments_can_be_written;
use capnp_message::message::{Builder, HeapAllocator};
use capnp_message::{serialize, serialize_packed};
use capnp_stream_io::traits::Write;
use capnp_stream_packed::streams::PackedWrite;
use capnp_text::text;
use capnp_units::errors::{Error, Result};
use capnp_units::kinds::ErrorKind;
use std::alloc::Global;

/// The answer to a call that doesn't exist.
const NO_CALL: Error = Error {
    kind: ErrorKind::FieldNotFound,
};

/// Words that are written by themselves.
const WORDS: [u8; 24] = [
    0, 0, 0x0c, 0, 0, 0x22, 0, 0, 0, 0, 0, 0, 0, 0, 0, 0, 0, 0, 0, 0, 0, 0, 0, 0,
];

/// Writes a message of two segments by a call, or words.
fn write(
    alloc: Global,
    call: &str,
    out: &mut Vec<u8>,
    message: &Builder<HeapAllocator>,
) -> Result<()> {
    if message.memory.arena.len() == 0 {
        return Err(Error::from(ErrorKind::OutOfBounds));
    }
    built_segments_can_be_written(message);
    match call {
        "framed" => serialize::write_message(alloc, out, message),
        "framed_segments" => serialize::write_message_segments(alloc, out, message),
        "packed" => serialize_packed::write_message(alloc, out, message),
        "packed_segments" => serialize_packed::write_message_segments(alloc, out, message),
        "packed_segment" => serialize_packed::write_segment(out, &WORDS),
        "packed_words" => PackedWrite { inner: out }.write_all(&WORDS),
        _ => Err(NO_CALL),
    }
}

/// Returns the bytes of a message of two segments, by a call that makes them.
fn bytes_of(alloc: Global, call: &str, message: &Builder<HeapAllocator>) -> Result<Vec<u8>> {
    if message.memory.arena.len() == 0 {
        return Err(Error::from(ErrorKind::OutOfBounds));
    }
    built_segments_can_be_written(message);
    match call {
        "words" => serialize::write_message_to_words(alloc, message),
        "segments_to_words" => serialize::write_message_segments_to_words(alloc, message),
        _ => Err(NO_CALL),
    }
}

/// Counts the segments of a message, as a list that takes memory.
fn count_segments(
    rt: &HostRuntime,
    message: &Builder<HeapAllocator>,
) -> std::result::Result<String, Fault> {
    marks::begin(rt);
    let made = message
        .get_segments_for_output(rt.alloc())
        .map(|all| all.len());
    marks::end(rt);
    match made {
        Ok(count) => Ok(format!(in rt.alloc(); "done; {count}")?),
        Err(error) => refusal(rt.alloc(), error),
    }
}

/// Makes a call at a message, and returns its line.
fn told_of(
    rt: &HostRuntime,
    call: &str,
    message: &mut Builder<HeapAllocator>,
) -> std::result::Result<String, Fault> {
    let alloc = rt.alloc();
    message.set_root::<text::Owned, &str>("hi there")?;
    if call == "segments" {
        return count_segments(rt, message);
    }
    if call == "words" || call == "segments_to_words" {
        marks::begin(rt);
        let made = bytes_of(alloc, call, message);
        marks::end(rt);
        return match made {
            Ok(bytes) => {
                let bytes = hex::encode(alloc, &bytes)?;
                Ok(format!(in alloc; "done; {}", bytes.as_str())?)
            }
            Err(error) => refusal(alloc, error),
        };
    }
    let mut whole = Vec::new(alloc);
    write(alloc, call, &mut whole, message)?;
    let mut out = Vec::new(alloc);
    marks::begin(rt);
    let done = write(alloc, call, &mut out, message);
    marks::end(rt);
    let is_beginning = whole.starts_with(&out);
    outcome(
        alloc,
        done,
        is_beginning,
        hex::encode(alloc, &out)?.as_str(),
    )
}

/// Makes a case, and returns its line.
pub fn told(rt: &HostRuntime, call: &str) -> std::result::Result<String, Fault> {
    let mut message = small(rt.alloc());
    let told = told_of(rt, call, &mut message);
    end(message);
    told
}

/// Makes a case that writes packed words into a slice, which takes no memory, and returns its line.
pub fn lent(rt: &HostRuntime) -> std::result::Result<String, Fault> {
    let mut room = [0; 32];
    let mut rest = room.as_mut_slice();
    marks::begin(rt);
    let done = PackedWrite { inner: &mut rest }.write_all(&WORDS);
    marks::end(rt);
    outcome(
        rt.alloc(),
        done,
        false,
        hex::encode(rt.alloc(), &room)?.as_str(),
    )
}
