//! Messages of two segments that are read, from streams and slices.

use crate::fault::Fault;
use crate::marks;
use crate::messages::outcome;
use capnp_message::message::{DEFAULT_READER_OPTIONS, Reader};
use capnp_message::{serialize, serialize_packed};
use capnp_stream::buffers::{BufferSegments, NoAllocBufferSegments};
use capnp_stream::forms::Framed;
use capnp_stream::kept::{MessageBuffer, try_read_message_into};
use capnp_stream_io::traits::{BufRead, Read};
use capnp_stream_packed::form::Packed;
use capnp_stream_packed::streams::PackedRead;
use capnp_units::errors::{Error, Result};
use capnp_units::kinds::ErrorKind;
use capnp_units::segments::ReaderSegments;
use std::alloc::Global;

/// A frame of segments of one word and of two, and the same packed.
const TWO: &[u8] = &[
    1, 0, 0, 0, 1, 0, 0, 0, 2, 0, 0, 0, 0, 0, 0, 0, 2, 0, 0, 0, 1, 0, 0, 0, 0, 0, 0, 0, 1, 0, 0, 0,
    7, 0, 0, 0, 0, 0, 0, 0,
];

const PACKED: &[u8] = &[0x11, 1, 1, 1, 2, 0x11, 2, 1, 0x10, 1, 1, 7];

/// The answer to a call that doesn't exist.
const NO_CALL: Error = Error {
    kind: ErrorKind::FieldNotFound,
};

/// Checks that segments are those two.
fn look<S: ReaderSegments>(segments: &S) -> Result<()> {
    let are_two = segments.len() == 2
        && segments.get_segment(0) == TWO.get(16..24)
        && segments.get_segment(1) == TWO.get(24..40);
    if are_two {
        Ok(())
    } else {
        Err(Error::from(ErrorKind::OutOfBounds))
    }
}

/// Checks a message that was read.
fn looked<S: ReaderSegments + Drop>(read: Result<Reader<S>>) -> Result<()> {
    match read {
        Ok(message) => look(message.get_segments()),
        Err(error) => Err(error),
    }
}

/// Checks a message that was read, if there was one.
fn tried<S: ReaderSegments + Drop>(read: Result<Option<Reader<S>>>) -> Result<()> {
    match read {
        Ok(Some(message)) => look(message.get_segments()),
        Ok(None) => Err(Error::from(ErrorKind::PrematureEndOfFile)),
        Err(error) => Err(error),
    }
}

/// Reads a message into a buffer that is kept.
fn keep<R: BufRead>(source: &mut R, buffer: &mut MessageBuffer, is_packed: bool) -> Result<()> {
    let found = if is_packed {
        try_read_message_into::<Packed, R>(source, buffer, None)?
    } else {
        try_read_message_into::<Framed, R>(source, buffer, None)?
    };
    match found {
        Some(segments) => look(&segments),
        None => Err(Error::from(ErrorKind::PrematureEndOfFile)),
    }
}

/// Reads a message by a call that takes memory.
fn read(alloc: Global, call: &str, source: &mut &[u8], kept: &mut MessageBuffer) -> Result<()> {
    let options = DEFAULT_READER_OPTIONS;
    match call {
        "framed" => looked(serialize::read_message(alloc, source, options)),
        "framed_try" => tried(serialize::try_read_message(alloc, source, options)),
        "framed_flat" => { looked(serialize::read_message_from_flat_slice(alloc, source, options)) }
        "framed_buffer" => look(&BufferSegments::new(alloc, *source, None)?),
        "framed_kept" => keep(source, kept, false),
        "packed" => looked(serialize_packed::read_message(alloc, source, options)),
        "packed_try" => tried(serialize_packed::try_read_message(alloc, source, options)),
        "packed_kept" => keep(source, kept, true),
        _ => Err(NO_CALL),
    }
}

/// Reads a message by a call that takes no memory, into a lent buffer if the call needs one.
fn read_lent(call: &str, source: &mut &[u8]) -> Result<()> {
    let options = DEFAULT_READER_OPTIONS;
    let mut buffer = [0; 40];
    match call {
        "framed" => looked(serialize::read_message_no_alloc(source, &mut buffer, options)),
        "framed_try" => tried(serialize::try_read_message_no_alloc(source, &mut buffer, options)),
        "framed_flat" => {
            looked(serialize::read_message_from_flat_slice_no_alloc(source, options))
        }
        "framed_buffer" => look(&NoAllocBufferSegments::from_buffer(*source, None)?),
        "packed" => looked(serialize_packed::read_message_no_alloc(source, &mut buffer, options)),
        "packed_try" => {
            tried(serialize_packed::try_read_message_no_alloc(source, &mut buffer, options))
        }
        "packed_words" => {
            let mut unpacked = PackedRead { inner: source };
            unpacked.read_exact(&mut buffer)?;
            if buffer.as_slice() == TWO {
                Ok(())
            } else {
                Err(Error::from(ErrorKind::OutOfBounds))
            }
        }
        _ => Err(NO_CALL),
    }
}

/// Returns the bytes that a call reads.
fn bytes_of(call: &str) -> &'static [u8] {
    if call.starts_with("packed") {
        PACKED
    } else {
        TWO
    }
}

/// Returns whether a refusal left what it should: the whole slice for a call that reads a slice, a
/// buffer that reads the next message for a kept buffer, otherwise a part of the message.
fn stands(call: &str, left: usize, again: Result<()>) -> bool {
    match call {
        "framed_flat" | "framed_buffer" => left == TWO.len(),
        "framed_kept" | "packed_kept" => again.is_ok(),
        _ => left > 0,
    }
}

/// Makes a case, and returns its line.
pub fn told(rt: &HostRuntime, call: &str) -> std::result::Result<String, Fault> {
    let alloc = rt.alloc();
    let mut source = bytes_of(call);
    let mut kept = MessageBuffer::new(alloc);
    marks::begin(rt);
    let done = read(alloc, call, &mut source, &mut kept);
    marks::end(rt);
    let left = source.len();
    let again = read(alloc, call, &mut bytes_of(call), &mut kept);
    let text = format!(in alloc; "{left} bytes left")?;
    outcome(alloc, done, stands(call, left, again), text.as_str())
}

/// Makes a case whose call takes no memory, and returns its line.
pub fn lent(rt: &HostRuntime, call: &str) -> std::result::Result<String, Fault> {
    let mut source = bytes_of(call);
    marks::begin(rt);
    let done = read_lent(call, &mut source);
    marks::end(rt);
    outcome(rt.alloc(), done, false, "as it was written")
}
