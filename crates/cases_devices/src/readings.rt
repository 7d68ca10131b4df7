//! Messages of two segments that are read from sources that fail at each byte.

use crate::devices::{Alarm, Fault, Giving};
use capnp_message::message::{DEFAULT_READER_OPTIONS, Reader};
use capnp_message::unbuffered::Unbuffered;
use capnp_message::{serialize, serialize_packed};
use capnp_stream::forms::Framed;
use capnp_stream::kept::{MessageBuffer, try_read_message_into};
use capnp_stream_io::traits::{BufRead, Read};
use capnp_stream_packed::form::Packed;
use capnp_stream_packed::streams::PackedRead;
use capnp_units::errors::{Error, Result};
use capnp_units::kinds::ErrorKind;
use capnp_units::segments::ReaderSegments;
use std::alloc::Global;

/// A frame with a segment of one word and a segment of two words, and the same frame packed.
const TWO: &[u8] = &[
    1, 0, 0, 0, 1, 0, 0, 0, 2, 0, 0, 0, 0, 0, 0, 0, 2, 0, 0, 0, 1, 0, 0, 0, 0, 0, 0, 0, 1, 0, 0, 0,
    7, 0, 0, 0, 0, 0, 0, 0,
];

const PACKED: &[u8] = &[0x11, 1, 1, 1, 2, 0x11, 2, 1, 0x10, 1, 1, 7];

/// Returns whether a message has the segments it should have, with their words in order.
fn is_two<S: ReaderSegments>(segments: &S) -> bool {
    segments.len() == 2
        && segments.get_segment(0) == TWO.get(16..24)
        && segments.get_segment(1) == TWO.get(24..40)
}

/// Returns whether a message is the one that should be read.
fn read_two<S: ReaderSegments + Drop>(read: Result<Reader<S>>) -> Result<bool> {
    match read {
        Ok(message) => Ok(is_two(message.get_segments())),
        Err(error) => Err(error),
    }
}

/// Returns whether a message is the one that should be read, if there is a message.
fn tried_two<S: ReaderSegments + Drop>(read: Result<Option<Reader<S>>>) -> Result<bool> {
    match read {
        Ok(Some(message)) => Ok(is_two(message.get_segments())),
        Ok(None) => Ok(false),
        Err(error) => Err(error),
    }
}

/// Reads a message into a buffer that is kept.
fn keep<R: BufRead>(source: &mut R, buffer: &mut MessageBuffer, is_packed: bool) -> Result<bool> {
    let found = if is_packed {
        try_read_message_into::<Packed, R>(source, buffer, None)?
    } else {
        try_read_message_into::<Framed, R>(source, buffer, None)?
    };
    match found {
        Some(segments) => Ok(is_two(&segments)),
        None => Ok(false),
    }
}

/// Reads a message in a way. Returns whether it is the one that should be read.
fn read<R: BufRead>(
    alloc: Global,
    way: &str,
    source: &mut R,
    kept: &mut MessageBuffer,
) -> Result<bool> {
    let options = DEFAULT_READER_OPTIONS;
    let mut buffer = [0; 40];
    match way {
        "framed" => read_two(serialize::read_message(alloc, source, options)),
        "framed_try" => tried_two(serialize::try_read_message(alloc, source, options)),
        "framed_lent" => {
            read_two(serialize::read_message_no_alloc(source, &mut buffer, options))
        }
        "framed_try_lent" => {
            tried_two(serialize::try_read_message_no_alloc(source, &mut buffer, options))
        }
        "packed" => read_two(serialize_packed::read_message(alloc, source, options)),
        "packed_try" => tried_two(serialize_packed::try_read_message(alloc, source, options)),
        "packed_lent" => {
            read_two(serialize_packed::read_message_no_alloc(source, &mut buffer, options))
        }
        "packed_try_lent" => tried_two(serialize_packed::try_read_message_no_alloc(
            source,
            &mut buffer,
            options,
        )),
        "framed_kept" => keep(source, kept, false),
        "packed_kept" => keep(source, kept, true),
        _ => Err(Error::from(ErrorKind::OutOfMemory)),
    }
}

/// Reads the unpacked words.
fn unpack<R: BufRead>(source: R) -> (Result<bool>, R) {
    let mut words = [0; 40];
    let mut unpacked = PackedRead { inner: source };
    let read = match unpacked.read_exact(&mut words) {
        Ok(()) => Ok(words.as_slice() == TWO),
        Err(error) => Err(error),
    };
    (read, unpacked.inner)
}

/// Returns whether a reading was refused because its device failed.
fn is_failed(read: Result<bool>) -> bool {
    read == Err(Error::from(ErrorKind::Device))
}

/// Reads in a way from a source, and then from one that works. Returns whether the first is
/// refused, and the second reads the message.
fn fails_once(
    alloc: Global,
    way: &str,
    bytes: &[u8],
    width: usize,
    left: usize,
) -> std::result::Result<bool, Fault> {
    let alarm = Alarm::new();
    let mut source = Giving::new(bytes, width, left, &alarm);
    let mut kept = MessageBuffer::new(alloc);
    let (failed, failures, unread) = if way == "packed_words" {
        let (failed, source) = unpack(source);
        (failed, source.failures(), source.unread())
    } else if let Some(form) = way.strip_suffix("_unbuffered") {
        let mut unbuffered = Unbuffered::new(source);
        let failed = read(alloc, form, &mut unbuffered, &mut kept);
        let failures = unbuffered.failures();
        (failed, failures, unbuffered.into_inner().unread())
    } else {
        let failed = read(alloc, way, &mut source, &mut kept);
        (failed, source.failures(), source.unread())
    };
    let works = match (way, way.strip_suffix("_unbuffered")) {
        ("packed_words", _) => unpack(bytes).0,
        (_, Some(form)) => read(alloc, form, &mut Unbuffered::new(bytes), &mut kept),
        _ => read(alloc, way, &mut &bytes[..], &mut kept),
    };
    let is_refused = is_failed(failed)
        && failures == 1
        && unread == bytes.len() - left.min(bytes.len());
    Ok(is_refused && alarm.was_heard() && works == Ok(true))
}

/// Returns the number of byte counts at which a source failed in a way, each as it should be;
/// `None` if there is no such way.
pub fn faults(alloc: Global, way: &str) -> std::result::Result<Option<usize>, Fault> {
    let bytes = match way.split_once('_') {
        _ if way == "framed" => TWO,
        _ if way == "packed" => PACKED,
        Some(("framed", _)) => TWO,
        Some(("packed", _)) => PACKED,
        _ => return Ok(None),
    };
    let mut count: usize = 0;
    for left in 0..bytes.len() {
        for width in [usize::MAX, 1] {
            if !fails_once(alloc, way, bytes, width, left)? {
                return Err(Fault::Differs(left));
            }
            count = count.saturating_add(1);
        }
    }
    Ok(Some(count))
}
