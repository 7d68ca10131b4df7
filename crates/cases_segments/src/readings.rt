//! Readings of messages by each function.

use crate::seen::{Answer, Seen, refusal, segments, word};
use crate::streams::Form;
use capnp_message::options::ReaderOptions;
use capnp_message::reader::Reader;
use capnp_message::{serialize, serialize_packed};
use capnp_stream::buffers::{BufferSegments, NoAllocBufferSegments};
use capnp_stream::forms::Framed;
use capnp_stream::kept::{MessageBuffer, try_read_message_into};
use capnp_stream_packed::form::Packed;
use capnp_units::errors::Result as Read;
use capnp_units::segments::ReaderSegments;
use std::alloc::Global;
use test_support::shown::Shown;

/// Returns the segments of a message, or why there are none.
fn found<S: ReaderSegments>(alloc: Global, read: &Read<Reader<S>>) -> Answer {
    match read {
        Ok(message) => segments(alloc, message.get_segments()),
        Err(e) => refusal(alloc, *e),
    }
}

/// Returns the segments of a message, or the end, or why there are none.
fn found_or_end<S: ReaderSegments>(alloc: Global, read: &Read<Option<Reader<S>>>) -> Answer {
    match read {
        Ok(Some(message)) => segments(alloc, message.get_segments()),
        Ok(None) => word(alloc, "end"),
        Err(e) => refusal(alloc, *e),
    }
}

/// Reads the next message.
pub fn read(alloc: Global, form: Form, source: &mut Shown, options: ReaderOptions) -> Answer {
    match form {
        Form::Framed => found(alloc, &serialize::read_message(alloc, source, options)),
        Form::Packed => found(
            alloc,
            &serialize_packed::read_message(alloc, source, options),
        ),
    }
}

/// Reads the next message, or the end.
pub fn tried(alloc: Global, form: Form, source: &mut Shown, options: ReaderOptions) -> Answer {
    match form {
        Form::Framed => {
            found_or_end(alloc, &serialize::try_read_message(alloc, source, options))
        }
        Form::Packed => {
            found_or_end(
                alloc,
                &serialize_packed::try_read_message(alloc, source, options),
            )
        }
    }
}

/// Reads the next message into a buffer of n bytes.
pub fn lent(
    alloc: Global,
    form: Form,
    source: &mut Shown,
    options: ReaderOptions,
    room: Option<usize>,
) -> Answer {
    let Some(room) = room else {
        return Ok(Seen::Nothing);
    };
    let mut buffer = vec![in alloc; 3u8; room]?;
    match form {
        Form::Framed => {
            let message = serialize::read_message_no_alloc(source, &mut buffer, options);
            found(alloc, &message)
        }
        Form::Packed => {
            let message = serialize_packed::read_message_no_alloc(source, &mut buffer, options);
            found(alloc, &message)
        }
    }
}

/// Reads the next message into a buffer of n bytes, or the end.
pub fn tried_lent(
    alloc: Global,
    form: Form,
    source: &mut Shown,
    options: ReaderOptions,
    room: Option<usize>,
) -> Answer {
    let Some(room) = room else {
        return Ok(Seen::Nothing);
    };
    let mut buffer = vec![in alloc; 3u8; room]?;
    match form {
        Form::Framed => {
            let message = serialize::try_read_message_no_alloc(source, &mut buffer, options);
            found_or_end(alloc, &message)
        }
        Form::Packed => {
            let message = serialize_packed::try_read_message_no_alloc(source, &mut buffer, options);
            found_or_end(alloc, &message)
        }
    }
}

/// Reads the next message into a buffer that is kept, or the end.
pub fn kept(
    alloc: Global,
    form: Form,
    source: &mut Shown,
    buffer: &mut MessageBuffer,
    options: ReaderOptions,
) -> Answer {
    let limit = options.traversal_limit_in_words;
    let read = match form {
        Form::Framed => try_read_message_into::<Framed, Shown>(source, buffer, limit),
        Form::Packed => try_read_message_into::<Packed, Shown>(source, buffer, limit),
    };
    match read {
        Ok(Some(message)) => segments(alloc, &message),
        Ok(None) => word(alloc, "end"),
        Err(e) => refusal(alloc, e),
    }
}

/// Reads the framed message at the front of the bytes, which then begin after it, if both readers
/// of slices give the same.
pub fn flat(alloc: Global, source: &mut Shown, options: ReaderOptions) -> Answer {
    let mut first = source.bytes;
    let mut second = source.bytes;
    let lent = serialize::read_message_from_flat_slice(alloc, &mut first, options);
    let free = serialize::read_message_from_flat_slice_no_alloc(&mut second, options);
    let seen = found(alloc, &lent)?;
    let other = found(alloc, &free)?;
    if seen != other || first != second {
        return word(alloc, "unlike");
    }
    source.bytes = first;
    Ok(seen)
}

/// Reads the framed message at the front of the bytes, if both buffers give the same.
pub fn held(alloc: Global, bytes: &[u8], options: ReaderOptions) -> Answer {
    let limit = options.traversal_limit_in_words;
    let lent = match BufferSegments::new(alloc, bytes, limit) {
        Ok(message) => segments(alloc, &message),
        Err(e) => refusal(alloc, e),
    };
    let free = match NoAllocBufferSegments::from_buffer(bytes, limit) {
        Ok(message) => segments(alloc, &message),
        Err(e) => refusal(alloc, e),
    };
    let seen = lent?;
    if seen != free? {
        return word(alloc, "unlike");
    }
    Ok(seen)
}
