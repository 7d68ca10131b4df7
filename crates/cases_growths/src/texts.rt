//! Texts, tables of segments and words.

use crate::fault::Fault;
use crate::marks;
use crate::messages::refusal;
use crate::samples::STRUCT;
use capnp_message::message::{
    Builder, DEFAULT_READER_OPTIONS, HeapAllocator, Reader, SegmentArray, with_message,
};
use capnp_stream::segments::{SegmentLengthsBuilder, words_of};
use capnp_stream_io::adapters::Source;
use capnp_stream_io::traits::BufRead;
use capnp_text::text;
use capnp_units::errors::{Error, Result};
use capnp_units::kinds::ErrorKind;
use capnp_units::sizes::words_as_bytes;
use std::alloc::Global;

/// Pushes segments one after another, and returns the words that the table counts.
fn push(alloc: Global, count: usize) -> Result<usize> {
    let mut table = SegmentLengthsBuilder::with_capacity(alloc, 1)?;
    for words in 0..count {
        table.try_push_segment(words)?;
    }
    Ok(table.total_words())
}

/// Returns the number of bytes of the segments that a table makes.
fn own(alloc: Global) -> Result<usize> {
    let mut table = SegmentLengthsBuilder::with_capacity(alloc, 2)?;
    table.try_push_segment(1)?;
    table.try_push_segment(2)?;
    let segments = table.into_owned_segments(alloc)?;
    Ok(segments.as_slice().len())
}

/// Returns the number of words of the second segment that a table makes.
fn copy_segment(alloc: Global) -> Result<usize> {
    let mut table = SegmentLengthsBuilder::with_capacity(alloc, 2)?;
    table.try_push_segment(1)?;
    table.try_push_segment(2)?;
    match table.into_owned_segments(alloc)?.segment_words(alloc, 1)? {
        Some(words) => Ok(words.len()),
        None => Err(Error::from(ErrorKind::OutOfBounds)),
    }
}

/// Returns the number of bytes of a message's canonical words.
fn canonicalize(alloc: Global, words: &[u8]) -> Result<usize> {
    let segments: [&[u8]; 1] = [words];
    let source = Reader::new(SegmentArray::new(&segments), DEFAULT_READER_OPTIONS);
    let mut limiter = DEFAULT_READER_OPTIONS.read_limiter();
    let canonical = source.canonicalize(alloc, &mut limiter)?;
    if words_as_bytes(&canonical) == words {
        Ok(words.len())
    } else {
        Err(Error::from(ErrorKind::OutOfBounds))
    }
}

/// Returns the number of bytes of a text's copy.
fn copy(alloc: Global, is_built: bool) -> Result<usize> {
    let mut bytes = [0x68, 0x69];
    let copied = if is_built {
        text::Builder::new(&mut bytes).to_string(alloc)?
    } else {
        text::Reader(&bytes).to_string(alloc)?
    };
    match copied {
        Some(text) => Ok(text.len()),
        None => Err(Error::from(ErrorKind::OutOfBounds)),
    }
}

/// Returns the number of bytes that a reader shows through a buffered source.
fn show(alloc: Global) -> Result<usize> {
    let mut source = Source::new(alloc, b"hi".as_slice())?;
    Ok(source.fill_buf()?.len())
}

/// Returns the number of words of a message that is built by a function.
fn build(alloc: Global) -> Result<usize> {
    with_message(alloc, |message: &mut Builder<HeapAllocator>| {
        message.set_root::<text::Owned, &str>("hi")?;
        Ok(message.size_in_words())
    })
}

/// Makes the named call, between the marks. Returns the number of words or bytes that it answers.
fn called(rt: &HostRuntime, call: &str, words: &[u8]) -> Result<usize> {
    let alloc = rt.alloc();
    marks::begin(rt);
    let count = match call {
        "table" => push(alloc, 5),
        "owned_segments" => own(alloc),
        "segment_words" => copy_segment(alloc),
        "words" => words_of(alloc, words).map(|words| words.len()),
        "canonicalize" => canonicalize(alloc, words),
        "reader_to_string" => copy(alloc, false),
        "builder_to_string" => copy(alloc, true),
        "source" => show(alloc),
        "message" => build(alloc),
        _ => Err(Error::from(ErrorKind::FieldNotFound)),
    };
    marks::end(rt);
    count
}

/// Makes a case, and returns its line.
pub fn told(rt: &HostRuntime, call: &str) -> std::result::Result<String, Fault> {
    let alloc = rt.alloc();
    let words = hex::decode(alloc, STRUCT.as_bytes())?;
    match called(rt, call, &words) {
        Ok(count) => Ok(format!(in alloc; "done; {count}")?),
        Err(error) => refusal(alloc, error),
    }
}
