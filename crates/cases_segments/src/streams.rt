//! Steps over a stream of bytes, which is shown in several ways.

use crate::readings::{flat, held, kept, lent, read, tried, tried_lent};
use crate::seen::{Answer, Seen, bytes, refusal};
use crate::steps::Step;
use crate::words::{bytes_of, segments_of};
use crate::writes::{packed, written};
use capnp_message::options::ReaderOptions;
use capnp_stream::forms::{Framed, MessageForm};
use capnp_stream::kept::MessageBuffer;
use capnp_stream_packed::form::Packed;
use capnp_units::errors::Result as Read;
use std::alloc::{AllocError, Global};
use test_support::shown::Shown;

/// The form of messages in a stream.
#[derive(Clone, Copy)]
pub enum Form {
    /// Words as they are.
    Framed,
    /// Words without most of their zero bytes.
    Packed,
}

/// The places at which the bytes are cut into two pieces.
#[derive(Clone, Copy)]
pub enum Cuts {
    /// At about 64 places, and at each place if there are no more than that.
    Some,
    /// At each place.
    All,
}

/// A source that is read, and a buffer that is kept from one message to the next.
#[derive(Drop)]
pub struct Stream<'a> {
    pub form: Form,
    pub source: Shown<'a>,
    pub buffer: MessageBuffer,
}

/// The nesting limit, which no reading of streams uses.
const LEVELS: i32 = 64;

/// Returns the limit that a step gives, as options of a reader.
fn options_of(step: &Step, place: usize) -> Option<ReaderOptions> {
    let limit = crate::words::limit_of(step.part(place)?)?;
    Some(ReaderOptions {
        traversal_limit_in_words: limit,
        nesting_limit: LEVELS,
    })
}

/// Returns the words of the next piece.
fn piece(alloc: Global, stream: &mut Stream, words: usize) -> Answer {
    let Some(len) = words.checked_mul(8) else {
        return Ok(Seen::Nothing);
    };
    let mut buf = vec![in alloc; 9u8; len]?;
    let read: Read<()> = match stream.form {
        Form::Framed => Framed::read_piece(&mut stream.source, &mut buf),
        Form::Packed => Packed::read_piece(&mut stream.source, &mut buf),
    };
    match read {
        Ok(()) => Ok(Seen::Bytes(buf)),
        Err(e) => refusal(alloc, e),
    }
}

/// Returns the answer of a step that reads a message, under a limit.
fn message(alloc: Global, stream: &mut Stream, step: &Step, options: ReaderOptions) -> Answer {
    let Stream {
        form,
        source,
        buffer,
    } = stream;
    match step.verb() {
        "read" => read(alloc, *form, source, options),
        "try" => tried(alloc, *form, source, options),
        "kept" => kept(alloc, *form, source, buffer, options),
        "flat" => flat(alloc, source, options),
        "held" => held(alloc, source.bytes, options),
        "lent" => lent(alloc, *form, source, options, step.number(2)),
        "try_lent" => tried_lent(alloc, *form, source, options, step.number(2)),
        _ => Ok(Seen::Nothing),
    }
}

/// Returns the answer of a step.
fn answer(alloc: Global, stream: &mut Stream, step: &Step) -> Answer {
    match (step.verb(), step.part(1)) {
        ("rest", None) => bytes(alloc, stream.source.bytes),
        ("piece", Some(text)) => match text.parse::<usize>() {
            Ok(words) => piece(alloc, stream, words),
            Err(_) => Ok(Seen::Nothing),
        },
        ("pack", Some(text)) => match bytes_of(alloc, text)? {
            Some(words) => packed(alloc, &words),
            None => Ok(Seen::Nothing),
        },
        ("write", Some(text)) => match segments_of(alloc, text)? {
            Some(segments) => written(alloc, stream.form, &segments),
            None => Ok(Seen::Nothing),
        },
        _ => match options_of(step, 1) {
            Some(options) => message(alloc, stream, step, options),
            None => Ok(Seen::Nothing),
        },
    }
}

/// Returns the number of bytes left if each step gives what it should, with the bytes shown in one
/// way.
fn goes_shown(
    alloc: Global,
    form: Form,
    source: Shown<'_>,
    steps: &[&str],
) -> Result<Option<usize>, AllocError> {
    let mut stream = Stream {
        form,
        source,
        buffer: MessageBuffer::new(alloc),
    };
    for text in steps {
        let Some(step) = Step::of(text) else {
            return Ok(None);
        };
        let seen = answer(alloc, &mut stream, &step)?;
        if !seen.is(alloc, step.wanted())? {
            return Ok(None);
        }
    }
    Ok(Some(stream.source.bytes.len()))
}

/// Returns whether each step gives what it should, with the bytes shown at once, one at a time, and
/// in two pieces, cut at these places.
pub fn goes(
    alloc: Global,
    form: Form,
    cuts: Cuts,
    text: &str,
    steps: &[&str],
) -> Result<bool, AllocError> {
    let Some(bytes) = bytes_of(alloc, text)? else {
        return Ok(false);
    };
    let rest = goes_shown(alloc, form, Shown::new(&bytes, 0, usize::MAX), steps)?;
    if rest.is_none() || steps.is_empty() {
        return Ok(false);
    }
    if goes_shown(alloc, form, Shown::new(&bytes, 0, 1), steps)? != rest {
        return Ok(false);
    }
    let places = match cuts {
        Cuts::Some => 64,
        Cuts::All => bytes.len() + 1,
    };
    let every = bytes.len() / places + 1;
    for cut in 1..bytes.len() {
        if cut % every == 0 {
            let two = Shown::new(&bytes, cut, usize::MAX);
            if goes_shown(alloc, form, two, steps)? != rest {
                return Ok(false);
            }
        }
    }
    Ok(true)
}
