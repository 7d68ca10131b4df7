//! `hagzimot explain`.

use crate::arguments::{files, form, limit_of_words, nesting, number};
use crate::faults::Failure;
use crate::files::{Input, OutFile, OutSink, open_source};
use crate::hints::{Beginning, beginning_of, hint};
use crate::options::{Options, Taken};
use crate::tape::Tape;
use crate::words;
use capnp_relay_loop::ends::Fault;
use capnp_relay_program::sinks::Flush;
use capnp_relay_streams::options::Form;
use capnp_stream::buffers::NoAllocSliceSegments;
use capnp_stream::forms::{Framed, MessageForm};
use capnp_stream::kept::MessageBuffer;
use capnp_stream_io::adapters::Source;
use capnp_stream_io::traits::Write;
use capnp_stream_packed::form::Packed;
use capnp_units::kinds::ErrorKind;
use capnp_wire_objects::arena::{ReaderArena, ReaderArenaImpl};
use capnp_wire_objects::place::Place;
use clap::ArgMatches;
use hagzimot_explain::explained::{Explanation, explain as explain_words};
use hagzimot_explain::lines::word_line;
use hagzimot_faults::locate::WalkLimits;
use hagzimot_show::explain::{MessageOrigin, explained, message_line};
use std::alloc::{AllocError, Global};
use std::rc::Rc;

/// The most that following a message's pointers may cost, in times its words.
const WALKS: u64 = 8;

/// The words of `hagzimot explain`.
pub fn options<'a, 'w>(alloc: Global, taken: Taken<'w>) -> Result<Options<'a, 'w>, AllocError> {
    Options::new(
        alloc,
        taken,
        "explain",
        "Print what each word of a message is, and the first fault",
    )
    .arg(number(
        alloc,
        "message",
        "Explain only message N of each input; the first is 1",
    ))?
    .arg(form(alloc, "in", "Read messages in this form"))?
    .arg(limit_of_words(alloc))?
    .arg(nesting(alloc))?
    .arg(files(alloc))
}

/// Which messages are explained, and within which limits they have a value.
#[derive(Clone, Copy)]
struct Explaining {
    only: Option<u64>,
    limits: WalkLimits,
    form: Form,
}

/// Why an input isn't explained to its end, and at which message, counted from 1.
#[derive(Clone, Copy)]
struct ExplainFault {
    fault: Fault,
    number: u64,
}

/// Writes a line and a line feed.
fn put_line(out: &mut OutSink, line: Result<String, AllocError>) -> Result<(), Fault> {
    let Ok(line) = line else {
        return Err(Fault::Memory);
    };
    if out.write_all(line.as_bytes()).is_err() || out.write_all(b"\n").is_err() {
        return Err(Fault::Out);
    }
    Ok(())
}

/// Writes a line for each word.
fn put_words(
    alloc: Global,
    message: &NoAllocSliceSegments<'_>,
    explanation: &Explanation,
    out: &mut OutSink,
) -> Result<(), Fault> {
    let arena = ReaderArenaImpl::new(message, 0);
    let mut segment: u32 = 0;
    for row in &explanation.words {
        let mut position: usize = 0;
        for word in row {
            let place = Place { segment, position };
            put_line(out, word_line(alloc, &arena, place, *word))?;
            position = position.saturating_add(1);
        }
        segment = segment.saturating_add(1);
    }
    Ok(())
}

/// Returns the number of words of a message.
fn words_of(message: &NoAllocSliceSegments<'_>) -> u64 {
    ReaderArenaImpl::new(message, 0).size_in_words() as u64
}

/// Returns the line before the words of a message.
fn head_line(
    alloc: Global,
    origin: MessageOrigin<'_>,
    words: u64,
    segments: usize,
) -> Result<String, AllocError> {
    let MessageOrigin { file, number, byte } = origin;
    let words_end = if words == 1 { "" } else { "s" };
    let segments_end = if segments == 1 { "" } else { "s" };
    format!(in alloc;
        "{file}: message {number} (byte {byte}): {words} word{words_end} in {segments} segment{segments_end}"
    )
}

impl Explaining {
    /// Explains a message.
    fn explain_one(
        self,
        alloc: Global,
        origin: MessageOrigin<'_>,
        message: &NoAllocSliceSegments<'_>,
        out: &mut OutSink,
    ) -> Result<(), Fault> {
        let words = words_of(message);
        let most = words.saturating_add(1).saturating_mul(WALKS);
        let Ok(explanation) = explain_words(alloc, message, most) else {
            return Err(Fault::Memory);
        };
        let segments = explanation.words.len();
        put_line(out, head_line(alloc, origin, words, segments))?;
        put_words(alloc, message, &explanation, out)?;
        if explanation.pointers.is_cut {
            let what = "is explained in part";
            let why = "its objects overlap too much (words that are not reached may be)";
            put_line(out, message_line(alloc, origin, what, why))?;
        }
        match explained(alloc, message, None, self.limits) {
            Ok(None) => Ok(()),
            Ok(Some(why)) => put_line(
                out,
                message_line(alloc, origin, "has no value", why.as_str()),
            ),
            Err(_) => Err(Fault::Memory),
        }
    }

    /// Reads the message of a number, and explains it if it is chosen. Returns whether there was one.
    fn explain_next<I: MessageForm>(
        self,
        alloc: Global,
        file: &str,
        tape: &Tape,
        buffer: &mut MessageBuffer,
        number: u64,
        source: &mut Source<Input>,
        out: &mut OutSink,
    ) -> Result<bool, Fault> {
        tape.turn(source.buffered());
        let limit = Some(self.limits.words as usize);
        let message = match buffer.try_read_message::<I, Source<Input>>(source, limit) {
            Ok(Some(message)) => message,
            Ok(None) => return Ok(false),
            Err(e) => return Err(read_fault(e.kind)),
        };
        if self.only.unwrap_or(number) == number {
            let byte = tape.start();
            let origin = MessageOrigin { file, number, byte };
            self.explain_one(alloc, origin, &message, out)?;
        }
        Ok(true)
    }

    /// Explains the messages of a source, and returns the number of those that were read.
    fn explain_in<I: MessageForm>(
        self,
        alloc: Global,
        file: &str,
        tape: &Tape,
        source: &mut Source<Input>,
        out: &mut OutSink,
    ) -> Result<u64, ExplainFault> {
        let mut buffer = MessageBuffer::new(alloc);
        let last = self.only.unwrap_or(u64::MAX);
        for number in 1..=last {
            match self.explain_next::<I>(alloc, file, tape, &mut buffer, number, source, out) {
                Ok(true) => {}
                Ok(false) => return Ok(number.saturating_sub(1)),
                Err(fault) => return Err(ExplainFault { fault, number }),
            }
        }
        Ok(last)
    }

    /// Explains the messages of an input, and flushes the output.
    fn explain_input(
        self,
        rt: &HostRuntime,
        file: &str,
        kept: &OutFile,
        out: &mut OutSink,
    ) -> Result<u64, Failure> {
        let alloc = rt.alloc();
        let tape = Rc::new(alloc, Tape::new(alloc, false))?;
        let mut source = open_source(rt, file, &tape)?;
        let beginning = beginning_of(&mut source);
        let end = match self.form {
            Form::Framed => self.explain_in::<Framed>(alloc, file, &tape, &mut source, out),
            Form::Packed => self.explain_in::<Packed>(alloc, file, &tape, &mut source, out),
        };
        match (end, out.flush()) {
            (Err(end), _) => Err(self.failure(alloc, file, &tape, kept, beginning, end)),
            (Ok(_), Err(_)) => Err(kept.failure(alloc)),
            (Ok(count), Ok(())) => Ok(count),
        }
    }

    /// Returns the failure of an input, or of the output, at a message.
    fn failure(
        self,
        alloc: Global,
        file: &str,
        tape: &Tape,
        kept: &OutFile,
        beginning: Beginning,
        end: ExplainFault,
    ) -> Failure {
        let ExplainFault { fault, number } = end;
        match (fault, tape.take_fault()) {
            (Fault::Out, _) => return kept.failure(alloc),
            (Fault::Source, Some(why)) => {
                return Failure::unread(alloc, file, number, tape.start(), why);
            }
            _ => {}
        }
        match hint(self.form, beginning, number, fault) {
            Some(why) => Failure::about(alloc, file, &why),
            None => Failure::stream(alloc, file, number, tape.start(), fault),
        }
    }
}

/// Returns the fault of a refused read.
fn read_fault(kind: ErrorKind) -> Fault {
    match kind {
        ErrorKind::OutOfMemory => Fault::Memory,
        ErrorKind::Device => Fault::Source,
        kind => Fault::Framing(kind),
    }
}

/// Returns the failure of a message that an input doesn't have.
fn no_message(alloc: Global, wanted: u64, file: &str, count: u64) -> Failure {
    let word = match format!(in alloc; "--message {wanted}") {
        Ok(word) => word,
        Err(_) => return Failure::Memory,
    };
    let text = if count == 0 {
        format!(in alloc; "{file} has no message")
    } else {
        format!(in alloc; "the last message of {file} is {count}")
    };
    let why = match text {
        Ok(why) => why,
        Err(_) => return Failure::Memory,
    };
    Failure::words(alloc, word.as_str(), &why)
}

/// `hagzimot explain`: what each word of the messages is.
pub fn explain(rt: &HostRuntime, matches: &ArgMatches<'_>) -> Result<u8, Failure> {
    let alloc = rt.alloc();
    let explaining = Explaining {
        only: matches.get_one::<u64>("message"),
        limits: WalkLimits {
            words: words::limit_of_words(matches),
            nesting: words::nesting(matches),
        },
        form: words::form(matches, "in"),
    };
    let kept = OutFile::standard(rt)?;
    let mut out = kept.sink(alloc)?;
    for name in words::inputs(alloc, matches)?.iter() {
        let count = explaining.explain_input(rt, name.as_str(), &kept, &mut out)?;
        if let Some(wanted) = explaining.only {
            if count < wanted {
                return Err(no_message(alloc, wanted, name.as_str(), count));
            }
        }
    }
    Ok(0)
}
