//! Subcommands that count messages or copy a range of them, without a schema.

use crate::faults::Failure;
use crate::files::{Input, OutFile, OutSink, open_source};
use crate::outputs::Outputs;
use crate::reports::print_line;
use crate::tape::Tape;
use crate::words;
use capnp_relay_loop::ends::Fault;
use capnp_relay_program::sinks::Flush;
use capnp_relay_streams::options::Form;
use capnp_stream::forms::{Framed, MessageForm};
use capnp_stream::kept::MessageBuffer;
use capnp_stream_io::adapters::Source;
use capnp_stream_io::traits::Write;
use capnp_stream_packed::form::Packed;
use clap::ArgMatches;
use hagzimot_pieces::nowhere::Nowhere;
use hagzimot_pieces::runs::{CopyFault, copy_messages};
use std::alloc::Global;
use std::rc::Rc;

/// A range of the messages of an input, by their numbers from 1, and a limit of their words.
#[derive(Clone, Copy)]
struct Cut {
    first: u64,
    last: u64,
    /// The most words of a message.
    words: usize,
}

/// The fault that ends the reading of an input, and the number of its message, from 1.
#[derive(Clone, Copy)]
struct CutFault {
    fault: Fault,
    number: u64,
}

impl Cut {
    /// Copies a message, or skips it if it comes before the range. Returns 1, or 0 at the end.
    fn take<I: MessageForm, O: MessageForm, W: Write>(
        self,
        alloc: Global,
        buffer: &mut MessageBuffer,
        source: &mut Source<Input>,
        out: &mut W,
        number: u64,
    ) -> Result<u64, CopyFault> {
        if number < self.first {
            let mut nowhere = Nowhere;
            return copy_messages::<I, O, Source<Input>, Nowhere>(
                alloc,
                buffer,
                source,
                &mut nowhere,
                self.words,
                1,
            );
        }
        copy_messages::<I, O, Source<Input>, W>(alloc, buffer, source, out, self.words, 1)
    }

    /// Copies the messages of the range from a source to a sink, and returns the number of messages
    /// that were read. The tracker notes the byte at which each message begins.
    fn copy<I: MessageForm, O: MessageForm, W: Write>(
        self,
        alloc: Global,
        source: &mut Source<Input>,
        tape: &Tape,
        out: &mut W,
    ) -> Result<u64, CutFault> {
        let mut buffer = MessageBuffer::new(alloc);
        for number in 1..=self.last {
            tape.turn(source.buffered());
            match self.take::<I, O, W>(alloc, &mut buffer, source, out, number) {
                Ok(0) => return Ok(number.saturating_sub(1)),
                Ok(_) => {}
                Err(CopyFault { fault, copied: _ }) => return Err(CutFault { fault, number }),
            }
        }
        Ok(self.last)
    }
}

/// Returns the failure of an input, or of the output, at a message.
fn failure(alloc: Global, name: &str, tape: &Tape, out: &OutFile, end: CutFault) -> Failure {
    let CutFault { fault, number } = end;
    match (fault, tape.take_fault()) {
        (Fault::Out, _) => out.failure(alloc),
        (Fault::Source, Some(why)) => Failure::unread(alloc, name, number, tape.start(), why),
        (fault, _) => Failure::stream(alloc, name, number, tape.start(), fault),
    }
}

/// Returns the number of messages of an input.
fn count_one(
    rt: &HostRuntime,
    name: &str,
    form: Form,
    cut: Cut,
    out: &OutFile,
) -> Result<u64, Failure> {
    let alloc = rt.alloc();
    let tape = Rc::new(alloc, Tape::new(alloc, false))?;
    let mut source = open_source(rt, name, &tape)?;
    let mut nowhere = Nowhere;
    let end = match form {
        Form::Framed => cut.copy::<Framed, Framed, Nowhere>(
            alloc,
            &mut source,
            &tape,
            &mut nowhere,
        ),
        Form::Packed => cut.copy::<Packed, Framed, Nowhere>(
            alloc,
            &mut source,
            &tape,
            &mut nowhere,
        ),
    };
    match end {
        Ok(count) => Ok(count),
        Err(end) => Err(failure(alloc, name, &tape, out, end)),
    }
}

/// Copies the messages of a range from an input to the output.
fn slice_one(
    rt: &HostRuntime,
    matches: &ArgMatches<'_>,
    name: &str,
    cut: Cut,
    kept: &OutFile,
    out: &mut OutSink,
) -> Result<(), Failure> {
    let alloc = rt.alloc();
    let tape = Rc::new(alloc, Tape::new(alloc, false))?;
    let mut source = open_source(rt, name, &tape)?;
    let end = match (words::form(matches, "in"), words::form(matches, "out")) {
        (Form::Framed, Form::Framed) => {
            cut.copy::<Framed, Framed, OutSink>(alloc, &mut source, &tape, out)
        }
        (Form::Framed, Form::Packed) => {
            cut.copy::<Framed, Packed, OutSink>(alloc, &mut source, &tape, out)
        }
        (Form::Packed, Form::Framed) => {
            cut.copy::<Packed, Framed, OutSink>(alloc, &mut source, &tape, out)
        }
        (Form::Packed, Form::Packed) => {
            cut.copy::<Packed, Packed, OutSink>(alloc, &mut source, &tape, out)
        }
    };
    match (end, out.flush()) {
        (Err(end), _) => Err(failure(alloc, name, &tape, kept, end)),
        (Ok(_), Err(_)) => Err(kept.failure(alloc)),
        (Ok(_), Ok(())) => Ok(()),
    }
}

/// Copies the messages of a range from each input to the output.
fn slice_all(
    rt: &HostRuntime,
    matches: &ArgMatches<'_>,
    names: &[String],
    cut: Cut,
    kept: &Rc<OutFile>,
) -> Result<(), Failure> {
    let mut out = kept.sink(rt.alloc())?;
    for name in names {
        slice_one(rt, matches, name.as_str(), cut, kept, &mut out)?;
    }
    Ok(())
}

/// Runs `hagzimot count`, which prints the number of messages of all inputs.
pub fn count(rt: &HostRuntime, matches: &ArgMatches<'_>) -> Result<u8, Failure> {
    let alloc = rt.alloc();
    let cut = Cut {
        first: u64::MAX,
        last: u64::MAX - 1,
        words: words::limit_of_words(matches) as usize,
    };
    let out = OutFile::standard(rt)?;
    let mut total: u64 = 0;
    for name in words::inputs(alloc, matches)?.iter() {
        let counted = count_one(rt, name.as_str(), words::form(matches, "in"), cut, &out)?;
        total = total.saturating_add(counted);
    }
    let line = format!(in alloc; "{total}")?;
    print_line(rt, line.as_str())?;
    Ok(0)
}

/// Runs `hagzimot slice`, which copies a range of the messages of each input.
pub fn slice(rt: &HostRuntime, matches: &ArgMatches<'_>) -> Result<u8, Failure> {
    let alloc = rt.alloc();
    let cut = Cut {
        first: matches.get_one::<u64>("from").unwrap_or(1),
        last: matches.get_one::<u64>("to").unwrap_or(u64::MAX),
        words: words::limit_of_words(matches) as usize,
    };
    if cut.first > cut.last {
        return Err(Failure::contradiction(alloc, cut.first, cut.last));
    }
    let names = words::inputs(alloc, matches)?;
    let outputs = Outputs::open(rt, matches, &names)?;
    match slice_all(rt, matches, &names, cut, &outputs.messages) {
        Ok(()) => {
            outputs.commit(alloc)?;
            Ok(0)
        }
        Err(failure) => {
            outputs.discard();
            Err(failure)
        }
    }
}
