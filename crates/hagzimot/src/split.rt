//! `hagzimot split`: messages in files of n messages each.

use crate::faults::Failure;
use crate::files::{Input, OutFile, OutSink, open_source};
use crate::outputs::open_new;
use crate::tape::Tape;
use crate::words;
use capnp_relay_loop::ends::Fault;
use capnp_relay_program::sinks::Flush;
use capnp_relay_streams::options::Form;
use capnp_stream::forms::{Framed, MessageForm};
use capnp_stream::kept::MessageBuffer;
use capnp_stream_io::adapters::Source;
use capnp_stream_io::traits::BufRead;
use capnp_stream_packed::form::Packed;
use clap::ArgMatches;
use hagzimot_pieces::part_names::PartNames;
use hagzimot_pieces::runs::{CopyFault, copy_messages};
use std::alloc::Global;
use std::rc::Rc;

/// The file that messages are written to now.
#[derive(Drop)]
struct Part {
    kept: Rc<OutFile>,
    out: OutSink,
    /// The number of messages that still fit.
    room: u64,
}

impl Part {
    /// Gives the file its name, once its messages are written.
    fn close(mut self, alloc: Global) -> Result<(), Failure> {
        if self.out.flush().is_err() {
            let failure = self.kept.failure(alloc);
            self.kept.discard();
            return Err(failure);
        }
        self.kept.commit(alloc)
    }
}

/// The files that messages are split into.
#[derive(Drop)]
struct Parts<'a> {
    names: PartNames<'a>,
    /// The number of messages in each file.
    every: u64,
    sync: bool,
    /// The most words of a message.
    words: usize,
    /// The number of files that were begun.
    begun: u64,
    part: Option<Part>,
}

impl Parts<'_> {
    /// Begins with the next file. A file that is there is refused.
    fn begin(&mut self, rt: &HostRuntime) -> Result<Part, Failure> {
        self.begun = self.begun.saturating_add(1);
        let name = self.names.name(rt.alloc(), self.begun)?;
        let kept = open_new(rt, name.as_str(), self.sync)?;
        Ok(Part {
            out: kept.sink(rt.alloc())?,
            kept,
            room: self.every,
        })
    }

    /// Copies one message to the file that has room for it, and returns whether there was one.
    fn copy<I: MessageForm, O: MessageForm>(
        &mut self,
        rt: &HostRuntime,
        buffer: &mut MessageBuffer,
        source: &mut Source<Input>,
    ) -> Result<bool, CopyTrouble> {
        let mut part = match self.part.take() {
            Some(part) if part.room > 0 => part,
            Some(full) => {
                full.close(rt.alloc())?;
                self.begin(rt)?
            }
            None => self.begin(rt)?,
        };
        let copied = copy_messages::<I, O, Source<Input>, OutSink>(
            rt.alloc(),
            buffer,
            source,
            &mut part.out,
            self.words,
            1,
        );
        match copied {
            Ok(count) => {
                part.room = part.room.saturating_sub(count);
                self.part = Some(part);
                Ok(count > 0)
            }
            Err(CopyFault { fault, copied: _ }) => {
                let failure = part.kept.failure(rt.alloc());
                part.kept.discard();
                Err(CopyTrouble::Copy(fault, failure))
            }
        }
    }

    /// Splits the messages of an input.
    fn split<I: MessageForm, O: MessageForm>(
        &mut self,
        rt: &HostRuntime,
        name: &str,
    ) -> Result<(), Failure> {
        let alloc = rt.alloc();
        let tape = Rc::new(alloc, Tape::new(alloc, false))?;
        let mut source = open_source(rt, name, &tape)?;
        let mut buffer = MessageBuffer::new(alloc);
        for number in 1..u64::MAX {
            tape.turn(source.buffered());
            if matches!(source.fill_buf(), Ok([])) {
                return Ok(());
            }
            match self.copy::<I, O>(rt, &mut buffer, &mut source) {
                Ok(true) => {}
                Ok(false) => return Ok(()),
                Err(CopyTrouble::Part(failure)) => return Err(failure),
                Err(CopyTrouble::Copy(fault, out)) => {
                    return Err(match (fault, tape.take_fault()) {
                        (Fault::Out, _) => out,
                        (Fault::Source, Some(why)) => {
                            Failure::unread(alloc, name, number, tape.start(), why)
                        }
                        (fault, _) => Failure::stream(alloc, name, number, tape.start(), fault),
                    });
                }
            }
        }
        Ok(())
    }
}

/// Why a message isn't copied to a file.
#[derive(Drop)]
enum CopyTrouble {
    /// The file can't be opened, or the one before it can't be closed.
    Part(Failure),
    /// The message can't be copied. If the output is at fault, why.
    Copy(Fault, Failure),
}

impl From<Failure> for CopyTrouble {
    fn from(failure: Failure) -> CopyTrouble {
        CopyTrouble::Part(failure)
    }
}

/// Splits the messages of all inputs, in their order.
fn split_all(
    rt: &HostRuntime,
    matches: &ArgMatches<'_>,
    parts: &mut Parts<'_>,
) -> Result<(), Failure> {
    for name in words::inputs(rt.alloc(), matches)?.iter() {
        let name = name.as_str();
        match (words::form(matches, "in"), words::form(matches, "out")) {
            (Form::Framed, Form::Framed) => parts.split::<Framed, Framed>(rt, name)?,
            (Form::Framed, Form::Packed) => parts.split::<Framed, Packed>(rt, name)?,
            (Form::Packed, Form::Framed) => parts.split::<Packed, Framed>(rt, name)?,
            (Form::Packed, Form::Packed) => parts.split::<Packed, Packed>(rt, name)?,
        }
    }
    Ok(())
}

/// `hagzimot split`: the messages of the inputs in files of n messages each.
///
/// After a fault the files that are full remain, and the file that is not full is removed.
pub fn split(rt: &HostRuntime, matches: &ArgMatches<'_>) -> Result<u8, Failure> {
    let alloc = rt.alloc();
    let pattern = matches.get_str("output").unwrap_or("");
    let every = matches.get_one::<u64>("every").unwrap_or(1);
    let Some(names) = PartNames::new(pattern) else {
        let why = "the name has no place for a number (write %d or %04d, as in part-%04d.bin)";
        return Err(Failure::output_words(alloc, "-o", pattern, &why));
    };
    let mut parts = Parts {
        names,
        every,
        sync: !words::has_flag(matches, "no-sync"),
        words: words::limit_of_words(matches) as usize,
        begun: 0,
        part: None,
    };
    let end = split_all(rt, matches, &mut parts);
    match (end, parts.part.take()) {
        (Ok(()), Some(last)) => last.close(alloc)?,
        (Ok(()), None) => {}
        (Err(failure), last) => {
            if let Some(last) = last {
                last.kept.discard();
            }
            return Err(failure);
        }
    }
    Ok(0)
}
