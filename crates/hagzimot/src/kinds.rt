//! `hagzimot check --messages`.

use crate::faults::Failure;
use crate::files::{Input, OutFile, OutSink, open_source};
use crate::hints::{Beginning, beginning_of, hint};
use crate::tape::Tape;
use crate::words;
use capnp_relay_kinds::kinds::Limits;
use capnp_relay_loop::ends::Fault;
use capnp_relay_program::sinks::Flush;
use capnp_relay_streams::options::Form;
use capnp_stream::forms::{Framed, MessageForm};
use capnp_stream::kept::MessageBuffer;
use capnp_stream_io::adapters::Source;
use capnp_stream_io::traits::Write;
use capnp_stream_packed::form::Packed;
use capnp_units::errors::Error;
use capnp_units::kinds::ErrorKind;
use capnp_units::segments::ReaderSegments;
use capnp_values_queries::structs::StructSchema;
use clap::ArgMatches;
use hagzimot_faults::locate::WalkLimits;
use hagzimot_kinds::told::{Told, tell};
use hagzimot_show::explain::{MessageOrigin, explained, message_line};
use std::alloc::{AllocError, Global};
use std::rc::Rc;

/// The status if a message isn't in kind.
const NOT_IN_KIND: u8 = 1;

/// The status if each message that can be read is in kind, but some can't be.
const UNREAD: u8 = 3;

/// Counts of the messages that are in kind, that aren't, and that can't be read.
#[derive(Clone, Copy)]
struct Counts {
    in_kind: u64,
    out_of_kind: u64,
    unread: u64,
}

impl Counts {
    /// The status.
    fn status(self) -> u8 {
        if self.out_of_kind > 0 {
            return NOT_IN_KIND;
        }
        if self.unread > 0 { UNREAD } else { 0 }
    }
}

/// The schema and the limits under which messages are looked at, the output and the counts.
#[derive(Drop)]
struct Looking<'a> {
    root: StructSchema<'a>,
    limits: Limits,
    form: Form,
    kept: Rc<OutFile>,
    out: OutSink,
    counts: Counts,
}

/// Returns the line about a message, with its line feed.
fn ended(
    alloc: Global,
    origin: MessageOrigin<'_>,
    what: &str,
    why: &str,
) -> Result<String, AllocError> {
    let mut line = message_line(alloc, origin, what, why)?;
    line.push('\n')?;
    Ok(line)
}

impl Looking<'_> {
    /// Writes a line.
    fn put(&mut self, alloc: Global, line: &str) -> Result<(), Failure> {
        match self.out.write_all(line.as_bytes()) {
            Ok(()) => Ok(()),
            Err(_) => Err(self.kept.failure(alloc)),
        }
    }

    /// Returns why a message can't be read.
    fn why_unread<S: ReaderSegments>(
        &self,
        alloc: Global,
        segments: &S,
    ) -> Result<String, AllocError> {
        let limits = WalkLimits {
            words: self.limits.words,
            nesting: self.limits.nesting,
        };
        match explained(alloc, segments, Some(self.root), limits)? {
            Some(why) => Ok(why),
            None => String::from_str(alloc, "it has more than 1024 levels"),
        }
    }

    /// Says of a message whether it is in kind, if it isn't or can't be read, and counts it.
    fn look<S: ReaderSegments>(
        &mut self,
        rt: &HostRuntime,
        origin: MessageOrigin<'_>,
        segments: &S,
    ) -> Result<(), Failure> {
        let alloc = rt.alloc();
        match tell(alloc, segments, self.root, self.limits)? {
            Told::InKind => {
                self.counts.in_kind = self.counts.in_kind.saturating_add(1);
            }
            Told::OutOfKind(why) => {
                self.counts.out_of_kind = self.counts.out_of_kind.saturating_add(1);
                let line = ended(alloc, origin, "not in kind", why.as_str())?;
                self.put(alloc, line.as_str())?;
            }
            Told::Unread => {
                self.counts.unread = self.counts.unread.saturating_add(1);
                let why = self.why_unread(alloc, segments)?;
                let line = message_line(alloc, origin, "not checked", why.as_str())?;
                if let Err(e) = eprintln!(rt; "{line}") {
                    return Err(Failure::unwritten(alloc, "standard error", e));
                }
            }
        }
        Ok(())
    }

    /// Looks at each message of a source in one form.
    fn look_in<I: MessageForm>(
        &mut self,
        rt: &HostRuntime,
        name: &str,
        tape: &Tape,
        beginning: Beginning,
        source: &mut Source<Input>,
    ) -> Result<(), Failure> {
        let alloc = rt.alloc();
        let mut buffer = MessageBuffer::new(alloc);
        let limit = Some(self.limits.words as usize);
        for number in 1..u64::MAX {
            tape.turn(source.buffered());
            let segments = match buffer.try_read_message::<I, _>(source, limit) {
                Ok(Some(segments)) => segments,
                Ok(None) => return Ok(()),
                Err(e) => return Err(failure(alloc, name, tape, (self.form, beginning), number, e)),
            };
            let byte = tape.start();
            let origin = MessageOrigin {
                file: name,
                number,
                byte,
            };
            self.look(rt, origin, &segments)?;
        }
        Ok(())
    }

    /// Looks at each message of an input.
    fn look_at(&mut self, rt: &HostRuntime, name: &str) -> Result<(), Failure> {
        let tape = Rc::new(rt.alloc(), Tape::new(rt.alloc(), false))?;
        let mut source = open_source(rt, name, &tape)?;
        let beginning = beginning_of(&mut source);
        match self.form {
            Form::Framed => self.look_in::<Framed>(rt, name, &tape, beginning, &mut source),
            Form::Packed => self.look_in::<Packed>(rt, name, &tape, beginning, &mut source),
        }
    }

    /// Writes how many messages are what, and returns the status.
    fn put_counts(&mut self, alloc: Global) -> Result<u8, Failure> {
        let Counts {
            in_kind,
            out_of_kind,
            unread,
        } = self.counts;
        let line = format!(in alloc;
            "in kind: {in_kind}, not in kind: {out_of_kind}, not checked: {unread}\n"
        )?;
        self.put(alloc, line.as_str())?;
        Ok(self.counts.status())
    }
}

/// Returns the failure of a read of the message of a number.
fn failure(
    alloc: Global,
    name: &str,
    tape: &Tape,
    form: (Form, Beginning),
    number: u64,
    e: Error,
) -> Failure {
    let fault = match e.kind {
        ErrorKind::OutOfMemory => return Failure::Memory,
        ErrorKind::Device => Fault::Source,
        kind => Fault::Framing(kind),
    };
    if let (Fault::Source, Some(why)) = (fault, tape.take_fault()) {
        return Failure::unread(alloc, name, number, tape.start(), why);
    }
    match hint(form.0, form.1, number, fault) {
        Some(why) => Failure::about(alloc, name, &why),
        None => Failure::stream(alloc, name, number, tape.start(), fault),
    }
}

/// `hagzimot check --messages`: whether the lists of messages are in kind under a schema.
pub fn check_messages(
    rt: &HostRuntime,
    matches: &ArgMatches<'_>,
    schema: &str,
) -> Result<u8, Failure> {
    let alloc = rt.alloc();
    let names = words::inputs(alloc, matches)?;
    if words::text(matches, schema) == "-" && names.iter().any(|name| name.as_str() == "-") {
        let why = "standard input can't hold both the schema and messages (name a file of either)";
        return Err(Failure::words(alloc, "-", &why));
    }
    let rooted = words::rooted(rt, matches, schema)?;
    let kept = OutFile::standard(rt)?;
    let out = kept.sink(alloc)?;
    let mut looking = Looking {
        root: rooted.root(),
        limits: Limits {
            words: words::limit_of_words(matches),
            nesting: words::nesting(matches),
        },
        form: words::form(matches, "in"),
        kept,
        out,
        counts: Counts {
            in_kind: 0,
            out_of_kind: 0,
            unread: 0,
        },
    };
    let mut end = Ok(());
    for name in names.iter() {
        end = looking.look_at(rt, name.as_str());
        if end.is_err() {
            break;
        }
    }
    let status = match end {
        Ok(()) => looking.put_counts(alloc),
        Err(why) => Err(why),
    };
    let flushed = looking.out.flush();
    let status = status?;
    if flushed.is_err() {
        return Err(looking.kept.failure(alloc));
    }
    Ok(status)
}
