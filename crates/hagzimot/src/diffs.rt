//! `hagzimot diff`.

use crate::arguments::{file, form, import_path, limit_of_words, nesting, root, schema};
use crate::faults::Failure;
use crate::files::{Input, OutFile, OutSink, open_source};
use crate::options::{Options, Taken};
use crate::tape::Tape;
use crate::words;
use capnp_relay_loop::ends::Fault;
use capnp_relay_program::sinks::Flush;
use capnp_relay_streams::options::Form;
use capnp_stream::forms::{Framed, MessageForm};
use capnp_stream::kept::MessageBuffer;
use capnp_stream_io::adapters::Source;
use capnp_stream_io::traits::Write;
use capnp_stream_packed::form::Packed;
use capnp_units::errors::Error;
use capnp_units::kinds::ErrorKind;
use clap::ArgMatches;
use hagzimot_commands::canonical::Canonical;
use hagzimot_diff::messages::{Outcome, compare};
use hagzimot_schemas::schemas::RootedSchema;
use hagzimot_show::laid_out::Manner;
use hagzimot_show::layout::{Layout, Spelling};
use std::alloc::{AllocError, Global};
use std::fmt::Display;
use std::rc::Rc;

/// The status if the inputs differ.
const DIFFER: u8 = 1;

/// The options of `diff`.
pub fn options<'a, 'w>(alloc: Global, taken: Taken<'w>) -> Result<Options<'a, 'w>, AllocError> {
    Options::new(
        alloc,
        taken,
        "diff",
        "Print the differences between two streams, message by message",
    )
    .arg(schema(alloc).required(false))?
    .arg(import_path(alloc))?
    .arg(root(alloc))?
    .arg(form(alloc, "in", "Read both inputs in this form"))?
    .arg(limit_of_words(alloc))?
    .arg(nesting(alloc))?
    .arg(file(
        alloc,
        "left",
        "LEFT",
        "Read the messages of this file, or of standard input (-)",
    ))?
    .arg(file(
        alloc,
        "right",
        "RIGHT",
        "Compare them with the messages of this file",
    ))
}

/// An input, and the place that is read.
#[derive(Drop)]
struct Side<'a> {
    name: &'a str,
    tape: Rc<Tape>,
    source: Source<Input>,
    buffer: MessageBuffer,
}

impl<'a> Side<'a> {
    /// Opens an input.
    fn open(rt: &HostRuntime, name: &'a str) -> Result<Side<'a>, Failure> {
        let alloc = rt.alloc();
        let tape = Rc::new(alloc, Tape::new(alloc, false))?;
        let source = open_source(rt, name, &tape)?;
        Ok(Side {
            name,
            tape,
            source,
            buffer: MessageBuffer::new(alloc),
        })
    }
}

/// Returns the failure of a read of the message of a number.
fn failure(alloc: Global, name: &str, tape: &Tape, number: u64, e: Error) -> Failure {
    let fault = match e.kind {
        ErrorKind::OutOfMemory => return Failure::Memory,
        ErrorKind::Device => Fault::Source,
        kind => Fault::Framing(kind),
    };
    match (fault, tape.take_fault()) {
        (Fault::Source, Some(why)) => Failure::unread(alloc, name, number, tape.start(), why),
        (fault, _) => Failure::stream(alloc, name, number, tape.start(), fault),
    }
}

/// The output of the differences.
#[derive(Drop)]
struct Lines {
    kept: Rc<OutFile>,
    out: OutSink,
    differ: bool,
}

impl Lines {
    /// Writes a line about the message of a number.
    fn put<T: Display>(&mut self, alloc: Global, number: u64, what: &T) -> Result<(), Failure> {
        self.differ = true;
        let line = format!(in alloc; "message {number}: {what}\n")?;
        match self.out.write_all(line.as_bytes()) {
            Ok(()) => Ok(()),
            Err(_) => Err(self.kept.failure(alloc)),
        }
    }

    /// Writes that only one input has the message of a number.
    fn put_single(&mut self, alloc: Global, number: u64, name: &str) -> Result<(), Failure> {
        let what = format!(in alloc; "only in {name}")?;
        self.put(alloc, number, &what)
    }

    /// Writes that a message can't be read.
    fn put_unread(&mut self, alloc: Global, number: u64, name: &str) -> Result<(), Failure> {
        let what = format!(in alloc; "can't be read in {name} (hagzimot show says why)")?;
        self.put(alloc, number, &what)
    }
}

/// The way in which messages are compared.
#[derive(Clone, Copy)]
struct Comparing<'a> {
    limits: Canonical,
    manner: Option<Manner<'a>>,
}

impl Comparing<'_> {
    /// Compares the next messages of both inputs, and returns whether both have one.
    fn compare_next<I: MessageForm>(
        self,
        rt: &HostRuntime,
        left: &mut Side<'_>,
        right: &mut Side<'_>,
        number: u64,
        lines: &mut Lines,
    ) -> Result<bool, Failure> {
        let alloc = rt.alloc();
        let limit = Some(self.limits.words as usize);
        left.tape.turn(left.source.buffered());
        right.tape.turn(right.source.buffered());
        let x = match left
            .buffer
            .try_read_message::<I, _>(&mut left.source, limit)
        {
            Ok(message) => message,
            Err(e) => return Err(failure(alloc, left.name, &left.tape, number, e)),
        };
        let y = match right
            .buffer
            .try_read_message::<I, _>(&mut right.source, limit)
        {
            Ok(message) => message,
            Err(e) => return Err(failure(alloc, right.name, &right.tape, number, e)),
        };
        let (x, y) = match (x, y) {
            (Some(x), Some(y)) => (x, y),
            (None, None) => return Ok(false),
            (Some(_), None) => {
                lines.put_single(alloc, number, left.name)?;
                return Ok(false);
            }
            (None, Some(_)) => {
                lines.put_single(alloc, number, right.name)?;
                return Ok(false);
            }
        };
        match compare(alloc, &x, &y, self.limits, self.manner) {
            Ok(Outcome::Same) => {}
            Ok(Outcome::Records(found)) => {
                for difference in found.iter() {
                    lines.put(alloc, number, difference)?;
                }
            }
            Ok(Outcome::Bytes) => {
                let what = match self.manner {
                    Some(_) => "the canonical bytes differ, but not in what `show --json` prints",
                    None => "the canonical bytes differ",
                };
                lines.put(alloc, number, &what)?;
            }
            Ok(Outcome::LeftUnread) => lines.put_unread(alloc, number, left.name)?,
            Ok(Outcome::RightUnread) => lines.put_unread(alloc, number, right.name)?,
            Err(_) => return Err(Failure::Memory),
        }
        Ok(true)
    }

    /// Compares both inputs to the end of the shorter.
    fn compare_all<I: MessageForm>(
        self,
        rt: &HostRuntime,
        left: &mut Side<'_>,
        right: &mut Side<'_>,
        lines: &mut Lines,
    ) -> Result<(), Failure> {
        for number in 1..u64::MAX {
            if !self.compare_next::<I>(rt, left, right, number, lines)? {
                return Ok(());
            }
        }
        Ok(())
    }
}

/// Returns how the options compare messages.
fn comparing_of<'a>(matches: &ArgMatches<'_>, schema: &'a Option<RootedSchema>) -> Comparing<'a> {
    let limits = Canonical {
        words: words::limit_of_words(matches),
        nesting: words::nesting(matches),
    };
    let manner = match schema {
        Some(schema) => Some(Manner {
            root: schema.root(),
            limits,
            layout: Layout::Json,
            spelling: Spelling::Hagzimot,
            floats: schema.floats(),
        }),
        None => None,
    };
    Comparing { limits, manner }
}

/// Refuses words that do not go together.
fn check_words(alloc: Global, matches: &ArgMatches<'_>) -> Result<(), Failure> {
    if words::root_word(matches).is_some() && matches.get_str("schema").is_none() {
        return Err(Failure::words(alloc, "--root", &"it needs --schema"));
    }
    if words::text(matches, "left") == "-" && words::text(matches, "right") == "-" {
        let why = "both inputs are standard input (name a file)";
        return Err(Failure::words(alloc, "-", &why));
    }
    Ok(())
}

/// `hagzimot diff`.
pub fn diff(rt: &HostRuntime, matches: &ArgMatches<'_>) -> Result<u8, Failure> {
    let alloc = rt.alloc();
    check_words(alloc, matches)?;
    let schema = match matches.get_str("schema") {
        Some(_) => Some(words::rooted(rt, matches, "schema")?),
        None => None,
    };
    let comparing = comparing_of(matches, &schema);
    let mut left = Side::open(rt, words::text(matches, "left"))?;
    let mut right = Side::open(rt, words::text(matches, "right"))?;
    let kept = OutFile::standard(rt)?;
    let out = kept.sink(alloc)?;
    let mut lines = Lines {
        kept,
        out,
        differ: false,
    };
    let end = match words::form(matches, "in") {
        Form::Framed => comparing.compare_all::<Framed>(rt, &mut left, &mut right, &mut lines),
        Form::Packed => comparing.compare_all::<Packed>(rt, &mut left, &mut right, &mut lines),
    };
    let flushed = lines.out.flush();
    end?;
    if flushed.is_err() {
        return Err(lines.kept.failure(alloc));
    }
    Ok(if lines.differ { DIFFER } else { 0 })
}
