//! Messages of an input that a condition picks.
ghost use Rattle.capnp_stream.specs.Writing.{AreWritable};

use crate::faults::Failure;
use crate::files::{Input, OutFile, OutSink, open_source};
use crate::hints::{Beginning, beginning_of, hint};
use crate::log::{Lines, Log, Refusals};
use crate::run_log::RunLog;
use crate::takers::{Taker, Untaken};
use crate::tape::Tape;
use capnp_relay_loop::ends::Fault;
use capnp_relay_program::ahead::BoundedForm;
use capnp_relay_program::sinks::Flush;
use capnp_relay_streams::options::Form;
use capnp_stream::forms::Framed;
use capnp_stream::kept::MessageBuffer;
use capnp_stream_io::adapters::Source;
use capnp_stream_io::traits::Write;
use capnp_stream_packed::form::Packed;
use capnp_units::errors::Error;
use capnp_units::kinds::ErrorKind;
use capnp_units::segments::ReaderSegments;
use capnp_values_queries::structs::StructSchema;
use hagzimot_commands::canonical::Canonical;
use hagzimot_conditions::conditions::Conditions;
use hagzimot_conditions::messages::{Sight, keeps};
use hagzimot_faults::locate::WalkLimits;
use hagzimot_show::explain::{MessageOrigin, explained, message_line};
use std::alloc::{AllocError, Global};
use std::rc::Rc;

/// A condition, with the limits for following messages.
#[derive(Clone, Copy)]
pub struct Choice<'a> {
    pub conditions: &'a Conditions,
    pub sight: Sight<'a>,
}

/// Which messages are taken.
#[derive(Clone, Copy)]
pub struct Picking<'a> {
    /// The condition that picks them; without one all are taken.
    pub choice: Option<Choice<'a>>,
    /// The schema that names the path of a fault, if there is one.
    pub root: Option<StructSchema<'a>>,
    pub limits: Canonical,
    /// The first that is looked at, counted from 1.
    pub first: u64,
    /// The last that is read.
    pub last: u64,
    /// The form of the input.
    pub form: Form,
    /// The words about a message that can't be read.
    pub unread: &'static str,
}

/// Numbers of messages: those that were looked at, those of them that were taken, and those that
/// could not be read.
#[derive(Clone, Copy, Debug, PartialEq, Eq)]
pub struct PickCounts {
    pub seen: u64,
    pub taken: u64,
    pub unread: u64,
}

impl PickCounts {
    /// Nothing is counted yet.
    pub fn none() -> PickCounts {
        PickCounts {
            seen: 0,
            taken: 0,
            unread: 0,
        }
    }

    /// Adds the counts of another input.
    pub fn add(&mut self, other: PickCounts) {
        self.seen = self.seen.saturating_add(other.seen);
        self.taken = self.taken.saturating_add(other.taken);
        self.unread = self.unread.saturating_add(other.unread);
    }
}

/// Why an input isn't read to its end, and at which message, counted from 1.
#[derive(Clone, Copy, Debug)]
struct PickFault {
    fault: Fault,
    number: u64,
}

/// Returns the fault of a refused read.
fn read_fault(e: Error) -> Fault {
    match e.kind {
        ErrorKind::OutOfMemory => Fault::Memory,
        ErrorKind::Device => Fault::Source,
        kind => Fault::Framing(kind),
    }
}

/// Picks messages of an input, and counts them.
#[derive(Drop)]
struct Picker<'a, K> {
    alloc: Global,
    picking: Picking<'a>,
    taker: &'a K,
    /// The name of the input.
    name: &'a str,
    tape: Rc<Tape>,
    counts: PickCounts,
}

impl<K: Taker> Picker<'_, K> {
    /// Returns the line about a message that can't be read, with its line feed.
    fn line_of<S: ReaderSegments>(&self, segments: &S, number: u64) -> Result<Vec<u8>, AllocError> {
        let (alloc, picking) = (self.alloc, self.picking);
        let limits = WalkLimits {
            words: picking.limits.words,
            nesting: picking.limits.nesting,
        };
        let origin = MessageOrigin {
            file: self.name,
            number,
            byte: self.tape.start(),
        };
        let why = match explained(alloc, segments, picking.root, limits)? {
            Some(why) => why,
            None => String::from_str(alloc, "a field that is looked at can't be read")?,
        };
        let mut line = message_line(alloc, origin, picking.unread, why.as_str())?.into_bytes();
        line.push(b'\n')?;
        Ok(line)
    }

    /// Takes a message if the condition picks it, and returns whether it does.
    fn pick<S: ReaderSegments>(
        &self,
        segments: &S,
        number: u64,
        out: &mut OutSink,
    ) -> Result<bool, Untaken>
        requires { AreWritable (S.segments segments.now) }
    {
        if let Some(Choice { conditions, sight }) = self.picking.choice {
            match keeps(conditions, sight, segments) {
                Ok(true) => {}
                Ok(false) => return Ok(false),
                Err(_) => return Err(Untaken::Unread),
            }
        }
        self.taker.take(self.alloc, segments, number, out)?;
        Ok(true)
    }

    /// Picks a message of a number or not, and counts it.
    fn count<S: ReaderSegments>(
        &mut self,
        segments: &S,
        number: u64,
        out: &mut OutSink,
        log: &mut Log,
    ) -> Result<(), Fault>
        requires { AreWritable (S.segments segments.now) }
    {
        self.counts.seen = self.counts.seen.saturating_add(1);
        match self.pick(segments, number, out) {
            Ok(true) => self.counts.taken = self.counts.taken.saturating_add(1),
            Ok(false) => {}
            Err(Untaken::Fault(fault)) => return Err(fault),
            Err(Untaken::Unread) => {
                self.counts.unread = self.counts.unread.saturating_add(1);
                let Ok(line) = self.line_of(segments, number) else {
                    return Err(Fault::Memory);
                };
                if log.write_all(&line).is_err() {
                    return Err(Fault::Log);
                }
            }
        }
        Ok(())
    }

    /// Reads the message of a number, and picks it or not; false if no byte is left.
    fn next<I: BoundedForm>(
        &mut self,
        buffer: &mut MessageBuffer,
        number: u64,
        source: &mut Source<Input>,
        out: &mut OutSink,
        log: &mut Log,
    ) -> Result<bool, Fault> {
        log.turn_and_flush::<I>(source, out)?;
        let limit = Some(self.picking.limits.words as usize);
        let segments = match buffer.try_read_message::<I, Source<Input>>(source, limit) {
            Ok(Some(segments)) => segments,
            Ok(None) => return Ok(false),
            Err(e) => return Err(read_fault(e)),
        };
        if number >= self.picking.first {
            self.count(&segments, number, out, log)?;
        }
        Ok(true)
    }

    /// Picks messages up to the last that is asked for.
    fn run<I: BoundedForm>(
        &mut self,
        source: &mut Source<Input>,
        out: &mut OutSink,
        log: &mut Log,
    ) -> Result<(), PickFault> {
        let mut buffer = MessageBuffer::new(self.alloc);
        for number in 1..=self.picking.last {
            match self.next::<I>(&mut buffer, number, source, out, log) {
                Ok(true) => {}
                Ok(false) => return Ok(()),
                Err(fault) => return Err(PickFault { fault, number }),
            }
        }
        Ok(())
    }

    /// Returns the failure of the input, or of the output, at a message.
    fn failure(&self, kept: &OutFile, beginning: Beginning, end: PickFault) -> Failure {
        let PickFault { fault, number } = end;
        let (alloc, name, start) = (self.alloc, self.name, self.tape.start());
        match (fault, self.tape.take_fault()) {
            (Fault::Out, _) => return kept.failure(alloc),
            (Fault::Source, Some(why)) => return Failure::unread(alloc, name, number, start, why),
            _ => {}
        }
        match hint(self.picking.form, beginning, number, fault) {
            Some(why) => Failure::about(alloc, name, &why),
            None => Failure::stream(alloc, name, number, start, fault),
        }
    }
}

/// Picks messages of one input, and flushes the sinks.
fn pick_one<K: Taker>(
    rt: &HostRuntime,
    picking: Picking<'_>,
    taker: &K,
    name: &str,
    kept: &OutFile,
    out: &mut OutSink,
    log: &mut Log,
) -> Result<PickCounts, Failure> {
    let alloc = rt.alloc();
    let tape = log.begin_input(name)?;
    let mut source = open_source(rt, name, &tape)?;
    let beginning = beginning_of(&mut source);
    let mut picker = Picker {
        alloc,
        picking,
        taker,
        name,
        tape,
        counts: PickCounts::none(),
    };
    let end = match picking.form {
        Form::Framed => picker.run::<Framed>(&mut source, out, log),
        Form::Packed => picker.run::<Packed>(&mut source, out, log),
    };
    let flushed = out.flush();
    // A log that fails now has nowhere to say so.
    let _flushed_log = log.flush();
    match (end, flushed) {
        (Err(end), _) => Err(picker.failure(kept, beginning, end)),
        (Ok(()), Err(_)) => Err(kept.failure(alloc)),
        (Ok(()), Ok(())) => Ok(picker.counts),
    }
}

/// Picks messages of the inputs of these names.
pub fn pick_all<K: Taker>(
    rt: &HostRuntime,
    picking: Picking<'_>,
    taker: &K,
    names: &[String],
    kept: &OutFile,
    out: &mut OutSink,
) -> Result<PickCounts, Failure> {
    let mut log = Log::new(rt, Lines::All, Refusals::unseen())?;
    let mut counts = PickCounts::none();
    for name in names {
        counts.add(pick_one::<K>(rt, picking, taker, name.as_str(), kept, out, &mut log)?);
    }
    Ok(counts)
}
