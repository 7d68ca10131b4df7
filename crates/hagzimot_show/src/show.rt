//! Printing of the messages of a stream.
ghost use Rattle.std.specs.Prelude.{◌≡◌, ℕ, ◌<◌, ◌≤◌, true, false, [], ◌∷◌, ◌++◌, Ok, IfOk, IfErr, OnOk, string_bytes};
ghost use Rattle.std.specs.Io.KnownBytes.{Keeps, Appends};
ghost use Rattle.capnp_model.specs.Messages.{frame};
ghost use Rattle.capnp_units.specs.Segments.{words_in};
ghost use Rattle.capnp_stream.specs.Writing.{AreWritable};
ghost use Rattle.capnp_relay_show.specs.Answers.{shown_by};
ghost use Rattle.hagzimot_show.specs.Shown.{IsNotShown};
ghost use Rattle.hagzimot_show.specs.Sinks.{EndsInLineFeed, GrowsAtEnd, GrowsByLines};

use crate::explain::{MessageOrigin, explained, message_line};
use crate::laid_out::{Manner, laid_out};
use capnp_message::options::ReaderOptions;
use capnp_relay_loop::ends::Fault;
use capnp_relay_loop::pauses::Pause;
use capnp_relay_show::show::{ShowFault, show};
use capnp_stream::forms::MessageForm;
use capnp_stream::kept::MessageBuffer;
use capnp_stream::messages::write_message_segments_to_words;
use capnp_stream_io::traits::{BufRead, Read, Write};
use capnp_units::errors::Error;
use capnp_units::kinds::ErrorKind;
use capnp_units::segments::ReaderSegments;
use capnp_values_queries::structs::StructSchema;
use std::alloc::{AllocError, Global};

/// The messages of a stream that are shown, counted from 1.
#[derive(Clone, Copy, Debug, PartialEq, Eq)]
pub struct Chosen {
    /// The first message that is shown.
    pub first: u64,
    /// The last message that is read.
    pub last: u64,
    /// The messages are only counted.
    pub is_count: bool,
}

/// The number of messages that were shown, or counted, and of those that could not be shown.
#[derive(Clone, Copy, Debug, PartialEq, Eq)]
pub struct ShownCounts {
    pub shown: u64,
    pub not_shown: u64,
}

/// The fault that ends the printing of a stream, and the number of its message, from 1.
#[derive(Clone, Copy, Debug, PartialEq, Eq)]
pub struct StreamFault {
    pub fault: Fault,
    pub number: u64,
}

/// Returns the text of the message of these segments, on one line, as `show` prints it. `Memory`:
/// an allocation was refused.
pub fn text_of_segments<S: ReaderSegments>(
    alloc: Global,
    segments: &S,
    root: StructSchema<'_>,
    options: ReaderOptions,
) -> Result<Vec<u8>, ShowFault>
    requires { AreWritable (S.segments segments.now) }
    ensures text { IfOk result (λ text.
        shown_by root.entry options (frame (words_in (S.segments segments.now))) ≡ Ok text.items) }
    ensures fault { IfErr result
        (IsNotShown root.entry options (words_in (S.segments segments.now))) }
{
    match write_message_segments_to_words(alloc, segments) {
        Ok(bytes) => match show(alloc, &bytes, root, options) {
            Ok(text) => Ok(text),
            Err(fault) => Err(fault),
        },
        Err(_) => Err(ShowFault::Memory),
    }
}

/// The file of the messages of a stream.
pub trait Origin {
    /// Returns the name of the file.
    fn file(&self) -> &str;

    /// Returns the number of bytes of the file before the message that was read last.
    fn byte(&self) -> u64;
}

/// Writes bytes to a sink.
#[tactic(auto, using(crate::proofs::Sinks::sinks))]
fn put<W: Write>(sink: &mut W, bytes: &[u8], fault: Fault) -> Result<(), Fault>
    ensures grows { GrowsAtEnd (W.contents sink.old) (W.contents sink.new) }
    ensures given { OnOk result (Appends (W.contents sink.old) (W.contents sink.new) bytes.now) }
{
    match sink.write_all(bytes) {
        Ok(()) => Ok(()),
        Err(e) if e.kind == ErrorKind::OutOfMemory => Err(Fault::Memory),
        Err(_) => Err(fault),
    }
}

/// Returns a line of the log with its line feed.
fn ended(line: String) -> Result<Vec<u8>, AllocError>
    ensures { IfOk result (λ bytes. bytes.items ≡ string_bytes line ++ 10 ∷ []) }
{
    let mut bytes = line.into_bytes();
    bytes.push(b'\n')?;
    Ok(bytes)
}

/// Returns the fault of a refused read.
fn read_fault(e: Error) -> Fault {
    match e.kind {
        ErrorKind::OutOfMemory => Fault::Memory,
        ErrorKind::Device => Fault::Source,
        kind => Fault::Framing(kind),
    }
}

/// A printer of messages, and its counts.
#[derive(Drop)]
struct Shower<'a, O> {
    alloc: Global,
    manner: Manner<'a>,
    chosen: Chosen,
    counts: ShownCounts,
    origin: &'a O,
}

impl<O: Origin> Shower<'_, O> {
    /// Returns the text of a message.
    fn text_of<S: ReaderSegments>(&self, segments: &S) -> Result<Vec<u8>, ShowFault>
        requires { AreWritable (S.segments segments.now) }
    {
        let manner = self.manner;
        if manner.is_printed() {
            return text_of_segments(self.alloc, segments, manner.root, manner.options());
        }
        let text = laid_out(self.alloc, segments, manner)?;
        Ok(text.into_bytes())
    }

    /// Returns the line of the log about a message that can't be shown, with its line feed.
    fn line_of<S: ReaderSegments>(
        &self,
        segments: &S,
        number: u64,
        fault: ShowFault,
    ) -> Result<Vec<u8>, AllocError>
        ensures { IfOk result (λ line. EndsInLineFeed line.items) }
    {
        let manner = self.manner;
        let origin = MessageOrigin {
            file: self.origin.file(),
            number,
            byte: self.origin.byte(),
        };
        let limits = manner.walk_limits();
        let why = match explained(self.alloc, segments, Some(manner.root), limits)? {
            Some(why) => why,
            None => format!(in self.alloc; "{fault}")?,
        };
        ended(message_line(self.alloc, origin, "not shown", why.as_str())?)
    }

    /// Writes the text of the message of this number, and a line feed. If the message can't be
    /// shown, writes a line to the log instead.
    #[tactic(auto, using(crate::proofs::Sinks::sinks, crate::proofs::Sinks::lines))]
    fn put_text<S: ReaderSegments, W: Write, L: Write>(
        &mut self,
        segments: &S,
        number: u64,
        out: &mut W,
        log: &mut L,
    ) -> Result<(), Fault>
        requires { AreWritable (S.segments segments.now) }
        ensures out { GrowsAtEnd (W.contents out.old) (W.contents out.new) }
        ensures log { GrowsAtEnd (L.contents log.old) (L.contents log.new) }
        ensures chosen { self.new.chosen ≡ self.old.chosen }
        ensures shown { OnOk result (GrowsByLines self.old.counts.shown self.new.counts.shown
            (W.contents out.old) (W.contents out.new)) }
        ensures logged { OnOk result (GrowsByLines self.old.counts.not_shown
            self.new.counts.not_shown (L.contents log.old) (L.contents log.new)) }
    {
        match self.text_of(segments) {
            Ok(text) => {
                put(out, &text, Fault::Out)?;
                put(out, b"\n", Fault::Out)?;
                self.counts.shown = self.counts.shown.saturating_add(1);
                Ok(())
            }
            Err(ShowFault::Memory) => Err(Fault::Memory),
            Err(fault) => {
                let Ok(line) = self.line_of(segments, number, fault) else {
                    return Err(Fault::Memory);
                };
                put(log, &line, Fault::Log)?;
                self.counts.not_shown = self.counts.not_shown.saturating_add(1);
                Ok(())
            }
        }
    }

    /// Reads the message of a number, and writes its text if it is chosen. Returns false if no byte
    /// is left.
    #[tactic(auto, using(crate::proofs::Sinks::sinks, crate::proofs::Sinks::lines))]
    fn show_next<I: MessageForm, R: BufRead, W: Write, L: Write>(
        &mut self,
        buffer: &mut MessageBuffer,
        number: u64,
        source: &mut R,
        out: &mut W,
        log: &mut L,
    ) -> Result<bool, Fault>
        ensures out { GrowsAtEnd (W.contents out.old) (W.contents out.new) }
        ensures log { GrowsAtEnd (L.contents log.old) (L.contents log.new) }
        ensures chosen { self.new.chosen ≡ self.old.chosen }
        ensures count { self.old.chosen.is_count ≡ true → Keeps (W.contents out.old)
            (W.contents out.new) × Keeps (L.contents log.old) (L.contents log.new)
            × (self.new.counts.not_shown ≡ self.old.counts.not_shown) }
        ensures shown { self.old.chosen.is_count ≡ false
            → OnOk result (GrowsByLines self.old.counts.shown self.new.counts.shown
            (W.contents out.old) (W.contents out.new)) }
        ensures logged { self.old.chosen.is_count ≡ false
            → OnOk result (GrowsByLines self.old.counts.not_shown self.new.counts.not_shown
            (L.contents log.old) (L.contents log.new)) }
    {
        let limit = Some(self.manner.limits.words as usize);
        let segments = match buffer.try_read_message::<I, R>(source, limit) {
            Ok(Some(segments)) => segments,
            Ok(None) => return Ok(false),
            Err(e) => return Err(read_fault(e)),
        };
        if number < self.chosen.first {
            return Ok(true);
        }
        if self.chosen.is_count {
            self.counts.shown = self.counts.shown.saturating_add(1);
            return Ok(true);
        }
        self.put_text(&segments, number, out, log)?;
        Ok(true)
    }
}

/// Runs the pause before a read, which writes nothing to a sink.
#[tactic(auto, using(crate::proofs::Sinks::pausing))]
fn pause<R: BufRead, W: Write, L: Write, P: Pause<R, W, L>>(
    source: &R,
    out: &mut W,
    log: &mut L,
) -> Result<(), Fault>
    ensures out { Keeps (W.contents out.old) (W.contents out.new) }
    ensures log { Keeps (L.contents log.old) (L.contents log.new) }
{
    match P::pause(source, out, log) {
        Ok(()) => Ok(()),
        Err(fault) => Err(fault),
    }
}

/// Writes the text of each chosen message of the source with a line feed, or only counts these
/// messages. A message that can't be shown gets a line of the log,
/// `FILE: message N (byte B) not shown: PATH: WHY`. No message after the last chosen one is read.
/// Before each read the pause runs.
///
/// `Framing`: the rest of the source doesn't begin with a message. `Source`, `Out`, `Log`: the
/// device failed, or a sink has no room. `Memory`: an allocation was refused.
#[tactic(auto, using(crate::proofs::Sinks::sinks))]
pub fn show_all<I: MessageForm, R: BufRead, W: Write, L: Write, P: Pause<R, W, L>, O: Origin>(
    alloc: Global,
    source: &mut R,
    out: &mut W,
    log: &mut L,
    manner: Manner<'_>,
    chosen: Chosen,
    origin: &O,
) -> Result<ShownCounts, StreamFault>
    ensures out { GrowsAtEnd (W.contents out.old) (W.contents out.new) }
    ensures log { GrowsAtEnd (L.contents log.old) (L.contents log.new) }
    ensures count_out { chosen.is_count ≡ true → Keeps (W.contents out.old) (W.contents out.new) }
    ensures count_log { chosen.is_count ≡ true → Keeps (L.contents log.old) (L.contents log.new) }
    ensures counts { chosen.is_count ≡ true → IfOk result (λ n. n.not_shown ≡ 0) }
    ensures shown { chosen.is_count ≡ false → IfOk result (λ n. GrowsByLines 0 n.shown
        (W.contents out.old) (W.contents out.new)) }
    ensures logged { chosen.is_count ≡ false → IfOk result (λ n. GrowsByLines 0 n.not_shown
        (L.contents log.old) (L.contents log.new)) }
    ensures number { IfErr result (λ e. (0 < e.number) × (e.number ≤ chosen.last)) }
{
    let mut buffer = MessageBuffer::new(alloc);
    let counts = ShownCounts {
        shown: 0,
        not_shown: 0,
    };
    let mut shower = Shower {
        alloc,
        manner,
        chosen,
        counts,
        origin,
    };
    for number in 1..=chosen.last {
        if let Err(fault) = pause::<R, W, L, P>(source, out, log) {
            return Err(StreamFault { fault, number });
        }
        match shower.show_next::<I, R, W, L>(&mut buffer, number, source, out, log) {
            Ok(true) => {}
            Ok(false) => return Ok(shower.counts),
            Err(fault) => return Err(StreamFault { fault, number }),
        }
    }
    Ok(shower.counts)
}
