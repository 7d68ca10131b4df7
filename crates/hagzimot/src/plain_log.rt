//! The log that writes each line as it is.
ghost use Rattle.std.specs.Prelude.{◌≡◌};
ghost use Rattle.std.specs.Io.Buffered.{writer_buffer};
ghost use Rattle.capnp_stream_io.specs.Adapters.{sink_inner};
ghost use Rattle.capnp_stream_io.specs.Counting.{Rose};
ghost use Rattle.capnp_units.specs.declared.kinds.ErrorKind.{ErrorKind};

use crate::faults::Failure;
use crate::files::{Input, OutSink, Output, open_sink};
use crate::log_words::{LogWords, Watch};
use crate::run_log::{LogEnd, RunLog};
use crate::tape::Tape;
use capnp_relay_loop::ends::Fault;
use capnp_relay_program::ahead::BoundedForm;
use capnp_relay_program::sinks::Flush;
use capnp_relay_program::sources::flush_before_wait;
use capnp_stream_io::adapters::Source;
use capnp_stream_io::traits::Write;
use capnp_units::errors::Error;
use capnp_units::kinds::ErrorKind;
use hagzimot_show::explain::{MessageOrigin, message_line};
use std::alloc::Global;
use std::rc::Rc;

/// A log on standard error that writes each line as it is, and does nothing else.
// Measured: what `Log` looks at for each line costs a small message a tenth more.
#[derive(Drop)]
pub struct PlainLog {
    alloc: Global,
    inner: OutSink,
    /// The tracker of the input that is read.
    tape: Rc<Tape>,
    /// The name of the input.
    name: String,
    /// The number of messages of the input that have a line.
    number: u64,
    watch: Watch,
    allows_refused_calls: bool,
    failures: u64,
}

impl PlainLog {
    /// Counts a failure.
    #[inline(never)]
    fn failure(&mut self) -> Error
        ensures kind { result.kind ≡ ErrorKind.Device }
        ensures count { Rose self.old.failures self.new.failures }
    {
        self.failures = self.failures.saturating_add(1);
        Error::from(ErrorKind::Device)
    }

    /// Writes a line, and then the reason for which its message has no answer, if it is noted.
    #[inline(always)]
    fn put(&mut self, line: &[u8]) -> Result<(), Error>
        ensures { self.new.failures ≡ self.old.failures }
    {
        self.number = self.number.wrapping_add(1);
        self.inner.write_all(line)?;
        match self.watch.take_why() {
            Some(why) => self.put_why(why.as_str()),
            None => Ok(()),
        }
    }

    /// Writes the reason for which the last message has no answer.
    #[inline(never)]
    fn put_why(&mut self, why: &str) -> Result<(), Error>
        ensures { self.new.failures ≡ self.old.failures }
    {
        let origin = MessageOrigin {
            file: self.name.as_str(),
            number: self.number,
            byte: self.tape.start(),
        };
        let Ok(line) = message_line(self.alloc, origin, "refused", why) else {
            return Ok(());
        };
        self.inner.write_all(line.as_bytes())?;
        self.inner.write_all(b"\n")
    }
}

impl Write for PlainLog {
    ghost failures = { λ l. l.failures };

    #[inline(always)]
    fn write_all(&mut self, buf: &[u8]) -> Result<(), Error> {
        match self.put(buf) {
            Ok(()) => Ok(()),
            Err(_) => Err(self.failure()),
        }
    }

    fn failures(&self) -> u64 {
        self.failures
    }
}

impl Flush for PlainLog {
    ghost held = { λ l. writer_buffer (sink_inner l.inner) };

    fn flush(&mut self) -> Result<(), Error> {
        match self.inner.flush() {
            Ok(()) => Ok(()),
            Err(_) => Err(self.failure()),
        }
    }
}

impl RunLog for PlainLog {
    fn open(rt: &HostRuntime, words: LogWords<'_>) -> Result<PlainLog, Failure> {
        let alloc = rt.alloc();
        let LogWords {
            lines: _lines,
            on_refused: _on_refused,
            refused: _name,
            refused_out: _refused_out,
            stats: _stats,
            allows_refused_calls,
            watch,
            floats: _floats,
        } = words;
        let watch = match watch {
            Some(watch) => watch,
            None => Watch::new(alloc)?,
        };
        Ok(PlainLog {
            alloc,
            inner: open_sink(alloc, Output::Error(rt.stderr()))?,
            tape: Rc::new(alloc, Tape::new(alloc, false))?,
            name: String::new(alloc),
            number: 0,
            watch,
            allows_refused_calls,
            failures: 0,
        })
    }

    fn begin(&mut self, name: &str) -> Result<Rc<Tape>, Failure> {
        self.name = String::from_str(self.alloc, name)?;
        self.number = 0;
        self.tape = Rc::new(self.alloc, Tape::new(self.alloc, false))?;
        Ok(Rc::clone(&self.tape)?)
    }

    #[inline(always)]
    fn turn_and_flush<F: BoundedForm>(
        &mut self,
        source: &Source<Input>,
        out: &mut OutSink,
    ) -> Result<(), Fault> {
        self.tape.turn(source.buffered());
        flush_before_wait::<F, Source<Input>, OutSink, PlainLog>(source, out, self)
    }

    fn finish(&mut self) -> bool {
        // If the log fails now, the error can't be reported.
        let _flushed = self.inner.flush();
        true
    }

    fn end(&self) -> Option<LogEnd> {
        None
    }

    fn has_refusals(&self) -> bool {
        !self.allows_refused_calls && self.watch.refused_calls.get() > 0
    }

    fn sum_up(&mut self) {}
}
