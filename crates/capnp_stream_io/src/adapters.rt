//! The streams of a program, over std's readers and writers.
ghost use Rattle.std.specs.Prelude.{◌≡◌, ◌⊎◌, [], length, IfOk, IfErr, OnOk};
ghost use Rattle.std.specs.Io.KnownBytes.{Keeps, Consumes, prepend_known};
ghost use Rattle.std.specs.Io.Buffered.{writer_inner, writer_buffer, writer_contents};
ghost use Rattle.capnp_units.specs.declared.kinds.ErrorKind.{ErrorKind};
ghost use Rattle.capnp_stream_io.specs.Adapters.{source_inner, source_window, source_remaining, source_failures, sink_inner, sink_failures};
ghost use Rattle.capnp_stream_io.specs.Counting.{Counts};
ghost use Rattle.capnp_stream_io.specs.Streams.{ConsumesFewer, EndsBefore};

use crate::devices::{flush_retrying, read_retrying, refill, write_whole};
use crate::traits::{BufRead, Read, Windowed, Write};
use capnp_units::errors::{Error, Result};
use capnp_units::kinds::ErrorKind;
use std::alloc::Global;
use std::io;
use std::io::{BufRead as _, BufReader, BufWriter};

/// The number of bytes that are requested from a reader at once.
pub const INPUT_BUFFER_LEN: usize = 64 * 1024;

/// The number of bytes that a buffered sink holds back.
pub const OUTPUT_BUFFER_LEN: usize = 64 * 1024;

/// A reader with a buffer of 64 KiB, which shows the bytes that it holds without a wait, and counts
/// the failures of its device.
///
/// A call that a signal interrupts is made again. After a failure the bytes that were read before
/// are still there, and the next call asks the reader again.
#[derive(Drop)]
pub struct Source<S> {
    inner: BufReader<S>,
    failures: u64,
}

impl<S: io::Read> Source<S> {
    /// Makes the source of a reader. Nothing is read yet. `OutOfMemory`: the memory for the buffer
    /// was refused.
    pub fn new(alloc: Global, inner: S) -> Result<Source<S>>
    where
        S: Drop,
        ensures inner { IfOk result (λ s. source_inner s ≡ inner) }
        ensures empty { IfOk result (λ s. source_window s ≡ []) }
        ensures remaining { IfOk result
            (λ s. source_remaining S.remaining s ≡ prepend_known [] (S.remaining inner)) }
        ensures failures { IfOk result (λ s. source_failures s ≡ 0) }
        ensures err { IfErr result (λ e. e.kind ≡ ErrorKind.OutOfMemory) }
    {
        match BufReader::with_capacity(alloc, INPUT_BUFFER_LEN, inner) {
            Ok(inner) => Ok(Source { inner, failures: 0 }),
            Err(_) => Err(Error::from(ErrorKind::OutOfMemory)),
        }
    }

    /// Returns the number of bytes that were read and are not yet taken. If there are none, the
    /// next read asks the reader, and may wait.
    pub fn buffered(&self) -> usize
        ensures { result ≡ length (source_window self.now) }
    {
        self.inner.buffer().len()
    }
}

/// Fills the whole of `buf` by reads, or is refused at the end of input, which it then has reached.
#[inline(never)]
fn read_whole<S: io::Read>(source: &mut Source<S>, buf: &mut [u8]) -> Result<()>
    ensures ok { OnOk result (Consumes (source_remaining S.remaining source.old)
        (source_remaining S.remaining source.new) buf.new) }
    ensures part { let old = source_remaining S.remaining source.old in
        let new = source_remaining S.remaining source.new in
        IfErr result (λ e. ((e.kind ≡ ErrorKind.Device) × ConsumesFewer old new (length buf.old))
        ⊎ ((e.kind ≡ ErrorKind.FailedToFillTheWholeBuffer)
        × EndsBefore old new (length buf.old))) }
    ensures count { Counts result (source_failures source.old) (source_failures source.new) }
{
    let mut at = 0;
    while at < buf.len() {
        let n = source.read(&mut buf[at..])?;
        if n == 0 {
            return Err(Error::from(ErrorKind::FailedToFillTheWholeBuffer));
        }
        at += n;
    }
    Ok(())
}

impl<S: io::Read> Read for Source<S> {
    ghost remaining = { source_remaining S.remaining };

    ghost failures = { source_failures };

    ghost refuses = { λ k. k ≡ ErrorKind.Device };

    fn read(&mut self, buf: &mut [u8]) -> Result<usize> {
        match read_retrying(&mut self.inner, buf) {
            Ok(n) => Ok(n),
            Err(e) => {
                self.failures = self.failures.saturating_add(1);
                Err(e)
            }
        }
    }

    #[inline(always)]
    fn read_exact(&mut self, buf: &mut [u8]) -> Result<()> {
        let len = buf.len();
        if len == 0 {
            return Ok(());
        }
        let window = self.inner.buffer();
        if len > window.len() {
            return read_whole(self, buf);
        }
        buf.copy_from_slice(&window[..len]);
        self.inner.consume(len);
        Ok(())
    }

    fn failures(&self) -> u64 {
        self.failures
    }
}

impl<S: io::Read> BufRead for Source<S> {
    ghost shown = { λ s. length (source_window s) };

    fn fill_buf(&mut self) -> Result<&[u8]> {
        match refill(&mut self.inner) {
            Ok(()) => Ok(self.inner.buffer()),
            Err(e) => {
                self.failures = self.failures.saturating_add(1);
                Err(e)
            }
        }
    }

    fn consume(&mut self, amount: usize) {
        self.inner.consume(amount);
    }

    ghost device_alone = { λ _ e. e };
}

impl<S: io::Read> Windowed for Source<S> {
    ghost window = { source_window };

    fn window(&self) -> &[u8] {
        self.inner.buffer()
    }
}

/// A writer, which counts the failures of its device.
#[derive(Drop)]
pub struct Sink<S> {
    inner: S,
    failures: u64,
}

impl<S: io::Write> Sink<S> {
    pub fn new(inner: S) -> Sink<S>
        ensures inner { sink_inner result ≡ inner }
        ensures failures { sink_failures result ≡ 0 }
    {
        Sink { inner, failures: 0 }
    }
}

/// A sink that holds bytes back until they are many, or `flush` is called, and passes them on in
/// order.
///
/// A refused write means that the writer below failed at these bytes or at earlier ones that were
/// held back. The bytes that the writer didn't take are still held, in order, and come first at the
/// next write. So a count of written bytes is of the bytes that the sink was given, and only a
/// `flush` that succeeds says that the writer has them all.
impl<S: io::Write + Drop> Sink<BufWriter<S>> {
    pub fn buffered(alloc: Global, inner: S) -> Result<Sink<BufWriter<S>>>
        ensures inner { IfOk result (λ s. writer_inner (sink_inner s) ≡ inner) }
        ensures empty { IfOk result (λ s. writer_buffer (sink_inner s) ≡ []) }
        ensures failures { IfOk result (λ s. sink_failures s ≡ 0) }
        ensures err { IfErr result (λ e. e.kind ≡ ErrorKind.OutOfMemory) }
    {
        match BufWriter::with_capacity(alloc, OUTPUT_BUFFER_LEN, inner) {
            Ok(writer) => Ok(Sink::new(writer)),
            Err(_) => Err(Error::from(ErrorKind::OutOfMemory)),
        }
    }

    /// Passes on the bytes that are held back.
    pub fn flush(&mut self) -> Result<()>
        ensures kept { Keeps (writer_contents S.contents (sink_inner self.old))
            (writer_contents S.contents (sink_inner self.new)) }
        ensures empty { OnOk result (writer_buffer (sink_inner self.new) ≡ []) }
        ensures refusal { IfErr result (λ e. e.kind ≡ ErrorKind.Device) }
        ensures count { Counts result (sink_failures self.old) (sink_failures self.new) }
    {
        match flush_retrying(&mut self.inner) {
            Ok(()) => Ok(()),
            Err(e) => {
                self.failures = self.failures.saturating_add(1);
                Err(e)
            }
        }
    }
}

impl<S: io::Write> Write for Sink<S> {
    ghost contents = { λ s. S.contents s.inner };

    ghost failures = { λ s. s.failures };

    #[inline(always)]
    fn write_all(&mut self, buf: &[u8]) -> Result<()> {
        match write_whole(&mut self.inner, buf) {
            Ok(()) => Ok(()),
            Err(e) => {
                self.failures = self.failures.saturating_add(1);
                Err(e)
            }
        }
    }

    fn failures(&self) -> u64 {
        self.failures
    }
}
