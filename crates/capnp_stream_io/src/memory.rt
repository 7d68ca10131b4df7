//! Sources and sinks in memory.
ghost use Rattle.std.specs.Prelude.{◌≡◌, ◌≢◌, ◌++◌, length, drop, take, min, None, Some, Ok, IfErr, OnOk, OnErr};
ghost use Rattle.std.specs.Io.KnownBytes.{Keeps, Appends};
ghost use Rattle.capnp_units.specs.declared.kinds.ErrorKind.{ErrorKind};
ghost use Rattle.capnp_stream_io.specs.Counting.{Counts};
ghost use Rattle.capnp_stream_io.specs.Streams.{AppendsPart, RoomFalls, IsWriteRefusal};

use crate::slice_writer::SliceWriter;
use crate::traits::{BufRead, Read, Windowed, Write};
use capnp_units::errors::{Error, Result};
use capnp_units::kinds::ErrorKind;
use std::alloc::Allocator;

/// Copies as many bytes as both have, and returns their number.
fn copy_beginning(from: &[u8], to: &mut [u8]) -> usize
    ensures count { result ≡ min (length from.now) (length to.old) }
    ensures copied { to.new ≡ take result from.now ++ drop result to.old }
{
    let n = from.len().min(to.len());
    to[..n].copy_from_slice(&from[..n]);
    n
}

/// Reading takes bytes from the front of the slice, which then begins after them.
impl Read for &[u8] {
    ghost remaining = { λ s. Some s.now };

    ghost failures = { λ _. 0 };

    ghost refuses = { λ k. k ≡ ErrorKind.Device };

    fn read(&mut self, buf: &mut [u8]) -> Result<usize> {
        let all: &[u8] = *self;
        let n = copy_beginning(all, buf);
        *self = &all[n..];
        Ok(n)
    }

    fn failures(&self) -> u64 {
        0
    }
}

impl BufRead for &[u8] {
    ghost shown = { λ s. length s.now };

    fn fill_buf(&mut self) -> Result<&[u8]> {
        Ok(*self)
    }

    fn consume(&mut self, amount: usize) {
        let all: &[u8] = *self;
        *self = &all[amount..];
    }

    ghost device_alone = { λ _ e. e };
}

impl Windowed for &[u8] {
    ghost window = { λ s. s.now };

    fn window(&self) -> &[u8] {
        *self
    }
}

impl<R: Read> Read for &mut R {
    ghost remaining = { λ r. R.remaining r.now };

    ghost failures = { λ r. R.failures r.now };

    ghost refuses = { R.refuses };

    fn read(&mut self, buf: &mut [u8]) -> Result<usize> {
        Read::read(&mut **self, buf)
    }

    fn read_exact(&mut self, buf: &mut [u8]) -> Result<()> {
        Read::read_exact(&mut **self, buf)
    }

    fn failures(&self) -> u64 {
        Read::failures(&**self)
    }
}

impl<R: BufRead> BufRead for &mut R {
    ghost shown = { λ r. R.shown r.now };

    fn fill_buf(&mut self) -> Result<&[u8]> {
        BufRead::fill_buf(&mut **self)
    }

    fn consume(&mut self, amount: usize) {
        BufRead::consume(&mut **self, amount)
    }

    ghost device_alone = { R.device_alone };
}

/// Writing appends the bytes. If the memory for them is refused, no byte is taken.
impl<A: Allocator> Write for Vec<u8, A> {
    ghost contents = { λ v. Some v.items };

    ghost failures = { λ _. 0 };

    ghost may_grow = { Unit {0} };

    fn write_all(&mut self, buf: &[u8]) -> Result<()> {
        self.extend_from_slice(buf)?;
        Ok(())
    }

    fn failures(&self) -> u64 {
        0
    }
}

/// Writing puts the bytes at the front of the slice, which then begins after them. If the slice is
/// too short, no byte is taken.
///
/// It doesn't expose its contents, because the written bytes are before the slice that is left.
/// `SliceWriter` exposes them.
impl Write for &mut [u8] {
    ghost failures = { λ _. 0 };

    ghost room = { λ s. Some (length s.now) };

    fn write_all(&mut self, buf: &[u8]) -> Result<()>
        ensures ok { OnOk result (Appends None None buf.now) }
        ensures rest { OnOk result (self.new.now ≡ drop (length buf.now) self.old.now) }
        ensures falls { OnOk result
            (RoomFalls (Some (length self.old.now)) (Some (length self.new.now)) (length buf.now)) }
        ensures err { OnErr result (AppendsPart None None buf.now) }
        ensures refusal { IfErr result
            (λ e. IsWriteRefusal ⊥ (Some (length self.old.now)) (length buf.now) e.kind) }
        ensures nothing { IfErr result (λ e. e.kind ≢ ErrorKind.Device → Keeps None None) }
        ensures kept { IfErr result (λ e. e.kind ≢ ErrorKind.Device
            → Some (length self.new.now) ≡ Some (length self.old.now)) }
        ensures unchanged { OnErr result (self.new.now ≡ self.old.now) }
        ensures count { Counts result 0 0 }
    {
        if self.len() < buf.len() {
            return Err(Error::from(ErrorKind::BufferNotLargeEnough));
        }
        let all = std::mem::take(self);
        let (front, rest) = all.split_at_mut(buf.len());
        SliceWriter::new(front).write_all(buf)?;
        *self = rest;
        Ok(())
    }

    fn failures(&self) -> u64 {
        0
    }
}

impl<W: Write> Write for &mut W {
    ghost contents = { λ w. W.contents w.now };

    ghost failures = { λ w. W.failures w.now };

    ghost room = { λ w. W.room w.now };

    ghost may_grow = { W.may_grow };

    fn write_all(&mut self, buf: &[u8]) -> Result<()> {
        Write::write_all(&mut **self, buf)
    }

    fn failures(&self) -> u64 {
        Write::failures(&**self)
    }
}
