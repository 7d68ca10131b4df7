//! Readers that show no bytes, as sources of messages.
ghost use Rattle.std.specs.Prelude.{◌≡◌, ◌≤◌, [], length, IfErr, OnOk};
ghost use Rattle.std.specs.Io.{ReadsAtMost};
ghost use Rattle.std.specs.Io.KnownBytes.{Keeps, IsAtEnd, ReadConsumes, prepend_known};
ghost use Rattle.capnp_units.specs.declared.kinds.ErrorKind.{ErrorKind};
ghost use Rattle.capnp_stream_io.specs.Counting.{Counts};

use capnp_stream_io::traits::{BufRead, Read};
use capnp_units::errors::{Error, Result};
use capnp_units::kinds::ErrorKind;

/// A source over a reader. It reads the bytes that it is asked for and no more, except for one byte
/// to find out whether a byte is left.
///
/// A refusal of the reader, with any kind, becomes `Device`, and nothing else is refused.
#[derive(Drop)]
pub struct Unbuffered<R> {
    inner: R,
    front: [u8; 1],
    held: usize,
    failures: u64,
    ghost one: { held ≤ 1 },
}

impl<R: Read> Unbuffered<R> {
    ghost use Rattle.capnp_message.specs.Unbuffered.{bytes_left, front_bytes, HandsOn};

    /// Makes the source of this reader.
    pub fn new(inner: R) -> Unbuffered<R>
        ensures inner { result.inner ≡ inner }
        ensures remaining { bytes_left R.remaining result ≡ prepend_known [] (R.remaining inner) }
        ensures failures { result.failures ≡ 0 }
    {
        Unbuffered {
            inner,
            front: [0],
            held: 0,
            failures: 0,
        }
    }

    /// Returns the reader. It is at most one byte ahead of the bytes that were taken, and only if
    /// no message was read since the source reported whether a byte is left. The byte is lost.
    pub fn into_inner(self) -> R
        ensures inner { result ≡ self.inner }
        ensures ahead { length (front_bytes self) ≤ 1 }
    {
        self.inner
    }

    /// Asks the reader for a byte if none is held. At the end of input no byte comes.
    fn refill(&mut self) -> Result<()>
        ensures kept { Keeps (bytes_left R.remaining self.old) (bytes_left R.remaining self.new) }
        ensures end { OnOk result
            (length (front_bytes self.new) ≡ 0 → IsAtEnd (R.remaining self.new.inner)) }
        ensures refusal { IfErr result (λ e. e.kind ≡ ErrorKind.Device) }
        ensures count { Counts result self.old.failures self.new.failures }
        ensures below { HandsOn R.refuses result (R.failures self.old.inner)
            (R.failures self.new.inner) }
    {
        if self.held > 0 {
            return Ok(());
        }
        match self.inner.read(&mut self.front) {
            Ok(n) => {
                self.held = n;
                Ok(())
            }
            Err(_) => {
                self.failures = self.failures.saturating_add(1);
                Err(Error::from(ErrorKind::Device))
            }
        }
    }
}

impl<R: Read> Read for Unbuffered<R> {
    ghost use Rattle.capnp_message.specs.Unbuffered.{bytes_left, HandsOn};

    ghost remaining = { bytes_left R.remaining };

    ghost failures = { λ s. s.failures };

    ghost refuses = { λ k. k ≡ ErrorKind.Device };

    fn read(&mut self, buf: &mut [u8]) -> Result<usize>
        ensures bound { ReadsAtMost result buf.new }
        ensures bytes { ReadConsumes (bytes_left R.remaining self.old)
            (bytes_left R.remaining self.new) result buf.new }
        ensures refusal { IfErr result (λ e. e.kind ≡ ErrorKind.Device) }
        ensures count { Counts result self.old.failures self.new.failures }
        ensures below { HandsOn R.refuses result (R.failures self.old.inner)
            (R.failures self.new.inner) }
    {
        if self.held > 0 {
            if buf.is_empty() {
                return Ok(0);
            }
            buf[0] = self.front[0];
            self.held = 0;
            return Ok(1);
        }
        match self.inner.read(buf) {
            Ok(n) => Ok(n),
            Err(_) => {
                self.failures = self.failures.saturating_add(1);
                Err(Error::from(ErrorKind::Device))
            }
        }
    }

    fn failures(&self) -> u64 {
        self.failures
    }
}

impl<R: Read> BufRead for Unbuffered<R> {
    ghost use Rattle.capnp_message.specs.Unbuffered.{front_bytes};

    ghost shown = { λ s. length (front_bytes s) };

    fn fill_buf(&mut self) -> Result<&[u8]> {
        self.refill()?;
        Ok(&self.front[..self.held])
    }

    fn consume(&mut self, amount: usize) {
        self.held -= amount;
    }

    ghost device_alone = { λ _ e. e };
}
