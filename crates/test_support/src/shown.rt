//! A source that shows its bytes in pieces.
ghost use Rattle.std.specs.Prelude.{◌≡◌, ◌≤◌, length};
ghost use Rattle.capnp_units.specs.declared.kinds.ErrorKind.{ErrorKind};

use capnp_stream_io::traits::{BufRead, Read};
use capnp_units::errors::{Error, Result};
use capnp_units::kinds::ErrorKind;

/// A source that shows n bytes first, and then as many as a width at a time. It counts the requests
/// to show them, and fails if no more may be taken. It doesn't expose its bytes.
#[derive(Drop)]
pub struct Shown<'a> {
    pub bytes: &'a [u8],
    first: usize,
    width: usize,
    left: usize,
    looks: usize,
    failures: u64,
}

impl<'a> Shown<'a> {
    /// Makes a source of the bytes, which shows n bytes first, and then as many as the width at a
    /// time.
    pub fn new(bytes: &'a [u8], first: usize, width: usize) -> Shown<'a> {
        Shown {
            bytes,
            first,
            width,
            left: usize::MAX,
            looks: 0,
            failures: 0,
        }
    }

    /// Makes a source of the bytes, which shows all at once; n bytes may be taken before it fails.
    pub fn failing(bytes: &'a [u8], left: usize) -> Shown<'a> {
        let mut source = Shown::new(bytes, 0, usize::MAX);
        source.left = left;
        source
    }

    /// Returns the number of requests to show its bytes.
    pub fn looks(&self) -> usize
        ensures { result ≡ self.now.looks }
    {
        self.looks
    }

    fn window(&self) -> &[u8]
        ensures { length result.now ≤ length self.now.bytes.now }
    {
        let most = if self.first > 0 {
            self.first
        } else {
            self.width
        };
        &self.bytes[..self.bytes.len().min(most)]
    }
}

impl Read for Shown<'_> {
    ghost failures = { λ s. s.failures };

    ghost refuses = { λ k. k ≡ ErrorKind.Device };

    fn read(&mut self, buf: &mut [u8]) -> Result<usize> {
        let byte = match self.fill_buf()?.first() {
            Some(b) => *b,
            None => return Ok(0),
        };
        if buf.is_empty() {
            return Ok(0);
        }
        buf[0] = byte;
        self.consume(1);
        Ok(1)
    }

    fn failures(&self) -> u64 {
        self.failures
    }
}

impl BufRead for Shown<'_> {
    ghost shown = { λ s. length s.bytes.now };

    fn fill_buf(&mut self) -> Result<&[u8]> {
        self.looks = self.looks.saturating_add(1);
        if self.left == 0 {
            self.failures = self.failures.saturating_add(1);
            return Err(Error::from(ErrorKind::Device));
        }
        Ok(self.window())
    }

    fn consume(&mut self, amount: usize) {
        let bytes = self.bytes;
        self.bytes = &bytes[amount..];
        self.first = self.first.saturating_sub(amount);
        self.left = self.left.saturating_sub(amount);
    }

    ghost device_alone = { λ _ e. e };
}
