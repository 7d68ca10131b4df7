//! Shared parts of tests: the bytes of words, a source that shows one byte at a time, and a sink
//! that has an end.
#![tactic(auto)]

pub mod shown;

ghost use Rattle.std.specs.Prelude.{◌≡◌, ◌≤◌, length, IfOk};
ghost use Rattle.capnp_model.specs.Bytes.{bytes_of_words};
ghost use Rattle.capnp_units.specs.declared.kinds.ErrorKind.{ErrorKind};

use capnp_stream_io::traits::{BufRead, Read, Write};
use capnp_units::errors::{Error, Result};
use capnp_units::kinds::ErrorKind;
use std::alloc::{AllocError, Global};

/// Returns the bytes of words, the lowest byte of each first.
pub fn bytes_of(alloc: Global, words: &[u64]) -> std::result::Result<Vec<u8>, AllocError>
    ensures { IfOk result (λ v. v.items ≡ bytes_of_words words.now) }
{
    let mut bytes = Vec::new(alloc);
    for word in words {
        bytes.extend_from_slice(&word.to_le_bytes())?;
    }
    Ok(bytes)
}

/// A source that shows one byte at a time, and fails after some. It doesn't expose its bytes.
#[derive(Drop)]
pub struct Drip<'a> {
    bytes: &'a [u8],
    left: usize,
    failures: u64,
}

impl<'a> Drip<'a> {
    /// Makes a source of the bytes, which shows n bytes before it fails.
    pub fn new(bytes: &'a [u8], left: usize) -> Drip<'a> {
        Drip {
            bytes,
            left,
            failures: 0,
        }
    }

    /// Returns the bytes that weren't taken.
    pub fn rest(&self) -> &[u8]
        ensures { result.now ≡ self.now.bytes.now }
    {
        self.bytes
    }

    fn shown(&self) -> &[u8]
        ensures { length result.now ≤ 1 }
    {
        let n = self.bytes.len().min(1);
        &self.bytes[..n]
    }

    fn consume_one(&mut self)
        ensures { self.new.failures ≡ self.old.failures }
    {
        let bytes = self.bytes;
        let n = bytes.len().min(1);
        self.bytes = &bytes[n..];
        self.left = self.left.saturating_sub(1);
    }
}

impl Read for Drip<'_> {
    ghost failures = { λ d. d.failures };

    ghost refuses = { λ k. k ≡ ErrorKind.Device };

    fn read(&mut self, buf: &mut [u8]) -> Result<usize> {
        let byte = match self.fill_buf()?.first() {
            Some(b) => *b,
            None => return Ok(0),
        };
        if buf.is_empty() {
            return Ok(0);
        }
        buf[0] = byte;
        self.consume_one();
        Ok(1)
    }

    fn failures(&self) -> u64 {
        self.failures
    }
}

impl BufRead for Drip<'_> {
    ghost shown = { λ _. 1 };

    fn fill_buf(&mut self) -> Result<&[u8]> {
        if self.left == 0 {
            self.failures = self.failures.saturating_add(1);
            return Err(Error::from(ErrorKind::Device));
        }
        Ok(self.shown())
    }

    fn consume(&mut self, amount: usize) {
        if amount == 1 {
            self.consume_one();
        }
    }

    ghost device_alone = { λ _ e. e };
}

/// A sink that takes some bytes, and then fails, or needs memory. It doesn't expose its bytes.
#[derive(Drop)]
pub struct Short {
    held: Vec<u8>,
    left: usize,
    wants_memory: bool,
    failures: u64,
}

impl Short {
    /// Makes a sink that takes n bytes.
    pub fn new(alloc: Global, left: usize, wants_memory: bool) -> Short {
        Short {
            held: Vec::new(alloc),
            left,
            wants_memory,
            failures: 0,
        }
    }

    /// Returns the bytes that it took.
    pub fn held(&self) -> &[u8]
        ensures { result.now ≡ self.now.held.items }
    {
        &self.held
    }
}

impl Write for Short {
    ghost failures = { λ s. s.failures };

    ghost may_grow = { Unit {0} };

    fn write_all(&mut self, buf: &[u8]) -> Result<()> {
        let n = buf.len().min(self.left);
        if n < buf.len() && self.wants_memory {
            return Err(Error::from(ErrorKind::OutOfMemory));
        }
        self.held.extend_from_slice(&buf[..n])?;
        self.left -= n;
        if n < buf.len() {
            self.failures = self.failures.saturating_add(1);
            return Err(Error::from(ErrorKind::Device));
        }
        Ok(())
    }

    fn failures(&self) -> u64 {
        self.failures
    }
}
