//! Devices that give or take some bytes, and then fail.
ghost use Rattle.std.specs.Prelude.{◌≡◌, ◌≤◌, length};
ghost use Rattle.capnp_units.specs.declared.kinds.ErrorKind.{ErrorKind};

use capnp_stream_io::traits::{BufRead, Read, Write};
use capnp_units::errors::{Error, Result};
use capnp_units::kinds::ErrorKind;
use std::alloc::{AllocError, Global};
use std::cell::Cell;

/// A shared note of a run's devices: whether one of them has failed, and how often a device was
/// called after that.
#[derive(Drop)]
pub struct Alarm {
    is_raised: Cell<bool>,
    calls: Cell<u64>,
}

impl Alarm {
    pub fn new() -> Alarm {
        Alarm {
            is_raised: Cell::new(false),
            calls: Cell::new(0),
        }
    }

    /// Notes that a device is called.
    fn note(&self) {
        if self.is_raised.get() {
            self.calls.set(self.calls.get().saturating_add(1));
        }
    }

    /// Notes that a device fails.
    fn raise(&self) {
        self.is_raised.set(true);
    }

    /// Returns whether a device has failed, and none was called after that.
    pub fn was_heard(&self) -> bool {
        self.is_raised.get() && self.calls.get() == 0
    }
}

/// A source that gives n bytes, a few at a time, and then fails. It doesn't expose its bytes.
#[derive(Drop)]
pub struct Giving<'a> {
    bytes: &'a [u8],
    width: usize,
    left: usize,
    failures: u64,
    alarm: &'a Alarm,
}

impl<'a> Giving<'a> {
    pub fn new(bytes: &'a [u8], width: usize, left: usize, alarm: &'a Alarm) -> Giving<'a> {
        Giving {
            bytes,
            width,
            left,
            failures: 0,
            alarm,
        }
    }

    /// Returns the number of bytes that weren't taken.
    pub fn unread(&self) -> usize {
        self.bytes.len()
    }

    fn window(&self) -> &[u8]
        ensures { length result.now ≤ length self.now.bytes.now }
    {
        let most = self.width.min(self.left);
        &self.bytes[..self.bytes.len().min(most)]
    }

    fn take(&mut self, amount: usize)
        ensures { self.new.failures ≡ self.old.failures }
    {
        let bytes = self.bytes;
        self.bytes = &bytes[amount.min(bytes.len())..];
        self.left = self.left.saturating_sub(amount);
    }
}

impl Read for Giving<'_> {
    ghost failures = { λ s. s.failures };

    ghost refuses = { λ k. k ≡ ErrorKind.Device };

    fn read(&mut self, buf: &mut [u8]) -> Result<usize> {
        let window = self.fill_buf()?;
        let n = window.len().min(buf.len());
        buf[..n].copy_from_slice(&window[..n]);
        self.take(n);
        Ok(n)
    }

    fn failures(&self) -> u64 {
        self.failures
    }
}

impl BufRead for Giving<'_> {
    ghost shown = { λ s. length s.bytes.now };

    fn fill_buf(&mut self) -> Result<&[u8]> {
        self.alarm.note();
        if self.left == 0 {
            self.alarm.raise();
            self.failures = self.failures.saturating_add(1);
            return Err(Error::from(ErrorKind::Device));
        }
        Ok(self.window())
    }

    fn consume(&mut self, amount: usize) {
        self.alarm.note();
        self.take(amount);
    }

    ghost device_alone = { λ _ e. e };
}

/// A sink that takes n bytes, and then fails. It doesn't expose its bytes.
#[derive(Drop)]
pub struct Taking<'a> {
    held: Vec<u8>,
    left: usize,
    failures: u64,
    alarm: &'a Alarm,
}

impl<'a> Taking<'a> {
    pub fn new(alloc: Global, left: usize, alarm: &'a Alarm) -> Taking<'a> {
        Taking {
            held: Vec::new(alloc),
            left,
            failures: 0,
            alarm,
        }
    }

    /// Returns the bytes that it took.
    pub fn held(&self) -> &[u8]
        ensures { result.now ≡ self.now.held.items }
    {
        &self.held
    }

    /// Returns the bytes that it took, and consumes the sink.
    pub fn into_held(self) -> Vec<u8> {
        self.held
    }
}

impl Write for Taking<'_> {
    ghost failures = { λ s. s.failures };

    ghost may_grow = { Unit {0} };

    fn write_all(&mut self, buf: &[u8]) -> Result<()> {
        self.alarm.note();
        let n = buf.len().min(self.left);
        self.held.extend_from_slice(&buf[..n])?;
        self.left -= n;
        if n < buf.len() {
            self.alarm.raise();
            self.failures = self.failures.saturating_add(1);
            return Err(Error::from(ErrorKind::Device));
        }
        Ok(())
    }

    fn failures(&self) -> u64 {
        self.failures
    }
}

/// Why a case can't be tried.
#[derive(Clone, Copy, Debug, thiserror::Error)]
pub enum Fault {
    #[error("out of memory, or no such case")]
    Memory,
    /// The case and the number of bytes at which a device failed.
    #[error("differs where a device fails at byte {0}")]
    Differs(usize),
}

impl From<AllocError> for Fault {
    fn from(_e: AllocError) -> Fault {
        Fault::Memory
    }
}

impl<T: Drop> From<std::alloc::AllocFailed<T>> for Fault {
    fn from(_e: std::alloc::AllocFailed<T>) -> Fault {
        Fault::Memory
    }
}

impl From<Error> for Fault {
    fn from(_e: Error) -> Fault {
        Fault::Memory
    }
}
