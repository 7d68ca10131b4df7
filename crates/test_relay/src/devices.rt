//! Devices that fail after some bytes.
ghost use Rattle.std.specs.Prelude.{◌≡◌, []};
ghost use Rattle.capnp_units.specs.declared.kinds.ErrorKind.{ErrorKind};

use capnp_relay_program::sinks::Flush;
use capnp_relay_program::sources::Windowed;
use capnp_stream_io::traits::{BufRead, Read, Write};
use capnp_units::errors::{Error, Result};
use capnp_units::kinds::ErrorKind;
use std::alloc::Global;

/// A source that always fails.
#[derive(Drop)]
pub struct Broken {
    pub failures: u64,
}

impl Read for Broken {
    ghost failures = { λ b. b.failures };

    ghost refuses = { λ k. k ≡ ErrorKind.Device };

    fn read(&mut self, _buf: &mut [u8]) -> Result<usize> {
        self.failures = self.failures.saturating_add(1);
        Err(Error::from(ErrorKind::Device))
    }

    fn failures(&self) -> u64 {
        self.failures
    }
}

impl BufRead for Broken {
    ghost shown = { λ _. 0 };

    fn fill_buf(&mut self) -> Result<&[u8]> {
        self.failures = self.failures.saturating_add(1);
        Err(Error::from(ErrorKind::Device))
    }

    fn consume(&mut self, _amount: usize) {}

    ghost device_alone = { λ _ e. e };
}

impl Windowed for Broken {
    ghost window = { λ _. [] };

    fn window(&self) -> &[u8] {
        &[]
    }
}

/// A sink that takes some bytes and then fails, and may fail at a flush.
#[derive(Drop)]
pub struct Device {
    pub held: Vec<u8>,
    pub left: usize,
    pub flushes: bool,
    failures: u64,
}

impl Device {
    /// Makes a sink that takes n bytes.
    pub fn new(alloc: Global, left: usize, flushes: bool) -> Device {
        Device {
            held: Vec::new(alloc),
            left,
            flushes,
            failures: 0,
        }
    }
}

impl Write for Device {
    ghost failures = { λ d. d.failures };

    ghost may_grow = { Unit {0} };

    fn write_all(&mut self, buf: &[u8]) -> Result<()> {
        let n = buf.len().min(self.left);
        self.held.extend_from_slice(&buf[..n])?;
        self.left -= n;
        if n < buf.len() {
            self.failures = self.failures.saturating_add(1);
            return Err(Error::from(ErrorKind::Device));
        }
        Ok(())
    }

    fn failures(&self) -> u64 {
        self.failures
    }
}

impl Flush for Device {
    ghost held = { λ _. [] };

    fn flush(&mut self) -> Result<()> {
        if self.flushes {
            return Ok(());
        }
        self.failures = self.failures.saturating_add(1);
        Err(Error::from(ErrorKind::Device))
    }
}
