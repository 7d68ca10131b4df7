//! A source that shows one byte at a time.
ghost use Rattle.std.specs.Prelude.{◌≡◌, length};
ghost use Rattle.capnp_units.specs.declared.kinds.ErrorKind.{ErrorKind};

use capnp_relay_program::sources::Windowed;
use capnp_stream_io::traits::{BufRead, Read};
use capnp_units::errors::Result;

/// A source that shows one byte at a time.
#[derive(Drop)]
pub struct OneByOne<'a> {
    window: &'a [u8],
    rest: &'a [u8],
}

impl<'a> OneByOne<'a> {
    pub fn new(bytes: &'a [u8]) -> OneByOne<'a> {
        OneByOne {
            window: &[],
            rest: bytes,
        }
    }

    /// Returns the number of bytes that weren't taken.
    pub fn left(&self) -> usize {
        self.window.len().saturating_add(self.rest.len())
    }

    /// Shows the next byte if none is shown.
    fn show(&mut self) {
        if self.window.is_empty() {
            let rest = self.rest;
            let n = rest.len().min(1);
            self.window = &rest[..n];
            self.rest = &rest[n..];
        }
    }
}

impl<'a> Read for OneByOne<'a> {
    ghost failures = { λ _. 0 };

    ghost refuses = { λ k. k ≡ ErrorKind.Device };

    fn read(&mut self, buf: &mut [u8]) -> Result<usize> {
        self.show();
        let all = self.window;
        let n = all.len().min(buf.len());
        buf[..n].copy_from_slice(&all[..n]);
        self.window = &all[n..];
        Ok(n)
    }

    fn failures(&self) -> u64 {
        0
    }
}

impl<'a> BufRead for OneByOne<'a> {
    ghost shown = { λ s. length s.window.now };

    fn fill_buf(&mut self) -> Result<&[u8]> {
        self.show();
        Ok(self.window)
    }

    fn consume(&mut self, amount: usize) {
        let all = self.window;
        self.window = &all[amount..];
    }

    ghost device_alone = { λ _ e. e };
}

impl<'a> Windowed for OneByOne<'a> {
    ghost window = { λ s. s.window.now };

    fn window(&self) -> &[u8] {
        self.window
    }
}
