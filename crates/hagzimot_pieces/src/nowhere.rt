//! A sink that keeps nothing.

use capnp_stream_io::traits::Write;
use capnp_units::errors::Error;

/// A sink that takes all bytes and keeps none: what is copied to it is passed over.
#[derive(Clone, Copy, Debug, PartialEq, Eq)]
pub struct Nowhere;

impl Write for Nowhere {
    ghost failures = { λ _. 0 };

    #[inline(always)]
    fn write_all(&mut self, _buf: &[u8]) -> Result<(), Error> {
        Ok(())
    }

    fn failures(&self) -> u64 {
        0
    }
}
