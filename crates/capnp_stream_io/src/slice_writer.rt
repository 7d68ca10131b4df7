//! A sink in a slice.
ghost use Rattle.std.specs.Prelude.{◌≡◌, ◌≢◌, ◌≤◌, ◌-◌, ◌+◌, [], Some, length, IfErr, OnOk, OnErr};
ghost use Rattle.std.specs.Io.KnownBytes.{Keeps};
ghost use Rattle.capnp_units.specs.declared.kinds.ErrorKind.{ErrorKind};
ghost use Rattle.capnp_stream_io.specs.Counting.{Counts};
ghost use Rattle.capnp_stream_io.specs.Streams.{IsWriteRefusal};

use crate::traits::Write;
use capnp_units::errors::{Error, Result};
use capnp_units::kinds::ErrorKind;

/// A lent slice that is written from its front on. It shows the bytes that were written.
#[derive(Drop)]
pub struct SliceWriter<'a> {
    slice: &'a mut [u8],
    written: usize,
    ghost within: { written ≤ length slice.now },
}

impl<'a> SliceWriter<'a> {
    ghost use Rattle.capnp_stream_io.specs.SliceWriters.{writer_slice, writer_contents, writer_room};

    /// Makes a writer that has written nothing yet.
    pub fn new(slice: &'a mut [u8]) -> SliceWriter<'a>
        ensures same_reference { (writer_slice result).ghost_name ≡ slice.entry.ghost_name }
        ensures slice { (writer_slice result).now ≡ slice.old }
        ensures empty { writer_contents result ≡ [] }
        ensures room { writer_room result ≡ length slice.old }
    {
        SliceWriter { slice, written: 0 }
    }

    /// Returns the bytes that were written.
    pub fn as_slice(&self) -> &[u8]
        ensures { result.now ≡ writer_contents self.now }
    {
        &self.slice[..self.written]
    }

    /// Returns the number of bytes that still fit.
    pub fn room(&self) -> usize
        ensures { result ≡ writer_room self.now }
    {
        self.slice.len() - self.written
    }
}

/// Writing puts the bytes after those that were written, and later bytes are unchanged. If the
/// bytes don't fit, the slice is unchanged.
impl Write for SliceWriter<'_> {
    ghost use Rattle.capnp_stream_io.specs.SliceWriters.{writer_contents, writer_room, told_contents, told_room, GainsBytes, GainsFront, KeepsRest, LosesRoom, SliceStands};

    ghost contents = { λ w. Some (writer_contents w) };

    ghost failures = { λ _. 0 };

    ghost room = { λ w. Some (writer_room w) };

    fn write_all(&mut self, buf: &[u8]) -> Result<()>
        ensures ok { OnOk result (GainsBytes self.old self.new buf.now) }
        ensures rest { OnOk result (KeepsRest self.old self.new (length buf.now)) }
        ensures falls { OnOk result (LosesRoom self.old self.new (length buf.now)) }
        ensures err { OnErr result (GainsFront self.old self.new buf.now) }
        ensures refusal { IfErr result
            (λ e. IsWriteRefusal ⊥ (told_room self.old) (length buf.now) e.kind) }
        ensures nothing { IfErr result (λ e. e.kind ≢ ErrorKind.Device
            → Keeps (told_contents self.old) (told_contents self.new)) }
        ensures kept { IfErr result (λ e. e.kind ≢ ErrorKind.Device
            → told_room self.new ≡ told_room self.old) }
        ensures unchanged { OnErr result (SliceStands self.old self.new) }
        ensures count { Counts result 0 0 }
    {
        if self.room() < buf.len() {
            return Err(Error::from(ErrorKind::BufferNotLargeEnough));
        }
        let end = self.written + buf.len();
        self.slice[self.written..end].copy_from_slice(buf);
        self.written = end;
        Ok(())
    }

    fn failures(&self) -> u64 {
        0
    }
}
