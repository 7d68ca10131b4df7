//! Sinks that may hold bytes back.
ghost use Rattle.std.specs.Prelude.{◌≡◌, ℕ, List, [], IfErr, OnOk};
ghost use Rattle.capnp_units.specs.declared.kinds.ErrorKind.{ErrorKind};
ghost use Rattle.std.specs.Io.KnownBytes.{Keeps};
ghost use Rattle.std.specs.Io.Buffered.{writer_buffer};
ghost use Rattle.capnp_stream_io.specs.Adapters.{sink_inner};
ghost use Rattle.capnp_stream_io.specs.Counting.{Counts};

use capnp_stream_io::adapters::Sink;
use capnp_stream_io::traits::Write;
use capnp_units::errors::Result;
use std::io;
use std::io::BufWriter;

/// A sink that may hold bytes back.
pub trait Flush: Write {
    /// The bytes that are held back.
    ghost held: { Self → List ℕ };

    /// Passes on the bytes that are held back, all of them if it returns `Ok`.
    fn flush(&mut self) -> Result<()>
        ensures empty { OnOk result (held self.new ≡ []) }
        ensures kept { Keeps (Self.contents self.old) (Self.contents self.new) }
        ensures room { Self.room self.new ≡ Self.room self.old }
        ensures refusal { IfErr result (λ e. e.kind ≡ ErrorKind.Device) }
        ensures count { Counts result (Self.failures self.old) (Self.failures self.new) };
}

impl<S: io::Write + Drop> Flush for Sink<BufWriter<S>> {
    ghost held = { λ s. writer_buffer (sink_inner s) };

    fn flush(&mut self) -> Result<()> {
        self.flush()
    }
}

impl Flush for Vec<u8> {
    ghost held = { λ _. [] };

    fn flush(&mut self) -> Result<()> {
        Ok(())
    }
}
