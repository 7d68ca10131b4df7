//! Sources and sinks of bytes.
ghost use Rattle.std.specs.Prelude.{◌≡◌, ◌≢◌, ◌≤◌, ◌⊎◌, ℕ, List, [], length, None, IfSome, IfOk, IfErr, OnOk, OnErr};
ghost use Rattle.std.specs.declared.option.Option.{Option};
ghost use Rattle.std.specs.Borrow.{sem};
ghost use Rattle.std.specs.Io.{ReadsAtMost, StartsWith};
ghost use Rattle.std.specs.Io.BufRead.{Rests};
ghost use Rattle.std.specs.Io.KnownBytes.{Keeps, Consumes, ReadConsumes, Appends};
ghost use Rattle.capnp_units.specs.declared.kinds.ErrorKind.{ErrorKind};
ghost use Rattle.capnp_stream_io.specs.Counting.{Counts};
ghost use Rattle.capnp_stream_io.specs.Streams.{FillsBuffer, Drops, ConsumesFewer, EndsBefore, AppendsPart, RoomFalls, IsWriteRefusal};

use capnp_units::errors::{Error, Result};
use capnp_units::kinds::ErrorKind;

/// A source of bytes.
pub trait Read {
    /// The bytes that are still to be read, if the source knows them.
    ghost remaining: { Self → Option (List ℕ) } = { λ _. None };

    /// The number of failures of the device so far.
    ghost failures: { Self → ℕ };

    /// The kinds with which `read` is refused.
    ghost refuses: { ErrorKind → Type 0 };

    /// Reads some bytes into the front of `buf`, and returns their number: 0 only at the end of
    /// input, or if `buf` is empty.
    fn read(&mut self, buf: &mut [u8]) -> Result<usize>
        ensures bound { ReadsAtMost result buf.new }
        ensures bytes { ReadConsumes (remaining self.old) (remaining self.new) result buf.new }
        ensures refusal { IfErr result (λ e. refuses e.kind) }
        ensures count { Counts result (failures self.old) (failures self.new) };

    /// Fills the whole of `buf`, or is refused at the end of input, which it then has reached.
    fn read_exact(&mut self, buf: &mut [u8]) -> Result<()>
        ensures ok { OnOk result (Consumes (remaining self.old) (remaining self.new) buf.new) }
        ensures part { IfErr result (λ e. (refuses e.kind
            × ConsumesFewer (remaining self.old) (remaining self.new) (length buf.old))
            ⊎ ((e.kind ≡ ErrorKind.FailedToFillTheWholeBuffer)
            × EndsBefore (remaining self.old) (remaining self.new) (length buf.old))) }
        ensures count { Counts result (failures self.old) (failures self.new) }
    {
        let mut at = 0;
        while at < buf.len() {
            let n = self.read(&mut buf[at..])?;
            if n == 0 {
                return Err(Error::from(ErrorKind::FailedToFillTheWholeBuffer));
            }
            at += n;
        }
        Ok(())
    }

    /// Returns the number of failures of the device so far, which stops at 2^64 - 1.
    fn failures(&self) -> u64
        ensures { result ≡ failures self.now };
}

/// A source that shows bytes before they are taken.
pub trait BufRead: Read {
    /// The number of bytes to come that were shown, so that `consume` may take them.
    ghost shown: { Self → ℕ };

    /// Returns a beginning of the bytes to come, of any length, which is empty only if none is
    /// left. Nothing is taken.
    fn fill_buf(&mut self) -> Result<&[u8]>
        ensures front { IfSome (Self.remaining self.old)
            (λ xs. IfOk result (λ s. StartsWith xs s.now)) }
        ensures end { IfSome (Self.remaining self.old)
            (λ xs. IfOk result (λ s. length s.now ≡ 0 → xs ≡ [])) }
        ensures refusal { IfErr result (λ e. e.kind ≡ ErrorKind.Device) }
        ensures* after_borrow { sem 𝓛 (Rests Self.row self.entry (λ new.
            FillsBuffer (Self.remaining self.old) (Self.remaining new)
            (Self.failures self.old) (Self.failures new) (shown new) result)) };

    /// Takes n of the bytes that were shown.
    fn consume(&mut self, amount: usize)
        requires { amount ≤ shown self.old }
        ensures bytes { Drops (Self.remaining self.old) (Self.remaining self.new) amount }
        ensures count { Self.failures self.new ≡ Self.failures self.old };

    /// Reading is refused only with `Device`.
    ghost device_alone: { (k : ErrorKind) → Self.refuses k → k ≡ ErrorKind.Device };
}

/// A source that exposes the bytes that it shows without a wait.
pub trait Windowed: BufRead {
    /// The bytes that were shown and are not yet taken.
    ghost window: { Self → List ℕ };

    /// The bytes that were shown and are not yet taken, a beginning of those to come: a read of
    /// more than these may wait.
    fn window(&self) -> &[u8]
        ensures bytes { result.now ≡ window self.now }
        ensures len { length result.now ≡ Self.shown self.now }
        ensures front { IfSome (Self.remaining self.now) (λ xs. StartsWith xs result.now) };
}

/// A sink of bytes.
pub trait Write {
    /// The bytes that the sink holds, if it exposes them.
    ghost contents: { Self → Option (List ℕ) } = { λ _. None };

    /// The number of failures of the device so far.
    ghost failures: { Self → ℕ };

    /// The number of bytes that the sink still takes, if it has an end, as a slice has.
    ghost room: { Self → Option ℕ } = { λ _. None };

    /// Whether the sink grows and may need memory to grow, as a `Vec` does.
    ghost may_grow: { Type 0 } = { ⊥ };

    /// Writes all of `buf`. After a refusal a beginning of it was written: nothing, unless a device
    /// failed.
    fn write_all(&mut self, buf: &[u8]) -> Result<()>
        ensures ok { OnOk result (Appends (contents self.old) (contents self.new) buf.now) }
        ensures falls { OnOk result (RoomFalls (room self.old) (room self.new) (length buf.now)) }
        ensures err { OnErr result (AppendsPart (contents self.old) (contents self.new) buf.now) }
        ensures refusal { IfErr result
            (λ e. IsWriteRefusal may_grow (room self.old) (length buf.now) e.kind) }
        ensures nothing { IfErr result
            (λ e. e.kind ≢ ErrorKind.Device → Keeps (contents self.old) (contents self.new)) }
        ensures kept { IfErr result
            (λ e. e.kind ≢ ErrorKind.Device → room self.new ≡ room self.old) }
        ensures count { Counts result (failures self.old) (failures self.new) };

    /// Returns the number of failures of the device so far, which stops at 2^64 - 1.
    fn failures(&self) -> u64
        ensures { result ≡ failures self.now };
}
