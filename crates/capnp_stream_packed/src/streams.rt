//! Packed bytes as streams of words.
ghost use Rattle.std.specs.Prelude.{◌≡◌, ◌≢◌, ◌⊎◌, ◌%◌, length, None, IfErr, OnOk, IsErrAnd};
ghost use Rattle.std.specs.Io.{ReadsAtMost};
ghost use Rattle.std.specs.Io.KnownBytes.{Consumes, ReadConsumes};
ghost use Rattle.capnp_units.specs.declared.kinds.ErrorKind.{ErrorKind};
ghost use Rattle.capnp_model.specs.Packing.{packed};
ghost use Rattle.capnp_stream_io.specs.Counting.{Counts};
ghost use Rattle.capnp_stream.specs.Segments.{whole_words};
ghost use Rattle.capnp_stream_io.specs.Streams.{ConsumesFewer, EndsBefore};
ghost use Rattle.capnp_stream_io.specs.Writes.{Writes, sink_seen};
ghost use Rattle.capnp_stream_packed.specs.Streams.{IsUnpackingKind, TriesPiece, FillsWithPiece, LeavesBuffer};

use crate::bytes::is_at_end;
use crate::packing::write_words;
use crate::unpacking::read_words;
use capnp_stream_io::traits::{BufRead, Read, Write};
use capnp_units::errors::{Error, Result};
use capnp_units::kinds::ErrorKind;

/// The words of a packed source, a piece for each call of `read`.
///
/// It doesn't expose the bytes to come, because the division into pieces decides which of them can
/// be read.
#[derive(Drop)]
pub struct PackedRead<R> {
    pub inner: R,
}

impl<R: BufRead> Read for PackedRead<R> {
    ghost failures = { λ p. R.failures p.inner };

    ghost refuses = { IsUnpackingKind };

    /// Fills `buf`, which has whole words, with one piece, and returns its length in bytes; 0 if
    /// `buf` is empty, or no byte is left.
    ///
    /// `BufferNotLargeEnough`: `buf` ends in a part of a word; nothing is taken. `Device`: the
    /// source failed; any other kind says why the bytes that are left don't begin with such a
    /// piece. Then less than the piece was taken, and `buf` is unchanged, or holds words before
    /// the fault, followed by zeros.
    fn read(&mut self, buf: &mut [u8]) -> Result<usize>
        ensures bound { ReadsAtMost result buf.new }
        ensures bytes { ReadConsumes None None result buf.new }
        ensures refusal { IfErr result (λ e. IsUnpackingKind e.kind) }
        ensures count { Counts result (R.failures self.old.inner) (R.failures self.new.inner) }
        ensures piece { TriesPiece (length buf.old) (R.remaining self.old.inner) result
            (R.remaining self.new.inner) (whole_words buf.new) }
        ensures left { IfErr result (λ e. LeavesBuffer buf.old (R.remaining self.old.inner)
            (R.remaining self.new.inner) buf.new e.kind) }
    {
        if buf.len() % 8 != 0 {
            return Err(Error::from(ErrorKind::BufferNotLargeEnough));
        }
        if buf.is_empty() || is_at_end(&mut self.inner)? {
            return Ok(0);
        }
        read_words(&mut self.inner, buf)?;
        Ok(buf.len())
    }

    /// Fills `buf`, which has whole words, with one piece.
    ///
    /// `BufferNotLargeEnough`: `buf` ends in a part of a word; nothing is taken. `Device`: the
    /// source failed; any other kind says why the bytes that are left don't begin with such a
    /// piece. Then less than the piece was taken, and `buf` is unchanged, or holds words before
    /// the fault, followed by zeros.
    fn read_exact(&mut self, buf: &mut [u8]) -> Result<()>
        ensures ok { OnOk result (Consumes None None buf.new) }
        ensures part { IfErr result (λ e.
            (IsUnpackingKind e.kind × ConsumesFewer None None (length buf.old))
            ⊎ ((e.kind ≡ ErrorKind.FailedToFillTheWholeBuffer)
            × EndsBefore None None (length buf.old))) }
        ensures count { Counts result (R.failures self.old.inner) (R.failures self.new.inner) }
        ensures piece { FillsWithPiece (length buf.old) (R.remaining self.old.inner) result
            (R.remaining self.new.inner) (whole_words buf.new) }
        ensures left { IfErr result (λ e. LeavesBuffer buf.old (R.remaining self.old.inner)
            (R.remaining self.new.inner) buf.new e.kind) }
    {
        if buf.len() % 8 != 0 {
            return Err(Error::from(ErrorKind::BufferNotLargeEnough));
        }
        read_words(&mut self.inner, buf)
    }

    fn failures(&self) -> u64 {
        Read::failures(&self.inner)
    }
}

/// A packed sink of words, a piece for each call. It is not a `Write`, because it only takes whole
/// words.
#[derive(Drop)]
pub struct PackedWrite<W> {
    pub inner: W,
}

impl<W: Write> PackedWrite<W> {
    /// Writes these bytes, which are whole words, as one piece, of at most 8 n + (n + 3) / 2 bytes
    /// for n words.
    ///
    /// After a refusal a beginning of the piece was written. `BufferNotLargeEnough`: the sink has
    /// an end, and less room than the piece has bytes. `OutOfMemory`: the sink needs memory.
    /// `Device`: it failed.
    pub fn write_piece(&mut self, bytes: &[u8]) -> Result<()>
        requires { length bytes.now % 8 ≡ 0 }
        ensures { Writes W.may_grow (packed (whole_words bytes.now))
            (sink_seen W.contents W.failures W.room self.old.inner) result
            (sink_seen W.contents W.failures W.room self.new.inner) }
    {
        write_words(&mut self.inner, bytes)
    }

    /// Writes these bytes as one piece, or refuses them if they end in a part of a word.
    ///
    /// `BufferNotLargeEnough`: they aren't whole words, and nothing was written. Otherwise it is
    /// refused like `write_piece`.
    pub fn write_all(&mut self, bytes: &[u8]) -> Result<()>
        ensures written { length bytes.now % 8 ≡ 0
            → Writes W.may_grow (packed (whole_words bytes.now))
            (sink_seen W.contents W.failures W.room self.old.inner) result
            (sink_seen W.contents W.failures W.room self.new.inner) }
        ensures ragged { length bytes.now % 8 ≢ 0 → (self.new.inner ≡ self.old.inner)
            × IsErrAnd result (λ e. e.kind ≡ ErrorKind.BufferNotLargeEnough) }
    {
        if bytes.len() % 8 != 0 {
            return Err(Error::from(ErrorKind::BufferNotLargeEnough));
        }
        self.write_piece(bytes)
    }
}
