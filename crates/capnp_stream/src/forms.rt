//! The forms in which messages are written on streams.
ghost use Rattle.std.specs.Prelude.{◌≡◌, ◌/◌, ◌%◌, length, IfOk, IfErr, OnOk, OnErr};
ghost use Rattle.capnp_units.specs.declared.kinds.ErrorKind.{ErrorKind};
ghost use Rattle.capnp_model.specs.Bytes.{bytes_of_words};
ghost use Rattle.capnp_model.specs.Messages.{Reader, Writer, plain_words};
ghost use Rattle.capnp_stream_io.specs.Counting.{Counts};
ghost use Rattle.capnp_stream.specs.Pieces.{ReadsFronts, TakesPiece, TakesPieceStart, IsPieceFault, IsPieceKind, is_framed_fault};
ghost use Rattle.capnp_stream.specs.Segments.{whole_words};
ghost use Rattle.capnp_stream.specs.Shown.{TakesShown};
ghost use Rattle.std.specs.Io.KnownBytes.{Keeps};
ghost use Rattle.capnp_stream_io.specs.Writes.{Writes, sink_seen};

use crate::flat::NoAllocSegmentTableInfo;
use crate::shown::lay_message;
use capnp_stream_io::traits::{BufRead, Read, Write};
use capnp_units::errors::Result;

/// A form in which words are written on streams, a piece at a time. The pieces of a message that is
/// read are its first word, the rest of its table, and all segments together. The pieces of a
/// message that is written are the first two, and each segment.
pub trait MessageForm {
    /// The reading of a piece from the front of bytes.
    ghost reader: { Reader };

    /// The writing of a piece.
    ghost writer: { Writer };

    /// The kinds of faults of bytes that are not a piece.
    ghost faults: { ErrorKind → Type 0 };

    /// Reads the piece that fills `buf`, which has whole words.
    ///
    /// After a refusal less than the piece was taken, and no byte after the first that is at fault.
    /// `Device`: the source failed; any other kind says why the bytes that are left don't begin
    /// with such a piece.
    fn read_piece<R: BufRead>(source: &mut R, buf: &mut [u8]) -> Result<()>
        requires { length buf.old % 8 ≡ 0 }
        ensures ok { OnOk result (TakesPiece reader (R.remaining source.old)
            (R.remaining source.new) (whole_words buf.new)) }
        ensures kind { IfErr result
            (λ e. IsPieceFault reader (length buf.old / 8) (R.remaining source.old) e.kind) }
        ensures own { IfErr result (λ e. IsPieceKind faults e.kind) }
        ensures part { OnErr result (TakesPieceStart reader (length buf.old / 8)
            (R.remaining source.old) (R.remaining source.new)) }
        ensures count { Counts result (R.failures source.old) (R.failures source.new) };

    /// Reads a message of at most n words to the front of a buffer, if the source shows every byte
    /// of the message and the buffer has room. It returns the layout of the message there.
    /// Otherwise, or if the form can't do this, it returns `None`: the message is to be read piece
    /// by piece.
    ///
    /// Only a message that is read is taken. `Device`: the source failed.
    #[inline(always)]
    fn read_shown<R: BufRead>(
        source: &mut R,
        buffer: &mut [u8],
        limit: Option<usize>,
    ) -> Result<Option<NoAllocSegmentTableInfo>>
        ensures message { IfOk result (TakesShown reader limit (R.remaining source.old)
            (R.remaining source.new) buffer.new) }
        ensures kept { OnErr result (Keeps (R.remaining source.old) (R.remaining source.new)) }
        ensures refusal { IfErr result (λ e. e.kind ≡ ErrorKind.Device) }
        ensures count { Counts result (R.failures source.old) (R.failures source.new) }
    {
        Ok(None)
    }

    /// Writes the piece of these bytes, which are whole words. After a refusal a beginning of the
    /// piece was written.
    fn write_piece<W: Write>(out: &mut W, bytes: &[u8]) -> Result<()>
        requires { length bytes.now % 8 ≡ 0 }
        ensures { Writes W.may_grow (writer (whole_words bytes.now))
            (sink_seen W.contents W.failures W.room out.old) result
            (sink_seen W.contents W.failures W.room out.new) };

    /// Reading takes a front of the bytes.
    ghost fronts: { ReadsFronts Self.reader };
}

/// Words as they are, the lowest byte of each first.
#[derive(Clone, Copy, Debug)]
pub struct Framed;

impl MessageForm for Framed {
    ghost use Rattle.capnp_stream.specs.Fronts.{plain_words_fronts};

    ghost reader = { plain_words };

    ghost writer = { bytes_of_words };

    ghost faults = { is_framed_fault };

    fn read_piece<R: BufRead>(source: &mut R, buf: &mut [u8]) -> Result<()> {
        source.read_exact(buf)
    }

    #[inline(always)]
    fn read_shown<R: BufRead>(
        source: &mut R,
        buffer: &mut [u8],
        limit: Option<usize>,
    ) -> Result<Option<NoAllocSegmentTableInfo>> {
        let Some(info) = lay_message(source.fill_buf()?, buffer, limit) else {
            return Ok(None);
        };
        source.consume(info.segment_table_length_bytes + info.total_segments_length_bytes);
        Ok(Some(info))
    }

    fn write_piece<W: Write>(out: &mut W, bytes: &[u8]) -> Result<()> {
        out.write_all(bytes)
    }

    ghost fronts = { plain_words_fronts };
}
