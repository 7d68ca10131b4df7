//! The messages of a stream's pieces, written.
ghost use Rattle.std.specs.Prelude.{All};
ghost use Rattle.capnp_stream_io.specs.Writes.{Writes, sink_seen};
ghost use Rattle.hagzimot_salvage.specs.Pieces.{IsWithin, kept_of, kept_bytes};

use crate::pieces::Piece;
use capnp_stream_io::traits::Write;
use capnp_units::errors::Result;

/// Writes the messages of a piece.
fn write_kept<W: Write>(out: &mut W, bytes: &[u8], piece: Piece) -> Result<()>
    requires { IsWithin bytes.now piece }
    ensures { Writes W.may_grow (kept_of bytes.now piece)
        (sink_seen W.contents W.failures W.room out.old) result
        (sink_seen W.contents W.failures W.room out.new) }
{
    match piece {
        Piece::Messages { at, end, .. } => out.write_all(&bytes[at..end]),
        Piece::Gap { .. } => Ok(()),
    }
}

/// Writes the messages of the pieces, in order and byte for byte as they are in the stream. After a
/// refusal a beginning of them was written.
pub fn write_messages<W: Write>(out: &mut W, bytes: &[u8], pieces: &[Piece]) -> Result<()>
    requires { All (IsWithin bytes.now) pieces.now }
    ensures { Writes W.may_grow (kept_bytes bytes.now pieces.now)
        (sink_seen W.contents W.failures W.room out.old) result
        (sink_seen W.contents W.failures W.room out.new) }
{
    for piece in pieces {
        write_kept(out, bytes, *piece)?;
    }
    Ok(())
}
