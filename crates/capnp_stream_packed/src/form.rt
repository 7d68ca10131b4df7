//! The packed form of messages.
ghost use Rattle.std.specs.Prelude.{◌≡◌, ◌/◌, ◌%◌, length, IfErr, OnOk, OnErr};
ghost use Rattle.capnp_model.specs.Packing.{packed, unpacked};
ghost use Rattle.capnp_stream_io.specs.Counting.{Counts};
ghost use Rattle.capnp_stream.specs.Pieces.{TakesPiece, TakesPieceStart, IsPieceFault, IsPieceKind};
ghost use Rattle.capnp_stream.specs.Segments.{whole_words};
ghost use Rattle.capnp_stream_packed.specs.Streams.{LeavesPiece, is_packed_fault};

use crate::packing::write_words;
use crate::unpacking::read_words;
use capnp_stream::forms::MessageForm;
use capnp_stream_io::traits::{BufRead, Read, Write};
use capnp_units::errors::Result;

/// Words in groups, each a tag byte and the bytes that aren't zero, with runs of zero words and of
/// verbatim words.
///
/// A piece is read in whole groups if the source shows them, otherwise byte by byte, and no byte
/// after it is taken. `PrematureEndOfPackedInput`: a group is cut, its count is missing, or the
/// input ends between two groups. `FailedToFillTheWholeBuffer`: a run of verbatim words is cut, or
/// no byte is left before the first group. `PackedInputDidNotEndCleanlyOnASegmentBoundary`: a run
/// has more words than the piece has left; none of them was read.
///
/// Written groups mark exactly the bytes that aren't zero, and are followed by the longest runs
/// within the piece, of at most 255 words. A run of verbatim words goes on while a word has at most
/// one zero byte.
#[derive(Clone, Copy, Debug)]
pub struct Packed;

impl MessageForm for Packed {
    ghost use Rattle.capnp_stream_packed.specs.Fronts.{unpacked_fronts};

    ghost reader = { unpacked };

    ghost writer = { packed };

    ghost faults = { is_packed_fault };

    /// After a refusal the buffer holds words before the fault, followed by zeros.
    fn read_piece<R: BufRead>(source: &mut R, buf: &mut [u8]) -> Result<()>
        requires { length buf.old % 8 ≡ 0 }
        ensures ok { OnOk result (TakesPiece unpacked (R.remaining source.old)
            (R.remaining source.new) (whole_words buf.new)) }
        ensures kind { IfErr result
            (λ e. IsPieceFault unpacked (length buf.old / 8) (R.remaining source.old) e.kind) }
        ensures own { IfErr result (λ e. IsPieceKind is_packed_fault e.kind) }
        ensures part { OnErr result (TakesPieceStart unpacked (length buf.old / 8)
            (R.remaining source.old) (R.remaining source.new)) }
        ensures count { Counts result (R.failures source.old) (R.failures source.new) }
        ensures left { IfErr result (λ e.
            LeavesPiece (R.remaining source.old) (R.remaining source.new) buf.new e.kind) }
    {
        read_words(source, buf)
    }

    fn write_piece<W: Write>(out: &mut W, bytes: &[u8]) -> Result<()> {
        write_words(out, bytes)
    }

    ghost fronts = { unpacked_fronts };
}
