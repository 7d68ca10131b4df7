//! Tables of messages, read in their forms into the front of a buffer.
ghost use Rattle.std.specs.Prelude.{◌≡◌, ℕ, Option, ◌+◌, ◌*◌, ◌/◌, ◌%◌, ◌^◌, ◌<◌, ◌≤◌, [], ◌∷◌, length, take, drop, IfOk, IfErr, OnOk, OnErr};
ghost use Rattle.std.specs.Int.{from_le_bytes, w64};
ghost use Rattle.capnp_units.specs.declared.kinds.ErrorKind.{ErrorKind};
ghost use Rattle.capnp_units.specs.Segments.{whole_words};
ghost use Rattle.capnp_stream_io.specs.Counting.{Counts};
ghost use Rattle.capnp_stream.specs.Pieces.{TakesPiece, TakesPieceStart, IsPieceFault, IsPieceKind};
ghost use Rattle.capnp_stream.specs.Frames.{TellsFault, TakesStart, IsReadKind};
ghost use Rattle.capnp_stream.specs.Flat.{table_bytes};
ghost use Rattle.capnp_stream.specs.Lent.{IsFillKind};

use crate::forms::MessageForm;
use crate::frames::{HALF, SEGMENTS_COUNT_LIMIT};
use capnp_stream_io::traits::BufRead;
use capnp_units::errors::{Error, Result};
use capnp_units::kinds::ErrorKind;

/// The number of bytes of the longest table.
pub(crate) const LONGEST_TABLE: usize = 4 * SEGMENTS_COUNT_LIMIT;

/// Reads a piece into the first `len` bytes of a buffer.
pub(crate) fn fill_front<F: MessageForm, R: BufRead>(
    source: &mut R,
    buffer: &mut [u8],
    len: usize,
) -> Result<()>
    requires whole { len % 8 ≡ 0 }
    requires fits { len ≤ length buffer.old }
    ensures ok { OnOk result (TakesPiece F.reader (R.remaining source.old) (R.remaining source.new)
        (whole_words (take len buffer.new))) }
    ensures kind { IfErr result
        (λ e. IsPieceFault F.reader (len / 8) (R.remaining source.old) e.kind) }
    ensures own { IfErr result (λ e. IsPieceKind F.faults e.kind) }
    ensures part { OnErr result
        (TakesPieceStart F.reader (len / 8) (R.remaining source.old) (R.remaining source.new)) }
    ensures count { Counts result (R.failures source.old) (R.failures source.new) }
{
    let (front, _) = buffer.split_at_mut(len);
    F::read_piece(source, front)
}

/// Reads the first word of a table into the front of a buffer, and returns the number of segments
/// that it counts, from 1 to 511.
pub(crate) fn fill_count<F: MessageForm, R: BufRead>(
    source: &mut R,
    buffer: &mut [u8],
) -> Result<usize>
    requires { 8 ≤ length buffer.old }
    ensures few { IfOk result (λ n. (0 < n) × (n ≤ 511)) }
    ensures count { IfOk result (λ n. n ≡ from_le_bytes w64 buffer.new % 2 ^ 32 + 1) }
    ensures first { IfOk result (λ n. TakesPiece F.reader (R.remaining source.old)
        (R.remaining source.new) (from_le_bytes w64 buffer.new ∷ [])) }
    ensures refused { (limit : Option ℕ)
        → TellsFault F.reader limit (R.remaining source.old) result }
    ensures read_kind { IfErr result (λ e. IsReadKind F.faults e.kind) }
    ensures fill_kind { IfErr result (λ e. IsFillKind F.faults e.kind) }
    ensures part { (limit : Option ℕ) → OnErr result
        (TakesStart F.reader limit (R.remaining source.old) (R.remaining source.new)) }
    ensures failures { Counts result (R.failures source.old) (R.failures source.new) }
{
    let mut first = [0u8; 8];
    F::read_piece(source, &mut first)?;
    let word = u64::from_le_bytes(first);
    let count = (word % HALF) as usize + 1;
    if count >= SEGMENTS_COUNT_LIMIT {
        return Err(Error::from(ErrorKind::InvalidNumberOfSegments));
    }
    let (front, _) = buffer.split_at_mut(8);
    front.copy_from_slice(&first);
    Ok(count)
}

/// Reads the rest of a table of `count` segments into a buffer, after its first word.
pub(crate) fn fill_others<F: MessageForm, R: BufRead>(
    source: &mut R,
    buffer: &mut [u8],
    count: usize,
) -> Result<()>
    requires few { count ≤ 511 }
    requires there { table_bytes count ≤ length buffer.old }
    ensures kept { take 8 buffer.new ≡ take 8 buffer.old }
    ensures ok { OnOk result (TakesPiece F.reader (R.remaining source.old) (R.remaining source.new)
        (whole_words (take (8 * (count / 2)) (drop 8 buffer.new)))) }
    ensures kind { IfErr result
        (λ e. IsPieceFault F.reader (count / 2) (R.remaining source.old) e.kind) }
    ensures own { IfErr result (λ e. IsPieceKind F.faults e.kind) }
    ensures part { OnErr result
        (TakesPieceStart F.reader (count / 2) (R.remaining source.old) (R.remaining source.new)) }
    ensures failures { Counts result (R.failures source.old) (R.failures source.new) }
{
    let (_, behind) = buffer.split_at_mut(8);
    fill_front::<F, R>(source, behind, 8 * (count / 2))
}
