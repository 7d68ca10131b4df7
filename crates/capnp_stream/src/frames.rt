//! Messages of any number of segments, read in their forms.
ghost use Rattle.std.specs.Prelude.{◌≡◌, ◌≤◌, ◌*◌, ◌^◌, ◌<◌, ◌↔◌, [], length, sum, IfSome, IfOk, IfErr, OnErr, IsTrue};
ghost use Rattle.std.specs.List.{concat};
ghost use Rattle.std.specs.Io.KnownBytes.{Keeps};
ghost use Rattle.capnp_units.specs.declared.kinds.ErrorKind.{ErrorKind};
ghost use Rattle.capnp_model.specs.Messages.{within};
ghost use Rattle.capnp_model.specs.Spelling.{AreShort, CanSpell};
ghost use Rattle.capnp_stream_io.specs.Counting.{Counts};
ghost use Rattle.capnp_stream.specs.Pieces.{TakesPiece};
ghost use Rattle.capnp_model.specs.Bytes.{AreBytes};
ghost use Rattle.capnp_stream.specs.Segments.{whole_words, lengths_of, owned_bytes, bytes_of_segments, segments_of};
ghost use Rattle.capnp_stream.specs.Frames.{TellsFault, TakesMessage, TakesStart, TakesTable, IsReadKind, IsPieceRefusal};
ghost use Rattle.capnp_stream.specs.Reading.{WantsBetweenPieces, TriesMessage, ReadsMessage, source_seen};
ghost use Rattle.capnp_stream.specs.Writing.{AreWritable};

use crate::forms::MessageForm;
use crate::segments::{OwnedSegments, SegmentLengthsBuilder};
use crate::tables::{LONGEST_TABLE, fill_count, fill_others};
use capnp_stream_io::traits::{BufRead, Read};
use capnp_units::errors::{Error, Result};
use capnp_units::kinds::ErrorKind;
use std::alloc::Global;

/// A message has fewer segments than this.
pub const SEGMENTS_COUNT_LIMIT: usize = 512;

/// The number of values of a half of a word.
pub const HALF: u64 = 1 << 32;

/// Returns whether no byte is left. Nothing is taken.
pub(crate) fn is_at_end<R: BufRead>(source: &mut R) -> Result<bool>
    ensures at { IfOk result (λ b. IfSome (R.remaining source.old) (λ xs. IsTrue b ↔ (xs ≡ []))) }
    ensures kept { Keeps (R.remaining source.old) (R.remaining source.new) }
    ensures refusal { IfErr result (λ e. e.kind ≡ ErrorKind.Device) }
    ensures count { Counts result (R.failures source.old) (R.failures source.new) }
{
    let shown = source.fill_buf()?;
    Ok(shown.is_empty())
}

/// Returns the next piece of n words, as bytes. If memory is lacking, no byte is taken.
fn take_piece<F: MessageForm, R: BufRead>(
    alloc: Global,
    source: &mut R,
    words: usize,
) -> Result<Vec<u8>>
    requires { 8 * words < 2 ^ 64 }
    ensures len { IfOk result (λ v. length v.items ≡ 8 * words) }
    ensures ok { IfOk result (λ v. TakesPiece F.reader (R.remaining source.old)
        (R.remaining source.new) (whole_words v.items)) }
    ensures cut { IfErr result (λ e. IsPieceRefusal F.reader words (R.remaining source.old)
        (R.remaining source.new) e.kind) }
    ensures own { IfErr result (λ e. IsReadKind F.faults e.kind) }
    ensures count { Counts result (R.failures source.old) (R.failures source.new) }
{
    let mut bytes = Vec::new(alloc);
    bytes.resize(8 * words, 0)?;
    F::read_piece(source, &mut bytes)?;
    Ok(bytes)
}

/// A slice of bytes holds numbers of a byte.
pub(crate) fn are_bytes(bytes: &[u8])
    ensures { AreBytes bytes.now }
{}

/// Returns whether n words are within the limit.
pub(crate) fn is_within(total: usize, limit: Option<usize>) -> bool
    ensures { result ≡ within total limit }
{
    match limit {
        Some(most) => total <= most,
        None => true,
    }
}

/// Returns the lengths of the segments of the next message, from 1 to 511. Memory for them is
/// requested before the last byte of the table is taken.
fn read_table<F: MessageForm, R: BufRead>(
    alloc: Global,
    source: &mut R,
    limit: Option<usize>,
) -> Result<SegmentLengthsBuilder>
    ensures few { IfOk result (λ t. (0 < length (lengths_of t)) × (length (lengths_of t) ≤ 511)) }
    ensures short { IfOk result (λ t. AreShort (lengths_of t)) }
    ensures bound { IfOk result (λ t. sum (lengths_of t) < 2 ^ 41) }
    ensures table { IfOk result (λ t. TakesTable F.reader limit (R.remaining source.old)
        (R.remaining source.new) (lengths_of t)) }
    ensures refused { TellsFault F.reader limit (R.remaining source.old) result }
    ensures kind { IfErr result (λ e. IsReadKind F.faults e.kind) }
    ensures part { OnErr result
        (TakesStart F.reader limit (R.remaining source.old) (R.remaining source.new)) }
    ensures wanted { WantsBetweenPieces F.reader limit (R.remaining source.old)
        (R.remaining source.new) result }
    ensures count { Counts result (R.failures source.old) (R.failures source.new) }
{
    let mut table = SegmentLengthsBuilder::with_capacity(alloc, 1)?;
    let mut bytes = [0u8; LONGEST_TABLE];
    let count = fill_count::<F, R>(source, &mut bytes)?;
    table.reserve(count)?;
    fill_others::<F, R>(source, &mut bytes, count)?;
    are_bytes(&bytes);
    table.fill(&bytes, count);
    Ok(table)
}

/// Returns the segments of the next message, if a byte is left.
fn read_segments<F: MessageForm, R: BufRead>(
    alloc: Global,
    source: &mut R,
    limit: Option<usize>,
) -> Result<OwnedSegments>
    ensures message { IfOk result (λ m. TakesMessage F.reader limit (R.remaining source.old)
        (R.remaining source.new) (segments_of m)) }
    ensures kept { IfOk result (λ m. CanSpell limit (segments_of m)) }
    ensures joined { IfOk result (λ m. owned_bytes m ≡ concat (bytes_of_segments m)) }
    ensures writable { IfOk result (λ m. AreWritable (bytes_of_segments m)) }
    ensures refused { TellsFault F.reader limit (R.remaining source.old) result }
    ensures kind { IfErr result (λ e. IsReadKind F.faults e.kind) }
    ensures part { OnErr result
        (TakesStart F.reader limit (R.remaining source.old) (R.remaining source.new)) }
    ensures wanted { WantsBetweenPieces F.reader limit (R.remaining source.old)
        (R.remaining source.new) result }
    ensures count { Counts result (R.failures source.old) (R.failures source.new) }
{
    let table = read_table::<F, R>(alloc, source, limit)?;
    let total = table.total_words();
    if !is_within(total, limit) {
        return Err(Error::from(ErrorKind::MessageTooLarge));
    }
    let bytes = take_piece::<F, R>(alloc, source, total)?;
    are_bytes(&bytes);
    Ok(OwnedSegments::new(bytes, table))
}

/// Returns the segments of the next message in a form, or `None` if no byte is left.
///
/// A message of more words than the limit is refused. `OutOfMemory`: a byte is left, and the memory
/// for the table or the segments was refused. After a refusal less than a message was taken, and no
/// byte after the first that is at fault.
pub fn try_read_message_in<F: MessageForm, R: BufRead>(
    alloc: Global,
    source: &mut R,
    limit: Option<usize>,
) -> Result<Option<OwnedSegments>>
    ensures { TriesMessage F.reader F.faults limit
        (source_seen R.remaining R.failures source.old) result
        (source_seen R.remaining R.failures source.new) }
{
    if is_at_end(source)? {
        return Ok(None);
    }
    let segments = read_segments::<F, R>(alloc, source, limit)?;
    Ok(Some(segments))
}

/// Returns the segments of the next message in a form. `PrematureEndOfFile`: no byte is left.
pub fn read_message_in<F: MessageForm, R: BufRead>(
    alloc: Global,
    source: &mut R,
    limit: Option<usize>,
) -> Result<OwnedSegments>
    ensures { ReadsMessage F.reader F.faults limit
        (source_seen R.remaining R.failures source.old) result
        (source_seen R.remaining R.failures source.new) }
{
    match try_read_message_in::<F, R>(alloc, source, limit)? {
        Some(message) => Ok(message),
        None => Err(Error::from(ErrorKind::PrematureEndOfFile)),
    }
}
