//! Messages that are read into a buffer of the caller, which take no memory.
ghost use Rattle.std.specs.Prelude.{◌≡◌, ◌≤◌, ◌+◌, ◌*◌, ◌/◌, ◌%◌, ◌^◌, ◌<◌, true, length, sum, IfOk, IfErr, OnOk, OnErr};
ghost use Rattle.std.specs.Int.{from_le_bytes, w64};
ghost use Rattle.capnp_units.specs.declared.kinds.ErrorKind.{ErrorKind};
ghost use Rattle.capnp_units.specs.Segments.{words_in};
ghost use Rattle.capnp_model.specs.Messages.{within};
ghost use Rattle.capnp_stream_io.specs.Counting.{Counts};
ghost use Rattle.capnp_stream.specs.Pieces.{IsPieceKind};
ghost use Rattle.capnp_stream.specs.Frames.{TellsFault, TakesMessage, TakesStart, TakesTable, TakesBody, IsPieceRefusal};
ghost use Rattle.capnp_stream.specs.Flat.{table_lengths, frame_segments, CountsTable, Describes};
ghost use Rattle.capnp_stream.specs.Lent.{HoldsMessage, TellsNeed, LacksBetweenPieces, IsFillKind};
ghost use Rattle.capnp_stream.specs.Reading.{source_seen};
ghost use Rattle.capnp_stream.specs.Filling.{TriesFilling, FillsMessage};

use crate::buffers::{NoAllocBufferSegments, NoAllocSliceSegments};
use crate::flat::{NoAllocSegmentTableInfo, words_before};
use crate::forms::MessageForm;
use crate::frames::{is_at_end, is_within};
use crate::tables::{fill_count, fill_front, fill_others};
use capnp_stream_io::traits::BufRead;
use capnp_units::errors::{Error, Result};
use capnp_units::kinds::ErrorKind;

/// Reads a table into the front of a buffer, and returns the number of its segments, from 1 to 511.
fn fill_table<F: MessageForm, R: BufRead>(
    source: &mut R,
    buffer: &mut [u8],
    limit: Option<usize>,
) -> Result<usize>
    ensures count { IfOk result (CountsTable buffer.new) }
    ensures table { IfOk result (λ n. TakesTable F.reader limit (R.remaining source.old)
        (R.remaining source.new) (table_lengths n buffer.new)) }
    ensures refused { TellsFault F.reader limit (R.remaining source.old) result }
    ensures short { TellsNeed F.reader limit (length buffer.old) (R.remaining source.old) result }
    ensures kind { IfErr result (λ e. IsFillKind F.faults e.kind) }
    ensures part { OnErr result
        (TakesStart F.reader limit (R.remaining source.old) (R.remaining source.new)) }
    ensures room { LacksBetweenPieces F.reader limit (R.remaining source.old)
        (R.remaining source.new) result }
    ensures failures { Counts result (R.failures source.old) (R.failures source.new) }
{
    if buffer.len() < 8 {
        return Err(Error::from(ErrorKind::BufferNotLargeEnough));
    }
    let count = fill_count::<F, R>(source, buffer)?;
    if buffer.len() < 8 * (count / 2 + 1) {
        return Err(Error::from(ErrorKind::BufferNotLargeEnough));
    }
    fill_others::<F, R>(source, buffer, count)?;
    Ok(count)
}

/// Reads the segments that a table describes into the buffer that begins with it. The table stays.
pub(crate) fn fill_body<F: MessageForm, R: BufRead>(
    source: &mut R,
    buffer: &mut [u8],
    info: NoAllocSegmentTableInfo,
) -> Result<()>
    requires { Describes info buffer.old }
    ensures described { Describes info buffer.new }
    ensures table { table_lengths info.segments_count buffer.new
        ≡ table_lengths info.segments_count buffer.old }
    ensures body { OnOk result (TakesBody F.reader (R.remaining source.old)
        (R.remaining source.new) (table_lengths info.segments_count buffer.old)
        (words_in (frame_segments info.segments_count buffer.new))) }
    ensures cut { IfErr result (λ e. IsPieceRefusal F.reader (info.total_segments_length_bytes / 8)
        (R.remaining source.old) (R.remaining source.new) e.kind) }
    ensures own { IfErr result (λ e. IsPieceKind F.faults e.kind) }
    ensures failures { Counts result (R.failures source.old) (R.failures source.new) }
{
    let (_, body) = buffer.split_at_mut(info.segment_table_length_bytes);
    fill_front::<F, R>(source, body, info.total_segments_length_bytes)
}

/// Reads the next message, its table and then its segments, into the front of a buffer.
fn fill_message<F: MessageForm, R: BufRead>(
    source: &mut R,
    buffer: &mut [u8],
    limit: Option<usize>,
) -> Result<NoAllocSegmentTableInfo>
    ensures message { IfOk result (HoldsMessage F.reader limit (R.remaining source.old)
        (R.remaining source.new) buffer.new) }
    ensures refused { TellsFault F.reader limit (R.remaining source.old) result }
    ensures short { TellsNeed F.reader limit (length buffer.old) (R.remaining source.old) result }
    ensures kind { IfErr result (λ e. IsFillKind F.faults e.kind) }
    ensures part { OnErr result
        (TakesStart F.reader limit (R.remaining source.old) (R.remaining source.new)) }
    ensures room { LacksBetweenPieces F.reader limit (R.remaining source.old)
        (R.remaining source.new) result }
    ensures failures { Counts result (R.failures source.old) (R.failures source.new) }
{
    let count = fill_table::<F, R>(source, buffer, limit)?;
    let table = 8 * (count / 2 + 1);
    let total = words_before(buffer, count);
    if !is_within(total, limit) {
        return Err(Error::from(ErrorKind::MessageTooLarge));
    }
    if buffer.len() - table < 8 * total {
        return Err(Error::from(ErrorKind::BufferNotLargeEnough));
    }
    let info = NoAllocSegmentTableInfo {
        segments_count: count,
        segment_table_length_bytes: table,
        total_segments_length_bytes: 8 * total,
    };
    fill_body::<F, R>(source, buffer, info)?;
    Ok(info)
}

/// Returns the segments of the next message in a form, or `None` if no byte is left. Its table and
/// its segments are unpacked in the buffer.
///
/// A message of more words than the limit is refused. `BufferNotLargeEnough`: a byte is left, and
/// the buffer has fewer bytes than the table and the segments unpacked. A buffer of fewer than 8
/// bytes is refused before any byte is taken. After a refusal less than a message was taken, and no
/// byte after the first that is at fault.
pub fn try_read_message_no_alloc_in<'a, F: MessageForm, R: BufRead>(
    source: &mut R,
    buffer: &'a mut [u8],
    limit: Option<usize>,
) -> Result<Option<NoAllocSliceSegments<'a>>>
    ensures { TriesFilling F.reader F.faults limit (length buffer.old)
        (source_seen R.remaining R.failures source.old) result
        (source_seen R.remaining R.failures source.new) }
{
    if is_at_end(source)? {
        return Ok(None);
    }
    let info = fill_message::<F, R>(source, buffer, limit)?;
    Ok(Some(NoAllocBufferSegments::from_segment_table_info(&*buffer, info)))
}

/// Returns the segments of the next message in a form, which are unpacked in the buffer after their
/// table. `PrematureEndOfFile`: no byte is left.
///
/// It is otherwise refused like `try_read_message_no_alloc_in`.
pub fn read_message_no_alloc_in<'a, F: MessageForm, R: BufRead>(
    source: &mut R,
    buffer: &'a mut [u8],
    limit: Option<usize>,
) -> Result<NoAllocSliceSegments<'a>>
    ensures { FillsMessage F.reader F.faults limit (length buffer.old)
        (source_seen R.remaining R.failures source.old) result
        (source_seen R.remaining R.failures source.new) }
{
    if is_at_end(source)? {
        return Err(Error::from(ErrorKind::PrematureEndOfFile));
    }
    let info = fill_message::<F, R>(source, buffer, limit)?;
    Ok(NoAllocBufferSegments::from_segment_table_info(&*buffer, info))
}
