//! Messages that are read one after the other into memory that is kept.
ghost use Rattle.std.specs.Prelude.{◌≡◌, ℕ, List, true, ◌≤◌, ◌+◌, ◌%◌, ◌^◌, ◌<◌, ◌++◌, length, max, sum, IfOk, IfErr, OnOk, OnErr};
ghost use Rattle.std.specs.Borrow.{sem};
ghost use Rattle.std.specs.Int.{from_le_bytes, w64};
ghost use Rattle.capnp_units.specs.declared.kinds.ErrorKind.{ErrorKind};
ghost use Rattle.capnp_units.specs.Segments.{words_in};
ghost use Rattle.capnp_model.specs.Messages.{within};
ghost use Rattle.capnp_stream_io.specs.Counting.{Counts};
ghost use Rattle.capnp_stream.specs.Frames.{TellsFault, TakesMessage, TakesStart, TakesTable, IsReadKind};
ghost use Rattle.capnp_stream.specs.Flat.{table_lengths, frame_segments, Describes};
ghost use Rattle.capnp_stream.specs.Lent.{IsFillKind};
ghost use Rattle.capnp_stream.specs.Reading.{source_seen};
ghost use Rattle.capnp_stream.specs.Kept.{buffer_len, FillsKept, GrowsForTable, HasTableRoom, RestsGrown, TriesMessageInto, TriesTableIn, WantsForLonger};
ghost use Rattle.capnp_stream.specs.Shown.{TakesShown};
ghost use Rattle.std.specs.Io.KnownBytes.{Keeps};

use crate::buffers::{NoAllocBufferSegments, NoAllocSliceSegments};
use crate::flat::{NoAllocSegmentTableInfo, words_before};
use crate::forms::MessageForm;
use crate::frames::{are_bytes, is_at_end, is_within};
use crate::lent::fill_body;
use crate::tables::{LONGEST_TABLE, fill_count, fill_others};
use capnp_stream_io::traits::BufRead;
use capnp_units::errors::{Error, Result};
use capnp_units::kinds::ErrorKind;
use std::alloc::Global;

/// Memory into which messages are read, one after the other. It grows if a message is longer than
/// the earlier ones.
#[derive(Drop)]
pub struct MessageBuffer {
    bytes: Vec<u8>,
}

/// Reads a table into the front of a buffer that has room for the longest, and returns the number
/// of its segments, from 1 to 511.
fn fill_any_table<F: MessageForm, R: BufRead>(
    source: &mut R,
    buffer: &mut [u8],
    limit: Option<usize>,
) -> Result<usize>
    requires { LONGEST_TABLE ≤ length buffer.old }
    ensures few { IfOk result (λ n. (0 < n) × (n ≤ 511)) }
    ensures count { IfOk result (λ n. n ≡ from_le_bytes w64 buffer.new % 2 ^ 32 + 1) }
    ensures table { IfOk result (λ n. TakesTable F.reader limit (R.remaining source.old)
        (R.remaining source.new) (table_lengths n buffer.new)) }
    ensures refused { TellsFault F.reader limit (R.remaining source.old) result }
    ensures read_kind { IfErr result (λ e. IsReadKind F.faults e.kind) }
    ensures fill_kind { IfErr result (λ e. IsFillKind F.faults e.kind) }
    ensures part { OnErr result
        (TakesStart F.reader limit (R.remaining source.old) (R.remaining source.new)) }
    ensures failures { Counts result (R.failures source.old) (R.failures source.new) }
{
    let count = fill_count::<F, R>(source, buffer)?;
    fill_others::<F, R>(source, buffer, count)?;
    Ok(count)
}

impl MessageBuffer {
    /// Makes a buffer that has taken no memory yet.
    pub fn new(alloc: Global) -> MessageBuffer
        ensures { buffer_len result ≡ 0 }
    {
        MessageBuffer {
            bytes: Vec::new(alloc),
        }
    }

    /// Grows to n bytes if it has fewer. `OutOfMemory`: it has fewer, and the memory was refused.
    /// The bytes that were there stay in front.
    fn grow_to(&mut self, len: usize) -> Result<()>
        ensures front { (more : List ℕ) × (self.new.bytes.items ≡ self.old.bytes.items ++ more) }
        ensures room { OnOk result (len ≤ buffer_len self.new) }
        ensures most { OnOk result (buffer_len self.new ≤ max (buffer_len self.old) len) }
        ensures stays { OnErr result (buffer_len self.new ≡ buffer_len self.old) }
        ensures refusal { IfErr result
            (λ e. (e.kind ≡ ErrorKind.OutOfMemory) × (buffer_len self.old < len)) }
    {
        if self.bytes.len() < len {
            self.bytes.resize(len, 0)?;
        }
        Ok(())
    }

    /// Reads the next message, its table and then its segments, into the front.
    fn fill<F: MessageForm, R: BufRead>(
        &mut self,
        source: &mut R,
        limit: Option<usize>,
    ) -> Result<NoAllocSegmentTableInfo>
        ensures { FillsKept F.reader F.faults limit self.old self.new
            (source_seen R.remaining R.failures source.old) result
            (source_seen R.remaining R.failures source.new) }
    {
        self.grow_to(LONGEST_TABLE)?;
        let count = fill_any_table::<F, R>(source, &mut self.bytes, limit)?;
        let table = 8 * (count / 2 + 1);
        let total = words_before(&self.bytes, count);
        if !is_within(total, limit) {
            return Err(Error::from(ErrorKind::MessageTooLarge));
        }
        self.grow_to(table + 8 * total)?;
        let info = NoAllocSegmentTableInfo {
            segments_count: count,
            segment_table_length_bytes: table,
            total_segments_length_bytes: 8 * total,
        };
        fill_body::<F, R>(source, &mut self.bytes, info)?;
        Ok(info)
    }

    /// Reads the next message to the front if the source shows every byte of it, and the buffer has
    /// room for the message and for the longest table. Otherwise it returns `None`, and nothing is
    /// taken.
    #[inline(always)]
    fn read_shown<F: MessageForm, R: BufRead>(
        &mut self,
        source: &mut R,
        limit: Option<usize>,
    ) -> Result<Option<NoAllocSegmentTableInfo>>
        ensures message { IfOk result (TakesShown F.reader limit (R.remaining source.old)
            (R.remaining source.new) self.new.bytes.items) }
        ensures len { buffer_len self.new ≡ buffer_len self.old }
        ensures room { HasTableRoom (buffer_len self.new) result }
        ensures kept { OnErr result (Keeps (R.remaining source.old) (R.remaining source.new)) }
        ensures refusal { IfErr result (λ e. e.kind ≡ ErrorKind.Device) }
        ensures count { Counts result (R.failures source.old) (R.failures source.new) }
    {
        if self.bytes.len() < LONGEST_TABLE {
            return Ok(None);
        }
        F::read_shown(source, &mut self.bytes, limit)
    }

    /// Reads the next message to the front piece by piece, or returns `None` if no byte is left.
    #[inline(never)]
    fn read_pieces<F: MessageForm, R: BufRead>(
        &mut self,
        source: &mut R,
        limit: Option<usize>,
    ) -> Result<Option<NoAllocSegmentTableInfo>>
        ensures message { TriesTableIn F.reader F.faults limit self.new.bytes.items
            (source_seen R.remaining R.failures source.old) result
            (source_seen R.remaining R.failures source.new) }
        ensures longer { WantsForLonger F.reader limit (buffer_len self.old)
            (R.remaining source.old) result }
        ensures grown { buffer_len self.old ≤ buffer_len self.new }
        ensures most { GrowsForTable F.reader limit (R.remaining source.old)
            (buffer_len self.old) (buffer_len self.new) result }
        ensures room { HasTableRoom (buffer_len self.new) result }
    {
        if is_at_end(source)? {
            return Ok(None);
        }
        let info = self.fill::<F, R>(source, limit)?;
        are_bytes(&self.bytes);
        Ok(Some(info))
    }

    /// Reads the next message to the front, whole if the source shows it, otherwise piece by piece.
    /// It returns `None` if no byte is left.
    #[inline(always)]
    fn read_next<F: MessageForm, R: BufRead>(
        &mut self,
        source: &mut R,
        limit: Option<usize>,
    ) -> Result<Option<NoAllocSegmentTableInfo>>
        ensures message { TriesTableIn F.reader F.faults limit self.new.bytes.items
            (source_seen R.remaining R.failures source.old) result
            (source_seen R.remaining R.failures source.new) }
        ensures longer { WantsForLonger F.reader limit (buffer_len self.old)
            (R.remaining source.old) result }
        ensures grown { buffer_len self.old ≤ buffer_len self.new }
        ensures most { GrowsForTable F.reader limit (R.remaining source.old)
            (buffer_len self.old) (buffer_len self.new) result }
        ensures room { HasTableRoom (buffer_len self.new) result }
    {
        if let Some(info) = self.read_shown::<F, R>(source, limit)? {
            are_bytes(&self.bytes);
            return Ok(Some(info));
        }
        self.read_pieces::<F, R>(source, limit)
    }

    /// Returns the segments of the next message in a form, or `None` if no byte is left. They are
    /// in the buffer until the next message is read into it.
    ///
    /// A message of more words than the limit is refused. `OutOfMemory`: a byte is left, the buffer
    /// has fewer bytes than the longest table or than the message unpacked, and the memory for them
    /// was refused. So a buffer into which a message was read takes no memory for messages that are
    /// not longer. After a refusal less than a message was taken, and no byte after the first that
    /// is at fault. The buffer never shrinks, and grows to at most the bytes of the longest table
    /// or of the message.
    #[inline(always)]
    pub fn try_read_message<F: MessageForm, R: BufRead>(
        &mut self,
        source: &mut R,
        limit: Option<usize>,
    ) -> Result<Option<NoAllocSliceSegments<'_>>>
        ensures message { TriesMessageInto F.reader F.faults limit
            (source_seen R.remaining R.failures source.old) result
            (source_seen R.remaining R.failures source.new) }
        ensures longer { WantsForLonger F.reader limit (buffer_len self.old)
            (R.remaining source.old) result }
        ensures* grown { sem 𝓛 (RestsGrown F.reader limit (R.remaining source.old)
            self.entry result) }
    {
        let Some(info) = self.read_next::<F, R>(source, limit)? else {
            return Ok(None);
        };
        let bytes = self.bytes.as_slice();
        Ok(Some(NoAllocBufferSegments::from_segment_table_info(bytes, info)))
    }
}

/// Returns the segments of the next message in a form, or `None` if no byte is left. They are in
/// the buffer until the next message is read into it.
///
/// It is refused like `MessageBuffer::try_read_message`.
pub fn try_read_message_into<'a, F: MessageForm, R: BufRead>(
    source: &mut R,
    buffer: &'a mut MessageBuffer,
    limit: Option<usize>,
) -> Result<Option<NoAllocSliceSegments<'a>>>
    ensures message { TriesMessageInto F.reader F.faults limit
        (source_seen R.remaining R.failures source.old) result
        (source_seen R.remaining R.failures source.new) }
    ensures longer { WantsForLonger F.reader limit (buffer_len buffer.old)
        (R.remaining source.old) result }
{
    buffer.try_read_message::<F, R>(source, limit)
}
