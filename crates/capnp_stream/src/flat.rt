//! Tables of framed messages at the front of a buffer.
ghost use Rattle.std.specs.Prelude.{◌≡◌, ◌≢◌, ◌≤◌, ◌<◌, ◌↔◌, ◌+◌, ◌*◌, ◌/◌, ◌^◌, length, drop, sum, slice_index, IsTrue, Ok, Err, IfOk, IfErr};
ghost use Rattle.capnp_units.specs.Errors.{kind_of};
ghost use Rattle.capnp_units.specs.declared.kinds.ErrorKind.{ErrorKind};
ghost use Rattle.capnp_units.specs.Segments.{whole_words, words_in};
ghost use Rattle.capnp_model.specs.Messages.{halves, flat_at};
ghost use Rattle.capnp_stream.specs.Flat.{table_lengths, table_bytes, frame_segments, Describes};

use crate::frames::{HALF, SEGMENTS_COUNT_LIMIT, is_within};
use capnp_units::errors::{Error, Result};
use capnp_units::kinds::ErrorKind;

/// The layout of a framed message at the front of a buffer.
#[derive(Clone, Copy, Debug, PartialEq, Eq)]
pub struct NoAllocSegmentTableInfo {
    /// The number of segments.
    pub segments_count: usize,
    /// The number of bytes of the table, which begins at the front of the buffer.
    pub segment_table_length_bytes: usize,
    /// The number of bytes of all segments together.
    pub total_segments_length_bytes: usize,
}

impl NoAllocSegmentTableInfo {
    /// Returns whether the buffer begins with this table, of 1 to 511 segments, and then has the
    /// bytes of its segments.
    pub fn describes(&self, buffer: &[u8]) -> bool
        ensures { IsTrue result ↔ Describes self.now buffer.now }
    {
        match info_at(buffer, None) {
            Ok(found) => found == *self,
            Err(_) => false,
        }
    }
}

/// Returns the length in words of a segment, from the table at the front of bytes.
pub(crate) fn length_in(bytes: &[u8], id: usize) -> usize
    requires few { id ≤ 511 }
    requires there { table_bytes (id + 1) ≤ length bytes.now }
    ensures length { result ≡ slice_index (drop 1 (halves (whole_words bytes.now))) id }
    ensures bound { result < 2 ^ 32 }
{
    let at = 4 * id + 4;
    let length = [bytes[at], bytes[at + 1], bytes[at + 2], bytes[at + 3]];
    u32::from_le_bytes(length) as usize
}

/// Returns the number of words of the first `count` segments together, from the table at the front
/// of bytes.
pub(crate) fn words_before(bytes: &[u8], count: usize) -> usize
    requires few { count ≤ 511 }
    requires there { table_bytes count ≤ length bytes.now }
    ensures total { result ≡ sum (table_lengths count bytes.now) }
    ensures bound { result < 2 ^ 41 }
{
    let mut total = 0;
    for id in 0..count {
        total += length_in(bytes, id);
    }
    total
}

/// Returns the layout of the framed message at the front of bytes.
pub(crate) fn info_at(bytes: &[u8], limit: Option<usize>) -> Result<NoAllocSegmentTableInfo>
    ensures described { IfOk result (λ i. Describes i bytes.now) }
    ensures message { IfOk result (λ i. flat_at limit bytes.now
        ≡ Ok (
          words_in (frame_segments i.segments_count bytes.now),
          drop (i.segment_table_length_bytes + i.total_segments_length_bytes) bytes.now,
        )) }
    ensures refused { IfErr result (λ e. flat_at limit bytes.now ≡ Err (kind_of e.kind)) }
    ensures no_memory { IfErr result (λ e. e.kind ≢ ErrorKind.OutOfMemory) }
{
    if bytes.is_empty() {
        return Err(Error::from(ErrorKind::MessageEndsPrematurely));
    }
    let Some((first, _)) = bytes.split_first_chunk::<8>() else {
        return Err(Error::from(ErrorKind::FailedToFillTheWholeBuffer));
    };
    let word = u64::from_le_bytes(*first);
    let count = (word % HALF) as usize + 1;
    if count >= SEGMENTS_COUNT_LIMIT {
        return Err(Error::from(ErrorKind::InvalidNumberOfSegments));
    }
    let table = 8 * (count / 2 + 1);
    if bytes.len() < table {
        return Err(Error::from(ErrorKind::FailedToFillTheWholeBuffer));
    }
    let total = words_before(bytes, count);
    if !is_within(total, limit) {
        return Err(Error::from(ErrorKind::MessageTooLarge));
    }
    if bytes.len() - table < 8 * total {
        return Err(Error::from(ErrorKind::MessageEndsPrematurely));
    }
    Ok(NoAllocSegmentTableInfo {
        segments_count: count,
        segment_table_length_bytes: table,
        total_segments_length_bytes: 8 * total,
    })
}
