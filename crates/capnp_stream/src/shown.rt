//! Messages that a source shows whole.
ghost use Rattle.std.specs.Prelude.{IfSome};
ghost use Rattle.capnp_stream.specs.Flat.{Describes};
ghost use Rattle.capnp_stream.specs.Shown.{Lays};

use crate::flat::{NoAllocSegmentTableInfo, info_at};
use crate::frames::{HALF, is_within};

/// Returns the layout of the framed message at the front of the bytes; `None` if they don't begin
/// with a message, or begin with a part of one. A table of one segment, which most messages have,
/// is read at once.
#[inline(always)]
fn shown_info(shown: &[u8]) -> Option<NoAllocSegmentTableInfo>
    ensures { IfSome result (λ i. Describes i shown.now) }
{
    let (first, _) = shown.split_first_chunk::<8>()?;
    let word = u64::from_le_bytes(*first);
    let words = (word / HALF) as usize;
    if word % HALF != 0 || shown.len() < 8 + 8 * words {
        return info_at(shown, None).ok();
    }
    Some(NoAllocSegmentTableInfo {
        segments_count: 1,
        segment_table_length_bytes: 8,
        total_segments_length_bytes: 8 * words,
    })
}

/// Copies the framed message at the front of the bytes to the front of a buffer, and returns its
/// layout there. It returns `None` if the bytes don't begin with a message, or begin with a part of
/// one, or if the message has more words than the limit, or more bytes than the buffer.
#[inline(always)]
pub(crate) fn lay_message(
    shown: &[u8],
    buffer: &mut [u8],
    limit: Option<usize>,
) -> Option<NoAllocSegmentTableInfo>
    ensures { IfSome result (Lays limit shown.now buffer.new) }
{
    let info = shown_info(shown)?;
    let len = info.segment_table_length_bytes + info.total_segments_length_bytes;
    if buffer.len() < len || !is_within(info.total_segments_length_bytes / 8, limit) {
        return None;
    }
    buffer[..len].copy_from_slice(&shown[..len]);
    Some(info)
}
