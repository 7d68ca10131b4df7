//! The segments of framed messages that are whole in a buffer.
ghost use Rattle.std.specs.Prelude.{◌≡◌, ◌≢◌, ◌≤◌, ◌<◌, ℕ, List, ◌+◌, ◌*◌, length, drop, sum, All, Ok, Err, IsOk, IfOk, IfErr, OnErr};
ghost use Rattle.capnp_units.specs.Errors.{kind_of};
ghost use Rattle.capnp_units.specs.declared.kinds.ErrorKind.{ErrorKind};
ghost use Rattle.capnp_units.specs.Segments.{words_in};
ghost use Rattle.capnp_model.specs.Messages.{flat_at};
ghost use Rattle.capnp_stream.specs.Ranges.{bytes_at, ranges_from};
ghost use Rattle.capnp_stream.specs.Flat.{frame_segments, Describes};

use crate::flat::{NoAllocSegmentTableInfo, info_at, length_in, words_before};
use crate::segments::SegmentLengthsBuilder;
use capnp_units::errors::Result;
use capnp_units::segments::ReaderSegments;
use capnp_units::sizes::SegmentId;
use std::alloc::Global;
use std::convert::AsSlice;

/// A framed message in a buffer, which may be longer, and the places of its segments after the
/// table, in words.
#[derive(Drop)]
pub struct BufferSegments<T: AsSlice<u8>> {
    buffer: T,
    segment_table_bytes_len: usize,
    indices: Vec<(usize, usize)>,
    ghost within: { All (λ r. (r.0 ≤ r.1)
        × (segment_table_bytes_len + 8 * r.1 ≤ length (T.items buffer))) indices.items },
}

/// Segments in a lent slice.
pub type SliceSegments<'a> = BufferSegments<&'a [u8]>;

impl<T: AsSlice<u8> + Drop> BufferSegments<T> {
    ghost use Rattle.capnp_stream.specs.Buffers.{buffer_of, buffer_segments};
    ghost use Rattle.capnp_stream.specs.Segments.{lengths_of};

    /// Returns the segments of the framed message at the front of the buffer.
    ///
    /// It is refused with the kind of the first part that can't be read, and with `OutOfMemory` if
    /// all parts can be read.
    pub fn new(alloc: Global, buffer: T, limit: Option<usize>) -> Result<BufferSegments<T>>
        ensures buffer { IfOk result (λ s. buffer_of s ≡ buffer) }
        ensures message { IfOk result (λ s. (rest : List ℕ)
            × (flat_at limit (T.items buffer) ≡ Ok (words_in (buffer_segments s), rest))) }
        ensures refused { IfErr result (λ e. e.kind ≢ ErrorKind.OutOfMemory
            → flat_at limit (T.items buffer) ≡ Err (kind_of e.kind)) }
        ensures wanted { IfErr result
            (λ e. e.kind ≡ ErrorKind.OutOfMemory → IsOk (flat_at limit (T.items buffer))) }
    {
        let info = info_at(buffer.as_slice(), limit)?;
        BufferSegments::described(alloc, buffer, info)
    }

    /// Returns the segments of a table of lengths, which are after n bytes of the buffer.
    pub(crate) fn behind_table(
        buffer: T,
        segment_table_bytes_len: usize,
        table: SegmentLengthsBuilder,
    ) -> BufferSegments<T>
        requires { segment_table_bytes_len + 8 * sum (lengths_of table) ≤ length (T.items buffer) }
        ensures buffer { buffer_of result ≡ buffer }
        ensures segments { buffer_segments result ≡ bytes_at
            (drop segment_table_bytes_len (T.items buffer)) (ranges_from 0 (lengths_of table)) }
    {
        BufferSegments {
            buffer,
            segment_table_bytes_len,
            indices: table.to_segment_indices(),
        }
    }

    /// Returns the segments that this table describes.
    fn described(
        alloc: Global,
        buffer: T,
        info: NoAllocSegmentTableInfo,
    ) -> Result<BufferSegments<T>>
        requires { Describes info (T.items buffer) }
        ensures buffer { IfOk result (λ s. buffer_of s ≡ buffer) }
        ensures segments { IfOk result
            (λ s. buffer_segments s ≡ frame_segments info.segments_count (T.items buffer)) }
        ensures refusal { IfErr result (λ e. e.kind ≡ ErrorKind.OutOfMemory) }
    {
        let table = SegmentLengthsBuilder::in_table(alloc, buffer.as_slice(), info.segments_count)?;
        Ok(BufferSegments::behind_table(buffer, info.segment_table_length_bytes, table))
    }

    /// Returns the buffer.
    pub fn into_buffer(self) -> T
        ensures { result ≡ buffer_of self }
    {
        self.buffer
    }
}

impl<'a> BufferSegments<&'a [u8]> {
    ghost use Rattle.capnp_stream.specs.Buffers.{buffer_segments};

    /// Returns the segments of the framed message at the front of the slice, and moves the slice
    /// past the message.
    pub(crate) fn from_slice(
        alloc: Global,
        slice: &mut &'a [u8],
        limit: Option<usize>,
    ) -> Result<SliceSegments<'a>>
        ensures message { IfOk result
            (λ s. flat_at limit slice.old.now ≡ Ok (words_in (buffer_segments s), slice.new.now)) }
        ensures refused { IfErr result (λ e. e.kind ≢ ErrorKind.OutOfMemory
            → flat_at limit slice.old.now ≡ Err (kind_of e.kind)) }
        ensures wanted { IfErr result
            (λ e. e.kind ≡ ErrorKind.OutOfMemory → IsOk (flat_at limit slice.old.now)) }
        ensures kept { OnErr result (slice.new.now ≡ slice.old.now) }
    {
        let all: &'a [u8] = *slice;
        let info = info_at(all, limit)?;
        let segments = BufferSegments::described(alloc, all, info)?;
        *slice = &all[info.segment_table_length_bytes + info.total_segments_length_bytes..];
        Ok(segments)
    }
}

impl<T: AsSlice<u8>> ReaderSegments for BufferSegments<T> {
    ghost use Rattle.capnp_stream.specs.Buffers.{buffer_segments};

    ghost segments = { buffer_segments };

    fn get_segment(&self, id: SegmentId) -> Option<&[u8]> {
        let (start, end) = *self.indices.get(id as usize)?;
        let bytes = self.buffer.as_slice();
        let table = self.segment_table_bytes_len;
        Some(&bytes[table + 8 * start..table + 8 * end])
    }

    fn len(&self) -> usize {
        self.indices.len()
    }
}

/// A framed message in a buffer, which may be longer. Each segment is looked up in the table of the
/// buffer, so no memory is taken.
#[derive(Drop)]
pub struct NoAllocBufferSegments<T: AsSlice<u8>> {
    buffer: T,
    info: NoAllocSegmentTableInfo,
    ghost described: { Describes info (T.items buffer) },
}

/// Segments in a lent slice, which take no memory.
pub type NoAllocSliceSegments<'a> = NoAllocBufferSegments<&'a [u8]>;

impl<T: AsSlice<u8> + Drop> NoAllocBufferSegments<T> {
    ghost use Rattle.capnp_stream.specs.Buffers.{found_segments};

    /// Returns the segments that the table describes, which are in the buffer after the table.
    pub fn from_segment_table_info(
        buffer: T,
        info: NoAllocSegmentTableInfo,
    ) -> NoAllocBufferSegments<T>
        requires { Describes info (T.items buffer) }
        ensures { found_segments result ≡ frame_segments info.segments_count (T.items buffer) }
    {
        NoAllocBufferSegments { buffer, info }
    }

    /// Returns the segments of the framed message at the front of the buffer. It is refused with
    /// the kind of the first part that can't be read.
    pub fn from_buffer(buffer: T, limit: Option<usize>) -> Result<NoAllocBufferSegments<T>>
        ensures message { IfOk result (λ s. (rest : List ℕ)
            × (flat_at limit (T.items buffer) ≡ Ok (words_in (found_segments s), rest))) }
        ensures refused { IfErr result
            (λ e. flat_at limit (T.items buffer) ≡ Err (kind_of e.kind)) }
    {
        let info = info_at(buffer.as_slice(), limit)?;
        Ok(NoAllocBufferSegments::from_segment_table_info(buffer, info))
    }
}

impl<'a> NoAllocBufferSegments<&'a [u8]> {
    ghost use Rattle.capnp_stream.specs.Buffers.{buffer_segments, found_segments};

    /// Returns the segments of the framed message at the front of the slice, and moves the slice
    /// past the message.
    ///
    /// It is refused with the kind of the first part that can't be read; then the slice is
    /// unchanged.
    pub fn from_slice(
        slice: &mut &'a [u8],
        limit: Option<usize>,
    ) -> Result<NoAllocSliceSegments<'a>>
        ensures message { IfOk result
            (λ s. flat_at limit slice.old.now ≡ Ok (words_in (found_segments s), slice.new.now)) }
        ensures refused { IfErr result (λ e. flat_at limit slice.old.now ≡ Err (kind_of e.kind)) }
        ensures kept { OnErr result (slice.new.now ≡ slice.old.now) }
    {
        let all: &'a [u8] = *slice;
        let info = info_at(all, limit)?;
        *slice = &all[info.segment_table_length_bytes + info.total_segments_length_bytes..];
        Ok(NoAllocBufferSegments::from_segment_table_info(all, info))
    }

    /// Returns these segments, with an index of 16 bytes for the place of each. So a look-up reads
    /// two numbers, while here it sums the lengths of the earlier segments. `OutOfMemory`: the
    /// memory was refused.
    pub fn to_slice_segments(&self, alloc: Global) -> Result<SliceSegments<'a>>
        ensures segments { IfOk result (λ s. buffer_segments s ≡ found_segments self.now) }
        ensures refusal { IfErr result (λ e. e.kind ≡ ErrorKind.OutOfMemory) }
    {
        BufferSegments::described(alloc, self.buffer, self.info)
    }
}

impl<T: AsSlice<u8>> ReaderSegments for NoAllocBufferSegments<T> {
    ghost use Rattle.capnp_stream.specs.Buffers.{found_segments};

    ghost segments = { found_segments };

    #[inline(always)]
    fn get_segment(&self, id: SegmentId) -> Option<&[u8]> {
        let id = id as usize;
        if id >= self.info.segments_count {
            return None;
        }
        let bytes = self.buffer.as_slice();
        let start = self.info.segment_table_length_bytes + 8 * words_before(bytes, id);
        let end = start + 8 * length_in(bytes, id);
        Some(&bytes[start..end])
    }

    fn len(&self) -> usize {
        self.info.segments_count
    }
}
