//! The segments of a message that was read, and the table of their lengths.
ghost use Rattle.std.specs.Prelude.{◌≡◌, ◌≢◌, ◌≤◌, ◌<◌, ◌↔◌, ◌+◌, ◌*◌, ◌%◌, ◌^◌, [], ◌∷◌, ◌++◌, length, drop, slice_get, sum, option_copied, replicate, All, Some, None, OnOk, OnErr, IfOk, IfSome, IfNone, IsSome, IsSomeAnd, IsTrue, IfErr};
ghost use Rattle.capnp_units.specs.declared.kinds.ErrorKind.{ErrorKind};
ghost use Rattle.capnp_units.specs.Segments.{whole_words};
ghost use Rattle.capnp_stream.specs.Ranges.{bytes_at, ranges_from, range_lengths};
ghost use Rattle.capnp_stream.specs.Flat.{table_lengths, table_bytes};

use crate::buffers::{BufferSegments, SliceSegments};
use crate::flat::length_in;
use capnp_units::errors::{Error, Result};
use capnp_units::kinds::ErrorKind;
use capnp_units::segments::ReaderSegments;
use capnp_units::sizes::SegmentId;
use std::alloc::Global;
use std::ops::Deref;

/// The lengths in words of segments that follow one another.
#[derive(Drop)]
pub struct SegmentLengthsBuilder {
    indices: Vec<(usize, usize)>,
    total_words: usize,
    ghost joined: { indices.items ≡ ranges_from 0 (range_lengths indices.items) },
    ghost total: { total_words ≡ sum (range_lengths indices.items) },
}

impl SegmentLengthsBuilder {
    ghost use Rattle.capnp_stream.specs.Buffers.{buffer_of, buffer_segments};
    ghost use Rattle.capnp_stream.specs.Segments.{lengths_of, capacity_of, owned_bytes, owned_ranges};

    /// Returns the table of the first `count` segments at the front of bytes.
    pub(crate) fn in_table(
        alloc: Global,
        bytes: &[u8],
        count: usize,
    ) -> Result<SegmentLengthsBuilder>
        requires few { count ≤ 511 }
        requires there { table_bytes count ≤ length bytes.now }
        ensures lengths { IfOk result (λ t. lengths_of t ≡ table_lengths count bytes.now) }
        ensures refusal { IfErr result (λ e. e.kind ≡ ErrorKind.OutOfMemory) }
    {
        let mut table = SegmentLengthsBuilder::with_capacity(alloc, count)?;
        table.fill(bytes, count);
        Ok(table)
    }

    /// Requests memory for n segments, if there is no segment yet and the capacity doesn't suffice.
    pub(crate) fn reserve(&mut self, count: usize) -> Result<()>
        requires { lengths_of self.old ≡ [] }
        ensures empty { lengths_of self.new ≡ [] }
        ensures room { OnOk result (count ≤ capacity_of self.new) }
        ensures refusal { IfErr result
            (λ e. (e.kind ≡ ErrorKind.OutOfMemory) × (capacity_of self.old < count)) }
    {
        self.indices.reserve(count)?;
        Ok(())
    }

    /// Adds a segment of n words after the others, if the capacity suffices.
    fn push_within(&mut self, length_in_words: usize)
        requires room { length (lengths_of self.old) < capacity_of self.old }
        requires small { sum (lengths_of self.old) + length_in_words < 2 ^ 64 }
        ensures pushed { lengths_of self.new ≡ lengths_of self.old ++ length_in_words ∷ [] }
        ensures room { capacity_of self.old ≤ capacity_of self.new }
    {
        let start = self.total_words;
        let end = start + length_in_words;
        if let Ok(()) = self.indices.push((start, end)) {
            self.total_words = end;
        }
    }

    /// Adds the first `count` segments of the table at the front of bytes, if there is no segment
    /// yet and the capacity suffices.
    pub(crate) fn fill(&mut self, bytes: &[u8], count: usize)
        requires few { count ≤ 511 }
        requires there { table_bytes count ≤ length bytes.now }
        requires empty { lengths_of self.old ≡ [] }
        requires room { count ≤ capacity_of self.old }
        ensures { lengths_of self.new ≡ table_lengths count bytes.now }
    {
        for id in 0..count {
            self.push_within(length_in(bytes, id));
        }
    }

    /// Makes a table without segments, and memory for n. `OutOfMemory`: the memory was refused; if
    /// n is 0, no memory is requested.
    pub fn with_capacity(alloc: Global, capacity: usize) -> Result<SegmentLengthsBuilder>
        ensures empty { IfOk result (λ t. lengths_of t ≡ []) }
        ensures room { IfOk result (λ t. capacity ≤ capacity_of t) }
        ensures refusal { IfErr result (λ e. e.kind ≡ ErrorKind.OutOfMemory) }
        ensures some { OnErr result (0 < capacity) }
    {
        let indices = Vec::with_capacity(alloc, capacity)?;
        Ok(SegmentLengthsBuilder {
            indices,
            total_words: 0,
        })
    }

    /// Adds a segment of n words after the others. `MessageTooLarge`: the words of all segments
    /// exceed `usize`. `OutOfMemory`: all the memory for segments is used, and more was refused.
    /// After a refusal the table is unchanged.
    pub fn try_push_segment(&mut self, length_in_words: usize) -> Result<()>
        ensures pushed { OnOk result
            (lengths_of self.new ≡ lengths_of self.old ++ length_in_words ∷ []) }
        ensures room { capacity_of self.old ≤ capacity_of self.new }
        ensures full { IfErr result (λ e. e.kind ≡ ErrorKind.OutOfMemory
            → capacity_of self.old ≤ length (lengths_of self.old)) }
        ensures large { IfErr result (λ e. e.kind ≢ ErrorKind.OutOfMemory
            → (e.kind ≡ ErrorKind.MessageTooLarge)
            × (2 ^ 64 ≤ sum (lengths_of self.old) + length_in_words)) }
        ensures kept { OnErr result (lengths_of self.new ≡ lengths_of self.old) }
    {
        let start = self.total_words;
        let Some(end) = start.checked_add(length_in_words) else {
            return Err(Error::from(ErrorKind::MessageTooLarge));
        };
        self.indices.push((start, end))?;
        self.total_words = end;
        Ok(())
    }

    /// Returns the number of words of all segments together.
    pub fn total_words(&self) -> usize
        ensures { result ≡ sum (lengths_of self.now) }
    {
        self.total_words
    }

    /// Returns zeroed segments of these lengths. `MessageTooLarge`: their bytes exceed `usize`.
    /// `OutOfMemory`: their bytes were refused.
    pub fn into_owned_segments(self, alloc: Global) -> Result<OwnedSegments>
        ensures ranges { IfOk result (λ s. owned_ranges s ≡ ranges_from 0 (lengths_of self)) }
        ensures zeros { IfOk result (λ s. owned_bytes s ≡ replicate (8 * sum (lengths_of self)) 0) }
        ensures large { 2 ^ 64 ≤ 8 * sum (lengths_of self)
            → IfErr result (λ e. e.kind ≡ ErrorKind.MessageTooLarge) }
        ensures refusal { 8 * sum (lengths_of self) < 2 ^ 64
            → IfErr result (λ e. e.kind ≡ ErrorKind.OutOfMemory) }
    {
        let Some(len) = self.total_words.checked_mul(8) else {
            return Err(Error::from(ErrorKind::MessageTooLarge));
        };
        let bytes = vec![in alloc; 0u8; len]?;
        Ok(OwnedSegments::new(bytes, self))
    }

    /// Returns whether n bytes of a table and then the segments fit into the buffer.
    pub fn describes(&self, buffer: &[u8], segment_table_bytes_len: usize) -> bool
        ensures { IsTrue result
            ↔ (segment_table_bytes_len + 8 * sum (lengths_of self.now) ≤ length buffer.now) }
    {
        match buffer.len().checked_sub(segment_table_bytes_len) {
            Some(room) => self.total_words <= room / 8,
            None => false,
        }
    }

    /// Returns the segments in a slice, after n bytes of a table, if they fit, as `describes`
    /// checks.
    pub fn into_slice_segments(
        self,
        slice: &[u8],
        segment_table_bytes_len: usize,
    ) -> SliceSegments<'_>
        requires { segment_table_bytes_len + 8 * sum (lengths_of self) ≤ length slice.now }
        ensures buffer { (buffer_of result).now ≡ slice.now }
        ensures segments { buffer_segments result
            ≡ bytes_at (drop segment_table_bytes_len slice.now) (ranges_from 0 (lengths_of self)) }
    {
        BufferSegments::behind_table(slice, segment_table_bytes_len, self)
    }

    /// Returns the words at which each segment begins and ends.
    pub fn to_segment_indices(self) -> Vec<(usize, usize)>
        ensures { result.items ≡ ranges_from 0 (lengths_of self) }
    {
        self.indices
    }
}

/// Returns the words of bytes, the lowest byte of each first; bytes past the last whole word aren't
/// looked at. `OutOfMemory`: there is a word, and the memory for the words was refused.
pub fn words_of(alloc: Global, bytes: &[u8]) -> Result<Vec<u64>>
    ensures words { IfOk result (λ v. v.items ≡ whole_words bytes.now) }
    ensures refusal { IfErr result
        (λ e. (e.kind ≡ ErrorKind.OutOfMemory) × (8 ≤ length bytes.now)) }
{
    let mut words = Vec::new(alloc);
    let mut left = bytes;
    while let Some((first, rest)) = left.split_first_chunk::<8>() {
        words.push(u64::from_le_bytes(*first))?;
        left = rest;
    }
    Ok(words)
}

/// The segments of a message: the bytes of all, and the places of the words of each.
#[derive(Drop)]
pub struct OwnedSegments {
    bytes: Vec<u8>,
    indices: Vec<(usize, usize)>,
    ghost within: { All (λ r. (r.0 ≤ r.1) × (8 * r.1 ≤ length bytes.items)) indices.items },
}

impl OwnedSegments {
    ghost use Rattle.std.specs.Borrow.{sem};
    ghost use Rattle.capnp_stream.specs.Lending.{LendsBytes};
    ghost use Rattle.capnp_stream.specs.Segments.{lengths_of, owned_bytes, owned_ranges, bytes_of_segments, segments_of};

    /// Makes the segments of a table, which follow one another in the bytes.
    pub(crate) fn new(bytes: Vec<u8>, table: SegmentLengthsBuilder) -> OwnedSegments
        requires { 8 * sum (lengths_of table) ≤ length bytes.items }
        ensures bytes { owned_bytes result ≡ bytes.items }
        ensures ranges { owned_ranges result ≡ ranges_from 0 (lengths_of table) }
    {
        let indices = table.to_segment_indices();
        OwnedSegments { bytes, indices }
    }

    /// Returns the bytes of all segments, one after the other.
    pub fn as_slice(&self) -> &[u8]
        ensures { result.now ≡ owned_bytes self.now }
    {
        self.bytes.as_slice()
    }

    /// Returns the bytes of all segments, one after the other, to be written over.
    pub fn as_mut_slice(&mut self) -> &mut [u8]
        ensures* writes_back { sem 𝓛 (LendsBytes self.entry result) }
        ensures value { result.now ≡ owned_bytes self.old }
    {
        &mut self.bytes
    }

    /// Returns the words of a segment, or `None` past the last. `OutOfMemory`: the segment has a
    /// word, and the memory for its words was refused.
    pub fn segment_words(&self, alloc: Global, id: SegmentId) -> Result<Option<Vec<u64>>>
        ensures words { IfOk result
            (λ o. IfSome o (λ v. slice_get (segments_of self.now) id ≡ Some v.items)) }
        ensures none { IfOk result (λ o. IfNone o (slice_get (segments_of self.now) id ≡ None)) }
        ensures refusal { IfErr result (λ e. (e.kind ≡ ErrorKind.OutOfMemory)
            × IsSomeAnd (slice_get (bytes_of_segments self.now) id) (λ bytes. 8 ≤ length bytes)) }
    {
        match self.get_segment(id) {
            Some(bytes) => Ok(Some(words_of(alloc, bytes)?)),
            None => Ok(None),
        }
    }
}

/// The bytes of all segments, one after the other. `as_mut_slice` writes over them, and keeps their
/// number.
impl Deref for OwnedSegments {
    type Target = Vec<u8>;

    ghost use Rattle.capnp_stream.specs.Segments.{owned_bytes};

    ghost deref_gives = { λ s v. v.items ≡ owned_bytes s };

    fn deref(&self) -> &Vec<u8> {
        &self.bytes
    }
}

impl ReaderSegments for OwnedSegments {
    ghost use Rattle.capnp_stream.specs.Segments.{bytes_of_segments, segments_of};

    ghost segments = { bytes_of_segments };

    /// Returns the bytes of a segment, each word's lowest first, or `None` past the last.
    fn get_segment(&self, id: SegmentId) -> Option<&[u8]>
        ensures bytes { option_copied result ≡ slice_get (bytes_of_segments self.now) id }
        ensures words { IfSome result
            (λ bytes. slice_get (segments_of self.now) id ≡ Some (whole_words bytes.now)) }
        ensures whole { IfSome result (λ bytes. length bytes.now % 8 ≡ 0) }
        ensures there { IsSome result ↔ (id < length (segments_of self.now)) }
    {
        let (start, end) = *self.indices.get(id as usize)?;
        Some(&self.bytes[8 * start..8 * end])
    }

    fn len(&self) -> usize {
        self.indices.len()
    }
}
