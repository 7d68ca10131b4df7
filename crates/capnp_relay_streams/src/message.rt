//! A message of a run, as an arena.
ghost use Rattle.std.specs.Prelude.{◌≡◌, slice_get, option_copied};
ghost use Rattle.std.specs.Option.{ForSome};
ghost use Rattle.capnp_stream.specs.Buffers.{buffer_segments, found_segments};

use capnp_stream::buffers::{NoAllocSliceSegments, SliceSegments};
use capnp_units::segments::ReaderSegments;
use capnp_units::sizes::SegmentId;
use capnp_wire_objects::arena::{ReaderArena, ReaderArenaImpl};
use std::alloc::Global;

/// The most segments of a message that are looked up in its table; each look-up sums the lengths
/// there. For more segments the sums are made once.
const FEW_SEGMENTS: usize = 16;

/// Returns the segments of a message of many, indexed by the place at which each begins; `None` if
/// they are few, or if the memory for the index was refused.
// A look-up in the table sums the lengths in front of the segment: 511 segments would cost a
// message of far pointers three times the rest.
#[inline(always)]
pub(crate) fn indexed<'a>(
    alloc: Global,
    message: &NoAllocSliceSegments<'a>,
) -> Option<SliceSegments<'a>>
    ensures { ForSome result (λ s. buffer_segments s ≡ found_segments message.now) }
{
    if message.len() <= FEW_SEGMENTS {
        return None;
    }
    indexed_many(alloc, message)
}

/// Returns the segments of a message, indexed by the place at which each begins; `None` if the
/// memory for the index was refused.
#[inline(never)]
fn indexed_many<'a>(alloc: Global, message: &NoAllocSliceSegments<'a>) -> Option<SliceSegments<'a>>
    ensures { ForSome result (λ s. buffer_segments s ≡ found_segments message.now) }
{
    match message.to_slice_segments(alloc) {
        Ok(indexed) => Some(indexed),
        Err(_) => None,
    }
}

/// The segments of a message in a buffer, and an index of their places if there are many. The
/// bounds limit the depth to which the message is followed.
#[derive(Drop)]
pub(crate) struct Message<'a> {
    pub(crate) segments: &'a NoAllocSliceSegments<'a>,
    pub(crate) indexed: &'a Option<SliceSegments<'a>>,
    ghost same: { ForSome indexed.now (λ s. buffer_segments s ≡ found_segments segments.now) },
}

impl Message<'_> {
    /// Returns a segment after the first four, which few messages need.
    #[inline(never)]
    fn other_segment(&self, id: SegmentId) -> Option<&[u8]>
        ensures { option_copied result ≡ slice_get (found_segments self.now.segments.now) id }
    {
        match self.indexed {
            Some(indexed) => indexed.get_segment(id),
            None => self.segments.get_segment(id),
        }
    }
}

impl ReaderArena for Message<'_> {
    ghost use Rattle.std.specs.Prelude.{pos};
    ghost use Rattle.capnp_stream.specs.Buffers.{found_segments};

    ghost segments = { λ m. found_segments m.segments.now };

    ghost nesting = { λ _. pos 2147483647 };

    #[inline(always)]
    fn get_segment(&self, id: SegmentId) -> Option<&[u8]> {
        if id < 4 {
            self.segments.get_segment(id)
        } else {
            self.other_segment(id)
        }
    }

    #[inline]
    fn nesting_limit(&self) -> i32 {
        i32::MAX
    }

    fn size_in_words(&self) -> usize {
        match self.indexed {
            Some(indexed) => ReaderArenaImpl::new(indexed, i32::MAX).size_in_words(),
            None => ReaderArenaImpl::new(self.segments, i32::MAX).size_in_words(),
        }
    }
}
