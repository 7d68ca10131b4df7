//! Arenas of segments that are read.
ghost use Rattle.std.specs.Prelude.{◌≡◌, ℕ, ℤ, pos, ◌-◌, ◌^◌, ◌⊎◌, true, false, List, [], length, min, slice_get, option_copied, OnErr, OnOk, IfErr};
ghost use Rattle.std.specs.Option.{is_some};
ghost use Rattle.capnp_model.specs.Segments.{words_at};
ghost use Rattle.capnp_units.specs.Limits.{left_of, Spends, IsPassed};
ghost use Rattle.capnp_units.specs.Segments.{words_in};
ghost use Rattle.capnp_wire_objects.specs.Places.{place_view, seen};
ghost use Rattle.capnp_wire_objects.specs.Arenas.{words_before, moved};

use crate::place::{Place, has_words};
use capnp_units::errors::{Error, Result};
use capnp_units::kinds::ErrorKind;
use capnp_units::limiter::ReadLimiter;
use capnp_units::segments::ReaderSegments;
use capnp_units::sizes::SegmentId;

/// Segments that can be read, with a limit for the nesting of a value in them.
pub trait ReaderArena {
    /// The bytes of each segment.
    ghost segments: { Self → List (List ℕ) };

    /// The nesting limit: the most levels of pointers that a value may have, with the root's as the
    /// first. No value is within a negative limit.
    ghost nesting: { Self → ℤ };

    /// Returns the bytes of a segment, or `None` after the last segment.
    fn get_segment(&self, id: SegmentId) -> Option<&[u8]>
        ensures { option_copied result ≡ slice_get (segments self.now) id };

    /// Returns the nesting limit. Functions that walk a whole value take stack for each level,
    /// `total_size` about 200 bytes. So a limit of more than some 40,000 needs more than 8 MiB of
    /// stack.
    fn nesting_limit(&self) -> i32
        ensures { result ≡ nesting self.now };

    /// Returns the words of the segments that a pointer can name, the first 2^32. The count stops
    /// at 2^64 - 1 words. It takes a step for each segment.
    fn size_in_words(&self) -> usize
        ensures { result ≡ min
            (words_before (segments self.now) (min (length (segments self.now)) (2 ^ 32)))
            (2 ^ 64 - 1) };

    /// Returns the place n words after another, or before it if the number is negative. It is
    /// refused with `OutOfBounds` if it is in front of the segment or further than the place right
    /// after the last word, or if the segment isn't there. The place after the last word is for
    /// objects without words.
    final fn check_offset(&self, start: Place, offset_in_words: i32) -> Result<Place>
        ensures { seen place_view result
            ≡ moved (words_in (segments self.now)) (place_view start) offset_in_words }
    {
        let words = offset_in_words.unsigned_abs() as usize;
        let position = if offset_in_words < 0 {
            start.position.checked_sub(words)
        } else {
            Some(start.position.saturating_add(words))
        };
        let place = Place {
            segment: start.segment,
            position: position.ok_or(Error::from(ErrorKind::OutOfBounds))?,
        };
        if !has_words(self, place, 0) {
            return Err(Error::from(ErrorKind::OutOfBounds));
        }
        Ok(place)
    }

    /// Grants the words of an interval. It is refused with `OutOfBounds` if they aren't all there,
    /// and otherwise with `ReadLimitExceeded` if they exceed the words that are left. Then nothing
    /// changes.
    final fn contains_interval(
        &self,
        limiter: &mut ReadLimiter,
        start: Place,
        size: usize,
    ) -> Result<()>
        ensures ok { OnOk result
            ((is_some (words_at (words_in (segments self.now)) (place_view start) size) ≡ true)
            × Spends limiter.old limiter.new size) }
        ensures refused { OnErr result (limiter.new ≡ limiter.old) }
        ensures kind { IfErr result (λ e.
            ((e.kind ≡ ErrorKind.OutOfBounds)
            × (is_some (words_at (words_in (segments self.now)) (place_view start) size) ≡ false))
            ⊎ ((e.kind ≡ ErrorKind.ReadLimitExceeded) × IsPassed (left_of limiter.old) size)) }
    {
        if !has_words(self, start, size) {
            return Err(Error::from(ErrorKind::OutOfBounds));
        }
        limiter.charge(size as u64)
    }

    /// Grants n words for values that are read more often than they are stored, such as the
    /// elements of a list of voids. They are refused with `ReadLimitExceeded` if they exceed the
    /// words that are left. Then nothing changes.
    final fn amplified_read(&self, limiter: &mut ReadLimiter, virtual_amount: u64) -> Result<()>
        ensures ok { OnOk result (Spends limiter.old limiter.new virtual_amount) }
        ensures refused { OnErr result
            ((limiter.new ≡ limiter.old) × IsPassed (left_of limiter.old) virtual_amount) }
        ensures kind { IfErr result (λ e. e.kind ≡ ErrorKind.ReadLimitExceeded) }
    {
        limiter.charge(virtual_amount)
    }
}

/// The number of segments that a pointer can name: a segment's number has 32 bits.
const NAMED_SEGMENTS: usize = 0x1_0000_0000;

/// Returns the words of the segments that have a number.
fn words_in_all<S: ReaderSegments>(segments: &S) -> usize
    ensures { result ≡ min
        (words_before (S.segments segments.now) (min (length (S.segments segments.now)) (2 ^ 32)))
        (2 ^ 64 - 1) }
{
    let count = segments.len().min(NAMED_SEGMENTS);
    let mut words: usize = 0;
    for id in 0..count {
        if let Some(bytes) = segments.get_segment(id as SegmentId) {
            words = words.saturating_add(bytes.len() / 8);
        }
    }
    words
}

/// An arena over a caller's segments.
#[derive(Drop)]
pub struct ReaderArenaImpl<S> {
    segments: S,
    nesting_limit: i32,
}

impl<S: ReaderSegments> ReaderArenaImpl<S> {
    /// Makes an arena over these segments, in which values may be nested n levels deep. Under a
    /// negative limit only null is read. Functions that walk a whole value take stack for each
    /// level, `total_size` about 200 bytes. So a limit of more than some 40,000 needs more than 8
    /// MiB of stack.
    pub fn new(segments: S, nesting_limit: i32) -> Self
        ensures segments { result.segments ≡ segments }
        ensures nesting { result.nesting_limit ≡ nesting_limit }
    {
        ReaderArenaImpl {
            segments,
            nesting_limit,
        }
    }

    /// Returns the segments.
    pub fn into_segments(self) -> S
        ensures { result ≡ self.segments }
    {
        self.segments
    }
}

impl<S: ReaderSegments> ReaderArena for ReaderArenaImpl<S> {
    ghost segments = { λ a. S.segments a.segments };

    ghost nesting = { λ a. a.nesting_limit };

    #[inline(always)]
    fn get_segment(&self, id: SegmentId) -> Option<&[u8]> {
        self.segments.get_segment(id)
    }

    fn nesting_limit(&self) -> i32 {
        self.nesting_limit
    }

    fn size_in_words(&self) -> usize {
        words_in_all(&self.segments)
    }
}

/// An arena without segments.
#[derive(Clone, Copy, Debug, PartialEq, Eq)]
pub struct NullArena;

impl ReaderArena for NullArena {
    ghost segments = { λ a. [] };

    ghost nesting = { λ a. pos 2147483647 };

    fn get_segment(&self, _id: SegmentId) -> Option<&[u8]> {
        None
    }

    fn nesting_limit(&self) -> i32 {
        i32::MAX
    }

    fn size_in_words(&self) -> usize {
        0
    }
}
