//! The memory from which readers read.
ghost use Rattle.std.specs.Prelude.{◌≡◌, ◌+◌, ◌*◌, ◌/◌, ◌≤◌, pos, length, take, drop, slice_get, option_copied};
ghost use Rattle.capnp_model.specs.Sections.{number_of, section_of};
ghost use Rattle.capnp_units.specs.Segments.{whole_words, words_in};
ghost use Rattle.capnp_wire_objects.specs.Places.{place_view};
ghost use Rattle.capnp_wire_objects.specs.Arenas.{segment_bytes};
ghost use Rattle.capnp_wire_objects.specs.Objects.{AreThere};
ghost use Rattle.capnp_wire_objects.specs.Inside.{section_at};
ghost use Rattle.capnp_wire.specs.Grounds.{backing_bytes, ground_of, default_ground};

use capnp_units::sizes::{SegmentId, Word, words_as_bytes};
use capnp_wire_objects::arena::ReaderArena;
use capnp_wire_objects::place::Place;

/// The memory from which a reader reads: the segments of an arena, or the one segment of a default
/// value.
///
/// Pointers that are followed in an arena are paid for; a default costs nothing.
#[derive_where(Clone, Copy)]
pub enum Backing<'a, A> {
    Arena(&'a A),
    /// The bytes of a default value's words.
    Default(&'a [u8]),
}

/// Returns these words as a default value.
pub fn default_backing<'a, A: ReaderArena>(words: &'a [Word]) -> Backing<'a, A>
    ensures { ground_of A.segments result ≡ default_ground words.now }
{
    Backing::Default(words_as_bytes(words))
}

/// Returns n words of bytes, from a position on.
#[inline(always)]
fn words_of(bytes: &[u8], position: usize, words: usize) -> &[u8]
    requires { position + words ≤ length bytes.now / 8 }
    ensures len { length result.now ≡ 8 * words }
    ensures section { number_of 8 result.now
        ≡ section_of (take words (drop position (whole_words bytes.now))) }
{
    &bytes[8 * position..8 * (position + words)]
}

impl<'a, A: ReaderArena> Backing<'a, A> {
    /// Returns the bytes of a segment, or `None` past the last segment.
    #[inline(always)]
    pub fn segment(self, id: SegmentId) -> Option<&'a [u8]>
        ensures { option_copied result ≡ slice_get (backing_bytes A.segments self.entry) id }
    {
        match self {
            Backing::Arena(arena) => arena.get_segment(id),
            Backing::Default(bytes) => { if id == 0 { Some(bytes) } else { None } }
        }
    }

    /// Returns the bytes of a segment, or no bytes if the segment doesn't exist.
    #[inline(always)]
    pub(crate) fn bytes_of(self, id: SegmentId) -> &'a [u8]
        ensures { result.now ≡ segment_bytes (backing_bytes A.segments self.entry) id }
    {
        match self.segment(id) {
            Some(bytes) => bytes,
            None => &[],
        }
    }

    /// Returns the bytes of n words from a place on, lent from those of its segment.
    #[inline(always)]
    pub(crate) fn lend_of(self, bytes: &'a [u8], start: Place, words: usize) -> &'a [u8]
        requires bytes { bytes.now
            ≡ segment_bytes (backing_bytes A.segments self) start.segment }
        requires there { AreThere (words_in (backing_bytes A.segments self))
            (place_view start) words }
        ensures len { length result.now ≡ 8 * words }
        ensures section { number_of 8 result.now
            ≡ section_at (words_in (backing_bytes A.segments self.entry)) (place_view start) words }
    {
        words_of(bytes, start.position, words)
    }

    /// Returns the bytes of n words from a place on, lent in place.
    #[inline(always)]
    pub fn lend(self, start: Place, words: usize) -> &'a [u8]
        requires { AreThere (words_in (backing_bytes A.segments self)) (place_view start) words }
        ensures len { length result.now ≡ 8 * words }
        ensures section { number_of 8 result.now
            ≡ section_at (words_in (backing_bytes A.segments self.entry)) (place_view start) words }
    {
        self.lend_of(self.bytes_of(start.segment), start, words)
    }
}

impl<A: ReaderArena> ReaderArena for Backing<'_, A> {
    ghost segments = { λ b. backing_bytes A.segments b };

    ghost nesting = { λ b. pos 2147483647 };

    #[inline(always)]
    fn get_segment(&self, id: SegmentId) -> Option<&[u8]> {
        self.segment(id)
    }

    fn nesting_limit(&self) -> i32 {
        i32::MAX
    }

    fn size_in_words(&self) -> usize {
        match self {
            Backing::Arena(arena) => arena.size_in_words(),
            Backing::Default(bytes) => bytes.len() / 8,
        }
    }
}
