//! Places in segments, and the words there.
ghost use Rattle.std.specs.Prelude.{◌≡◌, ◌+◌, ◌*◌, ◌/◌, ◌≤◌, ◌<◌, ◌^◌, nat_le, slice_get, length};
ghost use Rattle.std.specs.Option.{is_some, OnSome};
ghost use Rattle.std.specs.Bool.{OnTrue};
ghost use Rattle.capnp_model.specs.Segments.{place, word_at, words_at};
ghost use Rattle.capnp_model.specs.Sections.{bits_at};
ghost use Rattle.capnp_model.specs.Pointers.{begins};
ghost use Rattle.capnp_units.specs.Segments.{whole_words, words_in};
ghost use Rattle.capnp_wire_objects.specs.Arenas.{segment_bytes};
ghost use Rattle.capnp_wire_objects.specs.Places.{place_view, seen};

use crate::arena::ReaderArena;
use capnp_units::errors::{Error, Result};
use capnp_units::kinds::ErrorKind;

/// The place of the upper half of a pointer word, 32 bits up.
pub(crate) const UPPER_HALF: u64 = 0x1_0000_0000;
/// The number of offsets that thirty bits can hold.
pub(crate) const OFFSETS: u64 = 0x4000_0000;
/// Offsets from this number on are negative: subtract the number of all offsets.
const NEGATIVE_OFFSETS: u32 = 0x2000_0000;
/// The number of positions that a far pointer can hold, in the 29 bits above its kind and its form.
const FAR_POSITIONS: u64 = 0x2000_0000;
/// The place of those bits, three bits up.
const FAR_POSITION: u64 = 8;

/// A place: a segment's number, and a position in it in words, from 0 on.
#[derive(Clone, Copy, Debug, PartialEq, Eq)]
pub struct Place {
    pub segment: u32,
    pub position: usize,
}

/// The place of a message's root pointer.
pub const ROOT: Place = Place {
    segment: 0,
    position: 0,
};

/// Returns the word at a position in words of bytes, if they have the whole word.
#[inline(always)]
pub fn word_in(bytes: &[u8], position: usize) -> Option<u64>
    ensures word { result ≡ slice_get (whole_words bytes.now) position }
    ensures near { OnSome result (position < 2 ^ 61) }
{
    let (words, _) = bytes.as_chunks::<8>();
    Some(u64::from_le_bytes(*words.get(position)?))
}

/// Returns the word at a place, if the segment is there and has it.
#[inline(always)]
pub fn word_at<A: ReaderArena>(arena: &A, place: Place) -> Option<u64>
    ensures word { result ≡ word_at (words_in (A.segments arena.now)) (place_view place) }
    ensures near { OnSome result (place.position < 2 ^ 61) }
{
    word_in(arena.get_segment(place.segment)?, place.position)
}

/// Returns the bytes of a segment, or no bytes if it isn't there.
#[inline(always)]
pub fn segment_bytes<A: ReaderArena>(arena: &A, segment: u32) -> &[u8]
    ensures { result.now ≡ segment_bytes (A.segments arena.now) segment }
{
    match arena.get_segment(segment) {
        Some(bytes) => bytes,
        None => &[],
    }
}

/// Returns whether bytes have n whole words from a position on.
#[inline(always)]
pub(crate) fn reach(bytes: &[u8], position: usize, count: usize) -> bool
    ensures there { result ≡ nat_le (position + count) (length bytes.now / 8) }
    ensures near { OnTrue result (position + count < 2 ^ 61) }
{
    let words = bytes.len() / 8;
    position <= words && count <= words - position
}

/// Returns whether n words from a place on are there.
#[inline(always)]
pub fn has_words<A: ReaderArena>(arena: &A, place: Place, count: usize) -> bool
    ensures there { result ≡ is_some
        (words_at (words_in (A.segments arena.now)) (place_view place) count) }
    ensures near { OnTrue result (place.position + count < 2 ^ 61) }
{
    match arena.get_segment(place.segment) {
        Some(bytes) => reach(bytes, place.position, count),
        None => false,
    }
}

/// Returns the place of an object whose pointer ends at a place: n words on, by the thirty bits of
/// a signed number. A place in front of the segment is refused with `OutOfBounds`.
#[inline(always)]
pub fn begins_at(end: Place, offset: u32) -> Result<Place>
    requires { end.position < 2 ^ 62 }
    ensures { seen place_view result ≡ begins (place_view end) offset }
{
    let there = end.position + offset as usize;
    if offset < NEGATIVE_OFFSETS {
        return Ok(Place {
            segment: end.segment,
            position: there,
        });
    }
    let position = there
        .checked_sub(OFFSETS as usize)
        .ok_or(Error::from(ErrorKind::OutOfBounds))?;
    Ok(Place {
        segment: end.segment,
        position,
    })
}

/// Returns the place in a far pointer's word: the position in bits 3 to 31, the segment in bits 32
/// to 63.
#[inline(always)]
pub fn place_in_word(word: u64) -> Place
    ensures { place_view result ≡ place (bits_at 32 32 word) (bits_at 3 29 word) }
{
    Place {
        segment: (word / UPPER_HALF) as u32,
        position: (word / FAR_POSITION % FAR_POSITIONS) as usize,
    }
}
