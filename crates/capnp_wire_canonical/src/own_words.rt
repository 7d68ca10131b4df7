//! An object's own words: the number that is kept, and their copy.
ghost use Rattle.std.specs.Prelude.{◌≡◌, ◌+◌, ◌*◌, ◌≤◌, ◌<◌, ◌^◌, ◌++◌, ℕ, max, length, take, drop, slice_index, unwrap_or};
ghost use Rattle.std.specs.Bool.{OnTrue, OnFalse};
ghost use Rattle.capnp_model.specs.Segments.{after, word_at};
ghost use Rattle.capnp_model.specs.Sections.{needed_words};
ghost use Rattle.capnp_model.specs.Spelling.{AreWords};
ghost use Rattle.capnp_units.specs.Segments.{words_in};
ghost use Rattle.capnp_wire_objects.specs.Arenas.{segment_bytes};
ghost use Rattle.capnp_wire_objects.specs.Places.{place_view};
ghost use Rattle.capnp_wire_objects.specs.Objects.{AreThere};
ghost use Rattle.capnp_wire_objects.specs.Inside.{section_at, words_there};
ghost use Rattle.capnp_wire_canonical.specs.Copies.{Behind};
ghost use Rattle.capnp_wire_canonical.specs.Standing.{segment_words};
ghost use Rattle.capnp_wire_canonical.specs.Writes.{words_view, with_section_at};
ghost use Rattle.capnp_wire_canonical.specs.Widths.{kept, widest, NeedsAll, IsLeast};

use capnp_units::sizes::{StructSize, Word};
use capnp_wire_objects::arena::ReaderArena;
use capnp_wire_objects::place::{Place, segment_bytes, word_at, word_in};

/// Returns the word at a place, or 0 if there is no word.
#[inline(always)]
pub(crate) fn word_or_zero<A: ReaderArena>(arena: &A, place: Place) -> u64
    ensures word { result ≡ unwrap_or
        (word_at (words_in (A.segments arena.now)) (place_view place)) 0 }
    ensures fits { result < 2 ^ 64 }
{
    word_at(arena, place).unwrap_or(0)
}

/// Returns the word at a place in the segment of these bytes, or 0 if there is no word.
#[inline(always)]
pub(crate) fn word_or_zero_in<A: ReaderArena>(arena: &A, bytes: &[u8], place: Place) -> u64
    requires bytes { bytes.now ≡ segment_bytes (A.segments arena.now) place.segment }
    ensures word { result ≡ unwrap_or
        (word_at (words_in (A.segments arena.now)) (place_view place)) 0 }
    ensures fits { result < 2 ^ 64 }
{
    word_in(bytes, place.position).unwrap_or(0)
}

/// Returns the number of words without the zeros at the end of n words, and at least the number
/// that was needed before. Only the words after those are looked at.
#[inline(always)]
fn more_needed<A: ReaderArena>(arena: &A, bytes: &[u8], start: Place, count: u16, most: u16) -> u16
    requires bytes { bytes.now ≡ segment_bytes (A.segments arena.now) start.segment }
    requires there { AreThere (words_in (A.segments arena.now)) (place_view start) count }
    requires before { most ≤ count }
    ensures needed { result ≡ max most (needed_words count
        (section_at (words_in (A.segments arena.now)) (place_view start) count)) }
    ensures kept { result ≡ max most (kept
        (words_there (words_in (A.segments arena.now)) (place_view start) count)) }
    ensures few { result ≤ count }
{
    let mut n = count;
    while n > most {
        let last = Place {
            segment: start.segment,
            position: start.position + (n - 1) as usize,
        };
        if word_or_zero_in(arena, bytes, last) != 0 {
            return n;
        }
        n -= 1;
    }
    most
}

/// Tests whether the last of n words is not zero, if there is a word.
#[inline(always)]
fn needs_all<A: ReaderArena>(arena: &A, start: Place, count: u16) -> bool
    requires { AreThere (words_in (A.segments arena.now)) (place_view start) count }
    ensures all { let s = words_in (A.segments arena.now) in
        OnTrue result (NeedsAll s (place_view start) count) }
    ensures words { let s = words_in (A.segments arena.now) in OnFalse result
        (needed_words count (section_at s (place_view start) count) ≡ count → ⊥) }
    ensures pointers { let s = words_in (A.segments arena.now) in OnFalse result
        (kept (words_there s (place_view start) count) ≡ count → ⊥) }
{
    if count == 0 {
        return true;
    }
    let last = Place {
        segment: start.segment,
        position: start.position + (count - 1) as usize,
    };
    if word_or_zero(arena, last) == 0 {
        return false;
    }
    true
}

/// Tests whether a struct can't do with fewer words or pointers: neither its last data word nor its
/// last pointer is 0.
#[inline(always)]
pub(crate) fn is_least<A: ReaderArena>(arena: &A, start: Place, size: StructSize) -> bool
    requires { AreThere (words_in (A.segments arena.now)) (place_view start)
        (size.data_words + size.pointers) }
    ensures least { OnTrue result (IsLeast (words_in (A.segments arena.now)) (place_view start)
        size.data_words size.pointers) }
    ensures less { OnFalse result (IsLeast (words_in (A.segments arena.now)) (place_view start)
        size.data_words size.pointers → ⊥) }
{
    let first = Place {
        segment: start.segment,
        position: start.position + size.data_words as usize,
    };
    if !needs_all(arena, start, size.data_words) {
        return false;
    }
    if !needs_all(arena, first, size.pointers) {
        return false;
    }
    true
}

/// Returns the most words that any of n parts needs. Each part has m words, and the next is k words
/// on. If a part needs all of its words, no other part is looked at.
#[inline(always)]
pub(crate) fn most_needed<A: ReaderArena>(
    arena: &A,
    bytes: &[u8],
    start: Place,
    words: u16,
    width: usize,
    count: u32,
) -> u16
    requires bytes { bytes.now ≡ segment_bytes (A.segments arena.now) start.segment }
    requires short { width < 2 ^ 17 }
    requires there { (i : ℕ) → i < count
        → AreThere (words_in (A.segments arena.now)) (after (place_view start) (i * width)) words }
    ensures needed { result ≡ widest (λ p.
        needed_words words (section_at (words_in (A.segments arena.now)) p words))
        (place_view start) width count }
    ensures kept { result ≡ widest (λ p.
        kept (words_there (words_in (A.segments arena.now)) p words)) (place_view start) width
        count }
    ensures few { result ≤ words }
{
    let mut most = 0;
    if words == 0 {
        return most;
    }
    for i in 0..count {
        let part = Place {
            segment: start.segment,
            position: start.position + i as usize * width,
        };
        most = more_needed(arena, bytes, part, words, most);
        if most == words {
            return most;
        }
    }
    most
}

/// Bytes are numbers below 256.
#[inline(always)]
fn are_bytes(bytes: &[u8])
    ensures { (i : ℕ) → slice_index bytes.now i < 256 }
{}

/// The words of the segment of these bytes are numbers of 64 bits.
#[inline(always)]
fn are_words_of<A: ReaderArena>(arena: &A, bytes: &[u8], segment: u32)
    requires { bytes.now ≡ segment_bytes (A.segments arena.now) segment }
    ensures { AreWords (segment_words (words_in (A.segments arena.now)) segment) }
{
    are_bytes(bytes);
}

/// The words of a segment are numbers of 64 bits.
#[inline(always)]
pub(crate) fn are_words<A: ReaderArena>(arena: &A, segment: u32)
    ensures { AreWords (segment_words (words_in (A.segments arena.now)) segment) }
{
    are_words_of(arena, segment_bytes(arena, segment), segment);
}

/// Returns n words from a place on, if they are there.
#[inline(always)]
fn row_of<'a, A: ReaderArena>(arena: &A, bytes: &'a [u8], start: Place, count: usize) -> &'a [Word]
    requires bytes { bytes.now ≡ segment_bytes (A.segments arena.now) start.segment }
    requires there { AreThere (words_in (A.segments arena.now)) (place_view start) count }
    ensures words { words_view result.now
        ≡ words_there (words_in (A.segments arena.now)) (place_view start) count }
    ensures len { length result.now ≡ count }
{
    let (words, _) = bytes.as_chunks::<8>();
    &words[start.position..start.position + count]
}

/// Puts words over those from a place on, out of line. So the few words that `lay` puts itself don't
/// pay for a call.
#[inline(never)]
fn lay_many(into: &mut [Word], at: usize, row: &[Word])
    requires { at + length row.now ≤ length into.old }
    ensures { into.new ≡ take at into.old ++ (row.now ++ drop (at + length row.now) into.old) }
{
    into[at..at + row.len()].copy_from_slice(row);
}

/// The most words that are copied faster one by one than all at once.
const FEW_WORDS: usize = 6;

/// Puts words over those from a place on.
#[inline(always)]
fn lay(into: &mut [Word], at: usize, row: &[Word])
    requires { at + length row.now ≤ length into.old }
    ensures { into.new ≡ take at into.old ++ (row.now ++ drop (at + length row.now) into.old) }
{
    if row.len() > FEW_WORDS {
        lay_many(into, at, row);
        return;
    }
    if row.len() == 0 {
        return;
    }
    into[at] = row[0];
    if row.len() == 1 {
        return;
    }
    into[at + 1] = row[1];
    if row.len() == 2 {
        return;
    }
    into[at + 2] = row[2];
    if row.len() == 3 {
        return;
    }
    into[at + 3] = row[3];
    if row.len() == 4 {
        return;
    }
    into[at + 4] = row[4];
    if row.len() == 5 {
        return;
    }
    into[at + 5] = row[5];
}

/// Copies n words over those from a place on.
#[inline(always)]
pub(crate) fn copy_words<A: ReaderArena>(
    arena: &A,
    bytes: &[u8],
    start: Place,
    count: usize,
    into: &mut [Word],
    at: usize,
)
    requires bytes { bytes.now ≡ segment_bytes (A.segments arena.now) start.segment }
    requires there { AreThere (words_in (A.segments arena.now)) (place_view start) count }
    requires room { at + count ≤ length into.old }
    ensures words { words_view into.new
        ≡ with_section_at at count
        (section_at (words_in (A.segments arena.now)) (place_view start) count)
        (words_view into.old) }
    ensures behind { Behind (at + count) into.old into.new }
{
    are_words_of(arena, bytes, start.segment);
    lay(into, at, row_of(arena, bytes, start, count));
}
