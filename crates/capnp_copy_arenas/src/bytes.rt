//! Bytes of texts and data, in place.
ghost use Rattle.std.specs.Prelude.{◌≡◌, ◌+◌, ◌*◌, ◌%◌, ◌<◌, ◌≤◌, ◌^◌, length, map, replicate};
ghost use Rattle.capnp_model.specs.Sections.{number_of, numbers_in};
ghost use Rattle.capnp_units.specs.Segments.{words_in};
ghost use Rattle.capnp_copy_arenas.specs.Bytes.{HasBytes, SetsBytes, bytes_lent};

use crate::allocator::write_in;
use crate::arena::BuilderArena;
use crate::bits::word_with;
use capnp_units::primitive::Primitive;
use capnp_wire::backing::Backing;
use capnp_wire_objects::arena::ReaderArena;
use capnp_wire_objects::place::{Place, has_words, word_at};

/// The place of the bytes of a text or of data: their first word and their number, without a text's
/// zero byte.
#[derive(Clone, Copy, Debug, PartialEq, Eq)]
pub struct BlobPlace {
    pub start: Place,
    pub count: u32,
}

/// Returns the first n bytes.
fn front_of(bytes: &[u8], count: usize) -> &[u8]
    requires { count ≤ length bytes.now }
    ensures { result.now ≡ numbers_in 8 count (number_of 8 bytes.now) }
{
    &bytes[..count]
}

/// Returns the bytes at a place, lent in place; `None` if their words don't exist.
pub fn get_bytes<A: ReaderArena>(arena: &A, blob: BlobPlace) -> &[u8]
    ensures has { HasBytes (words_in (A.segments arena.now)) blob result.now }
    ensures lent { result.now ≡ bytes_lent (words_in (A.segments arena.now)) blob }
{
    let words = (blob.count as usize + 7) / 8;
    if !has_words(arena, blob.start, words) {
        return &[];
    }
    let bytes = Backing::Arena(arena).lend(blob.start, words);
    front_of(bytes, blob.count as usize)
}

/// Returns the number of at most eight bytes, the lowest byte first.
fn number_in_bytes(bytes: &[u8]) -> u64
    requires { length bytes.now ≤ 8 }
    ensures { result ≡ number_of 8 bytes.now }
{
    let mut all = [0; 8];
    write_in(&mut all[..], 0, bytes);
    u64::get(&all)
}

/// Writes bytes over as many bytes from an index on, which are in one word.
fn set_in_word<A: BuilderArena>(arena: &mut A, start: Place, at: usize, bytes: &[u8])
    requires near { start.position < 2 ^ 61 }
    requires few { at < 2 ^ 61 }
    requires one_word { at % 8 + length bytes.now ≤ 8 }
    ensures sets { SetsBytes (words_in (A.segments arena.old)) (words_in (A.segments arena.new))
        start at bytes.now }
    ensures sizes { map length (words_in (A.segments arena.new))
        ≡ map length (words_in (A.segments arena.old)) }
    ensures books { A.books arena.new ≡ A.books arena.old }
{
    if bytes.is_empty() {
        return;
    }
    let place = Place {
        segment: start.segment,
        position: start.position + at / 8,
    };
    if let Some(word) = word_at(arena, place) {
        let first = 8 * (at % 8) as u32;
        let word = word_with(word, first, 8 * bytes.len() as u32, number_in_bytes(bytes));
        arena.write_word(place, word);
    }
}

/// Writes the bytes of whole words over as many bytes.
fn set_words<A: BuilderArena>(arena: &mut A, start: Place, at: usize, bytes: &[u8])
    requires near { start.position < 2 ^ 61 }
    requires few { at < 2 ^ 61 }
    requires whole { (at % 8 ≡ 0) × (length bytes.now % 8 ≡ 0) }
    ensures sets { SetsBytes (words_in (A.segments arena.old)) (words_in (A.segments arena.new))
        start at bytes.now }
    ensures sizes { map length (words_in (A.segments arena.new))
        ≡ map length (words_in (A.segments arena.old)) }
    ensures books { A.books arena.new ≡ A.books arena.old }
{
    let place = Place {
        segment: start.segment,
        position: start.position + at / 8,
    };
    if has_words(arena, place, bytes.len() / 8) {
        arena.write_words(place, bytes);
    }
}

/// Writes bytes over as many bytes from the front of a word on.
fn set_from_word<A: BuilderArena>(arena: &mut A, start: Place, at: usize, bytes: &[u8])
    requires near { start.position < 2 ^ 61 }
    requires few { at + length bytes.now < 2 ^ 61 }
    requires front { at % 8 ≡ 0 }
    ensures sets { SetsBytes (words_in (A.segments arena.old)) (words_in (A.segments arena.new))
        start at bytes.now }
    ensures sizes { map length (words_in (A.segments arena.new))
        ≡ map length (words_in (A.segments arena.old)) }
    ensures books { A.books arena.new ≡ A.books arena.old }
{
    let whole = bytes.len() / 8 * 8;
    set_words(arena, start, at, &bytes[..whole]);
    set_in_word(arena, start, at + whole, &bytes[whole..]);
}

/// Writes bytes over as many of those at the place, from an index on, and returns the index after
/// them. The bytes of whole words are written at once.
pub fn set_bytes<A: BuilderArena>(arena: &mut A, blob: BlobPlace, at: usize, bytes: &[u8]) -> usize
    requires near { blob.start.position < 2 ^ 61 }
    requires inside { at + length bytes.now ≤ blob.count }
    ensures end { result ≡ at + length bytes.now }
    ensures sets { SetsBytes (words_in (A.segments arena.old)) (words_in (A.segments arena.new))
        blob.start at bytes.now }
    ensures sizes { map length (words_in (A.segments arena.new))
        ≡ map length (words_in (A.segments arena.old)) }
    ensures books { A.books arena.new ≡ A.books arena.old }
{
    let start = blob.start;
    let end = at + bytes.len();
    let front = (8 - at % 8) % 8;
    if bytes.len() <= front {
        set_in_word(arena, start, at, bytes);
        return end;
    }
    set_in_word(arena, start, at, &bytes[..front]);
    set_from_word(arena, start, at + front, &bytes[front..]);
    end
}

/// Writes zeros over the bytes of the first n words.
fn zero_front<A: BuilderArena>(arena: &mut A, start: Place, words: usize)
    ensures sets { SetsBytes (words_in (A.segments arena.old)) (words_in (A.segments arena.new))
        start 0 (replicate (8 * words) 0) }
    ensures sizes { map length (words_in (A.segments arena.new))
        ≡ map length (words_in (A.segments arena.old)) }
    ensures books { A.books arena.new ≡ A.books arena.old }
{
    if has_words(arena, start, words) {
        arena.zero_words(start, words);
    }
}

/// Writes zeros over the bytes at the place.
pub fn zero_bytes<A: BuilderArena>(arena: &mut A, blob: BlobPlace)
    requires { blob.start.position < 2 ^ 61 }
    ensures sets { SetsBytes (words_in (A.segments arena.old)) (words_in (A.segments arena.new))
        blob.start 0 (replicate blob.count 0) }
    ensures sizes { map length (words_in (A.segments arena.new))
        ≡ map length (words_in (A.segments arena.old)) }
    ensures books { A.books arena.new ≡ A.books arena.old }
{
    let words = blob.count as usize / 8;
    zero_front(arena, blob.start, words);
    let rest = [0; 8];
    let left = blob.count as usize % 8;
    set_in_word(arena, blob.start, 8 * words, &rest[..left]);
}
