//! Texts and data that replace other values.
ghost use Rattle.std.specs.Prelude.{◌≡◌, ◌+◌, ◌*◌, ◌/◌, ◌<◌, ◌≤◌, ◌^◌, true, length};
ghost use Rattle.std.specs.Option.{is_some};
ghost use Rattle.capnp_model.specs.Sections.{number_of};
ghost use Rattle.capnp_model.specs.Segments.{words_at};
ghost use Rattle.capnp_units.specs.Segments.{words_in};
ghost use Rattle.capnp_wire_objects.specs.Places.{place_view};
ghost use Rattle.capnp_copy_arenas.specs.Blobs.{with_bytes, whole_of};
ghost use Rattle.capnp_copy_arenas.specs.Inits.{PutsBytes};
ghost use Rattle.capnp_copy_arenas.specs.Refusals.{IsSizeOrRefusal};
ghost use Rattle.capnp_copy_arenas.specs.States.{state_in};

use crate::allocator::write_in;
use crate::arena::BuilderArena;
use crate::init::init_list;
use capnp_units::errors::{Error, Result};
use capnp_units::kinds::ErrorKind;
use capnp_units::limits::MOST_WORDS;
use capnp_units::primitive::Primitive;
use capnp_units::sizes::ElementSize;
use capnp_wire_objects::place::Place;

/// Returns the word of fewer than eight bytes; the missing bytes are zero.
fn last_word(rest: &[u8]) -> u64
    requires { length rest.now < 8 }
    ensures { result ≡ number_of 8 rest.now }
{
    let mut last = [0; 8];
    write_in(&mut last[..], 0, rest);
    u64::get(&last)
}

/// Writes bytes over n words, which they fill except for the last; the rest of the last word
/// becomes zero.
#[inline(always)]
pub fn write_bytes<A: BuilderArena>(arena: &mut A, start: Place, words: usize, bytes: &[u8])
    requires near { start.position + words < 2 ^ 61 }
    requires there { is_some (words_at (words_in (A.segments arena.old)) (place_view start) words)
        ≡ true }
    requires fill { (whole_of bytes.now ≤ words) × (words ≤ whole_of bytes.now + 1) }
    ensures words { words_in (A.segments arena.new)
        ≡ with_bytes (words_in (A.segments arena.old)) (place_view start) words bytes.now }
    ensures room { A.room arena.new ≡ A.room arena.old }
    ensures books { A.books arena.new ≡ A.books arena.old }
{
    let whole = bytes.len() / 8;
    arena.write_words(start, &bytes[..8 * whole]);
    if whole < words {
        let last = Place {
            segment: start.segment,
            position: start.position + whole,
        };
        arena.write_word(last, last_word(&bytes[8 * whole..]));
    }
}

/// Replaces the value of the pointer at a place, which is cleared, by a list of n bytes: these
/// bytes, and at most one zero byte after them.
#[inline(always)]
fn set_bytes<A: BuilderArena>(arena: &mut A, slot: Place, bytes: &[u8], count: u32) -> Result<()>
    requires there { is_some (words_at (words_in (A.segments arena.old)) (place_view slot) 1)
        ≡ true }
    requires near { slot.position < 2 ^ 61 }
    requires all { (length bytes.now ≤ count) × (count ≤ length bytes.now + 1) }
    ensures { let at = state_in A.segments A.room A.books in
        PutsBytes (at arena.old) (at arena.new) slot count bytes.now result
        (IsSizeOrRefusal A.refuses) }
{
    let list = init_list(arena, slot, ElementSize::Byte, count)?;
    let words = (count as usize + 7) / 8;
    write_bytes(arena, list.start, words, bytes);
    Ok(())
}

/// Replaces the value of the pointer at a place, which is cleared, by data.
///
/// It is refused, and everything is unchanged,
/// - with `SizeOverflow` exactly when the bytes or the message's words, including a pad, would
///   exceed 2^29 - 1;
/// - otherwise with the allocator's error.
pub fn set_data<A: BuilderArena>(arena: &mut A, slot: Place, bytes: &[u8]) -> Result<()>
    requires there { is_some (words_at (words_in (A.segments arena.old)) (place_view slot) 1)
        ≡ true }
    requires near { slot.position < 2 ^ 61 }
    ensures { let at = state_in A.segments A.room A.books in
        PutsBytes (at arena.old) (at arena.new) slot (length bytes.now) bytes.now result
        (IsSizeOrRefusal A.refuses) }
{
    if bytes.len() > MOST_WORDS as usize {
        return Err(Error::from(ErrorKind::SizeOverflow));
    }
    set_bytes(arena, slot, bytes, bytes.len() as u32)
}

/// Replaces the value of the pointer at a place, which is cleared, by a text: its bytes, followed
/// by a zero byte.
///
/// It is refused, and everything is unchanged,
/// - with `SizeOverflow` exactly when the bytes with the zero byte, or the message's words,
///   including a pad, would exceed 2^29 - 1;
/// - otherwise with the allocator's error.
#[inline(always)]
pub fn set_text<A: BuilderArena>(arena: &mut A, slot: Place, text: &[u8]) -> Result<()>
    requires there { is_some (words_at (words_in (A.segments arena.old)) (place_view slot) 1)
        ≡ true }
    requires near { slot.position < 2 ^ 61 }
    ensures { let at = state_in A.segments A.room A.books in
        PutsBytes (at arena.old) (at arena.new) slot (length text.now + 1) text.now result
        (IsSizeOrRefusal A.refuses) }
{
    if text.len() >= MOST_WORDS as usize {
        return Err(Error::from(ErrorKind::SizeOverflow));
    }
    set_bytes(arena, slot, text, text.len() as u32 + 1)
}
