//! Words and pointers that move from an object to another.
ghost use Rattle.std.specs.Prelude.{◌≡◌, ◌+◌, ◌-◌, ◌*◌, ◌<◌, ◌≤◌, ◌^◌, IfOk};
ghost use Rattle.std.specs.Option.{option_map};
ghost use Rattle.capnp_units.specs.Segments.{words_in};
ghost use Rattle.capnp_wire_objects.specs.Places.{place_view};
ghost use Rattle.capnp_wire_objects.specs.Named.{named_view};
ghost use Rattle.capnp_copy_arenas.specs.Allocations.{total_words};
ghost use Rattle.capnp_copy_arenas.specs.States.{HasWords, KeepsSizes};
ghost use Rattle.capnp_copy_widening.specs.Moves.{CopiesWords, pads_of, HasPads, HasPadIfFar, offset_to, pointed_at, MovesValue, MovesRow, start_of, pad_from, IsNearPad, AreNamed};

use capnp_copy_arenas::arena::BuilderArena;
use capnp_units::errors::Result;
use capnp_wire_objects::named::{FoundObject, NamedObject, found_at};
use capnp_wire_objects::place::{Place, has_words, word_at};

/// The beginning of the upper half of a pointer word, 32 bits up.
const UPPER_HALF: u64 = 0x1_0000_0000;
/// The number of kinds of pointers; the lowest two bits of a word are the kind.
const KINDS: u64 = 4;
/// The kind of a far pointer. The lower kinds, of structs and lists, have an offset.
const FAR: u64 = 2;
/// The kind of a far pointer, with the mark that its pad has two words.
const DOUBLE_FAR: u64 = 6;
/// The unit of a pad's position, three bits up.
const POSITION: u64 = 8;
/// The number of offsets of thirty bits.
const OFFSETS: usize = 0x4000_0000;
/// The unit of an offset, two bits up.
const OFFSET: u64 = 4;
/// The word of a pointer to an empty struct, which is at the pointer itself, at offset -1.
const EMPTY_STRUCT: u64 = 0xffff_fffc;

/// Writes n words from one place on at another, if the two do not overlap.
pub fn copy_words<A: BuilderArena>(arena: &mut A, from: Place, to: Place, count: u32)
    requires from { HasWords (A.segments arena.old) from count }
    requires to { HasWords (A.segments arena.old) to count }
    requires near { (from.position + count < 2 ^ 61) × (to.position + count < 2 ^ 61) }
    ensures words { CopiesWords (words_in (A.segments arena.old))
        (words_in (A.segments arena.new)) (place_view from) (place_view to) count }
    ensures sizes { KeepsSizes (A.segments arena.old) (A.segments arena.new) }
    ensures books { A.books arena.new ≡ A.books arena.old }
{
    for i in 0..count {
        let source = Place {
            segment: from.segment,
            position: from.position + i as usize,
        };
        let target = Place {
            segment: to.segment,
            position: to.position + i as usize,
        };
        let word = word_at(arena, source).unwrap_or(0);
        arena.write_word(target, word);
    }
}

/// Writes a pointer whose word the caller gives with offset 0: to an object in its segment, or over
/// a pad of two words.
fn point_at<A: BuilderArena>(
    arena: &mut A,
    slot: Place,
    start: Place,
    pad: Option<Place>,
    pointer: u64,
)
    requires slot { HasWords (A.segments arena.old) slot 1 }
    requires pad { HasPads (words_in (A.segments arena.old)) pad 1 }
    requires near { (slot.position < 2 ^ 29) × (start.position < 2 ^ 29) }
    requires offset { pointer < 2 ^ 64 - 2 ^ 32 + 4 }
    ensures words { words_in (A.segments arena.new)
        ≡ pointed_at (words_in (A.segments arena.old)) (place_view slot) (place_view start) pad
        pointer }
    ensures named { AreNamed pad start.segment }
    ensures books { A.books arena.new ≡ A.books arena.old }
{
    match pad {
        None => {
            let offset = (start.position + OFFSETS - (slot.position + 1)) % OFFSETS;
            arena.write_word(slot, pointer + OFFSET * offset as u64);
        }
        Some(pad) => {
            let second = Place {
                segment: pad.segment,
                position: pad.position + 1,
            };
            let there = FAR + POSITION * start.position as u64 + UPPER_HALF * start.segment as u64;
            arena.write_word(pad, there);
            arena.write_word(second, pointer);
            let far = DOUBLE_FAR + POSITION * pad.position as u64 + UPPER_HALF * pad.segment as u64;
            arena.write_word(slot, far);
        }
    }
}

/// Returns the place at which the struct or the list begins that was found.
fn start_of(found: Result<FoundObject>) -> Option<Place>
    ensures { IfOk found (λ f. option_map place_view result ≡ start_of (named_view f.object)) }
{
    match found {
        Ok(
            FoundObject {
                object: NamedObject::Struct { start, .. } | NamedObject::List { start, .. },
                ..
            },
        ) => Some(start),
        _ => None,
    }
}

/// Moves the value of the pointer at one place to another, which has null: the first becomes null.
/// The object of the pointer stays at its place, so the new pointer needs a pad of two words if it
/// is in another segment.
pub fn move_pointer<A: BuilderArena>(arena: &mut A, from: Place, to: Place, pad: Option<Place>)
    requires from { HasWords (A.segments arena.old) from 1 }
    requires to { HasWords (A.segments arena.old) to 1 }
    requires pad { HasPads (words_in (A.segments arena.old)) pad 1 }
    requires reached { HasPadIfFar pad from.segment to.segment }
    requires few { total_words (words_in (A.segments arena.old)) < 2 ^ 29 }
    ensures value { MovesValue (words_in (A.segments arena.old)) (words_in (A.segments arena.new))
        (place_view from) (place_view to) (pads_of pad 1) }
    ensures sizes { KeepsSizes (A.segments arena.old) (A.segments arena.new) }
    ensures books { A.books arena.new ≡ A.books arena.old }
{
    let word = word_at(arena, from).unwrap_or(0);
    if word == 0 {
        return;
    }
    if word % KINDS >= FAR {
        arena.write_word(from, 0);
        arena.write_word(to, word);
        return;
    }
    let Some(start) = start_of(found_at(arena, from)) else {
        return;
    };
    if !has_words(arena, start, 0) {
        return;
    }
    arena.write_word(from, 0);
    let pointer = word % KINDS + word / UPPER_HALF * UPPER_HALF;
    if pointer == 0 {
        arena.write_word(to, EMPTY_STRUCT);
    } else {
        point_at(arena, to, start, pad, pointer);
    }
}

/// Moves the values of n pointers in a row to another row, which begins with as many nulls. Each
/// takes a pad of two words of its own, unless no pad is given.
pub fn move_pointers<A: BuilderArena>(
    arena: &mut A,
    from: Place,
    to: Place,
    count: u32,
    pads: Option<Place>,
)
    requires from { HasWords (A.segments arena.old) from count }
    requires to { HasWords (A.segments arena.old) to count }
    requires pads { HasPads (words_in (A.segments arena.old)) pads count }
    requires reached { HasPadIfFar pads from.segment to.segment }
    requires few { total_words (words_in (A.segments arena.old)) < 2 ^ 29 }
    requires near { (from.position + count < 2 ^ 61) × (to.position + count < 2 ^ 61) }
    ensures row { MovesRow (words_in (A.segments arena.old)) (words_in (A.segments arena.new))
        (place_view from) (place_view to) count (pads_of pads count) }
    ensures sizes { KeepsSizes (A.segments arena.old) (A.segments arena.new) }
    ensures books { A.books arena.new ≡ A.books arena.old }
{
    for i in 0..count {
        let source = Place {
            segment: from.segment,
            position: from.position + i as usize,
        };
        let target = Place {
            segment: to.segment,
            position: to.position + i as usize,
        };
        move_pointer(arena, source, target, pad_at(pads, i));
    }
}

/// Returns the pad of the pointer at an index, if there are pads.
pub fn pad_at(pads: Option<Place>, index: u32) -> Option<Place>
    requires { IsNearPad pads index }
    ensures { result ≡ pad_from pads index }
{
    match pads {
        None => None,
        Some(first) => Some(Place {
            segment: first.segment,
            position: first.position + 2 * index as usize,
        }),
    }
}
