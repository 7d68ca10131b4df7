//! Room for new objects near the pointers that will name them.
ghost use Rattle.std.specs.Prelude.{◌≡◌, ◌+◌, ◌-◌, ◌*◌, ◌<◌, ◌≤◌, ◌^◌, true, IfOk, IfErr, OnErr};
ghost use Rattle.std.specs.Option.{is_some};
ghost use Rattle.capnp_model.specs.Segments.{word_at, words_at};
ghost use Rattle.capnp_model.specs.Encoding.{struct_pointer, list_pointer};
ghost use Rattle.capnp_units.specs.Segments.{words_in};
ghost use Rattle.capnp_units.specs.Sizes.{size_number};
ghost use Rattle.capnp_wire_objects.specs.Places.{place_view};
ghost use Rattle.capnp_copy_arenas.specs.Allocations.{PassesOrRefused};
ghost use Rattle.capnp_copy_arenas.specs.Rooms.{MakesRoom, IsNearSlot, UsesNearSlot, IsSizeOfWords, LacksRoom, IsAddressed, HasPad, begin_of, slot_word, with_pad, linked};

use crate::arena::BuilderArena;
use capnp_units::errors::Result;
use capnp_units::sizes::{ElementSize, StructSize};
use capnp_wire_objects::place::Place;

/// The beginning of the upper half of a pointer word, 32 bits up.
const UPPER_HALF: u64 = 0x1_0000_0000;
/// The unit of a struct pointer's count of pointers, 48 bits up.
const POINTERS: u64 = 0x1_0000_0000_0000;
/// The unit of a list pointer's count of elements, 35 bits up.
const ELEMENTS: u64 = 0x8_0000_0000;
/// The offset -1, in thirty bits.
const IN_FRONT: u64 = 0x3fff_ffff;
/// The unit of an offset, two bits up.
const OFFSET: u64 = 4;
/// The kind of a far pointer to a pad of one word.
const FAR: u64 = 2;
/// The unit of a pad's position, three bits up.
const PAD_POSITION: u64 = 8;

/// The place of an object that a pointer will name, relative to the pointer.
#[derive(Clone, Copy, Debug, PartialEq, Eq)]
pub enum Room {
    /// At the pointer itself: the object has no words.
    Here,
    /// In the pointer's segment, n words after the pointer's end.
    Near { offset: u32 },
    /// After a pad of one word, in any segment.
    Far { pad: Place },
}

/// Returns the word of a pointer to a struct of a size, with offset 0.
pub fn struct_word(size: StructSize) -> u64
    ensures word { result ≡ struct_pointer 0 size.data_words size.pointers }
    ensures offset { result < 2 ^ 64 - 2 ^ 32 + 4 }
    ensures fits { (size.data_words < 2 ^ 16) × (size.pointers < 2 ^ 16) }
{
    size.data_words as u64 * UPPER_HALF + size.pointers as u64 * POINTERS
}

/// Returns the word of a pointer to a list, with offset 0.
pub fn list_word(size: ElementSize, count: u32) -> u64
    requires { count < 2 ^ 29 }
    ensures word { result ≡ list_pointer 0 (size_number size) count }
    ensures offset { result < 2 ^ 64 - 2 ^ 32 + 4 }
{
    1 + size.number() * UPPER_HALF + count as u64 * ELEMENTS
}

/// Allocates words for an object that the pointer at a place will name. The words are in the
/// pointer's segment if it has room for them, otherwise after a pad of one word in any segment,
/// which may be new. An object without words takes no words. Nothing is written.
///
/// It is refused with `SizeOverflow` exactly when the message's words, including the pad, would
/// exceed 2^29 - 1, otherwise with the allocator's error for the words and a pad. The allocator is
/// only asked if the pointer's segment has no room for the words and the last segment has no room
/// for the words and a pad. After a refusal nothing is allocated.
#[inline(always)]
pub fn allocate_near<A: BuilderArena>(arena: &mut A, slot: Place, words: u32) -> Result<Room>
    requires there { is_some (word_at (words_in (A.segments arena.old)) (place_view slot)) ≡ true }
    requires few { words ≤ 2 ^ 29 }
    ensures ok { IfOk result (MakesRoom (A.segments arena.old) (A.segments arena.new) slot words) }
    ensures near { IfOk result (IsNearSlot (A.segments arena.old) (A.room arena.old) slot words) }
    ensures left { IfOk result (UsesNearSlot (A.room arena.old) (A.room arena.new) slot words) }
    ensures refused { OnErr result (A.segments arena.new ≡ A.segments arena.old) }
    ensures kept { OnErr result (A.room arena.new ≡ A.room arena.old) }
    ensures kind { IfErr result (IsSizeOfWords (A.segments arena.old) words) }
    ensures cause { IfErr result
        (PassesOrRefused (A.segments arena.old) (A.refuses arena.old) (words + 1)) }
    ensures full { OnErr result (LacksRoom (A.segments arena.old) (A.room arena.old) slot words) }
    ensures books { A.books arena.new ≡ A.books arena.old }
{
    if words == 0 {
        return Ok(Room::Here);
    }
    if let Some(at) = arena.allocate(slot.segment, words) {
        let offset = (at as usize - (slot.position + 1)) as u32;
        return Ok(Room::Near { offset });
    }
    let (segment, at) = arena.allocate_anywhere(words + 1)?;
    let pad = Place {
        segment,
        position: at as usize,
    };
    Ok(Room::Far { pad })
}

/// Returns the place at which the object begins that the pointer at a place names.
#[inline(always)]
pub fn begin_of(slot: Place, room: Room) -> Place
    requires slot { slot.position < 2 ^ 61 }
    requires room { IsAddressed room }
    ensures { place_view result ≡ begin_of (place_view slot) room }
{
    match room {
        Room::Here => slot,
        Room::Near { offset } => Place {
            segment: slot.segment,
            position: slot.position + 1 + offset as usize,
        },
        Room::Far { pad } => Place {
            segment: pad.segment,
            position: pad.position + 1,
        },
    }
}

/// Returns the word of a pointer in its slot: a far pointer if the object is after a pad.
#[inline(always)]
fn slot_word(room: Room, pointer: u64) -> u64
    requires room { IsAddressed room }
    requires offset { pointer < 2 ^ 64 - 2 ^ 32 + 4 }
    ensures { result ≡ slot_word room pointer }
{
    match room {
        Room::Here => pointer + OFFSET * IN_FRONT,
        Room::Near { offset } => pointer + OFFSET * offset as u64,
        Room::Far { pad } => {
            FAR + PAD_POSITION * pad.position as u64 + UPPER_HALF * pad.segment as u64
        }
    }
}

/// Writes the pad, if there is one.
fn write_pad<A: BuilderArena>(arena: &mut A, room: Room, pointer: u64)
    requires { HasPad (words_in (A.segments arena.old)) room }
    ensures words { words_in (A.segments arena.new)
        ≡ with_pad (words_in (A.segments arena.old)) room pointer }
    ensures room { A.room arena.new ≡ A.room arena.old }
    ensures books { A.books arena.new ≡ A.books arena.old }
{
    if let Room::Far { pad } = room {
        arena.write_word(pad, pointer);
    }
}

/// Writes the pad, if there is one, and then the pointer, whose word the caller gives with offset
/// 0.
#[inline(always)]
pub fn link<A: BuilderArena>(arena: &mut A, slot: Place, room: Room, pointer: u64)
    requires slot { is_some (words_at (words_in (A.segments arena.old)) (place_view slot) 1)
        ≡ true }
    requires pad { HasPad (words_in (A.segments arena.old)) room }
    requires room { IsAddressed room }
    requires offset { pointer < 2 ^ 64 - 2 ^ 32 + 4 }
    ensures words { words_in (A.segments arena.new)
        ≡ linked (words_in (A.segments arena.old)) (place_view slot) room pointer }
    ensures room { A.room arena.new ≡ A.room arena.old }
    ensures books { A.books arena.new ≡ A.books arena.old }
{
    write_pad(arena, room, pointer);
    arena.write_word(slot, slot_word(room, pointer));
}
