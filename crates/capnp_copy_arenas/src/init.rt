//! New values of zeros and nulls that replace others.
ghost use Rattle.std.specs.Prelude.{◌≡◌, ◌+◌, ◌-◌, ◌<◌, ◌≤◌, ◌^◌, true};
ghost use Rattle.std.specs.Option.{is_some};
ghost use Rattle.capnp_model.specs.Segments.{words_at};
ghost use Rattle.capnp_units.specs.Segments.{words_in};
ghost use Rattle.capnp_units.specs.Sizes.{size_number};
ghost use Rattle.capnp_wire_objects.specs.Places.{place_view};
ghost use Rattle.capnp_copy_arenas.specs.Inits.{InitsZeros, InitsStruct, InitsList};
ghost use Rattle.capnp_copy_arenas.specs.Lists.{words_of_list};
ghost use Rattle.capnp_copy_arenas.specs.Refusals.{IsSizeOrRefusal};
ghost use Rattle.capnp_copy_arenas.specs.States.{state_in};

use crate::arena::BuilderArena;
use crate::clear::clear;
use crate::fields::StructPlace;
use crate::room::{allocate_near, begin_of, link, list_word, struct_word};
use capnp_units::errors::{Error, Result};
use capnp_units::kinds::ErrorKind;
use capnp_units::limits::MOST_WORDS;
use capnp_units::sizes::{ElementSize, StructSize};
use capnp_wire_objects::object::words_of_elements;
use capnp_wire_objects::place::Place;

/// The place of a list.
/// - `start`: its first element, or the tag of structs;
/// - `size`: the size of an element;
/// - `claimed`: the count in the pointer, which is of the elements, or of the words of structs;
/// - `count`: the number of elements;
/// - `data_words`, `pointers`: the two sections of each struct, in words.
#[derive(Clone, Copy, Debug, PartialEq, Eq)]
pub struct ListPlace {
    pub start: Place,
    pub size: ElementSize,
    pub claimed: u32,
    pub count: u32,
    pub data_words: u16,
    pub pointers: u16,
}

/// Replaces the value of the pointer at a place, which is cleared, by an object of n zero words,
/// and returns the place at which the object begins. The caller gives the new pointer's word with
/// offset 0.
///
/// It is inlined, like the functions of `room`: the sizes of a caller are mostly constants.
///
/// It is refused, and everything is unchanged,
/// - with `SizeOverflow` exactly when the message's words, including a pad, would exceed 2^29 - 1;
/// - otherwise with the allocator's error.
#[inline(always)]
fn init_zeros<A: BuilderArena>(
    arena: &mut A,
    slot: Place,
    words: u32,
    pointer: u64,
) -> Result<Place>
    requires there { is_some (words_at (words_in (A.segments arena.old)) (place_view slot) 1)
        ≡ true }
    requires near { slot.position < 2 ^ 61 }
    requires few { words ≤ 2 ^ 29 }
    requires offset { pointer < 2 ^ 64 - 2 ^ 32 + 4 }
    ensures { let at = state_in A.segments A.room A.books in
        InitsZeros (at arena.old) (at arena.new) slot words pointer result
        (IsSizeOrRefusal A.refuses) }
{
    let room = allocate_near(arena, slot, words)?;
    clear(arena, slot);
    link(arena, slot, room, pointer);
    Ok(begin_of(slot, room))
}

/// Replaces the value of the pointer at a place, which is cleared, by a struct of zeros and nulls.
///
/// It is refused, and everything is unchanged,
/// - with `SizeOverflow` exactly when the message's words, including a pad, would exceed 2^29 - 1;
/// - otherwise with the allocator's error.
#[inline(always)]
pub fn init_struct<A: BuilderArena>(
    arena: &mut A,
    slot: Place,
    size: StructSize,
) -> Result<StructPlace>
    requires there { is_some (words_at (words_in (A.segments arena.old)) (place_view slot) 1)
        ≡ true }
    requires near { slot.position < 2 ^ 61 }
    ensures { let at = state_in A.segments A.room A.books in
        InitsStruct (at arena.old) (at arena.new) slot size result
        (IsSizeOrRefusal A.refuses) }
{
    let start = init_zeros(arena, slot, size.total(), struct_word(size))?;
    Ok(StructPlace {
        start,
        data_words: size.data_words,
        pointers: size.pointers,
    })
}

/// Returns the number of words of n elements, which are plain or pointers.
fn words_of(size: ElementSize, count: u32) -> u32
    requires plain { size_number size < 7 }
    requires few { count < 2 ^ 29 }
    ensures words { result ≡ words_of_list (size_number size) count }
    ensures few { result < 2 ^ 29 }
    ensures small { count < 2 ^ 29 }
{
    match size {
        ElementSize::Pointer => count,
        _ => words_of_elements(size, count) as u32,
    }
}

/// Replaces the value of the pointer at a place, which is cleared, by a list of zeros or of nulls.
/// The elements are plain or pointers.
///
/// It is refused, and everything is unchanged,
/// - with `SizeOverflow` exactly when the count or the message's words, including a pad, would
///   exceed 2^29 - 1;
/// - otherwise with the allocator's error.
#[inline(always)]
pub fn init_list<A: BuilderArena>(
    arena: &mut A,
    slot: Place,
    size: ElementSize,
    count: u32,
) -> Result<ListPlace>
    requires there { is_some (words_at (words_in (A.segments arena.old)) (place_view slot) 1)
        ≡ true }
    requires near { slot.position < 2 ^ 61 }
    requires plain { size_number size < 7 }
    ensures { let at = state_in A.segments A.room A.books in
        InitsList (at arena.old) (at arena.new) slot size count result
        (IsSizeOrRefusal A.refuses) }
{
    if count > MOST_WORDS {
        return Err(Error::from(ErrorKind::SizeOverflow));
    }
    let start = init_zeros(arena, slot, words_of(size, count), list_word(size, count))?;
    Ok(ListPlace {
        start,
        size,
        claimed: count,
        count,
        data_words: 0,
        pointers: 0,
    })
}
