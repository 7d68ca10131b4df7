//! Structs that are read for writing, and widened.
ghost use Rattle.std.specs.Prelude.{◌≡◌, ◌+◌, ◌<◌, ◌≤◌, ◌^◌, true};
ghost use Rattle.std.specs.Option.{is_some};
ghost use Rattle.capnp_model.specs.Segments.{after, words_at};
ghost use Rattle.capnp_units.specs.Segments.{words_in};
ghost use Rattle.capnp_wire_objects.specs.Places.{place_view};
ghost use Rattle.capnp_copy_arenas.specs.Refusals.{IsSizeOrRefusal};
ghost use Rattle.capnp_copy_arenas.specs.States.{HasWords, state_in};
ghost use Rattle.capnp_copy_arenas.specs.Structs.{object_of_struct};
ghost use Rattle.capnp_copy_arenas.specs.Values.{LeadsTo};
ghost use Rattle.capnp_copy_widening.specs.Widened.{WidensStruct, GetsStruct};

use crate::moves::{copy_words, move_pointers};
use crate::room::allocate_wider;
use capnp_copy_arenas::arena::BuilderArena;
use capnp_copy_arenas::clear::clear;
use capnp_copy_arenas::fields::StructPlace;
use capnp_copy_arenas::init::init_struct;
use capnp_copy_arenas::room::{begin_of, link, struct_word};
use capnp_units::errors::{Error, Result};
use capnp_units::kinds::ErrorKind;
use capnp_units::sizes::StructSize;
use capnp_wire_objects::object::{Object, object_at};
use capnp_wire_objects::place::Place;

/// Replaces a struct that the pointer at a place names by a wider struct: its data and children
/// move, and its own words and the pads become zero.
///
/// It is refused, and everything is unchanged,
/// - with `SizeOverflow` exactly when the message's words, including a pad and two words for each
///   old pointer, would exceed 2^29 - 1;
/// - otherwise with the allocator's error.
fn widen_struct<A: BuilderArena>(
    arena: &mut A,
    slot: Place,
    old: StructPlace,
    size: StructSize,
) -> Result<StructPlace>
    requires found { LeadsTo (words_in (A.segments arena.old)) (place_view slot)
        (object_of_struct old) }
    requires there { HasWords (A.segments arena.old) slot 1 }
    requires near { slot.position < 2 ^ 61 }
    requires inside { HasWords (A.segments arena.old) old.start (old.data_words + old.pointers) }
    requires close { old.start.position + (old.data_words + old.pointers) < 2 ^ 61 }
    requires wider { (old.data_words ≤ size.data_words) × (old.pointers ≤ size.pointers)
        × (0 < size.data_words + size.pointers) }
    ensures { let at = state_in A.segments A.room A.books in
        WidensStruct (at arena.old) (at arena.new) slot old size result
        (IsSizeOrRefusal A.refuses) }
{
    let pad_words = 2 * old.pointers as u64;
    let (room, pads) = allocate_wider(arena, slot, old.start.segment, size.total(), pad_words)?;
    let start = begin_of(slot, room);
    copy_words(arena, old.start, start, old.data_words as u32);
    let source = pointers_behind(old.start, old.data_words);
    let target = pointers_behind(start, size.data_words);
    move_pointers(arena, source, target, old.pointers as u32, pads);
    clear(arena, slot);
    link(arena, slot, room, struct_word(size));
    Ok(StructPlace {
        start,
        data_words: size.data_words,
        pointers: size.pointers,
    })
}

/// Returns the place of the first pointer of a struct, after its data.
fn pointers_behind(start: Place, data_words: u16) -> Place
    requires { start.position < 2 ^ 61 }
    ensures { place_view result ≡ after (place_view start) data_words }
{
    Place {
        segment: start.segment,
        position: start.position + data_words as usize,
    }
}

/// Returns the struct that the pointer at a place names, near or far, with at least these sections.
/// A null pointer gets an empty struct of them. A struct with a smaller section is widened: it
/// keeps everything that it holds and gets zeros and nulls, and the words that it leaves become
/// zero. A struct that is wide enough stays at its place.
///
/// It is refused, and everything is unchanged,
/// - like a reader refuses the object there (`object_at`);
/// - with `WrongPointerKind` if a list or a capability is there;
/// - with `SizeOverflow` exactly when the message's words would exceed 2^29 - 1. These include a
///   new struct and a pad, and for a wider struct also two words for each old pointer;
/// - otherwise with the allocator's error.
pub fn get_struct<A: BuilderArena>(
    arena: &mut A,
    slot: Place,
    size: StructSize,
) -> Result<StructPlace>
    requires there { is_some (words_at (words_in (A.segments arena.old)) (place_view slot) 1)
        ≡ true }
    requires near { slot.position < 2 ^ 61 }
    ensures { let at = state_in A.segments A.room A.books in
        GetsStruct (at arena.old) (at arena.new) slot size result
        (IsSizeOrRefusal A.refuses) }
{
    let found = object_at(arena, slot)?;
    match found.object {
        Object::Null => init_struct(arena, slot, size),
        Object::Struct {
            start,
            data_words,
            pointers,
        } => {
            let old = StructPlace {
                start,
                data_words,
                pointers,
            };
            if data_words >= size.data_words && pointers >= size.pointers {
                return Ok(old);
            }
            let wider = StructSize {
                data_words: size.data_words.max(data_words),
                pointers: size.pointers.max(pointers),
            };
            widen_struct(arena, slot, old, wider)
        }
        _ => Err(Error::from(ErrorKind::WrongPointerKind)),
    }
}
