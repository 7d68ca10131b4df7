//! Structs that are copied by their sections.
ghost use Rattle.std.specs.Prelude.{◌≡◌, ◌+◌, ◌-◌, ◌*◌, ◌^◌, ◌<◌, ◌≤◌, length};
ghost use Rattle.capnp_wire_objects.specs.Places.{place_view};
ghost use Rattle.capnp_copy_arenas.specs.Refusals.{IsSizeOrRefusal};
ghost use Rattle.capnp_copy_arenas.specs.States.{HasWords};
ghost use Rattle.capnp_copy_values.specs.Copies.{source_in, limited, CopiesStruct, IsStoppedOr, struct_source};
ghost use Rattle.capnp_copy_values.specs.Fits.{limited_in};
ghost use Rattle.capnp_copy_values.specs.Sources.{visits_in_row, FitsStruct};

use crate::copy::fill_row;
use crate::objects::{copy_at, pointer_word, room_for};
use capnp_copy_arenas::arena::BuilderArena;
use capnp_copy_arenas::blobs::write_bytes;
use capnp_copy_arenas::clear::{clear, clear_object};
use capnp_copy_arenas::room::{begin_of, link};
use capnp_units::errors::Result;
use capnp_units::limiter::ReadLimiter;
use capnp_wire_objects::arena::ReaderArena;
use capnp_wire_objects::object::Object;
use capnp_wire_objects::place::Place;

/// Replaces the value of the pointer at a place, which is cleared, by a copy of a struct of a
/// source. The copy has the bytes of its data section, in as many words as they need, and the
/// values of its pointers, which follow one another. n levels may be followed from each pointer.
///
/// The struct's own words were paid for before, and its pointers are followed, nulls too. It is
/// refused
/// - like `copy_from` for its pointers;
/// - with `SizeOverflow` exactly when the message's words with the struct and a pad would exceed
///   2^29 - 1;
/// - otherwise with the allocator's error.
///
/// After a refusal all words are unchanged, and those that were allocated are zero. Refused or not,
/// it allocates at most twice the sum of the struct's words and the words that it grants. If the
/// pointer's segment has room for all words of the copy, it takes exactly these, and isn't refused
/// for lack of room.
pub fn set_struct<A: BuilderArena, B: ReaderArena>(
    arena: &mut A,
    slot: Place,
    limiter: &mut ReadLimiter,
    source: &B,
    section: &[u8],
    first: Place,
    pointers: u16,
    levels: u32,
) -> Result<()>
    requires there { HasWords (A.segments arena.old) slot 1 }
    requires near { (slot.position < 2 ^ 61) × (first.position + pointers < 2 ^ 62) }
    requires few { length section.now ≤ 8 * (2 ^ 16 - 1) }
    ensures copy { CopiesStruct (source_in levels (B.segments source.now)
        (struct_source section.now first pointers)) (place_view slot) (limited
        (A.segments arena.old) limiter.old) result (limited (A.segments arena.new) limiter.new) }
    ensures cause { IsStoppedOr (visits_in_row levels (B.segments source.now) (place_view first)
        pointers) limiter.old limiter.new (IsSizeOrRefusal A.refuses) result }
    ensures fits { let at = limited_in A.segments A.room A.books in FitsStruct (source_in levels
        (B.segments source.now) (struct_source section.now first pointers)) slot
        (at arena.old limiter.old) result (at arena.new limiter.new) }
    ensures books { A.books arena.new ≡ A.books arena.old }
{
    let data_words = ((section.len() + 7) / 8) as u16;
    let object = Object::Struct {
        start: first,
        data_words,
        pointers,
    };
    let room = room_for(arena, slot, object)?;
    let start = begin_of(slot, room);
    write_bytes(arena, start, data_words as usize, section);
    let count = pointers as u32;
    match fill_row(
        arena, start, data_words, count, limiter, source, first, levels,
    ) {
        Ok(()) => {
            clear(arena, slot);
            link(arena, slot, room, pointer_word(object));
            Ok(())
        }
        Err(error) => {
            clear_object(arena, copy_at(start, object));
            Err(error)
        }
    }
}
