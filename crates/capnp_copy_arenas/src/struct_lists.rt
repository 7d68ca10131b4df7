//! New lists of structs that replace other values.
ghost use Rattle.std.specs.Prelude.{◌≡◌, ◌+◌, ◌*◌, ◌<◌, ◌≤◌, ◌^◌, ◌⊎◌, true, IfOk, IfErr};
ghost use Rattle.std.specs.Option.{is_some};
ghost use Rattle.capnp_model.specs.Segments.{words_at};
ghost use Rattle.capnp_model.specs.Encoding.{struct_pointer};
ghost use Rattle.capnp_units.specs.Segments.{words_in};
ghost use Rattle.capnp_units.specs.declared.kinds.ErrorKind.TheVariants.{SizeOverflow};
ghost use Rattle.capnp_wire_objects.specs.Places.{place_view};
ghost use Rattle.capnp_copy_arenas.specs.Inits.{InitsStructList};
ghost use Rattle.capnp_copy_arenas.specs.Refusals.{IsSizeOrRefusal};
ghost use Rattle.capnp_copy_arenas.specs.States.{state_in};

use crate::arena::BuilderArena;
use crate::clear::clear;
use crate::init::ListPlace;
use crate::room::{allocate_near, begin_of, link, list_word, struct_word};
use capnp_units::errors::{Error, Result};
use capnp_units::kinds::ErrorKind;
use capnp_units::limits::MOST_WORDS;
use capnp_units::sizes::{ElementSize, StructSize};
use capnp_wire_objects::place::Place;

/// Returns the number of words of n structs of a size, if the words and the count are at most 2^29
/// - 1.
pub fn words_of_structs(count: u32, size: StructSize) -> Result<u32>
    ensures words { IfOk result (λ n. n ≡ count * (size.data_words + size.pointers)) }
    ensures few { IfOk result (λ n. (n < 2 ^ 29) × (count < 2 ^ 29)) }
    ensures kind { IfErr result (λ e.
        (e.kind ≡ SizeOverflow)
        × ((2 ^ 29 ≤ count) ⊎ (2 ^ 29 ≤ count * (size.data_words + size.pointers)))) }
{
    let words = count as u64 * size.total() as u64;
    if count > MOST_WORDS || words > MOST_WORDS as u64 {
        return Err(Error::from(ErrorKind::SizeOverflow));
    }
    Ok(words as u32)
}

/// Returns the tag of a list of n structs of a size.
pub fn tag_word(count: u32, size: StructSize) -> u64
    requires { count < 2 ^ 29 }
    ensures word { result ≡ struct_pointer count size.data_words size.pointers }
    ensures fits { (size.data_words < 2 ^ 16) × (size.pointers < 2 ^ 16) }
{
    struct_word(size) + 4 * count as u64
}

/// Replaces the value of the pointer at a place, which is cleared, by a list of structs of zeros
/// and nulls.
///
/// It is refused, and everything is unchanged,
/// - with `SizeOverflow` exactly when the count, the structs' words or the message's words,
///   including the tag and a pad, would exceed 2^29 - 1;
/// - otherwise with the allocator's error.
#[inline(always)]
pub fn init_struct_list<A: BuilderArena>(
    arena: &mut A,
    slot: Place,
    count: u32,
    size: StructSize,
) -> Result<ListPlace>
    requires there { is_some (words_at (words_in (A.segments arena.old)) (place_view slot) 1)
        ≡ true }
    requires near { slot.position < 2 ^ 61 }
    ensures { let at = state_in A.segments A.room A.books in
        InitsStructList (at arena.old) (at arena.new) slot count size result
        (IsSizeOrRefusal A.refuses) }
{
    let words = words_of_structs(count, size)?;
    let room = allocate_near(arena, slot, 1 + words)?;
    clear(arena, slot);
    let tag = begin_of(slot, room);
    arena.write_word(tag, tag_word(count, size));
    link(
        arena,
        slot,
        room,
        list_word(ElementSize::InlineComposite, words),
    );
    Ok(ListPlace {
        start: tag,
        size: ElementSize::InlineComposite,
        claimed: words,
        count,
        data_words: size.data_words,
        pointers: size.pointers,
    })
}
