//! Lists that are read as lists of structs for writing, and widened.
ghost use Rattle.std.specs.Prelude.{◌≡◌, ◌+◌, ◌*◌, ◌<◌, ◌≤◌, ◌^◌, ◌↔◌, true, Ok, IfOk, IfErr};
ghost use Rattle.std.specs.Option.{is_some};
ghost use Rattle.capnp_model.specs.Segments.{words_at};
ghost use Rattle.capnp_units.specs.Segments.{words_in};
ghost use Rattle.capnp_units.specs.declared.kinds.ErrorKind.TheVariants.{SizeOverflow};
ghost use Rattle.capnp_wire_objects.specs.Places.{place_view};
ghost use Rattle.capnp_copy_arenas.specs.Lists.{object_of_list};
ghost use Rattle.capnp_copy_arenas.specs.Refusals.{IsSizeOrRefusal};
ghost use Rattle.capnp_copy_arenas.specs.States.{state_in};
ghost use Rattle.capnp_copy_arenas.specs.Values.{LeadsTo};
ghost use Rattle.capnp_copy_widening.specs.MovedElements.{least_data_words, least_pointers};
ghost use Rattle.capnp_copy_widening.specs.WidenedLists.{list_there, IsWideList, WidensToList, GetsStructList};

use crate::elements::fill_elements;
use crate::lists::{Taker, get_list};
use crate::room::allocate_wider;
use capnp_copy_arenas::arena::BuilderArena;
use capnp_copy_arenas::clear::clear;
use capnp_copy_arenas::init::ListPlace;
use capnp_copy_arenas::room::{begin_of, link, list_word};
use capnp_copy_arenas::struct_lists::tag_word;
use capnp_units::errors::{Error, Result};
use capnp_units::kinds::ErrorKind;
use capnp_units::limits::MOST_WORDS;
use capnp_units::sizes::{ElementSize, StructSize};
use capnp_wire_objects::place::{Place, word_at};

/// Returns the size of an element as a struct: a plain element is one data word, and a pointer is
/// one pointer.
fn element_size(list: ListPlace) -> StructSize
    ensures { (result.data_words ≡ least_data_words list) ×
        (result.pointers ≡ least_pointers list) }
{
    let (data_words, pointers) = match list.size {
        ElementSize::Void => (0, 0),
        ElementSize::Pointer => (0, 1),
        ElementSize::InlineComposite => (list.data_words, list.pointers),
        _ => (1, 0),
    };
    StructSize {
        data_words,
        pointers,
    }
}

/// Returns whether a list is a list of structs of at least a size.
fn is_wide(list: ListPlace, size: StructSize) -> bool
    ensures { (result ≡ true) ↔ IsWideList list size.data_words size.pointers }
{
    list.size == ElementSize::InlineComposite
        && list.data_words >= size.data_words
        && list.pointers >= size.pointers
}

/// Returns the words of a new list of structs without its tag, and two words for each pointer of
/// the old list. It is refused with `SizeOverflow` if the structs' words exceed 2^29 - 1.
fn words_of_wider(old: ListPlace, size: StructSize) -> Result<(u32, u64)>
    requires short { (size.data_words + size.pointers ≡ 0) → (old.count < 2 ^ 29) }
    ensures words { IfOk result (λ r.
        (r.0 ≡ old.count * (size.data_words + size.pointers))
        × (r.1 ≡ 2 * (old.count * least_pointers old))) }
    ensures few { IfOk result (λ r. (old.count < 2 ^ 29) × (r.0 < 2 ^ 29)) }
    ensures kind { IfErr result (λ e.
        (e.kind ≡ SizeOverflow)
        × (2 ^ 29 ≤ old.count * (size.data_words + size.pointers))) }
{
    let words = old.count as u64 * size.total() as u64;
    let pads = 2 * (old.count as u64 * element_size(old).pointers as u64);
    if words > MOST_WORDS as u64 {
        return Err(Error::from(ErrorKind::SizeOverflow));
    }
    Ok((words as u32, pads))
}

/// Replaces a list that the pointer at a place names by a list of wider structs. The content of its
/// elements moves, and its own words and the pads become zero.
///
/// It is only refused if there is no room beside the old list, and no room elsewhere for the new
/// list with a pad before it and two words for each old pointer. Then everything is unchanged. It
/// is refused
/// - with `SizeOverflow` exactly when the message's words with all these would exceed 2^29 - 1;
/// - otherwise with the allocator's error.
fn widen_list<A: BuilderArena>(
    arena: &mut A,
    slot: Place,
    old: ListPlace,
    size: StructSize,
) -> Result<ListPlace>
    requires found { list_there (words_in (A.segments arena.old)) slot ≡ Ok old }
    requires leads { LeadsTo (words_in (A.segments arena.old)) (place_view slot)
        (object_of_list old) }
    requires there { is_some (words_at (words_in (A.segments arena.old)) (place_view slot) 1)
        ≡ true }
    requires near { slot.position < 2 ^ 61 }
    requires wider { (least_data_words old ≤ size.data_words) ×
        (least_pointers old ≤ size.pointers) }
    requires short { (size.data_words + size.pointers ≡ 0) → (old.count < 2 ^ 29) }
    ensures { let at = state_in A.segments A.room A.books in
        WidensToList (at arena.old) (at arena.new) slot old size result
        (IsSizeOrRefusal A.refuses) }
{
    let (words, pad_words) = words_of_wider(old, size)?;
    let (room, pads) = allocate_wider(arena, slot, old.start.segment, 1 + words, pad_words)?;
    let new = ListPlace {
        start: begin_of(slot, room),
        size: ElementSize::InlineComposite,
        claimed: words,
        count: old.count,
        data_words: size.data_words,
        pointers: size.pointers,
    };
    arena.write_word(new.start, tag_word(old.count, size));
    fill_elements(arena, old, new, pads);
    clear(arena, slot);
    link(
        arena,
        slot,
        room,
        list_word(ElementSize::InlineComposite, words),
    );
    Ok(new)
}

/// Returns the list that the pointer at a place names, near or far, as a list of structs with at
/// least these sections. A list of structs that are wide enough stays at its place. A list of
/// narrower structs, of numbers, of pointers or of voids is widened. Each element becomes a struct
/// with the greater of both sizes and keeps everything that it holds. A number becomes the lowest
/// bits of the first data word, a pointer the first pointer. The rest is zeros and nulls, and the
/// words that the list leaves become zero. Null stays, and has the empty list, at the pointer
/// itself.
///
/// It is refused, and everything is unchanged,
/// - like a reader refuses the object there (`object_at`);
/// - with `WrongPointerKind` if a struct or a capability is there;
/// - with `WrongElementSize` if a list of bits is there;
/// - with `SizeOverflow`, if a new list has no room beside the old one, exactly when the message's
///   words would exceed 2^29 - 1. These include its words and its tag, a pad, and two words for
///   each old pointer;
/// - otherwise with the allocator's error.
pub fn get_struct_list<A: BuilderArena>(
    arena: &mut A,
    slot: Place,
    size: StructSize,
) -> Result<ListPlace>
    requires there { is_some (words_at (words_in (A.segments arena.old)) (place_view slot) 1)
        ≡ true }
    requires near { slot.position < 2 ^ 61 }
    ensures { let at = state_in A.segments A.room A.books in
        GetsStructList (at arena.old) (at arena.new) slot size result
        (IsSizeOrRefusal A.refuses) }
{
    let old = get_list(arena, slot, ElementSize::InlineComposite, Taker::Reader)?;
    if word_at(arena, slot) == Some(0) || is_wide(old, size) {
        return Ok(old);
    }
    let least = element_size(old);
    let wider = StructSize {
        data_words: size.data_words.max(least.data_words),
        pointers: size.pointers.max(least.pointers),
    };
    widen_list(arena, slot, old, wider)
}
