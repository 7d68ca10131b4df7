//! Lists that are copied by their parts.
ghost use Rattle.std.specs.Prelude.{◌≡◌, ℕ, ◌+◌, ◌*◌, ◌%◌, ◌^◌, ◌<◌, ◌≤◌, length};
ghost use Rattle.capnp_model.specs.Sections.{number_of, words_for};
ghost use Rattle.capnp_model.specs.Pointers.{a_list};
ghost use Rattle.capnp_model.specs.Coverage.{span};
ghost use Rattle.capnp_model.specs.Trees.{plain_list};
ghost use Rattle.capnp_units.specs.Segments.{words_in};
ghost use Rattle.capnp_units.specs.Sizes.{size_number, data_bits};
ghost use Rattle.capnp_wire_objects.specs.Places.{place_view};
ghost use Rattle.capnp_copy_arenas.specs.Refusals.{IsSizeOrRefusal};
ghost use Rattle.capnp_copy_arenas.specs.States.{HasWords, KeepsSizes};
ghost use Rattle.capnp_copy_values.specs.Copies.{source_in, limited, IsStoppedOr, CopiesOverStruct, Fills, HasZeros};
ghost use Rattle.capnp_copy_values.specs.Objects.{copied_words, most_counted};
ghost use Rattle.capnp_copy_values.specs.Lists.{list_parts, listed_object, CopiesList};
ghost use Rattle.capnp_copy_values.specs.Sources.{HasStructWords, visits_in_object, visits_in_row, visits_in_structs, pointer_row, FitsRow};
ghost use Rattle.capnp_copy_values.specs.ListSources.{structs_words, HaveBits, HoldListed, struct_by, FillsListed, CopiesListedStructs, FitsListed, FitsBehindListed, FitsListedStructs, LieNear, EndNear, CanBeSpelled};
ghost use Rattle.capnp_copy_values.specs.Fits.{limited_in};

use crate::copy::fill_row;
use crate::objects::{copy_at, pointer_word, room_for, tag_word};
use capnp_copy_arenas::arena::BuilderArena;
use capnp_copy_arenas::blobs::write_bytes;
use capnp_copy_arenas::clear::{clear, clear_object};
use capnp_copy_arenas::fields::StructPlace;
use capnp_copy_arenas::room::{begin_of, link};
use capnp_units::errors::Result;
use capnp_units::limiter::ReadLimiter;
use capnp_units::sizes::{ElementSize, data_bits_per_element};
use capnp_wire_objects::arena::ReaderArena;
use capnp_wire_objects::object::{Object, words_of_elements};
use capnp_wire_objects::place::Place;

/// The place and the kind of the elements of a list to read: structs have n data words and pointers
/// each.
#[derive(Clone, Copy, Debug, PartialEq, Eq)]
pub struct ListSource {
    pub start: Place,
    pub size: ElementSize,
    pub count: u32,
    pub data_words: u16,
    pub pointers: u16,
}

/// Returns the object of such a list.
fn object_of(list: ListSource) -> Object
    ensures { result ≡ listed_object list }
{
    let start = list.start;
    let count = list.count;
    match list.size {
        ElementSize::Pointer => Object::PointerList { start, count },
        ElementSize::InlineComposite => Object::StructList {
            start,
            words: 0,
            count,
            data_words: list.data_words,
            pointers: list.pointers,
        },
        size => Object::List { start, size, count },
    }
}

/// Writes plain elements over as many zeros.
fn write_elements<A: BuilderArena>(
    arena: &mut A,
    start: Place,
    bytes: &[u8],
    size: ElementSize,
    count: u32,
)
    requires plain { size_number size < 6 }
    requires zeros { HasZeros (A.segments arena.old) start
        (words_for (data_bits (size_number size) * count)) }
    requires near { start.position + words_for (data_bits (size_number size) * count) < 2 ^ 61 }
    requires all { HaveBits bytes.now (data_bits (size_number size) * count) }
    ensures fills { let bits = data_bits (size_number size) * count in (n : ℕ)
        → Fills n (words_in (A.segments arena.old)) (words_in (A.segments arena.new))
        (span (place_view start) (words_for bits)) (a_list (place_view start) (size_number size)
        count) (plain_list (size_number size) count (number_of 8 bytes.now % 2 ^ bits)) }
    ensures sizes { KeepsSizes (A.segments arena.old) (A.segments arena.new) }
    ensures room { A.room arena.new ≡ A.room arena.old }
    ensures books { A.books arena.new ≡ A.books arena.old }
{
    let words = words_of_elements(size, count) as usize;
    write_bytes(arena, start, words, bytes);
}

/// Writes a struct over a struct of the same size: its data, and copies of the values of its
/// pointers, which follow one another in a source.
fn fill_element<A: BuilderArena, B: ReaderArena>(
    arena: &mut A,
    object: StructPlace,
    limiter: &mut ReadLimiter,
    source: &B,
    section: &[u8],
    first: Place,
    levels: u32,
) -> Result<()>
    requires there { HasStructWords (A.segments arena.old) object }
    requires near { LieNear object first }
    requires all { length section.now ≡ 8 * object.data_words }
    ensures copy { CopiesOverStruct (source_in levels (B.segments source.now)
        (struct_by object section.now first)) (place_view object.start) (limited
        (A.segments arena.old) limiter.old) result (limited (A.segments arena.new) limiter.new) }
    ensures cause { IsStoppedOr (visits_in_row levels (B.segments source.now) (place_view first)
        object.pointers) limiter.old limiter.new (IsSizeOrRefusal A.refuses) result }
    ensures fits { let at = limited_in A.segments A.room A.books in FitsRow (source_in levels
        (B.segments source.now) (pointer_row (place_view first) object.pointers)) object.start
        (at arena.old limiter.old) result (at arena.new limiter.new) }
    ensures books { A.books arena.new ≡ A.books arena.old }
{
    arena.write_words(object.start, section);
    let count = object.pointers as u32;
    fill_row(
        arena,
        object.start,
        object.data_words,
        count,
        limiter,
        source,
        first,
        levels,
    )
}

/// Writes the structs of a list over those of a list of equal length and size, whose tag is at a
/// place. Structs without pointers are written as one slice.
fn fill_structs<A: BuilderArena, B: ReaderArena>(
    arena: &mut A,
    start: Place,
    limiter: &mut ReadLimiter,
    source: &B,
    bytes: &[u8],
    list: ListSource,
    levels: u32,
) -> Result<()>
    requires there { HasWords (A.segments arena.old) start (1 + structs_words list) }
    requires near { EndNear list start }
    requires all { length bytes.now ≡ 8 * structs_words list }
    ensures copy { CopiesListedStructs (source_in levels (B.segments source.now)
        (list_parts list bytes.now)) start (limited (A.segments arena.old) limiter.old) result
        (limited (A.segments arena.new) limiter.new) }
    ensures cause { IsStoppedOr (visits_in_structs levels (B.segments source.now) list) limiter.old
        limiter.new (IsSizeOrRefusal A.refuses) result }
    ensures fits { let at = limited_in A.segments A.room A.books in FitsListedStructs
        (source_in levels (B.segments source.now) (list_parts list bytes.now)) start
        (at arena.old limiter.old) result (at arena.new limiter.new) }
    ensures books { A.books arena.new ≡ A.books arena.old }
{
    if list.pointers == 0 {
        let first = Place {
            segment: start.segment,
            position: start.position + 1,
        };
        arena.write_words(first, bytes);
        return Ok(());
    }
    let data = list.data_words as usize;
    let width = data + list.pointers as usize;
    for i in 0..list.count {
        let at = i as usize * width;
        let element = StructPlace {
            start: Place {
                segment: start.segment,
                position: start.position + 1 + at,
            },
            data_words: list.data_words,
            pointers: list.pointers,
        };
        let first = Place {
            segment: list.start.segment,
            position: list.start.position + at + data,
        };
        fill_element(
            arena,
            element,
            limiter,
            source,
            &bytes[8 * at..8 * at + 8 * data],
            first,
            levels,
        )?;
    }
    Ok(())
}

/// Fills zero words from a place on with the list.
fn fill_list<A: BuilderArena, B: ReaderArena>(
    arena: &mut A,
    start: Place,
    limiter: &mut ReadLimiter,
    source: &B,
    bytes: &[u8],
    list: ListSource,
    levels: u32,
) -> Result<()>
    requires zeros { HasZeros (A.segments arena.old) start (copied_words (listed_object list)) }
    requires near { start.position + copied_words (listed_object list) < 2 ^ 61 }
    requires held { CanBeSpelled list bytes.now }
    ensures copy { FillsListed (source_in levels (B.segments source.now)
        (list_parts list bytes.now)) start (limited (A.segments arena.old) limiter.old) result
        (limited (A.segments arena.new) limiter.new) }
    ensures cause { IsStoppedOr (visits_in_object levels (B.segments source.now)
        (listed_object list)) limiter.old limiter.new (IsSizeOrRefusal A.refuses) result }
    ensures fits { let at = limited_in A.segments A.room A.books in FitsBehindListed
        (source_in levels (B.segments source.now) (list_parts list bytes.now)) start
        (at arena.old limiter.old) result (at arena.new limiter.new) }
    ensures books { A.books arena.new ≡ A.books arena.old }
{
    match list.size {
        ElementSize::Pointer => fill_row(
            arena, start, 0, list.count, limiter, source, list.start, levels,
        ),
        ElementSize::InlineComposite => {
            let width = list.data_words as usize + list.pointers as usize;
            let all = 8 * (list.count as usize * width);
            arena.write_word(start, tag_word(list.count, list.data_words, list.pointers));
            fill_structs(arena, start, limiter, source, &bytes[..all], list, levels)
        }
        size => {
            let all = (data_bits_per_element(size) as usize * list.count as usize + 7) / 8;
            write_elements(arena, start, &bytes[..all], size, list.count);
            Ok(())
        }
    }
}

/// Replaces the value of the pointer at a place, which is cleared, by a copy of a list of a source.
/// The bytes are its plain elements or the words of its structs. The values of its pointers are
/// copied from their places in the source. A list of structs is copied whole, however it was read.
/// n levels may be followed from each pointer.
///
/// The list's own words were paid for before, and its pointers are followed, nulls too. It is
/// refused
/// - like `copy_from` for its pointers;
/// - with `SizeOverflow` exactly when the count, the words of structs, or the message's words with
///   the list and a pad would exceed 2^29 - 1;
/// - otherwise with the allocator's error.
///
/// After a refusal all words are unchanged, and those that were allocated are zero. Refused or not,
/// it allocates at most twice the sum of the list's words and the words that it grants. If the
/// pointer's segment has room for all words of the copy, it takes exactly these, and isn't refused
/// for lack of room.
///
/// A list of plain elements or of structs without pointers takes one step, whatever its length.
pub fn set_list<A: BuilderArena, B: ReaderArena>(
    arena: &mut A,
    slot: Place,
    limiter: &mut ReadLimiter,
    source: &B,
    bytes: &[u8],
    list: ListSource,
    levels: u32,
) -> Result<()>
    requires there { HasWords (A.segments arena.old) slot 1 }
    requires near { slot.position < 2 ^ 61 }
    requires held { HoldListed list bytes.now }
    ensures copy { CopiesList (source_in levels (B.segments source.now) (list_parts list bytes.now))
        (place_view slot) (limited (A.segments arena.old) limiter.old) result
        (limited (A.segments arena.new) limiter.new) }
    ensures cause { IsStoppedOr (visits_in_object levels (B.segments source.now)
        (listed_object list)) limiter.old limiter.new (IsSizeOrRefusal A.refuses) result }
    ensures fits { let at = limited_in A.segments A.room A.books in FitsListed
        (source_in levels (B.segments source.now) (list_parts list bytes.now)) slot
        (at arena.old limiter.old) result (at arena.new limiter.new) }
    ensures books { A.books arena.new ≡ A.books arena.old }
{
    let object = object_of(list);
    let room = room_for(arena, slot, object)?;
    let start = begin_of(slot, room);
    match fill_list(arena, start, limiter, source, bytes, list, levels) {
        Ok(()) => {
            clear(arena, slot);
            link(arena, slot, room, pointer_word(object));
            Ok(())
        }
        Err(error) => {
            clear_object(arena, copy_at(start, object));
            Err(error)
        }
    }
}
