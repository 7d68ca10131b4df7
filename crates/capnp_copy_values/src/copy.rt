//! Plain copies of values into an arena, which replace other values.
ghost use Rattle.std.specs.Prelude.{◌≡◌, ◌+◌, ◌*◌, ◌^◌, ◌<◌, ◌≤◌, true, length, map};
ghost use Rattle.capnp_model.specs.Segments.{after};
ghost use Rattle.capnp_units.specs.Segments.{words_in};
ghost use Rattle.capnp_wire_objects.specs.Places.{place_view};
ghost use Rattle.capnp_wire_objects.specs.Objects.{IsInside};
ghost use Rattle.capnp_copy_arenas.specs.Refusals.{IsSizeOrRefusal};
ghost use Rattle.capnp_copy_arenas.specs.States.{HasWords};
ghost use Rattle.capnp_copy_values.specs.Copies.{source_in, limited, sized_at, BecomesCopy, IsStoppedOr, CopiesValue, CopiesObject, FollowsFew, HasZeros};
ghost use Rattle.capnp_copy_values.specs.Objects.{copied_words, most_counted, is_leaf, leaf_value};
ghost use Rattle.capnp_copy_values.specs.Fits.{limited_in};
ghost use Rattle.capnp_copy_values.specs.Sources.{LieThere, rows_words, visits_of_value, visits_in_object, visits_in_row, visits_in_rows, pointer_row, struct_place, CopiesRow, FillsFrom, CopiesStructFrom, CopiesRows, FitsValue, FitsObject, FitsBehind, FitsRow, FitsRows};

use crate::objects::{copy_at, pointer_word, room_for, tag_word};
use crate::words::copy_words;
use capnp_copy_arenas::arena::BuilderArena;
use capnp_copy_arenas::clear::{clear, clear_object};
use capnp_copy_arenas::room::{begin_of, link};
use capnp_units::errors::Result;
use capnp_units::limiter::ReadLimiter;
use capnp_wire_objects::arena::ReaderArena;
use capnp_wire_objects::follow::follow_within;
use capnp_wire_objects::object::{Object, words_of_elements};
use capnp_wire_objects::place::Place;

/// The structs of a list in a source: the place of the first, the number of words that they claim,
/// their count, and the size of each.
#[derive(Clone, Copy, Debug, PartialEq, Eq)]
struct StructRows {
    start: Place,
    words: u32,
    count: u32,
    data_words: u16,
    pointers: u16,
}

/// Replaces the value of the pointer at a place, which is cleared, by a copy of the value of a
/// pointer in a source. The whole tree is copied, with the indices of its capabilities unchanged.
///
/// The source's pointers are followed in the order of reading, nulls too, and its objects are paid
/// for, as in `size_at`. It is refused
/// - at the first fault within n levels, with its kind;
/// - with `ReadLimitExceeded` at the first object that costs more words than are left;
/// - with `SizeOverflow` exactly when a count, or the message's words with the next object and a
///   pad, would exceed 2^29 - 1;
/// - otherwise with the allocator's error.
///
/// After a refusal all words are unchanged, and those that were allocated are zero. Refused or not,
/// it allocates at most twice the words that it grants. If the pointer's segment has room for all
/// words of the copy, it takes exactly these, and isn't refused for lack of room.
///
/// It takes a step for each pointer that it follows; the number of these pointers is at most one
/// more than the words that it grants. It copies data by whole slices. New words are filled first,
/// then the old value is cleared, and the pointer is written last. Each level takes a few hundred
/// bytes of stack.
#[cycle(copy)]
pub fn copy_from<A: BuilderArena, B: ReaderArena>(
    arena: &mut A,
    slot: Place,
    limiter: &mut ReadLimiter,
    source: &B,
    place: Place,
    levels: u32,
) -> Result<()>
    requires there { HasWords (A.segments arena.old) slot 1 }
    requires near { slot.position < 2 ^ 61 }
    ensures copy { CopiesValue (source_in levels (B.segments source.now) (place_view place))
        (place_view slot) (limited (A.segments arena.old) limiter.old) result
        (limited (A.segments arena.new) limiter.new) }
    ensures few { FollowsFew limiter.old limiter.new }
    ensures cause { IsStoppedOr (visits_of_value levels (B.segments source.now) place) limiter.old
        limiter.new (IsSizeOrRefusal A.refuses) result }
    ensures fits { let at = limited_in A.segments A.room A.books in FitsValue
        (source_in levels (B.segments source.now) (place_view place)) slot
        (at arena.old limiter.old) result (at arena.new limiter.new) }
    ensures books { A.books arena.new ≡ A.books arena.old }
{
    let object = follow_within(source, limiter, place, levels)?;
    if levels == 0 {
        put_leaf(arena, slot, object);
        return Ok(());
    }
    copy_object(arena, slot, limiter, source, object, levels - 1)
}

/// Clears the pointer at a place, and writes a capability over it if the object is a capability.
fn put_leaf<A: BuilderArena>(arena: &mut A, slot: Place, object: Object)
    requires there { HasWords (A.segments arena.old) slot 1 }
    requires leaf { is_leaf object ≡ true }
    ensures becomes { BecomesCopy 0 (words_in (A.segments arena.old))
        (words_in (A.segments arena.new)) (place_view slot) (leaf_value object) }
    ensures sizes { map length (words_in (A.segments arena.new))
        ≡ map length (words_in (A.segments arena.old)) }
    ensures room { A.room arena.new ≡ A.room arena.old }
    ensures books { A.books arena.new ≡ A.books arena.old }
{
    clear(arena, slot);
    if let Object::Capability { .. } = object {
        arena.write_word(slot, pointer_word(object));
    }
}

/// Replaces the value of the pointer at a place, which is cleared, by a copy of an object of a
/// source. The object is the struct or the list of a reader, and is copied as in `set_struct` and
/// `set_list`. n levels may be followed from each of its pointers. A list is copied as it is, its
/// structs with all their words, however it was read.
///
/// The object's own words were paid for before. It is refused
/// - like `copy_from` for the values of its pointers;
/// - with `SizeOverflow` exactly when its counts, or the message's words with the object and a pad,
///   would exceed 2^29 - 1;
/// - otherwise with the allocator's error.
///
/// After a refusal all words are unchanged, and those that were allocated are zero. Refused or not,
/// it allocates at most twice the sum of the words of the copy and the words that it grants. If the
/// pointer's segment has room for all words of the copy, it takes exactly these, and isn't refused
/// for lack of room.
///
/// Each pointer in the object is followed, and from there on it takes the steps of `copy_from`. A
/// list of plain elements or of structs without pointers takes one step, whatever its length.
#[cycle(copy)]
pub fn copy_object<A: BuilderArena, B: ReaderArena>(
    arena: &mut A,
    slot: Place,
    limiter: &mut ReadLimiter,
    source: &B,
    object: Object,
    levels: u32,
) -> Result<()>
    requires there { HasWords (A.segments arena.old) slot 1 }
    requires near { slot.position < 2 ^ 61 }
    requires inside { IsInside (words_in (B.segments source.now)) object }
    ensures copy { CopiesObject (source_in levels (B.segments source.now) object) (place_view slot)
        (limited (A.segments arena.old) limiter.old) result
        (limited (A.segments arena.new) limiter.new) }
    ensures cause { IsStoppedOr (visits_in_object levels (B.segments source.now) object) limiter.old
        limiter.new (IsSizeOrRefusal A.refuses) result }
    ensures fits { let at = limited_in A.segments A.room A.books in FitsObject
        (source_in levels (B.segments source.now) object) slot (at arena.old limiter.old) result
        (at arena.new limiter.new) }
    ensures books { A.books arena.new ≡ A.books arena.old }
{
    if let Object::Null | Object::Capability { .. } = object {
        put_leaf(arena, slot, object);
        return Ok(());
    }
    let room = room_for(arena, slot, object)?;
    let start = begin_of(slot, room);
    match fill(arena, start, limiter, source, object, levels) {
        Ok(()) => {
            clear(arena, slot);
            link(arena, slot, room, pointer_word(object));
            Ok(())
        }
        Err(error) => {
            clear_object(arena, copy_at(start, object));
            Err(error)
        }
    }
}

/// Fills zero words from a place on with the copy of an object.
#[cycle(copy)]
fn fill<A: BuilderArena, B: ReaderArena>(
    arena: &mut A,
    start: Place,
    limiter: &mut ReadLimiter,
    source: &B,
    object: Object,
    levels: u32,
) -> Result<()>
    requires zeros { HasZeros (A.segments arena.old) start (copied_words object) }
    requires near { start.position + copied_words object < 2 ^ 61 }
    requires few { most_counted object < 2 ^ 29 }
    requires inside { IsInside (words_in (B.segments source.now)) object }
    ensures copy { FillsFrom (source_in levels (B.segments source.now) object) start (limited
        (A.segments arena.old) limiter.old) result (limited (A.segments arena.new) limiter.new) }
    ensures cause { IsStoppedOr (visits_in_object levels (B.segments source.now) object) limiter.old
        limiter.new (IsSizeOrRefusal A.refuses) result }
    ensures fits { let at = limited_in A.segments A.room A.books in FitsBehind
        (source_in levels (B.segments source.now) object) start (at arena.old limiter.old) result
        (at arena.new limiter.new) }
    ensures books { A.books arena.new ≡ A.books arena.old }
{
    match object {
        Object::Null | Object::Capability { .. } => Ok(()),
        Object::Struct {
            start: from,
            data_words,
            pointers,
        } => fill_struct(
            arena, start, limiter, source, from, data_words, pointers, levels,
        ),
        Object::List {
            start: from,
            size,
            count,
        } => {
            let words = words_of_elements(size, count) as usize;
            copy_words(arena, start, source, from, words);
            Ok(())
        }
        Object::PointerList { start: from, count } => {
            fill_row(arena, start, 0, count, limiter, source, from, levels)
        }
        Object::StructList {
            start: from,
            words,
            count,
            data_words,
            pointers,
        } => {
            arena.write_word(start, tag_word(count, data_words, pointers));
            let rows = StructRows {
                start: from,
                words,
                count,
                data_words,
                pointers,
            };
            fill_elements(arena, start, limiter, source, rows, levels)
        }
    }
}

/// Copies n pointers in a row of a source over the first of a struct's pointers; the struct's data
/// words are before them.
#[cycle(copy)]
pub(crate) fn fill_row<A: BuilderArena, B: ReaderArena>(
    arena: &mut A,
    start: Place,
    data_words: u16,
    count: u32,
    limiter: &mut ReadLimiter,
    source: &B,
    first: Place,
    levels: u32,
) -> Result<()>
    requires there { HasWords (A.segments arena.old) start (data_words + count) }
    requires near { (start.position + (data_words + count) < 2 ^ 61)
        × (first.position + count < 2 ^ 62) }
    ensures copy { CopiesRow (source_in levels (B.segments source.now) (place_view first))
        (sized_at (place_view start) data_words count) (limited (A.segments arena.old) limiter.old)
        result (limited (A.segments arena.new) limiter.new) }
    ensures cause { IsStoppedOr (visits_in_row levels (B.segments source.now) (place_view first)
        count) limiter.old limiter.new (IsSizeOrRefusal A.refuses) result }
    ensures fits { let at = limited_in A.segments A.room A.books in FitsRow (source_in levels
        (B.segments source.now) (pointer_row (place_view first) count)) start
        (at arena.old limiter.old) result (at arena.new limiter.new) }
    ensures books { A.books arena.new ≡ A.books arena.old }
{
    for i in 0..count {
        let slot = Place {
            segment: start.segment,
            position: start.position + data_words as usize + i as usize,
        };
        let place = Place {
            segment: first.segment,
            position: first.position + i as usize,
        };
        copy_from(arena, slot, limiter, source, place, levels)?;
    }
    Ok(())
}

/// Copies a struct of a source over a struct of the same size.
#[cycle(copy)]
fn fill_struct<A: BuilderArena, B: ReaderArena>(
    arena: &mut A,
    start: Place,
    limiter: &mut ReadLimiter,
    source: &B,
    from: Place,
    data_words: u16,
    pointers: u16,
    levels: u32,
) -> Result<()>
    requires there { HasWords (A.segments arena.old) start (data_words + pointers) }
    requires near { start.position + (data_words + pointers) < 2 ^ 61 }
    requires inside { LieThere (B.segments source.now) from (data_words + pointers) }
    ensures copy { CopiesStructFrom (source_in levels (B.segments source.now)
        (struct_place from data_words pointers)) start (limited (A.segments arena.old) limiter.old)
        result (limited (A.segments arena.new) limiter.new) }
    ensures cause { IsStoppedOr (visits_in_row levels (B.segments source.now) (after (place_view
        from) data_words) pointers) limiter.old limiter.new (IsSizeOrRefusal A.refuses) result }
    ensures fits { let at = limited_in A.segments A.room A.books in FitsRow (source_in levels
        (B.segments source.now) (pointer_row (after (place_view from) data_words) pointers)) start
        (at arena.old limiter.old) result (at arena.new limiter.new) }
    ensures books { A.books arena.new ≡ A.books arena.old }
{
    copy_words(arena, start, source, from, data_words as usize);
    let first = Place {
        segment: from.segment,
        position: from.position + data_words as usize,
    };
    fill_row(
        arena,
        start,
        data_words,
        pointers as u32,
        limiter,
        source,
        first,
        levels,
    )
}

/// Copies the structs of a list of a source over those of a list of equal length and size, whose
/// tag is at a place. Structs without pointers are copied as one slice.
#[cycle(copy)]
fn fill_elements<A: BuilderArena, B: ReaderArena>(
    arena: &mut A,
    start: Place,
    limiter: &mut ReadLimiter,
    source: &B,
    rows: StructRows,
    levels: u32,
) -> Result<()>
    requires there { HasWords (A.segments arena.old) start (1 + rows_words rows) }
    requires near { start.position + (1 + rows_words rows) < 2 ^ 61 }
    requires inside { LieThere (B.segments source.now) rows.start rows.words }
    requires fit { rows_words rows ≤ rows.words }
    ensures copy { CopiesRows (source_in levels (B.segments source.now) rows) start (limited
        (A.segments arena.old) limiter.old) result (limited (A.segments arena.new) limiter.new) }
    ensures cause { IsStoppedOr (visits_in_rows levels (B.segments source.now) rows) limiter.old
        limiter.new (IsSizeOrRefusal A.refuses) result }
    ensures fits { let at = limited_in A.segments A.room A.books in FitsRows
        (source_in levels (B.segments source.now) rows) start (at arena.old limiter.old) result
        (at arena.new limiter.new) }
    ensures books { A.books arena.new ≡ A.books arena.old }
{
    if rows.pointers == 0 {
        let first = Place {
            segment: start.segment,
            position: start.position + 1,
        };
        copy_words(
            arena,
            first,
            source,
            rows.start,
            rows.count as usize * rows.data_words as usize,
        );
        return Ok(());
    }
    let width = rows.data_words as usize + rows.pointers as usize;
    for i in 0..rows.count {
        let element = Place {
            segment: start.segment,
            position: start.position + 1 + i as usize * width,
        };
        let there = Place {
            segment: rows.start.segment,
            position: rows.start.position + i as usize * width,
        };
        fill_struct(
            arena,
            element,
            limiter,
            source,
            there,
            rows.data_words,
            rows.pointers,
            levels,
        )?;
    }
    Ok(())
}
