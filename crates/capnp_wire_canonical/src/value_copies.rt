//! Copies of values, the words of one object after the other.
//!
//! The functions that write take up to twelve parameters, and call each other for each object. A
//! record of them would be stored and read at each call, where parameters stay in registers.
ghost use Rattle.std.specs.Prelude.{◌≡◌, ℕ, ◌+◌, ◌*◌, ◌^◌, ◌≤◌, ◌<◌};
ghost use Rattle.capnp_model.specs.Segments.{after};
ghost use Rattle.capnp_units.specs.Segments.{words_in};
ghost use Rattle.capnp_wire_objects.specs.declared.object.Object.TheVariants as seen;
ghost use Rattle.capnp_wire_objects.specs.Arenas.{segment_bytes};
ghost use Rattle.capnp_wire_objects.specs.Places.{place_view};
ghost use Rattle.capnp_wire_objects.specs.Objects.{AreThere, IsInside};
ghost use Rattle.capnp_wire_canonical.specs.Reaches.{reach};
ghost use Rattle.capnp_wire_canonical.specs.Copies.{copy_state, IsNoCapability, WritesCopy};
ghost use Rattle.capnp_wire_canonical.specs.Objects.{IsShort, WritesObject, HasPlace, IsCut, write_spot, value_copy, row_copy, element_copy, elements_copy};

use crate::cuts::{Cut, cut_of, pointer_to_cut};
use crate::follow::{follow_data, follow_near_list, follow_near_struct, follow_nulls};
use crate::landed::follow_other;
use crate::list_copies::{write_common, write_list};
use crate::own_words::{are_words, copy_words};
use crate::words::{end_of, pointer_to_list, pointer_to_struct, put};
use capnp_units::errors::Result;
use capnp_units::limiter::ReadLimiter;
use capnp_units::sizes::Word;
use capnp_wire_objects::arena::ReaderArena;
use capnp_wire_objects::lists::NearList;
use capnp_wire_objects::object::Object;
use capnp_wire_objects::place::{Place, segment_bytes};

/// Writes the pointer at a place to what it leads to, which goes after the words that are used. It
/// returns where that ends. It is out of line, so the loops over rows have registers enough.
#[cycle(write)]
#[inline(never)]
pub(crate) fn write_at<A: ReaderArena>(
    arena: &A,
    bytes: &[u8],
    limiter: &mut ReadLimiter,
    place: Place,
    levels: u32,
    into: &mut [Word],
    at: usize,
    used: usize,
) -> Result<usize>
    requires bytes { bytes.now ≡ segment_bytes (A.segments arena.now) place.segment }
    requires place { HasPlace (at + 1) used into.old }
    ensures { let r = reach levels (words_in (A.segments arena.now)) in
        WritesCopy (value_copy r (place_view place) (write_spot at used))
        (copy_state into.old limiter.old) result (copy_state into.new limiter.new) }
{
    if let Some(list) = follow_near_list(arena, bytes, limiter, place, levels)? {
        return write_list(arena, bytes, list, into, at, used);
    }
    if let Some(near) = follow_near_struct(arena, bytes, limiter, place, levels)? {
        let data_words = near.size.data_words;
        let pointers = near.size.pointers;
        let below = levels - 1;
        return write_struct(
            arena, bytes, limiter, near.start, data_words, pointers, below, into, at, used,
        );
    }
    if let Some(object) = follow_other(arena, bytes, limiter, place, levels) {
        return write_object(arena, limiter, object, levels - 1, into, at, used);
    }
    write_any(arena, limiter, place, levels, into, at, used)
}

/// Does the work of `write_at` for any object, a near list or struct too.
#[cycle(write)]
#[inline(never)]
fn write_any<A: ReaderArena>(
    arena: &A,
    limiter: &mut ReadLimiter,
    place: Place,
    levels: u32,
    into: &mut [Word],
    at: usize,
    used: usize,
) -> Result<usize>
    requires { HasPlace (at + 1) used into.old }
    ensures { let r = reach levels (words_in (A.segments arena.now)) in
        WritesCopy (value_copy r (place_view place) (write_spot at used))
        (copy_state into.old limiter.old) result (copy_state into.new limiter.new) }
{
    let object = follow_data(arena, limiter, place, levels)?;
    if levels == 0 {
        put(into, at, 0);
        return Ok(used);
    }
    write_object(arena, limiter, object, levels - 1, into, at, used)
}

/// Writes the pointer to an object, and the object with what is below it after the words in use.
#[cycle(write)]
#[inline(always)]
fn write_object<A: ReaderArena>(
    arena: &A,
    limiter: &mut ReadLimiter,
    object: Object,
    levels: u32,
    into: &mut [Word],
    at: usize,
    used: usize,
) -> Result<usize>
    requires inside { IsInside (words_in (A.segments arena.now)) object }
    requires data { IsNoCapability object }
    requires short { IsShort object }
    requires place { HasPlace (at + 1) used into.old }
    ensures { let r = reach levels (words_in (A.segments arena.now)) in
        WritesObject r object (write_spot at used)
        (copy_state into.old limiter.old) result (copy_state into.new limiter.new) }
{
    match object {
        Object::Null | Object::Capability { .. } => {
            put(into, at, 0);
            Ok(used)
        }
        Object::Struct {
            start,
            data_words,
            pointers,
        } => {
            let bytes = segment_bytes(arena, start.segment);
            write_struct(
                arena, bytes, limiter, start, data_words, pointers, levels, into, at, used,
            )
        }
        Object::List { start, size, count } => {
            let bytes = segment_bytes(arena, start.segment);
            let list = NearList::new(start, size, count);
            write_list(arena, bytes, list, into, at, used)
        }
        Object::PointerList { start, count } => {
            let end = end_of(into, used, count as usize)?;
            let word = pointer_to_list((used - at - 1) as u64, 6, count as u64);
            put(into, at, word);
            let bytes = segment_bytes(arena, start.segment);
            write_row(arena, bytes, limiter, start, count, levels, into, used, end)
        }
        Object::StructList {
            start,
            words,
            count,
            data_words,
            pointers,
        } => {
            let bytes = segment_bytes(arena, start.segment);
            write_structs(
                arena, bytes, limiter, start, words, count, data_words, pointers, levels, into, at,
                used,
            )
        }
    }
}

/// Writes the pointer to a struct, and the struct with what is below it after the words in use.
#[cycle(write)]
#[inline(never)]
fn write_struct<A: ReaderArena>(
    arena: &A,
    bytes: &[u8],
    limiter: &mut ReadLimiter,
    start: Place,
    data_words: u16,
    pointers: u16,
    levels: u32,
    into: &mut [Word],
    at: usize,
    used: usize,
) -> Result<usize>
    requires bytes { bytes.now ≡ segment_bytes (A.segments arena.now) start.segment }
    requires inside { AreThere (words_in (A.segments arena.now)) (place_view start)
        (data_words + pointers) }
    requires place { HasPlace (at + 1) used into.old }
    ensures { WritesObject (reach levels (words_in (A.segments arena.now)))
        (seen.Struct start data_words pointers) (write_spot at used)
        (copy_state into.old limiter.old) result (copy_state into.new limiter.new) }
{
    let cut = cut_of(arena, bytes, start, data_words, pointers, 1);
    let words = cut.kept_words as usize + cut.kept_pointers as usize;
    let end = end_of(into, used, words)?;
    let word = pointer_to_cut(used - at - 1, cut);
    put(into, at, word);
    write_element(arena, bytes, limiter, start, cut, levels, into, used, end)
}

/// Writes the pointer to a list of structs, and it with what is below it after the words in use.
#[cycle(write)]
#[inline(never)]
fn write_structs<A: ReaderArena>(
    arena: &A,
    bytes: &[u8],
    limiter: &mut ReadLimiter,
    start: Place,
    words: u32,
    count: u32,
    data_words: u16,
    pointers: u16,
    levels: u32,
    into: &mut [Word],
    at: usize,
    used: usize,
) -> Result<usize>
    requires bytes { bytes.now ≡ segment_bytes (A.segments arena.now) start.segment }
    requires inside { AreThere (words_in (A.segments arena.now)) (place_view start) words }
    requires fit { count * (data_words + pointers) ≤ words }
    requires few { count < 2 ^ 30 }
    requires place { HasPlace (at + 1) used into.old }
    ensures { WritesObject (reach levels (words_in (A.segments arena.now)))
        (seen.StructList start words count data_words pointers) (write_spot at used)
        (copy_state into.old limiter.old) result (copy_state into.new limiter.new) }
{
    let cut = cut_of(arena, bytes, start, data_words, pointers, count);
    let width = cut.kept_words as usize + cut.kept_pointers as usize;
    let own = count as usize * width;
    let end = end_of(into, used, 1 + own)?;
    let word = pointer_to_list((used - at - 1) as u64, 7, own as u64);
    put(into, at, word);
    let tag = pointer_to_struct(
        count as u64,
        cut.kept_words as u64,
        cut.kept_pointers as u64,
    );
    put(into, used, tag);
    let first = used + 1;
    write_elements(
        arena, bytes, limiter, start, words, count, cut, levels, into, first, end,
    )
}

/// Writes the pointers in a row from a place on, and what they lead to after the words in use.
#[cycle(write)]
#[inline(always)]
fn write_row<A: ReaderArena>(
    arena: &A,
    bytes: &[u8],
    limiter: &mut ReadLimiter,
    first: Place,
    count: u32,
    levels: u32,
    into: &mut [Word],
    at: usize,
    used: usize,
) -> Result<usize>
    requires bytes { bytes.now ≡ segment_bytes (A.segments arena.now) first.segment }
    requires first { first.position + count < 2 ^ 62 }
    requires place { HasPlace (at + count) used into.old }
    ensures { let r = reach levels (words_in (A.segments arena.now)) in
        WritesCopy (row_copy r (place_view first) count (write_spot at used))
        (copy_state into.old limiter.old) result (copy_state into.new limiter.new) }
{
    let mut end = used;
    for i in 0..count {
        let place = Place {
            segment: first.segment,
            position: first.position + i as usize,
        };
        let slot = at + i as usize;
        if let Some(next) = write_common(arena, bytes, limiter, place, levels, into, slot, end) {
            end = next;
            continue;
        }
        let next = write_at(arena, bytes, limiter, place, levels, into, slot, end)?;
        end = next;
    }
    Ok(end)
}

/// Writes what is kept of a struct's own words over those from a place on, and what its pointers
/// lead to after the words that are used.
#[cycle(write)]
#[inline(always)]
fn write_element<A: ReaderArena>(
    arena: &A,
    bytes: &[u8],
    limiter: &mut ReadLimiter,
    start: Place,
    cut: Cut,
    levels: u32,
    into: &mut [Word],
    at: usize,
    used: usize,
) -> Result<usize>
    requires bytes { bytes.now ≡ segment_bytes (A.segments arena.now) start.segment }
    requires cut { IsCut (words_in (A.segments arena.now)) (place_view start) cut }
    requires place { HasPlace (at + (cut.kept_words + cut.kept_pointers)) used into.old }
    ensures { let r = reach levels (words_in (A.segments arena.now)) in
        WritesCopy (element_copy r (place_view start) cut (write_spot at used))
        (copy_state into.old limiter.old) result (copy_state into.new limiter.new) }
{
    let kept = cut.kept_words as usize;
    copy_words(arena, bytes, start, kept, into, at);
    let first = Place {
        segment: start.segment,
        position: start.position + cut.data_words as usize,
    };
    let pointers = cut.kept_pointers as u32;
    let slot = at + kept;
    let end = write_row(
        arena, bytes, limiter, first, pointers, levels, into, slot, used,
    )?;
    follow_nulls(limiter, cut.pointers as u32 - pointers);
    Ok(end)
}

/// Writes the elements of a list of structs over the words from a place on, and what their pointers
/// lead to after the words that are used. Elements without words take no step.
#[cycle(write)]
fn write_elements<A: ReaderArena>(
    arena: &A,
    bytes: &[u8],
    limiter: &mut ReadLimiter,
    start: Place,
    words: u32,
    count: u32,
    cut: Cut,
    levels: u32,
    into: &mut [Word],
    at: usize,
    used: usize,
) -> Result<usize>
    requires bytes { bytes.now ≡ segment_bytes (A.segments arena.now) start.segment }
    requires inside { AreThere (words_in (A.segments arena.now)) (place_view start) words }
    requires fit { count * (cut.data_words + cut.pointers) ≤ words }
    requires sizes { (cut.kept_words ≤ cut.data_words) × (cut.kept_pointers ≤ cut.pointers) }
    requires cut { (i : ℕ) → i < count → IsCut (words_in (A.segments arena.now))
        (after (place_view start) (i * (cut.data_words + cut.pointers))) cut }
    requires place { HasPlace (at + count * (cut.kept_words + cut.kept_pointers)) used into.old }
    ensures { let r = reach levels (words_in (A.segments arena.now)) in
        WritesCopy (elements_copy r (place_view start) words count cut (write_spot at used))
        (copy_state into.old limiter.old) result (copy_state into.new limiter.new) }
{
    let width = cut.data_words as usize + cut.pointers as usize;
    let kept = cut.kept_words as usize + cut.kept_pointers as usize;
    if kept == width {
        return write_wide(
            arena, bytes, limiter, start, words, count, cut, levels, into, at, used,
        );
    }
    let mut end = used;
    for i in 0..count {
        let element = Place {
            segment: start.segment,
            position: start.position + i as usize * width,
        };
        let place = at + i as usize * kept;
        let next = write_element(
            arena, bytes, limiter, element, cut, levels, into, place, end,
        )?;
        end = next;
    }
    Ok(end)
}

/// Does the work of `write_elements` for elements that keep all words, which are copied at once.
#[cycle(write)]
#[inline(never)]
fn write_wide<A: ReaderArena>(
    arena: &A,
    bytes: &[u8],
    limiter: &mut ReadLimiter,
    start: Place,
    words: u32,
    count: u32,
    cut: Cut,
    levels: u32,
    into: &mut [Word],
    at: usize,
    used: usize,
) -> Result<usize>
    requires bytes { bytes.now ≡ segment_bytes (A.segments arena.now) start.segment }
    requires inside { AreThere (words_in (A.segments arena.now)) (place_view start) words }
    requires fit { count * (cut.data_words + cut.pointers) ≤ words }
    requires whole { (cut.data_words ≡ cut.kept_words) × (cut.pointers ≡ cut.kept_pointers) }
    requires place { HasPlace (at + count * (cut.kept_words + cut.kept_pointers)) used into.old }
    ensures { let r = reach levels (words_in (A.segments arena.now)) in
        WritesCopy (elements_copy r (place_view start) words count cut (write_spot at used))
        (copy_state into.old limiter.old) result (copy_state into.new limiter.new) }
{
    let width = cut.data_words as usize + cut.pointers as usize;
    are_words(arena, start.segment);
    copy_words(arena, bytes, start, count as usize * width, into, at);
    if cut.pointers == 0 {
        return Ok(used);
    }
    let mut end = used;
    for i in 0..count {
        let words_before = i as usize * width;
        let first = Place {
            segment: start.segment,
            position: start.position + words_before + cut.data_words as usize,
        };
        let slot = at + words_before + cut.data_words as usize;
        let pointers = cut.pointers as u32;
        let next = write_row(
            arena, bytes, limiter, first, pointers, levels, into, slot, end,
        )?;
        end = next;
    }
    Ok(end)
}
