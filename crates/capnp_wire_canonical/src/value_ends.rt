//! Ends of values that are laid out as their canonical words.
//!
//! As in `copy`, `structs_end` takes its list part by part, because a record would go through
//! memory for each list.
ghost use Rattle.std.specs.Prelude.{◌≡◌, ℕ, ◌+◌, ◌*◌, ◌^◌, ◌≤◌, ◌<◌};
ghost use Rattle.capnp_units.specs.Segments.{words_in};
ghost use Rattle.capnp_wire_objects.specs.declared.object.Object.TheVariants as seen;
ghost use Rattle.capnp_wire_objects.specs.Arenas.{segment_bytes};
ghost use Rattle.capnp_wire_objects.specs.Places.{place_view};
ghost use Rattle.capnp_wire_objects.specs.Near.{struct_object, IsNear};
ghost use Rattle.capnp_wire_objects.specs.Objects.{AreThere, IsInside};
ghost use Rattle.capnp_wire_canonical.specs.Reaches.{reach};
ghost use Rattle.capnp_wire_canonical.specs.Objects.{IsShort};
ghost use Rattle.capnp_wire_canonical.specs.Standing.{HasHead, LeadsToObject, ReachesHead};
ghost use Rattle.capnp_wire_canonical.specs.Checks.{Tests, value_test, object_test, row_test, elements_test};

use crate::cuts::cut_of;
use crate::follow::{follow_near_list, follow_near_struct};
use crate::heads::struct_start;
use crate::list_ends::{REACH, common_end, list_end};
use crate::own_words::{is_least, word_or_zero};
use crate::words::{pointer_to_list, pointer_to_struct};
use capnp_units::errors::Result;
use capnp_units::limiter::ReadLimiter;
use capnp_units::sizes::StructSize;
use capnp_wire_objects::arena::ReaderArena;
use capnp_wire_objects::follow::follow_within;
use capnp_wire_objects::lists::NearList;
use capnp_wire_objects::object::Object;
use capnp_wire_objects::place::{Place, segment_bytes};
use capnp_wire_objects::structs::NearStruct;

/// The number of kinds of pointers that the lowest two bits of a word have.
const KINDS: u64 = 4;
/// The kind of pointers that lead to a landing pad. A canonical pointer doesn't.
const FAR: u64 = 2;

/// Returns the end of the words of the value of the pointer at a place, if they are from the head
/// on.
#[cycle(check)]
#[inline(always)]
pub(crate) fn value_end<A: ReaderArena>(
    arena: &A,
    limiter: &mut ReadLimiter,
    place: Place,
    levels: u32,
    head: usize,
) -> Result<Option<usize>>
    requires { HasHead (words_in (A.segments arena.now)) (place_view place) 1 head }
    ensures { Tests
        (value_test (reach levels (words_in (A.segments arena.now))) (place_view place) head)
        limiter.old result limiter.new }
{
    let bytes = segment_bytes(arena, place.segment);
    if let Some(list) = follow_near_list(arena, bytes, limiter, place, levels)? {
        return Ok(list_end(arena, bytes, place, list, head));
    }
    if let Some(near) = follow_near_struct(arena, bytes, limiter, place, levels)? {
        return struct_end(arena, limiter, place, near, levels - 1, head);
    }
    any_end(arena, limiter, place, levels, head)
}

/// Works as `value_end`, out of line, for pointers to values that `common_end` doesn't find.
#[cycle(check)]
#[inline(never)]
fn other_end<A: ReaderArena>(
    arena: &A,
    limiter: &mut ReadLimiter,
    place: Place,
    levels: u32,
    head: usize,
) -> Result<Option<usize>>
    requires { HasHead (words_in (A.segments arena.now)) (place_view place) 1 head }
    ensures { Tests
        (value_test (reach levels (words_in (A.segments arena.now))) (place_view place) head)
        limiter.old result limiter.new }
{
    value_end(arena, limiter, place, levels, head)
}

/// Works as `value_end` for a pointer in a row, which mostly is null or leads to bytes. The segment
/// is the one of these bytes.
#[cycle(check)]
#[inline(always)]
fn item_end<A: ReaderArena>(
    arena: &A,
    bytes: &[u8],
    limiter: &mut ReadLimiter,
    place: Place,
    levels: u32,
    head: usize,
) -> Result<Option<usize>>
    requires bytes { bytes.now ≡ segment_bytes (A.segments arena.now) place.segment }
    requires head { HasHead (words_in (A.segments arena.now)) (place_view place) 1 head }
    ensures { Tests
        (value_test (reach levels (words_in (A.segments arena.now))) (place_view place) head)
        limiter.old result limiter.new }
{
    if let Some(end) = common_end(arena, bytes, limiter, place, levels, head) {
        return Ok(Some(end));
    }
    other_end(arena, limiter, place, levels, head)
}

/// Returns the end of the words of any value of the pointer, even a near list or struct.
#[cycle(check)]
fn any_end<A: ReaderArena>(
    arena: &A,
    limiter: &mut ReadLimiter,
    place: Place,
    levels: u32,
    head: usize,
) -> Result<Option<usize>>
    requires { HasHead (words_in (A.segments arena.now)) (place_view place) 1 head }
    ensures { Tests
        (value_test (reach levels (words_in (A.segments arena.now))) (place_view place) head)
        limiter.old result limiter.new }
{
    let object = follow_within(arena, limiter, place, levels)?;
    if levels == 0 {
        return Ok(match object {
            Object::Null => Some(head),
            _ => None,
        });
    }
    object_end(arena, limiter, object, place, levels - 1, head)
}

/// Returns the end of the words of the object that the pointer at a place leads to. The object is
/// paid for.
#[cycle(check)]
fn object_end<A: ReaderArena>(
    arena: &A,
    limiter: &mut ReadLimiter,
    object: Object,
    place: Place,
    levels: u32,
    head: usize,
) -> Result<Option<usize>>
    requires inside { IsInside (words_in (A.segments arena.now)) object }
    requires short { IsShort object }
    requires leads { LeadsToObject (words_in (A.segments arena.now)) (place_view place) object }
    requires head { HasHead (words_in (A.segments arena.now)) (place_view place) 1 head }
    ensures { let r = reach levels (words_in (A.segments arena.now)) in
        Tests (object_test r (place_view place) head object) limiter.old result limiter.new }
{
    if head - place.position > REACH {
        return Ok(None);
    }
    if word_or_zero(arena, place) % KINDS == FAR {
        return Ok(None);
    }
    match object {
        Object::Null => Ok(Some(head)),
        Object::Capability { .. } => Ok(None),
        Object::Struct {
            start,
            data_words,
            pointers,
        } => {
            let size = StructSize {
                data_words,
                pointers,
            };
            let near = NearStruct { start, size };
            struct_end(arena, limiter, place, near, levels, head)
        }
        Object::List { start, size, count } => {
            let list = NearList::new(start, size, count);
            let bytes = segment_bytes(arena, list.start.segment);
            Ok(list_end(arena, bytes, place, list, head))
        }
        Object::PointerList { start, count } => {
            pointers_end(arena, limiter, place, start, count, levels, head)
        }
        Object::StructList {
            start,
            words,
            count,
            data_words,
            pointers,
        } => {
            let size = StructSize {
                data_words,
                pointers,
            };
            structs_end(
                arena, limiter, place, start, words, count, size, levels, head,
            )
        }
    }
}

/// Works as `struct_here`, out of line.
#[cycle(check)]
#[inline(never)]
fn struct_end<A: ReaderArena>(
    arena: &A,
    limiter: &mut ReadLimiter,
    place: Place,
    near: NearStruct,
    levels: u32,
    head: usize,
) -> Result<Option<usize>>
    requires near { IsNear (words_in (A.segments arena.now)) (place_view place)
        (struct_object near) }
    requires head { HasHead (words_in (A.segments arena.now)) (place_view place) 1 head }
    ensures { let r = reach levels (words_in (A.segments arena.now)) in
        Tests (object_test r (place_view place) head (struct_object near))
        limiter.old result limiter.new }
{
    struct_here(arena, limiter, place, near, levels, head)
}

/// Returns the end of the words of a struct, if they are from the head on.
#[cycle(check)]
#[inline(always)]
pub(crate) fn struct_here<A: ReaderArena>(
    arena: &A,
    limiter: &mut ReadLimiter,
    place: Place,
    near: NearStruct,
    levels: u32,
    head: usize,
) -> Result<Option<usize>>
    requires near { IsNear (words_in (A.segments arena.now)) (place_view place)
        (struct_object near) }
    requires head { HasHead (words_in (A.segments arena.now)) (place_view place) 1 head }
    ensures { let r = reach levels (words_in (A.segments arena.now)) in
        Tests (object_test r (place_view place) head (struct_object near))
        limiter.old result limiter.new }
{
    let data_words = near.size.data_words as usize;
    let words = data_words + near.size.pointers as usize;
    if near.start.position != struct_start(place, words, head) {
        return Ok(None);
    }
    if !is_least(arena, near.start, near.size) {
        return Ok(None);
    }
    let first = Place {
        segment: near.start.segment,
        position: near.start.position + data_words,
    };
    let pointers = near.size.pointers as u32;
    row_end(arena, limiter, first, pointers, levels, head + words)
}

/// Returns the end of the words of a list of pointers, if they are from the head on.
#[cycle(check)]
fn pointers_end<A: ReaderArena>(
    arena: &A,
    limiter: &mut ReadLimiter,
    place: Place,
    start: Place,
    count: u32,
    levels: u32,
    head: usize,
) -> Result<Option<usize>>
    requires inside { AreThere (words_in (A.segments arena.now)) (place_view start) count }
    requires link { ReachesHead (words_in (A.segments arena.now)) (place_view place) head
        (seen.PointerList start count) }
    ensures { let r = reach levels (words_in (A.segments arena.now)) in
        Tests (object_test r (place_view place) head (seen.PointerList start count))
        limiter.old result limiter.new }
{
    if count as usize >= REACH {
        return Ok(None);
    }
    let gap = (head - place.position - 1) as u64;
    if word_or_zero(arena, place) != pointer_to_list(gap, 6, count as u64) {
        return Ok(None);
    }
    let behind = start.position + count as usize;
    row_end(arena, limiter, start, count, levels, behind)
}

/// Returns the end of the words of a list of structs, if they are from the head on.
#[cycle(check)]
fn structs_end<A: ReaderArena>(
    arena: &A,
    limiter: &mut ReadLimiter,
    place: Place,
    start: Place,
    words: u32,
    count: u32,
    size: StructSize,
    levels: u32,
    head: usize,
) -> Result<Option<usize>>
    requires inside { AreThere (words_in (A.segments arena.now)) (place_view start) words }
    requires fit { count * (size.data_words + size.pointers) ≤ words }
    requires few { count < 2 ^ 30 }
    requires link { ReachesHead (words_in (A.segments arena.now)) (place_view place) head
        (seen.StructList start words count size.data_words size.pointers) }
    ensures { let r = reach levels (words_in (A.segments arena.now)) in
        Tests (object_test r (place_view place) head
        (seen.StructList start words count size.data_words size.pointers))
        limiter.old result limiter.new }
{
    let bytes = segment_bytes(arena, start.segment);
    let cut = cut_of(arena, bytes, start, size.data_words, size.pointers, count);
    let own = count as usize * (cut.kept_words as usize + cut.kept_pointers as usize);
    if own >= REACH {
        return Ok(None);
    }
    let gap = (head - place.position - 1) as u64;
    if word_or_zero(arena, place) != pointer_to_list(gap, 7, own as u64) {
        return Ok(None);
    }
    let first = Place {
        segment: place.segment,
        position: head,
    };
    let tag = pointer_to_struct(
        count as u64,
        cut.kept_words as u64,
        cut.kept_pointers as u64,
    );
    if word_or_zero(arena, first) != tag {
        return Ok(None);
    }
    let behind = start.position + words as usize;
    elements_end(arena, limiter, start, count, size, levels, behind)
}

/// Returns the end of the words below the pointers in a row, if they are from the head on.
#[cycle(check)]
#[inline(always)]
pub(crate) fn row_end<A: ReaderArena>(
    arena: &A,
    limiter: &mut ReadLimiter,
    first: Place,
    count: u32,
    levels: u32,
    head: usize,
) -> Result<Option<usize>>
    requires inside { AreThere (words_in (A.segments arena.now)) (place_view first) count }
    requires head { HasHead (words_in (A.segments arena.now)) (place_view first) count head }
    ensures { let r = reach levels (words_in (A.segments arena.now)) in
        Tests (row_test r (place_view first) count head) limiter.old result limiter.new }
{
    let bytes = segment_bytes(arena, first.segment);
    let mut end = head;
    for i in 0..count {
        let place = Place {
            segment: first.segment,
            position: first.position + i as usize,
        };
        match item_end(arena, bytes, limiter, place, levels, end)? {
            Some(next) => end = next,
            None => return Ok(None),
        }
    }
    Ok(Some(end))
}

/// Returns the end of the words below the pointers in the elements of a list of structs, if they
/// are from the head on. Elements without pointers take no step.
#[cycle(check)]
fn elements_end<A: ReaderArena>(
    arena: &A,
    limiter: &mut ReadLimiter,
    start: Place,
    count: u32,
    size: StructSize,
    levels: u32,
    head: usize,
) -> Result<Option<usize>>
    requires inside { AreThere (words_in (A.segments arena.now)) (place_view start)
        (count * (size.data_words + size.pointers)) }
    requires head { HasHead (words_in (A.segments arena.now)) (place_view start)
        (count * (size.data_words + size.pointers)) head }
    ensures { let r = reach levels (words_in (A.segments arena.now)) in
        Tests (elements_test r (place_view start) count size.data_words size.pointers head)
        limiter.old result limiter.new }
{
    if size.pointers == 0 {
        return Ok(Some(head));
    }
    let mut end = head;
    for i in 0..count {
        let width = size.data_words as usize + size.pointers as usize;
        let first = Place {
            segment: start.segment,
            position: start.position + i as usize * width + size.data_words as usize,
        };
        match row_end(arena, limiter, first, size.pointers as u32, levels, end)? {
            Some(next) => end = next,
            None => return Ok(None),
        }
    }
    Ok(Some(end))
}
