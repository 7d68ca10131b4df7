//! Tests whether values are laid out as their canonical words.
ghost use Rattle.std.specs.Prelude.{◌≡◌, ◌+◌, None, IfSome, not, false};
ghost use Rattle.std.specs.Option.{is_some};
ghost use Rattle.capnp_model.specs.Segments.{place, words_at};
ghost use Rattle.capnp_units.specs.Segments.{words_in};
ghost use Rattle.capnp_wire_objects.specs.Places.{place_view};
ghost use Rattle.capnp_wire_objects.specs.Objects.{AreThere};
ghost use Rattle.capnp_wire_canonical.specs.Reaches.{reach};
ghost use Rattle.capnp_wire_canonical.specs.Checks.{head_state, TellsValue, TellsRow, TellsStruct, TellsMessage};

use crate::follow::follow_near_struct;
use crate::heads::{is_behind, move_on};
use crate::own_words::{are_words, is_least};
use crate::value_ends::{row_end, struct_here, value_end};
use capnp_units::errors::Result;
use capnp_units::limiter::ReadLimiter;
use capnp_units::sizes::StructSize;
use capnp_wire_objects::arena::ReaderArena;
use capnp_wire_objects::follow::follow_within;
use capnp_wire_objects::place::{Place, ROOT, has_words, segment_bytes};

/// Tests whether the pointer at a place and its value are laid out as the value's canonical words.
/// The pointer is at the place. The trimmed words below it are from the head on, a place after the
/// pointer in its segment. On a yes, the head is moved past those words. Otherwise it stays.
///
/// Pointers are followed, and objects paid for, as by `size_at`, up to the first difference. A
/// capability is a difference. So is a head that is in another segment or not after the pointer,
/// although the pointer itself is followed even then. Returns an error only if a walk over the
/// whole value does:
/// - the first fault, by its kind;
/// - `ReadLimitExceeded` at the first object that costs more words than are left.
///
/// Raising the limit of levels never turns a no into a yes, so a value that is only too deep is
/// refused with an error. A no is exact in a segment of at most 2^29 - 1 words, which is the most
/// that a message has. A yes is exact in any segment, and says that the value is within the levels
/// and the budget.
///
/// Takes no memory. Takes a step for each pointer that is followed and each word of an object, so
/// no step for an element without words. Each level takes a few hundred bytes of stack.
pub fn is_canonical<A: ReaderArena>(
    arena: &A,
    limiter: &mut ReadLimiter,
    place: Place,
    levels: u32,
    head: &mut Place,
) -> Result<bool>
    ensures { TellsValue (reach levels (words_in (A.segments arena.now))) (place_view place)
        (head_state (place_view head.old) limiter.old) result
        (head_state (place_view head.new) limiter.new) }
{
    if !is_behind(arena, place, 1, *head) {
        follow_within(arena, limiter, place, levels)?;
        return Ok(false);
    }
    are_words(arena, place.segment);
    let end = value_end(arena, limiter, place, levels, head.position)?;
    Ok(move_on(head, end))
}

/// Tests whether n pointers in a row, such as those of a struct, and their values are laid out as
/// canonical words. The words below each pointer are from the head on, one after the other. If the
/// head is elsewhere, no pointer is followed.
pub fn are_canonical<A: ReaderArena>(
    arena: &A,
    limiter: &mut ReadLimiter,
    first: Place,
    count: u32,
    levels: u32,
    head: &mut Place,
) -> Result<bool>
    requires { AreThere (words_in (A.segments arena.now)) (place_view first) count }
    ensures { TellsRow (reach levels (words_in (A.segments arena.now))) (place_view first) count
        (head_state (place_view head.old) limiter.old) result
        (head_state (place_view head.new) limiter.new) }
{
    if !is_behind(arena, first, count as usize, *head) {
        return Ok(false);
    }
    are_words(arena, first.segment);
    let end = row_end(arena, limiter, first, count, levels, head.position)?;
    Ok(move_on(head, end))
}

/// Tests whether a struct's own words and the objects below it are laid out as canonical words.
/// Neither its last data word nor its last pointer is a word of zeros. The words below its pointers
/// are from the head on, one after the other. Its own words were paid for already.
///
/// Errors come, and a no is exact, as for `is_canonical`. If the struct can do with less, or the
/// head is elsewhere, no pointer is followed.
pub fn is_canonical_struct<A: ReaderArena>(
    arena: &A,
    limiter: &mut ReadLimiter,
    start: Place,
    size: StructSize,
    levels: u32,
    head: &mut Place,
) -> Result<bool>
    requires { AreThere (words_in (A.segments arena.now)) (place_view start)
        (size.data_words + size.pointers) }
    ensures { TellsStruct (reach levels (words_in (A.segments arena.now))) (place_view start) size
        (head_state (place_view head.old) limiter.old) result
        (head_state (place_view head.new) limiter.new) }
{
    if !is_least(arena, start, size) {
        return Ok(false);
    }
    let first = Place {
        segment: start.segment,
        position: start.position + size.data_words as usize,
    };
    are_canonical(arena, limiter, first, size.pointers as u32, levels, head)
}

/// Tests whether the words of a message's value end at the end of its first segment.
#[inline(always)]
fn is_last<A: ReaderArena>(arena: &A, end: Option<usize>) -> bool
    ensures some { IfSome end (λ position.
        result ≡ not (is_some (words_at (words_in (A.segments arena.now)) (place 0 position) 1))) }
    ensures none { end ≡ None → result ≡ false }
{
    let Some(position) = end else {
        return false;
    };
    let behind = Place {
        segment: 0,
        position,
    };
    !has_words(arena, behind, 1)
}

/// Tests whether a message is one segment of the canonical words of its value. If there is a second
/// segment, the answer is no, no pointer is followed, and nothing is paid.
///
/// Errors come as for `is_canonical`. Raising the limit of levels never turns a no into a yes. A no
/// is exact if the segment has at most 2^29 - 1 words.
pub fn is_canonical_message<A: ReaderArena>(
    arena: &A,
    limiter: &mut ReadLimiter,
    levels: u32,
) -> Result<bool>
    ensures { TellsMessage levels (words_in (A.segments arena.now)) limiter.old result limiter.new }
{
    let second = Place {
        segment: 1,
        position: 0,
    };
    if has_words(arena, second, 0) {
        return Ok(false);
    }
    let bytes = segment_bytes(arena, 0);
    if let Some(near) = follow_near_struct(arena, bytes, limiter, ROOT, levels)? {
        are_words(arena, 0);
        let end = struct_here(arena, limiter, ROOT, near, levels - 1, 1)?;
        return Ok(is_last(arena, end));
    }
    let mut head = Place {
        segment: 0,
        position: 1,
    };
    let begins = is_canonical(arena, limiter, ROOT, levels, &mut head)?;
    Ok(begins && !has_words(arena, head, 1))
}
