//! Copies of lists of plain elements.
ghost use Rattle.std.specs.Prelude.{◌≡◌, ℕ, ◌+◌, ◌≤◌, ◌<◌, ◌^◌, length, None, IfSome, Ok};
ghost use Rattle.capnp_units.specs.Segments.{words_in};
ghost use Rattle.capnp_units.specs.declared.limiter.ReadLimiter.{ReadLimiter as Limiter};
ghost use Rattle.capnp_wire_objects.specs.Arenas.{segment_bytes};
ghost use Rattle.capnp_wire_objects.specs.Objects.{IsInside};
ghost use Rattle.capnp_wire_objects.specs.Places.{place_view};
ghost use Rattle.capnp_wire_objects.specs.Near.{list_object, IsMeasured};
ghost use Rattle.capnp_wire_canonical.specs.Reaches.{reach};
ghost use Rattle.capnp_wire_canonical.specs.Copies.{copy_state, Written};
ghost use Rattle.capnp_wire_canonical.specs.Objects.{IsShort, WritesObject, HasPlace, write_spot, value_copy};

use crate::own_words::copy_words;
use crate::words::{end_of, has_room, mask_last, pointer_to_list, put};
use capnp_units::errors::Result;
use capnp_units::limiter::ReadLimiter;
use capnp_units::sizes::Word;
use capnp_wire_objects::arena::ReaderArena;
use capnp_wire_objects::lists::NearList;
use capnp_wire_objects::near::near_bytes_in;
use capnp_wire_objects::place::{Place, word_in};

/// Writes the pointer to a list of plain elements, and the list after the words that are used, for
/// which there is room. It returns where the list ends. The bits after its last element are 0.
#[inline(always)]
fn lay_list<A: ReaderArena>(
    arena: &A,
    bytes: &[u8],
    list: NearList,
    into: &mut [Word],
    at: usize,
    used: usize,
) -> usize
    requires bytes { bytes.now ≡ segment_bytes (A.segments arena.now) list.start.segment }
    requires inside { IsInside (words_in (A.segments arena.now)) (list_object list) }
    requires measured { IsMeasured list }
    requires short { IsShort (list_object list) }
    requires place { HasPlace (at + 1) used into.old }
    requires room { (used + list.words ≤ length into.old) × (used + list.words < 2 ^ 29) }
    ensures { (levels : ℕ) (l : Limiter)
        → WritesObject (reach levels (words_in (A.segments arena.now))) (list_object list)
        (write_spot at used) (copy_state into.old l) (Ok result) (copy_state into.new l) }
{
    let word = pointer_to_list(
        (used - at - 1) as u64,
        list.size.number(),
        list.count as u64,
    );
    put(into, at, word);
    copy_words(arena, bytes, list.start, list.words, into, used);
    let end = used + list.words;
    mask_last(into, end, list.bits);
    end
}

/// Writes the pointer to a list of plain elements, and the list after the words that are used. The
/// bits after its last element are 0.
#[inline(always)]
pub(crate) fn write_list<A: ReaderArena>(
    arena: &A,
    bytes: &[u8],
    list: NearList,
    into: &mut [Word],
    at: usize,
    used: usize,
) -> Result<usize>
    requires bytes { bytes.now ≡ segment_bytes (A.segments arena.now) list.start.segment }
    requires inside { IsInside (words_in (A.segments arena.now)) (list_object list) }
    requires measured { IsMeasured list }
    requires short { IsShort (list_object list) }
    requires place { HasPlace (at + 1) used into.old }
    ensures { (levels : ℕ) (l : Limiter)
        → WritesObject (reach levels (words_in (A.segments arena.now))) (list_object list)
        (write_spot at used) (copy_state into.old l) result (copy_state into.new l) }
{
    end_of(into, used, list.words)?;
    Ok(lay_list(arena, bytes, list, into, at, used))
}

/// Writes the pointer at a place to null or to a list of bytes, the most common values. The list
/// goes after the words that are used. It returns where that ends. The segment is the one of these
/// bytes.
///
/// `None` has no meaning: `write_at` writes or refuses the value, which may be such a list too. Then
/// nothing was written, and nothing was counted.
#[inline(always)]
pub(crate) fn write_common<A: ReaderArena>(
    arena: &A,
    bytes: &[u8],
    limiter: &mut ReadLimiter,
    place: Place,
    levels: u32,
    into: &mut [Word],
    at: usize,
    used: usize,
) -> Option<usize>
    requires bytes { bytes.now ≡ segment_bytes (A.segments arena.now) place.segment }
    requires place { HasPlace (at + 1) used into.old }
    ensures written { let r = reach levels (words_in (A.segments arena.now)) in
        IfSome result (λ end. Written (value_copy r (place_view place) (write_spot at used))
        (copy_state into.old limiter.old) end (copy_state into.new limiter.new)) }
    ensures untold { result ≡ None → (limiter.new ≡ limiter.old) × (into.new ≡ into.old) }
{
    if levels == 0 {
        return None;
    }
    let word = word_in(bytes, place.position)?;
    if word == 0 {
        limiter.follow();
        put(into, at, 0);
        return Some(used);
    }
    let list = near_bytes_in(bytes, place)?;
    if !has_room(into, used, list.words) {
        return None;
    }
    if !limiter.follow_for(list.words as u64) {
        return None;
    }
    Some(lay_list(arena, bytes, list, into, at, used))
}
