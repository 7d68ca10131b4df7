//! Tests whether lists of plain elements are laid out as their canonical words.
ghost use Rattle.std.specs.Prelude.{◌≡◌, ℕ, None, IfSome};
ghost use Rattle.std.specs.Bool.{OnTrue, OnFalse};
ghost use Rattle.capnp_model.specs.Spelling.{AreWords};
ghost use Rattle.capnp_units.specs.Segments.{words_in};
ghost use Rattle.capnp_units.specs.declared.limiter.ReadLimiter.{ReadLimiter as Limiter};
ghost use Rattle.capnp_wire_objects.specs.Arenas.{segment_bytes};
ghost use Rattle.capnp_wire_objects.specs.Places.{place_view};
ghost use Rattle.capnp_wire_objects.specs.Near.{list_object, IsMeasured, IsNear};
ghost use Rattle.capnp_wire_objects.specs.Objects.{AreThere};
ghost use Rattle.capnp_wire_canonical.specs.Reaches.{reach};
ghost use Rattle.capnp_wire_canonical.specs.Objects.{IsShort};
ghost use Rattle.capnp_wire_canonical.specs.Standing.{EndsClear, HasHead, segment_words};
ghost use Rattle.capnp_wire_canonical.specs.Checks.{Tests, Agrees, object_test, value_test};

use crate::own_words::word_or_zero_in;
use capnp_units::limiter::ReadLimiter;
use capnp_wire_objects::arena::ReaderArena;
use capnp_wire_objects::lists::NearList;
use capnp_wire_objects::near::near_bytes_in;
use capnp_wire_objects::place::{Place, word_in};

/// A message has fewer words than this, and an offset or a count of words reaches no further.
pub(crate) const REACH: usize = 0x2000_0000;

/// Tests whether the bits after a list's last element are 0.
#[inline(always)]
fn ends_clear<A: ReaderArena>(arena: &A, bytes: &[u8], list: NearList) -> bool
    requires bytes { bytes.now ≡ segment_bytes (A.segments arena.now) list.start.segment }
    requires measured { IsMeasured list }
    requires inside { AreThere (words_in (A.segments arena.now)) (place_view list.start)
        list.words }
    requires whole { AreWords
        (segment_words (words_in (A.segments arena.now)) list.start.segment) }
    ensures clear { OnTrue result
        (EndsClear (words_in (A.segments arena.now)) (place_view list.start) list.bits) }
    ensures spare { OnFalse result
        (EndsClear (words_in (A.segments arena.now)) (place_view list.start) list.bits → ⊥) }
{
    let spare = list.bits % 64;
    if spare == 0 {
        return true;
    }
    let last = Place {
        segment: list.start.segment,
        position: list.start.position + list.words - 1,
    };
    let word = word_or_zero_in(arena, bytes, last);
    word % (1 << spare) == word
}

/// Returns the end of the words of a list of plain elements, if the list is from the head on. Then
/// the pointer at a place leads to the list, and the bits after its last element are 0. Its segment
/// is the one of these bytes.
#[inline(always)]
pub(crate) fn list_end<A: ReaderArena>(
    arena: &A,
    bytes: &[u8],
    place: Place,
    list: NearList,
    head: usize,
) -> Option<usize>
    requires bytes { bytes.now ≡ segment_bytes (A.segments arena.now) list.start.segment }
    requires near { IsNear (words_in (A.segments arena.now)) (place_view place) (list_object list) }
    requires measured { IsMeasured list }
    requires short { IsShort (list_object list) }
    requires head { HasHead (words_in (A.segments arena.now)) (place_view place) 1 head }
    ensures { (levels : ℕ) (l : Limiter) → Tests
        (object_test (reach levels (words_in (A.segments arena.now))) (place_view place) head
        (list_object list)) l (Ok result) l }
{
    if list.start.position != head {
        return None;
    }
    if !ends_clear(arena, bytes, list) {
        return None;
    }
    Some(head + list.words)
}

/// Returns the end of the words of the value of the pointer at a place, if the value is null, or a
/// list of bytes that is from the head on. These are the most common values. The segment is the one
/// of these bytes.
///
/// `None` has no meaning: the value may be any, even such a value, and `value_end` finds its end.
/// Then nothing was counted.
#[inline(always)]
pub(crate) fn common_end<A: ReaderArena>(
    arena: &A,
    bytes: &[u8],
    limiter: &mut ReadLimiter,
    place: Place,
    levels: u32,
    head: usize,
) -> Option<usize>
    requires bytes { bytes.now ≡ segment_bytes (A.segments arena.now) place.segment }
    requires head { HasHead (words_in (A.segments arena.now)) (place_view place) 1 head }
    ensures told { IfSome result (λ end. Agrees
        (value_test (reach levels (words_in (A.segments arena.now))) (place_view place) head)
        limiter.old end limiter.new) }
    ensures untold { result ≡ None → limiter.new ≡ limiter.old }
{
    if levels == 0 {
        return None;
    }
    let word = word_in(bytes, place.position)?;
    if word == 0 {
        limiter.follow();
        return Some(head);
    }
    let list = near_bytes_in(bytes, place)?;
    let end = list_end(arena, bytes, place, list, head)?;
    if !limiter.follow_for(list.words as u64) {
        return None;
    }
    Some(end)
}
