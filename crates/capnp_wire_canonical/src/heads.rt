//! Heads: the places at which the next words have to be.
ghost use Rattle.std.specs.Prelude.{◌≡◌, ◌^◌, ◌<◌, Some, None};
ghost use Rattle.std.specs.Bool.{OnTrue, OnFalse};
ghost use Rattle.capnp_units.specs.Segments.{words_in};
ghost use Rattle.capnp_wire_objects.specs.Places.{place_view};
ghost use Rattle.capnp_wire_canonical.specs.Checks.{IsBehind};

use capnp_wire_objects::arena::ReaderArena;
use capnp_wire_objects::place::{Place, has_words};

/// Returns the start of a struct of n words whose pointer is at a place: the head, or the pointer
/// itself if the struct has no words.
#[inline(always)]
pub(crate) fn struct_start(place: Place, words: usize, head: usize) -> usize
    ensures empty { words ≡ 0 → result ≡ place.position }
    ensures some { (words ≡ 0 → ⊥) → result ≡ head }
{
    if words == 0 { place.position } else { head }
}

/// Tests whether the head comes after a place in its segment, by at least n words.
#[inline(always)]
pub(crate) fn is_behind<A: ReaderArena>(arena: &A, place: Place, words: usize, head: Place) -> bool
    ensures behind { let s = words_in (A.segments arena.now) in
        OnTrue result
        (IsBehind s (place_view place) words (place_view head) × (head.position < 2 ^ 61)) }
    ensures elsewhere { let s = words_in (A.segments arena.now) in
        OnFalse result (IsBehind s (place_view place) words (place_view head) → ⊥) }
{
    head.segment == place.segment
        && place.position <= head.position
        && words <= head.position - place.position
        && has_words(arena, head, 0)
}

/// Moves the head to the end, if there is one.
#[inline(always)]
pub(crate) fn move_on(head: &mut Place, end: Option<usize>) -> bool
    ensures some { OnTrue result
        ((end ≡ Some head.new.position) × (head.new.segment ≡ head.old.segment)) }
    ensures none { OnFalse result ((end ≡ None) × (head.new ≡ head.old)) }
{
    match end {
        Some(position) => {
            head.position = position;
            true
        }
        None => false,
    }
}
