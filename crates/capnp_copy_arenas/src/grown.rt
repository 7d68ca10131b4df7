//! Using and writing of words in one of the segments that are held.
ghost use Rattle.std.specs.Prelude.{◌≡◌, ◌+◌, ◌-◌, ◌*◌, ◌/◌, ◌<◌, ◌≤◌, length, map, take, get_or, slice_get, option_copied, replicate, true, OnSome, IfSome, IfNone};
ghost use Rattle.std.specs.Option.{is_some};
ghost use Rattle.capnp_model.specs.Bytes.{words_in_bytes};
ghost use Rattle.capnp_model.specs.Segments.{words_at};
ghost use Rattle.capnp_wire_objects.specs.Places.{place_view};
ghost use Rattle.capnp_model_writes.specs.Writes.{with_words};
ghost use Rattle.capnp_copy_arenas.specs.Allocations.{total_of, UsesRoom};
ghost use Rattle.capnp_copy_arenas.specs.Holding.{held_words, free_words, held_loans, EndsAt, UsesMore, IsFullOrLong};

use crate::allocator::SegmentBytes;
use crate::held::Held;
use capnp_units::sizes::SegmentId;
use capnp_wire_objects::place::Place;

/// Uses n more words of a segment, if it exists and has as many free, and returns the position of
/// the first.
#[tactic(auto, using(crate::proofs::HeldWords::flat_map_set_same))]
pub(crate) fn grow_in<S: SegmentBytes>(all: &mut [Held<S>], index: usize, words: u32) -> Option<u32>
    ensures at { IfSome result (λ at. EndsAt all.old index at) }
    ensures words { IfSome result (λ at. UsesMore all.old all.new index words) }
    ensures total { IfSome result (λ at.
        total_of (λ h. h.used) all.new ≡ total_of (λ h. h.used) all.old + words) }
    ensures room { OnSome result (words ≤ get_or (free_words all.old) index 0) }
    ensures left { OnSome result
        (UsesRoom (free_words all.old) (free_words all.new) index words) }
    ensures full { IfNone result (IsFullOrLong all.old index words) }
    ensures none { IfNone result (all.new ≡ all.old) }
    ensures len { length all.new ≡ length all.old }
    ensures loans { held_loans all.new ≡ held_loans all.old }
{
    if index >= all.len() {
        return None;
    }
    all[index].grow(words)
}

/// Writes whole words over used words.
#[tactic(auto, using(crate::proofs::HeldWords::flat_map_set_same))]
pub(crate) fn write_in_segment<S: SegmentBytes>(all: &mut [Held<S>], place: Place, from: &[u8])
    requires whole { 8 * (length from.now / 8) ≡ length from.now }
    requires there { is_some (words_at (held_words all.old)
        (place_view place) (length from.now / 8)) ≡ true }
    ensures words { held_words all.new
        ≡ with_words (held_words all.old) (place_view place)
        (words_in_bytes (length from.now / 8) from.now) }
    ensures total { total_of (λ h. h.used) all.new ≡ total_of (λ h. h.used) all.old }
    ensures len { length all.new ≡ length all.old }
    ensures room { free_words all.new ≡ free_words all.old }
    ensures loans { held_loans all.new ≡ held_loans all.old }
{
    let index = place.segment as usize;
    if index < all.len() {
        all[index].write(place.position, from);
    }
}

/// Writes zeros over used words.
#[tactic(auto, using(crate::proofs::HeldWords::flat_map_set_same))]
pub(crate) fn zero_in_segment<S: SegmentBytes>(all: &mut [Held<S>], place: Place, count: usize)
    requires there { is_some (words_at (held_words all.old)
        (place_view place) count) ≡ true }
    ensures words { held_words all.new
        ≡ with_words (held_words all.old) (place_view place)
        (replicate count 0) }
    ensures total { total_of (λ h. h.used) all.new ≡ total_of (λ h. h.used) all.old }
    ensures len { length all.new ≡ length all.old }
    ensures room { free_words all.new ≡ free_words all.old }
    ensures loans { held_loans all.new ≡ held_loans all.old }
{
    let index = place.segment as usize;
    if index < all.len() {
        all[index].zero(place.position, count);
    }
}

/// Returns the used bytes of a segment, or `None` past the last segment.
pub(crate) fn used_bytes_at<S: SegmentBytes>(all: &[Held<S>], id: SegmentId) -> Option<&[u8]>
    ensures { option_copied result
        ≡ slice_get (map (λ h. take (8 * h.used) (S.bytes h.segment)) all.now) id }
{
    match all.get(id as usize) {
        None => None,
        Some(held) => Some(held.used_bytes()),
    }
}
