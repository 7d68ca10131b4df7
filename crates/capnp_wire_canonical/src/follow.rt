//! Following pointers of values without capabilities.
ghost use Rattle.std.specs.Bool.{OnTrue, OnFalse};
ghost use Rattle.std.specs.Prelude.{◌≡◌, ◌<◌, ◌^◌, Some, None, IfOk, IfSome, MatchResult};
ghost use Rattle.capnp_units.specs.Errors.{kind_of};
ghost use Rattle.capnp_units.specs.Segments.{words_in};
ghost use Rattle.capnp_units.specs.Limits.{Spends, Follows};
ghost use Rattle.capnp_wire_objects.specs.declared.object.Object.TheVariants as seen;
ghost use Rattle.capnp_wire_objects.specs.Arenas.{segment_bytes};
ghost use Rattle.capnp_wire_objects.specs.Places.{place_view};
ghost use Rattle.capnp_wire_objects.specs.Named.{named_view};
ghost use Rattle.capnp_wire_objects.specs.Follow.{FollowsWithin, Pays, own_cost};
ghost use Rattle.capnp_wire_objects.specs.Near.{list_object, struct_object, structs_object, IsMeasured, IsNear};
ghost use Rattle.capnp_wire_canonical.specs.Copies.{FollowsData, FollowsNear, object_fault};

use capnp_units::errors::{Error, Result};
use capnp_units::kinds::ErrorKind;
use capnp_units::limiter::ReadLimiter;
use capnp_units::sizes::ElementSize;
use capnp_wire_objects::arena::ReaderArena;
use capnp_wire_objects::follow::own_cost;
use capnp_wire_objects::lists::NearList;
use capnp_wire_objects::named::{NamedObject, found_at};
use capnp_wire_objects::near::{
    NearPointers, near_list_in, near_pointers_in, near_struct_in, near_structs_in,
};
use capnp_wire_objects::object::{Object, whole};
use capnp_wire_objects::place::{Place, word_in};
use capnp_wire_objects::structs::{NearStruct, NearStructs};

/// Refuses a capability, and an object that takes a level if no level is left.
#[inline(always)]
fn ask_data(named: NamedObject, levels: u32) -> Result<()>
    ensures { MatchResult
        result (λ u.
        object_fault levels (named_view named) ≡ None)
        (λ e. object_fault levels (named_view named) ≡ Some (kind_of e.kind)) }
{
    match named {
        NamedObject::Null => Ok(()),
        NamedObject::Capability { .. } => Err(Error::from(ErrorKind::CapabilityInCanonical)),
        NamedObject::Struct { .. } | NamedObject::List { .. } => {
            if levels > 0 {
                Ok(())
            } else {
                Err(Error::from(ErrorKind::NestingLimitExceeded))
            }
        }
    }
}

/// Returns the object that the pointer at a place names, on a walk of at most n levels. The pointer
/// is counted as followed, and its pads and the object's own words are granted.
///
/// Returns the errors of `follow_within`, and `CapabilityInCanonical` for a capability.
#[inline(always)]
pub(crate) fn follow_data<A: ReaderArena>(
    arena: &A,
    limiter: &mut ReadLimiter,
    place: Place,
    levels: u32,
) -> Result<Object>
    ensures { FollowsData levels (words_in (A.segments arena.now)) (place_view place) limiter.old
        result limiter.new }
{
    limiter.follow();
    let found = found_at(arena, place)?;
    ask_data(found.object, levels)?;
    let object = whole(arena, found.object)?;
    limiter.charge(found.pads as u64 + own_cost(object))?;
    Ok(object)
}

/// Returns the words that following a list costs by itself. For a list of voids they are as many as
/// its elements.
#[inline(always)]
pub(crate) fn list_cost(list: NearList) -> u64
    requires { IsMeasured list }
    ensures { result ≡ own_cost (list_object list) }
{
    if list.size == ElementSize::Void {
        list.count as u64
    } else {
        list.words as u64
    }
}

/// Returns the list that `near_list_in` finds at a place in the segment of these bytes, on a walk
/// of at most n levels. The pointer is counted as followed, and the list's words are granted.
/// `None` says nothing about the place, and nothing was counted.
///
/// Returns `ReadLimitExceeded` if the words exceed what is left of the limit. Then the pointer is
/// counted all the same, and no word is granted.
#[inline(always)]
pub(crate) fn follow_near_list<A: ReaderArena>(
    arena: &A,
    bytes: &[u8],
    limiter: &mut ReadLimiter,
    place: Place,
    levels: u32,
) -> Result<Option<NearList>>
    requires { bytes.now ≡ segment_bytes (A.segments arena.now) place.segment }
    ensures copied { FollowsNear list_object
        (FollowsData levels (words_in (A.segments arena.now)) (place_view place))
        limiter.old result limiter.new }
    ensures walked { FollowsNear list_object
        (FollowsWithin levels (words_in (A.segments arena.now)) (place_view place))
        limiter.old result limiter.new }
    ensures near { IfOk result (λ found. IfSome found (λ list.
        IsNear (words_in (A.segments arena.now)) (place_view place) (list_object list)
        × IsMeasured list × (list.start.segment ≡ place.segment))) }
{
    if levels == 0 {
        return Ok(None);
    }
    let Some(list) = near_list_in(bytes, place) else {
        return Ok(None);
    };
    limiter.follow();
    limiter.charge(list_cost(list))?;
    Ok(Some(list))
}

/// Returns the struct that `near_struct_in` finds at a place in the segment of these bytes, on a
/// walk of at most n levels. The pointer is counted as followed, and the struct's words are
/// granted. `None` says nothing about the place, and nothing was counted.
///
/// Returns `ReadLimitExceeded` if the words exceed what is left of the limit. Then the pointer is
/// counted all the same, and no word is granted.
#[inline(always)]
pub(crate) fn follow_near_struct<A: ReaderArena>(
    arena: &A,
    bytes: &[u8],
    limiter: &mut ReadLimiter,
    place: Place,
    levels: u32,
) -> Result<Option<NearStruct>>
    requires { bytes.now ≡ segment_bytes (A.segments arena.now) place.segment }
    ensures copied { FollowsNear struct_object
        (FollowsData levels (words_in (A.segments arena.now)) (place_view place))
        limiter.old result limiter.new }
    ensures walked { FollowsNear struct_object
        (FollowsWithin levels (words_in (A.segments arena.now)) (place_view place))
        limiter.old result limiter.new }
    ensures near { IfOk result (λ found. IfSome found (λ near.
        IsNear (words_in (A.segments arena.now)) (place_view place) (struct_object near)
        × (near.start.segment ≡ place.segment))) }
{
    if levels == 0 {
        return Ok(None);
    }
    let Some(near) = near_struct_in(bytes, place) else {
        return Ok(None);
    };
    limiter.follow();
    limiter.charge(near.size.data_words as u64 + near.size.pointers as u64)?;
    Ok(Some(near))
}

/// Counts the pointer at a place in the segment of these bytes as followed, if it is null.
/// Otherwise nothing changes.
#[inline(always)]
pub(crate) fn follow_null<A: ReaderArena>(
    arena: &A,
    bytes: &[u8],
    limiter: &mut ReadLimiter,
    place: Place,
) -> bool
    requires { bytes.now ≡ segment_bytes (A.segments arena.now) place.segment }
    ensures paid { OnTrue result (Pays (words_in (A.segments arena.now)) (place_view place)
        limiter.old seen.Null limiter.new) }
    ensures untold { OnFalse result (limiter.new ≡ limiter.old) }
{
    let Some(word) = word_in(bytes, place.position) else {
        return false;
    };
    if word == 0 {
        limiter.follow();
        return true;
    }
    false
}

/// Returns the words that following a list of structs costs by itself: its own words with its tag,
/// and as many as its elements if an element has no word.
#[inline(always)]
pub(crate) fn structs_cost(near: NearStructs) -> u64
    ensures cost { result ≡ own_cost (structs_object near) }
    ensures few { result < 2 ^ 36 }
{
    let width = near.size.data_words as u64 + near.size.pointers as u64;
    let empty = if width == 0 { near.count as u64 } else { 0 };
    near.words as u64 + 1 + empty
}

/// Returns the list of structs that `near_structs_in` finds at a place in the segment of these
/// bytes. The pointer is counted as followed, and the list's words are granted.
///
/// Returns `None` if the function finds nothing, which says nothing about the place, or if the
/// words exceed what is left. Then nothing was counted.
#[inline(always)]
pub(crate) fn follow_structs<A: ReaderArena>(
    arena: &A,
    bytes: &[u8],
    limiter: &mut ReadLimiter,
    place: Place,
) -> Option<NearStructs>
    requires { bytes.now ≡ segment_bytes (A.segments arena.now) place.segment }
    ensures paid { IfSome result (λ near. Pays (words_in (A.segments arena.now))
        (place_view place) limiter.old (structs_object near) limiter.new) }
    ensures untold { result ≡ None → limiter.new ≡ limiter.old }
{
    let near = near_structs_in(bytes, place)?;
    if !limiter.follow_for(structs_cost(near)) {
        return None;
    }
    Some(near)
}

/// Returns the list of pointers that `near_pointers_in` finds, as `follow_structs` returns a list
/// of structs.
#[inline(always)]
pub(crate) fn follow_pointers<A: ReaderArena>(
    arena: &A,
    bytes: &[u8],
    limiter: &mut ReadLimiter,
    place: Place,
) -> Option<NearPointers>
    requires { bytes.now ≡ segment_bytes (A.segments arena.now) place.segment }
    ensures paid { IfSome result (λ near. Pays (words_in (A.segments arena.now))
        (place_view place) limiter.old (seen.PointerList near.start near.count) limiter.new) }
    ensures untold { result ≡ None → limiter.new ≡ limiter.old }
{
    let near = near_pointers_in(bytes, place)?;
    if !limiter.follow_for(near.count as u64) {
        return None;
    }
    Some(near)
}

/// Counts n nulls as followed.
#[inline(always)]
pub(crate) fn follow_nulls(limiter: &mut ReadLimiter, count: u32)
    ensures followed { Follows limiter.old limiter.new count }
    ensures granted { Spends limiter.old limiter.new 0 }
{
    for _i in 0..count {
        limiter.follow();
    }
}
