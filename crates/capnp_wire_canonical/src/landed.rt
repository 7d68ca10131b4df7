//! Following pointers to what is neither a near struct nor a near list of plain elements: other near
//! lists, and objects that a landing pad of one word leads to.
ghost use Rattle.std.specs.Prelude.{◌≡◌, ◌<◌, None, IfSome, Ok};
ghost use Rattle.std.specs.Option.{OnSome};
ghost use Rattle.capnp_units.specs.Segments.{words_in};
ghost use Rattle.capnp_wire_objects.specs.Arenas.{segment_bytes};
ghost use Rattle.capnp_wire_objects.specs.Places.{place_view};
ghost use Rattle.capnp_wire_objects.specs.Follow.{Pays};
ghost use Rattle.capnp_wire_objects.specs.Near.{list_object, struct_object, structs_object};
ghost use Rattle.capnp_wire_canonical.specs.Copies.{FollowsData, LeadsToPad};

use crate::follow::{follow_null, follow_pointers, follow_structs, list_cost, structs_cost};
use capnp_units::limiter::ReadLimiter;
use capnp_wire_objects::arena::ReaderArena;
use capnp_wire_objects::lists::NearList;
use capnp_wire_objects::near::{near_list_in, near_struct_in, near_structs_in, short_pad};
use capnp_wire_objects::object::Object;
use capnp_wire_objects::place::{Place, segment_bytes, word_in};
use capnp_wire_objects::structs::{NearStruct, NearStructs};

/// The pad of one word that the pointer at a place leads to, where it leads to one. The segment is
/// the one of these bytes.
#[inline(always)]
fn pad_at<A: ReaderArena>(arena: &A, bytes: &[u8], place: Place) -> Option<Place>
    requires { bytes.now ≡ segment_bytes (A.segments arena.now) place.segment }
    ensures { IfSome result (λ pad. LeadsToPad (words_in (A.segments arena.now))
        (place_view place) (place_view pad)) }
{
    let word = word_in(bytes, place.position)?;
    short_pad(word)
}

/// The list that the pointer at a place leads to over a pad. `near_list_in` finds it at the pad,
/// in the segment of these bytes. The pointer is counted as followed, and the words of the pad and
/// of the list are granted.
///
/// `None` says nothing of what is there, or the words pass what is left. Then nothing was counted.
#[inline(always)]
fn follow_landed_list<A: ReaderArena>(
    arena: &A,
    bytes: &[u8],
    limiter: &mut ReadLimiter,
    place: Place,
    pad: Place,
) -> Option<NearList>
    requires bytes { bytes.now ≡ segment_bytes (A.segments arena.now) pad.segment }
    requires pad { LeadsToPad (words_in (A.segments arena.now)) (place_view place)
        (place_view pad) }
    ensures paid { IfSome result (λ list. Pays (words_in (A.segments arena.now))
        (place_view place) limiter.old (list_object list) limiter.new) }
    ensures untold { result ≡ None → limiter.new ≡ limiter.old }
{
    let list = near_list_in(bytes, pad)?;
    if !limiter.follow_for(1 + list_cost(list)) {
        return None;
    }
    Some(list)
}

/// The struct that the pointer at a place leads to over a pad, as `follow_landed_list` finds a
/// list.
#[inline(always)]
fn follow_landed_struct<A: ReaderArena>(
    arena: &A,
    bytes: &[u8],
    limiter: &mut ReadLimiter,
    place: Place,
    pad: Place,
) -> Option<NearStruct>
    requires bytes { bytes.now ≡ segment_bytes (A.segments arena.now) pad.segment }
    requires pad { LeadsToPad (words_in (A.segments arena.now)) (place_view place)
        (place_view pad) }
    ensures paid { IfSome result (λ near. Pays (words_in (A.segments arena.now))
        (place_view place) limiter.old (struct_object near) limiter.new) }
    ensures untold { result ≡ None → limiter.new ≡ limiter.old }
{
    let near = near_struct_in(bytes, pad)?;
    if !limiter.follow_for(1 + near.size.data_words as u64 + near.size.pointers as u64) {
        return None;
    }
    Some(near)
}

/// The list of structs that the pointer at a place leads to over a pad, as `follow_landed_list`
/// finds a list.
#[inline(always)]
fn follow_landed_structs<A: ReaderArena>(
    arena: &A,
    bytes: &[u8],
    limiter: &mut ReadLimiter,
    place: Place,
    pad: Place,
) -> Option<NearStructs>
    requires bytes { bytes.now ≡ segment_bytes (A.segments arena.now) pad.segment }
    requires pad { LeadsToPad (words_in (A.segments arena.now)) (place_view place)
        (place_view pad) }
    ensures paid { IfSome result (λ near. Pays (words_in (A.segments arena.now))
        (place_view place) limiter.old (structs_object near) limiter.new) }
    ensures untold { result ≡ None → limiter.new ≡ limiter.old }
{
    let near = near_structs_in(bytes, pad)?;
    if !limiter.follow_for(1 + structs_cost(near)) {
        return None;
    }
    Some(near)
}

/// The object that the pointer at a place leads to by a pad of one word, where it is a struct, or a
/// list of structs or of plain elements, in the segment of the pad, on a walk of at most n levels.
/// The pointer is counted as followed, and the words of the pad and the object's own are granted.
/// The pointer's segment is the one of these bytes.
///
/// `None` says nothing of what is there, or the words pass what is left. Then nothing was counted.
#[inline(always)]
fn follow_landed<A: ReaderArena>(
    arena: &A,
    bytes: &[u8],
    limiter: &mut ReadLimiter,
    place: Place,
    levels: u32,
) -> Option<Object>
    requires { bytes.now ≡ segment_bytes (A.segments arena.now) place.segment }
    ensures followed { IfSome result (λ object. FollowsData levels
        (words_in (A.segments arena.now)) (place_view place) limiter.old (Ok object)
        limiter.new) }
    ensures deep { OnSome result (0 < levels) }
    ensures untold { result ≡ None → limiter.new ≡ limiter.old }
{
    if levels == 0 {
        return None;
    }
    let pad = pad_at(arena, bytes, place)?;
    let there = segment_bytes(arena, pad.segment);
    if let Some(list) = follow_landed_list(arena, there, limiter, place, pad) {
        return Some(Object::List {
            start: list.start,
            size: list.size,
            count: list.count,
        });
    }
    if let Some(near) = follow_landed_struct(arena, there, limiter, place, pad) {
        return Some(Object::Struct {
            start: near.start,
            data_words: near.size.data_words,
            pointers: near.size.pointers,
        });
    }
    let near = follow_landed_structs(arena, there, limiter, place, pad)?;
    Some(Object::StructList {
        start: near.start,
        words: near.words,
        count: near.count,
        data_words: near.size.data_words,
        pointers: near.size.pointers,
    })
}

/// The object that the pointer at a place leads to, on a walk of at most n levels, where it is
/// - null;
/// - a list of structs or of pointers in the same segment, without a landing pad;
/// - one that `follow_landed` finds.
///
/// The pointer is counted as followed, and its pad and the object's own words are granted. The
/// pointer's segment is the one of these bytes.
///
/// `None` says nothing of what is there, or the words pass what is left. Then nothing was counted.
#[inline(always)]
pub(crate) fn follow_other<A: ReaderArena>(
    arena: &A,
    bytes: &[u8],
    limiter: &mut ReadLimiter,
    place: Place,
    levels: u32,
) -> Option<Object>
    requires { bytes.now ≡ segment_bytes (A.segments arena.now) place.segment }
    ensures followed { IfSome result (λ object. FollowsData levels
        (words_in (A.segments arena.now)) (place_view place) limiter.old (Ok object)
        limiter.new) }
    ensures deep { OnSome result (0 < levels) }
    ensures untold { result ≡ None → limiter.new ≡ limiter.old }
{
    if levels == 0 {
        return None;
    }
    if follow_null(arena, bytes, limiter, place) {
        return Some(Object::Null);
    }
    if let Some(near) = follow_structs(arena, bytes, limiter, place) {
        return Some(Object::StructList {
            start: near.start,
            words: near.words,
            count: near.count,
            data_words: near.size.data_words,
            pointers: near.size.pointers,
        });
    }
    if let Some(near) = follow_pointers(arena, bytes, limiter, place) {
        return Some(Object::PointerList {
            start: near.start,
            count: near.count,
        });
    }
    follow_landed(arena, bytes, limiter, place, levels)
}
