//! The objects of pointers, found with one look at their segment if that suffices.
ghost use Rattle.std.specs.Prelude.{◌≡◌, ℕ, List, IfSome, IfOk};
ghost use Rattle.capnp_units.specs.Segments.{words_in};
ghost use Rattle.capnp_wire_objects.specs.Arenas.{segment_bytes};
ghost use Rattle.capnp_wire_objects.specs.Places.{place_view};
ghost use Rattle.capnp_wire_objects.specs.Follow.{FollowGives};
ghost use Rattle.capnp_wire_objects.specs.Near.{IsNear};
ghost use Rattle.capnp_wire.specs.Reached.{begins_in, IsSomewhere};

use capnp_units::errors::Result;
use capnp_units::limiter::ReadLimiter;
use capnp_wire_objects::arena::ReaderArena;
use capnp_wire_objects::follow::{follow, own_cost};
use capnp_wire_objects::near::{near_list_in, near_struct_in, near_structs_in};
use capnp_wire_objects::object::Object;
use capnp_wire_objects::place::Place;
use capnp_wire_objects::structs::NearStruct;

/// The object that a pointer leads to.
#[derive(Clone, Copy)]
pub(crate) struct Reached<'a> {
    pub object: Object,
    /// The bytes of the segment in which the object begins, of the first segment if it has no
    /// place.
    pub bytes: &'a [u8],
}

/// Returns the number of the segment in which an object begins, 0 if it has no place.
#[inline(always)]
pub(crate) fn segment_of(object: Object) -> u32
    ensures { result ≡ begins_in object }
{
    match object {
        Object::Null | Object::Capability { .. } => 0,
        Object::Struct { start, .. }
        | Object::List { start, .. }
        | Object::PointerList { start, .. }
        | Object::StructList { start, .. } => start.segment,
    }
}

/// Returns the struct or the list that the pointer at a place names in its own segment, which has
/// these bytes. It finds no lists of pointers. `None` has no meaning.
#[inline(always)]
pub(crate) fn near_object_in(bytes: &[u8], place: Place) -> Option<Object>
    ensures near { (segments : List (List ℕ)) → bytes.now ≡ segment_bytes segments place.segment
        → IfSome result (λ o. IsNear (words_in segments) (place_view place) o) }
    ensures segment { IfSome result (λ o. begins_in o ≡ place.segment) }
    ensures there { IfSome result IsSomewhere }
{
    if let Some(NearStruct { start, size }) = near_struct_in(bytes, place) {
        return Some(Object::Struct {
            start,
            data_words: size.data_words,
            pointers: size.pointers,
        });
    }
    if let Some(list) = near_list_in(bytes, place) {
        return Some(Object::List {
            start: list.start,
            size: list.size,
            count: list.count,
        });
    }
    let list = near_structs_in(bytes, place)?;
    Some(Object::StructList {
        start: list.start,
        words: list.words,
        count: list.count,
        data_words: list.size.data_words,
        pointers: list.size.pointers,
    })
}

/// Counts a pointer as followed to an object in its own segment, and grants the object's words,
/// like `follow`.
#[inline(always)]
pub(crate) fn follow_near<A: ReaderArena>(
    arena: &A,
    limiter: &mut ReadLimiter,
    place: Place,
    object: Object,
) -> Result<Object>
    requires { IsNear (words_in (A.segments arena.now)) (place_view place) object }
    ensures followed { FollowGives (words_in (A.segments arena.now)) (place_view place) limiter.old
        result limiter.new }
    ensures same { IfOk result (λ o. o ≡ object) }
{
    limiter.follow();
    limiter.charge(own_cost(object))?;
    Ok(object)
}

/// Does what `follow` does, out of line, so that readers of near objects have few instructions.
#[inline(never)]
pub(crate) fn follow_any<A: ReaderArena>(
    arena: &A,
    limiter: &mut ReadLimiter,
    place: Place,
) -> Result<Object>
    ensures { FollowGives (words_in (A.segments arena.now)) (place_view place) limiter.old result
        limiter.new }
{
    follow(arena, limiter, place)
}
