//! Following of pointers within a budget.
ghost use Rattle.std.specs.Prelude.{◌≡◌, ◌+◌, ◌<◌, ◌^◌, true, false, MatchResult};
ghost use Rattle.capnp_units.specs.Segments.{words_in};
ghost use Rattle.capnp_wire_objects.specs.Places.{place_view};
ghost use Rattle.capnp_wire_objects.specs.Named.{named_view};
ghost use Rattle.capnp_wire_objects.specs.Follow.{own_cost, FollowGives, suffice_for, FollowsWithin};

use crate::arena::ReaderArena;
use crate::named::{NamedObject, found_at};
use crate::object::{Object, object_at, whole, words_of_elements};
use crate::place::Place;
use capnp_units::errors::{Error, Result};
use capnp_units::kinds::ErrorKind;
use capnp_units::limiter::ReadLimiter;
use capnp_units::sizes::ElementSize;

/// Returns the cost of following an object by itself, in words: those of a struct or a list, with a
/// list's tag. A list of voids costs one word for each element. So does a list of structs without a
/// word, in addition to its tag.
#[inline(always)]
pub fn own_cost(object: Object) -> u64
    ensures words { result ≡ own_cost object }
    ensures few { result < 2 ^ 36 }
{
    match object {
        Object::Null | Object::Capability { .. } => 0,
        Object::Struct {
            data_words,
            pointers,
            ..
        } => data_words as u64 + pointers as u64,
        Object::List { size, count, .. } => {
            let words = words_of_elements(size, count);
            if size == ElementSize::Void {
                count as u64
            } else {
                words
            }
        }
        Object::PointerList { count, .. } => count as u64,
        Object::StructList {
            words,
            count,
            data_words,
            pointers,
            ..
        } => {
            let width = data_words as u64 + pointers as u64;
            let empty = if width == 0 { count as u64 } else { 0 };
            words as u64 + 1 + empty
        }
    }
}

/// Returns the object that the pointer at a place names, one level deep. The pointer counts as
/// followed, and the words of its pads and of the object itself are granted.
///
/// It is refused like `object_at`, or with `ReadLimitExceeded` if the words exceed those that are
/// left of the limit. Then the pointer still counts as followed, and no word is granted.
#[inline(always)]
pub fn follow<A: ReaderArena>(arena: &A, limiter: &mut ReadLimiter, place: Place) -> Result<Object>
    ensures { FollowGives (words_in (A.segments arena.now)) (place_view place) limiter.old result
        limiter.new }
{
    limiter.follow();
    let found = object_at(arena, place)?;
    limiter.charge(found.pads as u64 + own_cost(found.object))?;
    Ok(found.object)
}

/// Refuses an object that takes a level if no level is left. Null and a capability take none.
#[inline(always)]
fn ask_level(named: NamedObject, levels: u32) -> Result<()>
    ensures { MatchResult
        result (λ u. suffice_for levels (named_view named) ≡ true) (λ e.
        (e.kind ≡ ErrorKind.NestingLimitExceeded)
        × (suffice_for levels (named_view named) ≡ false)) }
{
    match named {
        NamedObject::Null | NamedObject::Capability { .. } => Ok(()),
        NamedObject::Struct { .. } | NamedObject::List { .. } => {
            if levels > 0 {
                Ok(())
            } else {
                Err(Error::from(ErrorKind::NestingLimitExceeded))
            }
        }
    }
}

/// Returns the object that the pointer at a place names, one level deep, on a walk of at most n
/// levels. The pointer counts as followed, and the words of its pads and of the object itself are
/// granted.
///
/// It is refused
/// - like `object_at`;
/// - with `NestingLimitExceeded` if a struct or a list is there and no level is left;
/// - with `ReadLimitExceeded` if the words exceed those that are left of the limit.
///
/// Then the pointer still counts as followed, and no word is granted.
pub fn follow_within<A: ReaderArena>(
    arena: &A,
    limiter: &mut ReadLimiter,
    place: Place,
    levels: u32,
) -> Result<Object>
    ensures { FollowsWithin levels (words_in (A.segments arena.now)) (place_view place)
        limiter.old result limiter.new }
{
    limiter.follow();
    let found = found_at(arena, place)?;
    ask_level(found.object, levels)?;
    let object = whole(arena, found.object)?;
    limiter.charge(found.pads as u64 + own_cost(object))?;
    Ok(object)
}
