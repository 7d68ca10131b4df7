//! Sizes of values.
ghost use Rattle.std.specs.Prelude.{◌≡◌, ℕ, ◌+◌, ◌*◌, ◌<◌, ◌≤◌, ◌^◌, List};
ghost use Rattle.std.specs.Option.{is_some};
ghost use Rattle.capnp_model.specs.Segments.{after};
ghost use Rattle.capnp_model.specs.Sizes.{object_words, each_object_words, element_object_words, capability_count, each_capability_count, element_capability_count};
ghost use Rattle.capnp_model.specs.Traversal.{tree_at, each, each_element};
ghost use Rattle.capnp_model.specs.Coverage.{from_each, from_elements};
ghost use Rattle.capnp_model.specs.Visits.{visits};
ghost use Rattle.capnp_units.specs.Segments.{words_in};
ghost use Rattle.capnp_wire_objects.specs.Places.{place_view};
ghost use Rattle.capnp_wire_objects.specs.Objects.{IsInside};
ghost use Rattle.capnp_wire_objects.specs.Follow.{FollowsWithin};
ghost use Rattle.capnp_wire_objects.specs.Inside.{tree_in, met_in};
ghost use Rattle.capnp_wire_objects.specs.Walks.{leaf_capabilities, SizeGives, SizeCounts};

use crate::arena::ReaderArena;
use crate::follow::follow_within;
use crate::object::{Object, words_of_elements};
use crate::place::Place;
use capnp_units::errors::Result;
use capnp_units::limiter::ReadLimiter;
use capnp_units::sizes::MessageSize;

/// The size of a value without a word and without a capability.
pub const NOTHING: MessageSize = MessageSize {
    word_count: 0,
    cap_count: 0,
};

/// The size of a capability.
const CAPABILITY: MessageSize = MessageSize {
    word_count: 0,
    cap_count: 1,
};

/// Returns a size with more words.
pub fn with_words(size: MessageSize, words: u64) -> MessageSize
    ensures { (w c : ℕ) → SizeCounts w c size → SizeCounts (w + words) c result }
{
    MessageSize {
        word_count: size.word_count.saturating_add(words),
        cap_count: size.cap_count,
    }
}

/// Returns the sum of two sizes.
fn plus(a: MessageSize, b: MessageSize) -> MessageSize
    ensures { (w c v e : ℕ) → SizeCounts w c a → SizeCounts v e b
        → SizeCounts (w + v) (c + e) result }
{
    MessageSize {
        word_count: a.word_count.saturating_add(b.word_count),
        cap_count: a.cap_count.saturating_add(b.cap_count),
    }
}

/// Returns the size of an object that takes no level: null, or a capability.
fn size_of_leaf(object: Object) -> MessageSize
    ensures { SizeCounts 0 (leaf_capabilities object) result }
{
    match object {
        Object::Capability { .. } => CAPABILITY,
        _ => NOTHING,
    }
}

/// Returns the size of the value of the pointer at a place: the words of its objects, without pads
/// and without the pointer itself, and its capabilities.
///
/// Pointers are followed in the order of reading, nulls too, and each object's own pointers before
/// those of the next object. It is refused
/// - at the first fault within n levels, with its kind;
/// - with `ReadLimitExceeded` at the first object that is there and costs more words than are
///   left. Then the objects before it are paid for, and the pointer to it counts as followed.
///
/// It takes a step for each pointer that it follows. They are at most one more than the words that
/// it grants. Elements without pointers aren't walked, neither voids nor structs without words.
/// Words that several pointers lead to are granted once for each pointer, so without a limit only
/// the levels bound the steps. Each level takes about 200 bytes of stack: 176 as LLVM builds it,
/// 208 as Rattle's own compiler does. A walk past the end of the stack ends the process. 8 MiB hold
/// some 40,000 levels.
#[cycle(size)]
pub fn size_at<A: ReaderArena>(
    arena: &A,
    limiter: &mut ReadLimiter,
    place: Place,
    levels: u32,
) -> Result<MessageSize>
    ensures { let s = words_in (A.segments arena.now) in
        SizeGives object_words capability_count (tree_at levels s (place_view place))
        (visits levels s (place_view place)) limiter.old result limiter.new }
{
    let object = follow_within(arena, limiter, place, levels)?;
    if levels == 0 {
        return Ok(size_of_leaf(object));
    }
    size_inside(arena, limiter, object, levels - 1)
}

/// Returns the size of an object, which is paid for, and of the values of the pointers in it.
#[cycle(size)]
fn size_inside<A: ReaderArena>(
    arena: &A,
    limiter: &mut ReadLimiter,
    object: Object,
    levels: u32,
) -> Result<MessageSize>
    requires { IsInside (words_in (A.segments arena.now)) object }
    ensures { let s = words_in (A.segments arena.now) in
        SizeGives object_words capability_count (tree_in s (tree_at levels s) object)
        (met_in (visits levels s) object) limiter.old result limiter.new }
{
    match object {
        Object::Null => Ok(NOTHING),
        Object::Capability { .. } => Ok(CAPABILITY),
        Object::List { size, count, .. } => {
            Ok(with_words(NOTHING, words_of_elements(size, count)))
        }
        Object::Struct {
            start,
            data_words,
            pointers,
        } => {
            let first = Place {
                segment: start.segment,
                position: start.position + data_words as usize,
            };
            let size = size_of_row(arena, limiter, first, pointers as u32, levels)?;
            Ok(with_words(size, data_words as u64 + pointers as u64))
        }
        Object::PointerList { start, count } => {
            let size = size_of_row(arena, limiter, start, count, levels)?;
            Ok(with_words(size, count as u64))
        }
        Object::StructList {
            start,
            count,
            data_words,
            pointers,
            ..
        } => {
            let size = size_of_structs(arena, limiter, start, count, data_words, pointers, levels)?;
            Ok(with_words(size, 1))
        }
    }
}

/// Returns the size of the values of n pointers in a row, without the pointers.
#[cycle(size)]
pub fn size_of_row<A: ReaderArena>(
    arena: &A,
    limiter: &mut ReadLimiter,
    first: Place,
    count: u32,
    levels: u32,
) -> Result<MessageSize>
    requires { first.position + count < 2 ^ 62 }
    ensures { let s = words_in (A.segments arena.now) in
        SizeGives each_object_words each_capability_count
        (each (tree_at levels s) (place_view first) count)
        (from_each (visits levels s) (place_view first) count) limiter.old result limiter.new }
{
    let mut size = NOTHING;
    for i in 0..count {
        let place = Place {
            segment: first.segment,
            position: first.position + i as usize,
        };
        let one = size_at(arena, limiter, place, levels)?;
        size = plus(size, one);
    }
    Ok(size)
}

/// Returns the size of the elements of a list of structs, with their own words. If they have no
/// pointers, nothing is walked.
#[cycle(size)]
fn size_of_structs<A: ReaderArena>(
    arena: &A,
    limiter: &mut ReadLimiter,
    start: Place,
    count: u32,
    data_words: u16,
    pointers: u16,
    levels: u32,
) -> Result<MessageSize>
    requires { start.position + count * (data_words + pointers) < 2 ^ 61 }
    ensures { let s = words_in (A.segments arena.now) in
        (ws : List ℕ)
        → SizeGives (element_object_words data_words) element_capability_count
        (each_element (tree_at levels s) (place_view start) ws data_words pointers count)
        (from_elements (visits levels s) (place_view start) data_words pointers count) limiter.old
        result limiter.new }
{
    if pointers == 0 {
        return Ok(with_words(NOTHING, count as u64 * data_words as u64));
    }
    let mut size = NOTHING;
    for i in 0..count {
        let width = data_words as usize + pointers as usize;
        let first = Place {
            segment: start.segment,
            position: start.position + i as usize * width + data_words as usize,
        };
        let one = size_of_row(arena, limiter, first, pointers as u32, levels)?;
        size = plus(size, with_words(one, width as u64));
    }
    Ok(size)
}
