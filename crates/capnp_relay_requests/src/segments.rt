//! Values of pointers, as the bytes of their canonical words.
ghost use Rattle.std.specs.Prelude.{◌≡◌, ◌%◌, length, Some, IfSome, IfOk};
ghost use Rattle.capnp_model.specs.Bytes.{bytes_of_words};
ghost use Rattle.capnp_model.specs.Traversal.{tree_at};
ghost use Rattle.capnp_units.specs.Segments.{whole_words, words_in};
ghost use Rattle.capnp_wire_objects.specs.Places.{place_view};
ghost use Rattle.capnp_wire_canonical.specs.Writes.{filled, words_view};
ghost use Rattle.capnp_wire.specs.Views.{seen_struct, pointer_field};
ghost use Rattle.capnp_relay_requests.specs.Places.{words_of_value, canonical_words_behind, segment_behind};

use capnp_units::limiter::ReadLimiter;
use capnp_units::sizes::{Word, words_as_bytes};
use capnp_wire::structs::StructReader;
use capnp_wire_canonical::copy::write_canonical;
use capnp_wire_canonical::laws::segments_of_words;
use capnp_wire_objects::arena::ReaderArena;
use capnp_wire_objects::place::Place;
use std::alloc::{AllocError, Global};

/// Writes the canonical words of the value of the pointer at a place to the front of a slice, and
/// returns their number.
fn write_words<A: ReaderArena>(
    arena: &A,
    place: Place,
    levels: u32,
    into: &mut [Word],
) -> Option<usize>
    ensures { IfSome result (λ count. words_of_value (tree_at levels
        (words_in (A.segments arena.now)) (place_view place)) ≡ Some (filled count into.new)) }
{
    let mut unlimited = ReadLimiter::new(None);
    match write_canonical(arena, &mut unlimited, place, levels, into) {
        Ok(count) => Some(count),
        Err(_) => None,
    }
}

/// Returns the first n words.
fn front(mut words: Vec<Word>, count: usize) -> Vec<Word>
    ensures { words_view result.items ≡ filled count words.items }
{
    words.truncate(count);
    words
}

/// Returns the canonical words of the value of the pointer at a place, with a bound of their
/// number.
fn words_at<A: ReaderArena>(
    alloc: Global,
    arena: &A,
    place: Place,
    levels: u32,
    room: usize,
) -> Result<Vec<Word>, AllocError>
    ensures { IfOk result (λ v. words_of_value (tree_at levels (words_in (A.segments arena.now))
        (place_view place)) ≡ Some (words_view v.items)) }
{
    let mut words = vec![in alloc; [0u8; 8]; room]?;
    match write_words(arena, place, levels, words.as_mut_slice()) {
        Some(count) => Ok(front(words, count)),
        None => Err(AllocError),
    }
}

/// Returns a copy of the bytes of whole words.
fn copied(alloc: Global, bytes: &[u8]) -> Result<Vec<u8>, AllocError>
    requires { length bytes.now % 8 ≡ 0 }
    ensures { IfOk result (λ v. v.items ≡ bytes_of_words (whole_words bytes.now)) }
{
    bytes.to_vec(alloc)
}

/// Returns the bytes of words, the lowest byte of each first.
fn bytes_of_words(alloc: Global, words: &[Word]) -> Result<Vec<u8>, AllocError>
    ensures { IfOk result (λ v. v.items ≡ bytes_of_words (words_view words.now)) }
{
    segments_of_words(words);
    copied(alloc, words_as_bytes(words))
}

/// Returns the canonical words of the value of a struct's first pointer, if it has one.
fn words_behind<A: ReaderArena>(
    alloc: Global,
    reader: &StructReader<'_, A>,
) -> Result<Vec<Word>, AllocError>
    ensures { IfOk result (λ v. canonical_words_behind
        (pointer_field (seen_struct A.segments reader.now) 0)
        ≡ Some (words_view v.items)) }
{
    let mut unlimited = ReadLimiter::new(None);
    let Ok(size) = reader.get_pointer_field(0).total_size(&mut unlimited) else {
        return Err(AllocError);
    };
    let Some(levels) = reader.levels() else {
        return Err(AllocError);
    };
    if reader.pointers() == 0 {
        return Err(AllocError);
    }
    let room = (size.word_count as usize).saturating_add(1);
    let backing = reader.backing();
    words_at(alloc, &backing, reader.first_pointer(), levels, room)
}

/// Returns the bytes of the canonical words of the value of a struct's first pointer. It is only
/// refused for lack of memory: a message that has been made canonical has only pointers to values
/// without a capability.
pub(crate) fn segment_behind<A: ReaderArena>(
    alloc: Global,
    reader: &StructReader<'_, A>,
) -> Result<Vec<u8>, AllocError>
    ensures { IfOk result (λ v. segment_behind
        (pointer_field (seen_struct A.segments reader.now) 0) ≡ Some v.items) }
{
    let words = words_behind(alloc, reader)?;
    bytes_of_words(alloc, &words)
}
