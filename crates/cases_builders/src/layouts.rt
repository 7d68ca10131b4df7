//! Words that a script writes into a message, and words that it expects there.
ghost use Rattle.std.specs.Prelude.{◌≡◌};

use crate::handles::{FAR, NOT_THERE};
use crate::outcomes::Stop;
use capnp_copy_arenas::arena::{BuilderArena, Memory};
use capnp_wire_objects::arena::ReaderArena;
use capnp_wire_objects::place::{Place, has_words, word_at};

/// More segments than a message here has.
const SEGMENTS: u32 = 1 << 16;

/// Writes the words of segments into new segments.
pub fn lay<A: BuilderArena>(memory: &mut Memory<A>, segments: &Vec<Vec<u8>>) -> Result<(), Stop>
    ensures { A.books memory.new.arena ≡ A.books memory.old.arena }
{
    for bytes in segments {
        let count = bytes.len() / 8;
        let Ok(words) = u32::try_from(count) else {
            return Err(Stop::Shape);
        };
        let (segment, at) = memory.arena.allocate_anywhere(words)?;
        let place = Place {
            segment,
            position: at as usize,
        };
        if at != 0 || bytes.len() % 8 != 0 || !has_words(&memory.arena, place, count) {
            return Err(NOT_THERE);
        }
        memory.arena.write_words(place, bytes);
    }
    Ok(())
}

/// Returns whether a message's segments are these.
pub fn is_laid<A: ReaderArena>(arena: &A, segments: &Vec<Vec<u8>>) -> bool {
    let mut id = 0u32;
    for bytes in segments {
        if arena.get_segment(id) != Some(bytes.as_slice()) {
            return false;
        }
        id = id.saturating_add(1);
    }
    arena.get_segment(id).is_none()
}

/// Returns whether a message's segments begin with these, and all other words are zero.
pub fn stands<A: ReaderArena>(arena: &A, segments: &Vec<Vec<u8>>) -> bool {
    for id in 0..SEGMENTS {
        let Some(bytes) = arena.get_segment(id) else {
            return segments.len() <= id as usize;
        };
        let first: &[u8] = match segments.get(id as usize) {
            Some(first) => first.as_slice(),
            None => &[],
        };
        let Some(rest) = bytes.strip_prefix(first) else {
            return false;
        };
        if rest.iter().any(|byte| *byte != 0) {
            return false;
        }
    }
    false
}

/// Returns the number of words that aren't zero.
pub fn words_in_use<A: ReaderArena>(arena: &A) -> u64 {
    let mut count = 0u64;
    for segment in 0..SEGMENTS {
        let Some(bytes) = arena.get_segment(segment) else {
            break;
        };
        for position in 0..bytes.len() / 8 {
            if word_at(arena, Place { segment, position }) != Some(0) {
                count = count.saturating_add(1);
            }
        }
    }
    count
}

/// Leaves no room of less than 2,048 words in a segment.
fn fill_segment<A: BuilderArena>(memory: &mut Memory<A>, segment: u32)
    ensures { A.books memory.new.arena ≡ A.books memory.old.arena }
{
    let mut words = 1024u32;
    for _ in 0..11 {
        let _ = memory.arena.allocate(segment, words);
        words /= 2;
    }
}

/// Leaves no such room in any segment.
pub fn fill<A: BuilderArena>(memory: &mut Memory<A>)
    ensures { A.books memory.new.arena ≡ A.books memory.old.arena }
{
    for segment in 0..SEGMENTS {
        if memory.arena.get_segment(segment).is_none() {
            break;
        }
        fill_segment(memory, segment);
    }
}

/// Leaves no room in any segment, and no segment to take, where a few are left.
pub fn exhaust<A: BuilderArena>(memory: &mut Memory<A>)
    ensures { A.books memory.new.arena ≡ A.books memory.old.arena }
{
    for _ in 0..64 {
        if memory.arena.allocate_anywhere(32).is_err() {
            break;
        }
    }
    fill(memory);
}

/// Returns the form of a pointer's word: null, near, over a pad of one word, or of two.
pub fn reach<A: ReaderArena>(arena: &A, place: Place) -> Result<u64, Stop> {
    if place.position >= FAR {
        return Err(NOT_THERE);
    }
    let word = word_at(arena, place).ok_or(NOT_THERE)?;
    Ok(match word % 8 {
        _ if word == 0 => 0,
        2 => 2,
        6 => 3,
        _ => 1,
    })
}
