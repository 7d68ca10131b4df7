//! Messages of small segments, and their state after a call.

use crate::fault::Fault;
use capnp_copy_arenas::arena::{BuilderArena, Memory};
use capnp_copy_values::copy::copy_from;
use capnp_message::message::{AllocationStrategy, Builder, HeapAllocator};
use capnp_units::errors::{Error, Result};
use capnp_units::kinds::ErrorKind;
use capnp_units::limiter::ReadLimiter;
use capnp_wire_objects::arena::{ReaderArena, ReaderArenaImpl};
use capnp_wire_objects::place::{ROOT, has_words};
use std::alloc::Global;

/// Segments to read.
pub type Segments<'a> = ReaderArenaImpl<&'a [&'a [u8]]>;

/// The most segments of a message here.
const MOST: u32 = 1 << 16;

/// Makes a message in which each object has a segment of its own.
pub fn small(alloc: Global) -> Builder<HeapAllocator> {
    let allocator = HeapAllocator::new(alloc)
        .first_segment_words(1)
        .allocation_strategy(AllocationStrategy::FixedSize);
    Builder::new(alloc, allocator)
}

/// Makes a message with room in its first segment.
pub fn roomy(alloc: Global) -> Builder<HeapAllocator> {
    Builder::new(alloc, HeapAllocator::new(alloc).first_segment_words(0x1000))
}

/// Ends a message, and releases its segments.
pub fn end(builder: Builder<HeapAllocator>) {
    drop(builder.into_allocator());
}

/// Makes the root pointer, and sets it to a copy of a source's root.
pub fn put_copy<A: BuilderArena, B: ReaderArena>(memory: &mut Memory<A>, source: &B) -> Result<()> {
    memory.arena.allocate_anywhere(1)?;
    if !has_words(&memory.arena, ROOT, 1) {
        return Err(Error::from(ErrorKind::OutOfBounds));
    }
    let mut unlimited = ReadLimiter::new(None);
    copy_from(&mut memory.arena, ROOT, &mut unlimited, source, ROOT, 64)
}

/// Makes the root pointer, and sets it to a copy of the root of one segment of words.
pub fn put_words<A: BuilderArena>(memory: &mut Memory<A>, words: &[u8]) -> Result<()> {
    let segments = [words];
    let source: Segments<'_> = ReaderArenaImpl::new(segments.as_slice(), 64);
    put_copy(memory, &source)
}

/// Returns the bytes of a message's segments.
pub fn segments_of<A: ReaderArena>(
    alloc: Global,
    arena: &A,
) -> std::result::Result<Vec<Vec<u8>>, Fault> {
    let mut segments = Vec::new(alloc);
    for id in 0..MOST {
        let Some(bytes) = arena.get_segment(id) else {
            break;
        };
        segments.push(bytes.to_vec(alloc)?)?;
    }
    Ok(segments)
}

/// Returns whether a message's segments begin with these, and all other words are zero.
pub fn stands<A: ReaderArena>(arena: &A, segments: &Vec<Vec<u8>>) -> bool {
    for id in 0..MOST {
        let Some(bytes) = arena.get_segment(id) else {
            return segments.len() <= id as usize;
        };
        let first: &[u8] = match segments.get(id as usize) {
            Some(first) => first.as_slice(),
            None => &[],
        };
        let Some(rest) = bytes.strip_prefix(first) else {
            return false;
        };
        if rest.iter().any(|byte| *byte != 0) {
            return false;
        }
    }
    false
}

/// Returns the bytes of a message's first segment, in hex.
fn first_of<A: ReaderArena>(alloc: Global, arena: &A) -> std::result::Result<String, Fault> {
    match arena.get_segment(0) {
        Some(bytes) => Ok(hex::encode(alloc, bytes)?),
        None => Err(Fault::Unmade),
    }
}

/// Returns the words of a copy of a message's value in one segment, with each object at the end of
/// the previous one, in hex.
pub fn tree_of<A: ReaderArena>(alloc: Global, arena: &A) -> std::result::Result<String, Fault> {
    if !has_words(arena, ROOT, 1) {
        return Ok(String::from_str(alloc, "no root")?);
    }
    let mut copy = roomy(alloc);
    let copied = put_copy(&mut copy.memory, arena);
    let words = first_of(alloc, &copy.memory.arena);
    end(copy);
    copied?;
    words
}

/// Describes the answer of a call at a message, whether the earlier words are unchanged, and the
/// value read after the call.
pub fn outcome(
    alloc: Global,
    done: Result<()>,
    is_standing: bool,
    read: &str,
) -> std::result::Result<String, Fault> {
    match done {
        Ok(()) => Ok(format!(in alloc; "done; {read}")?),
        Err(error) => {
            let kind = error.kind.name();
            let left = if is_standing { "stands" } else { "changed" };
            Ok(format!(in alloc; "refused {kind}; {left}; {read}")?)
        }
    }
}

/// Describes the answer of a refused call that leaves nothing to compare.
pub fn refusal(alloc: Global, error: Error) -> std::result::Result<String, Fault> {
    Ok(format!(in alloc; "refused {}", error.kind.name())?)
}
