//! Messages that are built: their roots, and the trees that they mean.
ghost use Rattle.std.specs.Prelude.{◌≡◌, true, IfOk};
ghost use Rattle.capnp_units.specs.Segments.{words_in};
ghost use Rattle.capnp_values_queries.specs.Structs.{shape_of_struct};
ghost use Rattle.capnp_schema_structs.specs.Edits.{IsThere, HoldsShape};

use crate::fault::Fault;
use crate::values::Segments;
use capnp_copy_arenas::allocator::Allocator;
use capnp_copy_arenas::arena::{BuilderArena, Memory};
use capnp_copy_arenas::fields::StructPlace;
use capnp_copy_arenas::segments::BuilderArenaImpl;
use capnp_copy_values::copy::copy_from;
use capnp_copy_widening::structs::get_struct;
use capnp_layout_builders::struct_builder::StructBuilder;
use capnp_message::heap::HeapAllocator;
use capnp_schema_structs::dynamic_struct::has_sizes;
use capnp_schema_structs::init::struct_size;
use capnp_units::errors::{Error, Result};
use capnp_units::kinds::ErrorKind;
use capnp_units::limiter::ReadLimiter;
use capnp_values_queries::structs::StructSchema;
use capnp_wire_objects::arena::{ReaderArena, ReaderArenaImpl};
use capnp_wire_objects::place::{ROOT, has_words};
use std::alloc::Global;

/// Returns whether a struct has at least its schema's sizes.
fn is_wide<A: BuilderArena>(
    memory: &mut Memory<A>,
    place: StructPlace,
    schema: StructSchema<'_>,
) -> bool
    ensures stays { memory.new ≡ memory.old }
    ensures wide { result ≡ true → HoldsShape place (shape_of_struct schema.entry) }
{
    let object = StructBuilder { memory, place };
    has_sizes(&object, schema)
}

/// Gets the root as a struct, and returns its place.
pub fn root_place<A: BuilderArena>(
    memory: &mut Memory<A>,
    schema: StructSchema<'_>,
) -> Result<StructPlace>
    ensures there { IfOk result (IsThere (words_in (A.segments memory.new.arena))) }
    ensures wide { IfOk result (λ o. HoldsShape o (shape_of_struct schema.entry)) }
{
    if !has_words(&memory.arena, ROOT, 1) {
        return Err(Error::from(ErrorKind::OutOfBounds));
    }
    let place = get_struct(&mut memory.arena, ROOT, struct_size(schema))?;
    let words = place.data_words as usize + place.pointers as usize;
    if !has_words(&memory.arena, place.start, words) || !is_wide(memory, place, schema) {
        return Err(Error::from(ErrorKind::OutOfBounds));
    }
    Ok(place)
}

/// Puts words at the front of the first segment.
pub fn put_words<A: BuilderArena>(memory: &mut Memory<A>, message: &[u8]) -> Result<()> {
    let words = message.len() / 8;
    if words > 1_000_000 || message.len() != 8 * words {
        return Err(Error::from(ErrorKind::OutOfBounds));
    }
    memory.arena.allocate_anywhere(words as u32)?;
    if !has_words(&memory.arena, ROOT, words) {
        return Err(Error::from(ErrorKind::OutOfBounds));
    }
    memory.arena.write_words(ROOT, message);
    Ok(())
}

/// Makes the root pointer, and sets it to a copy of a source's root.
pub fn put_copy<A: BuilderArena, B: ReaderArena>(memory: &mut Memory<A>, source: &B) -> Result<()> {
    memory.arena.allocate_anywhere(1)?;
    if !has_words(&memory.arena, ROOT, 1) {
        return Err(Error::from(ErrorKind::OutOfBounds));
    }
    let mut unlimited = ReadLimiter::new(None);
    copy_from(&mut memory.arena, ROOT, &mut unlimited, source, ROOT, 64)
}

/// Returns the used bytes of the first segment.
pub fn first_of<L: Allocator>(alloc: Global, arena: &BuilderArenaImpl<L>) -> Result<Vec<u8>> {
    let all = arena.get_segments_for_output(alloc)?;
    if all.len() != 1 {
        return Err(Error::from(ErrorKind::OutOfBounds));
    }
    Ok(Vec::from_slice(alloc, all[0])?)
}

/// Ends an arena, and releases its segments.
pub fn end_heap(arena: BuilderArenaImpl<HeapAllocator>) {
    drop(arena.into_allocator());
}

/// Returns the words of a copy of a source's value in one segment, with each object at the end of
/// the previous one. Any two sources of the same tree give the same words.
fn words_of_copy<B: ReaderArena>(alloc: Global, source: &B) -> Result<Vec<u8>> {
    let allocator = HeapAllocator::new(alloc).first_segment_words(0x4000);
    let mut memory = Memory {
        arena: BuilderArenaImpl::new(alloc, allocator),
    };
    let copied = put_copy(&mut memory, source);
    let Memory { arena } = memory;
    let bytes = first_of(alloc, &arena);
    end_heap(arena);
    copied?;
    bytes
}

/// Returns whether a source means the tree of a frame of one segment.
pub fn is_tree_of<B: ReaderArena>(
    alloc: Global,
    source: &B,
    frame: &[u8],
) -> std::result::Result<bool, Fault> {
    if frame.len() < 8 || frame[0] != 0 || frame[1] != 0 {
        return Err(Fault::Shape);
    }
    let segments = [&frame[8..]];
    let arena: Segments<'_> = ReaderArenaImpl::new(segments.as_slice(), 64);
    let wanted = words_of_copy(alloc, &arena)?;
    let is = words_of_copy(alloc, source)?;
    Ok(is.as_slice() == wanted.as_slice())
}
