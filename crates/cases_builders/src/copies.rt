//! Copies of the values that readers read.
ghost use Rattle.std.specs.Prelude.{◌≡◌};

use crate::canonical_sets::{Read, set_canonical};
use crate::handles::{FAR, NOT_THERE, handle, struct_got, struct_of, structs_got};
use crate::line::Line;
use crate::outcomes::{Answer, Stop};
use crate::settings::Settings;
use crate::sources::{Source, source_of, struct_read};
use crate::ways::{Step, place_at, pointer_at};
use capnp_copy_arenas::arena::{BuilderArena, Memory};
use capnp_copy_arenas::fields::StructPlace;
use capnp_layout_builders::struct_builder::StructBuilder;
use capnp_layout_canonical::copy::copy_canonical_from;
use capnp_units::limiter::ReadLimiter;
use capnp_units::sizes::Word;
use capnp_wire::list::ListReader;
use capnp_wire::pointer::PointerReader;
use capnp_wire::structs::StructReader;
use capnp_wire_objects::arena::{ReaderArena, ReaderArenaImpl};
use capnp_wire_objects::place::{Place, has_words};
use std::alloc::Global;

/// Replaces the value of a pointer with a copy of another pointer's value.
fn copy_pointer<A: BuilderArena, B: ReaderArena>(
    memory: &mut Memory<A>,
    place: Place,
    limiter: &mut ReadLimiter,
    other: PointerReader<'_, B>,
) -> Answer
    ensures { A.books memory.new.arena ≡ A.books memory.old.arena }
{
    if place.position >= FAR || !has_words(&memory.arena, place, 1) {
        return Err(NOT_THERE);
    }
    match handle(memory, place).copy_from(limiter, other) {
        Ok(()) => Ok(None),
        Err(error) => Err(Stop::Refused(error.kind)),
    }
}

/// Replaces the value of a pointer with a canonical copy of another pointer's value.
fn copy_canonical<A: BuilderArena, B: ReaderArena>(
    memory: &mut Memory<A>,
    place: Place,
    limiter: &mut ReadLimiter,
    other: PointerReader<'_, B>,
    lent: &mut [Word],
) -> Answer
    ensures { A.books memory.new.arena ≡ A.books memory.old.arena }
{
    if place.position >= FAR || !has_words(&memory.arena, place, 1) {
        return Err(NOT_THERE);
    }
    let mut pointer = handle(memory, place);
    match copy_canonical_from(&mut pointer, limiter, other, lent) {
        Ok(()) => Ok(None),
        Err(error) => Err(Stop::Refused(error.kind)),
    }
}

/// Replaces the value of a pointer with a copy of a struct.
fn copy_struct<A: BuilderArena, B: ReaderArena>(
    memory: &mut Memory<A>,
    place: Place,
    limiter: &mut ReadLimiter,
    other: StructReader<'_, B>,
) -> Answer
    ensures { A.books memory.new.arena ≡ A.books memory.old.arena }
{
    if place.position >= FAR || !has_words(&memory.arena, place, 1) {
        return Err(NOT_THERE);
    }
    match handle(memory, place).set_struct(limiter, other) {
        Ok(()) => Ok(None),
        Err(error) => Err(Stop::Refused(error.kind)),
    }
}

/// Replaces the value of a pointer with a copy of a list.
fn copy_list<A: BuilderArena, B: ReaderArena>(
    memory: &mut Memory<A>,
    place: Place,
    limiter: &mut ReadLimiter,
    other: ListReader<'_, B>,
) -> Answer
    ensures { A.books memory.new.arena ≡ A.books memory.old.arena }
{
    if place.position >= FAR || !has_words(&memory.arena, place, 1) {
        return Err(NOT_THERE);
    }
    match handle(memory, place).set_list(limiter, other) {
        Ok(()) => Ok(None),
        Err(error) => Err(Stop::Refused(error.kind)),
    }
}

/// Sets the content of a struct to the content of another struct.
fn copy_content<A: BuilderArena, B: ReaderArena>(
    memory: &mut Memory<A>,
    place: StructPlace,
    limiter: &mut ReadLimiter,
    other: StructReader<'_, B>,
) -> Answer
    ensures { A.books memory.new.arena ≡ A.books memory.old.arena }
{
    let words = place.data_words as usize + place.pointers as usize;
    if place.start.position >= FAR || !has_words(&memory.arena, place.start, words) {
        return Err(NOT_THERE);
    }
    let mut object = StructBuilder { memory, place };
    match object.copy_content_from(limiter, other) {
        Ok(()) => Ok(None),
        Err(error) => Err(Stop::Refused(error.kind)),
    }
}

/// Returns the struct that takes a content: the pointer's struct, or an element of its list.
fn target<A: BuilderArena>(
    memory: &mut Memory<A>,
    place: Place,
    verb: u64,
    source: &Source,
) -> Result<StructPlace, Stop>
    ensures { A.books memory.new.arena ≡ A.books memory.old.arena }
{
    if verb != 21 {
        return struct_got(memory, place, source.size, None);
    }
    let list = structs_got(memory, place, source.size, None)?;
    struct_of(memory, list, source.index)
}

/// Returns the index of the element that is read, if one is.
fn element_of(verb: u64, source: &Source) -> Option<u32> {
    if verb == 24 || verb == 32 {
        Some(source.index)
    } else {
        None
    }
}

/// Returns whether a verb copies.
pub fn is_copy(verb: u64) -> bool {
    matches!(&verb, 17..=21 | 23 | 24 | 26 | 27 | 32..=34)
}

/// Returns whether a verb copies canonically.
fn is_canonical(verb: u64) -> bool {
    matches!(&verb, 23 | 26 | 27)
}

/// Copies a pointer's value, plainly, or canonically through lent words.
fn copy_value<A: BuilderArena>(
    memory: &mut Memory<A>,
    way: &[Step],
    source: &Source,
    limiter: &mut ReadLimiter,
    line: &mut Line<'_>,
    lent: Option<&mut [Word]>,
) -> Answer
    ensures { A.books memory.new.arena ≡ A.books memory.old.arena }
{
    let arena = ReaderArenaImpl::new(&source.segments, source.levels);
    let other = pointer_at(&arena, limiter, line)?;
    let place = place_at(memory, way)?;
    match lent {
        None => copy_pointer(memory, place, limiter, other),
        Some(words) => copy_canonical(memory, place, limiter, other, words),
    }
}

/// Copies a struct or a list that is read canonically, through lent words and a scratch message.
fn copy_by_way<A: BuilderArena>(
    alloc: Global,
    memory: &mut Memory<A>,
    way: &[Step],
    verb: u64,
    source: &Source,
    limiter: &mut ReadLimiter,
    line: &mut Line<'_>,
    lent: &mut [Word],
) -> Answer
    ensures { A.books memory.new.arena ≡ A.books memory.old.arena }
{
    let arena = ReaderArenaImpl::new(&source.segments, source.levels);
    let pointer = pointer_at(&arena, limiter, line)?;
    let other = if verb == 26 {
        Read::Struct(pointer.get_struct(limiter, None)?)
    } else {
        Read::List(pointer.get_list(limiter, source.expected, None)?)
    };
    let place = place_at(memory, way)?;
    set_canonical(alloc, memory, place, limiter, other, lent)
}

/// Copies a list that is read as a list of the expected elements.
fn copy_list_read<A: BuilderArena>(
    memory: &mut Memory<A>,
    way: &[Step],
    source: &Source,
    limiter: &mut ReadLimiter,
    line: &mut Line<'_>,
) -> Answer
    ensures { A.books memory.new.arena ≡ A.books memory.old.arena }
{
    let arena = ReaderArenaImpl::new(&source.segments, source.levels);
    let pointer = pointer_at(&arena, limiter, line)?;
    let other = pointer.get_list(limiter, source.expected, None)?;
    let place = place_at(memory, way)?;
    copy_list(memory, place, limiter, other)
}

/// Copies a struct that is read, or its content.
fn copy_struct_read<A: BuilderArena>(
    memory: &mut Memory<A>,
    way: &[Step],
    verb: u64,
    source: &Source,
    default: &[Word],
    limiter: &mut ReadLimiter,
    line: &mut Line<'_>,
) -> Answer
    ensures { A.books memory.new.arena ≡ A.books memory.old.arena }
{
    let arena = ReaderArenaImpl::new(&source.segments, source.levels);
    let default = if verb == 33 || verb == 34 {
        Some(default)
    } else {
        None
    };
    let other = struct_read(&arena, limiter, line, element_of(verb, source), default)?;
    let place = place_at(memory, way)?;
    if matches!(&verb, 20 | 21 | 32 | 34) {
        let object = target(memory, place, verb, source)?;
        return copy_content(memory, object, limiter, other);
    }
    copy_struct(memory, place, limiter, other)
}

/// Makes the copy of a line, under the script's limits. The source is read before the path to the
/// target is followed.
pub fn copy<A: BuilderArena, B: ReaderArena>(
    alloc: Global,
    memory: &mut Memory<A>,
    other: &B,
    way: &[Step],
    verb: u64,
    settings: &mut Settings,
    line: &mut Line<'_>,
) -> Answer
    ensures { A.books memory.new.arena ≡ A.books memory.old.arena }
{
    let source = source_of(alloc, &memory.arena, other, settings, line)?;
    let mut limiter = ReadLimiter::new(settings.budget);
    let mut lent = Vec::new(alloc);
    if is_canonical(verb) {
        lent.resize(settings.lent, [0; 8])?;
    }
    let answer = match verb {
        17 => copy_value(memory, way, &source, &mut limiter, line, None),
        19 => copy_list_read(memory, way, &source, &mut limiter, line),
        23 => copy_value(memory, way, &source, &mut limiter, line, Some(&mut lent)),
        26 | 27 => copy_by_way(
            alloc,
            memory,
            way,
            verb,
            &source,
            &mut limiter,
            line,
            &mut lent,
        ),
        _ => copy_struct_read(
            memory,
            way,
            verb,
            &source,
            &settings.default,
            &mut limiter,
            line,
        ),
    };
    settings.note(&limiter);
    answer
}
