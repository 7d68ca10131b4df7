//! Values that are made at a pointer, and null.
ghost use Rattle.std.specs.Prelude.{◌≡◌};

use crate::handles::{FAR, NOT_THERE, handle};
use crate::line::Line;
use crate::outcomes::{Answer, Stop};
use capnp_copy_arenas::arena::{BuilderArena, Memory};
use capnp_units::sizes::{ElementSize, StructSize};
use capnp_wire_objects::place::{Place, has_words};

/// Calls `init_struct`.
fn init_struct<A: BuilderArena>(memory: &mut Memory<A>, place: Place, size: StructSize) -> Answer
    ensures { A.books memory.new.arena ≡ A.books memory.old.arena }
{
    if place.position >= FAR || !has_words(&memory.arena, place, 1) {
        return Err(NOT_THERE);
    }
    match handle(memory, place).init_struct(size) {
        Ok(_) => Ok(None),
        Err(error) => Err(Stop::Refused(error.kind)),
    }
}

/// Calls `init_list`.
fn init_list<A: BuilderArena>(
    memory: &mut Memory<A>,
    place: Place,
    size: ElementSize,
    count: u32,
) -> Answer
    ensures { A.books memory.new.arena ≡ A.books memory.old.arena }
{
    if place.position >= FAR || !has_words(&memory.arena, place, 1) {
        return Err(NOT_THERE);
    }
    if size == ElementSize::InlineComposite {
        return Err(Stop::NoIndex);
    }
    match handle(memory, place).init_list(size, count) {
        Ok(_) => Ok(None),
        Err(error) => Err(Stop::Refused(error.kind)),
    }
}

/// Calls `init_struct_list`.
fn init_struct_list<A: BuilderArena>(
    memory: &mut Memory<A>,
    place: Place,
    count: u32,
    size: StructSize,
) -> Answer
    ensures { A.books memory.new.arena ≡ A.books memory.old.arena }
{
    if place.position >= FAR || !has_words(&memory.arena, place, 1) {
        return Err(NOT_THERE);
    }
    match handle(memory, place).init_struct_list(count, size) {
        Ok(_) => Ok(None),
        Err(error) => Err(Stop::Refused(error.kind)),
    }
}

/// Calls `init_text`.
pub fn init_text<A: BuilderArena>(memory: &mut Memory<A>, place: Place, count: u32) -> Answer
    ensures { A.books memory.new.arena ≡ A.books memory.old.arena }
{
    if place.position >= FAR || !has_words(&memory.arena, place, 1) {
        return Err(NOT_THERE);
    }
    match handle(memory, place).init_text(count) {
        Ok(_) => Ok(None),
        Err(error) => Err(Stop::Refused(error.kind)),
    }
}

/// Calls `init_data`.
pub fn init_data<A: BuilderArena>(memory: &mut Memory<A>, place: Place, count: u32) -> Answer
    ensures { A.books memory.new.arena ≡ A.books memory.old.arena }
{
    if place.position >= FAR || !has_words(&memory.arena, place, 1) {
        return Err(NOT_THERE);
    }
    match handle(memory, place).init_data(count) {
        Ok(_) => Ok(None),
        Err(error) => Err(Stop::Refused(error.kind)),
    }
}

/// Calls `init_struct`, `init_list` or `init_struct_list`.
pub fn init_object<A: BuilderArena>(
    memory: &mut Memory<A>,
    place: Place,
    verb: u64,
    line: &mut Line<'_>,
) -> Answer
    ensures { A.books memory.new.arena ≡ A.books memory.old.arena }
{
    match verb {
        0 => init_struct(memory, place, line.struct_size()?),
        1 => {
            let size = line.element_size()?;
            init_list(memory, place, size, line.short()?)
        }
        _ => {
            let count = line.short()?;
            init_struct_list(memory, place, count, line.struct_size()?)
        }
    }
}

/// Calls `set_text` or `set_data`.
pub fn set_bytes<A: BuilderArena>(
    memory: &mut Memory<A>,
    place: Place,
    is_text: bool,
    bytes: &[u8],
) -> Answer
    ensures { A.books memory.new.arena ≡ A.books memory.old.arena }
{
    if place.position >= FAR || !has_words(&memory.arena, place, 1) {
        return Err(NOT_THERE);
    }
    let mut pointer = handle(memory, place);
    let done = if is_text {
        pointer.set_text(bytes)
    } else {
        pointer.set_data(bytes)
    };
    match done {
        Ok(()) => Ok(None),
        Err(error) => Err(Stop::Refused(error.kind)),
    }
}

/// Calls `clear`.
pub fn clear<A: BuilderArena>(memory: &mut Memory<A>, place: Place) -> Answer
    ensures { A.books memory.new.arena ≡ A.books memory.old.arena }
{
    let mut pointer = handle(memory, place);
    pointer.clear();
    if pointer.is_null() {
        Ok(None)
    } else {
        Err(Stop::Shape)
    }
}
