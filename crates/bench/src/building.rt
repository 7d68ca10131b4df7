//! Builder calls that are counted.
ghost use Rattle.std.specs.Prelude.{◌≡◌};

use capnp_copy_arenas::arena::{BuilderArena, Memory};
use capnp_copy_arenas::fields::StructPlace;
use capnp_layout_builders::pointer_builder::PointerBuilder;
use capnp_layout_builders::struct_builder::StructBuilder;
use capnp_units::errors::{Error, Result};
use capnp_units::kinds::ErrorKind;
use capnp_units::sizes::{ElementSize, StructSize};
use capnp_wire_objects::place::{Place, has_words, word_at};

/// The number of bytes of a long list: 64 KiB.
pub const BYTES: u32 = 1 << 16;

/// The root pointer.
const ROOT: Place = Place {
    segment: 0,
    position: 0,
};

/// Structs of four words, two of them pointers.
const SIZE: StructSize = StructSize {
    data_words: 2,
    pointers: 2,
};

/// The work of a run.
#[derive(Clone, Copy)]
pub enum Task {
    Fields,
    Tests,
    Slots,
    Structs,
    Bytes,
}

/// Makes a pointer lead to a struct of four words, and returns the place of the struct.
fn init_struct<A: BuilderArena>(memory: &mut Memory<A>, place: Place) -> Result<StructPlace>
    ensures { A.books memory.new.arena ≡ A.books memory.old.arena }
{
    if place.position >= 1 << 60 || !has_words(&memory.arena, place, 1) {
        return Err(Error::from(ErrorKind::OutOfBounds));
    }
    let pointer = PointerBuilder { memory, place };
    let made = pointer.init_struct(SIZE)?;
    Ok(made.place)
}

/// Makes a pointer lead to a list of n elements, and returns the beginning of the list.
fn init_list<A: BuilderArena>(
    memory: &mut Memory<A>,
    place: Place,
    size: ElementSize,
    count: u32,
) -> Result<Place>
    ensures { A.books memory.new.arena ≡ A.books memory.old.arena }
{
    if place.position >= 1 << 60 || !has_words(&memory.arena, place, 1) {
        return Err(Error::from(ErrorKind::OutOfBounds));
    }
    if size == ElementSize::InlineComposite {
        return Err(Error::from(ErrorKind::OutOfBounds));
    }
    let pointer = PointerBuilder { memory, place };
    let made = pointer.init_list(size, count)?;
    Ok(made.place.start)
}

/// Sets a number of a struct. Tests before that the struct's words exist, and once more after if
/// requested.
fn set_field<A: BuilderArena>(
    memory: &mut Memory<A>,
    place: StructPlace,
    value: u32,
    tests_again: bool,
) -> Result<()>
    ensures { A.books memory.new.arena ≡ A.books memory.old.arena }
{
    if place.start.position >= 1 << 60 || place.data_words != 2 {
        return Err(Error::from(ErrorKind::OutOfBounds));
    }
    if !has_words(&memory.arena, place.start, 2) {
        return Err(Error::from(ErrorKind::OutOfBounds));
    }
    let mut object = StructBuilder { memory, place };
    object.set_data_field::<u32>(2, value);
    if tests_again && !has_words(&object.memory.arena, place.start, 2) {
        return Err(Error::from(ErrorKind::OutOfBounds));
    }
    Ok(())
}

/// Sets a number of a struct n times, and returns the struct's second word.
fn set_fields<A: BuilderArena>(memory: &mut Memory<A>, count: u32, tests_again: bool) -> Result<u64>
    ensures { A.books memory.new.arena ≡ A.books memory.old.arena }
{
    let place = init_struct(memory, ROOT)?;
    for i in 0..count {
        set_field(memory, place, i, tests_again)?;
    }
    let second = Place {
        segment: place.start.segment,
        position: place.start.position.saturating_add(1),
    };
    Ok(word_at(&memory.arena, second).unwrap_or(0))
}

/// Returns the place of a pointer of a list by its number, from the beginning of the list.
fn pointer_of(start: Place, index: u32) -> Place {
    Place {
        segment: start.segment,
        position: start.position.saturating_add(index as usize),
    }
}

/// Makes n structs, at the pointers of a list, and returns the position of the last.
fn make_structs<A: BuilderArena>(memory: &mut Memory<A>, count: u32) -> Result<u64>
    ensures { A.books memory.new.arena ≡ A.books memory.old.arena }
{
    let start = init_list(memory, ROOT, ElementSize::Pointer, count)?;
    let mut last = 0;
    for i in 0..count {
        last = init_struct(memory, pointer_of(start, i))?.start.position as u64;
    }
    Ok(last)
}

/// Returns the place of a pointer, with the test that is made before a struct is put there.
fn test_slot<A: BuilderArena>(memory: &mut Memory<A>, place: Place) -> Result<StructPlace>
    ensures { A.books memory.new.arena ≡ A.books memory.old.arena }
{
    if place.position >= 1 << 60 || !has_words(&memory.arena, place, 1) {
        return Err(Error::from(ErrorKind::OutOfBounds));
    }
    let pointer = PointerBuilder { memory, place };
    Ok(StructPlace {
        start: pointer.place,
        data_words: SIZE.data_words,
        pointers: SIZE.pointers,
    })
}

/// Does the same as `make_structs`, except that it makes no structs: goes over the pointers of a
/// list, and returns the position of the last.
fn test_slots<A: BuilderArena>(memory: &mut Memory<A>, count: u32) -> Result<u64>
    ensures { A.books memory.new.arena ≡ A.books memory.old.arena }
{
    let start = init_list(memory, ROOT, ElementSize::Pointer, count)?;
    let mut last = 0;
    for i in 0..count {
        last = test_slot(memory, pointer_of(start, i))?.start.position as u64;
    }
    Ok(last)
}

/// Makes n lists of 64 KiB, at the pointers of a list, and returns the number of words of the
/// message.
fn make_bytes<A: BuilderArena>(memory: &mut Memory<A>, count: u32) -> Result<u64>
    ensures { A.books memory.new.arena ≡ A.books memory.old.arena }
{
    let start = init_list(memory, ROOT, ElementSize::Pointer, count)?;
    for i in 0..count {
        init_list(memory, pointer_of(start, i), ElementSize::Byte, BYTES)?;
    }
    Ok(memory.arena.size_in_words() as u64)
}

/// Makes n of the requested objects in an empty message.
pub fn build<A: BuilderArena>(memory: &mut Memory<A>, task: Task, count: u32) -> Result<u64>
    ensures { A.books memory.new.arena ≡ A.books memory.old.arena }
{
    memory.arena.allocate_anywhere(1)?;
    match task {
        Task::Fields => set_fields(memory, count, false),
        Task::Tests => set_fields(memory, count, true),
        Task::Slots => test_slots(memory, count),
        Task::Structs => make_structs(memory, count),
        Task::Bytes => make_bytes(memory, count),
    }
}
