//! Cars that are built. The numbers of each struct are set in a section of their own, by functions
//! that are inlined like generated code, and written at once.
//!
//! A caller without proofs tests that the words of a struct exist before writing them, as here.
ghost use Rattle.std.specs.Prelude.{◌≡◌, ◌+◌, ◌*◌, ◌<◌, ◌≤◌, ◌^◌};
ghost use Rattle.capnp_copy_arenas.specs.States.{HasWords};
ghost use Rattle.capnp_message.specs.Built.{loans_held};

use crate::cars::{CAR, CAR_WHEELS, ENGINE, LOT, MAKE, MODEL, PART, WHEELS, make_of, model_of};
use capnp_layout::{
    BuilderArena, DataSection, Error, ErrorKind, Memory, Place, PointerBuilder, Result,
    StructBuilder, StructPlace, StructSize, has_words,
};
use capnp_message::message::{Allocator, Builder};

/// Returns the error for a struct whose words don't exist.
fn not_there() -> Error {
    Error::from(ErrorKind::OutOfBounds)
}

/// Writes a section of N words over the data of a struct, if the struct has as many words and they
/// exist.
#[inline(always)]
fn set_section<A: BuilderArena, const N: usize>(
    memory: &mut Memory<A>,
    place: StructPlace,
    section: &DataSection<N>,
) -> Result<()>
    ensures { A.books memory.new.arena ≡ A.books memory.old.arena }
{
    if place.start.position >= 1 << 60 || place.data_words as usize != N {
        return Err(not_there());
    }
    if !has_words(&memory.arena, place.start, N) {
        return Err(not_there());
    }
    StructBuilder { memory, place }.set_data_section(section);
    Ok(())
}

/// Returns the data of a wheel of a car, both by their numbers.
#[inline(always)]
fn wheel_of(car: u32, wheel: u32) -> DataSection<1> {
    let mut data = DataSection::<1>::new();
    data.set_data_field::<u16>(0, (25 + car % 15) as u16);
    data.set_data_field::<u32>(1, 30 + car.wrapping_add(wheel) % 20);
    data.set_bool_field(16, car % 16 == 0);
    data
}

/// Returns the data of the engine of a car, by its number.
#[inline(always)]
fn engine_of(car: u32) -> DataSection<1> {
    let mut data = DataSection::<1>::new();
    data.set_data_field::<u16>(0, (100 * (car % 400)) as u16);
    data.set_data_field::<u8>(2, (4 + 2 * (car % 3)) as u8);
    data.set_data_field::<u32>(1, 800 + car % 10_000);
    data.set_bool_field(24, true);
    data.set_bool_field(25, car % 2 == 1);
    data
}

/// Returns the numbers and the truth values of a car, by its number.
#[inline(always)]
fn numbers_of(car: u32) -> DataSection<3> {
    let mut data = DataSection::<3>::new();
    data.set_data_field::<u16>(0, (car % 9) as u16);
    data.set_data_field::<u8>(2, (2 + car % 6) as u8);
    data.set_data_field::<u8>(3, (2 + car % 3) as u8);
    data.set_data_field::<u16>(2, (170 + car % 150) as u16);
    data.set_data_field::<u16>(3, (48 + car % 36) as u16);
    data.set_data_field::<u16>(4, (54 + car % 48) as u16);
    data.set_data_field::<u32>(3, car.wrapping_mul(7));
    data.set_data_field::<u32>(4, 100 + car % 300);
    data.set_data_field::<u32>(5, car % 100);
    data.set_bool_field(80, car % 2 == 1);
    data.set_bool_field(81, car % 3 == 0);
    data.set_bool_field(82, car % 4 == 0);
    data.set_data_field::<u8>(11, (car % 12) as u8);
    data.set_bool_field(83, car % 5 == 0);
    data
}

/// Returns the place of a pointer of a struct.
fn pointer_of(place: StructPlace, index: usize) -> Place {
    Place {
        segment: place.start.segment,
        position: place
            .start
            .position
            .saturating_add(place.data_words as usize)
            .saturating_add(index),
    }
}

/// Returns the place of an element of a list of structs, from the place of its tag.
fn element_of(tag: Place, size: StructSize, index: u32) -> StructPlace {
    let words = size.data_words as usize + size.pointers as usize;
    StructPlace {
        start: Place {
            segment: tag.segment,
            position: tag
                .position
                .saturating_add(1)
                .saturating_add(words * index as usize),
        },
        data_words: size.data_words,
        pointers: size.pointers,
    }
}

/// Makes a pointer lead to a text.
fn set_text<A: BuilderArena>(memory: &mut Memory<A>, place: Place, text: &str) -> Result<()>
    ensures { A.books memory.new.arena ≡ A.books memory.old.arena }
{
    if place.position >= 1 << 60 || !has_words(&memory.arena, place, 1) {
        return Err(not_there());
    }
    PointerBuilder { memory, place }.set_text(text.as_bytes())
}

/// Makes a pointer lead to a struct, and returns the place of the struct.
fn init_struct<A: BuilderArena>(
    memory: &mut Memory<A>,
    place: Place,
    size: StructSize,
) -> Result<StructPlace>
    ensures { A.books memory.new.arena ≡ A.books memory.old.arena }
{
    if place.position >= 1 << 60 || !has_words(&memory.arena, place, 1) {
        return Err(not_there());
    }
    let pointer = PointerBuilder { memory, place };
    Ok(pointer.init_struct(size)?.place)
}

/// Makes a pointer lead to a list of structs, and returns the place of its tag.
fn init_structs<A: BuilderArena>(
    memory: &mut Memory<A>,
    place: Place,
    count: u32,
    size: StructSize,
) -> Result<Place>
    ensures { A.books memory.new.arena ≡ A.books memory.old.arena }
{
    if place.position >= 1 << 60 || !has_words(&memory.arena, place, 1) {
        return Err(not_there());
    }
    let pointer = PointerBuilder { memory, place };
    Ok(pointer.init_struct_list(count, size)?.place.start)
}

/// Makes the wheels of a car, and fills them.
fn add_wheels<A: BuilderArena>(memory: &mut Memory<A>, place: StructPlace, car: u32) -> Result<()>
    ensures { A.books memory.new.arena ≡ A.books memory.old.arena }
{
    let tag = init_structs(memory, pointer_of(place, CAR_WHEELS), WHEELS, PART)?;
    for wheel in 0..WHEELS {
        set_section(memory, element_of(tag, PART, wheel), &wheel_of(car, wheel))?;
    }
    Ok(())
}

/// Fills a car, by its number.
fn fill_car<A: BuilderArena>(memory: &mut Memory<A>, place: StructPlace, car: u32) -> Result<()>
    ensures { A.books memory.new.arena ≡ A.books memory.old.arena }
{
    set_section(memory, place, &numbers_of(car))?;
    set_text(memory, pointer_of(place, MAKE), make_of(car))?;
    set_text(memory, pointer_of(place, MODEL), model_of(car))?;
    add_wheels(memory, place, car)?;
    let engine = init_struct(memory, pointer_of(place, ENGINE), PART)?;
    set_section(memory, engine, &engine_of(car))
}

/// Builds n cars in an empty message.
fn build_in<A: BuilderArena>(memory: &mut Memory<A>, count: u32) -> Result<()>
    ensures { A.books memory.new.arena ≡ A.books memory.old.arena }
{
    memory.arena.allocate_anywhere(1)?;
    let lot = init_struct(
        memory,
        Place {
            segment: 0,
            position: 0,
        },
        LOT,
    )?;
    let tag = init_structs(memory, pointer_of(lot, 0), count, CAR)?;
    for car in 0..count {
        fill_car(memory, element_of(tag, CAR, car), car)?;
    }
    Ok(())
}

/// Builds n cars in an empty message.
pub fn build<A: Allocator>(message: &mut Builder<A>, count: u32) -> Result<()>
    ensures { loans_held message.new.memory.arena ≡ loans_held message.old.memory.arena }
{
    build_in(&mut message.memory, count)
}
