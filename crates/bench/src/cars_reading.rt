//! Cars that are read and summed.
ghost use Rattle.std.specs.Prelude.{◌≢◌, IfOk};
ghost use Rattle.capnp_layout.specs.Sizes.{size_number};
ghost use Rattle.capnp_layout.specs.Views.{seen_list};

use crate::cars::{CAR_WHEELS, ENGINE, MAKE, MODEL};
use capnp_layout::{
    ElementSize, ListReader, PointerReader, ReadLimiter, ReaderArena, Result, StructReader,
};

/// Returns the list of structs that a pointer leads to.
fn structs_behind<'a, A: ReaderArena>(
    pointer: PointerReader<'a, A>,
    limiter: &mut ReadLimiter,
) -> Result<ListReader<'a, A>>
    ensures { IfOk result (λ list. size_number (seen_list A.segments list).size ≢ 1) }
{
    pointer.get_list(limiter, ElementSize::InlineComposite, None)
}

/// Returns the length of a text.
fn length_of<A: ReaderArena>(
    car: &StructReader<'_, A>,
    field: usize,
    limiter: &mut ReadLimiter,
) -> Result<u64> {
    let text = car.get_pointer_field(field).get_text(limiter, None)?;
    Ok(text.len() as u64)
}

/// Returns the sum of the numbers and the truth values of a wheel.
fn sum_of_wheel<A: ReaderArena>(wheel: &StructReader<'_, A>) -> u64 {
    u64::from(wheel.get_data_field::<u16>(0))
        .wrapping_add(u64::from(wheel.get_data_field::<u32>(1)))
        .wrapping_add(u64::from(wheel.get_bool_field(16)))
}

/// Returns the sum of the wheels of a car.
fn sum_of_wheels<A: ReaderArena>(
    car: &StructReader<'_, A>,
    limiter: &mut ReadLimiter,
) -> Result<u64> {
    let wheels = structs_behind(car.get_pointer_field(CAR_WHEELS), limiter)?;
    let mut sum = 0u64;
    for i in 0..wheels.len() {
        sum = sum.wrapping_add(sum_of_wheel(&wheels.get_struct_element(i)));
    }
    Ok(sum)
}

/// Returns the sum of the numbers and the truth values of an engine.
fn sum_of_engine<A: ReaderArena>(engine: &StructReader<'_, A>) -> u64 {
    u64::from(engine.get_data_field::<u16>(0))
        .wrapping_add(u64::from(engine.get_data_field::<u8>(2)))
        .wrapping_add(u64::from(engine.get_data_field::<u32>(1)))
        .wrapping_add(u64::from(engine.get_bool_field(24)))
        .wrapping_add(u64::from(engine.get_bool_field(25)))
}

/// Returns the sum of the numbers of a car's own data section.
fn sum_of_numbers<A: ReaderArena>(car: &StructReader<'_, A>) -> u64 {
    u64::from(car.get_data_field::<u16>(0))
        .wrapping_add(u64::from(car.get_data_field::<u8>(2)))
        .wrapping_add(u64::from(car.get_data_field::<u8>(3)))
        .wrapping_add(u64::from(car.get_data_field::<u16>(2)))
        .wrapping_add(u64::from(car.get_data_field::<u16>(3)))
        .wrapping_add(u64::from(car.get_data_field::<u16>(4)))
        .wrapping_add(u64::from(car.get_data_field::<u32>(3)))
        .wrapping_add(u64::from(car.get_data_field::<u32>(4)))
        .wrapping_add(u64::from(car.get_data_field::<u32>(5)))
        .wrapping_add(u64::from(car.get_data_field::<u8>(11)))
}

/// Returns the sum of the truth values of a car's own data section.
fn sum_of_truths<A: ReaderArena>(car: &StructReader<'_, A>) -> u64 {
    u64::from(car.get_bool_field(80))
        .wrapping_add(u64::from(car.get_bool_field(81)))
        .wrapping_add(u64::from(car.get_bool_field(82)))
        .wrapping_add(u64::from(car.get_bool_field(83)))
}

/// Returns the sum of a car: the lengths of its make and its model, and all its numbers and truth
/// values.
fn sum_of_car<A: ReaderArena>(car: &StructReader<'_, A>, limiter: &mut ReadLimiter) -> Result<u64> {
    let make = length_of(car, MAKE, limiter)?;
    let model = length_of(car, MODEL, limiter)?;
    let wheels = sum_of_wheels(car, limiter)?;
    let engine = car.get_pointer_field(ENGINE).get_struct(limiter, None)?;
    Ok(
        sum_of_numbers(car)
            .wrapping_add(sum_of_truths(car))
            .wrapping_add(make)
            .wrapping_add(model)
            .wrapping_add(wheels)
            .wrapping_add(sum_of_engine(&engine)),
    )
}

/// Returns the sum of the cars of a message.
pub fn sum_of_cars<A: ReaderArena>(message: &A) -> Result<u64> {
    let mut limiter = ReadLimiter::new(None);
    let lot = PointerReader::get_root_from_arena(message)?.get_struct(&mut limiter, None)?;
    let cars = structs_behind(lot.get_pointer_field(0), &mut limiter)?;
    let mut sum = 0u64;
    for i in 0..cars.len() {
        let car = cars.get_struct_element(i);
        sum = sum.wrapping_add(sum_of_car(&car, &mut limiter)?);
    }
    Ok(sum)
}
