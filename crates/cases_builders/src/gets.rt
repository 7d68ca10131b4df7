//! Values that are gotten at a pointer, with a default in place of null, and the size of a value.
ghost use Rattle.std.specs.Prelude.{◌≡◌};

use crate::handles::{FAR, NOT_THERE, handle, list_got, struct_got, structs_got};
use crate::line::Line;
use crate::outcomes::{Answer, Stop};
use crate::settings::{Settings, default_of};
use capnp_copy_arenas::arena::{BuilderArena, Memory};
use capnp_units::limiter::ReadLimiter;
use capnp_units::sizes::Word;
use capnp_wire_objects::place::{Place, has_words};

/// Gets the text at a pointer, and returns its number of bytes.
fn text_got<A: BuilderArena>(
    memory: &mut Memory<A>,
    place: Place,
    default: Option<&[Word]>,
) -> Answer
    ensures { A.books memory.new.arena ≡ A.books memory.old.arena }
{
    if place.position >= FAR || !has_words(&memory.arena, place, 1) {
        return Err(NOT_THERE);
    }
    match handle(memory, place).get_text(default) {
        Ok(text) => Ok(Some(text.len() as u64)),
        Err(error) => Err(Stop::Refused(error.kind)),
    }
}

/// Gets the data at a pointer, and returns their number of bytes.
fn data_got<A: BuilderArena>(
    memory: &mut Memory<A>,
    place: Place,
    default: Option<&[Word]>,
) -> Answer
    ensures { A.books memory.new.arena ≡ A.books memory.old.arena }
{
    if place.position >= FAR || !has_words(&memory.arena, place, 1) {
        return Err(NOT_THERE);
    }
    match handle(memory, place).get_data(default) {
        Ok(data) => Ok(Some(data.len() as u64)),
        Err(error) => Err(Stop::Refused(error.kind)),
    }
}

/// Calls `get_struct`, `get_list`, `get_struct_list`, `get_text` or `get_data`.
pub fn get<A: BuilderArena>(
    memory: &mut Memory<A>,
    place: Place,
    verb: u64,
    settings: &Settings,
    line: &mut Line<'_>,
) -> Answer
    ensures { A.books memory.new.arena ≡ A.books memory.old.arena }
{
    match verb {
        8 => {
            let size = line.struct_size()?;
            struct_got(memory, place, size, default_of(settings, line)?)?;
            Ok(None)
        }
        9 => {
            let expected = line.element_size()?;
            let list = list_got(memory, place, expected, default_of(settings, line)?)?;
            Ok(Some(list.count as u64))
        }
        10 => {
            let size = line.struct_size()?;
            let list = structs_got(memory, place, size, default_of(settings, line)?)?;
            Ok(Some(list.count as u64))
        }
        11 => text_got(memory, place, default_of(settings, line)?),
        _ => data_got(memory, place, default_of(settings, line)?),
    }
}

/// Calls `total_size`.
pub fn total_size<A: BuilderArena>(memory: &mut Memory<A>, place: Place) -> Answer
    ensures { A.books memory.new.arena ≡ A.books memory.old.arena }
{
    let mut limiter = ReadLimiter::new(None);
    let size = handle(memory, place).as_reader().total_size(&mut limiter)?;
    Ok(Some(size.word_count))
}
