//! Numbers and bytes that are set.
ghost use Rattle.std.specs.Prelude.{◌≡◌, ◌≤◌};

use crate::handles::{FAR, NOT_THERE, handle, list_got, struct_got, struct_of, structs_got};
use crate::line::Line;
use crate::outcomes::{Answer, Stop};
use capnp_copy_arenas::arena::{BuilderArena, Memory};
use capnp_copy_arenas::fields::StructPlace;
use capnp_copy_arenas::init::ListPlace;
use capnp_layout_builders::list_builder::ListBuilder;
use capnp_layout_builders::struct_builder::StructBuilder;
use capnp_units::sizes::{ElementSize, data_bits_per_element};
use capnp_wire_objects::place::{Place, has_words};

/// The most bytes of data that handles write here.
const MANY: usize = 1 << 40;

/// Sets the number of n bytes, or of a bit, at an offset of a struct.
fn set_field<A: BuilderArena>(
    memory: &mut Memory<A>,
    place: StructPlace,
    width: u64,
    offset: usize,
    value: u64,
) -> Answer
    ensures { A.books memory.new.arena ≡ A.books memory.old.arena }
{
    let words = place.data_words as usize;
    if place.start.position >= FAR || offset >= MANY {
        return Err(Stop::NoIndex);
    }
    if !has_words(&memory.arena, place.start, words) {
        return Err(NOT_THERE);
    }
    let mut object = StructBuilder { memory, place };
    match width {
        0 if offset < 64 * words => object.set_bool_field(offset, value % 2 == 1),
        1 if offset < 8 * words => {
            object.set_data_field::<u8>(offset, (value % 0x100) as u8);
        }
        2 if offset < 4 * words => {
            object.set_data_field::<u16>(offset, (value % 0x1_0000) as u16);
        }
        4 if offset < 2 * words => {
            object.set_data_field::<u32>(offset, (value % 0x1_0000_0000) as u32);
        }
        8 if offset < words => object.set_data_field::<u64>(offset, value),
        _ => return Err(Stop::NoIndex),
    }
    Ok(None)
}

/// Returns the number of bytes of a number of a size, 0 for a bit; `None` if elements of that size
/// aren't numbers.
fn width_of(size: ElementSize) -> Option<u64> {
    match size {
        ElementSize::Bit => Some(0),
        ElementSize::Byte => Some(1),
        ElementSize::TwoBytes => Some(2),
        ElementSize::FourBytes => Some(4),
        ElementSize::EightBytes => Some(8),
        ElementSize::Void | ElementSize::Pointer | ElementSize::InlineComposite => None,
    }
}

/// Sets the first number of a struct in a list, of the size that was asked for.
fn set_in_element<A: BuilderArena>(
    memory: &mut Memory<A>,
    place: ListPlace,
    asked: ElementSize,
    index: u32,
    value: u64,
) -> Answer
    ensures { A.books memory.new.arena ≡ A.books memory.old.arena }
{
    let object = struct_of(memory, place, index)?;
    match width_of(asked) {
        Some(width) => set_field(memory, object, width, 0, value),
        None => Ok(None),
    }
}

/// Sets an element, of the size that was asked for.
#[tactic(auto, using(capnp_layout_builders::proofs::lemmas::Fronts::plain_front))]
fn set_element<A: BuilderArena>(
    memory: &mut Memory<A>,
    place: ListPlace,
    asked: ElementSize,
    index: u32,
    value: u64,
) -> Answer
    ensures { A.books memory.new.arena ≡ A.books memory.old.arena }
{
    if place.start.position >= FAR || index >= place.count {
        return Err(Stop::NoIndex);
    }
    match place.size {
        ElementSize::Pointer => return Ok(None),
        ElementSize::InlineComposite => {
            return set_in_element(memory, place, asked, index, value);
        }
        _ => {}
    }
    let bits = data_bits_per_element(place.size);
    let mut list = ListBuilder { memory, place };
    match asked {
        ElementSize::Bit if bits >= 1 => list.set(index, value % 2 == 1),
        ElementSize::Byte if bits >= 8 => list.set(index, (value % 0x100) as u8),
        ElementSize::TwoBytes if bits >= 16 => list.set(index, (value % 0x1_0000) as u16),
        ElementSize::FourBytes if bits >= 32 => list.set(index, (value % 0x1_0000_0000) as u32),
        ElementSize::EightBytes if bits >= 64 => list.set(index, value),
        _ => list.set(index, ()),
    }
    Ok(None)
}

/// Calls `get_struct` or `get_struct_list`, and sets a field.
pub fn set_in_struct<A: BuilderArena>(
    memory: &mut Memory<A>,
    place: Place,
    is_listed: bool,
    line: &mut Line<'_>,
) -> Answer
    ensures { A.books memory.new.arena ≡ A.books memory.old.arena }
{
    let size = line.struct_size()?;
    let object = if is_listed {
        let list = structs_got(memory, place, size, None)?;
        struct_of(memory, list, line.short()?)?
    } else {
        struct_got(memory, place, size, None)?
    };
    let offset = line.index()?;
    let width = line.number()?;
    set_field(memory, object, width, offset, line.number()?)
}

/// Calls `get_list`, and sets an element.
pub fn set_in_list<A: BuilderArena>(
    memory: &mut Memory<A>,
    place: Place,
    line: &mut Line<'_>,
) -> Answer
    ensures { A.books memory.new.arena ≡ A.books memory.old.arena }
{
    let expected = line.element_size()?;
    let list = list_got(memory, place, expected, None)?;
    let index = line.short()?;
    set_element(memory, list, expected, index, line.number()?)
}

/// Calls `get_data`, and sets a byte.
pub fn set_in_data<A: BuilderArena>(
    memory: &mut Memory<A>,
    place: Place,
    index: usize,
    byte: u8,
) -> Answer
    ensures { A.books memory.new.arena ≡ A.books memory.old.arena }
{
    if place.position >= FAR || !has_words(&memory.arena, place, 1) {
        return Err(NOT_THERE);
    }
    match handle(memory, place).get_data(None) {
        Ok(mut data) => {
            if index >= data.len() || data.place.start.position >= FAR {
                return Err(Stop::NoIndex);
            }
            data.set(index, byte);
            Ok(None)
        }
        Err(error) => Err(Stop::Refused(error.kind)),
    }
}
