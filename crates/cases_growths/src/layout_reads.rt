//! Calls of readers and builders of the layout that take no memory.

use crate::fault::Fault;
use crate::marks;
use crate::messages::{Segments, end, put_words, roomy};
use crate::samples::{LIST, LIST_WORDS, NULL, OLD_STRUCT, STRUCT, STRUCT_WORDS, TEXT_WORDS};
use capnp_copy_arenas::arena::{BuilderArena, Memory};
use capnp_copy_arenas::fields::StructPlace;
use capnp_layout_builders::pointer_builder::PointerBuilder;
use capnp_layout_builders::struct_builder::StructBuilder;
use capnp_units::errors::{Error, Result};
use capnp_units::kinds::ErrorKind;
use capnp_units::limiter::ReadLimiter;
use capnp_units::sizes::{ElementSize, PointerType, StructSize};
use capnp_wire::pointer::PointerReader;
use capnp_wire_objects::arena::{ReaderArena, ReaderArenaImpl};
use capnp_wire_objects::place::{Place, ROOT, has_words};

/// The values read of a struct of the number 7 and the text `hi`.
#[derive(Clone, Copy, Debug)]
struct Seen {
    is_struct: bool,
    number: u16,
    masked: u16,
    is_odd: bool,
    is_even: bool,
    text: usize,
    words: u64,
    is_null: bool,
    is_canonical: bool,
    is_canonical_from_it_on: bool,
}

/// Returns a word of the first segment.
fn at(position: usize) -> Place {
    Place {
        segment: 0,
        position,
    }
}

/// Reads a struct by each get.
fn read_struct<B: ReaderArena>(root: PointerReader<'_, B>) -> Result<Seen> {
    let mut unlimited = ReadLimiter::new(None);
    let (mut head, mut read_head, mut pointer_head) = (at(1), at(1), at(3));
    let words = root.total_size(&mut unlimited)?.word_count;
    let object = root.get_struct(&mut unlimited, None)?;
    let text = object.get_pointer_field(0).get_text(&mut unlimited, None)?;
    let size = object.total_size(&mut unlimited)?;
    Ok(Seen {
        is_struct: root.get_pointer_type()? == PointerType::Struct,
        number: object.get_data_field::<u16>(0),
        masked: object.get_data_field_mask::<u16>(0, 1),
        is_odd: object.get_bool_field(0),
        is_even: object.get_bool_field_mask(0, true),
        text: text.len(),
        words: words.min(size.word_count.saturating_add(1)),
        is_null: object.is_pointer_field_null(0) || root.is_null(),
        is_canonical: root.is_canonical(&mut unlimited, &mut head)?,
        is_canonical_from_it_on: object.is_canonical(
            &mut unlimited,
            &mut read_head,
            &mut pointer_head,
        )?,
    })
}

/// Reads the bytes of a list's texts. Returns their number.
fn read_list<B: ReaderArena>(root: PointerReader<'_, B>) -> Result<usize> {
    let mut unlimited = ReadLimiter::new(None);
    let list = root.get_list(&mut unlimited, ElementSize::Pointer, None)?;
    let mut count: usize = 0;
    for index in 0..list.len() {
        let data = list
            .get_pointer_element(index)
            .get_data(&mut unlimited, None)?;
        count = count.saturating_add(data.len());
    }
    Ok(count)
}

/// Reads a null pointer that has defaults: a struct's number, the number of elements of a list, and
/// the bytes of a text and of data.
fn read_defaults<B: ReaderArena>(root: PointerReader<'_, B>) -> Result<(u16, u32, usize, usize)> {
    let mut unlimited = ReadLimiter::new(None);
    let object = root.get_struct(&mut unlimited, Some(&STRUCT_WORDS))?;
    let list = root.get_list(&mut unlimited, ElementSize::Pointer, Some(&LIST_WORDS))?;
    let text = root.get_text(&mut unlimited, Some(&TEXT_WORDS))?;
    let data = root.get_data(&mut unlimited, Some(&TEXT_WORDS))?;
    let number = object.get_data_field::<u16>(0);
    Ok((number, list.len(), text.len(), data.len()))
}

/// The error if a struct isn't there.
const NOT_THERE: Error = Error {
    kind: ErrorKind::OutOfBounds,
};

/// Sets the number of a struct of a message.
fn set_number<A: BuilderArena>(memory: &mut Memory<A>, place: StructPlace) -> Result<()> {
    let is_near = place.data_words > 0 && place.start.position < 1 << 60;
    if !is_near || !has_words(&memory.arena, place.start, place.data_words as usize) {
        return Err(NOT_THERE);
    }
    let mut object = StructBuilder { memory, place };
    object.set_data_field::<u16>(0, 8);
    Ok(())
}

/// Sets the lowest bit of the number. Returns the number after it.
fn set_flag<A: BuilderArena>(memory: &mut Memory<A>, place: StructPlace) -> Result<u16> {
    let is_near = place.data_words > 0 && place.start.position < 1 << 60;
    if !is_near || !has_words(&memory.arena, place.start, place.data_words as usize) {
        return Err(NOT_THERE);
    }
    let mut object = StructBuilder { memory, place };
    object.set_bool_field(0, true);
    Ok(object.get_data_field::<u16>(0))
}

/// Sets the number as that of a field with the default 1. Returns the number in the message after
/// it, and the number that is read.
fn set_masked_number<A: BuilderArena>(
    memory: &mut Memory<A>,
    place: StructPlace,
) -> Result<(u16, u16)> {
    let is_near = place.data_words > 0 && place.start.position < 1 << 60;
    if !is_near || !has_words(&memory.arena, place.start, place.data_words as usize) {
        return Err(NOT_THERE);
    }
    let mut object = StructBuilder { memory, place };
    object.set_data_field_mask::<u16>(0, 8, 1);
    let there = object.get_data_field::<u16>(0);
    Ok((there, object.get_data_field_mask::<u16>(0, 1)))
}

/// Sets a bit as that of a field with the default true. Returns the bit in the message after it,
/// and the bit that is read.
fn set_masked_flag<A: BuilderArena>(
    memory: &mut Memory<A>,
    place: StructPlace,
) -> Result<(bool, bool)> {
    let is_near = place.data_words > 0 && place.start.position < 1 << 60;
    if !is_near || !has_words(&memory.arena, place.start, place.data_words as usize) {
        return Err(NOT_THERE);
    }
    let mut object = StructBuilder { memory, place };
    object.set_bool_field_mask(16, true, true);
    let there = object.get_bool_field(16);
    Ok((there, object.get_bool_field_mask(16, true)))
}

/// Clears the struct's pointer. Returns whether it is null after it.
fn clear<A: BuilderArena>(memory: &mut Memory<A>, place: StructPlace) -> Result<bool> {
    if place.pointers == 0 || place.start.position >= 1 << 60 {
        return Err(NOT_THERE);
    }
    let mut pointer = StructBuilder { memory, place }.get_pointer_field(0);
    pointer.clear();
    Ok(pointer.is_null())
}

/// The contents of a struct, and the values read, after changes.
#[derive(Clone, Copy, Debug)]
struct Changed {
    number: u16,
    masked: (u16, u16),
    flag: (bool, bool),
    is_null: bool,
}

/// Edits a struct of a message.
fn edit<A: BuilderArena>(memory: &mut Memory<A>, place: StructPlace) -> Result<Changed> {
    set_number(memory, place)?;
    let number = set_flag(memory, place)?;
    let masked = set_masked_number(memory, place)?;
    let flag = set_masked_flag(memory, place)?;
    Ok(Changed {
        number,
        masked,
        flag,
        is_null: clear(memory, place)?,
    })
}

/// Edits the struct at the root, which is wide enough.
fn edit_root<A: BuilderArena>(memory: &mut Memory<A>) -> Result<Changed> {
    if !has_words(&memory.arena, ROOT, 1) {
        return Err(Error::from(ErrorKind::OutOfBounds));
    }
    let size = StructSize {
        data_words: 1,
        pointers: 1,
    };
    let place = match PointerBuilder::get_root(memory).get_struct(size, None) {
        Ok(object) => object.place,
        Err(error) => return Err(error),
    };
    edit(memory, place)
}

/// Makes edits, and returns their line.
fn edited(rt: &HostRuntime) -> std::result::Result<String, Fault> {
    let alloc = rt.alloc();
    let words = hex::decode(alloc, OLD_STRUCT.as_bytes())?;
    let mut message = roomy(alloc);
    let put = put_words(&mut message.memory, &words);
    marks::begin(rt);
    let edited = edit_root(&mut message.memory);
    marks::end(rt);
    end(message);
    put?;
    Ok(format!(in alloc; "{:?}", edited?)?)
}

/// Reads at the root of a segment, and returns the line.
fn told_at<B: ReaderArena>(
    rt: &HostRuntime,
    root: PointerReader<'_, B>,
    call: &str,
) -> std::result::Result<String, Fault> {
    let alloc = rt.alloc();
    marks::begin(rt);
    if call == "struct" {
        let seen = read_struct(root);
        marks::end(rt);
        return Ok(format!(in alloc; "{:?}", seen?)?);
    }
    if call == "defaults" {
        let read = read_defaults(root);
        marks::end(rt);
        let (number, elements, text, data) = read?;
        return Ok(format!(in alloc; "{number}, {elements}, {text} and {data} bytes")?);
    }
    let count = read_list(root);
    marks::end(rt);
    Ok(format!(in alloc; "{} bytes", count?)?)
}

/// Makes a case, and returns its line.
pub fn told(rt: &HostRuntime, call: &str) -> std::result::Result<String, Fault> {
    let alloc = rt.alloc();
    let text = match call {
        "edits" => return edited(rt),
        "struct" => STRUCT,
        "defaults" => NULL,
        _ => LIST,
    };
    let bytes = hex::decode(alloc, text.as_bytes())?;
    let segments = [bytes.as_slice()];
    let arena: Segments<'_> = ReaderArenaImpl::new(segments.as_slice(), 64);
    told_at(rt, PointerReader::get_root_from_arena(&arena)?, call)
}
