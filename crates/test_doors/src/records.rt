//! Structs whose schema is known at run time: fields that are set, parts and lists that are begun,
//! and their values.
use crate::fixtures::{SCHEMAS, begin, schema_of, set_of, text_of};
use capnp_layout::{
    BuilderArena, Error, ErrorKind, Memory, NullArena, Result, StructBuilder, StructPlace,
    has_words,
};
use capnp_message::message::{Builder, HeapAllocator, with_message};
use capnp_schema::dynamic_struct::{get_named, has_sizes, value};
use capnp_schema::dynamic_value::{Enum, Reader};
use capnp_schema::schema::{EnumSchema, StructSchema};
use capnp_schema::{dynamic_struct, dynamic_value};
use std::alloc::Global;
use std::test::Fail;

/// A value of no message.
type Given<'a> = Reader<'a, NullArena>;

/// Returns the error of a call that doesn't find its struct.
fn missing<T>() -> Result<T> {
    Err(Error::from(ErrorKind::OutOfBounds))
}

/// Sets fields of R by their names and directly, clears one, and returns its text.
fn set_fields<A: BuilderArena>(
    alloc: Global,
    memory: &mut Memory<A>,
    place: StructPlace,
    schema: StructSchema<'_>,
    green: Enum<'_>,
) -> Result<String> {
    let words = place.data_words as usize + place.pointers as usize;
    let there = has_words(&memory.arena, place.start, words);
    let fields = StructBuilder { memory, place };
    if !there || !has_sizes(&fields, schema) {
        return missing();
    }
    let mut record = dynamic_struct::Builder::new(fields, schema);
    let field = record.get_schema().get_field_by_name("e")?;
    record.set(field, Given::Enum(green))?;
    record.set_named("n", Given::UInt16(9))?;
    record.set_named("bytes", Given::from([1u8, 0xab].as_slice()))?;
    record.set_named("any", Given::from("hi"))?;
    record.clear_named("any")?;
    record.initn_named("words", 2)?;
    let field = record.get_schema().get_field_by_name("words")?;
    record.clear(field)?;
    if record.has_named("words")? || record.has(field)? || !record.has_named("n")? {
        return missing();
    }
    text_of(alloc, Reader::Struct(record.into_reader()))
}

/// Does this for a new message.
fn fields_in(
    alloc: Global,
    message: &mut Builder<HeapAllocator>,
    schema: StructSchema<'_>,
    green: Enum<'_>,
) -> Result<String> {
    let place = begin(message, schema)?;
    set_fields(alloc, &mut message.memory, place, schema, green)
}

#[test]
fn fields_are_set(rt: HostRuntime) -> std::result::Result<(), Fail> {
    let alloc = rt.alloc();
    let set = set_of(alloc, SCHEMAS)?;
    let schema = schema_of(&set, 2)?;
    let colours = EnumSchema::new(&set, set.enum_by_id(7).ok_or("the enum")?);
    let green = Enum::new(1, colours);
    let text = with_message(alloc, |message| fields_in(alloc, message, schema, green))?;
    assert!(rt; text.as_str() == "(n = 9, e = green, bytes = 0x\"01ab\", g = (x = 0))");
    Ok(())
}

/// Begins a struct or a group in a field, and sets a number of it.
fn begin_part<A: BuilderArena>(
    memory: &mut Memory<A>,
    place: StructPlace,
    schema: StructSchema<'_>,
    name: &str,
    number: (&str, u16),
) -> Result<()> {
    let words = place.data_words as usize + place.pointers as usize;
    let there = has_words(&memory.arena, place.start, words);
    let fields = StructBuilder { memory, place };
    if !there || !has_sizes(&fields, schema) {
        return missing();
    }
    let mut record = dynamic_struct::Builder::new(fields, schema);
    let field = record.get_schema().get_field_by_name(name)?;
    let Some(part) = record.init(field)? else {
        return missing();
    };
    record
        .part(part)
        .set_named(number.0, Given::UInt16(number.1))
}

/// Does this by the field's name.
fn begin_named<A: BuilderArena>(
    memory: &mut Memory<A>,
    place: StructPlace,
    schema: StructSchema<'_>,
    name: &str,
    number: (&str, u16),
) -> Result<()> {
    let words = place.data_words as usize + place.pointers as usize;
    let there = has_words(&memory.arena, place.start, words);
    let fields = StructBuilder { memory, place };
    if !there || !has_sizes(&fields, schema) {
        return missing();
    }
    let mut record = dynamic_struct::Builder::new(fields, schema);
    let Some(part) = record.init_named(name)? else {
        return missing();
    };
    record
        .part(part)
        .set_named(number.0, Given::UInt16(number.1))
}

/// Sets the text of the child of R, which is read for writing.
fn set_text<A: BuilderArena>(
    memory: &mut Memory<A>,
    place: StructPlace,
    schema: StructSchema<'_>,
) -> Result<()> {
    let words = place.data_words as usize + place.pointers as usize;
    let there = has_words(&memory.arena, place.start, words);
    let fields = StructBuilder { memory, place };
    if !there || !has_sizes(&fields, schema) {
        return missing();
    }
    let mut record = dynamic_struct::Builder::new(fields, schema);
    let placed = get_named(&mut record, "child")?;
    match value(record, placed) {
        dynamic_value::Builder::Struct(mut child) => child.set_named("t", Given::from("hi")),
        _ => missing(),
    }
}

/// Returns the text of a struct.
fn shown<A: BuilderArena>(
    alloc: Global,
    memory: &mut Memory<A>,
    place: StructPlace,
    schema: StructSchema<'_>,
) -> Result<String> {
    let words = place.data_words as usize + place.pointers as usize;
    let there = has_words(&memory.arena, place.start, words);
    let fields = StructBuilder { memory, place };
    if !there || !has_sizes(&fields, schema) {
        return missing();
    }
    let record = dynamic_struct::Builder::new(fields, schema);
    text_of(alloc, Reader::Struct(record.reborrow_as_reader()))
}

/// Returns the text of a new R whose child and whose group are begun, each twice.
fn parts_in(
    alloc: Global,
    message: &mut Builder<HeapAllocator>,
    schema: StructSchema<'_>,
) -> Result<String> {
    let place = begin(message, schema)?;
    let memory = &mut message.memory;
    begin_part(memory, place, schema, "g", ("x", 3))?;
    begin_named(memory, place, schema, "child", ("a", 6))?;
    begin_part(memory, place, schema, "child", ("a", 7))?;
    begin_named(memory, place, schema, "g", ("x", 2))?;
    set_text(memory, place, schema)?;
    shown(alloc, memory, place, schema)
}

#[test]
fn parts_are_begun(rt: HostRuntime) -> std::result::Result<(), Fail> {
    let alloc = rt.alloc();
    let set = set_of(alloc, SCHEMAS)?;
    let schema = schema_of(&set, 2)?;
    let text = with_message(alloc, |message| parts_in(alloc, message, schema))?;
    assert!(rt; text.as_str() == "(n = 5, e = red, child = (a = 7, t = \"hi\"), g = (x = 2))");
    Ok(())
}

/// Returns the member of U that is active before and after the other is set, by index.
fn members<A: BuilderArena>(
    memory: &mut Memory<A>,
    place: StructPlace,
    schema: StructSchema<'_>,
) -> Result<(Option<u16>, Option<u16>)> {
    let words = place.data_words as usize + place.pointers as usize;
    let there = has_words(&memory.arena, place.start, words);
    let fields = StructBuilder { memory, place };
    if !there || !has_sizes(&fields, schema) {
        return missing();
    }
    let mut record = dynamic_struct::Builder::new(fields, schema);
    let before = record.which()?.map(|field| field.get_index());
    record.set_named("v", Given::UInt16(9))?;
    if record.has_named("u")? {
        return missing();
    }
    Ok((before, record.which()?.map(|field| field.get_index())))
}

/// Does this for a new message.
fn members_in(
    message: &mut Builder<HeapAllocator>,
    schema: StructSchema<'_>,
) -> Result<(Option<u16>, Option<u16>)> {
    let place = begin(message, schema)?;
    members(&mut message.memory, place, schema)
}

#[test]
fn members_are_switched(rt: HostRuntime) -> std::result::Result<(), Fail> {
    let set = set_of(rt.alloc(), SCHEMAS)?;
    let schema = schema_of(&set, 4)?;
    let which = with_message(rt.alloc(), |message| members_in(message, schema))?;
    assert!(rt; which == (Some(0), Some(1)));
    Ok(())
}
