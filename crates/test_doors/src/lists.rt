//! Lists and untyped pointers of a struct whose schema is known at run time.
use crate::fixtures::{SCHEMAS, begin, schema_of, set_of, text_of};
use capnp_layout::{
    BuilderArena, Error, ErrorKind, Memory, NullArena, Result, StructBuilder, StructPlace,
    TextBuilder, has_words, text,
};
use capnp_message::message::{Builder, HeapAllocator, with_message};
use capnp_schema::dynamic_struct::{begun, get_named, has_sizes, initn, value};
use capnp_schema::dynamic_value::Reader;
use capnp_schema::schema::StructSchema;
use capnp_schema::{dynamic_list, dynamic_struct, dynamic_value};
use std::alloc::Global;
use std::test::Fail;

/// A value of no message.
type Given<'a> = Reader<'a, NullArena>;

/// Positions that are too far for a handle.
const FAR: usize = 1 << 60;

/// Returns the error of a call that doesn't find its value.
fn missing<T>() -> Result<T> {
    Err(Error::from(ErrorKind::OutOfBounds))
}

/// Writes a text of two bytes.
fn write_ho<A: BuilderArena>(mut text: TextBuilder<'_, A>) -> Result<()> {
    if text.len() != 2 || text.position != 0 || text.place.start.position >= FAR {
        return missing();
    }
    text.push_str("ho");
    Ok(())
}

/// Begins a list of two elements in a field of R, and sets its last text or a number of its last
/// struct.
fn begin_field<A: BuilderArena>(
    memory: &mut Memory<A>,
    place: StructPlace,
    schema: StructSchema<'_>,
    name: &str,
) -> Result<()> {
    let words = place.data_words as usize + place.pointers as usize;
    let there = has_words(&memory.arena, place.start, words);
    let fields = StructBuilder { memory, place };
    if !there || !has_sizes(&fields, schema) {
        return missing();
    }
    let mut record = dynamic_struct::Builder::new(fields, schema);
    let field = record.get_schema().get_field_by_name(name)?;
    let placed = initn(&mut record, field, 2)?;
    let dynamic_value::Builder::List(mut list) = begun(record, placed) else {
        return missing();
    };
    if list.len() != 2 {
        return missing();
    }
    if name == "words" {
        return list.set(1, Given::from("hi"));
    }
    let part = list.struct_at(1)?;
    list.part(part).set_named("a", Given::UInt16(3))
}

/// Reads a list of R for writing, and begins its first text, or sets the text of its first struct,
/// which is read for writing.
fn write_field<A: BuilderArena>(
    memory: &mut Memory<A>,
    place: StructPlace,
    schema: StructSchema<'_>,
    name: &str,
) -> Result<()> {
    let words = place.data_words as usize + place.pointers as usize;
    let there = has_words(&memory.arena, place.start, words);
    let fields = StructBuilder { memory, place };
    if !there || !has_sizes(&fields, schema) {
        return missing();
    }
    let mut record = dynamic_struct::Builder::new(fields, schema);
    let placed = get_named(&mut record, name)?;
    let dynamic_value::Builder::List(mut list) = value(record, placed) else {
        return missing();
    };
    if list.is_empty() {
        return missing();
    }
    if name == "words" {
        let placed = dynamic_list::init(&mut list, 0, 2)?;
        return match dynamic_list::begun(list, placed) {
            dynamic_value::Builder::Text(text) => write_ho(text),
            _ => missing(),
        };
    }
    let placed = dynamic_list::get(&mut list, 0)?;
    match dynamic_list::value(list, placed) {
        dynamic_value::Builder::Struct(mut first) => first.set_named("t", Given::from("x")),
        _ => missing(),
    }
}

/// Reads the untyped field of R for writing, and sets it to a text, which is a word.
fn write_pointer<A: BuilderArena>(
    memory: &mut Memory<A>,
    place: StructPlace,
    schema: StructSchema<'_>,
) -> Result<()> {
    let words = place.data_words as usize + place.pointers as usize;
    let there = has_words(&memory.arena, place.start, words);
    let fields = StructBuilder { memory, place };
    if !there || !has_sizes(&fields, schema) {
        return missing();
    }
    let mut record = dynamic_struct::Builder::new(fields, schema);
    let placed = get_named(&mut record, "any")?;
    let dynamic_value::Builder::AnyPointer(mut any) = value(record, placed) else {
        return missing();
    };
    if !any.is_null() {
        return missing();
    }
    any.set_as::<text::Owned, &str>("hi")?;
    if any.target_size()?.word_count != 1 {
        return missing();
    }
    Ok(())
}

/// Returns the text of a struct.
fn shown<A: BuilderArena>(
    alloc: Global,
    memory: &mut Memory<A>,
    place: StructPlace,
    schema: StructSchema<'_>,
) -> Result<String> {
    let words = place.data_words as usize + place.pointers as usize;
    let there = has_words(&memory.arena, place.start, words);
    let fields = StructBuilder { memory, place };
    if !there || !has_sizes(&fields, schema) {
        return missing();
    }
    let record = dynamic_struct::Builder::new(fields, schema);
    text_of(alloc, Reader::Struct(record.into_reader()))
}

/// Writes a field of a new message of R, and returns its text.
fn written(
    alloc: Global,
    message: &mut Builder<HeapAllocator>,
    schema: StructSchema<'_>,
    name: &str,
) -> Result<String> {
    let place = begin(message, schema)?;
    if name == "any" {
        write_pointer(&mut message.memory, place, schema)?;
    } else {
        begin_field(&mut message.memory, place, schema, name)?;
        write_field(&mut message.memory, place, schema, name)?;
    }
    shown(alloc, &mut message.memory, place, schema)
}

/// Fields of R, and the text of a struct after that field was written.
const WRITTEN: [(&str, &str); 3] = [
    (
        "words",
        r#"(n = 5, e = red, words = ["ho", "hi"], g = (x = 0))"#,
    ),
    (
        "items",
        r#"(n = 5, e = red, items = [(a = 0, t = "x"), (a = 3)], g = (x = 0))"#,
    ),
    (
        "any",
        "(n = 5, e = red, any = <opaque pointer>, g = (x = 0))",
    ),
];

#[test]
fn lists_and_pointers_are_written(rt: HostRuntime) -> std::result::Result<(), Fail> {
    let alloc = rt.alloc();
    let set = set_of(alloc, SCHEMAS)?;
    let schema = schema_of(&set, 2)?;
    for (name, text) in WRITTEN {
        let is = with_message(alloc, |message| written(alloc, message, schema, name))?;
        assert!(rt; is.as_str() == text, "{name}");
    }
    Ok(())
}
