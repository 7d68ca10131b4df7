//! Values that lines give, in the form that calls take.
ghost use Rattle.std.specs.Prelude.{◌≡◌, true};
ghost use Rattle.capnp_records.specs.Sets.{nodes_of};
ghost use Rattle.capnp_values_queries.specs.Types.{ty_of, is_type_of};

use crate::answers::hex_of;
use crate::fault::Fault;
use capnp_records::set::SchemaSet;
use capnp_schema_structs::init::struct_of_type;
use capnp_text::text;
use capnp_units::limiter::ReadLimiter;
use capnp_values::dynamic_value::{Capability, Enum, Reader};
use capnp_values::opening::element_size;
use capnp_values::{any_pointer, dynamic_list, dynamic_struct};
use capnp_values_queries::enums::EnumSchema;
use capnp_values_queries::introspect::{Type, TypeVariant};
use capnp_values_queries::structs::StructSchema;
use capnp_wire::pointer::PointerReader;
use capnp_wire_objects::arena::{ReaderArena, ReaderArenaImpl};
use std::alloc::Global;
use std::str::FromStr;

/// Segments to read.
pub type Segments<'a> = ReaderArenaImpl<&'a [&'a [u8]]>;

/// Returns the struct or the group of an id.
pub fn schema_of<'a>(set: &'a SchemaSet, id: &str) -> Result<StructSchema<'a>, Fault> {
    let id = number_in::<u64>(id)?;
    let raw = set.struct_or_group_by_id(id).ok_or(Fault::Shape)?;
    Ok(StructSchema::new(set, raw))
}

/// Parses a number from a word.
pub fn number_in<T: FromStr>(word: &str) -> Result<T, Fault>
where
    T::Err: Drop,
{
    word.parse::<T>().ok().ok_or(Fault::Shape)
}

/// Returns the bytes that a value holds: those after its first colon, up to a second colon if there
/// is one.
pub fn bytes_in(alloc: Global, value: &str) -> Result<Vec<u8>, Fault> {
    let Some((sort, rest)) = value.split_once(':') else {
        return Ok(Vec::new(alloc));
    };
    match sort {
        "t" | "d" | "m" | "s" | "f" | "p" => {
            let text = match rest.split_once(':') {
                Some((front, _)) => front,
                None => rest,
            };
            hex_of(alloc, text)
        }
        _ => Ok(Vec::new(alloc)),
    }
}

/// Returns the root pointer of segments.
pub fn root_pointer<'a>(arena: &'a Segments<'a>) -> Result<PointerReader<'a, Segments<'a>>, Fault> {
    Ok(PointerReader::get_root_from_arena(arena)?)
}

/// Returns the root of segments, as a struct.
pub fn root_struct<'a>(
    arena: &'a Segments<'a>,
    schema: StructSchema<'a>,
) -> Result<dynamic_struct::Reader<'a, Segments<'a>>, Fault> {
    let mut unlimited = ReadLimiter::new(None);
    let reader = root_pointer(arena)?.get_struct(&mut unlimited, None)?;
    Ok(dynamic_struct::Reader::new(reader, schema))
}

/// Returns the root of segments, as a list.
fn root_list<'a>(
    arena: &'a Segments<'a>,
    set: &'a SchemaSet,
    element_type: Type,
) -> Result<dynamic_list::Reader<'a, Segments<'a>>, Fault>
    requires { is_type_of (nodes_of set.now) element_type ≡ true }
{
    let mut unlimited = ReadLimiter::new(None);
    let size = element_size(element_type);
    let reader = root_pointer(arena)?.get_list(&mut unlimited, size, None)?;
    Ok(dynamic_list::Reader::new(reader, set, element_type))
}

/// Returns the first enum of a set.
fn first_enum(set: &SchemaSet) -> Result<EnumSchema<'_>, Fault> {
    for node in set.nodes() {
        if let Some(raw) = set.enum_by_id(node.id) {
            return Ok(EnumSchema::new(set, raw));
        }
    }
    Err(Fault::Shape)
}

/// Returns the first struct or group of a set.
fn first_struct(set: &SchemaSet) -> Result<StructSchema<'_>, Fault> {
    for node in set.nodes() {
        if let Some(raw) = set.struct_or_group_by_id(node.id) {
            return Ok(StructSchema::new(set, raw));
        }
    }
    Err(Fault::Shape)
}

/// Returns a value of an enum: of the type if that is an enum's, otherwise of the first.
fn enum_value<'a>(set: &'a SchemaSet, ty: Type, word: &str) -> Result<Enum<'a>, Fault>
    requires { is_type_of (nodes_of set.now) ty ≡ true }
{
    let value = number_in::<u16>(word)?;
    let schema = match ty.which() {
        TypeVariant::Enum(raw) => EnumSchema::new(set, raw),
        _ => first_enum(set)?,
    };
    Ok(Enum::new(value, schema))
}

/// Returns a number as one of the integers of a type, if it is one of them.
fn integer<'a>(ty: Type, word: &str) -> Option<Reader<'a, Segments<'a>>> {
    Some(match ty.which() {
        TypeVariant::Int8 => Reader::Int8(word.parse::<i8>().ok()?),
        TypeVariant::Int16 => Reader::Int16(word.parse::<i16>().ok()?),
        TypeVariant::Int32 => Reader::Int32(word.parse::<i32>().ok()?),
        TypeVariant::Int64 => Reader::Int64(word.parse::<i64>().ok()?),
        TypeVariant::UInt8 => Reader::UInt8(word.parse::<u8>().ok()?),
        TypeVariant::UInt16 => Reader::UInt16(word.parse::<u16>().ok()?),
        TypeVariant::UInt32 => Reader::UInt32(word.parse::<u32>().ok()?),
        _ => Reader::UInt64(word.parse::<u64>().ok()?),
    })
}

/// Returns a number: of the type if the number is one of its integers, otherwise of 64 bits.
fn number<'a>(ty: Type, word: &str) -> Result<Reader<'a, Segments<'a>>, Fault> {
    if let Some(value) = integer(ty, word) {
        return Ok(value);
    }
    match word.parse::<u64>() {
        Ok(value) => Ok(Reader::UInt64(value)),
        Err(_) => Ok(Reader::Int64(number_in::<i64>(word)?)),
    }
}

/// Returns a number of a type that the word names.
fn sorted<'a>(sort: &str, word: &str) -> Result<Reader<'a, Segments<'a>>, Fault> {
    Ok(match sort {
        "i8" => Reader::Int8(number_in(word)?),
        "i16" => Reader::Int16(number_in(word)?),
        "i32" => Reader::Int32(number_in(word)?),
        "i64" => Reader::Int64(number_in(word)?),
        "u8" => Reader::UInt8(number_in(word)?),
        "u16" => Reader::UInt16(number_in(word)?),
        "u32" => Reader::UInt32(number_in(word)?),
        "u64" => Reader::UInt64(number_in(word)?),
        "v" => Reader::Void,
        "c" => Reader::Capability(Capability),
        _ => return Err(Fault::Shape),
    })
}

/// Returns the root of segments, as a list or a struct of the type. Under a type of another sort
/// the root is read as a struct of any schema, or as an untyped pointer if it isn't a struct.
fn message<'a>(
    set: &'a SchemaSet,
    ty: Type,
    arena: &'a Segments<'a>,
) -> Result<Reader<'a, Segments<'a>>, Fault>
    requires { is_type_of (nodes_of set.now) ty ≡ true }
{
    if let TypeVariant::List(element) = ty.which() {
        return Ok(Reader::List(root_list(arena, set, element)?));
    }
    if let Some(schema) = struct_of_type(set, ty) {
        return Ok(Reader::Struct(root_struct(arena, schema)?));
    }
    match root_struct(arena, first_struct(set)?) {
        Ok(object) => Ok(Reader::Struct(object)),
        Err(_) => Ok(Reader::AnyPointer(any_pointer::Reader::new(root_pointer(arena)?))),
    }
}

/// Returns a field of the root of segments, by the id of its schema and its name.
fn field_value<'a>(
    set: &'a SchemaSet,
    arena: &'a Segments<'a>,
    place: &str,
) -> Result<Reader<'a, Segments<'a>>, Fault> {
    let (id, name) = place.split_once(':').ok_or(Fault::Shape)?;
    let object = root_struct(arena, schema_of(set, id)?)?;
    Ok(object.get_named(name)?)
}

/// Returns the bytes of the first segment.
fn first_segment<'a>(arena: &'a Segments<'a>) -> Result<&'a [u8], Fault> {
    arena.get_segment(0).ok_or(Fault::Shape)
}

/// Returns the value to set at the place of a type. The one segment of the arena has the bytes of
/// `bytes_in`.
pub fn value_of<'a>(
    set: &'a SchemaSet,
    ty: Type,
    value: &str,
    arena: &'a Segments<'a>,
) -> Result<Reader<'a, Segments<'a>>, Fault>
    requires { is_type_of (nodes_of set.now) ty ≡ true }
{
    let (sort, rest) = value.split_once(':').ok_or(Fault::Shape)?;
    match sort {
        "n" => number(ty, rest),
        "b" => Ok(Reader::Bool(rest == "1")),
        "e" => Ok(Reader::Enum(enum_value(set, ty, rest)?)),
        "t" => Ok(Reader::Text(text::Reader(first_segment(arena)?))),
        "d" => Ok(Reader::Data(first_segment(arena)?)),
        "m" => message(set, ty, arena),
        "p" => Ok(Reader::AnyPointer(any_pointer::Reader::new(root_pointer(arena)?))),
        "s" => {
            let (_, id) = rest.split_once(':').ok_or(Fault::Shape)?;
            Ok(Reader::Struct(root_struct(arena, schema_of(set, id)?)?))
        }
        "f" => {
            let (_, place) = rest.split_once(':').ok_or(Fault::Shape)?;
            field_value(set, arena, place)
        }
        _ => sorted(sort, rest),
    }
}
