//! Values in a layout.

use crate::layout::{FieldKey, Layout, Style, put};
use crate::singles::put_single;
use capnp_records::node::NO_DISCRIMINANT;
use capnp_units::errors::Error;
use capnp_units::kinds::ErrorKind;
use capnp_values::dynamic_value::Reader;
use capnp_values::{dynamic_list, dynamic_struct};
use capnp_values_queries::fields::Field;
use capnp_wire_objects::arena::ReaderArena;
use hagzimot_schemas::json_text::Quoted;

/// The most nested structs, groups and lists that are followed. Each takes up to 2 KiB of stack.
pub(crate) const MOST_LEVELS: u32 = 2048;

/// Writes a value, within which structs, groups and lists are nested at most `left` deep. The null
/// pointers of union members that are being entered are in `nulls`.
#[cycle(value)]
pub(crate) fn put_value<A: ReaderArena>(
    out: &mut String,
    nulls: &mut Vec<FieldKey>,
    style: Style<'_>,
    value: Reader<'_, A>,
    is_float: bool,
    left: u32,
) -> Result<(), Error> {
    match value {
        Reader::Struct(reader) => put_struct(out, nulls, style, reader, left),
        Reader::List(list) => put_list(out, nulls, style, list, is_float, left),
        _ => put_single(out, style, value, is_float),
    }
}

/// Returns the level of a line, given the number of levels that are left.
fn level_of(left: u32) -> u32 {
    MOST_LEVELS.saturating_sub(left)
}

/// Writes a struct or a group.
#[cycle(value)]
fn put_struct<A: ReaderArena>(
    out: &mut String,
    nulls: &mut Vec<FieldKey>,
    style: Style<'_>,
    reader: dynamic_struct::Reader<'_, A>,
    left: u32,
) -> Result<(), Error> {
    if left == 0 {
        return Err(Error::from(ErrorKind::NestingLimitExceeded));
    }
    let marks = style.struct_marks();
    put(out, marks.open)?;
    if !reader.get_schema().get_fields()?.is_empty() {
        put_fields(out, nulls, style, reader, left - 1)?;
        style.put_line(out, level_of(left))?;
    }
    put(out, marks.close)
}

/// Returns the discriminant of the active union member, if there is one.
pub(crate) fn active_member<A: ReaderArena>(reader: dynamic_struct::Reader<'_, A>) -> Option<u16> {
    match reader.which() {
        Ok(Some(field)) => Some(field.get_proto().discriminant_value),
        _ => None,
    }
}

/// Returns whether a field is written where it is declared. A field outside a union is, unless its
/// pointer is null. In text the active union member is too, except the first member if its pointer
/// is null. In JSON the active union member follows the other fields.
pub(crate) fn is_written<A: ReaderArena>(
    reader: dynamic_struct::Reader<'_, A>,
    field: Field<'_>,
    active: Option<u16>,
    layout: Layout,
) -> Result<bool, Error> {
    let member = field.get_proto().discriminant_value;
    if member == NO_DISCRIMINANT || (member == 0 && layout != Layout::Json) {
        return reader.has(field);
    }
    Ok(active == Some(member) && layout != Layout::Json)
}

/// Writes the name of a field, before its value.
fn put_name(out: &mut String, style: Style<'_>, field: Field<'_>) -> Result<(), Error> {
    let name = field.get_proto().name.as_str();
    if style.layout == Layout::Json {
        put(out, Quoted(name))?;
        return put(out, ":");
    }
    put(out, name)?;
    put(out, " = ")
}

/// Writes the fields of a struct that are written, with commas between them.
#[cycle(value)]
fn put_fields<A: ReaderArena>(
    out: &mut String,
    nulls: &mut Vec<FieldKey>,
    style: Style<'_>,
    reader: dynamic_struct::Reader<'_, A>,
    left: u32,
) -> Result<(), Error> {
    let fields = reader.get_schema().get_fields()?;
    let active = active_member(reader);
    let mut is_first = true;
    for i in 0..fields.len() {
        let field = fields.get(i);
        if !is_written(reader, field, active, style.layout)? {
            continue;
        }
        style.put_item(out, is_first, level_of(left))?;
        is_first = false;
        put_name(out, style, field)?;
        put_value(
            out,
            nulls,
            style,
            reader.get(field)?,
            style.is_float(field),
            left,
        )?;
    }
    if style.layout == Layout::Json {
        if let Some(field) = reader.which()? {
            style.put_item(out, is_first, level_of(left))?;
            put_name(out, style, field)?;
            put_member(out, nulls, style, reader, field, left)?;
        }
    }
    Ok(())
}

/// Writes the value of the active union member as JSON. A null pointer is its default or the empty
/// value. Within that value the same member is not entered again, because a struct that holds
/// itself has no end: then it is an empty object or array.
#[cycle(value)]
fn put_member<A: ReaderArena>(
    out: &mut String,
    nulls: &mut Vec<FieldKey>,
    style: Style<'_>,
    reader: dynamic_struct::Reader<'_, A>,
    field: Field<'_>,
    left: u32,
) -> Result<(), Error> {
    let value = reader.get(field)?;
    let is_float = style.is_float(field);
    if reader.has(field)? {
        return put_value(out, nulls, style, value, is_float, left);
    }
    let key = FieldKey::of(field);
    match value {
        Reader::Struct(_) if nulls.contains(&key) => put(out, "{}"),
        Reader::List(_) if nulls.contains(&key) => put(out, "[]"),
        _ => {
            nulls.push(key)?;
            put_value(out, nulls, style, value, is_float, left)?;
            nulls.pop();
            Ok(())
        }
    }
}

/// Writes a list; `is_float` says whether its innermost elements are floats.
#[cycle(value)]
fn put_list<A: ReaderArena>(
    out: &mut String,
    nulls: &mut Vec<FieldKey>,
    style: Style<'_>,
    list: dynamic_list::Reader<'_, A>,
    is_float: bool,
    left: u32,
) -> Result<(), Error> {
    if left == 0 {
        return Err(Error::from(ErrorKind::NestingLimitExceeded));
    }
    put(out, "[")?;
    if !list.is_empty() {
        put_elements(out, nulls, style, list, is_float, left - 1)?;
        style.put_line(out, level_of(left))?;
    }
    put(out, "]")
}

/// Writes the elements of a list, with commas between them.
#[cycle(value)]
fn put_elements<A: ReaderArena>(
    out: &mut String,
    nulls: &mut Vec<FieldKey>,
    style: Style<'_>,
    list: dynamic_list::Reader<'_, A>,
    is_float: bool,
    left: u32,
) -> Result<(), Error> {
    for i in 0..list.len() {
        style.put_item(out, i == 0, level_of(left))?;
        put_value(out, nulls, style, list.get(i)?, is_float, left)?;
    }
    Ok(())
}
