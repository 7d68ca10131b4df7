//! The first field of a record that can't be read as its type.

use crate::layout::Layout;
use crate::paths::Part;
use crate::walk::{active_member, is_written};
use capnp_units::errors::Error;
use capnp_units::kinds::ErrorKind;
use capnp_values::dynamic_value::Reader;
use capnp_values::{dynamic_list, dynamic_struct};
use capnp_values_queries::introspect::Type;
use capnp_wire_objects::arena::ReaderArena;

/// The reason for which a field or an element can't be shown.
#[derive(Clone, Copy, Debug)]
pub(crate) enum Unread {
    /// The value there isn't of the field's type.
    Type { kind: ErrorKind, expected: Type },
    /// The field or the element is in too many structs, groups and lists.
    Deep,
}

/// Finds the first field that can't be read in a value, within which structs, groups and lists are
/// followed `left` deep. The parts that lead there follow those that are in `parts`; if there is
/// none, `parts` stays as it is.
#[cycle(unread)]
pub(crate) fn find_unread<'a, A: ReaderArena>(
    parts: &mut Vec<Part<'a>>,
    value: Reader<'a, A>,
    left: u32,
) -> Result<Option<Unread>, Error> {
    let Some(deeper) = left.checked_sub(1) else {
        return Ok(match value {
            Reader::Struct(_) | Reader::List(_) => Some(Unread::Deep),
            _ => None,
        });
    };
    match value {
        Reader::Struct(reader) => find_in_struct(parts, reader, deeper),
        Reader::List(list) => find_in_list(parts, list, deeper),
        _ => Ok(None),
    }
}

/// Finds the same in the fields of a struct or a group that are shown.
#[cycle(unread)]
fn find_in_struct<'a, A: ReaderArena>(
    parts: &mut Vec<Part<'a>>,
    reader: dynamic_struct::Reader<'a, A>,
    left: u32,
) -> Result<Option<Unread>, Error> {
    let fields = reader.get_schema().get_fields()?;
    let active = active_member(reader);
    for i in 0..fields.len() {
        let field = fields.get(i);
        if !is_written(reader, field, active, Layout::Line)? {
            continue;
        }
        parts.push(Part::Field(field.get_proto().name.as_str()))?;
        let value = match reader.get(field) {
            Ok(value) => value,
            Err(e) => return Ok(Some(type_fault(e, field.get_type()))),
        };
        let found = find_unread(parts, value, left)?;
        if found.is_some() {
            return Ok(found);
        }
        parts.pop();
    }
    Ok(None)
}

/// Finds the same in the elements of a list.
#[cycle(unread)]
fn find_in_list<'a, A: ReaderArena>(
    parts: &mut Vec<Part<'a>>,
    list: dynamic_list::Reader<'a, A>,
    left: u32,
) -> Result<Option<Unread>, Error> {
    for i in 0..list.len() {
        parts.push(Part::Index(i))?;
        let value = match list.get(i) {
            Ok(value) => value,
            Err(e) => return Ok(Some(type_fault(e, list.element_type()))),
        };
        let found = find_unread(parts, value, left)?;
        if found.is_some() {
            return Ok(found);
        }
        parts.pop();
    }
    Ok(None)
}

/// Returns why what should be of a type can't be read.
fn type_fault(e: Error, expected: Type) -> Unread {
    Unread::Type {
        kind: e.kind,
        expected,
    }
}
