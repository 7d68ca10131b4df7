//! The names of steps from pointer to pointer.

use crate::paths::Part;
use capnp_values::dynamic_value::Reader;
use capnp_values::{dynamic_list, dynamic_struct};
use capnp_values_queries::slots::FieldPlace;
use capnp_wire_objects::arena::ReaderArena;
use hagzimot_faults::steps::Step;
use std::alloc::AllocError;

/// The most nested groups in which the field of a pointer is looked for.
const MOST_GROUPS: u32 = 64;

/// A field that was found, and its value, if that can be read.
type Named<'a, A> = Option<Option<Reader<'a, A>>>;

/// Finds the field of a struct that is there and lies at a pointer, through groups, and adds its
/// name to the parts; if there is none, the parts stay as they are.
#[cycle(pointer)]
fn name_pointer<'a, A: ReaderArena>(
    parts: &mut Vec<Part<'a>>,
    reader: dynamic_struct::Reader<'a, A>,
    pointer: u32,
    groups: u32,
) -> Result<Named<'a, A>, AllocError> {
    let Ok(fields) = reader.get_schema().get_fields() else {
        return Ok(None);
    };
    for i in 0..fields.len() {
        let field = fields.get(i);
        if reader.has(field) != Ok(true) {
            continue;
        }
        let name = Part::Field(field.get_proto().name.as_str());
        match field.place() {
            FieldPlace::Pointer { index, .. } if index == pointer => {
                parts.push(name)?;
                return Ok(Some(reader.get(field).ok()));
            }
            FieldPlace::Group { .. } if groups > 0 => {
                let Ok(Reader::Struct(group)) = reader.get(field) else {
                    continue;
                };
                parts.push(name)?;
                let found = name_pointer(parts, group, pointer, groups - 1)?;
                if found.is_some() {
                    return Ok(found);
                }
                parts.pop();
            }
            _ => {}
        }
    }
    Ok(None)
}

/// Adds the name of a pointer of a struct, and returns what it leads to, if that is known.
fn step_to_pointer<'a, A: ReaderArena>(
    parts: &mut Vec<Part<'a>>,
    reader: dynamic_struct::Reader<'a, A>,
    pointer: u32,
) -> Result<Option<Reader<'a, A>>, AllocError> {
    if let Some(value) = name_pointer(parts, reader, pointer, MOST_GROUPS)? {
        return Ok(value);
    }
    parts.push(Part::Pointer(pointer))?;
    Ok(None)
}

/// Returns an element of a list, if it is there and can be read.
fn element<'a, A: ReaderArena>(
    list: dynamic_list::Reader<'a, A>,
    index: u32,
) -> Option<Reader<'a, A>> {
    if index < list.len() {
        list.get(index).ok()
    } else {
        None
    }
}

/// Adds the names of a step from a value, and returns what it leads to, if that is known.
fn step_from<'a, A: ReaderArena>(
    parts: &mut Vec<Part<'a>>,
    from: Option<Reader<'a, A>>,
    step: Step,
) -> Result<Option<Reader<'a, A>>, AllocError> {
    match (step, from) {
        (Step::Pointer(pointer), Some(Reader::Struct(reader))) => {
            step_to_pointer(parts, reader, pointer)
        }
        (Step::Pointer(pointer), _) => {
            parts.push(Part::Pointer(pointer))?;
            Ok(None)
        }
        (Step::Item(index), from) => {
            parts.push(Part::Index(index))?;
            match from {
                Some(Reader::List(list)) => match element(list, index) {
                    // A list of pointers that is read as one of structs with a pointer each.
                    Some(Reader::Struct(reader)) => step_to_pointer(parts, reader, 0),
                    value => Ok(value),
                },
                _ => Ok(None),
            }
        }
        (Step::Element { index, pointer }, from) => {
            parts.push(Part::Index(index))?;
            if let Some(Reader::List(list)) = from {
                if let Some(Reader::Struct(reader)) = element(list, index) {
                    return step_to_pointer(parts, reader, pointer);
                }
            }
            parts.push(Part::Pointer(pointer))?;
            Ok(None)
        }
    }
}

/// Adds the names of steps from the value of the root: fields by their names if the schema has
/// them.
pub(crate) fn name_steps<'a, A: ReaderArena>(
    parts: &mut Vec<Part<'a>>,
    root: Option<Reader<'a, A>>,
    steps: &[Step],
) -> Result<(), AllocError> {
    let mut value = root;
    for step in steps {
        value = step_from(parts, value, *step)?;
    }
    Ok(())
}
