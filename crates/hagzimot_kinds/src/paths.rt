//! The path to a list, as people read it.

use capnp_records::set::SchemaSet;
use capnp_relay_kinds::steps::Step;
use capnp_values_queries::introspect::{Type, TypeVariant};
use capnp_values_queries::slots::FieldPlace;
use capnp_values_queries::structs::StructSchema;
use std::alloc::{AllocError, Global};

/// The place that the steps so far lead to.
#[derive(Clone, Copy)]
enum At<'a> {
    Struct(StructSchema<'a>),
    /// The elements of a list, by their type.
    List(Type),
    /// Something else, from which no step leads on.
    End,
}

/// Returns what a value of a type is.
fn at_type<'a>(set: &'a SchemaSet, ty: Type) -> At<'a> {
    match ty.which() {
        TypeVariant::Struct(raw) => {
            if set.holds(raw) {
                At::Struct(StructSchema::new(set, raw))
            } else {
                At::End
            }
        }
        TypeVariant::List(element) => At::List(element),
        _ => At::End,
    }
}

/// Writes the name of a field, after a point unless it is the first. A control character is a
/// question mark, since a name with a line feed could pass for another line.
fn put_name(out: &mut String, name: &str) -> Result<(), AllocError> {
    if !out.is_empty() {
        out.push('.')?;
    }
    for c in name.chars() {
        out.push(if c.is_control() { '?' } else { c })?;
    }
    Ok(())
}

/// Writes a step to the field of an index, and returns what the field is.
fn step_to_field<'a>(
    out: &mut String,
    schema: StructSchema<'a>,
    index: u16,
) -> Result<At<'a>, AllocError> {
    let Ok(fields) = schema.get_fields() else {
        return Ok(At::End);
    };
    if index >= fields.len() {
        return Ok(At::End);
    }
    let field = fields.get(index);
    put_name(out, field.get_proto().name.as_str())?;
    Ok(match field.place() {
        FieldPlace::Group { schema } => At::Struct(schema),
        FieldPlace::Pointer { ty, .. } => at_type(schema.set(), ty),
        FieldPlace::Void { .. } | FieldPlace::Plain { .. } => At::End,
    })
}

/// Returns the text of the steps from a root, such as `lines[3].codes`.
pub(crate) fn path_text(
    alloc: Global,
    root: StructSchema<'_>,
    steps: &[Step],
) -> Result<String, AllocError> {
    let mut text = String::new(alloc);
    let mut at = At::Struct(root);
    for step in steps {
        at = match (*step, at) {
            (Step::Field(index), At::Struct(schema)) => step_to_field(&mut text, schema, index)?,
            (Step::Element(index), At::List(element)) => {
                write!(text, "[{index}]")?;
                at_type(root.set(), element)
            }
            _ => At::End,
        };
    }
    Ok(text)
}
