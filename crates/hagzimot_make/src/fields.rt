//! Fields of structs that names of JSON objects mean.

use crate::fault::{MakeFault, value_fault};
use capnp_records::node::NO_DISCRIMINANT;
use capnp_values_queries::fields::Field;
use capnp_values_queries::structs::StructSchema;
use hagzimot_schemas::nodes::short_name;
use std::alloc::Global;
use strsim::osa_distance;

/// The most edits between a name and the name that a fault suggests.
const MOST_EDITS: usize = 2;

/// Returns the field's name that is nearest to a name, if one is near.
pub fn nearest_field<'a>(alloc: Global, schema: StructSchema<'a>, name: &str) -> Option<&'a str> {
    let mut best = None;
    let mut least = MOST_EDITS + 1;
    for field in schema.record().fields.iter() {
        let near = field.name.as_str();
        let Ok(edits) = osa_distance(alloc, name, near) else {
            continue;
        };
        if edits < least && edits < near.len() {
            least = edits;
            best = Some(near);
        }
    }
    best
}

/// Returns the fault of a name that no field of a struct has.
fn unknown(alloc: Global, schema: StructSchema<'_>, name: &str) -> MakeFault {
    let node = short_name(schema.get_proto());
    let text = match nearest_field(alloc, schema, name) {
        Some(near) => {
            format!(in alloc; "no field \"{name}\" in {node} (did you mean \"{near}\"?)")
        }
        None => format!(in alloc; "no field \"{name}\" in {node}"),
    };
    match text {
        Ok(text) => value_fault(alloc, text),
        Err(_) => MakeFault::Memory,
    }
}

/// Returns the field of a name.
pub(crate) fn field_of<'a>(
    alloc: Global,
    schema: StructSchema<'a>,
    name: &str,
) -> Result<Field<'a>, MakeFault> {
    match schema.find_field_by_name(name) {
        Ok(Some(field)) => Ok(field),
        _ => Err(unknown(alloc, schema, name)),
    }
}

/// Returns whether a field is a member of its struct's union.
pub(crate) fn is_member(field: Field<'_>) -> bool {
    field.get_proto().discriminant_value != NO_DISCRIMINANT
}

/// Returns the fault of a second member of one union.
pub(crate) fn second_member(alloc: Global, first: Field<'_>) -> MakeFault {
    let name = first.get_proto().name.as_str();
    let text = format!(in alloc; "\"{name}\" is a member of the same union (keep one of them)");
    match text {
        Ok(text) => value_fault(alloc, text),
        Err(_) => MakeFault::Memory,
    }
}
