//! The fields of a struct that are printed.
ghost use Rattle.std.specs.Prelude.{◌≡◌, Some, IsOkAnd};
ghost use Rattle.capnp_values_queries.specs.Fields.{Entry};
ghost use Rattle.capnp_values_queries.specs.Structs.{schema_around};
ghost use Rattle.capnp_values_queries.specs.Handles.{entry_of_field, IsFieldRecord};
ghost use Rattle.capnp_values.specs.Sources.{struct_seen};
ghost use Rattle.capnp_values.specs.Shown.{discriminant_shown};
ghost use Rattle.capnp_model.specs.Schemas.{Field as FieldNode};
ghost use Rattle.capnp_model.specs.Readings.{is_active};
ghost use Rattle.capnp_values_print.specs.Members.{AreActive, field_shown};
ghost use Rattle.capnp_values_print.specs.Parts.{IsActive, enters_there};

use crate::defaults::has_default;
use crate::slots::is_null_field;
use capnp_records::node::NO_DISCRIMINANT;
use capnp_units::errors::Result;
use capnp_values::dynamic_struct;
use capnp_values_queries::fields::Field;
use capnp_wire_objects::arena::ReaderArena;

/// Returns the value of the discriminant of the active union member, if there is one.
// Inlined, what it takes of the stack would be taken by each struct that is printed in another.
#[inline(never)]
pub(crate) fn active_member<A: ReaderArena>(
    reader: &dynamic_struct::Reader<'_, A>,
) -> Result<Option<u16>>
    ensures { let r = reader.now in
        IsOkAnd result (λ active.
        AreActive r.schema (discriminant_shown r.schema (struct_seen A.segments r.source)) active) }
{
    match reader.which()? {
        None => Ok(None),
        Some(field) => Ok(Some(field.get_proto().discriminant_value)),
    }
}

/// Returns whether a field is not a union member, or is the active member.
pub(crate) fn is_active<A: ReaderArena>(
    reader: dynamic_struct::Reader<'_, A>,
    field: Field<'_>,
) -> Result<bool>
    requires { field.parent ≡ reader.schema }
    ensures { let r = reader.entry in
        IsOkAnd result (λ b.
        (e : Entry) → entry_of_field field.entry ≡ Some e
        → b ≡ is_active e.member
        (discriminant_shown r.schema (struct_seen A.segments r.source))) }
{
    let member = field.get_proto().discriminant_value;
    if member == NO_DISCRIMINANT {
        return Ok(true);
    }
    match active_member(&reader)? {
        None => Ok(false),
        Some(value) => Ok(value == member),
    }
}

/// Returns whether a field is printed. A union member is printed if it is active, except the first
/// member if it is a null pointer. Another field is printed if it isn't a null pointer.
// Inlined, what it takes of the stack would be taken by each struct that is printed in another.
#[inline(never)]
pub(crate) fn is_printed<A: ReaderArena>(
    reader: &dynamic_struct::Reader<'_, A>,
    field: &Field<'_>,
    active: Option<u16>,
) -> Result<bool>
    requires parent { field.now.parent ≡ reader.now.schema }
    requires active { let r = reader.now in
        AreActive r.schema (discriminant_shown r.schema (struct_seen A.segments r.source)) active }
    ensures { let r = reader.now in let v = struct_seen A.segments r.source in
        IsOkAnd result (λ b.
        (e : Entry) → entry_of_field field.now ≡ Some e
        → b ≡ field_shown (schema_around r.schema) v (discriminant_shown r.schema v) e) }
{
    let said = field.get_proto();
    let member = said.discriminant_value;
    if member == NO_DISCRIMINANT {
        return Ok(!is_null_field(reader, &said.body));
    }
    if member == 0 {
        return reader.has(*field);
    }
    match active {
        None => Ok(false),
        Some(value) => Ok(member == value),
    }
}

/// Returns whether a field that is not a member, or is the active one, is a null pointer that
/// prints as a default, whose root isn't null.
pub(crate) fn enters_default<A: ReaderArena>(
    reader: dynamic_struct::Reader<'_, A>,
    field: Field<'_>,
) -> Result<bool>
    requires parent { field.parent ≡ reader.schema }
    requires active { IsActive reader.schema (struct_seen A.segments reader.source) field }
    ensures { let v = struct_seen A.segments reader.entry.source in let f = field.entry in
        IsOkAnd result (λ b.
        (said : FieldNode) → IsFieldRecord f.parent f.index said
        → b ≡ enters_there v (schema_around f.parent) said.kind) }
{
    // Few fields have a default, and whether one has costs less to ask than whether it is null.
    if !has_default(&field.get_proto().body) {
        return Ok(false);
    }
    Ok(!reader.has(field)?)
}
