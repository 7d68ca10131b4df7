//! Faults of setting groups to structs.
ghost use Rattle.std.specs.Prelude.{◌≡◌, true, Some, option_map};
ghost use Rattle.std.specs.Option.{is_some};
ghost use Rattle.capnp_units.specs.Errors.{kind_of};
ghost use Rattle.capnp_model.specs.Groups.{group_fault, fields_fault, body_fault};
ghost use Rattle.capnp_wire.specs.Views.{seen_struct};
ghost use Rattle.capnp_values_queries.specs.Types.{ty_of};
ghost use Rattle.capnp_values_queries.specs.Fields.{Entry};
ghost use Rattle.capnp_values_queries.specs.Handles.{entry_of_field};
ghost use Rattle.capnp_values_queries.specs.Structs.{shape_of_struct, fields_of_struct};
ghost use Rattle.capnp_values.specs.Sources.{struct_seen};
ghost use Rattle.capnp_values.specs.Records.{is_live};
ghost use Rattle.capnp_calls_replies.specs.Parts.{IsNonGroup};
ghost use Rattle.capnp_calls_replies.specs.Faults.{OfRecord, OfEntry, entry_fault, refused_if, refusal_of};

use crate::active::is_active;
use crate::ends::group_of;
use capnp_records::node::NO_DISCRIMINANT;
use capnp_units::kinds::ErrorKind;
use capnp_values::dynamic_struct;
use capnp_values::laws::records_are_read;
use capnp_values_queries::fields::Field;
use capnp_values_queries::introspect::{Type, TypeVariant};
use capnp_values_queries::structs::StructSchema;
use capnp_wire::structs::StructReader;
use capnp_wire_objects::arena::ReaderArena;

/// Returns the kind, if the write is refused.
fn refused_if(refused: bool, kind: ErrorKind) -> Option<ErrorKind>
    ensures { option_map kind_of result ≡ refused_if refused (kind_of kind) }
{
    if refused { Some(kind) } else { None }
}

/// Returns the kind with which a slot of a type is refused. Untyped pointers and capabilities can't
/// be set: as members they are always refused, otherwise only if their pointer isn't null. A value
/// there has to be readable.
fn refusal(ty: Type, members: bool, is_there: bool, is_bad: bool) -> Option<ErrorKind>
    ensures { option_map kind_of result ≡ refusal_of (ty_of ty) members is_there is_bad }
{
    match ty.which() {
        TypeVariant::AnyPointer => {
            let kind = ErrorKind::CannotSetAnyPointerFieldToAPrimitiveValue;
            refused_if(members || is_there, kind)
        }
        TypeVariant::Capability => {
            let kind = ErrorKind::SettingDynamicCapabilitiesIsUnsupported;
            refused_if(members || is_there, kind)
        }
        TypeVariant::Text | TypeVariant::Data | TypeVariant::Struct(_) | TypeVariant::List(_) =>
            refused_if(is_there && is_bad, ErrorKind::UnreadablePointer),
        TypeVariant::Void
        | TypeVariant::Bool
        | TypeVariant::Int8
        | TypeVariant::Int16
        | TypeVariant::Int32
        | TypeVariant::Int64
        | TypeVariant::UInt8
        | TypeVariant::UInt16
        | TypeVariant::UInt32
        | TypeVariant::UInt64
        | TypeVariant::Enum(_) => None,
    }
}

/// Returns the fault of a field that is not a group.
fn slot_fault<A: ReaderArena>(
    reader: dynamic_struct::Reader<'_, A>,
    field: Field<'_>,
    members: bool,
) -> Option<ErrorKind>
    requires { field.parent ≡ reader.schema }
    ensures { OfEntry field.entry (struct_seen A.segments reader.entry.source) (λ e x.
        is_live x ≡ true → IsNonGroup e.body
        → option_map kind_of result ≡ body_fault members e.body x) }
{
    records_are_read();
    let got = reader.get(field);
    let is_there = reader.has(field).unwrap_or(false);
    refusal(field.get_type(), members, is_there, got.is_err())
}

/// Returns whether a field is a union member.
fn is_member(field: Field<'_>) -> bool
    ensures { (e : Entry) → entry_of_field field.entry ≡ Some e → result ≡ is_some e.member }
{
    field.get_proto().discriminant_value != NO_DISCRIMINANT
}

/// Returns the fault of a field, if it is the turn of the active members, or of the fields that are
/// not members.
#[cycle(groups)]
fn entry_fault<A: ReaderArena>(
    source: StructReader<'_, A>,
    field: Field<'_>,
    members: bool,
) -> Option<ErrorKind>
    ensures { OfEntry field.entry (seen_struct A.segments source.entry) (λ e x.
        option_map kind_of result ≡ entry_fault members e x) }
{
    let reader = dynamic_struct::Reader::new(source, field.parent());
    if is_member(field) != members {
        return None;
    }
    if !is_active(reader, field) {
        return None;
    }
    match group_of(field) {
        Some(inner) => group_fault(source, inner),
        None => slot_fault(reader, field, members),
    }
}

/// Returns the first fault among the members, or among the others, by index.
#[cycle(groups)]
fn fields_fault<A: ReaderArena>(
    source: StructReader<'_, A>,
    schema: StructSchema<'_>,
    members: bool,
) -> Option<ErrorKind>
    ensures { OfRecord schema.entry (seen_struct A.segments source.entry) (λ r.
        option_map kind_of result ≡ fields_fault members (fields_of_struct schema.entry) r) }
{
    if let Ok(fields) = schema.get_fields() {
        for i in 0..fields.len() {
            if let Some(kind) = entry_fault(source, fields.get(i), members) {
                return Some(kind);
            }
        }
    }
    None
}

/// Returns the first fault of setting a group to a struct, which is read under the group's schema:
/// first that of its active members, then that of its other fields.
#[cycle(groups)]
pub(crate) fn group_fault<A: ReaderArena>(
    source: StructReader<'_, A>,
    schema: StructSchema<'_>,
) -> Option<ErrorKind>
    ensures { OfRecord schema.entry (seen_struct A.segments source.entry) (λ r.
        option_map kind_of result ≡ group_fault (shape_of_struct schema.entry) r) }
{
    match fields_fault(source, schema, true) {
        Some(kind) => Some(kind),
        None => fields_fault(source, schema, false),
    }
}
