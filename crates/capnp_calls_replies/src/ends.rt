//! Replies at the end of the path of a call.
ghost use Rattle.std.specs.Prelude.{◌≡◌, ◌<◌, false, [], IfOk, IfErr};
ghost use Rattle.capnp_units.specs.Errors.{kind_of};
ghost use Rattle.capnp_units.specs.declared.kinds.ErrorKind.{ErrorKind};
ghost use Rattle.capnp_model.specs.Accepted.{schema_of};
ghost use Rattle.capnp_model.specs.Schemas.{Schema};
ghost use Rattle.capnp_model.specs.Calls.{init_content, initn_content, element_content, set_to, initn};
ghost use Rattle.capnp_records.specs.Sets.{nodes_of};
ghost use Rattle.capnp_values_queries.specs.Types.{ty_of};
ghost use Rattle.capnp_values.specs.Sources.{struct_seen, list_seen};
ghost use Rattle.capnp_calls.specs.CallViews.{slot_value_view, action_view};
ghost use Rattle.capnp_calls.specs.Replies.{reply_view, content_reply};
ghost use Rattle.capnp_calls_replies.specs.Parts.{RepliesAtElement, OfField, OfBody, IsFieldReply, IsGroupOf};
ghost use Rattle.capnp_calls_replies.specs.Writes.{type_content, is_get};

use crate::groups::group_reply;
use crate::shown::{shown_element, shown_field};
use crate::values::value_reply;
use capnp_calls::reply::Reply;
use capnp_calls::{Action, SlotValue};
use capnp_units::errors::Result;
use capnp_units::kinds::ErrorKind;
use capnp_values::{dynamic_list, dynamic_struct};
use capnp_values_queries::fields::Field;
use capnp_values_queries::introspect::{Type, TypeVariant};
use capnp_values_queries::slots::FieldPlace;
use capnp_values_queries::structs::StructSchema;
use capnp_wire_objects::arena::ReaderArena;
use std::alloc::Global;

/// Returns the reply to `init` of a slot of the type: only structs and untyped pointers are made.
fn init_reply(ty: Type) -> Reply
    ensures { (s : Schema) → reply_view result ≡ content_reply (init_content s (ty_of ty)) }
{
    match ty.which() {
        TypeVariant::Struct(_) | TypeVariant::AnyPointer => Reply::Done,
        TypeVariant::Void
        | TypeVariant::Bool
        | TypeVariant::Int8
        | TypeVariant::Int16
        | TypeVariant::Int32
        | TypeVariant::Int64
        | TypeVariant::UInt8
        | TypeVariant::UInt16
        | TypeVariant::UInt32
        | TypeVariant::UInt64
        | TypeVariant::Enum(_)
        | TypeVariant::Text
        | TypeVariant::Data
        | TypeVariant::Capability
        | TypeVariant::List(_) => {
            Reply::Refused(ErrorKind::InitIsOnlyValidForStructAndAnyPointerFields)
        }
    }
}

/// Returns the reply to `initn` at values of the type: only texts, data and lists are made, others
/// are refused with the kind.
fn initn_reply(count: u32, ty: Type, otherwise: ErrorKind) -> Reply
    ensures { (s : Schema) → reply_view result
        ≡ content_reply (initn_content s count (ty_of ty) (kind_of otherwise)) }
{
    match ty.which() {
        TypeVariant::Text | TypeVariant::Data | TypeVariant::List(_) => Reply::Done,
        TypeVariant::Void
        | TypeVariant::Bool
        | TypeVariant::Int8
        | TypeVariant::Int16
        | TypeVariant::Int32
        | TypeVariant::Int64
        | TypeVariant::UInt8
        | TypeVariant::UInt16
        | TypeVariant::UInt32
        | TypeVariant::UInt64
        | TypeVariant::Enum(_)
        | TypeVariant::Struct(_)
        | TypeVariant::AnyPointer
        | TypeVariant::Capability => Reply::Refused(otherwise),
    }
}

/// Returns the reply to a write of a slot of the type.
pub(crate) fn slot_reply(action: &Action, ty: Type) -> Reply
    ensures { (s : Schema) → reply_view result
        ≡ content_reply (type_content s (action_view action.now) (ty_of ty)) }
{
    match action {
        Action::Set(value) => value_reply(value, ty),
        Action::Init => init_reply(ty),
        Action::Initn(count) => {
            initn_reply(
                *count,
                ty,
                ErrorKind::InitnIsOnlyValidForListTextOrDataFields,
            )
        }
        Action::Clear | Action::Get => Reply::Done,
    }
}

/// Returns the reply to `set` of an element of the type.
fn set_element(value: &SlotValue, ty: Type) -> Reply
    ensures { (s : Schema) → reply_view result
        ≡ content_reply (element_content s (set_to (slot_value_view value.now)) (ty_of ty)) }
{
    match ty.which() {
        TypeVariant::AnyPointer => Reply::Refused(ErrorKind::ListAnyPointerNotSupported),
        TypeVariant::Capability => Reply::Refused(ErrorKind::TypeMismatch),
        TypeVariant::Void
        | TypeVariant::Bool
        | TypeVariant::Int8
        | TypeVariant::Int16
        | TypeVariant::Int32
        | TypeVariant::Int64
        | TypeVariant::UInt8
        | TypeVariant::UInt16
        | TypeVariant::UInt32
        | TypeVariant::UInt64
        | TypeVariant::Enum(_)
        | TypeVariant::Text
        | TypeVariant::Data
        | TypeVariant::Struct(_)
        | TypeVariant::List(_) => value_reply(value, ty),
    }
}

/// Returns the reply to `initn` of an element of the type.
fn initn_element(count: u32, ty: Type) -> Reply
    ensures { (s : Schema) → reply_view result
        ≡ content_reply (element_content s (initn count) (ty_of ty)) }
{
    match ty.which() {
        TypeVariant::AnyPointer => Reply::Refused(ErrorKind::ListAnyPointerNotSupported),
        TypeVariant::Text | TypeVariant::Data | TypeVariant::List(_) => Reply::Done,
        TypeVariant::Void
        | TypeVariant::Bool
        | TypeVariant::Int8
        | TypeVariant::Int16
        | TypeVariant::Int32
        | TypeVariant::Int64
        | TypeVariant::UInt8
        | TypeVariant::UInt16
        | TypeVariant::UInt32
        | TypeVariant::UInt64
        | TypeVariant::Enum(_)
        | TypeVariant::Struct(_)
        | TypeVariant::Capability => Reply::Refused(ErrorKind::ExpectedAListOrBlob),
    }
}

/// Returns the reply to a write of an element of the type.
pub(crate) fn element_reply(action: &Action, ty: Type) -> Reply
    ensures { (s : Schema) → reply_view result
        ≡ content_reply (element_content s (action_view action.now) (ty_of ty)) }
{
    match action {
        Action::Set(value) => set_element(value, ty),
        Action::Initn(count) => initn_element(*count, ty),
        Action::Clear => Reply::Refused(ErrorKind::ClearNeedsAField),
        Action::Init | Action::Get => Reply::Refused(ErrorKind::ExpectedAListOrBlob),
    }
}

/// Returns whether an action reads.
pub(crate) fn is_get(action: &Action) -> bool
    ensures { result ≡ is_get (action_view action.now) }
{
    matches!(action, Action::Get)
}

/// Returns the group of a field, if the field is a group.
pub(crate) fn group_of<'a>(field: Field<'a>) -> Option<StructSchema<'a>>
    ensures { IsGroupOf field.entry result }
{
    match field.place() {
        FieldPlace::Group { schema } => Some(schema),
        _ => None,
    }
}

/// Returns the reply to a write of a field.
fn field_write(field: Field<'_>, action: &Action) -> Reply
    requires write { is_get (action_view action.now) ≡ false }
    ensures { OfBody field.entry
        (IsFieldReply [] (action_view action.now) (reply_view result)) }
{
    match group_of(field) {
        Some(schema) => group_reply(schema, action),
        None => slot_reply(action, field.get_type()),
    }
}

/// Returns the reply at a path that ends at a field.
// Inlined, what it takes of the stack would be taken by each step of the path.
#[inline(never)]
pub(crate) fn field_end<A: ReaderArena>(
    alloc: Global,
    reader: dynamic_struct::Reader<'_, A>,
    field: Field<'_>,
    action: &Action,
) -> Result<Reply>
    requires parent { field.parent ≡ reader.schema }
    ensures replied { IfOk result (λ reply.
        OfField field.entry (struct_seen A.segments reader.entry.source)
        (IsFieldReply [] (action_view action.now) (reply_view reply))) }
    ensures memory { IfErr result (λ e. e.kind ≡ ErrorKind.OutOfMemory) }
{
    if is_get(action) {
        return shown_field(alloc, reader, field);
    }
    Ok(field_write(field, action))
}

/// Returns the reply at a path that ends at an element of a list.
// Inlined, what it takes of the stack would be taken by each step of the path.
#[inline(never)]
pub(crate) fn element_end<A: ReaderArena>(
    alloc: Global,
    list: dynamic_list::Reader<'_, A>,
    index: u32,
    action: &Action,
) -> Result<Reply>
    requires inside { index < (list_seen A.segments list.source).count }
    ensures replied { let l = list.entry in IfOk result (λ reply.
        RepliesAtElement (schema_of (nodes_of l.set.now)) (ty_of l.element_type)
        (list_seen A.segments l.source) index [] (action_view action.now) (reply_view reply)) }
    ensures memory { IfErr result (λ e. e.kind ≡ ErrorKind.OutOfMemory) }
{
    if is_get(action) {
        return shown_element(alloc, list, index);
    }
    Ok(element_reply(action, list.element_type()))
}
