//! Lists that calls make and that are too long for a message.
ghost use Rattle.std.specs.Prelude.{◌≡◌, ◌+◌, ◌↔◌, ◌^◌, ◌≤◌, ◌<◌, true, false};
ghost use Rattle.capnp_model.specs.Accepted.{schema_of};
ghost use Rattle.capnp_model.specs.Schemas.{words_of_shape, pointers_of_shape, Schema};
ghost use Rattle.capnp_model.specs.Calls.{set_to, new_list, initn_content, value_content, element_content};
ghost use Rattle.capnp_model.specs.Kinds.{Kind};
ghost use Rattle.capnp_records.specs.Sets.{nodes_of};
ghost use Rattle.capnp_values_queries.specs.Structs.{shape_of_struct};
ghost use Rattle.capnp_values_queries.specs.Types.{ty_of, is_type_of};
ghost use Rattle.capnp_calls.specs.CallViews.{action_view, slot_value_view};
ghost use Rattle.capnp_calls.specs.Ends.{end_view, IsEndOf};
ghost use Rattle.capnp_calls.specs.LongLists.{is_message, sets_message};
ghost use Rattle.capnp_calls.specs.Sizes.{list_len, content_len, end_content};

use crate::ends::End;
use crate::{Action, SlotValue};
use capnp_records::set::SchemaSet;
use capnp_units::limits::MOST_WORDS;
use capnp_values_queries::introspect::{Type, TypeVariant};
use capnp_values_queries::slots::FieldPlace;
use capnp_values_queries::structs::StructSchema;

/// Returns the number of words of the structs of a schema.
fn struct_words(schema: StructSchema<'_>) -> u64
    ensures words { let g = shape_of_struct schema.entry in
        result ≡ words_of_shape g + pointers_of_shape g }
    ensures few { result < 2 ^ 17 }
{
    let record = schema.record();
    record.data_word_count as u64 + record.pointer_count as u64
}

/// Returns the number of elements of a new list; for structs the number of words, if that is
/// greater.
fn elements_len(set: &SchemaSet, element: Type, count: u32) -> u64
    requires known { is_type_of (nodes_of set.now) element ≡ true }
    ensures { result ≡ list_len (new_list (schema_of (nodes_of set.now)) count (ty_of element)) }
{
    match element.which() {
        TypeVariant::Struct(raw) => {
            let words = struct_words(StructSchema::new(set, raw));
            (count as u64).max(count as u64 * words)
        }
        _ => count as u64,
    }
}

/// Returns the number of elements of the list that `initn` makes of a type, including a text's zero
/// byte; for structs the number of words, if that is greater. A type that is not a list has no
/// elements.
fn made_len(set: &SchemaSet, ty: Type, count: u32) -> u64
    requires known { is_type_of (nodes_of set.now) ty ≡ true }
    ensures { (k : Kind) → result
        ≡ content_len (initn_content (schema_of (nodes_of set.now)) count (ty_of ty) k) }
{
    match ty.which() {
        TypeVariant::Text => count as u64 + 1,
        TypeVariant::Data => count as u64,
        TypeVariant::List(element) => elements_len(set, element, count),
        TypeVariant::Void
        | TypeVariant::Bool
        | TypeVariant::Int8
        | TypeVariant::Int16
        | TypeVariant::Int32
        | TypeVariant::Int64
        | TypeVariant::UInt8
        | TypeVariant::UInt16
        | TypeVariant::UInt32
        | TypeVariant::UInt64
        | TypeVariant::Enum(_)
        | TypeVariant::Struct(_)
        | TypeVariant::AnyPointer
        | TypeVariant::Capability => 0,
    }
}

/// Returns whether `initn` makes a list of a type that is too long.
fn is_long_list(set: &SchemaSet, ty: Type, count: u32) -> bool
    requires known { is_type_of (nodes_of set.now) ty ≡ true }
    ensures { (k : Kind) → (result ≡ true) ↔ (2 ^ 29
        ≤ content_len (initn_content (schema_of (nodes_of set.now)) count (ty_of ty) k)) }
{
    made_len(set, ty, count) > MOST_WORDS as u64
}

/// Returns whether a value is a text or data to which a slot of a type can be set, and is too long.
fn is_long_value(value: &SlotValue, ty: Type) -> bool
    ensures long { is_message (slot_value_view value.now) ≡ false → (result ≡ true)
        ↔ (2 ^ 29 ≤ content_len (value_content (slot_value_view value.now) (ty_of ty))) }
    ensures message { is_message (slot_value_view value.now) ≡ true → result ≡ false }
{
    match value {
        SlotValue::Text(text) => match ty.which() {
            TypeVariant::Text | TypeVariant::AnyPointer => text.len() >= MOST_WORDS as usize,
            _ => false,
        },
        SlotValue::Data(bytes) => match ty.which() {
            TypeVariant::Data | TypeVariant::AnyPointer => bytes.len() > MOST_WORDS as usize,
            _ => false,
        },
        _ => false,
    }
}

/// Returns whether a value is a text or data to which an element of a type can be set, and is too
/// long.
fn is_long_element(value: &SlotValue, ty: Type) -> bool
    ensures long { (s : Schema) → is_message (slot_value_view value.now) ≡ false
        → (result ≡ true) ↔ (2 ^ 29 ≤ content_len
        (element_content s (set_to (slot_value_view value.now)) (ty_of ty))) }
    ensures message { is_message (slot_value_view value.now) ≡ true → result ≡ false }
{
    match ty.which() {
        TypeVariant::AnyPointer => false,
        _ => is_long_value(value, ty),
    }
}

/// Returns whether an action, if it is done, makes a list that is too long at the end of a path: a
/// text or data of 2^29 bytes or more including the last zero, or structs of 2^29 words or more.
pub(crate) fn puts_long_at(set: &SchemaSet, end: End<'_>, action: &Action) -> bool
    requires known { IsEndOf (nodes_of set.now) end }
    ensures long { sets_message (action_view action.now) ≡ false → (result ≡ true)
        ↔ (2 ^ 29 ≤ content_len (end_content (schema_of (nodes_of set.now))
        (action_view action.now) (end_view end.entry))) }
    ensures message { sets_message (action_view action.now) ≡ true → result ≡ false }
{
    match action {
        Action::Initn(count) => match end {
            End::Slot(FieldPlace::Pointer { ty, .. }) => is_long_list(set, ty, *count),
            End::Value(ty) => is_long_list(set, ty, *count),
            _ => false,
        },
        Action::Set(value) => match end {
            End::Slot(FieldPlace::Pointer { ty, .. }) => is_long_value(value, ty),
            End::Value(ty) => is_long_element(value, ty),
            _ => false,
        },
        Action::Get | Action::Init | Action::Clear => false,
    }
}
