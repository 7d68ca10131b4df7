//! Tests of values against the types of slots and elements.
ghost use Rattle.std.specs.Prelude.{◌≡◌, ◌≤◌, ◌<◌};
ghost use Rattle.capnp_model.specs.Schemas.{bool, int, uint, «enum», text, blob, untyped, struct, list};
ghost use Rattle.capnp_model.specs.Calls.{plain_content, value_content};
ghost use Rattle.capnp_values_queries.specs.Types.{ty_of};
ghost use Rattle.capnp_calls.specs.CallViews.{slot_value_view};
ghost use Rattle.capnp_calls.specs.Replies.{reply_view, content_reply};
ghost use Rattle.capnp_calls_replies.specs.Writes.{reply_by_type};

use crate::messages::{is_list, is_struct};
use capnp_calls::SlotValue;
use capnp_calls::number::{signed_bits, unsigned_bits};
use capnp_calls::reply::Reply;
use capnp_units::kinds::ErrorKind;
use capnp_values_queries::introspect::{Type, TypeVariant};

/// Returns `Done` if a value is of the type, otherwise `TypeMismatch`.
fn matching(fits: bool) -> Reply
    ensures { reply_view result ≡ reply_by_type fits }
{
    if fits {
        Reply::Done
    } else {
        Reply::Refused(ErrorKind::TypeMismatch)
    }
}

/// Returns whether a value is an unsigned number of n bits.
fn fits_unsigned(value: &SlotValue, width: u32) -> bool
    requires { width ≤ 64 }
    ensures { reply_by_type result
        ≡ content_reply (plain_content (uint width) (slot_value_view value.now)) }
{
    match value {
        SlotValue::Number(number) => unsigned_bits(*number, width).is_some(),
        SlotValue::Bool(_)
        | SlotValue::Enum(_)
        | SlotValue::Text(_)
        | SlotValue::Data(_)
        | SlotValue::Message(_) => false,
    }
}

/// Returns whether a value is a signed number of n bits.
fn fits_signed(value: &SlotValue, width: u32) -> bool
    requires some { 0 < width }
    requires most { width ≤ 64 }
    ensures { reply_by_type result
        ≡ content_reply (plain_content (int width) (slot_value_view value.now)) }
{
    match value {
        SlotValue::Number(number) => signed_bits(*number, width).is_some(),
        SlotValue::Bool(_)
        | SlotValue::Enum(_)
        | SlotValue::Text(_)
        | SlotValue::Data(_)
        | SlotValue::Message(_) => false,
    }
}

/// Returns whether a value is a truth value.
fn is_bool(value: &SlotValue) -> bool
    ensures { reply_by_type result
        ≡ content_reply (plain_content bool (slot_value_view value.now)) }
{
    matches!(value, SlotValue::Bool(_))
}

/// Returns whether a value is an enum's.
fn is_enum(value: &SlotValue, id: u64) -> bool
    ensures { reply_by_type result
        ≡ content_reply (plain_content («enum» id) (slot_value_view value.now)) }
{
    matches!(value, SlotValue::Enum(_))
}

/// Returns whether a value is a text.
fn is_text(value: &SlotValue) -> bool
    ensures { reply_by_type result
        ≡ content_reply (value_content (slot_value_view value.now) text) }
{
    matches!(value, SlotValue::Text(_))
}

/// Returns whether a value is data.
fn is_data(value: &SlotValue) -> bool
    ensures { reply_by_type result
        ≡ content_reply (value_content (slot_value_view value.now) blob) }
{
    matches!(value, SlotValue::Data(_))
}

/// Returns whether a value is a message that is a struct; null is the empty struct.
fn fits_struct(value: &SlotValue, id: u64) -> bool
    ensures { reply_by_type result
        ≡ content_reply (value_content (slot_value_view value.now) (struct id)) }
{
    match value {
        SlotValue::Message(kept) => is_struct(kept, id),
        SlotValue::Number(_)
        | SlotValue::Bool(_)
        | SlotValue::Enum(_)
        | SlotValue::Text(_)
        | SlotValue::Data(_) => false,
    }
}

/// Returns whether a value is a message that is a list of such elements.
fn fits_list(value: &SlotValue, element: Type) -> bool
    ensures { reply_by_type result
        ≡ content_reply (value_content (slot_value_view value.now) (list (ty_of element))) }
{
    match value {
        SlotValue::Message(kept) => is_list(kept, element),
        SlotValue::Number(_)
        | SlotValue::Bool(_)
        | SlotValue::Enum(_)
        | SlotValue::Text(_)
        | SlotValue::Data(_) => false,
    }
}

/// Returns the reply to a write of an untyped pointer, which takes texts, data and messages.
fn untyped_reply(value: &SlotValue) -> Reply
    ensures { reply_view result
        ≡ content_reply (value_content (slot_value_view value.now) untyped) }
{
    match value {
        SlotValue::Text(_) | SlotValue::Data(_) | SlotValue::Message(_) => Reply::Done,
        SlotValue::Number(_) | SlotValue::Bool(_) | SlotValue::Enum(_) => {
            Reply::Refused(ErrorKind::CannotSetAnyPointerFieldToAPrimitiveValue)
        }
    }
}

/// Returns the reply to a write at values of the type: Void takes any value, a number only those in
/// its range.
pub(crate) fn value_reply(value: &SlotValue, ty: Type) -> Reply
    ensures { reply_view result
        ≡ content_reply (value_content (slot_value_view value.now) (ty_of ty)) }
{
    match ty.which() {
        TypeVariant::Void => Reply::Done,
        TypeVariant::Bool => matching(is_bool(value)),
        TypeVariant::Int8 => matching(fits_signed(value, 8)),
        TypeVariant::Int16 => matching(fits_signed(value, 16)),
        TypeVariant::Int32 => matching(fits_signed(value, 32)),
        TypeVariant::Int64 => matching(fits_signed(value, 64)),
        TypeVariant::UInt8 => matching(fits_unsigned(value, 8)),
        TypeVariant::UInt16 => matching(fits_unsigned(value, 16)),
        TypeVariant::UInt32 => matching(fits_unsigned(value, 32)),
        TypeVariant::UInt64 => matching(fits_unsigned(value, 64)),
        TypeVariant::Enum(raw) => matching(is_enum(value, raw.id)),
        TypeVariant::Text => matching(is_text(value)),
        TypeVariant::Data => matching(is_data(value)),
        TypeVariant::Struct(raw) => matching(fits_struct(value, raw.id)),
        TypeVariant::List(element) => matching(fits_list(value, element)),
        TypeVariant::AnyPointer => untyped_reply(value),
        TypeVariant::Capability => {
            Reply::Refused(ErrorKind::SettingDynamicCapabilitiesIsUnsupported)
        }
    }
}
