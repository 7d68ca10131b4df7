//! Replies to writes of groups.
ghost use Rattle.std.specs.Prelude.{◌≡◌, false};
ghost use Rattle.capnp_model.specs.Readings.{Reading};
ghost use Rattle.capnp_model.specs.Schemas.{group_slot};
ghost use Rattle.capnp_model.specs.Calls.{message};
ghost use Rattle.capnp_model.specs.Steps.{set_group, at_field};
ghost use Rattle.capnp_model.specs.Answers.{reply_of};
ghost use Rattle.capnp_values_queries.specs.Structs.{schema_around, shape_of_struct};
ghost use Rattle.capnp_calls.specs.Messages.{tree_of_message};
ghost use Rattle.capnp_calls.specs.CallViews.{slot_value_view, action_view};
ghost use Rattle.capnp_calls.specs.Replies.{reply_view};
ghost use Rattle.capnp_model.specs.Printing.{as_it_is};
ghost use Rattle.capnp_calls_replies.specs.Writes.{is_get};

use crate::faults::group_fault;
use crate::messages::{kept, struct_in};
use capnp_calls::message::MessageValue;
use capnp_calls::reply::Reply;
use capnp_calls::{Action, SlotValue};
use capnp_units::kinds::ErrorKind;
use capnp_values_queries::structs::StructSchema;

/// Returns the reply to `set` of a group to the value of a message: its first fault as a struct
/// under the group's schema; null is the empty struct.
fn message_reply(schema: StructSchema<'_>, value: &MessageValue) -> Reply
    ensures { let s = schema_around schema.entry in
        reply_view result
        ≡ reply_of s as_it_is
        (set_group s (shape_of_struct schema.entry) (message (tree_of_message value.now))) }
{
    let arena = kept(value);
    let Some(source) = struct_in(&arena) else {
        return Reply::Refused(ErrorKind::NotAStruct);
    };
    match group_fault(source, schema) {
        Some(kind) => Reply::Refused(kind),
        None => Reply::Done,
    }
}

/// Returns the reply to `set` of a group: groups are set to structs.
fn set_reply(schema: StructSchema<'_>, value: &SlotValue) -> Reply
    ensures { let s = schema_around schema.entry in
        reply_view result
        ≡ reply_of s as_it_is
        (set_group s (shape_of_struct schema.entry) (slot_value_view value.now)) }
{
    match value {
        SlotValue::Message(kept) => message_reply(schema, kept),
        SlotValue::Number(_)
        | SlotValue::Bool(_)
        | SlotValue::Enum(_)
        | SlotValue::Text(_)
        | SlotValue::Data(_) => Reply::Refused(ErrorKind::NotAStruct),
    }
}

/// Returns the reply to a write of a group.
pub(crate) fn group_reply(schema: StructSchema<'_>, action: &Action) -> Reply
    requires { is_get (action_view action.now) ≡ false }
    ensures { let s = schema_around schema.entry in (r : Reading)
        → reply_view result
        ≡ reply_of s as_it_is
        (at_field s (action_view action.now) (group_slot (shape_of_struct schema.entry)) r) }
{
    match action {
        Action::Set(value) => set_reply(schema, value),
        Action::Initn(_) => Reply::Refused(ErrorKind::InitnIsOnlyValidForListTextOrDataFields),
        Action::Init | Action::Clear => Reply::Done,
        Action::Get => unreachable!(),
    }
}
