//! Checks of calls against a schema, before a record is read.
ghost use Rattle.std.specs.Prelude.{◌≡◌, true, IfSome};
ghost use Rattle.capnp_model.specs.Accepted.{schema_of};
ghost use Rattle.capnp_model.specs.Calls.{element_content};
ghost use Rattle.capnp_model.specs.InKindCalls.{at_slot, at_value, end_at, step_into, next_end};
ghost use Rattle.capnp_model.specs.Schemas.{Schema};
ghost use Rattle.capnp_model.specs.Steps.{target_of};
ghost use Rattle.capnp_records.specs.Sets.{nodes_of};
ghost use Rattle.capnp_values_queries.specs.Structs.{nodes_around, schema_around, id_of, fields_of_struct};
ghost use Rattle.capnp_values_queries.specs.Types.{ty_of, is_type_of};
ghost use Rattle.capnp_calls.specs.CallViews.{step_view, action_view, call_view};
ghost use Rattle.capnp_calls.specs.Replies.{reply_view};
ghost use Rattle.capnp_calls_replies.specs.Checks.{can_take, takes_at, is_done_reply, end_of_field, end_view, reached_end, IsEndOf};

use crate::ends::{element_reply, group_of, is_get, slot_reply};
use crate::groups::group_reply;
use capnp_calls::reply::Reply;
use capnp_calls::{Action, Call, Step};
use capnp_records::set::SchemaSet;
use capnp_values_queries::fields::Field;
use capnp_values_queries::introspect::{Type, TypeVariant};
use capnp_values_queries::slots::FieldPlace;
use capnp_values_queries::structs::StructSchema;

/// Where a path leads.
#[derive(Clone, Copy)]
enum End<'a> {
    /// To a field.
    Field(Field<'a>),
    /// To a value of a type: the root, or an element of a list.
    Value(Type),
}

/// Returns where a name leads from a struct or a group.
fn field_named<'a>(schema: StructSchema<'a>, name: &str) -> Option<End<'a>>
    ensures end { reached_end result ≡ end_at (target_of name.now (fields_of_struct schema.entry)) }
    ensures of_set { IfSome result (IsEndOf (nodes_around schema.entry)) }
{
    match schema.get_field_by_name(name) {
        Ok(field) => Some(End::Field(field)),
        Err(_) => None,
    }
}

/// Returns where a step leads from a value of a type.
fn step_into<'a>(set: &'a SchemaSet, step: &Step, ty: Type) -> Option<End<'a>>
    requires known { is_type_of (nodes_of set.now) ty ≡ true }
    ensures end { reached_end result
        ≡ step_into (schema_of (nodes_of set.now)) (step_view step.now) (ty_of ty) }
    ensures of_set { IfSome result (IsEndOf (nodes_of set.now)) }
{
    match (step, ty.which()) {
        (Step::Name(name), TypeVariant::Struct(raw)) => {
            field_named(StructSchema::new(set, raw), name)
        }
        (Step::Index(_), TypeVariant::List(element)) => Some(End::Value(element)),
        _ => None,
    }
}

/// Returns where a step leads; `None` if it leads nowhere.
fn next_end<'a>(set: &'a SchemaSet, step: &Step, end: End<'a>) -> Option<End<'a>>
    requires known { IsEndOf (nodes_of set.now) end }
    ensures end { reached_end result
        ≡ next_end (schema_of (nodes_of set.now)) (step_view step.now) (end_view end.entry) }
    ensures of_set { IfSome result (IsEndOf (nodes_of set.now)) }
{
    match (step, end) {
        (Step::Name(name), End::Field(field)) => match group_of(field) {
            Some(group) => field_named(group, name),
            None => step_into(set, step, field.get_type()),
        },
        (Step::Index(_), End::Field(field)) => step_into(set, step, field.get_type()),
        (_, End::Value(ty)) => step_into(set, step, ty),
    }
}

/// Returns whether a reply is that of a write that is done.
fn is_done(reply: &Reply) -> bool
    ensures { result ≡ is_done_reply (reply_view reply.now) }
{
    matches!(reply, Reply::Done)
}

/// Returns whether an action at a field is taken.
fn field_takes(field: Field<'_>, action: &Action) -> bool
    ensures { result ≡ takes_at (schema_around field.entry.parent) (action_view action.now)
        (end_of_field field.entry) }
{
    match field.place() {
        FieldPlace::Group { schema } => {
            if is_get(action) {
                return true;
            }
            is_done(&group_reply(schema, action))
        }
        _ => is_done(&slot_reply(action, field.get_type())),
    }
}

/// Returns whether an action at a value of a type is taken.
fn element_takes(ty: Type, action: &Action) -> bool
    ensures { (s : Schema) → result ≡ takes_at s (action_view action.now) (at_value (ty_of ty)) }
{
    if is_get(action) {
        return true;
    }
    is_done(&element_reply(action, ty))
}

/// Returns whether some record takes a call under a schema: its path leads to a field or an element
/// there, and its action, with its value, is done at some of them. If not, every record refuses the
/// call (`laws::calls_that_records_take`).
///
/// It takes no memory. It takes stack for each group within a group that is set.
pub fn could_be_taken(root: StructSchema<'_>, call: &Call) -> bool
    ensures { result ≡ can_take (schema_around root.entry) (id_of root.entry) (call_view call.now) }
{
    let path = call.path();
    let mut end = End::Value(Type::from(TypeVariant::Struct(root.raw())));
    for step in path {
        match next_end(root.set(), step, end) {
            Some(next) => end = next,
            None => return false,
        }
    }
    match end {
        End::Field(field) => field_takes(field, call.action()),
        End::Value(ty) => element_takes(ty, call.action()),
    }
}
