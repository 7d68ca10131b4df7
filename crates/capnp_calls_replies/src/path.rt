//! Replies along the path of a call.
ghost use Rattle.std.specs.Prelude.{◌≡◌, ◌<◌, IfOk, IfErr, map};
ghost use Rattle.capnp_units.specs.declared.kinds.ErrorKind.{ErrorKind};
ghost use Rattle.capnp_records.specs.Sets.{nodes_of};
ghost use Rattle.capnp_model.specs.Accepted.{schema_of};
ghost use Rattle.capnp_values_queries.specs.Types.{ty_of};
ghost use Rattle.capnp_values_queries.specs.Structs.{schema_around, shape_of_struct};
ghost use Rattle.capnp_values.specs.Shown.{shown};
ghost use Rattle.capnp_values.specs.Sources.{struct_seen, list_seen};
ghost use Rattle.capnp_calls.specs.CallViews.{step_view, action_view};
ghost use Rattle.capnp_calls.specs.Replies.{reply_view};
ghost use Rattle.capnp_calls.specs.Ways.{IsWay};
ghost use Rattle.capnp_calls_replies.specs.Parts.{IsWayIn, RepliesBehind, RepliesAtStruct, RepliesAtList, RepliesAtElement, OfField, IsFieldReply};

use crate::active::is_active;
use crate::ends::{element_end, field_end};
use capnp_calls::find::{FoundField, find_field, rest_of_way};
use capnp_calls::reply::Reply;
use capnp_calls::steps::{first_index, first_name};
use capnp_calls::{Action, Step};
use capnp_units::errors::Result;
use capnp_units::kinds::ErrorKind;
use capnp_values::laws::{elements_are_read, records_are_read};
use capnp_values::{dynamic_list, dynamic_struct, dynamic_value};
use capnp_values_queries::fields::Field;
use capnp_wire_objects::arena::ReaderArena;
use std::alloc::Global;

/// Returns the reply along a path at a struct or a group.
#[cycle(path)]
pub(crate) fn at_struct<A: ReaderArena>(
    alloc: Global,
    reader: dynamic_struct::Reader<'_, A>,
    path: &[Step],
    way: &[FoundField],
    action: &Action,
) -> Result<Reply>
    requires way { IsWay (schema_around reader.schema) (map step_view path.now) way.now }
    ensures replied { let r = reader.entry in IfOk result (λ reply.
        RepliesAtStruct (schema_around r.schema) (shape_of_struct r.schema)
        (struct_seen A.segments r.source) (map step_view path.now) (action_view action.now)
        (reply_view reply)) }
    ensures memory { IfErr result (λ e. e.kind ≡ ErrorKind.OutOfMemory) }
{
    let Some((name, rest)) = first_name(path) else {
        return Ok(Reply::Refused(ErrorKind::WrongStep));
    };
    match find_field(reader.get_schema(), name, way) {
        Ok(Some(field)) => at_field(alloc, reader, field, rest, rest_of_way(way), action),
        Ok(None) => Ok(Reply::Refused(ErrorKind::FieldNotFound)),
        Err(e) => Err(e),
    }
}

/// Returns the reply along the rest of a path at a field of a struct or a group.
#[cycle(path)]
fn at_field<A: ReaderArena>(
    alloc: Global,
    reader: dynamic_struct::Reader<'_, A>,
    field: Field<'_>,
    rest: &[Step],
    way: &[FoundField],
    action: &Action,
) -> Result<Reply>
    requires parent { field.parent ≡ reader.schema }
    requires way { IsWay (schema_around field.parent) (map step_view rest.now) way.now }
    ensures replied { IfOk result (λ reply.
        OfField field.entry (struct_seen A.segments reader.entry.source)
        (IsFieldReply (map step_view rest.now) (action_view action.now) (reply_view reply))) }
    ensures memory { IfErr result (λ e. e.kind ≡ ErrorKind.OutOfMemory) }
{
    records_are_read();
    if rest.is_empty() {
        return field_end(alloc, reader, field, action);
    }
    if !is_active(reader, field) {
        return Ok(Reply::Refused(ErrorKind::InactiveMember));
    }
    match reader.get(field) {
        Ok(value) => behind(alloc, value, rest, way, action),
        Err(_) => Ok(Reply::Refused(ErrorKind::UnreadablePointer)),
    }
}

/// Returns the reply along the rest of a path, which has a step, at a value.
#[cycle(path)]
fn behind<A: ReaderArena>(
    alloc: Global,
    value: dynamic_value::Reader<'_, A>,
    path: &[Step],
    way: &[FoundField],
    action: &Action,
) -> Result<Reply>
    requires way { IsWayIn (shown A.segments value) (map step_view path.now) way.now }
    ensures replied { IfOk result (λ reply.
        RepliesBehind (shown A.segments value.entry) (map step_view path.now)
        (action_view action.now) (reply_view reply)) }
    ensures memory { IfErr result (λ e. e.kind ≡ ErrorKind.OutOfMemory) }
{
    match value {
        dynamic_value::Reader::Struct(inner) => at_struct(alloc, inner, path, way, action),
        dynamic_value::Reader::List(list) => at_list(alloc, list, path, way, action),
        dynamic_value::Reader::Void
        | dynamic_value::Reader::Bool(_)
        | dynamic_value::Reader::Int8(_)
        | dynamic_value::Reader::Int16(_)
        | dynamic_value::Reader::Int32(_)
        | dynamic_value::Reader::Int64(_)
        | dynamic_value::Reader::UInt8(_)
        | dynamic_value::Reader::UInt16(_)
        | dynamic_value::Reader::UInt32(_)
        | dynamic_value::Reader::UInt64(_)
        | dynamic_value::Reader::Enum(_)
        | dynamic_value::Reader::Text(_)
        | dynamic_value::Reader::Data(_)
        | dynamic_value::Reader::AnyPointer(_)
        | dynamic_value::Reader::Capability(_) => Ok(Reply::Refused(ErrorKind::WrongStep)),
    }
}

/// Returns the reply along the rest of a path, which has a step, at a list.
#[cycle(path)]
fn at_list<A: ReaderArena>(
    alloc: Global,
    list: dynamic_list::Reader<'_, A>,
    path: &[Step],
    way: &[FoundField],
    action: &Action,
) -> Result<Reply>
    requires way { IsWay (schema_of (nodes_of list.set.now)) (map step_view path.now) way.now }
    ensures replied { let l = list.entry in IfOk result (λ reply.
        RepliesAtList (schema_of (nodes_of l.set.now)) (ty_of l.element_type)
        (list_seen A.segments l.source) (map step_view path.now) (action_view action.now)
        (reply_view reply)) }
    ensures memory { IfErr result (λ e. e.kind ≡ ErrorKind.OutOfMemory) }
{
    elements_are_read();
    let Some((index, rest)) = first_index(path) else {
        return Ok(Reply::Refused(ErrorKind::WrongStep));
    };
    if index < list.len() {
        at_element(alloc, list, index, rest, way, action)
    } else {
        Ok(Reply::Refused(ErrorKind::IndexOutOfRange))
    }
}

/// Returns the reply along the rest of a path at an element of a list.
#[cycle(path)]
fn at_element<A: ReaderArena>(
    alloc: Global,
    list: dynamic_list::Reader<'_, A>,
    index: u32,
    rest: &[Step],
    way: &[FoundField],
    action: &Action,
) -> Result<Reply>
    requires inside { index < (list_seen A.segments list.source).count }
    requires way { IsWay (schema_of (nodes_of list.set.now)) (map step_view rest.now) way.now }
    ensures replied { let l = list.entry in IfOk result (λ reply.
        RepliesAtElement (schema_of (nodes_of l.set.now)) (ty_of l.element_type)
        (list_seen A.segments l.source) index (map step_view rest.now) (action_view action.now)
        (reply_view reply)) }
    ensures memory { IfErr result (λ e. e.kind ≡ ErrorKind.OutOfMemory) }
{
    elements_are_read();
    if rest.is_empty() {
        return element_end(alloc, list, index, action);
    }
    match list.get(index) {
        Ok(value) => behind(alloc, value, rest, way, action),
        Err(_) => Ok(Reply::Refused(ErrorKind::UnreadablePointer)),
    }
}
