//! Replies to `get`.
ghost use Rattle.std.specs.Prelude.{◌≡◌, ◌<◌, [], Some, IfOk, IfErr};
ghost use Rattle.capnp_units.specs.declared.kinds.ErrorKind.{ErrorKind};
ghost use Rattle.capnp_model.specs.Accepted.{schema_of};
ghost use Rattle.capnp_model.specs.Calls.{get};
ghost use Rattle.capnp_records.specs.Sets.{nodes_of};
ghost use Rattle.capnp_values_queries.specs.Types.{ty_of};
ghost use Rattle.capnp_values.specs.Shown.{shown};
ghost use Rattle.capnp_values.specs.Sources.{struct_seen, list_seen};
ghost use Rattle.capnp_calls.specs.Replies.{reply_view};
ghost use Rattle.capnp_calls_replies.specs.Parts.{RepliesAtElement, OfField, IsFieldReply};
ghost use Rattle.capnp_calls_replies.specs.Texts.{IsTextReply, RepliesText};
ghost use Rattle.capnp_model.specs.Printing.{on_one_line};
ghost use Rattle.capnp_values_queries.specs.Fields.{Entry};
ghost use Rattle.capnp_values_queries.specs.Handles.{entry_of_field};
ghost use Rattle.capnp_values_print.specs.Parts.{member_text};

use crate::active::is_active;
use capnp_calls::reply::Reply;
use capnp_units::errors::Result;
use capnp_units::kinds::ErrorKind;
use capnp_values::laws::{elements_are_read, pointers_are_read};
use capnp_values::{dynamic_list, dynamic_struct, dynamic_value};
use capnp_values_print::laws::{fields_are_models, wholes_are_read};
use capnp_values_print::stringify::{print, print_field};
use capnp_values_queries::fields::Field;
use capnp_wire_objects::arena::ReaderArena;
use std::alloc::Global;

/// Returns the text of a value on one line as a reply, or `UnreadablePointer` if the value has a
/// fault. The error is lack of memory.
fn text_reply<A: ReaderArena>(alloc: Global, value: dynamic_value::Reader<'_, A>) -> Result<Reply>
    ensures text { IfOk result (λ reply. IsTextReply (shown A.segments value.entry) reply) }
    ensures memory { IfErr result (λ e. e.kind ≡ ErrorKind.OutOfMemory) }
{
    let mut text = Vec::new(alloc);
    match print(value, false, &mut text) {
        Ok(()) => Ok(Reply::Text(text)),
        Err(e) if e.kind == ErrorKind::OutOfMemory => Err(e),
        Err(_) => Ok(Reply::Refused(ErrorKind::UnreadablePointer)),
    }
}

/// Returns the reply to `get` of an element of a list.
pub(crate) fn shown_element<A: ReaderArena>(
    alloc: Global,
    list: dynamic_list::Reader<'_, A>,
    index: u32,
) -> Result<Reply>
    requires { index < (list_seen A.segments list.source).count }
    ensures replied { let l = list.entry in IfOk result (λ reply.
        RepliesAtElement (schema_of (nodes_of l.set.now)) (ty_of l.element_type)
        (list_seen A.segments l.source) index [] get (reply_view reply)) }
    ensures memory { IfErr result (λ e. e.kind ≡ ErrorKind.OutOfMemory) }
{
    elements_are_read();
    pointers_are_read();
    wholes_are_read();
    match list.get(index) {
        Ok(value) => text_reply(alloc, value),
        Err(_) => Ok(Reply::Refused(ErrorKind::UnreadablePointer)),
    }
}

/// Returns the text of a field of a struct on one line as a reply, or `UnreadablePointer` if the
/// field has a fault. The error is lack of memory.
fn field_reply<A: ReaderArena>(
    alloc: Global,
    reader: dynamic_struct::Reader<'_, A>,
    field: Field<'_>,
) -> Result<Reply>
    requires { field.parent ≡ reader.schema }
    ensures text { let r = reader.entry in let v = struct_seen A.segments r.source in
        IfOk result (λ reply. (e : Entry) → entry_of_field field.entry ≡ Some e
        → RepliesText (member_text 64 on_one_line r.schema v e) reply) }
    ensures memory { IfErr result (λ e. e.kind ≡ ErrorKind.OutOfMemory) }
{
    let mut text = Vec::new(alloc);
    match print_field(reader, field, false, &mut text) {
        Ok(()) => Ok(Reply::Text(text)),
        Err(e) if e.kind == ErrorKind::OutOfMemory => Err(e),
        Err(_) => Ok(Reply::Refused(ErrorKind::UnreadablePointer)),
    }
}

/// Returns the reply to `get` of a field of a struct: a null pointer is shown as its default,
/// otherwise as the empty value.
pub(crate) fn shown_field<A: ReaderArena>(
    alloc: Global,
    reader: dynamic_struct::Reader<'_, A>,
    field: Field<'_>,
) -> Result<Reply>
    requires { field.parent ≡ reader.schema }
    ensures replied { IfOk result (λ reply.
        OfField field.entry (struct_seen A.segments reader.entry.source)
        (IsFieldReply [] get (reply_view reply))) }
    ensures memory { IfErr result (λ e. e.kind ≡ ErrorKind.OutOfMemory) }
{
    fields_are_models();
    if !is_active(reader, field) {
        return Ok(Reply::Refused(ErrorKind::InactiveMember));
    }
    field_reply(alloc, reader, field)
}
