//! The texts of structs and lists, level by level.
ghost use Rattle.std.specs.Prelude.{◌≡◌, Some};
ghost use Rattle.capnp_model.specs.Accepted.{schema_of};
ghost use Rattle.capnp_records.specs.Sets.{nodes_of};
ghost use Rattle.capnp_values_queries.specs.Types.{ty_of};
ghost use Rattle.capnp_values_queries.specs.Fields.{Entry};
ghost use Rattle.capnp_values_queries.specs.Structs.{schema_around, shape_of_struct};
ghost use Rattle.capnp_values_queries.specs.Handles.{entry_of_field};
ghost use Rattle.capnp_values.specs.Sources.{struct_seen, list_seen};
ghost use Rattle.capnp_values.specs.Shown.{a_struct, a_list, shown};
ghost use Rattle.capnp_values_print.specs.Texts.{style_of};
ghost use Rattle.capnp_values_print.specs.Printed.{shown_text};
ghost use Rattle.capnp_values_print.specs.Parts.{fields_text, member_text, elements_text, IsActive};
ghost use Rattle.capnp_values_print.specs.Answers.{Appends};

use crate::fields::{open_element, open_member};
use crate::members::{active_member, is_printed};
use crate::names::{inner, push_end, push_mark, push_name, push_single};
use crate::single::Indent;
use crate::slots::push_slot;
use capnp_units::errors::Result;
use capnp_values::dynamic_value::Reader;
use capnp_values::laws::nulls_are_read;
use capnp_values::{dynamic_list, dynamic_struct};
use capnp_values_queries::fields::{Field, FieldList};
use capnp_wire_objects::arena::ReaderArena;

/// Appends the text of a value; n defaults may be entered on the way.
#[cycle(text)]
pub(crate) fn push_value<A: ReaderArena>(
    value: Reader<'_, A>,
    indent: Indent,
    left: u32,
    out: &mut Vec<u8>,
) -> Result<()>
    ensures { Appends (shown_text left (style_of indent) (shown A.segments value.entry))
        out.old.items result out.new.items }
{
    match value {
        Reader::Struct(reader) => push_struct(reader, indent, left, out),
        Reader::List(list) => push_list(list, indent, left, out),
        _ => {
            push_single(out, value)?;
            Ok(())
        }
    }
}

/// Appends the text of a struct or a group.
#[cycle(text)]
fn push_struct<A: ReaderArena>(
    reader: dynamic_struct::Reader<'_, A>,
    indent: Indent,
    left: u32,
    out: &mut Vec<u8>,
) -> Result<()>
    ensures { let r = reader.entry in
        Appends (shown_text left (style_of indent)
        (a_struct (schema_around r.schema) (shape_of_struct r.schema)
        (struct_seen A.segments r.source))) out.old.items result out.new.items }
{
    let fields = reader.get_schema().get_fields()?;
    if fields.is_empty() {
        out.extend_from_slice(b"()")?;
        return Ok(());
    }
    out.push(b'(')?;
    push_fields(reader, fields, indent, left, out)?;
    push_end(out, indent, b')')?;
    Ok(())
}

/// Appends the fields of a struct that are printed, each after its mark and its name.
#[cycle(text)]
fn push_fields<A: ReaderArena>(
    reader: dynamic_struct::Reader<'_, A>,
    fields: FieldList<'_>,
    indent: Indent,
    left: u32,
    out: &mut Vec<u8>,
) -> Result<()>
    requires { fields.parent ≡ reader.schema }
    ensures { let r = reader.entry in
        Appends (fields_text left (style_of indent) r.schema (struct_seen A.segments r.source))
        out.old.items result out.new.items }
{
    let active = active_member(&reader)?;
    let deeper = inner(indent)?;
    let mut first = true;
    for i in 0..fields.len() {
        let field = fields.get(i);
        if !is_printed(&reader, &field, active)? {
            continue;
        }
        push_name(out, indent, first, field.get_proto().name.as_bytes())?;
        push_member(reader, field, deeper, left, out)?;
        first = false;
    }
    Ok(())
}

/// Appends the text of the value of a field that is not a union member, or is the active one; n
/// defaults may be entered. A null pointer is its default, which is entered, otherwise the empty
/// value.
// Inlined, since a frame of its own would be taken of the stack by each struct in another.
#[inline(always)]
#[cycle(text)]
pub(crate) fn push_member<A: ReaderArena>(
    reader: dynamic_struct::Reader<'_, A>,
    field: Field<'_>,
    indent: Indent,
    left: u32,
    out: &mut Vec<u8>,
) -> Result<()>
    requires parent { field.parent ≡ reader.schema }
    requires active { IsActive reader.schema (struct_seen A.segments reader.source) field }
    ensures { let r = reader.entry in
        (e : Entry) → entry_of_field field.entry ≡ Some e
        → Appends (member_text left (style_of indent) r.schema (struct_seen A.segments r.source)
        e) out.old.items result out.new.items }
{
    nulls_are_read();
    if push_slot(out, &reader, &field.get_proto().body)? {
        return Ok(());
    }
    let opened = open_member(&reader, &field, left)?;
    push_value(opened.value, indent, opened.left, out)
}

/// Appends the text of a list.
#[cycle(text)]
fn push_list<A: ReaderArena>(
    list: dynamic_list::Reader<'_, A>,
    indent: Indent,
    left: u32,
    out: &mut Vec<u8>,
) -> Result<()>
    ensures { let l = list.entry in
        Appends (shown_text left (style_of indent)
        (a_list (schema_of (nodes_of l.set.now)) (ty_of l.element_type)
        (list_seen A.segments l.source))) out.old.items result out.new.items }
{
    if list.is_empty() {
        out.extend_from_slice(b"[]")?;
        return Ok(());
    }
    out.push(b'[')?;
    push_elements(list, indent, left, out)?;
    push_end(out, indent, b']')?;
    Ok(())
}

/// Appends the elements of a list, each after its mark.
#[cycle(text)]
fn push_elements<A: ReaderArena>(
    list: dynamic_list::Reader<'_, A>,
    indent: Indent,
    left: u32,
    out: &mut Vec<u8>,
) -> Result<()>
    ensures { let l = list.entry in
        Appends (elements_text left (style_of indent) (schema_of (nodes_of l.set.now))
        (ty_of l.element_type) (list_seen A.segments l.source)) out.old.items result out.new.items }
{
    let deeper = inner(indent)?;
    for i in 0..list.len() {
        let value = open_element(&list, i)?;
        push_mark(out, indent, i == 0)?;
        push_value(value, deeper, left, out)?;
    }
    Ok(())
}
