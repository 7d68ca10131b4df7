//! Schemas, places of the roots of messages under them, and printed texts.
use capnp_layout::{Error, ErrorKind, ReaderArena, Result, StructPlace};
use capnp_message::message::{Builder, HeapAllocator, StructSize, root_of};
use capnp_relay::schema_file;
use capnp_schema::schema::StructSchema;
use capnp_schema::stringify::print;
use capnp_schema::{SchemaSet, dynamic_value};
use std::alloc::Global;
use std::test::Fail;

/// P (1): a UInt16, t Text. R (2): n UInt16 of default 5, e E, child P, items lists of P, words of
/// Text, any untyped, caps of capabilities, bytes Data, and a group g (3) of x UInt16. U (4): u and
/// v UInt16 in a union. E (7): red and green.
pub(crate) const SCHEMAS: &str = r#"[
    {"id": 1, "name": "P", "data": 1, "pointers": 1, "fields": [
        {"name": "a", "type": "UInt16", "offset": 0},
        {"name": "t", "type": "Text", "offset": 0}]},
    {"id": 2, "name": "R", "data": 1, "pointers": 6, "fields": [
        {"name": "n", "type": "UInt16", "offset": 0, "default": 5},
        {"name": "e", "type": {"enum": 7}, "offset": 1},
        {"name": "child", "type": {"struct": 1}, "offset": 0},
        {"name": "items", "type": {"list": {"struct": 1}}, "offset": 1},
        {"name": "words", "type": {"list": "Text"}, "offset": 2},
        {"name": "any", "type": "AnyPointer", "offset": 3},
        {"name": "caps", "type": {"list": "Capability"}, "offset": 4},
        {"name": "bytes", "type": "Data", "offset": 5},
        {"name": "g", "group": 3}]},
    {"id": 3, "name": "g", "data": 1, "pointers": 6, "group": true, "fields": [
        {"name": "x", "type": "UInt16", "offset": 2}]},
    {"id": 4, "name": "U", "data": 1, "pointers": 0, "union": 1, "fields": [
        {"name": "u", "discriminant": 0, "type": "UInt16", "offset": 0},
        {"name": "v", "discriminant": 1, "type": "UInt16", "offset": 0}]},
    {"id": 7, "name": "E", "enumerants": ["red", "green"]}]"#;

/// Makes the set of the nodes of a schema file.
pub(crate) fn set_of(alloc: Global, text: &str) -> std::result::Result<SchemaSet, Fail> {
    let nodes = schema_file(alloc, text.as_bytes())
        .ok()
        .ok_or("a schema file")?;
    Ok(SchemaSet::new(nodes)?)
}

/// Returns the struct of an id.
pub(crate) fn schema_of(set: &SchemaSet, id: u64) -> std::result::Result<StructSchema<'_>, Fail> {
    let raw = set.struct_or_group_by_id(id).ok_or("the struct")?;
    Ok(StructSchema::new(set, raw))
}

/// Begins a struct of a schema's sizes as the root, and returns its place.
pub(crate) fn begin(
    message: &mut Builder<HeapAllocator>,
    schema: StructSchema<'_>,
) -> Result<StructPlace> {
    let record = schema.record();
    let size = StructSize {
        data_words: record.data_word_count,
        pointers: record.pointer_count,
    };
    let mut fields = root_of(&mut message.memory)?.init_struct(size)?;
    Ok(fields.reborrow().place)
}

/// Returns the text of a value.
pub(crate) fn text_of<A: ReaderArena>(
    alloc: Global,
    value: dynamic_value::Reader<'_, A>,
) -> Result<String> {
    let mut text = Vec::new(alloc);
    print(value, false, &mut text)?;
    match String::from_utf8(text) {
        Ok(text) => Ok(text),
        Err(_) => Err(Error::from(ErrorKind::OutOfBounds)),
    }
}
