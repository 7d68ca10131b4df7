//! Reads a message whose schema is known at run time: prints each field by its name, and the record
//! as a whole.
#![tactic(auto)]

use capnp_layout::{PointerReader, ReaderArena, Result};
use capnp_message::message::DEFAULT_READER_OPTIONS;
use capnp_message::serialize::read_message;
use capnp_relay::schema_file;
use capnp_schema::laws::struct_is_node;
use capnp_schema::schema::StructSchema;
use capnp_schema::stringify::print;
use capnp_schema::{SchemaSet, dynamic_struct, dynamic_value};
use std::alloc::Global;

/// A number with a default, a text and a number more, in the form of schema files.
const SCHEMA: &str = r#"[{"id": 1, "name": "P", "data": 1, "pointers": 1, "fields": [
    {"name": "a", "type": "UInt16", "offset": 0},
    {"name": "t", "type": "Text", "offset": 0},
    {"name": "n", "type": "UInt16", "offset": 1, "default": 5}]}]"#;

/// A framed message: `a` is 7, `t` is "hi", and `n` is its default.
const MESSAGE: [u8; 40] = [
    0, 0, 0, 0, 4, 0, 0, 0, 0, 0, 0, 0, 1, 0, 1, 0, 7, 0, 0, 0, 0, 0, 0, 0, 1, 0, 0, 0, 26, 0, 0,
    0, 104, 105, 0, 0, 0, 0, 0, 0,
];

/// Makes the set of the schema's nodes; `None` if memory is lacking.
fn schema_set(alloc: Global) -> Option<SchemaSet> {
    let nodes = schema_file(alloc, SCHEMA.as_bytes()).ok()?;
    SchemaSet::new(nodes).ok()
}

/// Writes a line for each field of a record: its name and its value.
fn fields<A: ReaderArena>(record: dynamic_struct::Reader<'_, A>, out: &mut Vec<u8>) -> Result<()> {
    for field in record.get_schema().get_fields()? {
        out.extend_from_slice(field.get_proto().name.as_bytes())?;
        out.extend_from_slice(b": ")?;
        print(record.get(field)?, false, out)?;
        out.push(b'\n')?;
    }
    Ok(())
}

/// Returns the fields of the message's root under the schema, and the record as a whole.
fn shown(alloc: Global, schema: StructSchema<'_>, mut bytes: &[u8]) -> Result<Vec<u8>> {
    let message = read_message(alloc, &mut bytes, DEFAULT_READER_OPTIONS)?;
    let mut limiter = DEFAULT_READER_OPTIONS.read_limiter();
    let root = PointerReader::get_root_from_arena(&message)?.get_struct(&mut limiter, None)?;
    let record = dynamic_struct::Reader::new(root, schema);
    let mut out = Vec::new(alloc);
    fields(record, &mut out)?;
    print(dynamic_value::Reader::Struct(record), false, &mut out)?;
    Ok(out)
}

/// Returns the text of the message; `None` if memory is lacking.
fn text(alloc: Global) -> Option<Vec<u8>> {
    let set = schema_set(alloc)?;
    let raw = set.struct_by_id(1)?;
    struct_is_node();
    shown(alloc, StructSchema::new(&set, raw), &MESSAGE).ok()
}

fn main(rt: HostRuntime) -> std::io::Result<()> {
    match text(rt.alloc()) {
        Some(text) => println!(rt; "{}", str::from_utf8(&text).unwrap_or("?")),
        None => println!(rt; "nothing was read"),
    }
}
