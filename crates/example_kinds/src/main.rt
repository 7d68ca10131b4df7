//! Says of two messages whether their lists are in kind under a schema, so that what the relay
//! writes of them reads as the record that its calls make.
#![tactic(auto)]

use capnp_message::message::DEFAULT_READER_OPTIONS;
use capnp_message::serialize::read_message;
use capnp_records::set::SchemaSet;
use capnp_relay_files::schema_file::schema_file;
use capnp_relay_kinds::kinds::{Limits, first_out_of_kind, is_in_kind};
use capnp_relay_kinds::steps::OutOfKind;
use capnp_units::errors::Result;
use capnp_values_queries::laws::struct_is_node;
use capnp_values_queries::structs::StructSchema;
use std::alloc::Global;

/// A list of structs, in the form of schema files.
const SCHEMA: &str = r#"[{"id": 1, "name": "P", "data": 0, "pointers": 1, "fields": [
    {"name": "items", "type": {"list": {"struct": 2}}, "offset": 0}]},
    {"id": 2, "name": "Item", "data": 1, "pointers": 0, "fields": [
    {"name": "count", "type": "UInt8", "offset": 0}]}]"#;

/// A framed message with two structs in `items`: after the tag a word each, 5 and 6.
const STRUCTS: [u8; 48] = [
    0, 0, 0, 0, 5, 0, 0, 0, 0, 0, 0, 0, 0, 0, 1, 0, 1, 0, 0, 0, 23, 0, 0, 0, 8, 0, 0, 0, 1, 0, 0,
    0, 5, 0, 0, 0, 0, 0, 0, 0, 6, 0, 0, 0, 0, 0, 0, 0,
];

/// A message of a program whose schema still had a list of bytes there.
const BYTES: [u8; 32] = [
    0, 0, 0, 0, 3, 0, 0, 0, 0, 0, 0, 0, 0, 0, 1, 0, 1, 0, 0, 0, 18, 0, 0, 0, 5, 6, 0, 0, 0, 0, 0, 0,
];

/// The limits of each message.
const LIMITS: Limits = Limits {
    words: 1000,
    nesting: 64,
};

/// Makes the set of the schema's nodes; `None` if memory is lacking.
fn schema_set(alloc: Global) -> Option<SchemaSet> {
    let nodes = schema_file(alloc, SCHEMA.as_bytes()).ok()?;
    SchemaSet::new(nodes).ok()
}

/// Returns whether the lists of a message are in kind.
fn reads_as_made(alloc: Global, root: StructSchema<'_>, mut bytes: &[u8]) -> Result<bool> {
    let message = read_message(alloc, &mut bytes, DEFAULT_READER_OPTIONS)?;
    is_in_kind(alloc, &message, root, LIMITS)
}

/// Returns the first list of a message that isn't in kind.
fn first_list(
    alloc: Global,
    root: StructSchema<'_>,
    mut bytes: &[u8],
) -> Result<Option<OutOfKind>> {
    let message = read_message(alloc, &mut bytes, DEFAULT_READER_OPTIONS)?;
    first_out_of_kind(alloc, &message, root, LIMITS)
}

/// Returns a line about a message; `None` if memory is lacking.
fn line(alloc: Global, bytes: &[u8]) -> Option<String> {
    let set = schema_set(alloc)?;
    let raw = set.struct_by_id(1)?;
    struct_is_node();
    let root = StructSchema::new(&set, raw);
    let is_fine = reads_as_made(alloc, root, bytes).ok()?;
    match first_list(alloc, root, bytes).ok()? {
        None => format!(in alloc; "in kind: {is_fine}").ok(),
        Some(found) => {
            let (size, wanted) = (found.size, found.wanted);
            let steps = found.steps.len();
            format!(in alloc; "in kind: {is_fine}; {steps} step, {size:?} and not {wanted:?}").ok()
        }
    }
}

fn main(rt: HostRuntime) -> std::io::Result<()> {
    for bytes in [STRUCTS.as_slice(), BYTES.as_slice()] {
        match line(rt.alloc(), bytes) {
            Some(line) => println!(rt; "{line}")?,
            None => println!(rt; "no line")?,
        }
    }
    Ok(())
}
