//! Relays a message of a newer schema in memory. It sets a number that the older schema knows, and
//! shows the record that is written as programs of the newer schema read it.
#![tactic(auto)]

use capnp_relay::{
    Call, CallValue, Form, ReaderOptions, RelayOptions, Step, Verb, relay, schema_file, show,
};
use capnp_schema::SchemaSet;
use capnp_schema::laws::struct_is_node;
use capnp_schema::schema::StructSchema;
use std::alloc::Global;

/// The limits of each message: 1,000 words, and 64 levels of pointers.
const LIMITS: ReaderOptions = ReaderOptions {
    traversal_limit_in_words: Some(1000),
    nesting_limit: 64,
};

/// The schema that the relay knows, in the form of its schema file.
const OLDER: &str = r#"[{"id": 1, "name": "P", "data": 1, "pointers": 0, "fields": [
    {"name": "a", "type": "UInt16", "offset": 0}]}]"#;

/// The schema of the programs on both sides, which has one field more.
const NEWER: &str = r#"[{"id": 1, "name": "P", "data": 2, "pointers": 0, "fields": [
    {"name": "a", "type": "UInt16", "offset": 0},
    {"name": "b", "type": "UInt64", "offset": 1}]}]"#;

/// A framed message of the newer schema: `a` is 1 and `b` is 99.
const MESSAGE: [u8; 32] = [
    0, 0, 0, 0, 3, 0, 0, 0, 0, 0, 0, 0, 2, 0, 0, 0, 1, 0, 0, 0, 0, 0, 0, 0, 99, 0, 0, 0, 0, 0, 0, 0,
];

/// Makes the set of a schema's nodes; `None` if the text is not a schema, or if memory is lacking.
fn schema_set(alloc: Global, text: &str) -> Option<SchemaSet> {
    let nodes = schema_file(alloc, text.as_bytes()).ok()?;
    SchemaSet::new(nodes).ok()
}

/// Makes the call that sets `a` to 7.
fn set_a(alloc: Global) -> Option<Call> {
    let name = Step::Name(String::from_str(alloc, "a").ok()?);
    let path = vec![in alloc; name].ok()?;
    Call::new(alloc, path, Verb::Set, Some(CallValue::Number(7))).ok()
}

/// Returns the messages that the relay makes from those of the source, and its log.
fn relayed(alloc: Global, mut source: &[u8]) -> Option<(Vec<u8>, Vec<u8>)> {
    let set = schema_set(alloc, OLDER)?;
    let raw = set.struct_by_id(1)?;
    struct_is_node();
    let root = StructSchema::new(&set, raw);
    let calls = vec![in alloc; set_a(alloc)?].ok()?;
    let options = RelayOptions::new(Form::Framed, Form::Framed, LIMITS).ok()?;
    let mut region = vec![in alloc; 0u8; options.region_len()].ok()?;
    let (mut out, mut log) = (Vec::new(alloc), Vec::new(alloc));
    let counts = relay(
        alloc,
        &mut source,
        &mut out,
        &mut log,
        root,
        calls.as_slice(),
        options,
        &mut region,
    );
    counts.ok().map(|_| (out, log))
}

/// Returns the text of a message's record under the newer schema.
fn shown(alloc: Global, message: &[u8]) -> Option<Vec<u8>> {
    let set = schema_set(alloc, NEWER)?;
    let raw = set.struct_by_id(1)?;
    struct_is_node();
    show(alloc, message, StructSchema::new(&set, raw), LIMITS).ok()
}

fn main(rt: HostRuntime) -> std::io::Result<()> {
    let Some((out, log)) = relayed(rt.alloc(), &MESSAGE) else {
        return println!(rt; "nothing was relayed");
    };
    print!(rt; "{}", str::from_utf8(&log).unwrap_or("?"))?;
    match shown(rt.alloc(), &out) {
        Some(text) => println!(rt; "{}", str::from_utf8(&text).unwrap_or("?")),
        None => println!(rt; "nothing was written"),
    }
}
