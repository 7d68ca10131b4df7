//! Calls on large values: a mebibyte of data, and thousands of fields.

use crate::fault::Fault;
use crate::marks;
use crate::messages::{Segments, end, refusal};
use capnp_message::laws::built_segments_can_be_written;
use capnp_message::message::{Builder, DEFAULT_READER_OPTIONS, HeapAllocator};
use capnp_message::{serialize, serialize_packed};
use capnp_records::fault::SchemaFault;
use capnp_records::set::SchemaSet;
use capnp_relay_files::schema_file::schema_file;
use capnp_text::{data, text};
use capnp_units::errors::{Error, Result};
use capnp_units::kinds::ErrorKind;
use capnp_values::dynamic_value::Reader;
use capnp_values_print::stringify::print;
use std::alloc::Global;

/// The bytes of the data and of the text here, and the fields of the struct.
const SIZE: usize = 1 << 20;

const FIELDS: usize = 5000;

/// The numbers of bytes or words of a large message.
#[derive(Clone, Copy, Debug)]
struct Sizes {
    framed: usize,
    packed: usize,
    canonical: usize,
    read: usize,
    unpacked: usize,
}

/// Builds a message, writes it in both forms, and reads it again.
fn build(alloc: Global, bytes: &[u8], message: &mut Builder<HeapAllocator>) -> Result<Sizes> {
    message.set_root::<data::Owned, &[u8]>(bytes)?;
    if message.memory.arena.len() == 0 {
        return Err(Error::from(ErrorKind::OutOfBounds));
    }
    built_segments_can_be_written(message);
    let (mut framed, mut packed) = (Vec::new(alloc), Vec::new(alloc));
    serialize::write_message(alloc, &mut framed, message)?;
    serialize_packed::write_message(alloc, &mut packed, message)?;
    let options = DEFAULT_READER_OPTIONS;
    let read = serialize::read_message(alloc, &mut framed.as_slice(), options)?;
    let unpacked = serialize_packed::read_message(alloc, &mut packed.as_slice(), options)?;
    let canonical = read.canonicalize(alloc, &mut options.read_limiter())?;
    Ok(Sizes {
        framed: framed.len(),
        packed: packed.len(),
        canonical: canonical.len(),
        read: read.size_in_words(),
        unpacked: unpacked.size_in_words(),
    })
}

/// Builds a message of data, and returns its line.
fn told_of_message(rt: &HostRuntime) -> std::result::Result<String, Fault> {
    let alloc = rt.alloc();
    let bytes = vec![in alloc; b'a'; SIZE]?;
    let heap = HeapAllocator::new(alloc).first_segment_words(0x4_0000);
    let mut message = Builder::new(alloc, heap);
    marks::begin(rt);
    let sizes = build(alloc, &bytes, &mut message);
    marks::end(rt);
    end(message);
    match sizes {
        Ok(sizes) => Ok(format!(in alloc; "done; {sizes:?}")?),
        Err(error) => refusal(alloc, error),
    }
}

/// Prints a text, and returns its line.
fn told_of_text(rt: &HostRuntime) -> std::result::Result<String, Fault> {
    let alloc = rt.alloc();
    let bytes = vec![in alloc; b'a'; SIZE]?;
    let value: Reader<'_, Segments<'_>> = Reader::Text(text::Reader(&bytes));
    let mut out = Vec::new(alloc);
    marks::begin(rt);
    let done = print(value, false, &mut out);
    marks::end(rt);
    match done {
        Ok(()) => Ok(format!(in alloc; "done; {}", out.len())?),
        Err(error) => refusal(alloc, error),
    }
}

/// Makes a schema file of one struct, whose fields are bits.
fn schema(alloc: Global) -> std::result::Result<String, Fault> {
    let mut file = String::new(alloc);
    file.push_str(r#"[{"id":1,"name":"S","data":80,"pointers":0,"fields":["#)?;
    for index in 0..FIELDS {
        let comma = if index == 0 { "" } else { "," };
        let field = format!(in alloc;
            r#"{comma}{{"name":"f{index}","type":"Bool","offset":{index}}}"#
        )?;
        file.push_str(field.as_str())?;
    }
    file.push_str("]}]")?;
    Ok(file)
}

/// Makes the set of a large struct, and returns its line.
fn told_of_set(rt: &HostRuntime) -> std::result::Result<String, Fault> {
    let alloc = rt.alloc();
    let nodes = schema_file(alloc, schema(alloc)?.as_bytes())?;
    marks::begin(rt);
    let made = SchemaSet::new(nodes);
    marks::end(rt);
    match made {
        Ok(set) => Ok(format!(in alloc; "done; {}", set.nodes().len())?),
        Err(SchemaFault::Memory) => Ok(String::from_str(alloc, "refused Memory")?),
        Err(_) => Err(Fault::Unmade),
    }
}

/// Makes a case, and returns its line.
pub fn told(rt: &HostRuntime, call: &str) -> std::result::Result<String, Fault> {
    match call {
        "message" => told_of_message(rt),
        "text" => told_of_text(rt),
        "schema_set" => told_of_set(rt),
        _ => Err(Fault::NoCase),
    }
}
