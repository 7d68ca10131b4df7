//! Requests as the schema compiler hands them to plugins.

ghost use Rattle.std.specs.Prelude.{◌≡◌, ◌≤◌, ◌-◌, ◌^◌, ℕ, List, length, IfOk};
ghost use Rattle.capnp_source_request.specs.Frames.{IsFramed};

use crate::faults::RequestFault;
use crate::frames::framed;
use crate::nodes::node_list;
use crate::objects::{parts, structs, text};
use crate::words::words_of;
use capnp_source_nodes::nodes::{Import, Request, RequestedFile};
use capnp_source_nodes::values::Object;
use std::alloc::Global;

/// The version of the compiler whose requests these are, 0.9.2: the minor number and the micro number.
const VERSION: u64 = 9 << 16 | 2 << 24;

/// The imports of a file as a list of `RequestedFile.Import`.
fn import_list(alloc: Global, imports: &[Import]) -> Result<Object, RequestFault> {
    let mut list = Vec::new(alloc);
    for import in imports {
        let name = text(alloc, import.name.as_bytes())?;
        list.push(parts(alloc, &[import.id], vec![in alloc; name]?)?)?;
    }
    Ok(structs(1, 1, list))
}

/// The files that were asked for as a list of `RequestedFile`.
fn file_list(alloc: Global, files: &[RequestedFile]) -> Result<Object, RequestFault> {
    let mut list = Vec::new(alloc);
    for file in files {
        let name = text(alloc, file.name.as_bytes())?;
        let imports = import_list(alloc, &file.imports)?;
        list.push(parts(alloc, &[file.id], vec![in alloc; name, imports]?)?)?;
    }
    Ok(structs(1, 2, list))
}

/// A request as a struct `CodeGeneratorRequest`.
fn request_object(alloc: Global, request: &Request) -> Result<Object, RequestFault> {
    let nodes = node_list(alloc, &request.nodes)?;
    let files = file_list(alloc, &request.files)?;
    let version = Object::Struct(parts(alloc, &[VERSION], Vec::new(alloc))?);
    let pointers = vec![in alloc; nodes, files, version, Object::Null]?;
    Ok(Object::Struct(parts(alloc, &[], pointers)?))
}

/// Returns a request as a message of one segment, in the framing of streams.
pub fn request(alloc: Global, request: &Request) -> Result<Vec<u8>, RequestFault>
    ensures { IfOk result (λ bytes. IsFramed bytes.items) }
{
    let object = request_object(alloc, request)?;
    let words = words_of(alloc, &object)?;
    framed(alloc, &words)
}
