//! Names, files and scopes of the nodes of a request.

ghost use Rattle.std.specs.Prelude.{◌≢◌};
ghost use Rattle.capnp_units.specs.Sizes.{size_number};
ghost use Rattle.capnp_wire.specs.Views.{seen_list};

use crate::reading::{struct_behind, structs_behind, text_behind};
use capnp_relay_bindings::scopes::{Declared, Scopes};
use capnp_wire::list::ListReader;
use capnp_wire::pointer::PointerReader;
use capnp_wire::structs::StructReader;
use capnp_wire_objects::arena::ReaderArena;
use std::alloc::{AllocError, Global};

/// The member of the union of nodes that is a file.
const FILE: u16 = 0;

/// The members that are a struct or a group, and an enum.
const STRUCT: u16 = 1;

const ENUM: u16 = 2;

/// Returns the whole name of a node, with its file's; empty if it can't be read.
pub(crate) fn whole_name<'a, A: ReaderArena>(node: &StructReader<'a, A>) -> &'a str {
    let Some(bytes) = text_behind(node.get_pointer_field(0)) else {
        return "";
    };
    str::from_utf8(bytes).unwrap_or("")
}

/// Returns the name of the file of a node, from its whole name; empty if the name has no file.
pub(crate) fn file_name<'a, A: ReaderArena>(node: &StructReader<'a, A>) -> &'a str {
    match whole_name(node).rsplit_once(':') {
        Some((file, _)) => file,
        None => "",
    }
}

/// Returns a name without its scopes: the part after the last point.
fn own_name(path: &str) -> &str {
    match path.rsplit_once('.') {
        Some((_, name)) => name,
        None => path,
    }
}

/// Returns the declaration of a node.
fn declaration<A: ReaderArena>(
    alloc: Global,
    node: &StructReader<'_, A>,
) -> Result<Declared, AllocError> {
    let whole = whole_name(node);
    let path = match whole.rsplit_once(':') {
        Some((_, path)) => path,
        None => whole,
    };
    let parameters = match structs_behind(node.get_pointer_field(5)) {
        Some(list) => list.len(),
        None => 0,
    };
    Ok(Declared {
        scope: node.get_data_field::<u64>(2),
        parameters,
        is_file: node.get_data_field::<u16>(6) == FILE,
        name: String::from_str(alloc, own_name(path))?,
        path: String::from_str(alloc, path)?,
    })
}

/// Returns the scopes of a request.
pub(crate) fn scopes_of<A: ReaderArena>(
    alloc: Global,
    nodes: &ListReader<'_, A>,
) -> Result<Scopes, AllocError>
    requires { size_number (seen_list A.segments nodes.now).size ≢ 1 }
{
    let mut scopes = Scopes::new(alloc);
    for i in 0..nodes.len() {
        let node = nodes.get_struct_element(i);
        let id = node.get_data_field::<u64>(0);
        scopes.declare(id, declaration(alloc, &node)?)?;
    }
    Ok(scopes)
}

/// Returns the id of the first file that the compiler was asked for; `None` if it was asked for no
/// file.
pub(crate) fn requested_file<A: ReaderArena>(arena: &A) -> Option<u64> {
    let root = PointerReader::get_root_from_arena(arena).ok()?;
    let request = struct_behind(root)?;
    let files = structs_behind(request.get_pointer_field(1))?;
    if files.len() == 0 {
        return None;
    }
    let file = files.get_struct_element(0);
    Some(file.get_data_field::<u64>(0))
}

/// Returns the ids of the structs that are directly in a file.
pub(crate) fn structs_in<A: ReaderArena>(
    alloc: Global,
    nodes: &ListReader<'_, A>,
    file: u64,
) -> Result<Vec<u64>, AllocError>
    requires { size_number (seen_list A.segments nodes.now).size ≢ 1 }
{
    let mut structs = Vec::new(alloc);
    for i in 0..nodes.len() {
        let node = nodes.get_struct_element(i);
        let is_struct = node.get_data_field::<u16>(6) == STRUCT && !node.get_bool_field(224);
        if is_struct && node.get_data_field::<u64>(2) == file {
            structs.push(node.get_data_field::<u64>(0))?;
        }
    }
    Ok(structs)
}

/// Returns the names of the files of the structs, groups and enums, in their order.
pub(crate) fn files_of<A: ReaderArena>(
    alloc: Global,
    nodes: &ListReader<'_, A>,
) -> Result<Vec<String>, AllocError>
    requires { size_number (seen_list A.segments nodes.now).size ≢ 1 }
{
    let mut files = Vec::new(alloc);
    for i in 0..nodes.len() {
        let node = nodes.get_struct_element(i);
        if matches!(node.get_data_field::<u16>(6), STRUCT | ENUM) {
            files.push(String::from_str(alloc, file_name(&node))?)?;
        }
    }
    Ok(files)
}
