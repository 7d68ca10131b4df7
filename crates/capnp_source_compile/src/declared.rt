//! Checks of nodes against what files declare.

ghost use Rattle.std.specs.Prelude.{◌≡◌, Some, nat_eq, map, All, IfOk, IsTrue, string_bytes};
ghost use Rattle.std.specs.HashMap.{get, IsFromIterResult};
ghost use Rattle.capnp_source_compile.specs.Declarations.{kind_of, id_in, declared_in, declared_in_all, declared_by, declared_by_asked};
ghost use Rattle.capnp_source_compile.specs.Requests.{kind_of_node, node_key};

use capnp_source_ids::ids::child_id;
use capnp_source_names::entries::Kind;
use capnp_source_names::sources::Loaded;
use capnp_source_nodes::nodes::{Node, NodeBody};
use capnp_source_syntax::tree::{Body, Declaration, Number};
use std::alloc::{AllocError, Global};
use std::collections::HashMap;

/// Returns the kind of a node.
fn kind_of_node(body: &NodeBody) -> Kind
    ensures { result ≡ kind_of_node body.now }
{
    match body {
        NodeBody::File => Kind::File,
        NodeBody::Struct(_) => Kind::Struct,
        NodeBody::Enum(_) => Kind::Enum,
        NodeBody::Interface(_) => Kind::Interface,
        NodeBody::Constant { .. } => Kind::Constant,
        NodeBody::Annotation { .. } => Kind::Annotation,
    }
}

/// Returns the kind of node that a declaration is, if it is one.
fn kind_of(body: &Body) -> Option<Kind>
    ensures { result ≡ kind_of body.now }
{
    match body {
        Body::Constant { .. } => Some(Kind::Constant),
        Body::Enum => Some(Kind::Enum),
        Body::Struct { .. } => Some(Kind::Struct),
        Body::Interface { .. } => Some(Kind::Interface),
        Body::Annotation { .. } => Some(Kind::Annotation),
        Body::Using { .. }
        | Body::Enumerant { .. }
        | Body::Field { .. }
        | Body::Union { .. }
        | Body::Group
        | Body::Method { .. } => None,
    }
}

/// Returns the id of a declaration in a scope.
fn id_in(scope: u64, id: &Option<Number>, name: &str) -> u64
    ensures { result ≡ id_in scope id.now name.now }
{
    match id {
        Some(number) => number.value,
        None => child_id(scope, name.as_bytes()),
    }
}

/// Returns the kinds of nodes and the ids of their scopes, by their ids.
pub(crate) fn kinds_of(
    alloc: Global,
    nodes: &[Node],
) -> Result<HashMap<u64, (Kind, u64)>, AllocError>
    ensures { IfOk result (IsFromIterResult nat_eq (map node_key nodes.now)) }
{
    nodes
        .iter()
        .map(|node| (node.id, (kind_of_node(&node.body), node.scope)))
        .collect(alloc)
}

/// Whether there is a node of a kind with an id in a scope.
fn has(nodes: &HashMap<u64, (Kind, u64)>, id: u64, kind: Kind, scope: u64) -> bool
    ensures { IsTrue result → get nat_eq nodes.now id ≡ Some (kind, scope) }
{
    match nodes.get(&id) {
        Some((found, around)) => *found == kind && *around == scope,
        None => false,
    }
}

/// Whether a declaration in a scope, and what is declared in it, are among nodes.
#[cycle(declarations)]
fn is_there(declaration: &Declaration, nodes: &HashMap<u64, (Kind, u64)>, scope: u64) -> bool
    ensures { IsTrue result
        → All (λ d. get nat_eq nodes.now d.0 ≡ Some d.1) (declared_in declaration.now scope) }
{
    let Some(kind) = kind_of(&declaration.body) else {
        return true;
    };
    let Some(name) = &declaration.name else {
        return true;
    };
    let id = id_in(scope, &declaration.id, name.text.as_str());
    has(nodes, id, kind, scope) && are_there(&declaration.members, nodes, id)
}

/// Whether declarations in a scope, and what is declared in them, are among nodes.
#[cycle(declarations)]
fn are_there(declarations: &[Declaration], nodes: &HashMap<u64, (Kind, u64)>, scope: u64) -> bool
    ensures { IsTrue result
        → All (λ d. get nat_eq nodes.now d.0 ≡ Some d.1) (declared_in_all scope declarations.now) }
{
    for declaration in declarations {
        if !is_there(declaration, nodes, scope) {
            return false;
        }
    }
    true
}

/// Whether a file and what it declares are among nodes.
fn is_file_there(file: &Loaded, nodes: &HashMap<u64, (Kind, u64)>) -> bool
    ensures { IsTrue result
        → All (λ d. get nat_eq nodes.now d.0 ≡ Some d.1) (declared_by file.now) }
{
    let Some(number) = &file.file.id else {
        return true;
    };
    let id = number.value;
    has(nodes, id, Kind::File, 0) && are_there(&file.file.declarations, nodes, id)
}

/// Whether the files that are asked for, and what they declare, are among nodes.
pub(crate) fn are_files_there(files: &[Loaded], nodes: &HashMap<u64, (Kind, u64)>) -> bool
    ensures { IsTrue result
        → All (λ d. get nat_eq nodes.now d.0 ≡ Some d.1) (declared_by_asked files.now) }
{
    let mut left = files;
    while let [file, others @ ..] = left {
        if file.is_requested && !is_file_there(file, nodes) {
            return false;
        }
        left = others;
    }
    true
}
