//! Names of the nodes of a schema.
ghost use Rattle.std.specs.Prelude.{◌≡◌, map, IfOk, string_bytes};
ghost use Rattle.capnp_records.specs.NodeViews.{node_kind, node_of};
ghost use Rattle.hagzimot_schemas.specs.Roots.{is_struct_sort, is_struct_kind, whole_name, names_view, names_of_node, names_of, hex_digit, number_spelled, id_of_word, spells, last_part, names_exactly, names_last};

use crate::nodes::short_name;
use capnp_records::node::{NodeBody, NodeRecord};
use std::alloc::{AllocError, Global};

/// The sort of a node.
#[derive(Clone, Copy, Debug, PartialEq, Eq)]
pub enum NodeSort {
    Struct,
    Group,
    Enum,
}

/// The names of a node.
#[derive(Debug, Drop)]
pub struct NodeName {
    pub id: u64,
    pub sort: NodeSort,
    /// The whole name, with the file's if the schema says it, as `shop.capnp:Box.Item`.
    pub whole: String,
    /// The name without the file's, as `Box.Item`.
    pub path: String,
}

/// Returns the sort of a node.
fn sort_of(node: &NodeRecord) -> NodeSort
    ensures { is_struct_sort result ≡ is_struct_kind (node_kind node.now.body) }
{
    match &node.body {
        NodeBody::Struct(body) => {
            if body.is_group {
                NodeSort::Group
            } else {
                NodeSort::Struct
            }
        }
        NodeBody::Enum(_) => NodeSort::Enum,
    }
}

/// Returns the whole name of a node of a file. If the file has no name, the node's name is the
/// whole name, with a file's name in it or not.
fn whole_name(alloc: Global, file: &str, name: &str) -> Result<String, AllocError>
    ensures { IfOk result (λ s. string_bytes s ≡ whole_name file.now name.now) }
{
    if file.is_empty() {
        return String::from_str(alloc, name);
    }
    let mut whole = String::from_str(alloc, file)?;
    whole.push_str(":")?;
    whole.push_str(name)?;
    Ok(whole)
}

/// Returns the names of a node of a file.
fn names_of_node(alloc: Global, node: &NodeRecord, file: &str) -> Result<NodeName, AllocError>
    ensures { IfOk result (λ n. names_view n ≡ names_of_node (node_of node.now) file.now) }
{
    Ok(NodeName {
        id: node.id,
        sort: sort_of(node),
        whole: whole_name(alloc, file, node.display_name.as_str())?,
        path: String::from_str(alloc, short_name(node))?,
    })
}

/// Returns the names of nodes. `files` has the names of their files in the same order, or is empty.
pub fn names_of(
    alloc: Global,
    nodes: &[NodeRecord],
    files: &[String],
) -> Result<Vec<NodeName>, AllocError>
    ensures { IfOk result (λ ns. map names_view ns.items
        ≡ names_of (map node_of nodes.now) (map string_bytes files.now)) }
{
    let mut names = Vec::new(alloc);
    let mut left = nodes;
    let mut files_left = files;
    while let [node, others @ ..] = left {
        match files_left {
            [file, further @ ..] => {
                names.push(names_of_node(alloc, node, file.as_str())?)?;
                files_left = further;
            }
            [] => names.push(names_of_node(alloc, node, "")?)?,
        }
        left = others;
    }
    Ok(names)
}

/// Returns the value of a hexadecimal digit, of either case.
fn hex_digit(byte: u8) -> Option<u64>
    ensures { result ≡ hex_digit byte }
{
    if byte >= b'0' && byte <= b'9' {
        Some((byte - b'0') as u64)
    } else if byte >= b'a' && byte <= b'f' {
        Some((byte - b'a' + 10) as u64)
    } else if byte >= b'A' && byte <= b'F' {
        Some((byte - b'A' + 10) as u64)
    } else {
        None
    }
}

/// Returns the number that digits spell in a base. Returns `None` if there are no digits, or if the
/// number has more than 64 bits.
fn number_spelled(base: u64, digits: &[u8]) -> Option<u64>
    ensures { result ≡ number_spelled base digits.now }
{
    if digits.is_empty() {
        return None;
    }
    let mut number: u64 = 0;
    let mut left = digits;
    while let [byte, others @ ..] = left {
        let digit = hex_digit(*byte)?;
        if digit >= base {
            return None;
        }
        number = number.checked_mul(base)?.checked_add(digit)?;
        left = others;
    }
    Some(number)
}

/// Returns the id that a word spells, in decimal digits, or in hexadecimal digits after `0x`.
pub fn id_of_word(word: &[u8]) -> Option<u64>
    ensures { result ≡ id_of_word word.now }
{
    match word {
        [b'0', b'x', hex @ ..] => number_spelled(16, hex),
        digits => number_spelled(10, digits),
    }
}

/// Tests whether a word spells an id.
fn spells(word: &[u8], id: u64) -> bool
    ensures { result ≡ spells word.now id }
{
    match id_of_word(word) {
        Some(number) => number == id,
        None => false,
    }
}

/// Returns the last part of a path: the bytes after its last point.
fn last_part(path: &[u8]) -> &[u8]
    ensures { result.now ≡ last_part path.now }
{
    let mut last = path;
    let mut left = path;
    while let [first, others @ ..] = left {
        if *first == b'.' {
            last = others;
        }
        left = others;
    }
    last
}

/// Tests whether a word is a node's id, its path, or its whole name.
pub fn names_exactly(word: &[u8], node: &NodeName) -> bool
    ensures { result ≡ names_exactly word.now (names_view node.now) }
{
    spells(word, node.id) || node.path.as_bytes() == word || node.whole.as_bytes() == word
}

/// Tests whether a word is the last part of a node's path. A path with arguments is named as a
/// whole.
pub fn names_last(word: &[u8], node: &NodeName) -> bool
    ensures { result ≡ names_last word.now (names_view node.now) }
{
    let path = node.path.as_bytes();
    !path.contains(&b'(') && last_part(path) == word
}
