//! The nodes of ids.

ghost use Rattle.std.specs.Prelude.{◌≡◌};
ghost use Rattle.capnp_model.specs.Accepted.{is_group_node, is_struct_node, is_enum_node, names_a};
ghost use Rattle.capnp_records.specs.Listed.{listed};
ghost use Rattle.capnp_records.specs.NodeViews.{node_of};

use crate::node::{NodeBody, NodeRecord};
use crate::nodes::Nodes;

pub(crate) fn is_group(node: &NodeRecord) -> bool
    ensures { result ≡ is_group_node (node_of node.now) }
{
    match &node.body {
        NodeBody::Struct(record) => record.is_group,
        NodeBody::Enum(_) => false,
    }
}

/// Returns whether the node is a struct that is not a group.
pub(crate) fn is_struct(node: &NodeRecord) -> bool
    ensures { result ≡ is_struct_node (node_of node.now) }
{
    match &node.body {
        NodeBody::Struct(record) => !record.is_group,
        NodeBody::Enum(_) => false,
    }
}

fn is_enum(node: &NodeRecord) -> bool
    ensures { result ≡ is_enum_node (node_of node.now) }
{
    matches!(node.body, NodeBody::Enum(_))
}

/// Returns whether the id is a group's.
pub(crate) fn names_group(nodes: Nodes<'_>, id: u64) -> bool
    ensures { result ≡ names_a is_group_node (listed nodes.entry) id }
{
    match nodes.find(id) {
        None => false,
        Some(node) => is_group(node),
    }
}

/// Returns whether the id is that of a struct that is not a group.
pub(crate) fn names_struct(nodes: Nodes<'_>, id: u64) -> bool
    ensures { result ≡ names_a is_struct_node (listed nodes.entry) id }
{
    match nodes.find(id) {
        None => false,
        Some(node) => is_struct(node),
    }
}

/// Returns whether the id is an enum's.
pub(crate) fn names_enum(nodes: Nodes<'_>, id: u64) -> bool
    ensures { result ≡ names_a is_enum_node (listed nodes.entry) id }
{
    match nodes.find(id) {
        None => false,
        Some(node) => is_enum(node),
    }
}
