//! The check of node records: the rules by number, each over the nodes in order.

ghost use Rattle.std.specs.Prelude.{◌≡◌, ◌<◌, ◌||◌, not, map, length, take, get_or, None, IfOk, IfErr, OnOk};
ghost use Rattle.capnp_model.specs.Accepted.{is_kept_by, first_break, fault_of, on_struct, has_good_union, is_struct_node, has_no_overlap, shape_in};
ghost use Rattle.capnp_records.specs.NodeViews.{node_of};
ghost use Rattle.capnp_records.specs.Faults.{IsSchemaRefusal};
ghost use Rattle.capnp_records.specs.Listed.{listed};
ghost use Rattle.capnp_records.specs.Uses.{AreUses};

use crate::defaults::has_good_defaults;
use crate::fault::SchemaFault;
use crate::find::is_struct;
use crate::groups::{GroupUses, is_good_group};
use crate::names::{has_good_names, is_short};
use crate::node::{NodeBody, NodeRecord};
use crate::nodes::Nodes;
use crate::overlap::has_no_overlap;
use crate::places::has_places;
use crate::types::{has_good_ids, has_no_float};
use crate::unions::has_good_union;
use crate::values::{has_good_annotations, has_good_default_values};
use std::alloc::{AllocError, Global};

/// The number of rules.
const RULES: u32 = 12;

fn keeps_union(alloc: Global, node: &NodeRecord) -> Result<bool, AllocError>
    ensures { IfOk result (λ b. b ≡ on_struct has_good_union (node_of node.now)) }
{
    match &node.body {
        NodeBody::Struct(holder) => has_good_union(alloc, holder),
        NodeBody::Enum(_) => Ok(true),
    }
}

fn keeps_places(alloc: Global, nodes: Nodes<'_>, node: &NodeRecord) -> Result<bool, AllocError>
    ensures { IfOk result (λ b. b ≡ (not (is_struct_node (node_of node.now))
        || has_no_overlap (shape_in (listed nodes.entry) (length nodes.entry.records.now)
        (node_of node.now).id))) }
{
    Ok(!is_struct(node) || has_no_overlap(alloc, nodes, nodes.records.len(), node.id)?)
}

/// Returns whether the node at a place keeps the rule of a number, among all nodes.
fn keeps(
    alloc: Global,
    nodes: Nodes<'_>,
    uses: &GroupUses,
    place: usize,
    node: &NodeRecord,
    rule: u32,
) -> Result<bool, AllocError>
    requires uses { AreUses (listed nodes) uses.now }
    requires inside { place < length nodes.records.now }
    requires node { node.now ≡ get_or nodes.records.now place node.now }
    ensures { IfOk result (λ b. b ≡ is_kept_by (listed nodes.entry)
        (map node_of (take place nodes.entry.records.now)) (node_of node.now) rule) }
{
    match rule {
        1 => Ok(nodes.is_first(place, node)),
        2 => Ok(is_short(node)),
        3 => has_good_names(alloc, node),
        4 => has_no_float(alloc, node),
        5 => has_good_ids(alloc, nodes, node),
        6 => is_good_group(alloc, nodes, uses, place, node),
        7 => keeps_union(alloc, node),
        8 => Ok(has_places(node)),
        9 => keeps_places(alloc, nodes, node),
        10 => Ok(has_good_defaults(node)),
        11 => Ok(has_good_default_values(node)),
        12 => Ok(has_good_annotations(node)),
        _ => Ok(true),
    }
}

/// Returns the place of the first node that breaks the rule of a number.
fn first_break(
    alloc: Global,
    nodes: Nodes<'_>,
    uses: &GroupUses,
    rule: u32,
) -> Result<Option<usize>, AllocError>
    requires { AreUses (listed nodes) uses.now }
    ensures { IfOk result (λ place. place ≡ first_break (listed nodes.entry) rule) }
{
    for i in 0..nodes.records.len() {
        if !keeps(alloc, nodes, uses, i, &nodes.records[i], rule)? {
            return Ok(Some(i));
        }
    }
    Ok(None)
}

/// Checks that the nodes keep the rules.
pub(crate) fn check(alloc: Global, nodes: Nodes<'_>) -> Result<(), SchemaFault>
    ensures kept { OnOk result (fault_of (listed nodes.entry) ≡ None) }
    ensures refused { IfErr result (λ fault. IsSchemaRefusal (listed nodes.entry) fault) }
{
    let uses = GroupUses::new(alloc, nodes)?;
    for rule in 1..RULES + 1 {
        if let Some(node) = first_break(alloc, nodes, &uses, rule)? {
            return Err(SchemaFault::Rule { rule, node });
        }
    }
    Ok(())
}
