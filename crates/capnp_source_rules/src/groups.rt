//! Whether the groups of nodes keep the rules.

ghost use Rattle.std.specs.Prelude.{◌≡◌, ◌≢◌, ◌++◌, Some, map, nat_eq, All, AllPairs, IfOk, IsTrue};
ghost use Rattle.std.specs.HashMap.{get, IsFromIterResult};
ghost use Rattle.std.specs.HashSet as set;
ghost use Rattle.capnp_source_rules.specs.Groups.{group_of, groups_in, groups_of_body, groups_of, home_in, home_key, home_of_groups, AreGoodGroups};

use capnp_source_nodes::nodes::{Field, FieldBody, Node, NodeBody};
use std::alloc::{AllocError, Global};
use std::collections::{HashMap, HashSet};

/// Whether a node is a group, the id of its scope, and its words and pointers.
type Home = (bool, (u64, (u16, u16)));

/// Adds the group that a field is.
fn add_group(groups: &mut Vec<u64>, body: &FieldBody) -> Result<(), AllocError>
    ensures { IfOk result (λ _. groups.new.items ≡ groups.old.items ++ group_of body.now) }
{
    match body {
        FieldBody::Slot { .. } => Ok(()),
        FieldBody::Group(id) => {
            groups.push(*id)?;
            Ok(())
        }
    }
}

/// Adds the groups that fields are.
fn add_groups(groups: &mut Vec<u64>, fields: &[Field]) -> Result<(), AllocError>
    ensures { IfOk result (λ _. groups.new.items ≡ groups.old.items ++ groups_in fields.now) }
{
    let mut left = fields;
    while let [field, others @ ..] = left {
        add_group(groups, &field.body)?;
        left = others;
    }
    Ok(())
}

/// Adds the groups that the fields of a node are.
fn add_groups_of(groups: &mut Vec<u64>, body: &NodeBody) -> Result<(), AllocError>
    ensures { IfOk result (λ _. groups.new.items
        ≡ groups.old.items ++ groups_of_body body.now) }
{
    match body {
        NodeBody::Struct(body) => add_groups(groups, &body.fields),
        NodeBody::File => Ok(()),
        NodeBody::Enum(_) => Ok(()),
        NodeBody::Interface(_) => Ok(()),
        NodeBody::Constant { .. } => Ok(()),
        NodeBody::Annotation { .. } => Ok(()),
    }
}

/// Returns the groups that the fields of nodes are.
fn groups_of(alloc: Global, nodes: &[Node]) -> Result<Vec<u64>, AllocError>
    ensures { IfOk result (λ v. v.items ≡ groups_of nodes.now) }
{
    let mut groups = Vec::new(alloc);
    let mut left = nodes;
    while let [node, others @ ..] = left {
        add_groups_of(&mut groups, &node.body)?;
        left = others;
    }
    Ok(groups)
}

/// Returns the set of ids.
fn set_of(alloc: Global, ids: &[u64]) -> Result<HashSet<u64>, AllocError>
    ensures { IfOk result (set.IsFromIterResult nat_eq (map (λ id. id) ids.now)) }
{
    ids.iter().map(|id| *id).collect(alloc)
}

/// Whether no two of some ids are the same.
fn are_distinct(alloc: Global, ids: &[u64]) -> Result<bool, AllocError>
    ensures { IfOk result (λ b. IsTrue b → AllPairs (λ x y. x ≢ y) ids.now) }
{
    let set = set_of(alloc, ids)?;
    Ok(set.len() == ids.len())
}

/// Returns whether a node is a group, the id of its scope, and its words and pointers.
fn home_in(scope: u64, body: &NodeBody) -> Home
    ensures { result ≡ home_in scope body.now }
{
    match body {
        NodeBody::Struct(body) => (body.is_group, (scope, (body.data_words, body.pointers))),
        NodeBody::File => (false, (scope, (0, 0))),
        NodeBody::Enum(_) => (false, (scope, (0, 0))),
        NodeBody::Interface(_) => (false, (scope, (0, 0))),
        NodeBody::Constant { .. } => (false, (scope, (0, 0))),
        NodeBody::Annotation { .. } => (false, (scope, (0, 0))),
    }
}

/// Returns what nodes are, by their ids.
fn homes_of(alloc: Global, nodes: &[Node]) -> Result<HashMap<u64, Home>, AllocError>
    ensures { IfOk result (IsFromIterResult nat_eq (map home_key nodes.now)) }
{
    nodes
        .iter()
        .map(|node| (node.id, home_in(node.scope, &node.body)))
        .collect(alloc)
}

/// Whether there is such a node with an id.
fn has(homes: &HashMap<u64, Home>, id: u64, home: Home) -> bool
    ensures { IsTrue result → get nat_eq homes.now id ≡ Some home }
{
    match homes.get(&id) {
        Some((is_group, (scope, (words, pointers)))) => {
            *is_group == home.0
                && *scope == home.1.0
                && *words == home.1.1.0
                && *pointers == home.1.1.1
        }
        None => false,
    }
}

/// Whether the group that a field is, if it is one, is such a node.
fn has_home(homes: &HashMap<u64, Home>, body: &FieldBody, home: Home) -> bool
    ensures { IsTrue result → All (λ g. get nat_eq homes.now g ≡ Some home) (group_of body.now) }
{
    match body {
        FieldBody::Slot { .. } => true,
        FieldBody::Group(id) => has(homes, *id, home),
    }
}

/// Whether the groups that fields are, are such nodes.
fn have_homes(homes: &HashMap<u64, Home>, fields: &[Field], home: Home) -> bool
    ensures { IsTrue result → All (λ g. get nat_eq homes.now g ≡ Some home) (groups_in fields.now) }
{
    for field in fields {
        if !has_home(homes, &field.body, home) {
            return false;
        }
    }
    true
}

/// Whether the groups that the fields of a node are, are groups in the node.
fn holds_groups(homes: &HashMap<u64, Home>, node: &Node) -> bool
    ensures { IsTrue result → All (λ g. get nat_eq homes.now g ≡ Some (home_of_groups node.now))
        (groups_of_body node.now.body) }
{
    match &node.body {
        NodeBody::Struct(body) => {
            let home = (true, (node.id, (body.data_words, body.pointers)));
            have_homes(homes, &body.fields, home)
        }
        NodeBody::File => true,
        NodeBody::Enum(_) => true,
        NodeBody::Interface(_) => true,
        NodeBody::Constant { .. } => true,
        NodeBody::Annotation { .. } => true,
    }
}

/// Whether the groups of each node are groups in the node.
fn hold_groups(homes: &HashMap<u64, Home>, nodes: &[Node]) -> bool
    ensures { IsTrue result → All (λ n. All (λ g. get nat_eq homes.now g ≡ Some (home_of_groups n))
        (groups_of_body n.body)) nodes.now }
{
    for node in nodes {
        if !holds_groups(homes, node) {
            return false;
        }
    }
    true
}

/// Whether the groups of nodes keep the rules.
pub fn are_good_groups(alloc: Global, nodes: &[Node]) -> Result<bool, AllocError>
    ensures { IfOk result (λ b. IsTrue b → AreGoodGroups nodes.now) }
{
    let homes = homes_of(alloc, nodes)?;
    if !hold_groups(&homes, nodes) {
        return Ok(false);
    }
    let groups = groups_of(alloc, nodes)?;
    are_distinct(alloc, &groups)
}
