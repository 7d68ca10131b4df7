//! The rule of groups: a group is used by exactly one group field, in no cycle, and fits into its
//! holder.

ghost use Rattle.std.specs.Prelude.{ℕ, ◌≡◌, ◌<◌, ◌==◌, nat_eq, nat_lt, if◌then◌else◌, true, Some, [], ◌∷◌, map, length, get_or, option_map, option_copied, count_by, IfOk};
ghost use Rattle.std.specs.HashMap.{get};
ghost use Rattle.std.specs.List.{list_all, list_any, flat_map};
ghost use Rattle.capnp_model.specs.Accepted.{groups_of_field, groups_used, sizes_of, fits_in, meets_below, is_good_group};
ghost use Rattle.capnp_records.specs.NodeViews.{kind_of_field, field_of, node_of};
ghost use Rattle.capnp_records.specs.Levels.{groups_below, PassSame, PassMore};
ghost use Rattle.capnp_records.specs.Listed.{listed};
ghost use Rattle.capnp_records.specs.Uses.{once_in, holder_place, depths_in, holds_deeper, AreUses};

use crate::find::{is_group, is_struct};
use crate::node::{FieldBody, FieldRecord, NodeBody, NodeRecord};
use crate::nodes::Nodes;
use crate::parts::{groups_of, push_groups_of};
use std::alloc::{AllocError, Global};
use std::collections::{HashMap, HashSet};

// ---- uses

/// Facts about the groups of fields, so that the groups of accepted nodes are looked up, not
/// searched.
#[derive(Drop)]
pub(crate) struct GroupUses {
    /// Whether a group of an id is one field's, or several's.
    once: HashMap<u64, bool>,
    /// The place of the first node that has a field whose group has an id.
    holders: HashMap<u64, usize>,
    /// Whether each group is at a greater depth than its holders, so that a group never contains
    /// itself.
    apart: bool,
}

/// Returns whether each id occurs once, or more often.
fn once_of(alloc: Global, groups: &[u64]) -> Result<HashMap<u64, bool>, AllocError>
    ensures { IfOk result (λ m. (id : ℕ) → get nat_eq m id
        ≡ once_in (count_by (λ g. g == id) groups.now)) }
{
    let mut once = HashMap::new(alloc);
    for group in groups {
        let is_new = once.get(group).is_none();
        once.insert(*group, is_new)?;
    }
    Ok(once)
}

/// Stores a place at each of the ids.
fn put_all(
    holders: &mut HashMap<u64, usize>,
    groups: &[u64],
    place: usize,
) -> Result<(), AllocError>
    ensures { IfOk result (λ _. (id : ℕ) → get nat_eq holders.new id
        ≡ (if list_any (λ g. g == id) groups.now then Some place else get nat_eq holders.old id)) }
{
    for group in groups {
        holders.insert(*group, place)?;
    }
    Ok(())
}

/// Returns the place of the first node that has a field whose group has an id.
fn holders_of(alloc: Global, nodes: &[NodeRecord]) -> Result<HashMap<u64, usize>, AllocError>
    ensures { IfOk result (λ m. (id : ℕ) → get nat_eq m id
        ≡ holder_place id 0 (map node_of nodes.now)) }
{
    let mut holders = HashMap::new(alloc);
    let mut left = nodes.len();
    while left > 0 {
        left -= 1;
        let groups = groups_of(alloc, &nodes[left])?;
        put_all(&mut holders, &groups, left)?;
    }
    Ok(holders)
}

impl GroupUses {
    ghost use Rattle.std.specs.Prelude.{◌≡◌, ◌==◌, IfOk, option_map, option_copied};
    ghost use Rattle.capnp_model.specs.Accepted.{uses_of, holder_of};
    ghost use Rattle.capnp_records.specs.Listed.{listed};
    ghost use Rattle.capnp_records.specs.NodeViews.{node_of};
    ghost use Rattle.capnp_records.specs.Uses.{AreUses};

    /// Collects the facts about the groups of nodes.
    pub(crate) fn new(alloc: Global, nodes: Nodes<'_>) -> Result<GroupUses, AllocError>
        ensures { IfOk result (AreUses (listed nodes.entry)) }
    {
        let groups = all_groups(alloc, nodes.records)?;
        let once = once_of(alloc, &groups)?;
        let holders = holders_of(alloc, nodes.records)?;
        let depths = depths_of(alloc, nodes)?;
        let apart = are_deeper(&depths, nodes.records);
        Ok(GroupUses {
            once,
            holders,
            apart,
        })
    }

    /// Returns whether the group of an id belongs to one field.
    fn is_used_once(&self, nodes: Nodes<'_>, id: u64) -> bool
        requires { AreUses (listed nodes) self.now }
        ensures { result ≡ (uses_of (listed nodes.entry) id == 1) }
    {
        match self.once.get(&id) {
            None => false,
            Some(once) => *once,
        }
    }

    /// Returns the first node with a field whose group this is.
    fn holder<'a>(&self, nodes: Nodes<'a>, id: u64) -> Option<&'a NodeRecord>
        requires { AreUses (listed nodes) self.now }
        ensures { option_map node_of (option_copied result) ≡ holder_of (listed nodes.entry) id }
    {
        let Some(place) = self.holders.get(&id) else {
            return None;
        };
        Some(nodes.at(*place))
    }
}

// ---- depths

/// Returns the depth of an id; an id without a depth is at the top.
fn depth_in(depths: &HashMap<u64, usize>, id: u64) -> usize
    ensures { result ≡ depths_in (get nat_eq depths.now) id }
{
    match depths.get(&id) {
        None => 0,
        Some(depth) => *depth,
    }
}

/// Returns the depths of groups: those of structs that are not groups are at 1, and each further
/// group is one deeper. A group that isn't reached in this way has no depth.
fn depths_of(alloc: Global, nodes: Nodes<'_>) -> Result<HashMap<u64, usize>, AllocError> {
    let mut depths = HashMap::new(alloc);
    let mut ids = Vec::new(alloc);
    for node in nodes.records {
        if is_struct(node) {
            ids.push(node.id)?;
        }
    }
    for at in 0..nodes.records.len() {
        if at >= ids.len() {
            break;
        }
        let id = ids[at];
        let depth = depth_in(&depths, id).saturating_add(1);
        let groups = groups_below(alloc, nodes, id)?;
        for group in &groups {
            if depth_in(&depths, *group) == 0 {
                depths.insert(*group, depth)?;
                ids.push(*group)?;
            }
        }
    }
    Ok(depths)
}

fn is_deeper(depths: &HashMap<u64, usize>, least: usize, body: &FieldBody) -> bool
    ensures { result ≡ list_all (λ g. nat_lt least (depths_in (get nat_eq depths.now) g))
        (groups_of_field (kind_of_field body.now)) }
{
    match body {
        FieldBody::Slot { .. } => true,
        FieldBody::Group { node } => least < depth_in(depths, *node),
    }
}

fn are_fields_deeper(depths: &HashMap<u64, usize>, least: usize, fields: &[FieldRecord]) -> bool
    ensures { result ≡ list_all (λ g. nat_lt least (depths_in (get nat_eq depths.now) g))
        (flat_map (λ f. groups_of_field f.kind) (map field_of fields.now)) }
{
    fields
        .iter()
        .all(|field| is_deeper(depths, least, &field.body))
}

/// Returns whether the groups of a node's fields are deeper than the node.
fn holds_deeper(depths: &HashMap<u64, usize>, node: &NodeRecord) -> bool
    ensures { result ≡ holds_deeper (depths_in (get nat_eq depths.now)) (node_of node.now) }
{
    match &node.body {
        NodeBody::Struct(record) => {
            are_fields_deeper(depths, depth_in(depths, node.id), &record.fields)
        }
        NodeBody::Enum(_) => true,
    }
}

/// Returns whether each group is deeper than its holders.
fn are_deeper(depths: &HashMap<u64, usize>, nodes: &[NodeRecord]) -> bool
    ensures { result ≡ list_all (holds_deeper (depths_in (get nat_eq depths.now)))
        (map node_of nodes.now) }
{
    nodes.iter().all(|node| holds_deeper(depths, node))
}

// ---- sizes

fn sizes_of(node: &NodeRecord) -> (u16, u16)
    ensures { result ≡ sizes_of (node_of node.now) }
{
    match &node.body {
        NodeBody::Struct(record) => (record.data_word_count, record.pointer_count),
        NodeBody::Enum(_) => (0, 0),
    }
}

/// Returns whether a group is not larger than its holder.
fn fits_in(node: &NodeRecord, holder: Option<&NodeRecord>) -> bool
    ensures { result ≡ fits_in (node_of node.now) (option_map node_of
        (option_copied holder.entry)) }
{
    match holder {
        None => false,
        Some(holder) => {
            let (words, pointers) = sizes_of(node);
            let (most_words, most_pointers) = sizes_of(holder);
            words <= most_words && pointers <= most_pointers
        }
    }
}

// ---- cycles

/// Appends an id, unless it is among those that are seen.
fn push_new(ids: &mut Vec<u64>, seen: &mut HashSet<u64>, id: u64) -> Result<(), AllocError>
    requires { PassSame seen.old.keys ids.old.items }
    ensures same { IfOk result (λ _. PassSame seen.new.keys ids.new.items) }
    ensures more { IfOk result (λ _. PassMore ids.old.items ids.new.items (id ∷ [])) }
{
    if !seen.insert(id)? {
        return Ok(());
    }
    ids.push(id)?;
    Ok(())
}

/// Appends ids, each unless it is among those that are seen.
fn push_all_new(ids: &mut Vec<u64>, seen: &mut HashSet<u64>, more: &[u64]) -> Result<(), AllocError>
    requires { PassSame seen.old.keys ids.old.items }
    ensures same { IfOk result (λ _. PassSame seen.new.keys ids.new.items) }
    ensures more { IfOk result (λ _. PassMore ids.old.items ids.new.items more.now) }
{
    for id in more {
        push_new(ids, seen, *id)?;
    }
    Ok(())
}

/// Returns the ids of the groups of the fields of the node of an id.
fn groups_below(alloc: Global, nodes: Nodes<'_>, id: u64) -> Result<Vec<u64>, AllocError>
    ensures { IfOk result (λ v. v.items ≡ groups_below (listed nodes.entry) id) }
{
    match nodes.find(id) {
        None => Ok(Vec::new(alloc)),
        Some(node) => groups_of(alloc, node),
    }
}

/// Returns the ids of the groups one level below those of the ids, each once.
fn next_level(alloc: Global, nodes: Nodes<'_>, ids: &[u64]) -> Result<Vec<u64>, AllocError>
    ensures { IfOk result (λ v. PassSame v.items (flat_map (groups_below
        (listed nodes.entry)) ids.now)) }
{
    let mut next = Vec::new(alloc);
    let mut seen = HashSet::new(alloc);
    for id in ids {
        let more = groups_below(alloc, nodes, *id)?;
        push_all_new(&mut next, &mut seen, &more)?;
    }
    Ok(next)
}

fn has_group(ids: &[u64], id: u64) -> bool
    ensures { result ≡ list_any (λ g. g == id) ids.now }
{
    ids.iter().any(|other| *other == id)
}

fn is_nothing(ids: &[u64]) -> bool
    ensures { result ≡ true → ids.now ≡ [] }
{
    ids.is_empty()
}

/// Returns whether a group's id is met going down through its group fields, level by level.
fn meets_itself(alloc: Global, nodes: Nodes<'_>, node: &NodeRecord) -> Result<bool, AllocError>
    ensures { IfOk result (λ b. b ≡ meets_below (listed nodes.entry)
        (length nodes.entry.records.now) (node_of node.now).id (Some (node_of node.now))) }
{
    if nodes.records.is_empty() {
        return Ok(false);
    }
    let mut ids = groups_of(alloc, node)?;
    let mut left = nodes.records.len() - 1;
    while left > 0 {
        if has_group(&ids, node.id) {
            return Ok(true);
        }
        ids = next_level(alloc, nodes, &ids)?;
        if is_nothing(&ids) {
            return Ok(false);
        }
        left -= 1;
    }
    Ok(has_group(&ids, node.id))
}

/// Returns whether a group is met below itself. The groups below it are only searched if some group
/// isn't deeper than its holders.
fn is_in_cycle(
    alloc: Global,
    nodes: Nodes<'_>,
    uses: &GroupUses,
    place: usize,
    node: &NodeRecord,
) -> Result<bool, AllocError>
    requires uses { AreUses (listed nodes) uses.now }
    requires inside { place < length nodes.records.now }
    requires node { node.now ≡ get_or nodes.records.now place node.now }
    ensures { IfOk result (λ b. b ≡ meets_below (listed nodes.entry)
        (length nodes.entry.records.now) (node_of node.now).id (Some (node_of node.now))) }
{
    if uses.apart {
        return Ok(false);
    }
    meets_itself(alloc, nodes, node)
}

// ---- the rule

/// Returns the ids of all groups of fields, node by node.
pub(crate) fn all_groups(alloc: Global, nodes: &[NodeRecord]) -> Result<Vec<u64>, AllocError>
    ensures { IfOk result (λ v. v.items ≡ flat_map groups_used (map node_of nodes.now)) }
{
    let mut groups = Vec::new(alloc);
    for node in nodes {
        push_groups_of(&mut groups, node)?;
    }
    Ok(groups)
}

/// Returns whether a node keeps the rule, at its place among the nodes.
pub(crate) fn is_good_group(
    alloc: Global,
    nodes: Nodes<'_>,
    uses: &GroupUses,
    place: usize,
    node: &NodeRecord,
) -> Result<bool, AllocError>
    requires uses { AreUses (listed nodes) uses.now }
    requires inside { place < length nodes.records.now }
    requires node { node.now ≡ get_or nodes.records.now place node.now }
    ensures { IfOk result (λ b. b ≡ is_good_group (listed nodes.entry) (node_of node.now)) }
{
    if !is_group(node) {
        return Ok(true);
    }
    Ok(
        uses.is_used_once(nodes, node.id)
            && !is_in_cycle(alloc, nodes, uses, place, node)?
            && fits_in(node, uses.holder(nodes, node.id)),
    )
}
