//! Fields whose interfaces differ in two versions of a schema.
ghost use Rattle.std.specs.Prelude.{◌≡◌, ◌++◌, IfOk, OnOk};
ghost use Rattle.std.specs.Option.{option_to_list};
ghost use Rattle.capnp_model.specs.Partners.{partner_name};
ghost use Rattle.capnp_calls_versions.specs.Renamed.{renamings_of};
ghost use Rattle.hagzimot_schemas.specs.Interfaces.{interface_of, is_capability_base, is_capability, struct_of_base, target_of, partner_index, lead, leads_of, change, changes_of, AreReached, AreInterfaceBreaks};

use crate::breaks::Version;
use crate::nodes::{fields_of, node_of_id};
use capnp_calls_versions::renamings::Renamings;
use capnp_records::node::{BaseType, FieldBody, FieldRecord, NodeRecord};
use capnp_relay_requests::request::InterfaceField;
use std::alloc::{AllocError, Global};
use std::collections::HashSet;

/// A version of a schema, and its fields that are capabilities of an interface.
#[derive(Clone, Copy)]
pub struct Interfaces<'a> {
    pub version: Version<'a>,
    pub fields: &'a [InterfaceField],
}

/// A field whose interface is another in the newer version, by its nodes and its index in each.
#[derive(Clone, Copy, Debug, PartialEq, Eq)]
pub struct InterfaceBreak {
    pub older: u64,
    pub newer: u64,
    pub older_field: usize,
    pub newer_field: usize,
}

/// Returns the interface of the field of an index, or 0 if it may be any interface.
fn interface_of(fields: &[InterfaceField], node: u64, index: usize) -> u64
    ensures { result ≡ interface_of fields.now node index }
{
    let mut left = fields;
    while let [field, others @ ..] = left {
        if field.node == node && field.index as usize == index {
            return field.interface;
        }
        left = others;
    }
    0
}

/// Returns the name that a field has in the newer version.
fn newer_name<'a>(renamings: &'a Renamings, node: u64, name: &'a str) -> &'a str
    ensures { result.now ≡ partner_name (renamings_of renamings.now) node name.now }
{
    let mut left = renamings.list();
    while let [renaming, others @ ..] = left {
        if renaming.node == node && renaming.older.as_str() == name {
            return renaming.newer.as_str();
        }
        left = others;
    }
    name
}

/// Tests whether a base is a capability.
fn is_capability_base(base: BaseType) -> bool
    ensures { result ≡ is_capability_base base }
{
    matches!(base, BaseType::Capability)
}

/// Tests whether a field is a capability, or a list of capabilities.
fn is_capability(field: &FieldRecord) -> bool
    ensures { result ≡ is_capability field.now.body }
{
    match &field.body {
        FieldBody::Group { .. } => false,
        FieldBody::Slot { ty, .. } => is_capability_base(ty.base),
    }
}

/// Returns the struct of a base.
fn struct_of_base(base: BaseType) -> Option<u64>
    ensures { result ≡ struct_of_base base }
{
    match base {
        BaseType::Struct(id) => Some(id),
        _ => None,
    }
}

/// Returns the node that a field leads to: its struct, or its group.
fn target(field: &FieldRecord) -> Option<u64>
    ensures { result ≡ target_of field.now.body }
{
    match &field.body {
        FieldBody::Group { node } => Some(*node),
        FieldBody::Slot { ty, .. } => struct_of_base(ty.base),
    }
}

/// Returns the index of the partner of an older node's field among the fields of the newer node.
fn partner_index(
    renamings: &Renamings,
    node: u64,
    field: &FieldRecord,
    others: &[FieldRecord],
) -> Option<usize>
    ensures { result ≡ partner_index (renamings_of renamings.now) node field.now others.now }
{
    let name = newer_name(renamings, node, field.name.as_str());
    others.iter().position(|other| other.name.as_str() == name)
}

/// Returns the pair of nodes that a field and its partner lead to.
fn lead(
    renamings: &Renamings,
    old: &NodeRecord,
    new: &NodeRecord,
    field: &FieldRecord,
) -> Option<(u64, u64)>
    ensures { result ≡ lead (renamings_of renamings.now) old.now new.now field.now }
{
    let others = fields_of(new);
    let index = partner_index(renamings, old.id, field, others)?;
    let other = others.get(index)?;
    let older = target(field)?;
    let newer = target(other)?;
    Some((older, newer))
}

/// Appends a pair to others, if there is one.
pub(crate) fn push_pair(
    pairs: &mut Vec<(u64, u64)>,
    pair: Option<(u64, u64)>,
) -> Result<(), AllocError>
    ensures { OnOk result (pairs.new.items ≡ pairs.old.items ++ option_to_list pair) }
{
    if let Some(pair) = pair {
        pairs.push(pair)?;
    }
    Ok(())
}

/// Returns the pairs that the fields of a pair lead to.
fn leads(
    alloc: Global,
    older: Version<'_>,
    newer: Version<'_>,
    renamings: &Renamings,
    pair: (u64, u64),
) -> Result<Vec<(u64, u64)>, AllocError>
    ensures { IfOk result (λ ps. ps.items ≡ leads_of (renamings_of renamings.now)
        older.entry.nodes.now newer.entry.nodes.now pair) }
{
    let Some(old) = node_of_id(older.nodes, pair.0) else {
        return Ok(Vec::new(alloc));
    };
    let Some(new) = node_of_id(newer.nodes, pair.1) else {
        return Ok(Vec::new(alloc));
    };
    let mut leads = Vec::new(alloc);
    for field in fields_of(old) {
        push_pair(&mut leads, lead(renamings, old, new, field))?;
    }
    Ok(leads)
}

/// The pairs of nodes that are reached, each once.
#[derive(Drop)]
struct Pairs {
    pairs: Vec<(u64, u64)>,
    known: HashSet<(u64, u64)>,
}

impl Pairs {
    ghost use Rattle.std.specs.Prelude.{◌≡◌, [], IfOk};
    ghost use Rattle.hagzimot_schemas.specs.Interfaces.{with_pair, with_pairs, IsKnown};

    /// Returns no pairs.
    fn new(alloc: Global) -> Pairs
        ensures none { result.pairs.items ≡ [] }
        ensures known { IsKnown result }
    {
        Pairs {
            pairs: Vec::new(alloc),
            known: HashSet::new(alloc),
        }
    }

    /// Appends a pair to the others, unless they have it.
    fn reach(&mut self, pair: (u64, u64)) -> Result<(), AllocError>
        requires { IsKnown self.old }
        ensures pairs { IfOk result (λ _.
            self.new.pairs.items ≡ with_pair self.old.pairs.items pair) }
        ensures known { IfOk result (λ _. IsKnown self.new) }
    {
        if self.known.insert(pair)? {
            self.pairs.push(pair)?;
        }
        Ok(())
    }

    /// Appends pairs to the others, except those that they have.
    fn reach_all(&mut self, pairs: &[(u64, u64)]) -> Result<(), AllocError>
        requires { IsKnown self.old }
        ensures pairs { IfOk result (λ _.
            self.new.pairs.items ≡ with_pairs self.old.pairs.items pairs.now) }
        ensures known { IfOk result (λ _. IsKnown self.new) }
    {
        let mut left = pairs;
        while let [pair, others @ ..] = left {
            self.reach(*pair)?;
            left = others;
        }
        Ok(())
    }
}

/// Returns the pairs of nodes that are reached from two nodes, each once.
#[tactic(auto, unfolding(crate::specs::Interfaces::reached))]
fn reached(
    alloc: Global,
    older: Version<'_>,
    newer: Version<'_>,
    renamings: &Renamings,
    roots: (u64, u64),
) -> Result<Vec<(u64, u64)>, AllocError>
    ensures { IfOk result (λ ps. AreReached (leads_of (renamings_of renamings.now)
        older.entry.nodes.now newer.entry.nodes.now) roots ps.items) }
{
    let mut known = Pairs::new(alloc);
    known.reach(roots)?;
    for i in 0..usize::MAX {
        let Some(pair) = known.pairs.get(i).copied() else {
            return Ok(known.pairs);
        };
        let leads = leads(alloc, older, newer, renamings, pair)?;
        known.reach_all(&leads)?;
    }
    // No memory holds as many pairs as the loop counts.
    Err(AllocError)
}

/// Returns the break of the field of an index, if the field is a capability whose partner has
/// another interface.
fn change(
    older: Interfaces<'_>,
    newer: Interfaces<'_>,
    renamings: &Renamings,
    old: &NodeRecord,
    new: &NodeRecord,
    index: usize,
    field: &FieldRecord,
) -> Option<InterfaceBreak>
    ensures { result ≡ change (renamings_of renamings.now) older.entry newer.entry
        old.now new.now (index, field.now) }
{
    let other = partner_index(renamings, old.id, field, fields_of(new))?;
    let was = interface_of(older.fields, old.id, index);
    let is = interface_of(newer.fields, new.id, other);
    if is_capability(field) && was != is {
        Some(InterfaceBreak {
            older: old.id,
            newer: new.id,
            older_field: index,
            newer_field: other,
        })
    } else {
        None
    }
}

/// Appends a break to others, if there is one.
fn push_break(
    breaks: &mut Vec<InterfaceBreak>,
    broken: Option<InterfaceBreak>,
) -> Result<(), AllocError>
    ensures { OnOk result (breaks.new.items ≡ breaks.old.items ++ option_to_list broken) }
{
    if let Some(broken) = broken {
        breaks.push(broken)?;
    }
    Ok(())
}

/// Appends the breaks of the fields of a pair of nodes to others.
fn push_changes(
    found: &mut Vec<InterfaceBreak>,
    older: Interfaces<'_>,
    newer: Interfaces<'_>,
    renamings: &Renamings,
    pair: (u64, u64),
) -> Result<(), AllocError>
    ensures { IfOk result (λ _. found.new.items ≡ found.old.items
        ++ changes_of (renamings_of renamings.now) older.entry newer.entry pair) }
{
    let Some(old) = node_of_id(older.version.nodes, pair.0) else {
        return Ok(());
    };
    let Some(new) = node_of_id(newer.version.nodes, pair.1) else {
        return Ok(());
    };
    for (index, field) in fields_of(old).iter().enumerate() {
        let broken = change(older, newer, renamings, old, new, index, field);
        push_break(found, broken)?;
    }
    Ok(())
}

/// Returns the fields, from the two roots on, that have another interface in the newer version.
/// Fields are paired by their names, and by renamings. They are in the order in which their nodes
/// are reached.
pub fn interface_breaks(
    alloc: Global,
    older: Interfaces<'_>,
    newer: Interfaces<'_>,
    roots: (u64, u64),
    renamings: &Renamings,
) -> Result<Vec<InterfaceBreak>, AllocError>
    ensures { IfOk result (λ bs. AreInterfaceBreaks (renamings_of renamings.now)
        older.entry newer.entry roots bs.items) }
{
    let pairs = reached(alloc, older.version, newer.version, renamings, roots)?;
    let mut found = Vec::new(alloc);
    for pair in &pairs {
        push_changes(&mut found, older, newer, renamings, *pair)?;
    }
    Ok(found)
}
