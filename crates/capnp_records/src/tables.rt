//! Tables of the fields of a struct, so that queries never search for them.

ghost use Rattle.std.specs.Prelude.{◌≡◌, ℕ, ◌≤◌, true, map, length, nat_eq, IfOk};
ghost use Rattle.std.specs.List.{list_all};
ghost use Rattle.std.specs.HashMap.{get};
ghost use Rattle.capnp_model.specs.Accepted.{is_short, fields_of_kind};
ghost use Rattle.capnp_records.specs.NodeViews.{field_of, node_kind, node_of};
ghost use Rattle.capnp_records.specs.Tables.{members_from, others_from, members_in, others_in, AreByName, AreNodesByName, node_place};

use crate::by_name::places_by_name;
use crate::node::{FieldRecord, NO_DISCRIMINANT, NodeBody, NodeRecord};
use std::alloc::{AllocError, Global};
use std::collections::HashMap;

/// The places of a struct's fields in its list.
#[derive(Debug, Drop)]
pub struct FieldTables {
    /// Of the union's members, by discriminant.
    pub members: Vec<u16>,
    /// Of the other fields, in order.
    pub others: Vec<u16>,
    /// Of all fields, in the order of their names, which compare by bytes.
    pub by_name: Vec<u16>,
}

fn members_of(alloc: Global, fields: &[FieldRecord], count: u16) -> Result<Vec<u16>, AllocError>
    requires { length fields.now ≤ 65535 }
    ensures { IfOk result (λ v. v.items ≡ members_from (map field_of fields.now) 0 count) }
{
    let mut members = Vec::from_elem(alloc, 0u16, count as usize)?;
    let mut left = fields.len();
    while left > 0 {
        left -= 1;
        let member = fields[left].discriminant_value;
        if member < count {
            members[member as usize] = left as u16;
        }
    }
    Ok(members)
}

fn others_of(alloc: Global, fields: &[FieldRecord]) -> Result<Vec<u16>, AllocError>
    requires { length fields.now ≤ 65535 }
    ensures { IfOk result (λ v. v.items ≡ others_from 0 (map field_of fields.now)) }
{
    let mut others = Vec::with_capacity(alloc, fields.len())?;
    for i in 0..fields.len() {
        if fields[i].discriminant_value == NO_DISCRIMINANT {
            others.push(i as u16)?;
        }
    }
    Ok(others)
}

fn tables_of_node(alloc: Global, node: &NodeRecord) -> Result<FieldTables, AllocError>
    requires { is_short (node_of node.now) ≡ true }
    ensures members { IfOk result (λ t. t.members.items ≡ members_in (node_kind node.now.body)) }
    ensures others { IfOk result (λ t. t.others.items ≡ others_in (node_kind node.now.body)) }
    ensures by_name { IfOk result (λ t.
        AreByName (fields_of_kind (node_kind node.now.body)) t.by_name.items) }
{
    match &node.body {
        NodeBody::Struct(record) => Ok(FieldTables {
            members: members_of(alloc, &record.fields, record.discriminant_count)?,
            others: others_of(alloc, &record.fields)?,
            by_name: places_by_name(alloc, &record.fields)?,
        }),
        NodeBody::Enum(_) => Ok(FieldTables {
            members: Vec::new(alloc),
            others: Vec::new(alloc),
            by_name: Vec::new(alloc),
        }),
    }
}

/// Returns the tables of the nodes, in order.
pub(crate) fn tables_of(alloc: Global, nodes: &[NodeRecord]) -> Result<Vec<FieldTables>, AllocError>
    requires { list_all is_short (map node_of nodes.now) ≡ true }
    ensures members { IfOk result (λ v. map (λ t. t.members.items) v.items
        ≡ map (λ n. members_in n.kind) (map node_of nodes.now)) }
    ensures others { IfOk result (λ v. map (λ t. t.others.items) v.items
        ≡ map (λ n. others_in n.kind) (map node_of nodes.now)) }
    ensures by_name { IfOk result (λ v. AreNodesByName (map node_of nodes.now) v.items) }
{
    let mut tables = Vec::with_capacity(alloc, nodes.len())?;
    for node in nodes {
        tables.push(tables_of_node(alloc, node)?)?;
    }
    Ok(tables)
}

/// Returns the place of each id's first node.
pub(crate) fn places_of(
    alloc: Global,
    nodes: &[NodeRecord],
) -> Result<HashMap<u64, usize>, AllocError>
    ensures { IfOk result (λ m. (id : ℕ) → get nat_eq m id
        ≡ node_place id 0 (map node_of nodes.now)) }
{
    let mut places = HashMap::with_capacity(alloc, nodes.len())?;
    let mut left = nodes.len();
    while left > 0 {
        left -= 1;
        places.insert(nodes[left].id, left)?;
    }
    Ok(places)
}
