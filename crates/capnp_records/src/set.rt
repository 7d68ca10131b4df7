//! Sets of node records that keep the schema rules.

ghost use Rattle.std.specs.Prelude.{◌≡◌, ℕ, map, nat_eq};
ghost use Rattle.std.specs.HashMap.{get};
ghost use Rattle.std.proofs.Props.{props};
ghost use Rattle.capnp_model.specs.Accepted.{IsAccepted};
ghost use Rattle.capnp_records.specs.NodeViews.{node_of};
ghost use Rattle.capnp_records.specs.Tables.{members_in, others_in, AreNodesByName, node_place};

use crate::check::check;
use crate::fault::SchemaFault;
use crate::find::is_struct;
use crate::node::{EnumerantRecord, NodeBody, NodeRecord, StructRecord};
use crate::nodes::Nodes;
use crate::of_set::OfSet;
use crate::raw::{RawBrandedStructSchema, RawEnumSchema};
use crate::tables::{FieldTables, places_of, tables_of};
use std::collections::HashMap;

/// Node records that keep the schema rules.
#[derive(Debug, Drop)]
pub struct SchemaSet {
    nodes: Vec<NodeRecord>,
    /// The place of the node of each id.
    places: HashMap<u64, usize>,
    /// The places of fields, node by node.
    tables: Vec<FieldTables>,
    pub ghost accepted: { IsAccepted (map node_of nodes.items) } by { Prim.hlevel props },
    pub ghost placed: { (id : ℕ) → get nat_eq places id ≡ node_place id 0 (map node_of nodes.items) } by { Prim.hlevel props },
    pub ghost members: { map (λ t. t.members.items) tables.items ≡ map (λ n. members_in n.kind) (map node_of nodes.items) } by { Prim.hlevel props },
    pub ghost others: { map (λ t. t.others.items) tables.items ≡ map (λ n. others_in n.kind) (map node_of nodes.items) } by { Prim.hlevel props },
    pub ghost by_name: { AreNodesByName (map node_of nodes.items) tables.items } by { Prim.hlevel props },
}

impl SchemaSet {
    ghost use Rattle.std.specs.Prelude.{◌≡◌, true, false, map, slice_get, Some, None, IfOk, IfErr, IfNone, IfSome};
    ghost use Rattle.capnp_model.specs.Accepted.{IsAccepted, is_struct_node, is_enum_node, find_node, names_a};
    ghost use Rattle.capnp_records.specs.NodeViews.{node_of, struct_of, enumerant_of};
    ghost use Rattle.capnp_records.specs.Faults.{IsSchemaRefusal};
    ghost use Rattle.capnp_model.specs.Schemas.{StructNode};
    ghost use Rattle.capnp_records.specs.Tables.{AreTablesOf};
    ghost use Rattle.capnp_records.specs.Sets.{nodes_of, has_struct, is_at, struct_found, enumerants_found, IsStructOf, IsNodeOf, IsEnumOf};

    /// Makes the set of the nodes, if they keep the rules. The rules are checked by number, each
    /// over the nodes in order. Otherwise it returns the first rule that is broken and the place of
    /// the first node that breaks it.
    pub fn new(nodes: Vec<NodeRecord>) -> Result<SchemaSet, SchemaFault>
        ensures nodes { IfOk result (λ set. nodes_of set ≡ map node_of nodes.items) }
        ensures accepted { IfOk result (λ set. IsAccepted (nodes_of set)) }
        ensures refused { IfErr result (λ fault. IsSchemaRefusal (map node_of nodes.items) fault) }
    {
        let alloc = *nodes.allocator();
        let places = places_of(alloc, &nodes)?;
        check(alloc, Nodes::new(&nodes, &places))?;
        let tables = tables_of(alloc, &nodes)?;
        Ok(SchemaSet {
            nodes,
            places,
            tables,
        })
    }

    /// Returns the node of an id, with its place.
    fn find(&self, id: u64) -> Option<(usize, &NodeRecord)>
        ensures missing { IfNone result (find_node (nodes_of self.now) id ≡ None) }
        ensures id { IfSome result (λ found. found.1.now.id ≡ id) }
        ensures place { IfSome result (λ found. slice_get (nodes_of self.now) found.0
            ≡ Some (node_of found.1.now)) }
        ensures found { IfSome result (λ found. find_node (nodes_of self.now) id
            ≡ Some (node_of found.1.now)) }
    {
        let Some(place) = self.places.get(&id) else {
            return None;
        };
        Some((*place, &self.nodes[*place]))
    }

    /// Returns the nodes of the set, in the order in which they were given.
    pub fn nodes(&self) -> &[NodeRecord]
        ensures { map node_of result.now ≡ nodes_of self.now }
    {
        self.nodes.as_slice()
    }

    /// Returns the struct of an id. A group is not a struct here.
    pub fn struct_by_id(&self, id: u64) -> Option<RawBrandedStructSchema>
        ensures missing { IfNone result (names_a is_struct_node (nodes_of self.now) id ≡ false) }
        ensures id { IfSome result (λ raw. raw.id ≡ id) }
        ensures found { IfSome result (IsStructOf (nodes_of self.now)) }
    {
        let Some((place, node)) = self.find(id) else {
            return None;
        };
        if !is_struct(node) {
            return None;
        }
        let number = place as u64;
        Some(RawBrandedStructSchema { number, id })
    }

    /// Returns the struct or the group of an id.
    pub fn struct_or_group_by_id(&self, id: u64) -> Option<RawBrandedStructSchema>
        ensures missing { IfNone result (names_a has_struct (nodes_of self.now) id ≡ false) }
        ensures id { IfSome result (λ raw. raw.id ≡ id) }
        ensures found { IfSome result (IsNodeOf (nodes_of self.now)) }
    {
        let Some((place, node)) = self.find(id) else {
            return None;
        };
        match node.body {
            NodeBody::Struct(_) => Some(RawBrandedStructSchema {
                number: place as u64,
                id,
            }),
            NodeBody::Enum(_) => None,
        }
    }

    /// Returns the enum of an id.
    pub fn enum_by_id(&self, id: u64) -> Option<RawEnumSchema>
        ensures missing { IfNone result (names_a is_enum_node (nodes_of self.now) id ≡ false) }
        ensures id { IfSome result (λ raw. raw.id ≡ id) }
        ensures found { IfSome result (IsEnumOf (nodes_of self.now)) }
    {
        let Some((place, node)) = self.find(id) else {
            return None;
        };
        match node.body {
            NodeBody::Struct(_) => None,
            NodeBody::Enum(_) => Some(RawEnumSchema {
                number: place as u64,
                id,
            }),
        }
    }

    /// Returns the node of a struct or a group of this set.
    pub fn struct_node(&self, raw: RawBrandedStructSchema) -> &NodeRecord
        requires { IsNodeOf (nodes_of self.now) raw }
        ensures { find_node (nodes_of self.now) raw.id ≡ Some (node_of result.now) }
    {
        let number = raw.number as usize;
        &self.nodes[number]
    }

    /// Returns the description of a struct or a group of this set in its node.
    pub fn struct_record(&self, raw: RawBrandedStructSchema) -> &StructRecord
        requires { IsNodeOf (nodes_of self.now) raw }
        ensures { struct_found (nodes_of self.now) raw.id ≡ Some (struct_of result.now) }
    {
        let NodeBody::Struct(record) = &self.nodes[raw.number as usize].body else {
            unreachable!()
        };
        record
    }

    /// Returns the places of the fields of a struct or a group of this set.
    pub fn field_tables(&self, raw: RawBrandedStructSchema) -> &FieldTables
        requires { IsNodeOf (nodes_of self.now) raw }
        ensures { (s : StructNode) → struct_found (nodes_of self.now) raw.id
            ≡ Some s → AreTablesOf s result.now }
    {
        &self.tables[raw.number as usize]
    }

    /// Returns the node of an enum of this set.
    pub fn enum_node(&self, raw: RawEnumSchema) -> &NodeRecord
        requires { IsEnumOf (nodes_of self.now) raw }
        ensures { find_node (nodes_of self.now) raw.id ≡ Some (node_of result.now) }
    {
        let place = raw.number as usize;
        &self.nodes[place]
    }

    /// Returns the enumerants of an enum of this set.
    pub fn enumerants(&self, raw: RawEnumSchema) -> &[EnumerantRecord]
        requires { IsEnumOf (nodes_of self.now) raw }
        ensures { enumerants_found (nodes_of self.now) raw.id ≡ Some (map enumerant_of result.now) }
    {
        let NodeBody::Enum(enumerants) = &self.nodes[raw.number as usize].body else {
            unreachable!()
        };
        enumerants
    }

    /// Returns whether a raw schema or a type is of this set.
    pub fn holds<T: OfSet>(&self, item: T) -> bool
        ensures { result ≡ T.is_of (nodes_of self.now) item }
    {
        item.is_of_set(self)
    }

    /// Returns the node at a place, if it has the id.
    pub(crate) fn node_at(&self, number: u64, id: u64) -> Option<&NodeRecord>
        ensures missing { IfNone result (is_at (λ n. true) (nodes_of self.now) number id ≡ false) }
        ensures found { IfSome result (λ node. slice_get (nodes_of self.now) number
            ≡ Some (node_of node.now)) }
        ensures id { IfSome result (λ node. node.now.id ≡ id) }
    {
        let place = number as usize;
        if place >= self.nodes.len() || self.nodes[place].id != id {
            return None;
        }
        Some(&self.nodes[place])
    }
}
