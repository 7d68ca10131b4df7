//! Schemas of enums, and their enumerants.

ghost use Rattle.std.specs.Prelude.{◌≡◌, ◌==◌};
ghost use Rattle.std.proofs.Common.{rules};
ghost use Rattle.std.specs.Cmp.Rules.{comparing, hashing};
ghost use Rattle.std.specs.Hash as fed;
ghost use Rattle.std.specs.Ordering.{on};
ghost use Rattle.capnp_records.specs.Sets.{nodes_of, IsEnumOf};

use crate::annotations::AnnotationList;
use crate::enumerants::EnumerantList;
use capnp_records::node::{EnumerantRecord, NodeRecord};
use capnp_records::raw::RawEnumSchema;
use capnp_records::set::SchemaSet;
use capnp_units::errors::Result;
use std::hash::{Hash, Hasher};

/// The schema of an enum of a set. Two schemas are equal if their ids are equal.
#[derive(Clone, Copy, Debug)]
pub struct EnumSchema<'a> {
    set: &'a SchemaSet,
    raw: RawEnumSchema,
    pub ghost known: { IsEnumOf (nodes_of set.now) raw },
}

impl<'a> EnumSchema<'a> {
    ghost use Rattle.std.specs.Prelude.{◌≡◌, map, Some, IsOkAnd};
    ghost use Rattle.capnp_model.specs.Accepted.{find_node};
    ghost use Rattle.capnp_records.specs.NodeViews.{enumerant_of, node_of};
    ghost use Rattle.capnp_records.specs.Sets.{nodes_of, IsEnumOf, enumerants_found};
    ghost use Rattle.capnp_values_queries.specs.Structs.{annotations_found};
    ghost use Rattle.capnp_values_queries.specs.Enums.{nodes_of_enum, enum_id, AreEnumerantsOf};
    ghost use Rattle.capnp_values_queries.specs.Annotations.{AreAnnotations};

    /// Makes the schema of an enum of the set.
    pub fn new(set: &'a SchemaSet, raw: RawEnumSchema) -> EnumSchema<'a>
        requires { IsEnumOf (nodes_of set.now) raw }
        ensures nodes { nodes_of_enum result ≡ nodes_of set.now }
        ensures raw { result.raw ≡ raw }
    {
        EnumSchema { set, raw }
    }

    /// Returns the set of the enum.
    pub fn set(&self) -> &'a SchemaSet
        ensures { nodes_of result.now ≡ nodes_of_enum self.now }
    {
        self.set
    }

    /// Returns the raw schema of the enum.
    pub fn raw(&self) -> RawEnumSchema
        ensures { result ≡ self.now.raw }
    {
        self.raw
    }

    /// Returns the enum's node.
    pub fn get_proto(self) -> &'a NodeRecord
        ensures { find_node (nodes_of_enum self.entry) (enum_id self.entry)
            ≡ Some (node_of result.now) }
    {
        self.set.enum_node(self.raw)
    }

    pub(crate) fn records(self) -> &'a [EnumerantRecord]
        ensures { AreEnumerantsOf (nodes_of_enum self.entry) (enum_id self.entry)
            (map enumerant_of result.now) }
    {
        self.set.enumerants(self.raw)
    }

    /// Returns the enumerants, by ordinal.
    pub fn get_enumerants(self) -> Result<EnumerantList<'a>>
        ensures { IsOkAnd result (λ list. list.parent ≡ self.entry) }
    {
        Ok(EnumerantList::new(self))
    }

    /// Returns the annotations of the enum.
    pub fn get_annotations(self) -> Result<AnnotationList<'a>>
        ensures { let e = self.entry in
            IsOkAnd result
            (AreAnnotations (nodes_of_enum e) (annotations_found (nodes_of_enum e) (enum_id e))) }
    {
        Ok(AnnotationList::new(self.set, &self.set.enum_node(self.raw).annotations))
    }
}

impl PartialEq for EnumSchema<'_> {
    ghost eq = { on (λ schema. schema.raw.id) ◌==◌ };

    ghost laws = { Prim.search (comparing, rules) };

    fn eq(&self, other: &EnumSchema<'_>) -> bool {
        self.raw == other.raw
    }
}

impl Eq for EnumSchema<'_> {
    ghost laws = { Prim.search (comparing, rules) };
}

impl Hash for EnumSchema<'_> {
    ghost hash_input = { λ schema. fed.u64 schema.raw.id };

    ghost respects_eq = { Prim.search (hashing, rules) };

    fn hash<H: Hasher>(&self, state: &mut H) {
        self.raw.hash(state);
    }
}

impl From<EnumSchema<'_>> for RawEnumSchema {
    ghost from_gives = { λ schema raw. raw ≡ schema.raw };

    fn from(schema: EnumSchema<'_>) -> RawEnumSchema {
        schema.raw
    }
}
