//! Schemas of structs and groups.

ghost use Rattle.std.specs.Prelude.{◌≡◌, ◌==◌};
ghost use Rattle.std.proofs.Common.{rules};
ghost use Rattle.std.specs.Cmp.Rules.{comparing, hashing};
ghost use Rattle.std.specs.Hash as fed;
ghost use Rattle.std.specs.Ordering.{on};
ghost use Rattle.capnp_records.specs.Sets.{nodes_of, IsNodeOf};

use crate::annotations::AnnotationList;
use crate::fields::{Field, FieldList};
use crate::names::place_of;
use crate::subsets::FieldSubset;
use capnp_records::node::{NodeRecord, StructRecord};
use capnp_records::raw::RawBrandedStructSchema;
use capnp_records::set::SchemaSet;
use capnp_records::tables::FieldTables;
use capnp_units::errors::{Error, Result};
use capnp_units::kinds::ErrorKind;
use std::hash::{Hash, Hasher};

/// The schema of a struct or a group of a set. Two schemas are equal if their ids are equal.
#[derive(Clone, Copy, Debug)]
pub struct StructSchema<'a> {
    set: &'a SchemaSet,
    raw: RawBrandedStructSchema,
    pub ghost known: { IsNodeOf (nodes_of set.now) raw },
}

impl<'a> StructSchema<'a> {
    ghost use Rattle.std.specs.Prelude.{◌≡◌, ◌<◌, ◌≤◌, ◌*◌, ◌^◌, ℕ, Some, None, option_map, IsOkAnd, IfOk, IfErr};
    ghost use Rattle.capnp_model.specs.Accepted.{find_node};
    ghost use Rattle.capnp_units.specs.declared.kinds.ErrorKind.TheVariants.{FieldNotFound};
    ghost use Rattle.capnp_records.specs.NodeViews.{node_of, struct_of};
    ghost use Rattle.capnp_records.specs.Sets.{nodes_of, IsNodeOf};
    ghost use Rattle.capnp_values_queries.specs.Fields.{union_in, field_count};
    ghost use Rattle.capnp_values_queries.specs.Structs.{nodes_around, id_of, shape_of_struct, fields_of_struct, annotations_recorded, index_named, index_of_member, IsRecordOf, IsTabled};
    ghost use Rattle.capnp_values_queries.specs.Annotations.{AreAnnotations};
    ghost use Rattle.capnp_values_queries.specs.Handles.{IsFieldAt, AreUnionMembers, AreOthers};

    /// Makes the schema of a struct or a group of the set.
    pub fn new(set: &'a SchemaSet, raw: RawBrandedStructSchema) -> StructSchema<'a>
        requires { IsNodeOf (nodes_of set.now) raw }
        ensures nodes { nodes_around result ≡ nodes_of set.now }
        ensures raw { result.raw ≡ raw }
    {
        StructSchema { set, raw }
    }

    /// Returns the set of the struct.
    pub fn set(&self) -> &'a SchemaSet
        ensures { nodes_of result.now ≡ nodes_around self.now }
    {
        self.set
    }

    /// Returns the raw schema of the struct.
    pub fn raw(&self) -> RawBrandedStructSchema
        ensures { result ≡ self.now.raw }
    {
        self.raw
    }

    /// Returns the struct's node.
    pub fn get_proto(&self) -> &'a NodeRecord
        ensures { find_node (nodes_around self.now) (id_of self.now) ≡ Some (node_of result.now) }
    {
        self.set.struct_node(self.raw)
    }

    /// Returns the description of the struct in the node: its sizes, its union and its fields.
    pub fn record(&self) -> &'a StructRecord
        ensures { IsRecordOf (nodes_around self.now) (id_of self.now) (struct_of result.now) }
    {
        self.set.struct_record(self.raw)
    }

    /// Returns the place of the discriminant, in units of 16 bits, if the struct has a union.
    pub fn discriminant_offset(&self) -> Option<u32>
        ensures { option_map (λ offset. 16 * offset) result ≡ union_in (shape_of_struct self.now) }
    {
        let record = self.record();
        if record.discriminant_count == 0 {
            None
        } else {
            Some(record.discriminant_offset)
        }
    }

    /// Returns the fields, by index.
    pub fn get_fields(self) -> Result<FieldList<'a>>
        ensures { IsOkAnd result (λ list. list.parent ≡ self.entry) }
    {
        Ok(FieldList::new(self))
    }

    fn tables(self) -> &'a FieldTables
        ensures { IsTabled (fields_of_struct self.entry) result.now }
    {
        self.set.field_tables(self.raw)
    }

    /// Returns the field that is the union's member of a discriminant.
    pub fn get_field_by_discriminant(self, discriminant: u16) -> Result<Option<Field<'a>>>
        ensures { IsOkAnd result (λ found.
            IsFieldAt self.entry (index_of_member self.entry discriminant) found) }
    {
        let members = self.tables().members.as_slice();
        if discriminant as usize >= members.len() {
            return Ok(None);
        }
        let index = members[discriminant as usize];
        Ok(Some(Field::new(self, index)))
    }

    /// Returns the union's members, by discriminant. A struct without a union has no members.
    pub fn get_union_fields(self) -> Result<FieldSubset<'a>>
        ensures { IsOkAnd result (λ subset. AreUnionMembers self.entry subset) }
    {
        let members = self.tables().members.as_slice();
        Ok(FieldSubset::new(self, members))
    }

    /// Returns the fields that are not members, by index.
    pub fn get_non_union_fields(self) -> Result<FieldSubset<'a>>
        ensures { IsOkAnd result (λ subset. AreOthers self.entry subset) }
    {
        let others = self.tables().others.as_slice();
        Ok(FieldSubset::new(self, others))
    }

    /// Returns the field of a name, and the number of names that were compared: at most the number
    /// of binary digits of the number of fields, and at least one if there are fields.
    pub fn find_field_by_name_counted(&self, name: &str) -> (Option<Field<'a>>, u32)
        ensures found { IsFieldAt self.now (index_named self.now name.now) result.0 }
        ensures few { (digits : ℕ) → field_count (fields_of_struct self.now) < 2 ^ digits
            → result.1 ≤ digits }
        ensures some { 0 < field_count (fields_of_struct self.now) → 0 < result.1 }
    {
        let by_name = self.set.field_tables(self.raw).by_name.as_slice();
        let (place, compared) = place_of(&self.record().fields, by_name, name);
        match place {
            None => (None, compared),
            Some(index) => (Some(Field::new(*self, index)), compared),
        }
    }

    /// Returns the field of a name.
    pub fn find_field_by_name(&self, name: &str) -> Result<Option<Field<'a>>>
        ensures { IsOkAnd result
            (λ found. IsFieldAt self.now (index_named self.now name.now) found) }
    {
        Ok(self.find_field_by_name_counted(name).0)
    }

    /// Returns the field of a name. A name that the struct lacks is refused with `FieldNotFound`.
    pub fn get_field_by_name(&self, name: &str) -> Result<Field<'a>>
        ensures found { IfOk result (λ field.
            IsFieldAt self.now (index_named self.now name.now) (Some field)) }
        ensures missing { IfErr result (λ e.
            (e.kind ≡ FieldNotFound) × (index_named self.now name.now ≡ None)) }
    {
        match self.find_field_by_name_counted(name).0 {
            Some(field) => Ok(field),
            None => Err(Error::from(ErrorKind::FieldNotFound)),
        }
    }

    /// Returns the annotations of the struct.
    pub fn get_annotations(self) -> Result<AnnotationList<'a>>
        ensures { IsOkAnd result
            (AreAnnotations (nodes_around self.entry) (annotations_recorded self.entry)) }
    {
        Ok(AnnotationList::new(self.set, &self.set.struct_node(self.raw).annotations))
    }
}

impl PartialEq for StructSchema<'_> {
    ghost eq = { on (λ schema. schema.raw.id) ◌==◌ };

    ghost laws = { Prim.search (comparing, rules) };

    fn eq(&self, other: &StructSchema<'_>) -> bool {
        self.raw == other.raw
    }
}

impl Eq for StructSchema<'_> {
    ghost laws = { Prim.search (comparing, rules) };
}

impl Hash for StructSchema<'_> {
    ghost hash_input = { λ schema. fed.u64 schema.raw.id };

    ghost respects_eq = { Prim.search (hashing, rules) };

    fn hash<H: Hasher>(&self, state: &mut H) {
        self.raw.hash(state);
    }
}

impl From<StructSchema<'_>> for RawBrandedStructSchema {
    ghost from_gives = { λ schema raw. raw ≡ schema.raw };

    fn from(schema: StructSchema<'_>) -> RawBrandedStructSchema {
        schema.raw
    }
}
