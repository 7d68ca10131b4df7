//! Fields of structs and groups.

ghost use Rattle.std.specs.Prelude.{◌<◌, ◌≡◌, ◌==◌, ◌&&◌, ◌++◌};
ghost use Rattle.std.proofs.Common.{rules};
ghost use Rattle.std.specs.Cmp.Rules.{comparing, hashing};
ghost use Rattle.std.specs.Hash as fed;
ghost use Rattle.std.specs.Ordering.{on, eq_of_both};
ghost use Rattle.capnp_values_queries.specs.Fields.{field_count};
ghost use Rattle.capnp_values_queries.specs.Structs.{fields_of_struct};

use crate::annotations::AnnotationList;
use crate::introspect::{Type, TypeVariant};
use crate::named::{group_in, type_in};
use crate::slots::{FieldPlace, slot_place};
use crate::structs::StructSchema;
use capnp_records::node::{FieldBody, FieldRecord};
use capnp_units::errors::Result;
use capnp_units::iter::{IndexMove, ShortListIter};
use std::hash::{Hash, Hasher};

/// A field of a struct or a group. Two fields are equal if their structs' ids and their indices are
/// equal.
#[derive(Clone, Copy, Debug)]
pub struct Field<'a> {
    parent: StructSchema<'a>,
    index: u16,
    pub ghost inside: { index < field_count (fields_of_struct parent) },
}

impl<'a> Field<'a> {
    ghost use Rattle.std.specs.Prelude.{◌≡◌, ◌<◌, true, Some, option_map, IsOkAnd};
    ghost use Rattle.capnp_records.specs.NodeViews.{field_of};
    ghost use Rattle.capnp_values_queries.specs.Types.{ty_of, is_type_of};
    ghost use Rattle.capnp_values_queries.specs.Fields.{field_count, type_of_body};
    ghost use Rattle.capnp_values_queries.specs.Structs.{nodes_around, fields_of_struct, field_annotations};
    ghost use Rattle.capnp_values_queries.specs.Annotations.{AreAnnotationsOf};
    ghost use Rattle.capnp_values_queries.specs.Handles.{entry_of_field, IsFieldRecord, body_of_place, IsPlaceIn};

    pub(crate) fn new(parent: StructSchema<'a>, index: u16) -> Field<'a>
        requires { index < field_count (fields_of_struct parent) }
        ensures parent { result.parent ≡ parent.entry }
        ensures index { result.index ≡ index }
    {
        Field { parent, index }
    }

    /// Returns the struct or the group of the field.
    pub fn parent(&self) -> StructSchema<'a>
        ensures { result ≡ self.now.parent }
    {
        self.parent
    }

    /// Returns the place among the struct's fields, from 0 on.
    pub fn get_index(&self) -> u16
        ensures { result ≡ self.now.index }
    {
        self.index
    }

    /// Returns the description of the field in the struct's node.
    pub fn get_proto(&self) -> &'a FieldRecord
        ensures { IsFieldRecord self.now.parent self.now.index (field_of result.now) }
    {
        &self.parent.record().fields[self.index as usize]
    }

    /// Returns the field's type. The type of a group is the struct of its node.
    pub fn get_type(&self) -> Type
        ensures ty { option_map (λ e. type_of_body e.body) (entry_of_field self.now)
            ≡ Some (ty_of result) }
        ensures of_set { is_type_of (nodes_around self.now.parent) result ≡ true }
    {
        let set = self.parent.set();
        match &self.get_proto().body {
            FieldBody::Slot { ty, .. } => type_in(set, *ty),
            FieldBody::Group { node } => Type::from(TypeVariant::Struct(group_in(set, *node))),
        }
    }

    /// Returns the annotations of the field.
    pub fn get_annotations(self) -> Result<AnnotationList<'a>>
        ensures { let s = self.entry.parent in
            IsOkAnd result
            (AreAnnotationsOf (nodes_around s) (field_annotations s self.entry.index)) }
    {
        let set = self.parent.set();
        Ok(AnnotationList::new(set, &self.get_proto().annotations))
    }

    /// Returns the place of the field in its struct, with its default, or the field's group.
    pub fn place(&self) -> FieldPlace<'a>
        ensures body { option_map (λ e. e.body) (entry_of_field self.now) ≡ Some
            (body_of_place result) }
        ensures of_set { IsPlaceIn (nodes_around self.now.parent) result }
    {
        let set = self.parent.set();
        match &self.get_proto().body {
            FieldBody::Slot {
                offset,
                ty,
                default,
            } => slot_place(set, *offset, *ty, default.as_ref()),
            FieldBody::Group { node } => FieldPlace::Group {
                schema: StructSchema::new(set, group_in(set, *node)),
            },
        }
    }
}

impl PartialEq for Field<'_> {
    ghost eq = { eq_of_both (on (λ field. field.parent.raw.id) ◌==◌)
        (on (λ field. field.index) ◌==◌) };

    ghost laws = { Prim.search (comparing, rules) };

    fn eq(&self, other: &Field<'_>) -> bool {
        self.parent == other.parent && self.index == other.index
    }
}

impl Eq for Field<'_> {
    ghost laws = { Prim.search (comparing, rules) };
}

impl Hash for Field<'_> {
    ghost hash_input = { λ field. fed.u64 field.parent.raw.id ++ fed.u16 field.index };

    ghost respects_eq = { Prim.search (hashing, rules) };

    fn hash<H: Hasher>(&self, state: &mut H) {
        self.parent.hash(state);
        self.index.hash(state);
    }
}

/// The fields of a struct or a group, by index.
#[derive(Clone, Copy, Debug)]
pub struct FieldList<'a> {
    parent: StructSchema<'a>,
}

impl<'a> FieldList<'a> {
    ghost use Rattle.std.specs.Prelude.{◌≡◌, ◌==◌, ◌<◌};
    ghost use Rattle.capnp_units.specs.Items.{items_from, items_left};
    ghost use Rattle.capnp_values_queries.specs.Fields.{field_count};
    ghost use Rattle.capnp_values_queries.specs.Structs.{fields_of_struct};
    ghost use Rattle.capnp_values_queries.specs.Handles.{listed_at};

    pub(crate) fn new(parent: StructSchema<'a>) -> FieldList<'a>
        ensures { result.parent ≡ parent.entry }
    {
        FieldList { parent }
    }

    /// Returns the number of fields, 0 to 65,535.
    pub fn len(&self) -> u16
        ensures { result ≡ field_count (fields_of_struct self.now.parent) }
    {
        self.parent.record().fields.len() as u16
    }

    /// Returns whether there is no field.
    pub fn is_empty(&self) -> bool
        ensures { result ≡ (field_count (fields_of_struct self.now.parent) == 0) }
    {
        self.len() == 0
    }

    /// Returns the field at an index, which is below the length.
    pub fn get(self, index: u16) -> Field<'a>
        requires { index < field_count (fields_of_struct self.parent) }
        ensures parent { result.parent ≡ self.entry.parent }
        ensures index { result.index ≡ index }
    {
        Field::new(self.parent, index)
    }

    /// Returns the fields in order, from both ends.
    pub fn iter(self) -> ShortListIter<FieldList<'a>, Field<'a>>
        ensures { items_left listed_at result
            ≡ items_from (listed_at self.entry) 0
            (field_count (fields_of_struct self.entry.parent)) }
    {
        ShortListIter::new(self, self.len())
    }
}

impl<'a> IndexMove<u16, Field<'a>> for FieldList<'a> {
    ghost use Rattle.capnp_values_queries.specs.Handles.{SeenField, seen_field, listed_at};

    ghost Shown = { SeenField };

    ghost shown = { seen_field };

    ghost count = { λ list. field_count (fields_of_struct list.parent) };

    ghost at = { listed_at };

    fn index_move(&self, index: u16) -> Field<'a> {
        self.get(index)
    }
}

impl<'a> IntoIterator for FieldList<'a> {
    ghost use Rattle.capnp_units.specs.Items.{items_from, items_left};
    ghost use Rattle.capnp_values_queries.specs.Handles.{listed_at};

    type Item = Field<'a>;

    type IntoIter = ShortListIter<FieldList<'a>, Field<'a>>;

    ghost into_iter_gives = { λ list it.
        items_left listed_at it
        ≡ items_from (listed_at list) 0 (field_count (fields_of_struct list.parent)) };

    fn into_iter(self) -> ShortListIter<FieldList<'a>, Field<'a>> {
        self.iter()
    }
}
