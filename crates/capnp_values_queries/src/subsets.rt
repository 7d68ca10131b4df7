//! Some of the fields of a struct or a group.

ghost use Rattle.std.specs.Prelude.{◌≡◌, ◌≤◌, ◌<◌, true, nat_lt, length};
ghost use Rattle.std.specs.List.{list_all};
ghost use Rattle.capnp_values_queries.specs.Fields.{field_count};
ghost use Rattle.capnp_values_queries.specs.Structs.{fields_of_struct};

use crate::fields::Field;
use crate::structs::StructSchema;
use capnp_units::iter::{IndexMove, ShortListIter};

/// Some of the fields of a struct or a group, in an order of their own.
#[derive(Clone, Copy, Debug)]
pub struct FieldSubset<'a> {
    parent: StructSchema<'a>,
    indices: &'a [u16],
    pub ghost inside: { list_all (λ i. nat_lt i (field_count (fields_of_struct parent))) indices.now ≡ true },
    pub ghost few: { length indices.now ≤ 65535 },
}

impl<'a> FieldSubset<'a> {
    ghost use Rattle.std.specs.Prelude.{◌≡◌, ◌==◌, ◌<◌, ◌≤◌, true, nat_lt, length, slice_index};
    ghost use Rattle.std.specs.List.{list_all};
    ghost use Rattle.capnp_units.specs.Items.{items_from, items_left};
    ghost use Rattle.capnp_values_queries.specs.Fields.{field_count};
    ghost use Rattle.capnp_values_queries.specs.Structs.{fields_of_struct};
    ghost use Rattle.capnp_values_queries.specs.Handles.{chosen_at};

    pub(crate) fn new(parent: StructSchema<'a>, indices: &'a [u16]) -> FieldSubset<'a>
        requires inside { list_all (λ i. nat_lt i (field_count (fields_of_struct parent)))
            indices.now ≡ true }
        requires few { length indices.now ≤ 65535 }
        ensures parent { result.parent ≡ parent.entry }
        ensures indices { result.indices.now ≡ indices.now }
    {
        FieldSubset { parent, indices }
    }

    /// Returns the number of fields, 0 to 65,535.
    pub fn len(&self) -> u16
        ensures { result ≡ length self.now.indices.now }
    {
        self.indices.len() as u16
    }

    /// Returns whether there is no field.
    pub fn is_empty(&self) -> bool
        ensures { result ≡ (length self.now.indices.now == 0) }
    {
        self.len() == 0
    }

    /// Returns the field at a place, which is below the length.
    pub fn get(self, index: u16) -> Field<'a>
        requires { index < length self.indices.now }
        ensures parent { result.parent ≡ self.entry.parent }
        ensures index { result.index ≡ slice_index self.entry.indices.now index }
    {
        Field::new(self.parent, self.indices[index as usize])
    }

    /// Returns the fields in order, from both ends.
    pub fn iter(self) -> ShortListIter<FieldSubset<'a>, Field<'a>>
        ensures { items_left chosen_at result
            ≡ items_from (chosen_at self.entry) 0 (length self.entry.indices.now) }
    {
        ShortListIter::new(self, self.len())
    }
}

impl<'a> IndexMove<u16, Field<'a>> for FieldSubset<'a> {
    ghost use Rattle.capnp_values_queries.specs.Handles.{SeenField, seen_field, chosen_at};

    ghost Shown = { SeenField };

    ghost shown = { seen_field };

    ghost count = { λ subset. length subset.indices.now };

    ghost at = { chosen_at };

    fn index_move(&self, index: u16) -> Field<'a> {
        self.get(index)
    }
}

impl<'a> IntoIterator for FieldSubset<'a> {
    ghost use Rattle.capnp_units.specs.Items.{items_from, items_left};
    ghost use Rattle.capnp_values_queries.specs.Handles.{chosen_at};

    type Item = Field<'a>;

    type IntoIter = ShortListIter<FieldSubset<'a>, Field<'a>>;

    ghost into_iter_gives = { λ subset it.
        items_left chosen_at it ≡ items_from (chosen_at subset) 0 (length subset.indices.now) };

    fn into_iter(self) -> ShortListIter<FieldSubset<'a>, Field<'a>> {
        self.iter()
    }
}
