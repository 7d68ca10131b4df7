//! The nodes of a schema set by their ids.

ghost use Rattle.std.specs.Prelude.{◌≡◌, ℕ, true, map};
ghost use Rattle.capnp_model.specs.Schemas.{Shape};
ghost use Rattle.capnp_model.specs.Accepted.{no_shape, union_place};
ghost use Rattle.capnp_records.specs.NodeViews.{struct_of};
ghost use Rattle.capnp_calls_versions.specs.Holders.{shape_by, are_sound, AreFoundByName};

use capnp_records::node::{EnumerantRecord, FieldRecord, StructRecord};
use capnp_records::set::SchemaSet;
use capnp_values_queries::names::place_of;

/// The nodes of a schema set.
#[derive(Clone, Copy)]
pub(crate) struct Nodes<'a> {
    set: &'a SchemaSet,
}

/// The parts of a struct or a group: its sections, the first bit of its discriminant, and its
/// fields.
#[derive(Clone, Copy)]
pub(crate) struct Holder<'a> {
    pub(crate) id: u64,
    pub(crate) words: u16,
    pub(crate) pointers: u16,
    pub(crate) union: Option<u64>,
    pub(crate) fields: &'a [FieldRecord],
    /// The places of the fields, in the order of their names.
    by_name: &'a [u16],
}

/// Returns the parts of an id that doesn't name a struct.
fn nothing() -> Holder<'static>
    ensures shape { (groups : ℕ → Shape) → shape_by groups result ≡ no_shape }
    ensures sound { are_sound result.fields.now ≡ true }
    ensures named { AreFoundByName result }
{
    Holder {
        id: 0,
        words: 0,
        pointers: 0,
        union: None,
        fields: &[],
        by_name: &[],
    }
}

/// Returns the first bit of the discriminant, if there is a union.
fn union_place(record: &StructRecord) -> Option<u64>
    ensures { result ≡ union_place (struct_of record.now) }
{
    if record.discriminant_count == 0 {
        None
    } else {
        Some(16 * u64::from(record.discriminant_offset))
    }
}

impl<'a> Holder<'a> {
    ghost use Rattle.std.specs.Prelude.{◌≡◌, map, option_copied, IfSome};
    ghost use Rattle.capnp_records.specs.NodeViews.{field_of};
    ghost use Rattle.capnp_values_queries.specs.Names.{place_named};
    ghost use Rattle.capnp_calls_versions.specs.Holders.{AreFoundByName};
    ghost use Rattle.capnp_calls_versions.specs.Ways.{first_named};

    /// Returns the place of the field of a name.
    pub(crate) fn place(&self, name: &str) -> Option<u16>
        requires { AreFoundByName self.now }
        ensures { result ≡ place_named name.now 0 (map field_of self.now.fields.now) }
    {
        place_of(self.fields, self.by_name, name).0
    }

    /// Returns the place of the field of a name. If the place is known, no name is compared.
    fn known_or_found(&self, name: &str, known: Option<Option<u16>>) -> Option<u16>
        requires named { AreFoundByName self.now }
        requires known { IfSome known
            (λ place. place ≡ place_named name.now 0 (map field_of self.now.fields.now)) }
        ensures { result ≡ place_named name.now 0 (map field_of self.now.fields.now) }
    {
        match known {
            Some(place) => place,
            None => self.place(name),
        }
    }

    /// Returns the field of a name, whose place may be known.
    pub(crate) fn field(&self, name: &str, known: Option<Option<u16>>) -> Option<&'a FieldRecord>
        requires named { AreFoundByName self.now }
        requires known { IfSome known
            (λ place. place ≡ place_named name.now 0 (map field_of self.now.fields.now)) }
        ensures { option_copied result ≡ first_named name.now self.now.fields.now }
    {
        match self.known_or_found(name, known) {
            None => None,
            Some(place) => Some(&self.fields[place as usize]),
        }
    }
}

impl<'a> Nodes<'a> {
    ghost use Rattle.std.specs.Prelude.{◌≡◌, ◌-◌, ℕ, true, map, length};
    ghost use Rattle.capnp_model.specs.Accepted.{shape_in};
    ghost use Rattle.capnp_records.specs.NodeViews.{enumerant_of};
    ghost use Rattle.capnp_records.specs.Sets.{nodes_of};
    ghost use Rattle.capnp_calls_versions.specs.Holders.{held_nodes, held_schema, shape_by, are_sound, AreFoundByName};

    /// Makes the nodes of a set.
    pub(crate) fn new(set: &'a SchemaSet) -> Nodes<'a>
        ensures { held_nodes result ≡ nodes_of set.now }
    {
        Nodes { set }
    }

    /// Returns the most levels of groups.
    pub(crate) fn levels(&self) -> usize
        ensures { result ≡ length (held_nodes self.now) }
    {
        self.set.nodes().len()
    }

    /// Returns the parts of the struct or the group of an id, at n levels of groups.
    pub(crate) fn holder(&self, levels: usize, id: u64) -> Holder<'a>
        ensures shape { shape_in (held_nodes self.now) levels id
            ≡ shape_by (λ g. shape_in (held_nodes self.now) (levels - 1) g) result }
        ensures sound { are_sound result.fields.now ≡ true }
        ensures named { AreFoundByName result }
    {
        if levels == 0 {
            return nothing();
        }
        let Some(raw) = self.set.struct_or_group_by_id(id) else {
            return nothing();
        };
        let record = self.set.struct_record(raw);
        Holder {
            id,
            words: record.data_word_count,
            pointers: record.pointer_count,
            union: union_place(record),
            fields: &record.fields,
            by_name: &self.set.field_tables(raw).by_name,
        }
    }

    /// Returns the enumerants of the enum of an id.
    pub(crate) fn enumerants(&self, id: u64) -> &'a [EnumerantRecord]
        ensures { map (λ e. e.name) (map enumerant_of result.now)
            ≡ (held_schema self.now).names_of id }
    {
        match self.set.enum_by_id(id) {
            Some(raw) => self.set.enumerants(raw),
            None => &[],
        }
    }

    /// Returns whether the id is a group's.
    pub(crate) fn is_group(&self, id: u64) -> bool
        ensures { result ≡ (held_schema self.now).is_group id }
    {
        match self.set.struct_or_group_by_id(id) {
            Some(raw) => self.set.struct_record(raw).is_group,
            None => false,
        }
    }
}
