//! Enumerants of enums.

ghost use Rattle.std.specs.Prelude.{◌≡◌, ◌<◌, ◌==◌, ◌++◌};
ghost use Rattle.std.proofs.Common.{rules};
ghost use Rattle.std.specs.Cmp.Rules.{comparing, hashing};
ghost use Rattle.std.specs.Hash as fed;
ghost use Rattle.std.specs.Ordering.{on, eq_of_both};
ghost use Rattle.capnp_values_queries.specs.Enums.{enumerant_count};

use crate::annotations::AnnotationList;
use crate::enums::EnumSchema;
use capnp_records::node::EnumerantRecord;
use capnp_units::errors::Result;
use capnp_units::iter::{IndexMove, ShortListIter};
use std::hash::{Hash, Hasher};

/// An enumerant of an enum. Two enumerants are equal if their enums' ids and their ordinals are
/// equal.
#[derive(Clone, Copy, Debug)]
pub struct Enumerant<'a> {
    parent: EnumSchema<'a>,
    ordinal: u16,
    pub ghost inside: { ordinal < enumerant_count parent },
}

impl<'a> Enumerant<'a> {
    ghost use Rattle.std.specs.Prelude.{◌≡◌, ◌<◌, IsOkAnd};
    ghost use Rattle.capnp_records.specs.NodeViews.{enumerant_of};
    ghost use Rattle.capnp_values_queries.specs.Enums.{nodes_of_enum, enumerant_annotations, enumerant_count, IsEnumerantRecord};
    ghost use Rattle.capnp_values_queries.specs.Annotations.{AreAnnotationsOf};

    pub(crate) fn new(parent: EnumSchema<'a>, ordinal: u16) -> Enumerant<'a>
        requires { ordinal < enumerant_count parent }
        ensures parent { result.parent ≡ parent.entry }
        ensures ordinal { result.ordinal ≡ ordinal }
    {
        Enumerant { parent, ordinal }
    }

    /// Returns the enum of the enumerant.
    pub fn get_containing_enum(self) -> EnumSchema<'a>
        ensures { result ≡ self.entry.parent }
    {
        self.parent
    }

    /// Returns the value, which is the place among the enumerants from 0 on.
    pub fn get_ordinal(self) -> u16
        ensures { result ≡ self.entry.ordinal }
    {
        self.ordinal
    }

    /// Returns the description of the enumerant in the enum's node.
    pub fn get_proto(self) -> &'a EnumerantRecord
        ensures { IsEnumerantRecord self.entry.parent self.entry.ordinal (enumerant_of result.now) }
    {
        &self.parent.records()[self.ordinal as usize]
    }

    /// Returns the annotations of the enumerant.
    pub fn get_annotations(self) -> Result<AnnotationList<'a>>
        ensures { let e = self.entry.parent in
            IsOkAnd result
            (AreAnnotationsOf (nodes_of_enum e) (enumerant_annotations e self.entry.ordinal)) }
    {
        let set = self.parent.set();
        Ok(AnnotationList::new(set, &self.get_proto().annotations))
    }
}

impl PartialEq for Enumerant<'_> {
    ghost eq = { eq_of_both (on (λ enumerant. enumerant.parent.raw.id) ◌==◌)
        (on (λ enumerant. enumerant.ordinal) ◌==◌) };

    ghost laws = { Prim.search (comparing, rules) };

    fn eq(&self, other: &Enumerant<'_>) -> bool {
        self.parent == other.parent && self.ordinal == other.ordinal
    }
}

impl Eq for Enumerant<'_> {
    ghost laws = { Prim.search (comparing, rules) };
}

impl Hash for Enumerant<'_> {
    ghost hash_input = { λ enumerant.
        fed.u64 enumerant.parent.raw.id ++ fed.u16 enumerant.ordinal };

    ghost respects_eq = { Prim.search (hashing, rules) };

    fn hash<H: Hasher>(&self, state: &mut H) {
        self.parent.hash(state);
        self.ordinal.hash(state);
    }
}

/// The enumerants of an enum, by ordinal.
#[derive(Clone, Copy, Debug)]
pub struct EnumerantList<'a> {
    parent: EnumSchema<'a>,
}

impl<'a> EnumerantList<'a> {
    ghost use Rattle.std.specs.Prelude.{◌≡◌, ◌==◌, ◌<◌};
    ghost use Rattle.capnp_units.specs.Items.{items_from, items_left};
    ghost use Rattle.capnp_values_queries.specs.Enums.{enumerant_count};
    ghost use Rattle.capnp_values_queries.specs.Ordinals.{enumerated_at};

    pub(crate) fn new(parent: EnumSchema<'a>) -> EnumerantList<'a>
        ensures { result.parent ≡ parent.entry }
    {
        EnumerantList { parent }
    }

    /// Returns the number of enumerants, 0 to 65,535.
    pub fn len(&self) -> u16
        ensures { result ≡ enumerant_count self.now.parent }
    {
        self.parent.records().len() as u16
    }

    /// Returns whether there is no enumerant.
    pub fn is_empty(&self) -> bool
        ensures { result ≡ (enumerant_count self.now.parent == 0) }
    {
        self.len() == 0
    }

    /// Returns the enumerant of an ordinal, which is below the length.
    pub fn get(self, ordinal: u16) -> Enumerant<'a>
        requires { ordinal < enumerant_count self.parent }
        ensures parent { result.parent ≡ self.entry.parent }
        ensures ordinal { result.ordinal ≡ ordinal }
    {
        Enumerant::new(self.parent, ordinal)
    }

    /// Returns the enumerants in order, from both ends.
    pub fn iter(self) -> ShortListIter<EnumerantList<'a>, Enumerant<'a>>
        ensures { items_left enumerated_at result
            ≡ items_from (enumerated_at self.entry) 0 (enumerant_count self.entry.parent) }
    {
        ShortListIter::new(self, self.len())
    }
}

impl<'a> IndexMove<u16, Enumerant<'a>> for EnumerantList<'a> {
    ghost use Rattle.capnp_values_queries.specs.Ordinals.{SeenEnumerant, seen_enumerant, enumerated_at};

    ghost Shown = { SeenEnumerant };

    ghost shown = { seen_enumerant };

    ghost count = { λ list. enumerant_count list.parent };

    ghost at = { enumerated_at };

    fn index_move(&self, index: u16) -> Enumerant<'a> {
        self.get(index)
    }
}

impl<'a> IntoIterator for EnumerantList<'a> {
    ghost use Rattle.capnp_units.specs.Items.{items_from, items_left};
    ghost use Rattle.capnp_values_queries.specs.Ordinals.{enumerated_at};

    type Item = Enumerant<'a>;

    type IntoIter = ShortListIter<EnumerantList<'a>, Enumerant<'a>>;

    ghost into_iter_gives = { λ list it.
        items_left enumerated_at it
        ≡ items_from (enumerated_at list) 0 (enumerant_count list.parent) };

    fn into_iter(self) -> ShortListIter<EnumerantList<'a>, Enumerant<'a>> {
        self.iter()
    }
}
