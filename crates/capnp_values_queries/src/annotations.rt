//! Annotations of nodes, fields and enumerants.

ghost use Rattle.std.specs.Prelude.{◌≡◌, ◌<◌, ◌^◌, ◌-◌, true, map, length};
ghost use Rattle.capnp_model.specs.Accepted.{names_its_sort};
ghost use Rattle.capnp_records.specs.NodeViews.{annotation_of, base_of};
ghost use Rattle.capnp_records.specs.Sets.{nodes_of};
ghost use Rattle.capnp_values_queries.specs.Fields.{are_named};

use crate::introspect::Type;
use crate::named::type_in;
use capnp_records::node::{AnnotationRecord, Value};
use capnp_records::set::SchemaSet;
use capnp_units::iter::{IndexMove, ListIter};

/// An annotation of a node, a field or an enumerant of a set.
#[derive(Clone, Copy, Debug)]
pub struct Annotation<'a> {
    set: &'a SchemaSet,
    proto: &'a AnnotationRecord,
    pub ghost named: { names_its_sort (nodes_of set.now) (base_of proto.now.ty.base) ≡ true },
}

impl<'a> Annotation<'a> {
    ghost use Rattle.std.specs.Prelude.{◌≡◌, true};
    ghost use Rattle.capnp_model.specs.Schemas.{type_of};
    ghost use Rattle.capnp_records.specs.NodeViews.{annotation_of};
    ghost use Rattle.capnp_records.specs.Sets.{nodes_of};
    ghost use Rattle.capnp_values_queries.specs.Types.{ty_of, is_type_of};

    /// Returns the set of the annotation.
    pub fn set(&self) -> &'a SchemaSet
        ensures { result ≡ self.now.set }
    {
        self.set
    }

    /// Returns the id of the annotation's declaration.
    pub fn get_id(&self) -> u64
        ensures { result ≡ (annotation_of self.now.proto.now).id }
    {
        self.proto.id
    }

    /// Returns the type of the annotation's value.
    pub fn get_type(&self) -> Type
        ensures ty { ty_of result ≡ type_of (annotation_of self.now.proto.now).type }
        ensures of_set { is_type_of (nodes_of self.now.set.now) result ≡ true }
    {
        type_in(self.set, self.proto.ty)
    }

    /// Returns the value as it is in the node.
    pub fn get_value(&self) -> &'a Value
        ensures { result.now ≡ self.now.proto.now.value }
    {
        &self.proto.value
    }
}

/// The annotations of a node, a field or an enumerant of a set.
#[derive(Clone, Copy, Debug)]
pub struct AnnotationList<'a> {
    set: &'a SchemaSet,
    annotations: &'a [AnnotationRecord],
    pub ghost named: { are_named (nodes_of set.now) (map annotation_of annotations.now) ≡ true },
    pub ghost few: { length annotations.now < 2 ^ 29 },
}

impl<'a> AnnotationList<'a> {
    ghost use Rattle.std.specs.Prelude.{◌≡◌, ◌==◌, ◌<◌, ◌^◌, true, map, length, find, option_map, slice_get, Some, IfSome};
    ghost use Rattle.capnp_units.specs.Items.{items_from, items_left};
    ghost use Rattle.capnp_records.specs.NodeViews.{annotation_of};
    ghost use Rattle.capnp_records.specs.Sets.{nodes_of};
    ghost use Rattle.capnp_values_queries.specs.Fields.{are_named};
    ghost use Rattle.capnp_values_queries.specs.Annotations.{annotation_seen, annotated_at};

    pub(crate) fn new(set: &'a SchemaSet, annotations: &'a [AnnotationRecord]) -> AnnotationList<'a>
        requires named { are_named (nodes_of set.now) (map annotation_of annotations.now) ≡ true }
        requires few { length annotations.now < 2 ^ 29 }
        ensures set { result.set ≡ set.entry }
        ensures annotations { result.annotations.now ≡ annotations.now }
    {
        AnnotationList { set, annotations }
    }

    /// Returns the number of annotations, below 2^29.
    pub fn len(&self) -> u32
        ensures { result ≡ length self.now.annotations.now }
    {
        self.annotations.len() as u32
    }

    /// Returns whether there is no annotation.
    pub fn is_empty(&self) -> bool
        ensures { result ≡ (length self.now.annotations.now == 0) }
    {
        self.len() == 0
    }

    /// Returns the annotation at an index, which is below the length.
    pub fn get(self, index: u32) -> Annotation<'a>
        requires { index < length self.annotations.now }
        ensures set { result.set ≡ self.entry.set }
        ensures annotation { slice_get self.entry.annotations.now index ≡ Some result.proto.now }
    {
        let proto = &self.annotations[index as usize];
        Annotation {
            set: self.set,
            proto,
        }
    }

    /// Returns the first annotation of an id.
    pub fn find(self, id: u64) -> Option<Annotation<'a>>
        ensures annotation { option_map annotation_seen result
            ≡ find (λ a. a.id == id) self.entry.annotations.now }
        ensures set { IfSome result (λ a. a.set ≡ self.entry.set) }
    {
        for i in 0..self.len() {
            let annotation = self.get(i);
            if annotation.get_id() == id {
                return Some(annotation);
            }
        }
        None
    }

    /// Returns the annotations in order, from both ends.
    pub fn iter(self) -> ListIter<AnnotationList<'a>, Annotation<'a>>
        ensures { items_left annotated_at result
            ≡ items_from (annotated_at self.entry) 0 (length self.entry.annotations.now) }
    {
        ListIter::new(self, self.len())
    }
}

impl<'a> IndexMove<u32, Annotation<'a>> for AnnotationList<'a> {
    ghost use Rattle.capnp_values_queries.specs.Annotations.{SeenAnnotation, seen_annotation, annotated_at};

    ghost Shown = { SeenAnnotation };

    ghost shown = { seen_annotation };

    ghost count = { λ list. length list.annotations.now };

    ghost at = { annotated_at };

    fn index_move(&self, index: u32) -> Annotation<'a> {
        self.get(index)
    }
}

impl<'a> IntoIterator for AnnotationList<'a> {
    ghost use Rattle.capnp_units.specs.Items.{items_from, items_left};
    ghost use Rattle.capnp_values_queries.specs.Annotations.{annotated_at};

    type Item = Annotation<'a>;

    type IntoIter = ListIter<AnnotationList<'a>, Annotation<'a>>;

    ghost into_iter_gives = { λ list it.
        items_left annotated_at it
        ≡ items_from (annotated_at list) 0 (length list.annotations.now) };

    fn into_iter(self) -> ListIter<AnnotationList<'a>, Annotation<'a>> {
        self.iter()
    }
}
