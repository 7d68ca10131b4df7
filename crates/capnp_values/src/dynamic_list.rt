//! Lists whose elements' type is known at run time.
ghost use Rattle.std.specs.Prelude.{◌≡◌, ◌≢◌, ◌==◌, ◌<◌, true};
ghost use Rattle.capnp_units.specs.Sizes.{size_number};
ghost use Rattle.capnp_records.specs.Sets.{nodes_of};
ghost use Rattle.capnp_values_queries.specs.Types.{ty_of, is_type_of};
ghost use Rattle.capnp_values.specs.ListSizes.{size_of};
ghost use Rattle.capnp_values.specs.Sources.{size_in};

use crate::dynamic_value;
use crate::dynamic_value::Enum;
use crate::opening::{open, struct_value};
use crate::source::ListSource;
use capnp_records::set::SchemaSet;
use capnp_units::errors::Result;
use capnp_units::iter::{IndexMove, ListIter};
use capnp_values_queries::enums::EnumSchema;
use capnp_values_queries::introspect::{Type, TypeVariant};
use capnp_wire::list::ListReader;
use capnp_wire_objects::arena::ReaderArena;
use std::alloc::AllocError;

/// A list to read, of a message or of a default, whose elements can be read as its type's.
pub struct Reader<'a, A> {
    source: ListSource<'a, A>,
    set: &'a SchemaSet,
    element_type: Type,
    ghost known: { is_type_of (nodes_of set.now) element_type ≡ true },
    ghost bytewise: { size_number (size_of (ty_of element_type)) ≡ 7
        → size_number (size_in source) ≢ 1 },
}

impl<A> Clone for Reader<'_, A> {
    ghost is_clone = { λ x y. y ≡ x };

    ghost is_infallible = { λ _. Unit {0} };

    fn clone(&self) -> std::result::Result<Self, AllocError> {
        Ok(*self)
    }
}

impl<A> Copy for Reader<'_, A> {}

impl<'a, A: ReaderArena> Reader<'a, A> {
    ghost use Rattle.capnp_wire_objects.specs.Places.{seen};
    ghost use Rattle.capnp_wire.specs.Views.{seen_list};
    ghost use Rattle.capnp_values.specs.Sources.{list_seen};
    ghost use Rattle.capnp_values.specs.Shown.{shown, shown_at, GivesElements};

    /// Makes a message's list of elements of a type of the set. If the type is a struct, the
    /// elements aren't bits.
    pub fn new(reader: ListReader<'a, A>, set: &'a SchemaSet, element_type: Type) -> Self
        requires known { is_type_of (nodes_of set.now) element_type ≡ true }
        requires bytewise { size_number (size_of (ty_of element_type)) ≡ 7
            → size_number (seen_list A.segments reader).size ≢ 1 }
        ensures source { list_seen A.segments result.source ≡ seen_list A.segments reader.entry }
        ensures set { nodes_of result.set.now ≡ nodes_of set.now }
        ensures element_type { result.element_type ≡ element_type }
    {
        Reader::of_source(ListSource::Message(reader), set, element_type)
    }

    /// Makes a list of elements of a type of the set.
    pub(crate) fn of_source(
        source: ListSource<'a, A>,
        set: &'a SchemaSet,
        element_type: Type,
    ) -> Self
        requires known { is_type_of (nodes_of set.now) element_type ≡ true }
        requires bytewise { size_number (size_of (ty_of element_type)) ≡ 7
            → size_number (size_in source) ≢ 1 }
        ensures source { result.source ≡ source.entry }
        ensures set { nodes_of result.set.now ≡ nodes_of set.now }
        ensures element_type { result.element_type ≡ element_type }
    {
        Reader {
            source,
            set,
            element_type,
        }
    }

    /// Returns the source from which the list is read, for copies.
    pub fn source(&self) -> ListSource<'a, A>
        ensures { result ≡ self.now.source }
    {
        self.source
    }

    /// Returns the number of elements.
    pub fn len(&self) -> u32
        ensures { result ≡ (list_seen A.segments self.now.source).count }
    {
        self.source.len()
    }

    /// Returns whether the list is empty.
    pub fn is_empty(&self) -> bool
        ensures { result ≡ ((list_seen A.segments self.now.source).count == 0) }
    {
        self.len() == 0
    }

    /// Returns the type of the elements.
    pub fn element_type(&self) -> Type
        ensures { result ≡ self.now.element_type }
    {
        self.element_type
    }

    /// Returns the value of an element:
    /// - a plain element by the bits at its front, 0 if it is narrower;
    /// - a struct in place;
    /// - any other element as the value that its pointer names, and null as the empty value.
    ///
    /// It takes no memory, and has no limit of words.
    ///
    /// It is refused
    /// - with the kind of the fault at the element's pointer;
    /// - with `NestingLimitExceeded` if no level is left for the element;
    /// - with `WrongPointerKind`, `WrongElementSize` or `TextWithoutZeroByte` if the value there
    ///   can't be read as the elements' type.
    #[tactic(auto, using(crate::proofs::Elements::element_rules))]
    pub fn get(self, index: u32) -> Result<dynamic_value::Reader<'a, A>>
        requires { index < (list_seen A.segments self.source).count }
        ensures { seen (shown A.segments) result ≡ shown_at A.segments self.entry index }
    {
        match self.element_type.which() {
            TypeVariant::Void => Ok(dynamic_value::Reader::Void),
            TypeVariant::Bool => Ok(dynamic_value::Reader::Bool(self.source.number(index))),
            TypeVariant::Int8 => Ok(dynamic_value::Reader::Int8(self.source.number(index))),
            TypeVariant::Int16 => Ok(dynamic_value::Reader::Int16(self.source.number(index))),
            TypeVariant::Int32 => Ok(dynamic_value::Reader::Int32(self.source.number(index))),
            TypeVariant::Int64 => Ok(dynamic_value::Reader::Int64(self.source.number(index))),
            TypeVariant::UInt8 => Ok(dynamic_value::Reader::UInt8(self.source.number(index))),
            TypeVariant::UInt16 => Ok(dynamic_value::Reader::UInt16(self.source.number(index))),
            TypeVariant::UInt32 => Ok(dynamic_value::Reader::UInt32(self.source.number(index))),
            TypeVariant::UInt64 => Ok(dynamic_value::Reader::UInt64(self.source.number(index))),
            TypeVariant::Enum(raw) => {
                let schema = EnumSchema::new(self.set, raw);
                Ok(dynamic_value::Reader::Enum(Enum::new(self.source.number(index), schema)))
            }
            TypeVariant::Struct(raw) => {
                Ok(struct_value(self.source.structure(index), self.set, raw))
            }
            TypeVariant::Text
            | TypeVariant::Data
            | TypeVariant::AnyPointer
            | TypeVariant::Capability
            | TypeVariant::List(_) => {
                open(self.source.pointer(index), self.set, self.element_type)
            }
        }
    }

    /// Returns the values of the elements, in order, from both ends; each is read when it is
    /// requested.
    pub fn iter(self) -> ListIter<Reader<'a, A>, Result<dynamic_value::Reader<'a, A>>>
        ensures { GivesElements A.segments self.entry result }
    {
        ListIter::new(self, self.len())
    }
}

impl<'a, A: ReaderArena> IndexMove<u32, Result<dynamic_value::Reader<'a, A>>> for Reader<'a, A> {
    ghost use Rattle.std.specs.Prelude.{Result};
    ghost use Rattle.capnp_model.specs.Kinds.{Kind};
    ghost use Rattle.capnp_wire_objects.specs.Places.{seen};
    ghost use Rattle.capnp_values.specs.Sources.{list_seen};
    ghost use Rattle.capnp_values.specs.Shown.{Shown as What, shown, shown_at};

    ghost Shown = { Result What Kind };

    ghost shown = { seen (shown A.segments) };

    ghost count = { λ l. (list_seen A.segments l.source).count };

    ghost at = { shown_at A.segments };

    fn index_move(&self, index: u32) -> Result<dynamic_value::Reader<'a, A>> {
        self.get(index)
    }
}

impl<'a, A: ReaderArena> IntoIterator for Reader<'a, A> {
    ghost use Rattle.capnp_values.specs.Shown.{GivesElements};

    type Item = Result<dynamic_value::Reader<'a, A>>;

    type IntoIter = ListIter<Reader<'a, A>, Result<dynamic_value::Reader<'a, A>>>;

    ghost into_iter_gives = { GivesElements A.segments };

    fn into_iter(self) -> ListIter<Reader<'a, A>, Result<dynamic_value::Reader<'a, A>>> {
        self.iter()
    }
}
