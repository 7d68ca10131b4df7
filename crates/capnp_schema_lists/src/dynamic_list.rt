//! Lists whose elements' type is known at run time, to write.
ghost use Rattle.std.specs.Prelude.{◌≡◌, ◌↔◌, ◌==◌, ◌<◌, [], true, None, Err, IfOk, OnErr};
ghost use Rattle.capnp_model.specs.Accepted.{schema_of};
ghost use Rattle.capnp_model.specs.Calls.{initn, element_content};
ghost use Rattle.capnp_model.specs.Edits.{edit_element};
ghost use Rattle.capnp_model.specs.Kinds.{TypeMismatch};
ghost use Rattle.capnp_units.specs.Segments.{words_in};
ghost use Rattle.capnp_records.specs.Sets.{nodes_of};
ghost use Rattle.capnp_values_queries.specs.Structs.{shape_of_struct};
ghost use Rattle.capnp_values_queries.specs.Types.{ty_of, is_type_of};
ghost use Rattle.capnp_schema_structs.specs.Edits.{IsThere, HoldsShape};
ghost use Rattle.capnp_schema_structs.specs.Given.{is_flat};
ghost use Rattle.capnp_schema_structs.specs.Inits.{struct_named};
ghost use Rattle.capnp_schema_structs.specs.Puts.{answered};
ghost use Rattle.capnp_schema_lists.specs.Lists.{IsListThere};
ghost use Rattle.capnp_schema_lists.specs.Elements.{Holds, HoldsStructs, element_edit};
ghost use Rattle.capnp_copy_arenas.specs.Elements.{first_element};
ghost use Rattle.capnp_wire.specs.Views.{list_at};
ghost use Rattle.capnp_values.specs.Sources.{list_seen};
ghost use Rattle.capnp_schema_lists.specs.Readers.{IsBytewise, list_of};
ghost use Rattle.capnp_copy_arenas.specs.Refusals.{IsSizeOrRefusal};
ghost use Rattle.capnp_schema_lists.specs.Builders.{IsReadyList, IsPartAt, ListStays, KeepsWords, PutsElement, SetsElementByHandle};
ghost use Rattle.capnp_schema_structs.specs.Values.{struct_given};
ghost use Rattle.capnp_schema_lists.specs.Values.{element_given};

use crate::holding;
use crate::init::init_element;
use crate::laws::elements_as_structs;
use crate::places::element_struct;
use crate::values::set_value;
use capnp_copy_arenas::arena::{BuilderArena, Memory};
use capnp_copy_arenas::elements::first_element;
use capnp_copy_arenas::init::ListPlace;
use capnp_layout_builders::list_builder::ListBuilder;
use capnp_records::set::SchemaSet;
use capnp_schema_structs::dynamic_struct;
use capnp_schema_structs::init::Part;
use capnp_units::errors::{Error, Result};
use capnp_units::kinds::ErrorKind;
use capnp_values::dynamic_list::Reader;
use capnp_values::dynamic_value;
use capnp_values_queries::introspect::{Type, TypeVariant};
use capnp_values_queries::structs::StructSchema;
use capnp_wire::list::ListReader;
use capnp_wire_objects::arena::ReaderArena;

/// Returns whether the elements of a list fit their type, as its builder requires. Plain elements
/// need the bits of their type, structs their schema's two sizes, all others their pointers.
pub fn holds<A: BuilderArena>(
    builder: &ListBuilder<'_, A>,
    set: &SchemaSet,
    element_type: Type,
) -> bool
    requires known { is_type_of (nodes_of set.now) element_type ≡ true }
    ensures { (result ≡ true) ↔ (Holds builder.now.place (ty_of element_type)
        × HoldsStructs (schema_of (nodes_of set.now)) builder.now.place (ty_of element_type)) }
{
    holding::holds(builder.place, set, element_type)
}

/// Returns the list at a place, to read under its elements' type.
fn read_at<'a, A: BuilderArena>(
    arena: &'a A,
    place: ListPlace,
    set: &'a SchemaSet,
    element_type: Type,
) -> Reader<'a, A>
    requires there { IsListThere (words_in (A.segments arena.now)) place }
    requires known { is_type_of (nodes_of set.now) element_type ≡ true }
    requires bytewise { IsBytewise place (ty_of element_type) }
    ensures source { list_seen A.segments result.source
        ≡ list_at (A.segments arena.now) (A.nesting arena.now) (first_element place) place.size
        place.count place.data_words place.pointers }
    ensures set { nodes_of result.set.now ≡ nodes_of set.now }
    ensures element_type { result.element_type ≡ element_type }
{
    let reader = ListReader::at(
        arena,
        first_element(place),
        place.count,
        place.size,
        place.data_words,
        place.pointers,
    );
    Reader::new(reader, set, element_type)
}

/// A list to write, whose elements are of a type of a set.
#[derive(Drop)]
pub struct Builder<'a, A> {
    pub memory: &'a mut Memory<A>,
    pub place: ListPlace,
    pub set: &'a SchemaSet,
    pub element_type: Type,
}

impl<'a, A: BuilderArena> Builder<'a, A> {
    ghost use Rattle.std.specs.Borrow.{sem};
    ghost use Rattle.capnp_schema_structs.specs.Builders.{IsReady as IsStructReady};
    ghost use Rattle.capnp_schema_lists.specs.Lending.{LendsListBuilder, LendsElementStruct};

    /// Makes the builder of a list of elements of a type of the set. The whole list exists, and its
    /// elements have the bits or the pointers of their type, as `holds` checks.
    pub fn new(builder: ListBuilder<'a, A>, set: &'a SchemaSet, element_type: Type) -> Self
        requires there { IsListThere (words_in (A.segments builder.memory.now.arena))
            builder.place }
        requires holds { Holds builder.place (ty_of element_type) }
        requires sizes { HoldsStructs (schema_of (nodes_of set.now)) builder.place
            (ty_of element_type) }
        requires known { is_type_of (nodes_of set.now) element_type ≡ true }
        ensures same { result.memory.ghost_name ≡ builder.entry.memory.ghost_name }
        ensures now { result.memory.now ≡ builder.entry.memory.now }
        ensures place { result.place ≡ builder.entry.place }
        ensures set { result.set.now ≡ set.now }
        ensures element_type { result.element_type ≡ element_type }
        ensures ready { IsReadyList A.segments result }
    {
        let ListBuilder { memory, place } = builder;
        Builder {
            memory,
            place,
            set,
            element_type,
        }
    }

    /// Lends this list.
    pub fn reborrow(&mut self) -> Builder<'_, A>
        requires ready { IsReadyList A.segments self.old }
        ensures* lends { sem 𝓛 (LendsListBuilder A.row self.entry result) }
        ensures now { result.memory.now ≡ self.old.memory.now }
        ensures place { result.place ≡ self.old.place }
        ensures set { result.set.now ≡ self.old.set.now }
        ensures element_type { result.element_type ≡ self.old.element_type }
        ensures ready { IsReadyList A.segments result }
    {
        let place = self.place;
        let set = self.set;
        let element_type = self.element_type;
        let memory = &mut *self.memory;
        Builder {
            memory,
            place,
            set,
            element_type,
        }
    }

    /// Lends a struct of the same message that exists and is wide enough for its schema: one that
    /// `struct_at` returned, if the list is still at its place.
    pub fn part<'b>(&'b mut self, part: Part<'b>) -> dynamic_struct::Builder<'b, A>
        requires there { IsThere (words_in (A.segments self.old.memory.now.arena)) part.place }
        requires wide { HoldsShape part.place (shape_of_struct part.schema) }
        ensures* lends { sem 𝓛 (LendsElementStruct A.row self.entry result) }
        ensures now { result.memory.now ≡ self.old.memory.now }
        ensures place { result.place ≡ part.entry.place }
        ensures schema { result.schema ≡ part.entry.schema }
        ensures ready { IsStructReady A.segments result }
    {
        let Part { place, schema } = part;
        let memory = &mut *self.memory;
        dynamic_struct::Builder {
            memory,
            place,
            schema,
        }
    }

    /// Returns the place of the struct at an index, which is within the list, under the schema of
    /// the elements' type. `part` lends its handle, and the law `elements_as_structs` describes how
    /// writing through the handle changes the list. It is refused with `TypeMismatch` exactly when
    /// the elements are not structs.
    pub fn struct_at(&self, index: u32) -> Result<Part<'a>>
        requires ready { IsReadyList A.segments self.now }
        requires index { index < self.now.place.count }
        ensures part { IfOk result (IsPartAt A.segments self.now index) }
        ensures refused { OnErr result ((answered result ≡ Err TypeMismatch)
            × (struct_named (ty_of self.now.element_type) ≡ None)) }
    {
        elements_as_structs();
        match self.element_type.which() {
            TypeVariant::Struct(raw) => Ok(Part {
                place: element_struct(self.place, index),
                schema: StructSchema::new(self.set, raw),
            }),
            _ => Err(Error::from(ErrorKind::TypeMismatch)),
        }
    }

    /// Returns the list to read, under its elements' type. Its pointers are followed under the
    /// arena's nesting limit. If the type is a struct, the elements aren't bits.
    pub fn reborrow_as_reader(&self) -> Reader<'_, A>
        requires ready { IsReadyList A.segments self.now }
        requires bytewise { IsBytewise self.now.place (ty_of self.now.element_type) }
        ensures source { list_seen A.segments result.source
            ≡ list_of A.segments A.nesting self.now }
        ensures set { nodes_of result.set.now ≡ nodes_of self.now.set.now }
        ensures element_type { result.element_type ≡ self.now.element_type }
    {
        read_at(&self.memory.arena, self.place, self.set, self.element_type)
    }

    /// Consumes the handle, and returns the list to read.
    pub fn into_reader(self) -> Reader<'a, A>
        requires ready { IsReadyList A.segments self }
        requires bytewise { IsBytewise self.place (ty_of self.element_type) }
        ensures source { list_seen A.segments result.source
            ≡ list_of A.segments A.nesting self.entry }
        ensures set { nodes_of result.set.now ≡ nodes_of self.entry.set.now }
        ensures element_type { result.element_type ≡ self.entry.element_type }
    {
        let Builder {
            memory,
            place,
            set,
            element_type,
        } = self;
        read_at(&memory.arena, place, set, element_type)
    }

    /// Returns the number of elements.
    pub fn len(&self) -> u32
        ensures { result ≡ self.now.place.count }
    {
        self.place.count
    }

    /// Returns whether the list is empty.
    pub fn is_empty(&self) -> bool
        ensures { result ≡ (self.now.place.count == 0) }
    {
        self.place.count == 0
    }

    /// Returns the type of the elements.
    pub fn element_type(&self) -> Type
        ensures { result ≡ self.now.element_type }
    {
        self.element_type
    }

    /// Sets the element at an index, which is within the list, to a value. An element takes
    /// - if it is plain, a value of its type; if it is an enum, any enum's value; if it is Void,
    ///   any value;
    /// - if it is a text or data, a value of its own type;
    /// - if it is a list, any list, which is copied whole;
    /// - if it is a struct, a struct of its own schema, whose content is copied as far as it fits.
    ///
    /// Elements that are wider than their type keep the bits after it. A plain value takes no
    /// memory. A text or data takes the words of its list if the list's segment has room for them,
    /// otherwise at most one more. A copy takes at most twice the words of its objects.
    ///
    /// It is refused
    /// - with `ListAnyPointerNotSupported` if the elements are untyped pointers;
    /// - with `ListCapabilityNotSupported` if they are capabilities and the value is a capability;
    /// - otherwise with `TypeMismatch` if the element doesn't take the value;
    /// - a text or data with `SizeOverflow` exactly when its bytes, a text's with its zero byte, or
    ///   the message's words, including a pad, would exceed 2^29 - 1;
    /// - a text or data otherwise with the allocator's error;
    /// - a list like `PointerBuilder::set_list` and a struct like
    ///   `StructBuilder::copy_content_from` without a limit of words.
    ///
    /// Then all words are unchanged, and those that were allocated are zero. The exception is an
    /// element that is a struct: it may have the data and the first pointers of the refused struct.
    pub fn set<B: ReaderArena>(
        &mut self,
        index: u32,
        value: dynamic_value::Reader<'_, B>,
    ) -> Result<()>
        requires ready { IsReadyList A.segments self.old }
        requires index { index < self.old.place.count }
        ensures same { self.new.memory.ghost_name ≡ self.old.memory.ghost_name }
        ensures sets { let ty = ty_of self.old.element_type in SetsElementByHandle A.segments A.room
            A.books (IsSizeOrRefusal A.refuses) self.old self.new (element_edit value.entry ty)
            index (element_given B.segments value.entry ty) result }
        ensures refused { struct_given B.segments value.entry (ty_of self.old.element_type) ≡ None
            → OnErr result (KeepsWords A.segments self.old self.new) }
        ensures flat { is_flat value.entry ≡ true
            → OnErr result (ListStays A.segments self.old self.new) }
        ensures ready { IsReadyList A.segments self.new }
        ensures books { A.books self.new.memory.now.arena ≡ A.books self.old.memory.now.arena }
    {
        let place = self.place;
        let ty = self.element_type;
        set_value(self.memory, place, ty, index, &value)
    }

    /// Replaces the value of the element at an index, which is within the list, by n zeros; the old
    /// value is cleared. A text or data becomes n zero bytes, and a text also has its own zero
    /// byte. A list becomes n zeros, nulls or empty structs. The new list takes its words,
    /// including the tag of structs, if this list's segment has room for them, otherwise at most
    /// one more.
    ///
    /// It is refused, and then the list is unchanged,
    /// - with `ListAnyPointerNotSupported` if the elements are untyped pointers;
    /// - with `ExpectedAListOrBlob` if they are of another type;
    /// - with `SizeOverflow` exactly when the elements, structs' words or the message's words,
    ///   including a pad, would exceed 2^29 - 1;
    /// - otherwise with the allocator's error.
    pub fn init(&mut self, index: u32, size: u32) -> Result<()>
        requires ready { IsReadyList A.segments self.old }
        requires index { index < self.old.place.count }
        ensures same { self.new.memory.ghost_name ≡ self.old.memory.ghost_name }
        ensures puts { let ty = ty_of self.old.element_type in
            let s = schema_of (nodes_of self.old.set.now) in
            PutsElement A.segments A.room A.books (IsSizeOrRefusal A.refuses) self.old self.new
            (edit_element s [] (initn size) ty) index (element_content s (initn size) ty) result }
        ensures refused { OnErr result (ListStays A.segments self.old self.new) }
        ensures books { A.books self.new.memory.now.arena ≡ A.books self.old.memory.now.arena }
        ensures ready { IsReadyList A.segments self.new }
    {
        let place = self.place;
        let set = self.set;
        let ty = self.element_type;
        init_element(&mut self.memory.arena, place, set, ty, index, size)
    }
}
