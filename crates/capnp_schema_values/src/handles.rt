//! Handles of values that were read for writing.
ghost use Rattle.std.specs.Prelude.{◌≡◌, IfSome, is_some, true};
ghost use Rattle.capnp_units.specs.Segments.{words_in};
ghost use Rattle.capnp_schema_values.specs.Built.{memory_in, placed_of, IsPlaced, IsReadyValue, IsAtStart, IsAtEnd, IsWrittenFrom, ReadsAs, text_start};

use crate::downcast::DowncastBuilder;
use crate::dynamic_value::Builder;
use crate::placed::{ListPart, Placed};
use crate::{any_pointer, callers};
use capnp_copy_arenas::arena::{BuilderArena, Memory};
use capnp_copy_arenas::bytes::BlobPlace;
use capnp_layout_builders::data_builder::DataBuilder;
use capnp_layout_builders::owned::OwnedStruct;
use capnp_layout_builders::text_builder::TextBuilder;
use capnp_schema_lists::dynamic_list;
use capnp_schema_structs::dynamic_struct;
use capnp_schema_structs::init::Part;
use capnp_values::dynamic_value::Reader;
use capnp_values_queries::introspect::Introspect;
use capnp_wire_objects::place::Place;

/// Returns a text, to write from its first byte on if it was begun, otherwise from its end on.
fn text_at<'a, A: BuilderArena>(
    memory: &'a mut Memory<A>,
    place: BlobPlace,
    begun: bool,
) -> TextBuilder<'a, A>
    ensures same { result.memory.ghost_name ≡ memory.entry.ghost_name }
    ensures now { result.memory.now ≡ memory.old }
    ensures place { (result.place ≡ place) × (result.position ≡ text_start begun place) }
{
    let position = if begun { 0 } else { place.count as usize };
    TextBuilder {
        memory,
        place,
        position,
    }
}

/// Returns a struct or a group.
fn struct_at<'a, A: BuilderArena>(
    memory: &'a mut Memory<A>,
    part: Part<'a>,
) -> dynamic_struct::Builder<'a, A>
    ensures same { result.memory.ghost_name ≡ memory.entry.ghost_name }
    ensures now { result.memory.now ≡ memory.old }
    ensures part { (result.place ≡ part.entry.place) × (result.schema ≡ part.entry.schema) }
{
    let Part { place, schema } = part;
    dynamic_struct::Builder {
        memory,
        place,
        schema,
    }
}

/// Returns a list.
fn list_at<'a, A: BuilderArena>(
    memory: &'a mut Memory<A>,
    part: ListPart<'a>,
) -> dynamic_list::Builder<'a, A>
    ensures same { result.memory.ghost_name ≡ memory.entry.ghost_name }
    ensures now { result.memory.now ≡ memory.old }
    ensures place { result.place ≡ part.entry.place }
    ensures set { result.set ≡ part.entry.set }
    ensures element_type { result.element_type ≡ part.entry.element_type }
{
    let ListPart {
        place,
        set,
        element_type,
    } = part;
    dynamic_list::Builder {
        memory,
        place,
        set,
        element_type,
    }
}

/// Returns a value of a message, to write; a text that was begun from its first byte on, any other
/// text from its end on.
fn value_at<'a, A: BuilderArena>(
    memory: &'a mut Memory<A>,
    placed: Placed<'a>,
    begun: bool,
) -> Builder<'a, A>
    requires there { IsPlaced (words_in (A.segments memory.old.arena)) placed }
    ensures same { IfSome (memory_in result) (λ m. m.ghost_name ≡ memory.entry.ghost_name) }
    ensures now { IfSome (memory_in result) (λ m. m.now ≡ memory.old) }
    ensures placed { placed_of result ≡ placed.entry }
    ensures position { IsWrittenFrom begun result }
    ensures ready { IsReadyValue A.segments result }
{
    match placed {
        Placed::Void => Builder::Void,
        Placed::Bool(value) => Builder::Bool(value),
        Placed::Int8(value) => Builder::Int8(value),
        Placed::Int16(value) => Builder::Int16(value),
        Placed::Int32(value) => Builder::Int32(value),
        Placed::Int64(value) => Builder::Int64(value),
        Placed::UInt8(value) => Builder::UInt8(value),
        Placed::UInt16(value) => Builder::UInt16(value),
        Placed::UInt32(value) => Builder::UInt32(value),
        Placed::UInt64(value) => Builder::UInt64(value),
        Placed::Enum(value) => Builder::Enum(value),
        Placed::Text(place) => Builder::Text(text_at(memory, place, begun)),
        Placed::Data(place) => Builder::Data(DataBuilder { memory, place }),
        Placed::Struct(part) => Builder::Struct(struct_at(memory, part)),
        Placed::List(part) => Builder::List(list_at(memory, part)),
        Placed::AnyPointer(place) => Builder::AnyPointer(any_pointer::Builder { memory, place }),
        Placed::Capability(value) => Builder::Capability(value),
    }
}

impl<'a, A: BuilderArena> Builder<'a, A> {
    /// Makes a value of a message, to write: one that a `get` returned, if it is still at its
    /// place. The memory of a plain value isn't held. A text is written from its end on.
    pub fn new(memory: &'a mut Memory<A>, placed: Placed<'a>) -> Self
        requires there { IsPlaced (words_in (A.segments memory.old.arena)) placed }
        ensures same { IfSome (memory_in result) (λ m. m.ghost_name ≡ memory.entry.ghost_name) }
        ensures now { IfSome (memory_in result) (λ m. m.now ≡ memory.old) }
        ensures placed { placed_of result ≡ placed.entry }
        ensures end { IsAtEnd result }
        ensures ready { IsReadyValue A.segments result }
    {
        value_at(memory, placed, false)
    }

    /// Makes a value like `new`, for a value that an `init` has begun: a text is written from its
    /// first byte on.
    pub fn begun(memory: &'a mut Memory<A>, placed: Placed<'a>) -> Self
        requires there { IsPlaced (words_in (A.segments memory.old.arena)) placed }
        ensures same { IfSome (memory_in result) (λ m. m.ghost_name ≡ memory.entry.ghost_name) }
        ensures now { IfSome (memory_in result) (λ m. m.now ≡ memory.old) }
        ensures placed { placed_of result ≡ placed.entry }
        ensures start { IsAtStart result }
        ensures ready { IsReadyValue A.segments result }
    {
        value_at(memory, placed, true)
    }

    /// Consumes the handle, and returns the value to read. Its pointers are followed under the
    /// arena's nesting limit.
    pub fn into_reader(self) -> Reader<'a, A>
        requires ready { IsReadyValue A.segments self }
        ensures { ReadsAs A.segments A.nesting self.entry result }
    {
        match self {
            Builder::Void => Reader::Void,
            Builder::Bool(value) => Reader::Bool(value),
            Builder::Int8(value) => Reader::Int8(value),
            Builder::Int16(value) => Reader::Int16(value),
            Builder::Int32(value) => Reader::Int32(value),
            Builder::Int64(value) => Reader::Int64(value),
            Builder::UInt8(value) => Reader::UInt8(value),
            Builder::UInt16(value) => Reader::UInt16(value),
            Builder::UInt32(value) => Reader::UInt32(value),
            Builder::UInt64(value) => Reader::UInt64(value),
            Builder::Enum(value) => Reader::Enum(value),
            Builder::Text(text) => Reader::Text(text.into_reader()),
            Builder::Data(data) => Reader::Data(data.into_reader()),
            Builder::Struct(inner) => Reader::Struct(inner.into_reader()),
            Builder::List(list) => Reader::List(list.into_reader()),
            Builder::AnyPointer(pointer) => Reader::AnyPointer(pointer.into_reader()),
            Builder::Capability(value) => Reader::Capability(value),
        }
    }
}

impl<'a, A> Builder<'a, A> {
    ghost use Rattle.std.specs.Prelude.{Some};

    /// Returns the value in the variant of a type; the value must be of the variant, as `fits` of
    /// the type says.
    pub fn downcast<T: DowncastBuilder<'a, A>>(self) -> T
        requires { is_some (T.variant self) ≡ true }
        ensures { T.variant self.entry ≡ Some result }
    {
        T::downcast_builder(self)
    }
}

impl<'a, A: BuilderArena + 'a> Builder<'a, A> {
    ghost use Rattle.capnp_schema_values.specs.Variants.{built_struct_fits, built_struct};

    /// Returns whether the value is a struct that can be passed on as a caller's type: its schema's
    /// id is that of the type.
    pub fn fits_struct<T: Introspect>(&self) -> bool
        ensures { result ≡ built_struct_fits T.ty self.now }
    {
        match self {
            Builder::Struct(inner) => callers::fits_struct::<T, A>(inner),
            _ => false,
        }
    }

    /// Returns the struct as a caller's type, if `fits_struct` returns true: the type's handle is
    /// made from the struct in place.
    pub fn downcast_struct<T: OwnedStruct<'a, A> + Introspect>(self) -> T::Builder
        requires { built_struct_fits T.ty self ≡ true }
        ensures { IfSome (built_struct self.entry) (λ b.
            T.Builder.from_gives (record { memory = b.memory; place = b.place }) result) }
    {
        let Builder::Struct(inner) = self else {
            unreachable!()
        };
        callers::downcast_struct::<A, T>(inner)
    }
}
