//! Untyped pointers, to write.
ghost use Rattle.std.specs.Prelude.{◌≡◌, ◌<◌, ◌^◌, true, None, Ok, Err, option_copied, IfOk, IfErr};
ghost use Rattle.std.specs.Borrow.{sem, RestsIfErr};
ghost use Rattle.std.specs.Option.{is_some};
ghost use Rattle.capnp_model.specs.Schemas.{untyped};
ghost use Rattle.capnp_model.specs.Segments.{words_at};
ghost use Rattle.capnp_units.specs.Segments.{words_in};
ghost use Rattle.capnp_copy_arenas.specs.contracts.arena.Memory.{the_row};
ghost use Rattle.capnp_copy_arenas.specs.Clearing.{ClearsValue};
ghost use Rattle.capnp_copy_arenas.specs.Refusals.{IsSizeOrRefusal};
ghost use Rattle.capnp_layout_builders.specs.Gets.{Begins};
ghost use Rattle.capnp_layout_builders.specs.Making.{StaysAt};
ghost use Rattle.capnp_wire_objects.specs.Places.{place_view};
ghost use Rattle.capnp_wire.specs.ValueSizes.{PointerSize};
ghost use Rattle.capnp_values.specs.Sources.{WithoutLimit, pointer_seen};
ghost use Rattle.capnp_schema_values.specs.Untyped.{IsPointerThere, IsReadyPointer, ClearsUntyped, InitsAs, IsMadeNull, IsGotAsItIs, LeavesAs, is_built_null, pointer_view_of, words_around_pointer};

use crate::inputs::PointerInput;
use capnp_copy_arenas::arena::{BuilderArena, Memory};
use capnp_copy_arenas::clear::clear;
use capnp_layout_builders::gets::begin;
use capnp_layout_builders::owned;
use capnp_layout_builders::owned::FromPointerBuilder;
use capnp_layout_builders::pointer_builder::PointerBuilder;
use capnp_message::placed::{OwnedPlaced, Placed, PointerPlace};
use capnp_units::errors::Result;
use capnp_units::sizes::{MessageSize, Word};
use capnp_values::any_pointer::Reader;
use capnp_values_queries::introspect::{Introspect, Type, TypeVariant};
use capnp_wire::pointer::PointerReader;
use capnp_wire::traits;
use capnp_wire_objects::arena::ReaderArena;
use capnp_wire_objects::place::{Place, word_at};

/// An untyped pointer that is built, with its place in a message.
#[derive(Drop)]
pub struct Builder<'a, A> {
    pub memory: &'a mut Memory<A>,
    pub place: Place,
}

impl<'a, A: BuilderArena> Builder<'a, A> {
    ghost use Rattle.capnp_schema_values.specs.Lending.{LendsAnyPointer};

    /// Makes an untyped pointer of a pointer that is built. Its word exists.
    pub fn new(builder: PointerBuilder<'a, A>) -> Self
        requires there { IsPointerThere (words_in (A.segments builder.memory.now.arena))
            builder.place }
        ensures same { result.memory.ghost_name ≡ builder.entry.memory.ghost_name }
        ensures now { result.memory.now ≡ builder.entry.memory.now }
        ensures place { result.place ≡ builder.entry.place }
        ensures ready { IsReadyPointer A.segments result }
    {
        let PointerBuilder { memory, place } = builder;
        Builder { memory, place }
    }

    /// Lends this pointer.
    pub fn reborrow(&mut self) -> Builder<'_, A>
        requires ready { IsReadyPointer A.segments self.old }
        ensures* lends { sem 𝓛 (LendsAnyPointer A.row self.entry result) }
        ensures now { result.memory.now ≡ self.old.memory.now }
        ensures place { result.place ≡ self.old.place }
        ensures ready { IsReadyPointer A.segments result }
    {
        let place = self.place;
        let memory = &mut *self.memory;
        Builder { memory, place }
    }

    /// Returns whether the pointer is null, a word of zeros.
    pub fn is_null(&self) -> bool
        ensures { result ≡ is_built_null A.segments self.now }
    {
        word_at(&self.memory.arena, self.place).unwrap_or(0) == 0
    }

    /// Returns the pointer to read, under the arena's nesting limit.
    pub fn reborrow_as_reader(&self) -> Reader<'_, A>
        ensures { pointer_seen A.segments result.source
            ≡ pointer_view_of A.segments A.nesting self.now }
    {
        Reader::new(PointerReader::at(&self.memory.arena, self.place))
    }

    /// Consumes the handle, and returns the pointer to read.
    pub fn into_reader(self) -> Reader<'a, A>
        ensures { pointer_seen A.segments result.source
            ≡ pointer_view_of A.segments A.nesting self.entry }
    {
        let Builder { memory, place } = self;
        Reader::new(PointerReader::at(&memory.arena, place))
    }

    /// Returns the words and the capabilities of the pointer's value, without pads and the pointer
    /// itself. It is refused, and bounded in time and stack, like `PointerReader::total_size`
    /// without a limit of words.
    pub fn target_size(&self) -> Result<MessageSize>
        ensures { WithoutLimit (PointerSize (pointer_view_of A.segments A.nesting self.now))
            result }
    {
        self.reborrow_as_reader().target_size()
    }

    /// Clears the value: the pointer becomes null, and all words of its value become zero. Nothing
    /// else changes, and nothing is allocated.
    pub fn clear(&mut self)
        requires ready { IsReadyPointer A.segments self.old }
        ensures clears { ClearsUntyped A.segments self.old self.new }
        ensures books { A.books self.new.memory.now.arena ≡ A.books self.old.memory.now.arena }
        ensures ready { IsReadyPointer A.segments self.new }
    {
        let place = self.place;
        clear(&mut self.memory.arena, place);
    }

    /// Returns the pointer, from which a type's own `get_from_pointer` and `init_pointer` make
    /// handles that hold its memory.
    pub fn into_pointer(self) -> PointerBuilder<'a, A>
        ensures same { result.memory.ghost_name ≡ self.entry.memory.ghost_name }
        ensures now { result.memory.now ≡ self.entry.memory.now }
        ensures place { result.place ≡ self.entry.place }
    {
        let Builder { memory, place } = self;
        PointerBuilder { memory, place }
    }

    /// Returns the handle of the value that the pointer names, as a type. The handle knows the
    /// place of the value.
    ///
    /// It is refused by the rules of the type, which also say what remains.
    pub fn get_as<T: Placed>(&mut self) -> Result<T>
        requires ready { IsReadyPointer A.segments self.old }
        ensures same { self.new.memory.ghost_name ≡ self.old.memory.ghost_name }
        ensures place { self.new.place ≡ self.old.place }
        ensures got { IfOk result (T.is_got (words_around_pointer A.segments self.old)
            (words_around_pointer A.segments self.new) self.old.place) }
        ensures refused { IfErr result (T.is_not_got (words_around_pointer A.segments self.old)
            (words_around_pointer A.segments self.new) self.old.place) }
        ensures books { A.books self.new.memory.now.arena ≡ A.books self.old.memory.now.arena }
        ensures ready { IsReadyPointer A.segments self.new }
    {
        let place = self.place;
        T::get_at(self.memory, place)
    }

    /// Replaces the pointer's value, which is cleared, by a new value of a type, with n bytes or
    /// elements, and returns its handle. Types without a count ignore the size.
    ///
    /// It is refused, and all words are unchanged,
    /// - with `SizeOverflow` exactly when the value is too large for the message;
    /// - otherwise with the allocator's error.
    pub fn initn_as<T: Placed>(&mut self, size: u32) -> Result<T>
        requires ready { IsReadyPointer A.segments self.old }
        ensures same { self.new.memory.ghost_name ≡ self.old.memory.ghost_name }
        ensures place { self.new.place ≡ self.old.place }
        ensures init { InitsAs A.segments A.books (IsSizeOrRefusal A.refuses) T.is_made
            T.is_too_large size self.old self.new result }
        ensures ready { IsReadyPointer A.segments self.new }
    {
        let place = self.place;
        T::init_at(self.memory, place, size)
    }

    /// Replaces the pointer's value, which is cleared, by a new value of a type, and returns its
    /// handle: this is `initn_as` without bytes or elements.
    pub fn init_as<T: Placed>(&mut self) -> Result<T>
        requires ready { IsReadyPointer A.segments self.old }
        ensures same { self.new.memory.ghost_name ≡ self.old.memory.ghost_name }
        ensures place { self.new.place ≡ self.old.place }
        ensures init { InitsAs A.segments A.books (IsSizeOrRefusal A.refuses) T.is_made
            T.is_too_large 0 self.old self.new result }
        ensures ready { IsReadyPointer A.segments self.new }
    {
        self.initn_as(0)
    }

    /// Replaces the pointer's value, which is cleared, by a value: a text, data, or the copy of the
    /// value of an untyped pointer, a struct or a list.
    ///
    /// It is refused by the rules of the input; then all words are unchanged, and new words are
    /// zero.
    pub fn set_as<T, V: PointerInput<T> + Drop>(&mut self, value: V) -> Result<()>
        requires ready { IsReadyPointer A.segments self.old }
        ensures same { self.new.memory.ghost_name ≡ self.old.memory.ghost_name }
        ensures place { self.new.place ≡ self.old.place }
        ensures sets { V.sets value (words_around_pointer A.segments self.old)
            (words_around_pointer A.segments self.new) self.old.place result }
        ensures books { A.books self.new.memory.now.arena ≡ A.books self.old.memory.now.arena }
        ensures ready { IsReadyPointer A.segments self.new }
    {
        let place = self.place;
        V::set_at(self.memory, place, value)
    }
}

/// The type of untyped pointers, with the types as which they are read and built. The type of
/// `capnp_values` only names the type as which they are read.
#[derive(Clone, Copy, Debug, PartialEq, Eq)]
pub struct Owned;

impl Introspect for Owned {
    ghost ty = { untyped };

    fn introspect() -> Type {
        Type::from(TypeVariant::AnyPointer)
    }
}

impl<'a, A: ReaderArena + 'a> traits::Owned<'a, A> for Owned {
    type Reader = Reader<'a, A>;
}

impl<'a, A: BuilderArena + 'a> owned::Owned<'a, A> for Owned {
    type Reader = Reader<'a, A>;

    type Builder = Builder<'a, A>;
}

/// A message's root of this type is built by the place of its pointer.
impl OwnedPlaced for Owned {
    type Builder = PointerPlace;
}

/// An untyped pointer is made null, which is never refused, and read as the value there, whatever
/// its kind.
impl<'a, A: BuilderArena> FromPointerBuilder<'a, A> for Builder<'a, A> {
    ghost memory_of = { λ o. o.memory };

    ghost is_made = { λ s u slot n o. ClearsValue s u (place_view slot) × (o.place ≡ slot) };

    ghost is_not_made = { λ s n e. ⊥ };

    ghost is_got = { λ default s u slot o.
        Begins default s u (place_view slot) (Ok tt) × (o.place ≡ slot) };

    ghost is_not_got = { λ default s u slot e. Begins default s u (place_view slot) (Err e) };

    fn init_pointer(builder: PointerBuilder<'a, A>, length: u32) -> Result<Builder<'a, A>>
        requires there { is_some (words_at (words_in (A.segments builder.memory.now.arena))
            (place_view builder.place) 1) ≡ true }
        requires near { builder.place.position < 2 ^ 61 }
        ensures same { IfOk result (λ o. o.memory.ghost_name ≡ builder.entry.memory.ghost_name) }
        ensures made { IfOk result (IsMadeNull A.segments builder.entry) }
        ensures books { IfOk result (λ o.
            A.books o.memory.now.arena ≡ A.books builder.entry.memory.now.arena) }
        ensures kind { IfErr result (λ e. ⊥) }
        ensures* refused { sem 𝓛 (RestsIfErr (the_row A.row) builder.entry.memory
            (λ o. o.memory.ghost_name) result
            (StaysAt A.segments A.books builder.entry.memory.now)) }
    {
        let PointerBuilder { memory, place } = builder;
        clear(&mut memory.arena, place);
        Ok(Builder { memory, place })
    }

    fn get_from_pointer(
        builder: PointerBuilder<'a, A>,
        default: Option<&[Word]>,
    ) -> Result<Builder<'a, A>>
        requires there { is_some (words_at (words_in (A.segments builder.memory.now.arena))
            (place_view builder.place) 1) ≡ true }
        requires near { builder.place.position < 2 ^ 61 }
        ensures same { IfOk result (λ o. o.memory.ghost_name ≡ builder.entry.memory.ghost_name) }
        ensures got { IfOk result
            (IsGotAsItIs A.segments (option_copied default.entry) builder.entry) }
        ensures books { IfOk result (λ o.
            A.books o.memory.now.arena ≡ A.books builder.entry.memory.now.arena) }
        ensures* refused { sem 𝓛 (RestsIfErr (the_row A.row) builder.entry.memory
            (λ o. o.memory.ghost_name) result (LeavesAs A.segments A.books builder.entry.memory.now
            (λ s u. IfErr result (λ e. Begins (option_copied default.entry) s u
            (place_view builder.entry.place) (Err e))))) }
    {
        let PointerBuilder { memory, place } = builder;
        begin(&mut memory.arena, place, default)?;
        Ok(Builder { memory, place })
    }
}
