//! Pointers that are built.
ghost use Rattle.std.specs.Prelude.{◌≡◌, ◌+◌, ◌*◌, ◌<◌, ◌^◌, ◌==◌, length, unwrap_or, IfOk, IfErr, OnOk, map};
ghost use Rattle.std.specs.Borrow.{sem, RestsIfErr};
ghost use Rattle.capnp_model.specs.Sections.{number_of, words_for};
ghost use Rattle.capnp_model.specs.Segments.{root, word_at};
ghost use Rattle.capnp_model.specs.Trees.{plain_list};
ghost use Rattle.capnp_units.specs.Segments.{words_in};
ghost use Rattle.capnp_units.specs.Sizes.{size_number};
ghost use Rattle.capnp_wire_objects.specs.Places.{place_view};
ghost use Rattle.capnp_wire.specs.Views.{seen_pointer, pointer_at};
ghost use Rattle.capnp_copy_arenas.specs.Clearing.{ClearsValue};
ghost use Rattle.capnp_copy_arenas.specs.Refusals.{IsSizeOrRefusal};
ghost use Rattle.capnp_copy_arenas.specs.States.{HasWords};
ghost use Rattle.capnp_copy_arenas.specs.contracts.arena.Memory.{the_row};
ghost use Rattle.capnp_layout_builders.specs.Leaving.{LeavesMemory};
ghost use Rattle.capnp_layout_builders.specs.Making.{state_of, StaysAt, Makes, MakesStruct, MakesList, MakesStructList, StructRefused, ElementsRefused, StructsRefused, BytesNotSet};

use crate::list_builder::ListBuilder;
use crate::struct_builder::StructBuilder;
use capnp_copy_arenas::arena::{BuilderArena, Memory};
use capnp_copy_arenas::blobs::{set_data, set_text};
use capnp_copy_arenas::clear::clear;
use capnp_copy_arenas::init::{init_list, init_struct};
use capnp_copy_arenas::struct_lists::init_struct_list;
use capnp_units::errors::Result;
use capnp_units::sizes::{ElementSize, StructSize};
use capnp_units::units::ElementCount32;
use capnp_wire::pointer::PointerReader;
use capnp_wire_objects::place::{Place, word_at};

/// Returns the pointer at a place of a memory, to read, under the arena's nesting limit. When the
/// reader is gone, the memory is unchanged. This is stated for the memory of a handle that is taken
/// apart, and not for a memory that `into_reader` takes.
pub fn read_at<'a, A: BuilderArena>(memory: &'a mut Memory<A>, place: Place) -> PointerReader<'a, A>
    ensures shows { seen_pointer A.segments result
        ≡ pointer_at (A.segments memory.old.arena)
        (A.nesting memory.old.arena) (place_view place) }
    ensures* stays { sem 𝓛 (LeavesMemory A.row memory.entry) }
{
    let arena = &memory.arena;
    PointerReader::at(arena, place)
}

/// A pointer that is built, with its place in an arena.
#[derive(Drop)]
pub struct PointerBuilder<'a, A> {
    pub memory: &'a mut Memory<A>,
    pub place: Place,
}

impl<'a, A: BuilderArena> PointerBuilder<'a, A> {
    ghost use Rattle.capnp_layout_builders.specs.Lending.{LendsPointer};

    /// Returns the root pointer, the first word of the first segment.
    pub fn get_root(memory: &'a mut Memory<A>) -> Self
        ensures same { result.memory.ghost_name ≡ memory.entry.ghost_name }
        ensures now { result.memory.now ≡ memory.old }
        ensures place { place_view result.place ≡ root }
    {
        PointerBuilder {
            memory,
            place: Place {
                segment: 0,
                position: 0,
            },
        }
    }

    /// Lends this pointer.
    pub fn reborrow(&mut self) -> PointerBuilder<'_, A>
        ensures* lends { sem 𝓛 (LendsPointer A.row self.entry result) }
        ensures now { result.memory.now ≡ self.old.memory.now }
        ensures place { result.place ≡ self.old.place }
    {
        let place = self.place;
        let memory = &mut *self.memory;
        PointerBuilder { memory, place }
    }

    /// Returns the pointer to read, under the arena's nesting limit.
    pub fn as_reader(&self) -> PointerReader<'_, A>
        ensures { seen_pointer A.segments result
            ≡ pointer_at (A.segments self.now.memory.now.arena)
            (A.nesting self.now.memory.now.arena) (place_view self.now.place) }
    {
        PointerReader::at(&self.memory.arena, self.place)
    }

    /// Consumes the handle, and returns the pointer to read. `read_at` states the contents of the
    /// memory afterwards.
    pub fn into_reader(self) -> PointerReader<'a, A>
        ensures { seen_pointer A.segments result
            ≡ pointer_at (A.segments self.entry.memory.now.arena)
            (A.nesting self.entry.memory.now.arena) (place_view self.entry.place) }
    {
        let PointerBuilder { memory, place } = self;
        read_at(memory, place)
    }

    /// Returns whether the pointer is null, a word of zeros.
    pub fn is_null(&self) -> bool
        ensures { result ≡ (unwrap_or
            (word_at (words_in (A.segments self.now.memory.now.arena))
            (place_view self.now.place)) 0 == 0) }
    {
        word_at(&self.memory.arena, self.place).unwrap_or(0) == 0
    }

    /// Clears the value: the pointer becomes null, and all words of its value become zero. Nothing
    /// else changes, and nothing is allocated.
    pub fn clear(&mut self)
        ensures same { self.new.memory.ghost_name ≡ self.old.memory.ghost_name }
        ensures place { self.new.place ≡ self.old.place }
        ensures books { A.books self.new.memory.now.arena ≡ A.books self.old.memory.now.arena }
        ensures sizes { map length (words_in (A.segments self.new.memory.now.arena))
            ≡ map length (words_in (A.segments self.old.memory.now.arena)) }
        ensures clears { ClearsValue (words_in (A.segments self.old.memory.now.arena))
            (words_in (A.segments self.new.memory.now.arena)) (place_view self.old.place) }
    {
        let place = self.place;
        clear(&mut self.memory.arena, place);
    }

    /// Replaces the value, which is cleared, by a struct of zeros and nulls.
    ///
    /// It is refused, and everything is unchanged,
    /// - with `SizeOverflow` exactly when the message's words, including a pad, would exceed 2^29 -
    ///   1;
    /// - otherwise with the allocator's error.
    #[inline(always)]
    pub fn init_struct(self, size: StructSize) -> Result<StructBuilder<'a, A>>
        requires there { HasWords (A.segments self.memory.now.arena) self.place 1 }
        requires near { self.place.position < 2 ^ 61 }
        ensures same { IfOk result (λ o. o.memory.ghost_name ≡ self.entry.memory.ghost_name) }
        ensures made { let at = state_of A.segments A.room A.books in IfOk result (λ o.
            MakesStruct (at self.entry.memory.now) (at o.memory.now) self.entry.place
            size o.place) }
        ensures kind { let at = state_of A.segments A.room A.books in IfErr result
            (StructRefused (at self.entry.memory.now) self.entry.place.segment size) }
        ensures cause { IfErr result (λ e. IsSizeOrRefusal A.refuses e) }
        ensures* refused { sem 𝓛 (RestsIfErr (the_row A.row) self.entry.memory
            (λ o. o.memory.ghost_name) result (StaysAt A.segments A.books self.entry.memory.now)) }
    {
        let PointerBuilder { memory, place } = self;
        let place = init_struct(&mut memory.arena, place, size)?;
        Ok(StructBuilder { memory, place })
    }

    /// Replaces the value, which is cleared, by a list of zeros or of nulls. The elements are plain
    /// or pointers.
    ///
    /// It is refused, and everything is unchanged,
    /// - with `SizeOverflow` exactly when the count or the message's words, including a pad, would
    ///   exceed 2^29 - 1;
    /// - otherwise with the allocator's error.
    pub fn init_list(
        self,
        element_size: ElementSize,
        element_count: ElementCount32,
    ) -> Result<ListBuilder<'a, A>>
        requires there { HasWords (A.segments self.memory.now.arena) self.place 1 }
        requires near { self.place.position < 2 ^ 61 }
        requires plain { size_number element_size < 7 }
        ensures same { IfOk result (λ o. o.memory.ghost_name ≡ self.entry.memory.ghost_name) }
        ensures made { let at = state_of A.segments A.room A.books in IfOk result (λ o.
            MakesList (at self.entry.memory.now) (at o.memory.now) self.entry.place
            element_size element_count o.place) }
        ensures kind { let at = state_of A.segments A.room A.books in IfErr result (ElementsRefused
            (at self.entry.memory.now) self.entry.place.segment element_size element_count) }
        ensures cause { IfErr result (λ e. IsSizeOrRefusal A.refuses e) }
        ensures* refused { sem 𝓛 (RestsIfErr (the_row A.row) self.entry.memory
            (λ o. o.memory.ghost_name) result (StaysAt A.segments A.books self.entry.memory.now)) }
    {
        let PointerBuilder { memory, place } = self;
        let place = init_list(&mut memory.arena, place, element_size, element_count)?;
        Ok(ListBuilder { memory, place })
    }

    /// Replaces the value, which is cleared, by a list of structs of zeros and nulls.
    ///
    /// It is refused, and everything is unchanged,
    /// - with `SizeOverflow` exactly when the count, the structs' words or the message's words,
    ///   including the tag and a pad, would exceed 2^29 - 1;
    /// - otherwise with the allocator's error.
    #[inline(always)]
    pub fn init_struct_list(
        self,
        element_count: ElementCount32,
        element_size: StructSize,
    ) -> Result<ListBuilder<'a, A>>
        requires there { HasWords (A.segments self.memory.now.arena) self.place 1 }
        requires near { self.place.position < 2 ^ 61 }
        ensures same { IfOk result (λ o. o.memory.ghost_name ≡ self.entry.memory.ghost_name) }
        ensures made { let at = state_of A.segments A.room A.books in IfOk result (λ o.
            MakesStructList (at self.entry.memory.now) (at o.memory.now) self.entry.place
            element_count element_size o.place) }
        ensures kind { let at = state_of A.segments A.room A.books in IfErr result (StructsRefused
            (at self.entry.memory.now) self.entry.place.segment element_count element_size) }
        ensures cause { IfErr result (λ e. IsSizeOrRefusal A.refuses e) }
        ensures* refused { sem 𝓛 (RestsIfErr (the_row A.row) self.entry.memory
            (λ o. o.memory.ghost_name) result (StaysAt A.segments A.books self.entry.memory.now)) }
    {
        let PointerBuilder { memory, place } = self;
        let place = init_struct_list(&mut memory.arena, place, element_count, element_size)?;
        Ok(ListBuilder { memory, place })
    }

    /// Replaces the value, which is cleared, by data.
    ///
    /// It is refused, and everything is unchanged,
    /// - with `SizeOverflow` exactly when the bytes or the message's words, including a pad, would
    ///   exceed 2^29 - 1;
    /// - otherwise with the allocator's error.
    pub fn set_data(&mut self, value: &[u8]) -> Result<()>
        requires there { HasWords (A.segments self.old.memory.now.arena) self.old.place 1 }
        requires near { self.old.place.position < 2 ^ 61 }
        ensures same { (self.new.memory.ghost_name ≡ self.old.memory.ghost_name)
            × (self.new.place ≡ self.old.place) }
        ensures made { let at = state_of A.segments A.room A.books in OnOk result
            (Makes (at self.old.memory.now) (at self.new.memory.now) self.old.place
            (plain_list 2 (length value.now) (number_of 8 value.now))
            (words_for (8 * length value.now))) }
        ensures refused { let at = state_of A.segments A.room A.books in IfErr result
            (BytesNotSet (at self.old.memory.now) (at self.new.memory.now)
            self.old.place.segment (length value.now)) }
        ensures cause { IfErr result (λ e. IsSizeOrRefusal A.refuses e) }
    {
        let place = self.place;
        set_data(&mut self.memory.arena, place, value)
    }

    /// Replaces the value, which is cleared, by a text: its bytes, followed by a zero byte.
    ///
    /// It is refused, and everything is unchanged,
    /// - with `SizeOverflow` exactly when the bytes with the zero byte, or the message's words,
    ///   including a pad, would exceed 2^29 - 1;
    /// - otherwise with the allocator's error.
    #[inline(always)]
    pub fn set_text(&mut self, value: &[u8]) -> Result<()>
        requires there { HasWords (A.segments self.old.memory.now.arena) self.old.place 1 }
        requires near { self.old.place.position < 2 ^ 61 }
        ensures same { (self.new.memory.ghost_name ≡ self.old.memory.ghost_name)
            × (self.new.place ≡ self.old.place) }
        ensures made { let at = state_of A.segments A.room A.books in OnOk result
            (Makes (at self.old.memory.now) (at self.new.memory.now) self.old.place
            (plain_list 2 (length value.now + 1) (number_of 8 value.now))
            (words_for (8 * (length value.now + 1)))) }
        ensures refused { let at = state_of A.segments A.room A.books in IfErr result
            (BytesNotSet (at self.old.memory.now) (at self.new.memory.now)
            self.old.place.segment (length value.now + 1)) }
        ensures cause { IfErr result (λ e. IsSizeOrRefusal A.refuses e) }
    {
        let place = self.place;
        set_text(&mut self.memory.arena, place, value)
    }
}
