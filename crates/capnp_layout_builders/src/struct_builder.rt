//! Structs that are built.
ghost use Rattle.std.specs.Prelude.{◌≡◌, ◌+◌, ◌*◌, ◌<◌, ◌≤◌, ◌^◌, ◌==◌, bit_xor, length, map, unwrap_or};
ghost use Rattle.std.specs.Borrow.{sem};
ghost use Rattle.capnp_model.specs.Segments.{after, word_at};
ghost use Rattle.capnp_units.specs.Segments.{words_in};
ghost use Rattle.capnp_wire_objects.specs.Places.{place_view};
ghost use Rattle.capnp_wire.specs.Views.{bit_of_bool, seen_struct, struct_at};
ghost use Rattle.capnp_copy_arenas.specs.States.{HasWords};
ghost use Rattle.capnp_copy_arenas.specs.Structs.{HasBits, SetsBits};
ghost use Rattle.capnp_layout_builders.specs.DataSections.{section_number};

use crate::data_section::DataSection;
use crate::pointer_builder::PointerBuilder;
use capnp_copy_arenas::arena::{BuilderArena, Memory};
use capnp_copy_arenas::bits::{bit_of, bits_of, number_in};
use capnp_copy_arenas::fields::{StructPlace, bit_at, get_bits, set_bits};
use capnp_units::primitive::{Mask, Primitive};
use capnp_units::units::{ElementCount, WirePointerCount};
use capnp_wire::structs::StructReader;
use capnp_wire_objects::place::{Place, word_at};

/// Returns the struct at a place, to read.
fn read_at<'a, A: BuilderArena>(arena: &'a A, place: StructPlace) -> StructReader<'a, A>
    requires there { HasWords (A.segments arena.now) place.start place.data_words }
    requires near { place.start.position + (place.data_words + place.pointers) < 2 ^ 61 }
    ensures { seen_struct A.segments result
        ≡ struct_at (A.segments arena.now) (A.nesting arena.now) (place_view place.start)
        place.data_words place.pointers }
{
    StructReader::at(arena, place.start, place.data_words, place.pointers)
}

/// A struct that is built, with its place in an arena. Its words exist there.
#[derive(Drop)]
pub struct StructBuilder<'a, A> {
    pub memory: &'a mut Memory<A>,
    pub place: StructPlace,
}

impl<'a, A: BuilderArena> StructBuilder<'a, A> {
    ghost use Rattle.capnp_layout_builders.specs.Lending.{LendsStruct};

    /// Lends this struct.
    pub fn reborrow(&mut self) -> StructBuilder<'_, A>
        ensures* lends { sem 𝓛 (LendsStruct A.row self.entry result) }
        ensures now { result.memory.now ≡ self.old.memory.now }
        ensures place { result.place ≡ self.old.place }
    {
        let place = self.place;
        let memory = &mut *self.memory;
        StructBuilder { memory, place }
    }

    /// Returns the struct to read. Its pointers are followed under the arena's nesting limit.
    pub fn as_reader(&self) -> StructReader<'_, A>
        requires there { HasWords (A.segments self.now.memory.now.arena)
            self.now.place.start self.now.place.data_words }
        requires near { self.now.place.start.position +
            (self.now.place.data_words + self.now.place.pointers) < 2 ^ 61 }
        ensures { seen_struct A.segments result
            ≡ struct_at (A.segments self.now.memory.now.arena)
            (A.nesting self.now.memory.now.arena) (place_view self.now.place.start)
            self.now.place.data_words self.now.place.pointers }
    {
        read_at(&self.memory.arena, self.place)
    }

    /// Consumes the handle, and returns the struct to read.
    pub fn into_reader(self) -> StructReader<'a, A>
        requires there { HasWords (A.segments self.memory.now.arena)
            self.place.start self.place.data_words }
        requires near { self.place.start.position + (self.place.data_words + self.place.pointers)
            < 2 ^ 61 }
        ensures { seen_struct A.segments result
            ≡ struct_at (A.segments self.entry.memory.now.arena)
            (A.nesting self.entry.memory.now.arena) (place_view self.entry.place.start)
            self.entry.place.data_words self.entry.place.pointers }
    {
        let StructBuilder { memory, place } = self;
        read_at(&memory.arena, place)
    }

    /// Returns a pointer of the struct, by its index, which is within the struct.
    pub fn get_pointer_field(self, ptr_index: WirePointerCount) -> PointerBuilder<'a, A>
        requires near { self.place.start.position + (self.place.data_words + self.place.pointers)
            < 2 ^ 61 }
        requires inside { ptr_index < self.place.pointers }
        ensures same { result.memory.ghost_name ≡ self.entry.memory.ghost_name }
        ensures now { result.memory.now ≡ self.entry.memory.now }
        ensures place { let o = self.entry.place in place_view result.place
            ≡ after (after (place_view o.start) o.data_words) ptr_index }
        ensures there { HasWords (A.segments self.entry.memory.now.arena) self.entry.place.start
            (self.entry.place.data_words + self.entry.place.pointers)
            → HasWords (A.segments result.memory.now.arena) result.place 1 }
        ensures near { result.place.position < 2 ^ 61 }
    {
        let StructBuilder { memory, place } = self;
        let start = place.start;
        let place = Place {
            segment: start.segment,
            position: start.position + place.data_words as usize + ptr_index,
        };
        PointerBuilder { memory, place }
    }

    /// Returns whether a pointer of the struct is null, a word of zeros, by its index, which is
    /// within the struct.
    pub fn is_pointer_field_null(&self, ptr_index: WirePointerCount) -> bool
        requires near { self.now.place.start.position +
            (self.now.place.data_words + self.now.place.pointers) < 2 ^ 61 }
        requires inside { ptr_index < self.now.place.pointers }
        ensures { let o = self.now.place in
            result ≡ (unwrap_or (word_at (words_in (A.segments self.now.memory.now.arena))
            (after (after (place_view o.start) o.data_words) ptr_index)) 0 == 0) }
    {
        let start = self.place.start;
        let place = Place {
            segment: start.segment,
            position: start.position + self.place.data_words as usize + ptr_index,
        };
        word_at(&self.memory.arena, place).unwrap_or(0) == 0
    }

    /// Returns a number of the data section, at an offset in units of its width. The field is in
    /// the section.
    pub fn get_data_field<T: Primitive>(&self, offset: ElementCount) -> T
        requires near { self.now.place.start.position < 2 ^ 61 }
        requires inside { T.BYTES * offset + T.BYTES ≤ 8 * self.now.place.data_words }
        ensures { HasBits (words_in (A.segments self.now.memory.now.arena)) self.now.place
            (8 * (T.BYTES * offset)) (8 * T.BYTES) (λ bits. result ≡ T.from_bits bits) }
    {
        let place = self.place;
        let at = bit_at(T::BYTES, offset, place.data_words);
        let bits = get_bits(&self.memory.arena, place, at, 8 * T::BYTES as u32);
        number_in(bits)
    }

    /// Returns a number like the getter without a mask, with its bits exclusive-or'ed with those of
    /// the field's default.
    pub fn get_data_field_mask<T: Primitive + Mask>(&self, offset: ElementCount, mask: T::T) -> T
        requires near { self.now.place.start.position < 2 ^ 61 }
        requires inside { T.BYTES * offset + T.BYTES ≤ 8 * self.now.place.data_words }
        ensures { HasBits (words_in (A.segments self.now.memory.now.arena)) self.now.place
            (8 * (T.BYTES * offset))
            (8 * T.BYTES) (λ bits. result ≡ T.from_bits (bit_xor bits (T.mask_bits mask))) }
    {
        T::mask(self.get_data_field::<T>(offset), mask)
    }

    /// Returns a bit of the data section, at an offset in bits. The field is in the section.
    pub fn get_bool_field(&self, offset: ElementCount) -> bool
        requires near { self.now.place.start.position < 2 ^ 61 }
        requires inside { offset < 64 * self.now.place.data_words }
        ensures { HasBits (words_in (A.segments self.now.memory.now.arena)) self.now.place offset
            1 (λ bits. result ≡ (bits == 1)) }
    {
        let place = self.place;
        get_bits(&self.memory.arena, place, offset, 1) == 1
    }

    /// Returns a bit like the getter without a mask, exclusive-or'ed with the field's default.
    pub fn get_bool_field_mask(&self, offset: ElementCount, mask: bool) -> bool
        requires near { self.now.place.start.position < 2 ^ 61 }
        requires inside { offset < 64 * self.now.place.data_words }
        ensures { HasBits (words_in (A.segments self.now.memory.now.arena)) self.now.place offset
            1 (λ bits. result ≡ (bit_xor bits (bit_of_bool mask) == 1)) }
    {
        self.get_bool_field(offset) != mask
    }

    /// Writes a number of the data section, at an offset in units of its width. The field is in the
    /// section; its neighbours keep their bits.
    pub fn set_data_field<T: Primitive>(&mut self, offset: ElementCount, value: T)
        requires there { HasWords (A.segments self.old.memory.now.arena)
            self.old.place.start self.old.place.data_words }
        requires near { self.old.place.start.position < 2 ^ 61 }
        requires inside { T.BYTES * offset + T.BYTES ≤ 8 * self.old.place.data_words }
        ensures same { self.new.memory.ghost_name ≡ self.old.memory.ghost_name }
        ensures place { self.new.place ≡ self.old.place }
        ensures books { A.books self.new.memory.now.arena ≡ A.books self.old.memory.now.arena }
        ensures sizes { map length (words_in (A.segments self.new.memory.now.arena))
            ≡ map length (words_in (A.segments self.old.memory.now.arena)) }
        ensures sets { SetsBits (words_in (A.segments self.old.memory.now.arena))
            (words_in (A.segments self.new.memory.now.arena)) self.old.place
            (8 * (T.BYTES * offset)) (8 * T.BYTES) (T.bits value) }
    {
        let place = self.place;
        let at = bit_at(T::BYTES, offset, place.data_words);
        let bits = bits_of(value);
        set_bits(&mut self.memory.arena, place, at, 8 * T::BYTES as u32, bits);
    }

    /// Writes a number like the setter without a mask, with the value's bits exclusive-or'ed with
    /// those of the field's default: read with this mask, the field is the value.
    pub fn set_data_field_mask<T: Primitive + Mask>(
        &mut self,
        offset: ElementCount,
        value: T,
        mask: T::T,
    )
        requires there { HasWords (A.segments self.old.memory.now.arena)
            self.old.place.start self.old.place.data_words }
        requires near { self.old.place.start.position < 2 ^ 61 }
        requires inside { T.BYTES * offset + T.BYTES ≤ 8 * self.old.place.data_words }
        ensures same { self.new.memory.ghost_name ≡ self.old.memory.ghost_name }
        ensures place { self.new.place ≡ self.old.place }
        ensures books { A.books self.new.memory.now.arena ≡ A.books self.old.memory.now.arena }
        ensures sizes { map length (words_in (A.segments self.new.memory.now.arena))
            ≡ map length (words_in (A.segments self.old.memory.now.arena)) }
        ensures sets { SetsBits (words_in (A.segments self.old.memory.now.arena))
            (words_in (A.segments self.new.memory.now.arena)) self.old.place
            (8 * (T.BYTES * offset)) (8 * T.BYTES) (bit_xor (T.bits value) (T.mask_bits mask)) }
    {
        self.set_data_field(offset, T::mask(value, mask));
    }

    /// Writes a bit of the data section, at an offset in bits. The field is in the section; its
    /// neighbours keep their bits.
    pub fn set_bool_field(&mut self, offset: ElementCount, value: bool)
        requires there { HasWords (A.segments self.old.memory.now.arena)
            self.old.place.start self.old.place.data_words }
        requires near { self.old.place.start.position < 2 ^ 61 }
        requires inside { offset < 64 * self.old.place.data_words }
        ensures same { self.new.memory.ghost_name ≡ self.old.memory.ghost_name }
        ensures place { self.new.place ≡ self.old.place }
        ensures books { A.books self.new.memory.now.arena ≡ A.books self.old.memory.now.arena }
        ensures sizes { map length (words_in (A.segments self.new.memory.now.arena))
            ≡ map length (words_in (A.segments self.old.memory.now.arena)) }
        ensures sets { SetsBits (words_in (A.segments self.old.memory.now.arena))
            (words_in (A.segments self.new.memory.now.arena)) self.old.place offset 1
            (bit_of_bool value) }
    {
        let place = self.place;
        let bit = bit_of(value);
        set_bits(&mut self.memory.arena, place, offset, 1, bit);
    }

    /// Writes a bit like the setter without a mask, with the value exclusive-or'ed with the field's
    /// default.
    pub fn set_bool_field_mask(&mut self, offset: ElementCount, value: bool, mask: bool)
        requires there { HasWords (A.segments self.old.memory.now.arena)
            self.old.place.start self.old.place.data_words }
        requires near { self.old.place.start.position < 2 ^ 61 }
        requires inside { offset < 64 * self.old.place.data_words }
        ensures same { self.new.memory.ghost_name ≡ self.old.memory.ghost_name }
        ensures place { self.new.place ≡ self.old.place }
        ensures books { A.books self.new.memory.now.arena ≡ A.books self.old.memory.now.arena }
        ensures sizes { map length (words_in (A.segments self.new.memory.now.arena))
            ≡ map length (words_in (A.segments self.old.memory.now.arena)) }
        ensures sets { SetsBits (words_in (A.segments self.old.memory.now.arena))
            (words_in (A.segments self.new.memory.now.arena)) self.old.place offset 1
            (bit_xor (bit_of_bool value) (bit_of_bool mask)) }
    {
        self.set_bool_field(offset, value != mask);
    }

    /// Writes a section of N words over the first N words of the data section, which has at least
    /// N. The later words stay.
    #[inline(always)]
    pub fn set_data_section<const N: usize>(&mut self, section: &DataSection<N>)
        requires there { HasWords (A.segments self.old.memory.now.arena)
            self.old.place.start self.old.place.data_words }
        requires near { self.old.place.start.position < 2 ^ 61 }
        requires inside { N ≤ self.old.place.data_words }
        ensures same { self.new.memory.ghost_name ≡ self.old.memory.ghost_name }
        ensures place { self.new.place ≡ self.old.place }
        ensures books { A.books self.new.memory.now.arena ≡ A.books self.old.memory.now.arena }
        ensures sizes { map length (words_in (A.segments self.new.memory.now.arena))
            ≡ map length (words_in (A.segments self.old.memory.now.arena)) }
        ensures sets { SetsBits (words_in (A.segments self.old.memory.now.arena))
            (words_in (A.segments self.new.memory.now.arena)) self.old.place 0 (64 * N)
            (section_number section.now) }
    {
        let start = self.place.start;
        self.memory.arena.write_words(start, section.as_bytes());
    }
}
