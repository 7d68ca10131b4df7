//! Structs to read.
ghost use Rattle.std.specs.Prelude.{◌≡◌, ◌+◌, ◌-◌, ◌*◌, ◌<◌, ◌≤◌, ◌^◌, ◌==◌, bit_xor, length};
ghost use Rattle.capnp_model.specs.Sections.{number_of};
ghost use Rattle.capnp_model.specs.Readings.{field_bits, just_bits};
ghost use Rattle.capnp_units.specs.Segments.{words_in};
ghost use Rattle.capnp_wire_objects.specs.Objects.{AreThere};

use crate::backing::Backing;
use crate::levels::levels_of;
use crate::pointer::PointerReader;
use crate::section::{bit_of, bytes_from};
use capnp_units::errors::{Error, Result};
use capnp_units::kinds::ErrorKind;
use capnp_units::limiter::ReadLimiter;
use capnp_units::primitive::{Mask, Primitive, Zero};
use capnp_units::sizes::MessageSize;
use capnp_units::units::{ElementCount, WirePointerCount};
use capnp_wire_objects::arena::ReaderArena;
use capnp_wire_objects::place::Place;
use capnp_wire_objects::size::{size_of_row, with_words};
use std::alloc::AllocError;

/// A struct to read. Its data section is lent from its backing; outside the sections there are
/// zeros and nulls.
pub struct StructReader<'a, A> {
    pub(crate) backing: Backing<'a, A>,
    pub(crate) section: &'a [u8],
    pub(crate) first: Place,
    pub(crate) pointers: u16,
    pub(crate) levels: Option<u32>,
    ghost near: { first.position + pointers < 2 ^ 62 },
    ghost few: { length section.now ≤ 8 * (2 ^ 16 - 1) },
}

impl<A> Clone for StructReader<'_, A> {
    ghost is_clone = { λ x y. y ≡ x };

    ghost is_infallible = { λ _. Unit {0} };

    fn clone(&self) -> std::result::Result<Self, AllocError> {
        Ok(*self)
    }
}

impl<A> Copy for StructReader<'_, A> {}

impl<'a, A: ReaderArena> StructReader<'a, A> {
    ghost use Rattle.capnp_wire_objects.specs.Places.{place_view};
    ghost use Rattle.capnp_wire.specs.Views.{ground_of, seen_pointer, seen_struct, struct_view, struct_at, pointer_field, bit_of_bool};
    ghost use Rattle.capnp_wire.specs.Reads.{struct_of_null, is_null_pointer};
    ghost use Rattle.capnp_wire.specs.ValueSizes.{SizeOn, StructSizeOf};
    ghost use Rattle.capnp_model.specs.Traversal.{tree_at, each};
    ghost use Rattle.capnp_model.specs.Coverage.{from_each};
    ghost use Rattle.capnp_model.specs.Visits.{visits};
    ghost use Rattle.capnp_model.specs.Sizes.{each_object_words, each_capability_count};

    /// Makes a struct of these parts.
    #[inline(always)]
    pub(crate) fn of_parts(
        backing: Backing<'a, A>,
        section: &'a [u8],
        first: Place,
        pointers: u16,
        levels: Option<u32>,
    ) -> Self
        requires near { first.position + pointers < 2 ^ 62 }
        requires few { length section.now ≤ 8 * (2 ^ 16 - 1) }
        ensures { seen_struct A.segments result
            ≡ struct_view (ground_of A.segments backing.entry) (number_of 8 section.now)
            (8 * length section.now) (place_view first) pointers levels }
    {
        StructReader {
            backing,
            section,
            first,
            pointers,
            levels,
        }
    }

    /// Makes the struct without sections, as which a null pointer reads: each field has its
    /// default. Its pointers are null.
    pub fn empty(backing: Backing<'a, A>, levels: Option<u32>) -> Self
        ensures { seen_struct A.segments result
            ≡ struct_of_null (ground_of A.segments backing.entry) levels }
    {
        StructReader {
            backing,
            section: &[],
            first: Place {
                segment: 0,
                position: 0,
            },
            pointers: 0,
            levels,
        }
    }

    /// Returns the struct's backing, in which its pointers are followed.
    #[inline(always)]
    pub fn backing(&self) -> Backing<'a, A>
        ensures { ground_of A.segments result ≡ (seen_struct A.segments self.now).basis }
    {
        self.backing
    }

    /// Returns the bytes of the data section, lent in place. They are whole words, except for an
    /// element of a plain list, which has exactly its own bytes.
    #[inline(always)]
    pub fn section(&self) -> &'a [u8]
        ensures section { number_of 8 result.now ≡ (seen_struct A.segments self.now).section }
        ensures bits { 8 * length result.now ≡ (seen_struct A.segments self.now).bits }
        ensures few { length result.now ≤ 8 * (2 ^ 16 - 1) }
    {
        self.section
    }

    /// Returns the place of the first pointer, if there is one; the others follow it.
    #[inline(always)]
    pub fn first_pointer(&self) -> Place
        ensures place { place_view result ≡ (seen_struct A.segments self.now).first }
        ensures near { result.position + (seen_struct A.segments self.now).pointers < 2 ^ 62 }
    {
        self.first
    }

    /// Returns the number of pointers.
    #[inline(always)]
    pub fn pointers(&self) -> u16
        ensures { result ≡ (seen_struct A.segments self.now).pointers }
    {
        self.pointers
    }

    /// Returns the number of levels that may be followed from each pointer; `None` if not even a
    /// level for the struct itself was left.
    #[inline(always)]
    pub fn levels(&self) -> Option<u32>
        ensures { result ≡ (seen_struct A.segments self.now).levels }
    {
        self.levels
    }

    /// Makes the struct at a place of an arena, of n data words and pointers, which exist there.
    /// Its pointers are followed under the arena's nesting limit.
    pub fn at(arena: &'a A, start: Place, data_words: u16, pointers: u16) -> Self
        requires there { AreThere (words_in (A.segments arena.now)) (place_view start) data_words }
        requires near { start.position + (data_words + pointers) < 2 ^ 62 }
        ensures { seen_struct A.segments result
            ≡ struct_at (A.segments arena.now) (A.nesting arena.now) (place_view start) data_words
            pointers }
    {
        let backing = Backing::Arena(arena);
        let section = backing.lend(start, data_words as usize);
        let first = Place {
            segment: start.segment,
            position: start.position + data_words as usize,
        };
        let levels = levels_of(arena.nesting_limit());
        StructReader::of_parts(backing, section, first, pointers, levels)
    }

    /// Returns a number of the data section, at an offset in units of its width; 0 if the number
    /// isn't wholly in the section.
    #[inline(always)]
    pub fn get_data_field<T: Primitive + Zero>(&self, offset: ElementCount) -> T
        ensures { let s = seen_struct A.segments self.now in
            result ≡ T.from_bits
            (field_bits (just_bits s.bits) s.section (8 * (T.BYTES * offset)) (8 * T.BYTES)) }
    {
        match bytes_from(self.section, offset, T::BYTES) {
            Some(bytes) => T::get(bytes),
            None => T::zero(),
        }
    }

    /// Returns a number like the getter without a mask, with its bits exclusive-or'ed with those of
    /// the field's default.
    #[inline(always)]
    pub fn get_data_field_mask<T: Primitive + Zero + Mask>(
        &self,
        offset: ElementCount,
        mask: T::T,
    ) -> T
        ensures { let s = seen_struct A.segments self.now in
            result ≡ T.from_bits
            (bit_xor (field_bits (just_bits s.bits) s.section (8 * (T.BYTES * offset))
            (8 * T.BYTES)) (T.mask_bits mask)) }
    {
        T::mask(self.get_data_field::<T>(offset), mask)
    }

    /// Returns a bit of the data section, at an offset in bits; false if the bit isn't in the
    /// section.
    #[inline(always)]
    pub fn get_bool_field(&self, offset: ElementCount) -> bool
        ensures { let s = seen_struct A.segments self.now in
            result ≡ (field_bits (just_bits s.bits) s.section offset 1 == 1) }
    {
        offset / 8 < self.section.len() && bit_of(self.section, offset)
    }

    /// Returns a bit like the getter without a mask, exclusive-or'ed with the field's default.
    #[inline(always)]
    pub fn get_bool_field_mask(&self, offset: ElementCount, mask: bool) -> bool
        ensures { let s = seen_struct A.segments self.now in
            result ≡ (bit_xor (field_bits (just_bits s.bits) s.section offset 1)
            (bit_of_bool mask) == 1) }
    {
        self.get_bool_field(offset) != mask
    }

    /// Returns a pointer of the pointer section, null past its end.
    #[inline(always)]
    pub fn get_pointer_field(&self, ptr_index: WirePointerCount) -> PointerReader<'a, A>
        ensures { seen_pointer A.segments result
            ≡ pointer_field (seen_struct A.segments self.now) ptr_index }
    {
        let place = if ptr_index < self.pointers as usize {
            Some(Place {
                segment: self.first.segment,
                position: self.first.position + ptr_index,
            })
        } else {
            None
        };
        PointerReader {
            backing: self.backing,
            place,
            levels: self.levels,
        }
    }

    /// Returns whether a pointer of the pointer section is null; past its end pointers are null.
    #[inline(always)]
    pub fn is_pointer_field_null(&self, ptr_index: WirePointerCount) -> bool
        ensures { result
            ≡ is_null_pointer (pointer_field (seen_struct A.segments self.now) ptr_index) }
    {
        self.get_pointer_field(ptr_index).is_null()
    }

    /// Returns the size of the struct: its sections in whole words, the words of the objects that
    /// its pointers lead to, and their capabilities. Each count stops at the greatest number of its
    /// type. In an arena the pointers are followed and paid for; the struct's own words were paid
    /// for before.
    ///
    /// It is refused, and bounded in time and stack, like the size of a pointer's value.
    pub fn total_size(&self, limiter: &mut ReadLimiter) -> Result<MessageSize>
        ensures { StructSizeOf (seen_struct A.segments self.now) limiter.old result limiter.new }
    {
        let Some(levels) = self.levels else {
            return Err(Error::from(ErrorKind::NestingLimitExceeded));
        };
        let rows = self.size_of_pointers(limiter, levels)?;
        let words = (self.section.len() as u64 + 7) / 8;
        Ok(with_words(rows, words + self.pointers as u64))
    }

    /// Returns the size of the values of the struct's pointers.
    fn size_of_pointers(&self, limiter: &mut ReadLimiter, levels: u32) -> Result<MessageSize>
        ensures { let v = seen_struct A.segments self.now in let s = v.basis.segments in
            SizeOn v.basis.paid each_object_words each_capability_count
            (each (tree_at levels s) v.first v.pointers)
            (from_each (visits levels s) v.first v.pointers) limiter.old result limiter.new }
    {
        let count = self.pointers as u32;
        match self.backing {
            Backing::Arena(arena) => size_of_row(arena, limiter, self.first, count, levels),
            Backing::Default(_) => {
                let mut unlimited = ReadLimiter::new(None);
                size_of_row(&self.backing, &mut unlimited, self.first, count, levels)
            }
        }
    }
}
