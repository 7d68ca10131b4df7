//! Lists to read.
ghost use Rattle.std.specs.Prelude.{◌≡◌, ◌≢◌, ◌+◌, ◌*◌, ◌/◌, ◌%◌, ◌<◌, ◌≤◌, ◌^◌, ◌==◌, nat_le, length};
ghost use Rattle.capnp_model.specs.Sections.{bits_at, number_of, words_for};
ghost use Rattle.capnp_units.specs.Segments.{words_in};
ghost use Rattle.capnp_wire_objects.specs.Objects.{AreThere};
ghost use Rattle.capnp_model.specs.Readings.{is_accepted_as};
ghost use Rattle.capnp_units.specs.Sizes.{size_number, data_bits};
ghost use Rattle.capnp_wire.specs.Elements.{step_bits, element_bits, step_words, element_pointers};

use crate::backing::Backing;
use crate::levels::levels_of;
use crate::pointer::PointerReader;
use crate::section::bit_of;
use crate::structs::StructReader;
use capnp_units::primitive::{Primitive, Zero};
use capnp_units::sizes::{ElementSize, StructSize, data_bits_per_element, pointers_per_element};
use capnp_wire_objects::arena::ReaderArena;
use capnp_wire_objects::object::words_of_elements;
use capnp_wire_objects::place::Place;
use std::alloc::AllocError;

/// A list to read. Its plain elements, or the words of its structs, are lent from its backing.
pub struct ListReader<'a, A> {
    pub(crate) backing: Backing<'a, A>,
    pub(crate) bytes: &'a [u8],
    pub(crate) start: Place,
    pub(crate) count: u32,
    pub(crate) size: ElementSize,
    pub(crate) data_words: u16,
    pub(crate) pointers: u16,
    pub(crate) levels: Option<u32>,
    ghost inside: { step_bits (size_number size) data_words pointers * count ≤ 8 * length
        bytes.now },
    ghost near: { start.position + step_words (size_number size) data_words pointers * count < 2
        ^ 61 },
}

impl<A> Clone for ListReader<'_, A> {
    ghost is_clone = { λ x y. y ≡ x };

    ghost is_infallible = { λ _. Unit {0} };

    fn clone(&self) -> Result<Self, AllocError> {
        Ok(*self)
    }
}

impl<A> Copy for ListReader<'_, A> {}

/// Returns the number of words from the first of n elements to the end of the last, without those
/// of pointers.
fn words_of_steps(size: ElementSize, count: u32, data_words: u16, pointers: u16) -> usize
    ensures { result ≡ words_for (step_bits (size_number size) data_words pointers * count) }
{
    match size {
        ElementSize::InlineComposite => count as usize * (data_words as usize + pointers as usize),
        _ => words_of_elements(size, count) as usize,
    }
}

impl<'a, A: ReaderArena> ListReader<'a, A> {
    ghost use Rattle.capnp_model.specs.Segments.{root};
    ghost use Rattle.capnp_wire_objects.specs.Places.{place_view};
    ghost use Rattle.capnp_wire.specs.Views.{ground_of, seen_pointer, seen_struct, seen_list, list_view, list_at, element_as_struct, element_number, pointer_field};

    /// Makes a list of these parts.
    #[inline(always)]
    pub(crate) fn of_parts(
        backing: Backing<'a, A>,
        bytes: &'a [u8],
        start: Place,
        count: u32,
        size: ElementSize,
        data_words: u16,
        pointers: u16,
        levels: Option<u32>,
    ) -> Self
        requires inside { step_bits (size_number size) data_words pointers * count ≤ 8 * length
            bytes.now }
        requires near { start.position + step_words (size_number size) data_words pointers * count
            < 2 ^ 61 }
        ensures { seen_list A.segments result
            ≡ list_view (ground_of A.segments backing.entry) size count (number_of 8 bytes.now)
            (place_view start) data_words pointers levels }
    {
        ListReader {
            backing,
            bytes,
            start,
            count,
            size,
            data_words,
            pointers,
            levels,
        }
    }

    /// Makes the empty list of elements of a size.
    pub(crate) fn empty(backing: Backing<'a, A>, size: ElementSize, levels: Option<u32>) -> Self
        ensures { seen_list A.segments result
            ≡ list_view (ground_of A.segments backing.entry) size 0 0 root 0 0 levels }
    {
        ListReader {
            backing,
            bytes: &[],
            start: Place {
                segment: 0,
                position: 0,
            },
            count: 0,
            size,
            data_words: 0,
            pointers: 0,
            levels,
        }
    }

    /// Makes the list of n elements of a size whose words begin at a place of an arena: after the
    /// tag for structs, which have these sections. Its pointers are followed under the arena's
    /// nesting limit.
    pub fn at(
        arena: &'a A,
        start: Place,
        count: u32,
        size: ElementSize,
        data_words: u16,
        pointers: u16,
    ) -> Self
        requires there { AreThere (words_in (A.segments arena.now)) (place_view start)
            (words_for (step_bits (size_number size) data_words pointers * count)) }
        requires near { start.position + step_words (size_number size) data_words pointers * count
            < 2 ^ 61 }
        ensures { seen_list A.segments result
            ≡ list_at (A.segments arena.now) (A.nesting arena.now) (place_view start) size count
            data_words pointers }
    {
        let words = words_of_steps(size, count, data_words, pointers);
        let backing = Backing::Arena(arena);
        let bytes = backing.lend(start, words);
        let levels = levels_of(arena.nesting_limit());
        ListReader::of_parts(
            backing, bytes, start, count, size, data_words, pointers, levels,
        )
    }

    /// Returns the list's backing, in which its pointers are followed.
    pub fn backing(&self) -> Backing<'a, A>
        ensures { ground_of A.segments result ≡ (seen_list A.segments self.now).basis }
    {
        self.backing
    }

    /// Returns the bytes from the first element to the end of the last, lent in place, with those
    /// of the structs' pointers. Bits after the last element are unspecified.
    #[inline(always)]
    pub fn bytes(&self) -> &'a [u8]
        ensures section { let l = seen_list A.segments self.now in
            let bits = step_bits (size_number l.size) l.data_words l.pointers * l.count in
            number_of 8 result.now % 2 ^ bits ≡ l.section }
        ensures inside { let l = seen_list A.segments self.now in
            step_bits (size_number l.size) l.data_words l.pointers * l.count ≤ 8 * length
            result.now }
    {
        self.bytes
    }

    /// Returns the place of the first element, if there is one.
    #[inline(always)]
    pub fn start(&self) -> Place
        ensures place { place_view result ≡ (seen_list A.segments self.now).start }
        ensures near { let l = seen_list A.segments self.now in
            result.position + step_words (size_number l.size) l.data_words l.pointers * l.count
            < 2 ^ 61 }
    {
        self.start
    }

    /// Returns the size of the elements, as the list has it.
    pub fn element_size(&self) -> ElementSize
        ensures { result ≡ (seen_list A.segments self.now).size }
    {
        self.size
    }

    /// Returns the number of data words and pointers of each struct; 0 and 0 if there are no
    /// structs.
    pub fn struct_size(&self) -> StructSize
        ensures { let l = seen_list A.segments self.now in
            (result.data_words ≡ l.data_words) × (result.pointers ≡ l.pointers) }
    {
        StructSize {
            data_words: self.data_words,
            pointers: self.pointers,
        }
    }

    /// Returns the number of levels that may be followed from each pointer; `None` if not even a
    /// level for the list itself was left.
    pub fn levels(&self) -> Option<u32>
        ensures { result ≡ (seen_list A.segments self.now).levels }
    {
        self.levels
    }

    /// Returns the number of elements.
    #[inline(always)]
    pub fn len(&self) -> u32
        ensures { result ≡ (seen_list A.segments self.now).count }
    {
        self.count
    }

    /// Returns whether the list is empty.
    pub fn is_empty(&self) -> bool
        ensures { result ≡ ((seen_list A.segments self.now).count == 0) }
    {
        self.len() == 0
    }

    /// Returns the number of bits from one element to the next, without those of pointers.
    #[inline(always)]
    fn step_bits(&self) -> usize
        ensures { result ≡ step_bits (size_number self.now.size) self.now.data_words
            self.now.pointers }
    {
        match self.size {
            ElementSize::InlineComposite => {
                64 * (self.data_words as usize + self.pointers as usize)
            }
            size => data_bits_per_element(size) as usize,
        }
    }

    /// Returns the number of bits of data in an element.
    #[inline(always)]
    fn element_bits(&self) -> usize
        ensures { result ≡ element_bits (size_number self.now.size) self.now.data_words }
    {
        match self.size {
            ElementSize::InlineComposite => 64 * self.data_words as usize,
            size => data_bits_per_element(size) as usize,
        }
    }

    /// Returns the number of words from the pointers of one element to those of the next.
    #[inline(always)]
    fn step_words(&self) -> usize
        ensures { result ≡ step_words (size_number self.now.size) self.now.data_words
            self.now.pointers }
    {
        match self.size {
            ElementSize::InlineComposite => self.data_words as usize + self.pointers as usize,
            size => pointers_per_element(size) as usize,
        }
    }

    /// Returns the number of pointers in an element.
    #[inline(always)]
    fn element_pointers(&self) -> u16
        ensures { result ≡ element_pointers (size_number self.now.size) self.now.pointers }
    {
        match self.size {
            ElementSize::InlineComposite => self.pointers,
            ElementSize::Pointer => 1,
            _ => 0,
        }
    }

    /// Returns the bytes of an element's data.
    #[inline(always)]
    fn element_section(&self, index: u32) -> &'a [u8]
        requires index { index < self.now.count }
        requires bytes { size_number self.now.size ≢ 1 }
        ensures len { 8 * length result.now
            ≡ element_bits (size_number self.now.size) self.now.data_words }
        ensures section { number_of 8 result.now
            ≡ bits_at (step_bits (size_number self.now.size) self.now.data_words self.now.pointers
            * index) (element_bits (size_number self.now.size) self.now.data_words)
            (seen_list A.segments self.now).section }
    {
        let step = self.step_bits() / 8;
        let width = self.element_bits() / 8;
        let at = step * index as usize;
        &self.bytes[at..at + width]
    }

    /// Returns an element as a struct. A plain element has exactly its bits, and a pointer is the
    /// struct's only pointer. Elements of one bit can't be read in this way.
    #[inline(always)]
    pub fn get_struct_element(&self, index: u32) -> StructReader<'a, A>
        requires index { index < (seen_list A.segments self.now).count }
        requires bytes { size_number (seen_list A.segments self.now).size ≢ 1 }
        ensures { seen_struct A.segments result
            ≡ element_as_struct (seen_list A.segments self.now) index }
    {
        let section = self.element_section(index);
        let first = Place {
            segment: self.start.segment,
            position: self.start.position
                + self.step_words() * index as usize
                + self.data_words as usize,
        };
        StructReader::of_parts(
            self.backing,
            section,
            first,
            self.element_pointers(),
            self.levels,
        )
    }

    /// Returns the first pointer of an element; null if the element has no pointer.
    #[inline(always)]
    pub fn get_pointer_element(&self, index: u32) -> PointerReader<'a, A>
        requires { index < (seen_list A.segments self.now).count }
        ensures { seen_pointer A.segments result
            ≡ pointer_field (element_as_struct (seen_list A.segments self.now) index) 0 }
    {
        let place = if self.element_pointers() > 0 {
            Some(Place {
                segment: self.start.segment,
                position: self.start.position
                    + self.step_words() * index as usize
                    + self.data_words as usize,
            })
        } else {
            None
        };
        PointerReader {
            backing: self.backing,
            place,
            levels: self.levels,
        }
    }

    /// Returns the number at the front of an element, 0 if the element is narrower.
    pub fn number<T: Primitive + Zero>(&self, index: u32) -> T
        requires { index < (seen_list A.segments self.now).count }
        ensures { result ≡ T.from_bits
            (element_number (seen_list A.segments self.now) index (8 * T.BYTES)) }
    {
        if self.size == ElementSize::Bit {
            return T::zero();
        }
        self.get_struct_element(index).get_data_field::<T>(0)
    }

    /// Returns the lowest bit of an element, false if it has no bits.
    pub fn bit(&self, index: u32) -> bool
        requires { index < (seen_list A.segments self.now).count }
        ensures { result ≡ (element_number (seen_list A.segments self.now) index 1 == 1) }
    {
        if self.size == ElementSize::Bit {
            return bit_of(self.bytes, index as usize);
        }
        self.get_struct_element(index).get_bool_field(0)
    }
}
