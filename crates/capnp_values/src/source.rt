//! The sources of dynamic readers: a message, or a default value.
ghost use Rattle.std.specs.Prelude.{◌≡◌, ◌≢◌, ◌<◌, ◌==◌, ◌*◌, ◌^◌, IfOk};
ghost use Rattle.capnp_wire_objects.specs.Places.{seen};
ghost use Rattle.capnp_units.specs.Sizes.{size_number};
ghost use Rattle.capnp_wire.specs.Views.{seen_pointer, seen_struct, seen_list, pointer_field, element_as_struct, element_number, bit_of_bool};
ghost use Rattle.capnp_wire.specs.Reads.{is_null_pointer};
ghost use Rattle.capnp_wire.specs.ValueSizes.{PointerSize, StructSizeOf};
ghost use Rattle.capnp_values.specs.Sources.{pointer_seen, struct_seen, list_seen, size_in, null_root_segments, WithoutLimit, masked_bits, pointed_text, pointed_data, pointed_struct, pointed_list};

use crate::defaults::Defaults;
use capnp_units::errors::Result;
use capnp_units::limiter::ReadLimiter;
use capnp_units::primitive::{Mask, Primitive, Zero};
use capnp_units::sizes::{ElementSize, MessageSize};
use capnp_wire::element::PrimitiveElement;
use capnp_wire::list::ListReader;
use capnp_wire::pointer::PointerReader;
use capnp_wire::structs::StructReader;
use capnp_wire_objects::arena::ReaderArena;

/// A pointer of a message, or of a default.
#[derive_where(Clone, Copy)]
pub enum PointerSource<'a, A> {
    Message(PointerReader<'a, A>),
    Default(PointerReader<'a, Defaults>),
}

/// A struct of a message, or of a default.
#[derive_where(Clone, Copy)]
pub enum StructSource<'a, A> {
    Message(StructReader<'a, A>),
    Default(StructReader<'a, Defaults>),
}

/// A list of a message, or of a default.
#[derive_where(Clone, Copy)]
pub enum ListSource<'a, A> {
    Message(ListReader<'a, A>),
    Default(ListReader<'a, Defaults>),
}

// ---- gets without a budget

#[tactic(auto, using(crate::proofs::lemmas::Unlimited::answers_reading))]
fn text_behind<'a, A: ReaderArena>(pointer: PointerReader<'a, A>) -> Result<&'a [u8]>
    ensures { seen (λ r. r.now) result ≡ pointed_text (seen_pointer A.segments pointer.entry) }
{
    let mut unlimited = ReadLimiter::new(None);
    pointer.get_text(&mut unlimited, None)
}

#[tactic(auto, using(crate::proofs::lemmas::Unlimited::answers_reading))]
fn data_behind<'a, A: ReaderArena>(pointer: PointerReader<'a, A>) -> Result<&'a [u8]>
    ensures { seen (λ r. r.now) result ≡ pointed_data (seen_pointer A.segments pointer.entry) }
{
    let mut unlimited = ReadLimiter::new(None);
    pointer.get_data(&mut unlimited, None)
}

#[tactic(auto, using(crate::proofs::lemmas::Unlimited::answers_reading))]
fn struct_behind<'a, A: ReaderArena>(pointer: PointerReader<'a, A>) -> Result<StructReader<'a, A>>
    ensures { seen (seen_struct A.segments) result
        ≡ pointed_struct (seen_pointer A.segments pointer.entry) }
{
    let mut unlimited = ReadLimiter::new(None);
    pointer.get_struct(&mut unlimited, None)
}

#[tactic(auto, using(crate::proofs::lemmas::Unlimited::answers_reading))]
fn list_behind<'a, A: ReaderArena>(
    pointer: PointerReader<'a, A>,
    expected: ElementSize,
) -> Result<ListReader<'a, A>>
    ensures list { seen (seen_list A.segments) result
        ≡ pointed_list expected (seen_pointer A.segments pointer.entry) }
    ensures bytewise { size_number expected ≢ 1
        → IfOk result (λ l. size_number (seen_list A.segments l).size ≢ 1) }
{
    let mut unlimited = ReadLimiter::new(None);
    pointer.get_list(&mut unlimited, expected, None)
}

fn size_behind<A: ReaderArena>(pointer: &PointerReader<'_, A>) -> Result<MessageSize>
    ensures { WithoutLimit (PointerSize (seen_pointer A.segments pointer.now)) result }
{
    let mut unlimited = ReadLimiter::new(None);
    pointer.total_size(&mut unlimited)
}

fn size_of_struct<A: ReaderArena>(reader: &StructReader<'_, A>) -> Result<MessageSize>
    ensures { WithoutLimit (StructSizeOf (seen_struct A.segments reader.now)) result }
{
    let mut unlimited = ReadLimiter::new(None);
    reader.total_size(&mut unlimited)
}

// ---- numbers of a struct

fn number_of<T: Primitive + Zero + Mask, A: ReaderArena>(
    reader: &StructReader<'_, A>,
    offset: usize,
    mask: T::T,
) -> T
    requires { T.mask_bits mask < 2 ^ (8 * T.BYTES) }
    ensures { T.bits result
        ≡ masked_bits (seen_struct A.segments reader.now) (8 * (T.BYTES * offset)) (8 * T.BYTES)
        (T.mask_bits mask) }
{
    reader.get_data_field_mask::<T>(offset, mask)
}

// ---- sources

impl<'a, A: ReaderArena> PointerSource<'a, A> {
    /// Returns whether the pointer is null.
    pub(crate) fn is_null(&self) -> bool
        ensures { result ≡ is_null_pointer (pointer_seen A.segments self.now) }
    {
        match self {
            PointerSource::Message(pointer) => pointer.is_null(),
            PointerSource::Default(pointer) => pointer.is_null(),
        }
    }

    /// Returns the size of the pointer's value.
    pub(crate) fn total_size(&self) -> Result<MessageSize>
        ensures { WithoutLimit (PointerSize (pointer_seen A.segments self.now)) result }
    {
        match self {
            PointerSource::Message(pointer) => size_behind(pointer),
            PointerSource::Default(pointer) => size_behind(pointer),
        }
    }

    /// Returns the text that the pointer leads to; null is the empty text.
    pub(crate) fn text(self) -> Result<&'a [u8]>
        ensures { seen (λ r. r.now) result ≡ pointed_text (pointer_seen A.segments self.entry) }
    {
        match self {
            PointerSource::Message(pointer) => text_behind(pointer),
            PointerSource::Default(pointer) => text_behind(pointer),
        }
    }

    /// Returns the data that the pointer leads to; null is empty data.
    pub(crate) fn data(self) -> Result<&'a [u8]>
        ensures { seen (λ r. r.now) result ≡ pointed_data (pointer_seen A.segments self.entry) }
    {
        match self {
            PointerSource::Message(pointer) => data_behind(pointer),
            PointerSource::Default(pointer) => data_behind(pointer),
        }
    }

    /// Returns the struct that the pointer leads to; null is the empty struct.
    pub(crate) fn structure(self) -> Result<StructSource<'a, A>>
        ensures { seen (struct_seen A.segments) result
            ≡ pointed_struct (pointer_seen A.segments self.entry) }
    {
        match self {
            PointerSource::Message(pointer) => Ok(StructSource::Message(struct_behind(pointer)?)),
            PointerSource::Default(pointer) => Ok(StructSource::Default(struct_behind(pointer)?)),
        }
    }

    /// Returns the list that the pointer leads to, whose elements can be read as elements of the
    /// expected size; null is the empty list.
    pub(crate) fn list(self, expected: ElementSize) -> Result<ListSource<'a, A>>
        ensures list { seen (list_seen A.segments) result
            ≡ pointed_list expected (pointer_seen A.segments self.entry) }
        ensures bytewise { size_number expected ≢ 1
            → IfOk result (λ l. size_number (size_in l) ≢ 1) }
    {
        match self {
            PointerSource::Message(pointer) => Ok(ListSource::Message(list_behind(
                pointer, expected,
            )?)),
            PointerSource::Default(pointer) => Ok(ListSource::Default(list_behind(
                pointer, expected,
            )?)),
        }
    }
}

impl<'a, A: ReaderArena> StructSource<'a, A> {
    /// Returns a number of the data section, exclusive-or'ed with its default; exactly the default
    /// if the number isn't wholly in the section.
    pub(crate) fn number<T: Primitive + Zero + Mask>(&self, offset: usize, mask: T::T) -> T
        requires { T.mask_bits mask < 2 ^ (8 * T.BYTES) }
        ensures { T.bits result
            ≡ masked_bits (struct_seen A.segments self.now) (8 * (T.BYTES * offset)) (8 * T.BYTES)
            (T.mask_bits mask) }
    {
        match self {
            StructSource::Message(reader) => number_of(reader, offset, mask),
            StructSource::Default(reader) => number_of(reader, offset, mask),
        }
    }

    /// Returns the size of the struct: its sections and the objects that its pointers lead to.
    pub(crate) fn total_size(&self) -> Result<MessageSize>
        ensures { WithoutLimit (StructSizeOf (struct_seen A.segments self.now)) result }
    {
        match self {
            StructSource::Message(reader) => size_of_struct(reader),
            StructSource::Default(reader) => size_of_struct(reader),
        }
    }

    /// Returns a bit of the data section, exclusive-or'ed with its default.
    pub(crate) fn bit(&self, offset: usize, mask: bool) -> bool
        ensures { result ≡ (masked_bits (struct_seen A.segments self.now) offset 1
            (bit_of_bool mask) == 1) }
    {
        match self {
            StructSource::Message(reader) => reader.get_bool_field_mask(offset, mask),
            StructSource::Default(reader) => reader.get_bool_field_mask(offset, mask),
        }
    }

    /// Returns a pointer of the pointer section, null past its end.
    pub(crate) fn pointer(&self, index: usize) -> PointerSource<'a, A>
        ensures { pointer_seen A.segments result
            ≡ pointer_field (struct_seen A.segments self.now) index }
    {
        match self {
            StructSource::Message(reader) => PointerSource::Message(reader.get_pointer_field(
                index,
            )),
            StructSource::Default(reader) => PointerSource::Default(reader.get_pointer_field(
                index,
            )),
        }
    }
}

impl<'a, A: ReaderArena> ListSource<'a, A> {
    /// Returns the number of elements.
    pub(crate) fn len(&self) -> u32
        ensures { result ≡ (list_seen A.segments self.now).count }
    {
        match self {
            ListSource::Message(reader) => reader.len(),
            ListSource::Default(reader) => reader.len(),
        }
    }

    /// Returns the value at the front of an element.
    pub(crate) fn number<T: PrimitiveElement>(&self, index: u32) -> T
        requires { index < (list_seen A.segments self.now).count }
        ensures { result ≡ T.of_bits
            (element_number (list_seen A.segments self.now) index T.width) }
    {
        match self {
            ListSource::Message(reader) => T::get(reader, index),
            ListSource::Default(reader) => T::get(reader, index),
        }
    }

    /// Returns an element as a struct; elements of one bit can't be read in this way.
    pub(crate) fn structure(&self, index: u32) -> StructSource<'a, A>
        requires index { index < (list_seen A.segments self.now).count }
        requires bytes { size_number (size_in self.now) ≢ 1 }
        ensures { struct_seen A.segments result ≡ element_as_struct
            (list_seen A.segments self.now) index }
    {
        match self {
            ListSource::Message(reader) => StructSource::Message(reader.get_struct_element(index)),
            ListSource::Default(reader) => StructSource::Default(reader.get_struct_element(index)),
        }
    }

    /// Returns the first pointer of an element; null if the element has no pointer.
    pub(crate) fn pointer(&self, index: u32) -> PointerSource<'a, A>
        requires { index < (list_seen A.segments self.now).count }
        ensures { pointer_seen A.segments result
            ≡ pointer_field (element_as_struct (list_seen A.segments self.now) index) 0 }
    {
        match self {
            ListSource::Message(reader) => PointerSource::Message(reader.get_pointer_element(
                index,
            )),
            ListSource::Default(reader) => PointerSource::Default(reader.get_pointer_element(
                index,
            )),
        }
    }
}
