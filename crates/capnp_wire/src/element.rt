//! Types as which elements of lists can be read.
ghost use Rattle.std.specs.Prelude.{◌≡◌, ◌==◌, ℕ, ◌*◌, ◌<◌};
ghost use Rattle.std.specs.Int.{w8, w16, w32, w64, cast_signed};
ghost use Rattle.capnp_model.specs.Trees.{size_bits};
ghost use Rattle.capnp_units.specs.Sizes.{size_number};

use crate::list::ListReader;
use capnp_units::sizes::ElementSize;
use capnp_units::units::ElementCount32;
use capnp_wire_objects::arena::ReaderArena;

/// A type as which an element of a list can be read: a whole number, a truth value, or nothing.
pub trait PrimitiveElement: Copy {
    ghost use Rattle.capnp_wire.specs.Views.{seen_list, element_number};

    /// The number of bits of such an element.
    ghost width: { ℕ };

    /// The value that has these bits.
    ghost of_bits: { ℕ → Self };

    /// Returns the value at the front of an element, its lowest bits; bits that a narrower element
    /// lacks are 0.
    fn get<A: ReaderArena>(list: &ListReader<'_, A>, index: ElementCount32) -> Self
        requires { index < (seen_list A.segments list.now).count }
        ensures { result ≡ of_bits (element_number (seen_list A.segments list.now) index width) };

    /// Returns the size of such elements, for requests of a list of them.
    fn element_size() -> ElementSize
        ensures plain { size_number result < 6 }
        ensures bits { size_bits (size_number result) ≡ width };
}

impl PrimitiveElement for () {
    ghost width = { 0 };

    ghost of_bits = { λ n. tt };

    fn get<A: ReaderArena>(_list: &ListReader<'_, A>, _index: ElementCount32) {}

    fn element_size() -> ElementSize {
        ElementSize::Void
    }
}

impl PrimitiveElement for bool {
    ghost width = { 1 };

    ghost of_bits = { λ n. n == 1 };

    fn get<A: ReaderArena>(list: &ListReader<'_, A>, index: ElementCount32) -> bool {
        list.bit(index)
    }

    fn element_size() -> ElementSize {
        ElementSize::Bit
    }
}

impl PrimitiveElement for u8 {
    ghost width = { 8 };

    ghost of_bits = { λ n. n };

    fn get<A: ReaderArena>(list: &ListReader<'_, A>, index: ElementCount32) -> u8 {
        list.number(index)
    }

    fn element_size() -> ElementSize {
        ElementSize::Byte
    }
}

impl PrimitiveElement for i8 {
    ghost width = { 8 };

    ghost of_bits = { cast_signed w8 };

    fn get<A: ReaderArena>(list: &ListReader<'_, A>, index: ElementCount32) -> i8 {
        list.number(index)
    }

    fn element_size() -> ElementSize {
        ElementSize::Byte
    }
}

impl PrimitiveElement for u16 {
    ghost width = { 16 };

    ghost of_bits = { λ n. n };

    fn get<A: ReaderArena>(list: &ListReader<'_, A>, index: ElementCount32) -> u16 {
        list.number(index)
    }

    fn element_size() -> ElementSize {
        ElementSize::TwoBytes
    }
}

impl PrimitiveElement for i16 {
    ghost width = { 16 };

    ghost of_bits = { cast_signed w16 };

    fn get<A: ReaderArena>(list: &ListReader<'_, A>, index: ElementCount32) -> i16 {
        list.number(index)
    }

    fn element_size() -> ElementSize {
        ElementSize::TwoBytes
    }
}

impl PrimitiveElement for u32 {
    ghost width = { 32 };

    ghost of_bits = { λ n. n };

    fn get<A: ReaderArena>(list: &ListReader<'_, A>, index: ElementCount32) -> u32 {
        list.number(index)
    }

    fn element_size() -> ElementSize {
        ElementSize::FourBytes
    }
}

impl PrimitiveElement for i32 {
    ghost width = { 32 };

    ghost of_bits = { cast_signed w32 };

    fn get<A: ReaderArena>(list: &ListReader<'_, A>, index: ElementCount32) -> i32 {
        list.number(index)
    }

    fn element_size() -> ElementSize {
        ElementSize::FourBytes
    }
}

impl PrimitiveElement for u64 {
    ghost width = { 64 };

    ghost of_bits = { λ n. n };

    fn get<A: ReaderArena>(list: &ListReader<'_, A>, index: ElementCount32) -> u64 {
        list.number(index)
    }

    fn element_size() -> ElementSize {
        ElementSize::EightBytes
    }
}

impl PrimitiveElement for i64 {
    ghost width = { 64 };

    ghost of_bits = { cast_signed w64 };

    fn get<A: ReaderArena>(list: &ListReader<'_, A>, index: ElementCount32) -> i64 {
        list.number(index)
    }

    fn element_size() -> ElementSize {
        ElementSize::EightBytes
    }
}
