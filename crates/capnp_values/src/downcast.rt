//! Downcasts of dynamic values: the value of one variant.
ghost use Rattle.std.specs.Prelude.{◌≡◌, Option, Some, is_some, true};
ghost use Rattle.capnp_values.specs.declared.dynamic_value.Reader.{Reader as Value};
ghost use Rattle.capnp_values.specs.Variants.{void_in, bool_in, int8_in, int16_in, int32_in, int64_in, uint8_in, uint16_in, uint32_in, uint64_in, enum_in, text_in, data_in, list_in, struct_in, untyped_in};

use crate::dynamic_value::{Enum, Reader};
use crate::{any_pointer, dynamic_list, dynamic_struct};
use capnp_text::{data, text};

/// A type that one variant of dynamic values holds.
pub trait DowncastReader<'a, A>: Sized {
    /// The value in that variant, if a value is of it.
    ghost variant: { Value A → Option Self };

    /// Returns whether a value is of the variant.
    fn fits(value: &Reader<'a, A>) -> bool
        ensures { result ≡ is_some (variant value.now) };

    /// Returns the value in the variant; the value must be of this variant.
    fn downcast_reader(value: Reader<'a, A>) -> Self
        requires { is_some (variant value) ≡ true }
        ensures { variant value.entry ≡ Some result };
}

impl<'a, A> DowncastReader<'a, A> for () {
    ghost variant = { void_in };

    fn fits(value: &Reader<'a, A>) -> bool {
        matches!(value, Reader::Void)
    }

    fn downcast_reader(value: Reader<'a, A>)
        requires { is_some (void_in value) ≡ true }
        ensures { void_in value.entry ≡ Some result }
    {
        let Reader::Void = value else { unreachable!() };
    }
}

impl<'a, A> DowncastReader<'a, A> for bool {
    ghost variant = { bool_in };

    fn fits(value: &Reader<'a, A>) -> bool {
        matches!(value, Reader::Bool(_))
    }

    fn downcast_reader(value: Reader<'a, A>) -> bool
        requires { is_some (bool_in value) ≡ true }
        ensures { bool_in value.entry ≡ Some result }
    {
        let Reader::Bool(inner) = value else {
            unreachable!()
        };
        inner
    }
}

impl<'a, A> DowncastReader<'a, A> for i8 {
    ghost variant = { int8_in };

    fn fits(value: &Reader<'a, A>) -> bool {
        matches!(value, Reader::Int8(_))
    }

    fn downcast_reader(value: Reader<'a, A>) -> i8
        requires { is_some (int8_in value) ≡ true }
        ensures { int8_in value.entry ≡ Some result }
    {
        let Reader::Int8(inner) = value else {
            unreachable!()
        };
        inner
    }
}

impl<'a, A> DowncastReader<'a, A> for i16 {
    ghost variant = { int16_in };

    fn fits(value: &Reader<'a, A>) -> bool {
        matches!(value, Reader::Int16(_))
    }

    fn downcast_reader(value: Reader<'a, A>) -> i16
        requires { is_some (int16_in value) ≡ true }
        ensures { int16_in value.entry ≡ Some result }
    {
        let Reader::Int16(inner) = value else {
            unreachable!()
        };
        inner
    }
}

impl<'a, A> DowncastReader<'a, A> for i32 {
    ghost variant = { int32_in };

    fn fits(value: &Reader<'a, A>) -> bool {
        matches!(value, Reader::Int32(_))
    }

    fn downcast_reader(value: Reader<'a, A>) -> i32
        requires { is_some (int32_in value) ≡ true }
        ensures { int32_in value.entry ≡ Some result }
    {
        let Reader::Int32(inner) = value else {
            unreachable!()
        };
        inner
    }
}

impl<'a, A> DowncastReader<'a, A> for i64 {
    ghost variant = { int64_in };

    fn fits(value: &Reader<'a, A>) -> bool {
        matches!(value, Reader::Int64(_))
    }

    fn downcast_reader(value: Reader<'a, A>) -> i64
        requires { is_some (int64_in value) ≡ true }
        ensures { int64_in value.entry ≡ Some result }
    {
        let Reader::Int64(inner) = value else {
            unreachable!()
        };
        inner
    }
}

impl<'a, A> DowncastReader<'a, A> for u8 {
    ghost variant = { uint8_in };

    fn fits(value: &Reader<'a, A>) -> bool {
        matches!(value, Reader::UInt8(_))
    }

    fn downcast_reader(value: Reader<'a, A>) -> u8
        requires { is_some (uint8_in value) ≡ true }
        ensures { uint8_in value.entry ≡ Some result }
    {
        let Reader::UInt8(inner) = value else {
            unreachable!()
        };
        inner
    }
}

impl<'a, A> DowncastReader<'a, A> for u16 {
    ghost variant = { uint16_in };

    fn fits(value: &Reader<'a, A>) -> bool {
        matches!(value, Reader::UInt16(_))
    }

    fn downcast_reader(value: Reader<'a, A>) -> u16
        requires { is_some (uint16_in value) ≡ true }
        ensures { uint16_in value.entry ≡ Some result }
    {
        let Reader::UInt16(inner) = value else {
            unreachable!()
        };
        inner
    }
}

impl<'a, A> DowncastReader<'a, A> for u32 {
    ghost variant = { uint32_in };

    fn fits(value: &Reader<'a, A>) -> bool {
        matches!(value, Reader::UInt32(_))
    }

    fn downcast_reader(value: Reader<'a, A>) -> u32
        requires { is_some (uint32_in value) ≡ true }
        ensures { uint32_in value.entry ≡ Some result }
    {
        let Reader::UInt32(inner) = value else {
            unreachable!()
        };
        inner
    }
}

impl<'a, A> DowncastReader<'a, A> for u64 {
    ghost variant = { uint64_in };

    fn fits(value: &Reader<'a, A>) -> bool {
        matches!(value, Reader::UInt64(_))
    }

    fn downcast_reader(value: Reader<'a, A>) -> u64
        requires { is_some (uint64_in value) ≡ true }
        ensures { uint64_in value.entry ≡ Some result }
    {
        let Reader::UInt64(inner) = value else {
            unreachable!()
        };
        inner
    }
}

impl<'a, A> DowncastReader<'a, A> for Enum<'a> {
    ghost variant = { enum_in };

    fn fits(value: &Reader<'a, A>) -> bool {
        matches!(value, Reader::Enum(_))
    }

    fn downcast_reader(value: Reader<'a, A>) -> Enum<'a>
        requires { is_some (enum_in value) ≡ true }
        ensures { enum_in value.entry ≡ Some result }
    {
        let Reader::Enum(inner) = value else {
            unreachable!()
        };
        inner
    }
}

impl<'a, A> DowncastReader<'a, A> for text::Reader<'a> {
    ghost variant = { text_in };

    fn fits(value: &Reader<'a, A>) -> bool {
        matches!(value, Reader::Text(_))
    }

    fn downcast_reader(value: Reader<'a, A>) -> text::Reader<'a>
        requires { is_some (text_in value) ≡ true }
        ensures { text_in value.entry ≡ Some result }
    {
        let Reader::Text(inner) = value else {
            unreachable!()
        };
        inner
    }
}

impl<'a, A> DowncastReader<'a, A> for data::Reader<'a> {
    ghost variant = { data_in };

    fn fits(value: &Reader<'a, A>) -> bool {
        matches!(value, Reader::Data(_))
    }

    fn downcast_reader(value: Reader<'a, A>) -> data::Reader<'a>
        requires { is_some (data_in value) ≡ true }
        ensures { data_in value.entry ≡ Some result }
    {
        let Reader::Data(inner) = value else {
            unreachable!()
        };
        inner
    }
}

impl<'a, A> DowncastReader<'a, A> for dynamic_list::Reader<'a, A> {
    ghost variant = { list_in };

    fn fits(value: &Reader<'a, A>) -> bool {
        matches!(value, Reader::List(_))
    }

    fn downcast_reader(value: Reader<'a, A>) -> dynamic_list::Reader<'a, A>
        requires { is_some (list_in value) ≡ true }
        ensures { list_in value.entry ≡ Some result }
    {
        let Reader::List(inner) = value else {
            unreachable!()
        };
        inner
    }
}

impl<'a, A> DowncastReader<'a, A> for dynamic_struct::Reader<'a, A> {
    ghost variant = { struct_in };

    fn fits(value: &Reader<'a, A>) -> bool {
        matches!(value, Reader::Struct(_))
    }

    fn downcast_reader(value: Reader<'a, A>) -> dynamic_struct::Reader<'a, A>
        requires { is_some (struct_in value) ≡ true }
        ensures { struct_in value.entry ≡ Some result }
    {
        let Reader::Struct(inner) = value else {
            unreachable!()
        };
        inner
    }
}

impl<'a, A> DowncastReader<'a, A> for any_pointer::Reader<'a, A> {
    ghost variant = { untyped_in };

    fn fits(value: &Reader<'a, A>) -> bool {
        matches!(value, Reader::AnyPointer(_))
    }

    fn downcast_reader(value: Reader<'a, A>) -> any_pointer::Reader<'a, A>
        requires { is_some (untyped_in value) ≡ true }
        ensures { untyped_in value.entry ≡ Some result }
    {
        let Reader::AnyPointer(inner) = value else {
            unreachable!()
        };
        inner
    }
}
