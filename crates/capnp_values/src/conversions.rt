//! Dynamic values made from values of known types.
ghost use Rattle.std.specs.Prelude.{◌≡◌};
ghost use Rattle.capnp_values.specs.declared.dynamic_value.Reader.TheVariants as value;
ghost use Rattle.capnp_values.specs.Variants.{IsTextOf};

use crate::dynamic_value::{Capability, Enum, Reader};
use crate::{any_pointer, dynamic_list, dynamic_struct};
use capnp_text::{data, text};

impl<'a, A> From<()> for Reader<'a, A> {
    ghost from_gives = { λ _ v. v ≡ value.Void };

    fn from((): ()) -> Self {
        Reader::Void
    }
}

impl<'a, A> From<bool> for Reader<'a, A> {
    ghost from_gives = { λ x v. v ≡ value.Bool x };

    fn from(value: bool) -> Self {
        Reader::Bool(value)
    }
}

impl<'a, A> From<i8> for Reader<'a, A> {
    ghost from_gives = { λ x v. v ≡ value.Int8 x };

    fn from(value: i8) -> Self {
        Reader::Int8(value)
    }
}

impl<'a, A> From<i16> for Reader<'a, A> {
    ghost from_gives = { λ x v. v ≡ value.Int16 x };

    fn from(value: i16) -> Self {
        Reader::Int16(value)
    }
}

impl<'a, A> From<i32> for Reader<'a, A> {
    ghost from_gives = { λ x v. v ≡ value.Int32 x };

    fn from(value: i32) -> Self {
        Reader::Int32(value)
    }
}

impl<'a, A> From<i64> for Reader<'a, A> {
    ghost from_gives = { λ x v. v ≡ value.Int64 x };

    fn from(value: i64) -> Self {
        Reader::Int64(value)
    }
}

impl<'a, A> From<u8> for Reader<'a, A> {
    ghost from_gives = { λ x v. v ≡ value.UInt8 x };

    fn from(value: u8) -> Self {
        Reader::UInt8(value)
    }
}

impl<'a, A> From<u16> for Reader<'a, A> {
    ghost from_gives = { λ x v. v ≡ value.UInt16 x };

    fn from(value: u16) -> Self {
        Reader::UInt16(value)
    }
}

impl<'a, A> From<u32> for Reader<'a, A> {
    ghost from_gives = { λ x v. v ≡ value.UInt32 x };

    fn from(value: u32) -> Self {
        Reader::UInt32(value)
    }
}

impl<'a, A> From<u64> for Reader<'a, A> {
    ghost from_gives = { λ x v. v ≡ value.UInt64 x };

    fn from(value: u64) -> Self {
        Reader::UInt64(value)
    }
}

impl<'a, A> From<Enum<'a>> for Reader<'a, A> {
    ghost from_gives = { λ x v. v ≡ value.Enum x };

    fn from(value: Enum<'a>) -> Self {
        Reader::Enum(value)
    }
}

impl<'a, A> From<text::Reader<'a>> for Reader<'a, A> {
    ghost from_gives = { λ x v. v ≡ value.Text x };

    fn from(value: text::Reader<'a>) -> Self {
        Reader::Text(value)
    }
}

impl<'a, A> From<data::Reader<'a>> for Reader<'a, A> {
    ghost from_gives = { λ x v. v ≡ value.Data x };

    fn from(value: data::Reader<'a>) -> Self {
        Reader::Data(value)
    }
}

impl<'a, A> From<dynamic_list::Reader<'a, A>> for Reader<'a, A> {
    ghost from_gives = { λ x v. v ≡ value.List x };

    fn from(value: dynamic_list::Reader<'a, A>) -> Self {
        Reader::List(value)
    }
}

impl<'a, A> From<dynamic_struct::Reader<'a, A>> for Reader<'a, A> {
    ghost from_gives = { λ x v. v ≡ value.Struct x };

    fn from(value: dynamic_struct::Reader<'a, A>) -> Self {
        Reader::Struct(value)
    }
}

impl<'a, A> From<any_pointer::Reader<'a, A>> for Reader<'a, A> {
    ghost from_gives = { λ x v. v ≡ value.AnyPointer x };

    fn from(value: any_pointer::Reader<'a, A>) -> Self {
        Reader::AnyPointer(value)
    }
}

impl<'a, A> From<Capability> for Reader<'a, A> {
    ghost from_gives = { λ x v. v ≡ value.Capability x };

    fn from(value: Capability) -> Self {
        Reader::Capability(value)
    }
}

impl<'a, A> From<&'a str> for Reader<'a, A> {
    ghost from_gives = { λ text v. IsTextOf text.now v };

    fn from(value: &'a str) -> Self {
        Reader::Text(text::Reader::from(value))
    }
}
