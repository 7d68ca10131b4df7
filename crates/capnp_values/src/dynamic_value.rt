//! Values whose type is known at run time.
use crate::downcast::DowncastReader;
use crate::{any_pointer, dynamic_list, dynamic_struct};
use capnp_text::{data, text};
use capnp_units::errors::Result;
use capnp_values_queries::enumerants::Enumerant;
use capnp_values_queries::enums::EnumSchema;
use capnp_values_queries::introspect::Introspect;
use capnp_wire::traits::OwnedStruct;
use capnp_wire_objects::arena::ReaderArena;

/// A value to read, by its type.
#[derive_where(Clone, Copy)]
pub enum Reader<'a, A> {
    Void,
    Bool(bool),
    Int8(i8),
    Int16(i16),
    Int32(i32),
    Int64(i64),
    UInt8(u8),
    UInt16(u16),
    UInt32(u32),
    UInt64(u64),
    Enum(Enum<'a>),
    Text(text::Reader<'a>),
    Data(data::Reader<'a>),
    Struct(dynamic_struct::Reader<'a, A>),
    List(dynamic_list::Reader<'a, A>),
    AnyPointer(any_pointer::Reader<'a, A>),
    Capability(Capability),
}

impl<'a, A> Reader<'a, A> {
    ghost use Rattle.std.specs.Prelude.{◌≡◌, Some, is_some, true};

    /// Returns the value in the variant of a type; the value must be of the variant, as `fits` of
    /// the type says.
    pub fn downcast<T: DowncastReader<'a, A>>(self) -> T
        requires { is_some (T.variant self) ≡ true }
        ensures { T.variant self.entry ≡ Some result }
    {
        T::downcast_reader(self)
    }
}

impl<'a, A: ReaderArena> Reader<'a, A> {
    ghost use Rattle.std.specs.Prelude.{◌≡◌, Some, true};
    ghost use Rattle.capnp_values.specs.Variants.{fits_struct, message_struct_in};

    /// Returns whether the value is a struct that can be passed on as a caller's type, by the rules
    /// of `dynamic_struct::Reader::fits`.
    pub fn fits_struct<T: Introspect>(&self) -> bool
        ensures { result ≡ fits_struct T.ty self.now }
    {
        match self {
            Reader::Struct(inner) => inner.fits::<T>(),
            _ => false,
        }
    }

    /// Returns the struct as a caller's type, if `fits_struct` returns true.
    pub fn downcast_struct<T: OwnedStruct<'a, A> + Introspect>(self) -> T::Reader
        requires { fits_struct T.ty self ≡ true }
        ensures { message_struct_in self.entry ≡ Some (T.Reader.inner_struct result) }
    {
        let Reader::Struct(inner) = self else {
            unreachable!()
        };
        inner.downcast::<T>()
    }
}

/// A value of an enum. It may have no enumerant in the schema.
#[derive(Clone, Copy, Debug)]
pub struct Enum<'a> {
    value: u16,
    schema: EnumSchema<'a>,
}

impl<'a> Enum<'a> {
    ghost use Rattle.std.specs.Prelude.{◌≡◌, IsOkAnd};
    ghost use Rattle.capnp_values.specs.Shown.{IsEnumerantAt};

    /// Makes a value of an enum.
    pub fn new(value: u16, schema: EnumSchema<'a>) -> Enum<'a>
        ensures value { result.value ≡ value }
        ensures schema { result.schema ≡ schema.entry }
    {
        Enum { value, schema }
    }

    /// Returns the value.
    pub fn get_value(&self) -> u16
        ensures { result ≡ self.now.value }
    {
        self.value
    }

    /// Returns the enumerant of the value, or `None` if the schema has no such enumerant. It is
    /// never refused.
    pub fn get_enumerant(self) -> Result<Option<Enumerant<'a>>>
        ensures { IsOkAnd result (λ found. IsEnumerantAt self.entry.schema self.entry.value found) }
    {
        let enumerants = self.schema.get_enumerants()?;
        if self.value < enumerants.len() {
            Ok(Some(enumerants.get(self.value)))
        } else {
            Ok(None)
        }
    }
}

/// A capability, whose contents are unknown.
#[derive(Clone, Copy, Debug, PartialEq, Eq)]
pub struct Capability;
