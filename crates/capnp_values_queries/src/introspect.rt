//! Types as schemas name them.

ghost use Rattle.std.specs.Prelude.{◌≡◌, ◌^◌, ◌-◌, ◌+◌, ◌<◌};
ghost use Rattle.capnp_model.specs.Schemas.{Ty, list, void, plain, bool, int, uint, text, blob};
ghost use Rattle.capnp_model.specs.Readings.{expected_size};
ghost use Rattle.capnp_units.specs.Sizes.{size_number};
ghost use Rattle.capnp_values_queries.specs.Types.{ty_of, ty_of_variant, type_of_variant, is_pointer, is_type_of};

use capnp_records::of_set::OfSet;
use capnp_records::raw::{RawBrandedStructSchema, RawEnumSchema};
use capnp_records::set::SchemaSet;
use capnp_text::{data, text};
use capnp_units::sizes::ElementSize;

/// A type that is not a list.
#[derive(Clone, Copy, Debug, PartialEq, Eq, Hash)]
pub(crate) enum Base {
    Void,
    Bool,
    Int8,
    Int16,
    Int32,
    Int64,
    UInt8,
    UInt16,
    UInt32,
    UInt64,
    Text,
    Data,
    Struct(RawBrandedStructSchema),
    AnyPointer,
    Capability,
    Enum(RawEnumSchema),
}

/// A type. Two types are equal if they are the same; structs and enums compare by their nodes' ids.
#[derive(Clone, Copy, Debug, PartialEq, Eq, Hash)]
pub struct Type {
    base: Base,
    list_count: u32,
}

/// A type with its outermost list taken apart.
#[derive(Clone, Copy, Debug, PartialEq, Eq, Hash)]
pub enum TypeVariant {
    Void,
    Bool,
    Int8,
    Int16,
    Int32,
    Int64,
    UInt8,
    UInt16,
    UInt32,
    UInt64,
    Text,
    Data,
    Struct(RawBrandedStructSchema),
    AnyPointer,
    Capability,
    Enum(RawEnumSchema),
    /// A list, by the type of its elements.
    List(Type),
}

impl Type {
    pub(crate) fn new(base: Base, list_count: u32) -> Type
        ensures { result ≡ record { base = base; list_count = list_count } }
    {
        Type { base, list_count }
    }

    /// Returns how many times the type is a list.
    pub fn list_count(&self) -> u32
        ensures { result ≡ self.now.list_count }
    {
        self.list_count
    }

    /// Returns the list of a type, which is at most 2^32 - 2 times a list itself.
    pub fn list_of(element_type: Type) -> Type
        requires { element_type.list_count < 2 ^ 32 - 1 }
        ensures ty { ty_of result ≡ list (ty_of element_type) }
        ensures base { result.base ≡ element_type.base }
        ensures count { result.list_count ≡ element_type.list_count + 1 }
    {
        Type {
            base: element_type.base,
            list_count: element_type.list_count + 1,
        }
    }

    /// Returns the variant of the type: a list of a type, or a type that is not a list.
    pub fn which(&self) -> TypeVariant
        ensures ty { ty_of_variant result ≡ ty_of self.now }
        ensures variant { type_of_variant result ≡ self.now }
    {
        if self.list_count > 0 {
            return TypeVariant::List(Type {
                base: self.base,
                list_count: self.list_count - 1,
            });
        }
        match self.base {
            Base::Void => TypeVariant::Void,
            Base::Bool => TypeVariant::Bool,
            Base::Int8 => TypeVariant::Int8,
            Base::Int16 => TypeVariant::Int16,
            Base::Int32 => TypeVariant::Int32,
            Base::Int64 => TypeVariant::Int64,
            Base::UInt8 => TypeVariant::UInt8,
            Base::UInt16 => TypeVariant::UInt16,
            Base::UInt32 => TypeVariant::UInt32,
            Base::UInt64 => TypeVariant::UInt64,
            Base::Text => TypeVariant::Text,
            Base::Data => TypeVariant::Data,
            Base::Struct(raw) => TypeVariant::Struct(raw),
            Base::AnyPointer => TypeVariant::AnyPointer,
            Base::Capability => TypeVariant::Capability,
            Base::Enum(raw) => TypeVariant::Enum(raw),
        }
    }

    /// Returns the size of the elements of lists of the type.
    pub fn expected_element_size(&self) -> ElementSize
        ensures { size_number result ≡ expected_size (ty_of self.now) }
    {
        if self.list_count > 0 {
            return ElementSize::Pointer;
        }
        match self.base {
            Base::Void => ElementSize::Void,
            Base::Bool => ElementSize::Bit,
            Base::Int8 | Base::UInt8 => ElementSize::Byte,
            Base::Int16 | Base::UInt16 | Base::Enum(_) => ElementSize::TwoBytes,
            Base::Int32 | Base::UInt32 => ElementSize::FourBytes,
            Base::Int64 | Base::UInt64 => ElementSize::EightBytes,
            Base::Text | Base::Data | Base::AnyPointer | Base::Capability => ElementSize::Pointer,
            Base::Struct(_) => ElementSize::InlineComposite,
        }
    }

    /// Returns whether pointers lead to values of the type.
    pub fn is_pointer_type(&self) -> bool
        ensures { result ≡ is_pointer (ty_of self.now) }
    {
        self.list_count > 0
            || matches!(
                self.base,
                Base::Text | Base::Data | Base::Struct(_) | Base::AnyPointer | Base::Capability
            )
    }

    /// Returns whether the types are the same; structs and enums compare by their nodes' ids.
    pub fn loose_equals(&self, other: Type) -> bool
        ensures { result ≡ ⟦<Type as PartialEq>⟧.eq self.now other }
    {
        *self == other
    }
}

impl From<TypeVariant> for Type {
    ghost from_gives = { λ variant ty. ty ≡ type_of_variant variant };

    fn from(variant: TypeVariant) -> Type {
        let base = match variant {
            TypeVariant::List(element) => {
                return Type {
                    base: element.base,
                    list_count: element.list_count.saturating_add(1),
                };
            }
            TypeVariant::Void => Base::Void,
            TypeVariant::Bool => Base::Bool,
            TypeVariant::Int8 => Base::Int8,
            TypeVariant::Int16 => Base::Int16,
            TypeVariant::Int32 => Base::Int32,
            TypeVariant::Int64 => Base::Int64,
            TypeVariant::UInt8 => Base::UInt8,
            TypeVariant::UInt16 => Base::UInt16,
            TypeVariant::UInt32 => Base::UInt32,
            TypeVariant::UInt64 => Base::UInt64,
            TypeVariant::Text => Base::Text,
            TypeVariant::Data => Base::Data,
            TypeVariant::Struct(raw) => Base::Struct(raw),
            TypeVariant::AnyPointer => Base::AnyPointer,
            TypeVariant::Capability => Base::Capability,
            TypeVariant::Enum(raw) => Base::Enum(raw),
        };
        Type {
            base,
            list_count: 0,
        }
    }
}

impl OfSet for Type {
    ghost is_of = { is_type_of };

    fn is_of_set(self, set: &SchemaSet) -> bool {
        match self.base {
            Base::Struct(raw) => raw.is_of_set(set),
            Base::Enum(raw) => raw.is_of_set(set),
            _ => true,
        }
    }
}

/// A type of values in messages.
pub trait Introspect {
    /// The type that schemas name.
    ghost ty: { Ty };

    /// Returns the type that schemas name.
    fn introspect() -> Type
        ensures { ty_of result ≡ ty };
}

impl Introspect for () {
    ghost ty = { void };

    fn introspect() -> Type {
        Type::new(Base::Void, 0)
    }
}

impl Introspect for bool {
    ghost ty = { plain bool };

    fn introspect() -> Type {
        Type::new(Base::Bool, 0)
    }
}

impl Introspect for i8 {
    ghost ty = { plain (int 8) };

    fn introspect() -> Type {
        Type::new(Base::Int8, 0)
    }
}

impl Introspect for i16 {
    ghost ty = { plain (int 16) };

    fn introspect() -> Type {
        Type::new(Base::Int16, 0)
    }
}

impl Introspect for i32 {
    ghost ty = { plain (int 32) };

    fn introspect() -> Type {
        Type::new(Base::Int32, 0)
    }
}

impl Introspect for i64 {
    ghost ty = { plain (int 64) };

    fn introspect() -> Type {
        Type::new(Base::Int64, 0)
    }
}

impl Introspect for u8 {
    ghost ty = { plain (uint 8) };

    fn introspect() -> Type {
        Type::new(Base::UInt8, 0)
    }
}

impl Introspect for u16 {
    ghost ty = { plain (uint 16) };

    fn introspect() -> Type {
        Type::new(Base::UInt16, 0)
    }
}

impl Introspect for u32 {
    ghost ty = { plain (uint 32) };

    fn introspect() -> Type {
        Type::new(Base::UInt32, 0)
    }
}

impl Introspect for u64 {
    ghost ty = { plain (uint 64) };

    fn introspect() -> Type {
        Type::new(Base::UInt64, 0)
    }
}

impl Introspect for text::Owned {
    ghost ty = { text };

    fn introspect() -> Type {
        Type::new(Base::Text, 0)
    }
}

impl Introspect for data::Owned {
    ghost ty = { blob };

    fn introspect() -> Type {
        Type::new(Base::Data, 0)
    }
}
