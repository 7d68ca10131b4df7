//! The sizes and numbers of types.

ghost use Rattle.std.specs.Prelude.{◌≡◌};
ghost use Rattle.capnp_source_rules.specs.Rules.{size_of_field, is_pointer, type_number, value_number};

use capnp_source_layout::sections::DataSize;
use capnp_source_layout::structs::FieldSize;
use capnp_source_nodes::types::Type;
use capnp_source_nodes::values::Value;

/// Returns the size of a field of a type.
pub fn size_of_field(ty: &Type) -> FieldSize
    ensures { result ≡ size_of_field ty.now }
{
    match ty {
        Type::Void => FieldSize::Void,
        Type::Bool => FieldSize::Data(DataSize::Bit),
        Type::Int8 | Type::UInt8 => FieldSize::Data(DataSize::Byte),
        Type::Int16 | Type::UInt16 | Type::Enum { .. } => FieldSize::Data(DataSize::TwoBytes),
        Type::Int32 | Type::UInt32 | Type::Float32 => FieldSize::Data(DataSize::FourBytes),
        Type::Int64 | Type::UInt64 | Type::Float64 => FieldSize::Data(DataSize::EightBytes),
        Type::Text
        | Type::Data
        | Type::List(_)
        | Type::Struct { .. }
        | Type::Interface { .. }
        | Type::AnyPointer
        | Type::AnyStruct
        | Type::AnyList
        | Type::Capability
        | Type::Parameter { .. }
        | Type::MethodParameter { .. } => FieldSize::Pointer,
    }
}

/// Whether a value of a type is what a pointer leads to.
pub fn is_pointer(ty: &Type) -> bool
    ensures { result ≡ is_pointer (size_of_field ty.now) }
{
    match size_of_field(ty) {
        FieldSize::Pointer => true,
        FieldSize::Void => false,
        FieldSize::Data(_) => false,
    }
}

/// Returns the number of a type in the union of schema.capnp's `Type`.
pub fn type_number(ty: &Type) -> u16
    ensures { result ≡ type_number ty.now }
{
    match ty {
        Type::Void => 0,
        Type::Bool => 1,
        Type::Int8 => 2,
        Type::Int16 => 3,
        Type::Int32 => 4,
        Type::Int64 => 5,
        Type::UInt8 => 6,
        Type::UInt16 => 7,
        Type::UInt32 => 8,
        Type::UInt64 => 9,
        Type::Float32 => 10,
        Type::Float64 => 11,
        Type::Text => 12,
        Type::Data => 13,
        Type::List(_) => 14,
        Type::Enum { .. } => 15,
        Type::Struct { .. } => 16,
        Type::Interface { .. } => 17,
        Type::AnyPointer
        | Type::AnyStruct
        | Type::AnyList
        | Type::Capability
        | Type::Parameter { .. }
        | Type::MethodParameter { .. } => 18,
    }
}

/// Returns the number of a value in the union of schema.capnp's `Value`.
pub fn value_number(value: &Value) -> u16
    ensures { result ≡ value_number value.now }
{
    match value {
        Value::Void => 0,
        Value::Bool(_) => 1,
        Value::Int8(_) => 2,
        Value::Int16(_) => 3,
        Value::Int32(_) => 4,
        Value::Int64(_) => 5,
        Value::UInt8(_) => 6,
        Value::UInt16(_) => 7,
        Value::UInt32(_) => 8,
        Value::UInt64(_) => 9,
        Value::Float32(_) => 10,
        Value::Float64(_) => 11,
        Value::Text(_) => 12,
        Value::Data(_) => 13,
        Value::List(_) => 14,
        Value::Enum(_) => 15,
        Value::Struct(_) => 16,
        Value::Interface => 17,
        Value::AnyPointer(_) => 18,
    }
}
