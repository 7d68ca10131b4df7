//! The sizes of values outside of pointers.

use capnp_source_nodes::types::Type;
use capnp_source_nodes::values::{Value, Width};

/// The bits of a value that isn't a pointer.
#[derive(Clone, Copy)]
pub(crate) struct Scalar {
    pub width: Width,
    pub bits: u64,
}

/// Returns the bits of a signed integer, with its sign in all upper ones.
fn signed_bits(value: i64) -> u64 {
    u64::from_le_bytes(value.to_le_bytes())
}

/// Returns the bits of a value. `None` if it's a pointer.
pub(crate) fn scalar_of(value: &Value) -> Option<Scalar> {
    let (width, bits) = match value {
        Value::Void => (Width::Void, 0),
        Value::Bool(value) => (Width::Bit, u64::from(*value)),
        Value::Int8(value) => (Width::Byte, signed_bits(i64::from(*value))),
        Value::Int16(value) => (Width::TwoBytes, signed_bits(i64::from(*value))),
        Value::Int32(value) => (Width::FourBytes, signed_bits(i64::from(*value))),
        Value::Int64(value) => (Width::EightBytes, signed_bits(*value)),
        Value::UInt8(value) => (Width::Byte, u64::from(*value)),
        Value::UInt16(value) | Value::Enum(value) => (Width::TwoBytes, u64::from(*value)),
        Value::UInt32(value) | Value::Float32(value) => (Width::FourBytes, u64::from(*value)),
        Value::UInt64(value) | Value::Float64(value) => (Width::EightBytes, *value),
        Value::Text(_)
        | Value::Data(_)
        | Value::List(_)
        | Value::Struct(_)
        | Value::AnyPointer(_)
        | Value::Interface => return None,
    };
    Some(Scalar { width, bits })
}

/// Returns the size of the elements of lists of a type. `None` if they are structs or pointers.
pub(crate) fn width_of(ty: &Type) -> Option<Width> {
    match ty {
        Type::Void => Some(Width::Void),
        Type::Bool => Some(Width::Bit),
        Type::Int8 | Type::UInt8 => Some(Width::Byte),
        Type::Int16 | Type::UInt16 | Type::Enum { .. } => Some(Width::TwoBytes),
        Type::Int32 | Type::UInt32 | Type::Float32 => Some(Width::FourBytes),
        Type::Int64 | Type::UInt64 | Type::Float64 => Some(Width::EightBytes),
        _ => None,
    }
}

/// Returns the number of bytes of elements of a size. `None` if it doesn't fit.
pub(crate) fn bytes_of(width: Width, count: usize) -> Option<usize> {
    match width {
        Width::Void => Some(0),
        Width::Bit => Some(count.div_ceil(8)),
        Width::Byte => Some(count),
        Width::TwoBytes => count.checked_mul(2),
        Width::FourBytes => count.checked_mul(4),
        Width::EightBytes => count.checked_mul(8),
    }
}
