//! The values of constants under the types of the places that name them.

use crate::bindings::{Bound, is_type, takes_any_list, takes_any_struct};
use crate::copies::{MOST_LEVELS, copied_bytes, copied_object};
use crate::faults::ValueFault;
use crate::making::Making;
use crate::names::{Constant, Names};
use crate::numbers::{float_value, integer_value};
use crate::telling::{not_of_type, out_of_range, refused};
use capnp_source_nodes::types::Type;
use capnp_source_nodes::values::{Object, Value};
use capnp_source_syntax::tree::Span;
use std::num::{f32_from_bits_with_nan, f32_to_f64_with_nan, f64_from_bits_with_nan};

/// Returns the value of an integer under a type.
pub(crate) fn integer_under<N: Names>(
    making: &Making<N>,
    ty: &Type,
    is_negative: bool,
    magnitude: u64,
    span: Span,
) -> Result<Value, ValueFault> {
    let (alloc, names) = (making.alloc, making.names);
    match integer_value(ty, is_negative, magnitude) {
        Some(value) => Ok(value),
        None => Err(out_of_range(alloc, names, ty, span, is_negative, magnitude)),
    }
}

/// Returns the value of a signed integer under a type.
fn signed_under<N: Names>(
    making: &Making<N>,
    ty: &Type,
    value: i64,
    span: Span,
) -> Result<Value, ValueFault> {
    integer_under(making, ty, value < 0, value.unsigned_abs(), span)
}

/// Returns the value of a float under a type.
pub(crate) fn float_under<N: Names>(
    making: &Making<N>,
    ty: &Type,
    float: f64,
    span: Span,
) -> Result<Value, ValueFault> {
    match float_value(ty, float) {
        Some(value) => Ok(value),
        None => Err(not_of_type(making.alloc, making.names, ty, span)),
    }
}

/// Returns the value of a text under a type, by a copy of its bytes.
pub(crate) fn text_under<N: Names>(
    making: &mut Making<N>,
    ty: &Type,
    bytes: &[u8],
    span: Span,
) -> Result<Value, ValueFault> {
    match ty {
        Type::Text => Ok(Value::Text(copied_bytes(making, bytes, span)?)),
        _ => Err(not_of_type(making.alloc, making.names, ty, span)),
    }
}

/// Returns the value of bytes under a type, by a copy.
pub(crate) fn data_under<N: Names>(
    making: &mut Making<N>,
    ty: &Type,
    bytes: &[u8],
    span: Span,
) -> Result<Value, ValueFault> {
    match ty {
        Type::Data => Ok(Value::Data(copied_bytes(making, bytes, span)?)),
        _ => Err(not_of_type(making.alloc, making.names, ty, span)),
    }
}

/// Returns the value of a constant list under a type.
fn list_under<N: Names>(
    making: &mut Making<N>,
    bound: Bound,
    own: &Type,
    object: &Object,
    span: Span,
) -> Result<Value, ValueFault> {
    if is_type(bound, own) {
        return Ok(Value::List(copied_object(making, object, span, MOST_LEVELS)?));
    }
    if takes_any_list(bound.ty) {
        let copied = copied_object(making, object, span, MOST_LEVELS)?;
        return Ok(Value::AnyPointer(copied));
    }
    Err(not_of_type(making.alloc, making.names, bound.ty, span))
}

/// Returns the value of a constant struct under a type.
fn struct_under<N: Names>(
    making: &mut Making<N>,
    bound: Bound,
    own: &Type,
    object: &Object,
    span: Span,
) -> Result<Value, ValueFault> {
    if is_type(bound, own) {
        let copied = copied_object(making, object, span, MOST_LEVELS)?;
        return Ok(Value::Struct(copied));
    }
    if takes_any_struct(bound.ty) {
        let copied = copied_object(making, object, span, MOST_LEVELS)?;
        return Ok(Value::AnyPointer(copied));
    }
    Err(not_of_type(making.alloc, making.names, bound.ty, span))
}

/// Returns the value of a constant under a type without a bound parameter at its front. Constants
/// of enums are integers, as the reference compiler has them.
pub(crate) fn constant_under<N: Names>(
    making: &mut Making<N>,
    bound: Bound,
    constant: Constant,
    span: Span,
) -> Result<Value, ValueFault> {
    let ty = bound.ty;
    match constant.value {
        Value::Void if matches!(ty, Type::Void) => Ok(Value::Void),
        Value::Bool(value) if matches!(ty, Type::Bool) => Ok(Value::Bool(*value)),
        Value::Int8(value) => signed_under(making, ty, i64::from(*value), span),
        Value::Int16(value) => signed_under(making, ty, i64::from(*value), span),
        Value::Int32(value) => signed_under(making, ty, i64::from(*value), span),
        Value::Int64(value) => signed_under(making, ty, *value, span),
        Value::UInt8(value) => integer_under(making, ty, false, u64::from(*value), span),
        Value::UInt16(value) | Value::Enum(value) => {
            integer_under(making, ty, false, u64::from(*value), span)
        }
        Value::UInt32(value) => integer_under(making, ty, false, u64::from(*value), span),
        Value::UInt64(value) => integer_under(making, ty, false, *value, span),
        Value::Float32(bits) => {
            let float = f32_to_f64_with_nan(f32_from_bits_with_nan(*bits));
            float_under(making, ty, float, span)
        }
        Value::Float64(bits) => float_under(making, ty, f64_from_bits_with_nan(*bits), span),
        Value::Text(bytes) => text_under(making, ty, bytes.as_slice(), span),
        Value::Data(bytes) => data_under(making, ty, bytes.as_slice(), span),
        Value::List(object) => list_under(making, bound, constant.ty, object, span),
        Value::Struct(object) => struct_under(making, bound, constant.ty, object, span),
        Value::AnyPointer(_) => {
            let text = "the constant's type is any pointer (name a struct or a list)";
            Err(refused(making.alloc, span, text))
        }
        _ => Err(not_of_type(making.alloc, making.names, ty, span)),
    }
}
