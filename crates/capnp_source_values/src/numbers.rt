//! Integers and floats under the types of numbers.

use capnp_source_nodes::types::Type;
use capnp_source_nodes::values::Value;
use std::num::{
    f32_to_bits_with_nan, f64_to_bits_with_nan, nearest_f64_to_f32_with_nan, nearest_i64_to_f32,
    nearest_i64_to_f64, nearest_u64_to_f32, nearest_u64_to_f64,
};

/// Returns the integer with a sign and a magnitude. `None` if it isn't in the range of an `Int64`.
pub fn signed_of(is_negative: bool, magnitude: u64) -> Option<i64> {
    if !is_negative || magnitude == 0 {
        return i64::try_from(magnitude).ok();
    }
    i64::try_from(magnitude - 1)
        .ok()?
        .checked_neg()?
        .checked_sub(1)
}

/// Returns the integer with a sign and a magnitude. `None` if it is below 0.
pub fn unsigned_of(is_negative: bool, magnitude: u64) -> Option<u64> {
    if is_negative && magnitude != 0 {
        return None;
    }
    Some(magnitude)
}

/// Returns the float of 32 bits that is nearest to an integer. `None` if the integer is below the
/// range of an `Int64`.
fn float32_of_integer(is_negative: bool, magnitude: u64) -> Option<f32> {
    if is_negative {
        Some(nearest_i64_to_f32(signed_of(is_negative, magnitude)?))
    } else {
        Some(nearest_u64_to_f32(magnitude))
    }
}

/// Returns the float of 64 bits that is nearest to an integer. `None` if the integer is below the
/// range of an `Int64`.
fn float64_of_integer(is_negative: bool, magnitude: u64) -> Option<f64> {
    if is_negative {
        Some(nearest_i64_to_f64(signed_of(is_negative, magnitude)?))
    } else {
        Some(nearest_u64_to_f64(magnitude))
    }
}

/// Returns the value of an integer under a type of numbers. `None` if the integer is out of the
/// type's range, or the type isn't one of numbers.
pub fn integer_value(ty: &Type, is_negative: bool, magnitude: u64) -> Option<Value> {
    let signed = signed_of(is_negative, magnitude);
    let unsigned = unsigned_of(is_negative, magnitude);
    match ty {
        Type::Int8 => Some(Value::Int8(i8::try_from(signed?).ok()?)),
        Type::Int16 => Some(Value::Int16(i16::try_from(signed?).ok()?)),
        Type::Int32 => Some(Value::Int32(i32::try_from(signed?).ok()?)),
        Type::Int64 => Some(Value::Int64(signed?)),
        Type::UInt8 => Some(Value::UInt8(u8::try_from(unsigned?).ok()?)),
        Type::UInt16 => Some(Value::UInt16(u16::try_from(unsigned?).ok()?)),
        Type::UInt32 => Some(Value::UInt32(u32::try_from(unsigned?).ok()?)),
        Type::UInt64 => Some(Value::UInt64(unsigned?)),
        Type::Float32 => {
            let float = float32_of_integer(is_negative, magnitude)?;
            Some(Value::Float32(f32_to_bits_with_nan(float)))
        }
        Type::Float64 => {
            let float = float64_of_integer(is_negative, magnitude)?;
            Some(Value::Float64(f64_to_bits_with_nan(float)))
        }
        _ => None,
    }
}

/// Returns the range of a type of numbers, as people write it. `None` if the type isn't one of
/// numbers.
pub fn range_of(ty: &Type) -> Option<&'static str> {
    match ty {
        Type::Int8 => Some("-128 to 127"),
        Type::Int16 => Some("-32768 to 32767"),
        Type::Int32 => Some("-2147483648 to 2147483647"),
        Type::Int64 => Some("-9223372036854775808 to 9223372036854775807"),
        Type::UInt8 => Some("0 to 255"),
        Type::UInt16 => Some("0 to 65535"),
        Type::UInt32 => Some("0 to 4294967295"),
        Type::UInt64 => Some("0 to 18446744073709551615"),
        Type::Float32 | Type::Float64 => Some("-9223372036854775808 up, or with a point"),
        _ => None,
    }
}

/// Returns the float of 64 bits that is nearest to a decimal number, or infinity for `inf`. `None`
/// if the text is neither.
pub fn float_of(is_negative: bool, digits: &str) -> Option<f64> {
    let size: f64 = if digits == "inf" {
        f64::INFINITY
    } else {
        fast_float::parse(digits.as_bytes()).ok()?
    };
    Some(if is_negative { -size } else { size })
}

/// Returns the value of a float under a type of floats. For `Float32` the float of 64 bits is
/// rounded, as the reference compiler does it. `None` if the type isn't one of floats.
pub fn float_value(ty: &Type, float: f64) -> Option<Value> {
    match ty {
        Type::Float32 => {
            let float = nearest_f64_to_f32_with_nan(float);
            Some(Value::Float32(f32_to_bits_with_nan(float)))
        }
        Type::Float64 => Some(Value::Float64(f64_to_bits_with_nan(float))),
        _ => None,
    }
}
