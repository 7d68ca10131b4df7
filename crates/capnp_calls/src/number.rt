//! Values as the bits of plain slots.

ghost use Rattle.std.specs.Prelude.{◌≡◌, ◌-◌, ◌^◌, ◌<◌, ◌≤◌, IfOk, IfSome, ℤ, pos};
ghost use Rattle.capnp_model.specs.Schemas.{int, uint, width};
ghost use Rattle.capnp_model.specs.Calls.{plain_content, whole_number};
ghost use Rattle.capnp_values_queries.specs.Handles.{plain_of};
ghost use Rattle.capnp_calls.specs.CallViews.{slot_value_view};
ghost use Rattle.capnp_calls.specs.Contents.{bits_content};

use crate::SlotValue;
use capnp_values_queries::slots::{PlainType, width_of};

/// Returns the bits of an unsigned number, if it is below 2^width.
pub fn unsigned_bits(number: i128, width: u32) -> Option<u64>
    requires { width ≤ 64 }
    ensures { bits_content result ≡ plain_content (uint width) (whole_number number) }
{
    if number >= 0 && number < (1i128 << width) {
        Some(number as u64)
    } else {
        None
    }
}

/// Returns the bits of a signed number, in two's complement, if it is from -2^(width - 1) to
/// 2^(width - 1) - 1.
pub fn signed_bits(number: i128, width: u32) -> Option<u64>
    requires some { 0 < width }
    requires most { width ≤ 64 }
    ensures { bits_content result ≡ plain_content (int width) (whole_number number) }
{
    let half = 1i128 << (width - 1);
    if number < 0 {
        let below = -(number + 1);
        if below < half {
            Some(all_ones(width) - below as u64)
        } else {
            None
        }
    } else if number < half {
        Some(number as u64)
    } else {
        None
    }
}

/// Returns the greatest number of n bits.
fn all_ones(width: u32) -> u64
    requires { width ≤ 64 }
    ensures { result ≡ 2 ^ width - 1 }
{
    ((1u128 << width) - 1) as u64
}

/// Returns the bits of a value in a slot of a plain type, before they are exclusive-or'ed with the
/// default; `None` if the value is of another sort or out of range.
pub fn bits_for(ty: PlainType, value: &SlotValue) -> Option<u64>
    ensures content { bits_content result
        ≡ plain_content (plain_of ty) (slot_value_view value.now) }
    ensures fit { IfSome result (λ n. n < 2 ^ width (plain_of ty)) }
{
    match (ty, value) {
        (PlainType::Bool, SlotValue::Bool(b)) => Some(if *b { 1 } else { 0 }),
        (
            PlainType::Int8 | PlainType::Int16 | PlainType::Int32 | PlainType::Int64,
            SlotValue::Number(n),
        ) => signed_bits(*n, width_of(ty)),
        (
            PlainType::UInt8 | PlainType::UInt16 | PlainType::UInt32 | PlainType::UInt64,
            SlotValue::Number(n),
        ) => unsigned_bits(*n, width_of(ty)),
        (PlainType::Enum(_), SlotValue::Enum(n)) => Some(u64::from(*n)),
        _ => None,
    }
}
