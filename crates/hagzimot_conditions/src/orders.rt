//! Orders of values.
ghost use Rattle.std.specs.Prelude.{◌≡◌};
ghost use Rattle.hagzimot_conditions.specs.Orders.{fits_order};

use hagzimot_expressions::tree::Operator;
use std::cmp::Ordering;

/// Returns whether an operator holds of two values in this order; `None` of values that have none.
pub(crate) fn fits(operator: Operator, order: Option<Ordering>) -> bool
    ensures { result ≡ fits_order operator order }
{
    match operator {
        Operator::Equal => order == Some(Ordering::Equal),
        Operator::Unequal => order != Some(Ordering::Equal),
        Operator::Less => order == Some(Ordering::Less),
        Operator::AtMost => matches!(order, Some(Ordering::Less | Ordering::Equal)),
        Operator::Greater => order == Some(Ordering::Greater),
        Operator::AtLeast => matches!(order, Some(Ordering::Greater | Ordering::Equal)),
        Operator::Contains => false,
    }
}

/// Returns the order of two whole numbers.
pub(crate) fn order_of(left: i128, right: i128) -> Ordering {
    if left < right {
        return Ordering::Less;
    }
    if left == right {
        Ordering::Equal
    } else {
        Ordering::Greater
    }
}

/// Returns the order of two texts by their bytes.
pub(crate) fn bytes_order(left: &[u8], right: &[u8]) -> Ordering {
    for (ours, theirs) in left.iter().zip(right) {
        if *ours != *theirs {
            return order_of(*ours as i128, *theirs as i128);
        }
    }
    order_of(left.len() as i128, right.len() as i128)
}

/// The sign of a float of 64 bits.
const SIGN: u64 = 0x8000_0000_0000_0000;

/// The bits of the infinity of 64 bits.
const INFINITY: u64 = 0x7ff0_0000_0000_0000;

/// Returns the bits of a float of 64 bits without its sign.
fn magnitude(bits: u64) -> u64 {
    bits & (SIGN - 1)
}

/// Returns a number that grows with the float of these bits, which isn't a NaN. It is 0 of both
/// zeros.
fn place(bits: u64) -> i128 {
    let magnitude = magnitude(bits) as i128;
    if bits >= SIGN { -magnitude } else { magnitude }
}

/// Returns the order of two floats of 64 bits by their bits. NaNs are equal to one another, and
/// have no order with other floats.
pub(crate) fn order_64(left: u64, right: u64) -> Option<Ordering> {
    let (left_is_nan, right_is_nan) = (magnitude(left) > INFINITY, magnitude(right) > INFINITY);
    match (left_is_nan, right_is_nan) {
        (false, false) => Some(order_of(place(left), place(right))),
        (true, true) => Some(Ordering::Equal),
        _ => None,
    }
}

/// The sign of a float of 32 bits.
const SIGN_32: u32 = 0x8000_0000;

/// The bits of the infinity of 32 bits.
const INFINITY_32: u32 = 0x7f80_0000;

/// Returns the bits of a float of 32 bits without its sign.
fn magnitude_32(bits: u32) -> u32 {
    bits & (SIGN_32 - 1)
}

/// Returns a number that grows with the float of these bits, which isn't a NaN. It is 0 of both
/// zeros.
fn place_32(bits: u32) -> i128 {
    let magnitude = magnitude_32(bits) as i128;
    if bits >= SIGN_32 {
        -magnitude
    } else {
        magnitude
    }
}

/// Returns the order of two floats of 32 bits by their bits, as `order_64` does.
pub(crate) fn order_32(left: u32, right: u32) -> Option<Ordering> {
    let left_is_nan = magnitude_32(left) > INFINITY_32;
    let right_is_nan = magnitude_32(right) > INFINITY_32;
    match (left_is_nan, right_is_nan) {
        (false, false) => Some(order_of(place_32(left), place_32(right))),
        (true, true) => Some(Ordering::Equal),
        _ => None,
    }
}

/// Returns whether bytes begin with others.
fn begins_with(bytes: &[u8], part: &[u8]) -> bool {
    match bytes.get(..part.len()) {
        Some(front) => front == part,
        None => false,
    }
}

/// Returns whether bytes have others as a part.
pub(crate) fn contains(bytes: &[u8], part: &[u8]) -> bool {
    let mut left = bytes;
    while let [_, behind @ ..] = left {
        if begins_with(left, part) {
            return true;
        }
        left = behind;
    }
    part.is_empty()
}
