//! Values of integer literals.

ghost use Rattle.std.specs.Prelude.{◌≡◌, ℕ, ◌≤◌, ◌+◌, ◌*◌};
ghost use Rattle.capnp_source_text.specs.Integers.{fitting, digit_in, digits_in, integer_of};

use crate::bytes::digit_of;

/// The reason why a literal is not an integer.
#[derive(Clone, Copy, Debug, PartialEq, Eq)]
pub enum IntegerFault {
    /// The literal doesn't have the form of an integer.
    Malformed,
    /// The value takes more than 64 bits.
    TooLarge,
}

/// Returns the value of a digit of a base, or `None` for another byte.
fn digit_in(base: u8, byte: u8) -> Option<u8>
    ensures { result ≡ digit_in base byte }
{
    match digit_of(byte) {
        Some(digit) if digit < base => Some(digit),
        _ => None,
    }
}

/// Returns a number with one more digit appended, or `None` if the result takes more than 64 bits
/// or the number already did.
fn with_digit(value: Option<u64>, base: u8, digit: u8) -> Option<u64>
    requires { 1 ≤ base }
    ensures { (n : ℕ) → value ≡ fitting n → result ≡ fitting (n * base + digit) }
{
    value?
        .checked_mul(u64::from(base))?
        .checked_add(u64::from(digit))
}

/// Returns the number that digits of a base spell.
fn digits_in(base: u8, digits: &[u8]) -> Result<u64, IntegerFault>
    requires { 1 ≤ base }
    ensures { result ≡ digits_in base digits.now }
{
    if digits.is_empty() {
        return Err(IntegerFault::Malformed);
    }
    let mut value = Some(0);
    for byte in digits {
        let Some(digit) = digit_in(base, *byte) else {
            return Err(IntegerFault::Malformed);
        };
        value = with_digit(value, base, digit);
    }
    value.ok_or(IntegerFault::TooLarge)
}

/// Returns the value of an integer literal: `0x` and hexadecimal digits, a zero and octal digits,
/// or decimal digits.
///
/// - `Malformed`: the literal has none of these forms.
/// - `TooLarge`: its value takes more than 64 bits.
pub fn integer_of(literal: &[u8]) -> Result<u64, IntegerFault>
    ensures { result ≡ integer_of literal.now }
{
    match literal {
        [b'0', b'x', digits @ ..] => digits_in(16, digits),
        [b'0', ..] => digits_in(8, literal),
        _ => digits_in(10, literal),
    }
}
