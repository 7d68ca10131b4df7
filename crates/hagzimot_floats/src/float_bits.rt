//! Bits of the floats that texts spell.
ghost use Rattle.std.specs.Prelude.{◌≡◌, ℕ, ◌<◌, ◌≤◌, true, false, Some, List, ◌++◌, codes, IfSome, option_and_then};
ghost use Rattle.std.specs.Char.{is_ascii_hexdigit};
ghost use Rattle.std.specs.List.{list_all};
ghost use Rattle.std.specs.Float.{binary32, binary64};
ghost use Rattle.std.specs.Float.Parse.{parse_float};
ghost use Rattle.hagzimot_floats.specs.Bits.{is_decimal, finite_bits, number_of_hex, nan_of_hex, IsFloatWord};

use crate::float_text::{INFINITY_32, INFINITY_64, NAN_32, NAN_64, SIGN_32, SIGN_64};
use std::num::{f32_to_bits_with_nan, f64_to_bits_with_nan};

/// Tests whether a text is hexadecimal digits.
fn are_hex_digits(text: &str) -> bool
    ensures { result ≡ list_all is_ascii_hexdigit text.now }
{
    text.bytes().all(|byte| byte.is_ascii_hexdigit())
}

/// Returns the number that `digits` hexadecimal digits spell.
fn number_of_hex(hex: &str, digits: usize) -> Option<u64>
    requires some { 0 < digits }
    requires few { digits ≤ 16 }
    ensures { result ≡ number_of_hex digits hex.now }
{
    if hex.len() != digits || !are_hex_digits(hex) {
        return None;
    }
    u64::from_str_radix(hex, 16).ok()
}

/// Returns the number that `digits` hexadecimal digits spell after `nan:`.
fn payload(text: &str, digits: usize) -> Option<u64>
    requires some { 0 < digits }
    requires few { digits ≤ 16 }
    ensures number { (hex : List ℕ) → text.now ≡ codes "nan:" ++ hex
        → result ≡ number_of_hex digits hex }
    ensures word { IfSome result (λ _. IsFloatWord text.now) }
{
    number_of_hex(text.strip_prefix("nan:")?, digits)
}

/// Tests whether a text begins with a digit, after a minus or not.
fn is_decimal(text: &str) -> bool
    ensures { result ≡ is_decimal text.now }
{
    match text.as_bytes() {
        [b'-', first, ..] => first.is_ascii_digit(),
        [first, ..] => first.is_ascii_digit(),
        [] => false,
    }
}

/// Returns the bits of the float of 32 bits that a text spells. The text is a decimal number, such
/// as `1.5` or `-2e10`, whose nearest float is meant, or a text that `Float32` writes for people.
/// Returns `None` if the text doesn't spell a float, or spells a number past the greatest one.
pub fn float32_bits(text: &str) -> Option<u32>
    ensures infinity { text.now ≡ codes "inf" → result ≡ Some 0x7f80_0000 }
    ensures negative { text.now ≡ codes "-inf" → result ≡ Some 0xff80_0000 }
    ensures nan { text.now ≡ codes "nan" → result ≡ Some 0x7fc0_0000 }
    ensures number { is_decimal text.now ≡ true
        → result ≡ option_and_then (finite_bits binary32) (parse_float binary32 text.now) }
    ensures payload { (hex : List ℕ) → text.now ≡ codes "nan:" ++ hex
        → result ≡ nan_of_hex 8 0x8000_0000 0x7f80_0000 hex }
    ensures word { is_decimal text.now ≡ false → IfSome result (λ _. IsFloatWord text.now) }
{
    match text {
        "inf" => return Some(INFINITY_32),
        "-inf" => return Some(SIGN_32 + INFINITY_32),
        "nan" => return Some(NAN_32),
        _ => {}
    }
    if is_decimal(text) {
        let number: f32 = fast_float::parse(text.as_bytes()).ok()?;
        return if number.is_finite() {
            Some(f32_to_bits_with_nan(number))
        } else {
            None
        };
    }
    let bits = u32::try_from(payload(text, 8)?).ok()?;
    if bits % SIGN_32 > INFINITY_32 {
        Some(bits)
    } else {
        None
    }
}

/// Returns the bits of the float of 64 bits that a text spells, as `Float64` writes it. Otherwise
/// works as `float32_bits`.
pub fn float64_bits(text: &str) -> Option<u64>
    ensures infinity { text.now ≡ codes "inf" → result ≡ Some 0x7ff0_0000_0000_0000 }
    ensures negative { text.now ≡ codes "-inf" → result ≡ Some 0xfff0_0000_0000_0000 }
    ensures nan { text.now ≡ codes "nan" → result ≡ Some 0x7ff8_0000_0000_0000 }
    ensures number { is_decimal text.now ≡ true
        → result ≡ option_and_then (finite_bits binary64) (parse_float binary64 text.now) }
    ensures payload { (hex : List ℕ) → text.now ≡ codes "nan:" ++ hex
        → result ≡ nan_of_hex 16 0x8000_0000_0000_0000 0x7ff0_0000_0000_0000 hex }
    ensures word { is_decimal text.now ≡ false → IfSome result (λ _. IsFloatWord text.now) }
{
    match text {
        "inf" => return Some(INFINITY_64),
        "-inf" => return Some(SIGN_64 + INFINITY_64),
        "nan" => return Some(NAN_64),
        _ => {}
    }
    if is_decimal(text) {
        let number: f64 = fast_float::parse(text.as_bytes()).ok()?;
        return if number.is_finite() {
            Some(f64_to_bits_with_nan(number))
        } else {
            None
        };
    }
    let bits = payload(text, 16)?;
    if bits % SIGN_64 > INFINITY_64 {
        Some(bits)
    } else {
        None
    }
}
