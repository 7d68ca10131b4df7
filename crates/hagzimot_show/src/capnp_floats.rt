//! Floats as the C++ tool spells them.

use hagzimot_floats::float_text::{
    Float32, Float64, FloatForm, INFINITY_32, INFINITY_64, SIGN_32, SIGN_64,
};
use std::alloc::{AllocError, Global};
use std::fmt::Write;

/// The number of digits that the C++ tool tries first, and the number that it writes otherwise.
#[derive(Clone, Copy)]
struct Digits {
    few: usize,
    many: usize,
}

const DIGITS_32: Digits = Digits { few: 6, many: 8 };

const DIGITS_64: Digits = Digits { few: 15, many: 17 };

/// A finite number that isn't negative: its digits, with the point after the first one, times ten
/// to the power of the exponent. Zero has no digits.
#[derive(Drop)]
struct Decimal {
    digits: Vec<char>,
    exponent: i32,
}

/// Returns a length as an exponent.
fn power(len: usize) -> i32 {
    i32::try_from(len).unwrap_or(i32::MAX)
}

/// Returns the digits of a number without the zeros before and after the others, and the number of
/// zeros before them.
fn significant(
    alloc: Global,
    whole: &str,
    fraction: &str,
) -> Result<(Vec<char>, usize), AllocError> {
    let mut digits = Vec::new(alloc);
    let mut zeros: usize = 0;
    for digit in whole.chars().chain(fraction.chars()) {
        if digit == '0' && digits.is_empty() {
            zeros = zeros.saturating_add(1);
        } else {
            digits.push(digit)?;
        }
    }
    for _ in 0..digits.len() {
        if digits.last() != Some(&'0') {
            break;
        }
        digits.pop();
    }
    Ok((digits, zeros))
}

/// Returns the number that a decimal text spells, such as `1.5`, `0.001` or `2e-10`.
fn parse_decimal(alloc: Global, text: &str) -> Result<Decimal, AllocError> {
    let (mantissa, tens) = match text.split_once('e') {
        Some((mantissa, tens)) => (mantissa, tens.parse::<i32>().unwrap_or(0)),
        None => (text, 0),
    };
    let (whole, fraction) = match mantissa.split_once('.') {
        Some(parts) => parts,
        None => (mantissa, ""),
    };
    let (digits, zeros) = significant(alloc, whole, fraction)?;
    let exponent = tens
        .saturating_add(power(whole.len()))
        .saturating_sub(power(zeros))
        .saturating_sub(1);
    Ok(Decimal { digits, exponent })
}

/// Writes zeros.
fn put_zeros(out: &mut String, count: i32) -> Result<(), AllocError> {
    for _ in 0..count {
        out.push('0')?;
    }
    Ok(())
}

impl Decimal {
    /// Writes the number in powers of ten: `1.5e-07`.
    fn put_scientific(&self, out: &mut String) -> Result<(), AllocError> {
        for (i, digit) in self.digits.iter().enumerate() {
            if i == 1 {
                out.push('.')?;
            }
            out.push(*digit)?;
        }
        out.push('e')?;
        if self.exponent < 0 {
            out.push('-')?;
        }
        let size = self.exponent.unsigned_abs();
        write!(out, "{size:02}")
    }

    /// Writes the number without a power of ten: `150`, `1.5` or `0.015`.
    fn put_plain(&self, out: &mut String) -> Result<(), AllocError> {
        if self.exponent < 0 {
            out.push_str("0.")?;
            put_zeros(out, self.exponent.saturating_neg().saturating_sub(1))?;
        }
        for (i, digit) in self.digits.iter().enumerate() {
            if i > 0 && power(i) == self.exponent.saturating_add(1) {
                out.push('.')?;
            }
            out.push(*digit)?;
        }
        let missing = self.exponent.saturating_add(1);
        put_zeros(out, missing.saturating_sub(power(self.digits.len())))
    }

    /// Writes the number with at most this number of digits, in the layout of `%g` of C.
    fn put(&self, out: &mut String, digits: Digits) -> Result<(), AllocError> {
        if self.digits.is_empty() {
            return out.push('0');
        }
        let places = if self.digits.len() <= digits.few {
            digits.few
        } else {
            digits.many.max(self.digits.len())
        };
        if self.exponent < -4 || self.exponent >= power(places) {
            self.put_scientific(out)
        } else {
            self.put_plain(out)
        }
    }
}

/// Writes a finite float that isn't negative, by its shortest text. A zero after a minus keeps its
/// point, because the C++ tool reads `-0` as the whole number zero.
fn put_finite(
    out: &mut String,
    alloc: Global,
    text: &str,
    digits: Digits,
    is_negative: bool,
) -> Result<(), AllocError> {
    let number = parse_decimal(alloc, text)?;
    if !is_negative {
        return number.put(out, digits);
    }
    out.push('-')?;
    if number.digits.is_empty() {
        return out.push_str("0.0");
    }
    number.put(out, digits)
}

/// Writes the word for a float that isn't finite; the C++ tool has one NaN.
fn put_infinite(out: &mut String, is_nan: bool, is_negative: bool) -> Result<(), AllocError> {
    out.push_str(match (is_nan, is_negative) {
        (true, _) => "nan",
        (false, false) => "inf",
        (false, true) => "-inf",
    })
}

/// Writes the float of 32 bits that has these bits.
pub(crate) fn put_float32(out: &mut String, alloc: Global, bits: u32) -> Result<(), AllocError> {
    let is_negative = bits >= SIGN_32;
    let size = bits % SIGN_32;
    if size >= INFINITY_32 {
        return put_infinite(out, size > INFINITY_32, is_negative);
    }
    let text = format!(in alloc;
        "{}",
        Float32 {
            bits: size,
            form: FloatForm::Text
        }
    )?;
    put_finite(out, alloc, text.as_str(), DIGITS_32, is_negative)
}

/// Writes the float of 64 bits that has these bits.
pub(crate) fn put_float64(out: &mut String, alloc: Global, bits: u64) -> Result<(), AllocError> {
    let is_negative = bits >= SIGN_64;
    let size = bits % SIGN_64;
    if size >= INFINITY_64 {
        return put_infinite(out, size > INFINITY_64, is_negative);
    }
    let text = format!(in alloc;
        "{}",
        Float64 {
            bits: size,
            form: FloatForm::Text
        }
    )?;
    put_finite(out, alloc, text.as_str(), DIGITS_64, is_negative)
}
