//! Texts of floats.

use ryu::Buffer;
use std::fmt;
use std::fmt::{Display, Formatter, Write};

/// The readers for which a float is written.
#[derive(Clone, Copy, Debug, PartialEq, Eq)]
pub enum FloatForm {
    /// People: a decimal number, `inf`, `-inf` or `nan`. Another NaN has the hexadecimal digits of
    /// its bits, as `nan:7fc00001`.
    Text,
    /// Readers of JSON, which read numbers as floats of 64 bits: such a number, or a text. The
    /// texts are `"Infinity"`, `"-Infinity"` and, for every NaN, `"NaN"`.
    Json,
}

/// The bit of the sign of a float of 32 bits.
pub const SIGN_32: u32 = 0x8000_0000;

/// The bits of infinity, as a float of 32 bits.
pub const INFINITY_32: u32 = 0x7f80_0000;

/// The bits of the NaN without a payload, as a float of 32 bits.
pub const NAN_32: u32 = 0x7fc0_0000;

/// The bit of the sign of a float of 64 bits.
pub const SIGN_64: u64 = 0x8000_0000_0000_0000;

/// The bits of infinity, as a float of 64 bits.
pub const INFINITY_64: u64 = 0x7ff0_0000_0000_0000;

/// The bits of the NaN without a payload, as a float of 64 bits.
pub const NAN_64: u64 = 0x7ff8_0000_0000_0000;

impl FloatForm {
    /// Returns the word for infinity.
    fn infinity(self, is_negative: bool) -> &'static str {
        match (self, is_negative) {
            (FloatForm::Text, false) => "inf",
            (FloatForm::Text, true) => "-inf",
            (FloatForm::Json, false) => "\"Infinity\"",
            (FloatForm::Json, true) => "\"-Infinity\"",
        }
    }

    /// Returns the word for a NaN. Returns `None` if the word would lose bits that the form shows.
    fn nan(self, is_plain: bool) -> Option<&'static str> {
        match self {
            FloatForm::Text if is_plain => Some("nan"),
            FloatForm::Text => None,
            FloatForm::Json => Some("\"NaN\""),
        }
    }
}

/// A float of 32 bits, given by its bits.
#[derive(Clone, Copy, Debug, PartialEq, Eq)]
pub struct Float32 {
    pub bits: u32,
    pub form: FloatForm,
}

impl Display for Float32 {
    fn fmt<W: Write>(&self, f: &mut Formatter<W>) -> fmt::Result {
        let is_negative = self.bits >= SIGN_32;
        let size = if is_negative {
            self.bits - SIGN_32
        } else {
            self.bits
        };
        if size < INFINITY_32 {
            if is_negative {
                f.write_char('-')?;
            }
            let number = f32::from_bits(size);
            return match self.form {
                FloatForm::Text => f.write_str(Buffer::new().format(number)),
                FloatForm::Json => f.write_str(Buffer::new().format(f64::from(number))),
            };
        }
        if size == INFINITY_32 {
            return f.write_str(self.form.infinity(is_negative));
        }
        match self.form.nan(self.bits == NAN_32) {
            Some(word) => f.write_str(word),
            None => write!(f, "nan:{:08x}", self.bits),
        }
    }
}

/// A float of 64 bits, given by its bits.
#[derive(Clone, Copy, Debug, PartialEq, Eq)]
pub struct Float64 {
    pub bits: u64,
    pub form: FloatForm,
}

impl Display for Float64 {
    fn fmt<W: Write>(&self, f: &mut Formatter<W>) -> fmt::Result {
        let is_negative = self.bits >= SIGN_64;
        let size = if is_negative {
            self.bits - SIGN_64
        } else {
            self.bits
        };
        if size < INFINITY_64 {
            if is_negative {
                f.write_char('-')?;
            }
            return f.write_str(Buffer::new().format(f64::from_bits(size)));
        }
        if size == INFINITY_64 {
            return f.write_str(self.form.infinity(is_negative));
        }
        match self.form.nan(self.bits == NAN_64) {
            Some(word) => f.write_str(word),
            None => write!(f, "nan:{:016x}", self.bits),
        }
    }
}
