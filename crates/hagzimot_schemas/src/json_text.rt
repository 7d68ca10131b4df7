//! Parts of JSON texts.
ghost use Rattle.std.specs.Fmt.{WritesOnOk};
ghost use Rattle.hagzimot_schemas.specs.JsonText.{char_told};

use std::fmt;
use std::fmt::{Display, Formatter, Write};

/// A text between double quotes. (JSON, "Strings")
#[derive(Clone, Copy)]
pub struct Quoted<'a>(pub &'a str);

/// Writes a character of a text.
pub fn put_char<W: Write>(c: char, f: &mut Formatter<W>) -> fmt::Result
    ensures { WritesOnOk W.write_str_gives f.old result (char_told c) f.new }
{
    match c {
        '"' => f.write_str("\\\""),
        '\\' => f.write_str("\\\\"),
        '\n' => f.write_str("\\n"),
        '\r' => f.write_str("\\r"),
        '\t' => f.write_str("\\t"),
        c if c.is_ascii_control() => write!(f, "\\u{:04x}", c as u32),
        c => f.write_char(c),
    }
}

impl Display for Quoted<'_> {
    fn fmt<W: Write>(&self, f: &mut Formatter<W>) -> fmt::Result {
        f.write_char('"')?;
        for c in self.0.chars() {
            put_char(c, f)?;
        }
        f.write_char('"')
    }
}

/// Bytes as an array of numbers.
#[derive(Clone, Copy)]
pub struct Numbers<'a>(pub &'a [u8]);

impl Display for Numbers<'_> {
    fn fmt<W: Write>(&self, f: &mut Formatter<W>) -> fmt::Result {
        f.write_char('[')?;
        let mut before = "";
        for byte in self.0 {
            write!(f, "{before}{byte}")?;
            before = ",";
        }
        f.write_char(']')
    }
}
