//! Texts and data as the C++ tool spells them.

use std::fmt;
use std::fmt::{Display, Formatter, Write};

/// Bytes between double quotes, as the C++ tool writes them and reads them back. `\"`, `\'` and
/// `\\` have a backslash, and control characters are a letter or three octal digits.
#[derive(Clone, Copy)]
pub(crate) struct Escaped<'a> {
    bytes: &'a [u8],
    /// The bytes as text, if they are UTF-8 and characters past ASCII are not escaped.
    text: Option<&'a str>,
}

impl<'a> Escaped<'a> {
    /// Returns a text. Bytes past ASCII are escaped only if the text isn't UTF-8.
    pub(crate) fn text(bytes: &'a [u8]) -> Escaped<'a> {
        Escaped {
            bytes,
            text: str::from_utf8(bytes).ok(),
        }
    }

    /// Returns data, whose bytes past ASCII are escaped.
    pub(crate) fn data(bytes: &'a [u8]) -> Escaped<'a> {
        Escaped { bytes, text: None }
    }
}

/// Returns the letter for a character after a backslash, if there is one.
fn letter(byte: u8) -> Option<char> {
    match byte {
        7 => Some('a'),
        8 => Some('b'),
        9 => Some('t'),
        10 => Some('n'),
        11 => Some('v'),
        12 => Some('f'),
        13 => Some('r'),
        b'"' => Some('"'),
        b'\'' => Some('\''),
        b'\\' => Some('\\'),
        _ => None,
    }
}

/// Writes a character of ASCII, or a byte past it as octal digits.
fn put_byte<W: Write>(byte: u8, f: &mut Formatter<W>) -> fmt::Result {
    if let Some(letter) = letter(byte) {
        f.write_char('\\')?;
        return f.write_char(letter);
    }
    if byte < 0x20 || byte >= 0x7f {
        return write!(f, "\\{byte:03o}");
    }
    f.write_char(char::from(byte))
}

impl Display for Escaped<'_> {
    fn fmt<W: Write>(&self, f: &mut Formatter<W>) -> fmt::Result {
        f.write_char('"')?;
        match self.text {
            Some(text) => {
                for c in text.chars() {
                    match u8::try_from(c) {
                        Ok(byte) if byte.is_ascii() => put_byte(byte, f)?,
                        _ => f.write_char(c)?,
                    }
                }
            }
            None => {
                for byte in self.bytes {
                    put_byte(*byte, f)?;
                }
            }
        }
        f.write_char('"')
    }
}
