//! Schema files with numbers in place of ids that are texts of digits.
ghost use Rattle.std.specs.Prelude.{◌≡◌, IfOk};
ghost use Rattle.hagzimot_forms.specs.Ids.{is_digit_byte, digits_end, is_id_text, is_id_key, next_in_text, at_quote, at_colon, next_outside, next_place, is_in_id, stays_told, ids_as_numbers};

use std::alloc::{AllocError, Global};

/// The place of a byte in a JSON text.
#[derive(Clone, Copy, Debug, PartialEq, Eq)]
enum Place {
    /// Outside texts, at a place that no id may follow.
    Apart,
    /// In a text. The flag says whether the text is the key of an id.
    Text(bool),
    /// In such a text, after a backslash.
    Escape(bool),
    /// After the key of an id.
    Key,
    /// After the colon of the key.
    Colon,
    /// In a text of digits after the colon.
    Id,
}

/// Tests whether a byte is a decimal digit.
fn is_digit(byte: u8) -> bool
    ensures { result ≡ is_digit_byte byte }
{
    byte >= b'0' && byte <= b'9'
}

/// Tests whether the digits at the front end with a quote.
fn digits_end(bytes: &[u8]) -> bool
    ensures { result ≡ digits_end bytes.now }
{
    let mut bytes = bytes;
    while let [byte, behind @ ..] = bytes {
        if !is_digit(*byte) {
            return *byte == b'"';
        }
        bytes = behind;
    }
    false
}

/// Tests whether the text at the front is the digits of an id, without a leading zero.
fn is_id_text(bytes: &[u8]) -> bool
    ensures { result ≡ is_id_text bytes.now }
{
    let [byte, behind @ ..] = bytes else {
        return false;
    };
    if *byte == b'0' {
        behind.starts_with(b"\"")
    } else {
        is_digit(*byte) && digits_end(behind)
    }
}

/// Tests whether the text at the front is the key of an id.
fn is_id_key(bytes: &[u8]) -> bool
    ensures { result ≡ is_id_key bytes.now }
{
    bytes.starts_with(b"id\"")
        || bytes.starts_with(b"group\"")
        || bytes.starts_with(b"struct\"")
        || bytes.starts_with(b"enum\"")
}

/// Returns the place of the byte after a byte of a text.
fn next_in_text(is_key: bool, byte: u8) -> Place
    ensures { result ≡ next_in_text is_key byte }
{
    if byte == b'\\' {
        return Place::Escape(is_key);
    }
    if byte != b'"' {
        return Place::Text(is_key);
    }
    if is_key { Place::Key } else { Place::Apart }
}

impl Place {
    /// Returns the place of the bytes of a text that begins here.
    fn at_quote(self, behind: &[u8]) -> Place
        ensures { result ≡ at_quote self behind.now }
    {
        match self {
            Place::Colon if is_id_text(behind) => Place::Id,
            _ => Place::Text(is_id_key(behind)),
        }
    }

    /// Returns the place of the byte after a colon.
    fn at_colon(self) -> Place
        ensures { result ≡ at_colon self }
    {
        match self {
            Place::Key => Place::Colon,
            _ => Place::Apart,
        }
    }

    /// Returns the place of the byte after a byte outside texts.
    fn next_outside(self, byte: u8, behind: &[u8]) -> Place
        ensures { result ≡ next_outside self byte behind.now }
    {
        if byte == b' ' || byte == b'\t' || byte == b'\n' || byte == b'\r' {
            return self;
        }
        if byte == b'"' {
            return self.at_quote(behind);
        }
        if byte == b':' {
            return self.at_colon();
        }
        Place::Apart
    }

    /// Returns the place of the next byte.
    fn next(self, byte: u8, behind: &[u8]) -> Place
        ensures { result ≡ next_place self byte behind.now }
    {
        match self {
            Place::Text(is_key) => next_in_text(is_key, byte),
            Place::Escape(is_key) => Place::Text(is_key),
            Place::Id if byte == b'"' => Place::Apart,
            Place::Id => Place::Id,
            _ => self.next_outside(byte, behind),
        }
    }

    /// Tests whether the place is in an id.
    fn is_id(self) -> bool
        ensures { result ≡ is_in_id self }
    {
        match self {
            Place::Id => true,
            _ => false,
        }
    }

    /// Tests whether this byte is kept: it isn't one of the quotes around an id.
    fn keeps(self, byte: u8, next: Place) -> bool
        ensures { result ≡ stays_told self byte next }
    {
        byte != b'"' || !(self.is_id() || next.is_id())
    }
}

/// Returns a schema file with numbers in place of ids that are texts of digits. If there are no
/// such ids, the bytes are the same. Returns an error if an allocation was refused.
pub fn ids_as_numbers(alloc: Global, bytes: &[u8]) -> Result<Vec<u8>, AllocError>
    ensures { IfOk result (λ told. told.items ≡ ids_as_numbers bytes.now) }
{
    let mut told = Vec::new(alloc);
    let mut place = Place::Apart;
    let mut rest = bytes;
    while let [byte, behind @ ..] = rest {
        let next = place.next(*byte, behind);
        if place.keeps(*byte, next) {
            told.push(*byte)?;
        }
        place = next;
        rest = behind;
    }
    Ok(told)
}
