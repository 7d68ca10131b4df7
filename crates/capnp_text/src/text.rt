//! Texts: bytes that should be UTF-8, but may not be.
//!
//! On the wire a text ends with a zero byte, which isn't part of the text; here the zero byte is
//! left out. (Encoding, "Blobs")
ghost use Rattle.std.specs.Prelude.{◌≡◌, ◌+◌, ◌<◌, ◌≤◌, ◌==◌, ◌++◌, length, take, drop, replicate, slice_set, nat_eq, IfOk, string_bytes};
ghost use Rattle.std.specs.Ordering.{nat_cmp};
ghost use Rattle.std.specs.Cmp.{partial_equiv_from_equiv, on_per};
ghost use Rattle.std.specs.Cmp.Lexicographic.{pointwise, slice_cmp, nat_list_eq_equiv};
ghost use Rattle.capnp_wire.specs.Reads.{GetGives, read_text};
ghost use Rattle.capnp_text.specs.Texts.{IsUtf8Text, IsTextIfAny};

use capnp_units::errors;
use capnp_units::limiter::ReadLimiter;
use capnp_units::sizes::Word;
use capnp_wire::pointer::PointerReader;
use capnp_wire::traits;
use capnp_wire::traits::FromPointerReader;
use capnp_wire_objects::arena::ReaderArena;
use std::alloc::{AllocError, Global};
use std::cmp::Ordering;
use std::fmt;
use std::str::Utf8Error;

/// The type of texts.
#[derive(Clone, Copy, Debug, PartialEq, Eq)]
pub struct Owned;

/// A text to read, lent in place. Texts compare by their bytes.
#[derive(Clone, Copy, PartialEq, PartialOrd)]
pub struct Reader<'a>(pub &'a [u8]);

impl<'a> Reader<'a> {
    /// Returns the number of bytes.
    pub fn len(&self) -> usize
        ensures { result ≡ length self.now.0.now }
    {
        self.0.len()
    }

    /// Returns whether the text is empty.
    pub fn is_empty(&self) -> bool
        ensures { result ≡ (length self.now.0.now == 0) }
    {
        self.0.is_empty()
    }

    /// Returns the bytes of the text.
    pub fn as_bytes(self) -> &'a [u8]
        ensures { result.now ≡ self.entry.0.now }
    {
        let Reader(bytes) = self;
        bytes
    }

    /// Returns the text as a `str`. It is refused if the bytes aren't UTF-8.
    pub fn to_str(self) -> Result<&'a str, Utf8Error>
        ensures { IsUtf8Text (λ text. text.now) self.entry.0.now result }
    {
        std::str::from_utf8(self.0)
    }

    /// Returns the text as a `String`, or `None` if the bytes aren't UTF-8.
    pub fn to_string(self, alloc: Global) -> Result<Option<String>, AllocError>
        ensures { IfOk result (IsTextIfAny string_bytes self.entry.0.now) }
    {
        match std::str::from_utf8(self.0) {
            Ok(text) => Ok(Some(String::from_str(alloc, text)?)),
            Err(_) => Ok(None),
        }
    }

    /// Returns whether the text has exactly the bytes of a `str`.
    pub fn eq_str(&self, other: &str) -> bool
        ensures { result ≡ pointwise nat_eq self.now.0.now other.now }
    {
        self.0 == other.as_bytes()
    }

    /// Compares the text with a `str`: by the first bytes that differ, otherwise by length.
    pub fn cmp_str(&self, other: &str) -> Ordering
        ensures { result ≡ slice_cmp nat_cmp self.now.0.now other.now }
    {
        self.0.cmp(other.as_bytes())
    }
}

/// Writes a text as Rust does, between quotes, or its bytes if they aren't UTF-8.
impl fmt::Debug for Reader<'_> {
    fn fmt<W: fmt::Write>(&self, f: &mut fmt::Formatter<W>) -> fmt::Result {
        let bytes = self.0;
        match std::str::from_utf8(bytes) {
            Ok(text) => write!(f, "{text:?}"),
            Err(_) => write!(f, "<invalid utf-8: {bytes:?}>"),
        }
    }
}

impl<'a> From<&'a str> for Reader<'a> {
    ghost from_gives = { λ text r. r.0.now ≡ text.now };

    fn from(value: &'a str) -> Self {
        Reader(value.as_bytes())
    }
}

impl<'a> From<&'a [u8]> for Reader<'a> {
    ghost from_gives = { λ bytes r. r.0.now ≡ bytes.now };

    fn from(value: &'a [u8]) -> Self {
        Reader(value)
    }
}

impl<'a, const N: usize> From<&'a [u8; N]> for Reader<'a> {
    ghost from_gives = { λ bytes r. r.0.now ≡ bytes.now };

    fn from(value: &'a [u8; N]) -> Self {
        Reader(value.as_slice())
    }
}

impl<'a> TryFrom<Reader<'a>> for &'a str {
    type Error = Utf8Error;

    ghost try_from_gives = { λ text r. IsUtf8Text (λ s. s.now) text.0.now r };

    fn try_from(value: Reader<'a>) -> Result<&'a str, Utf8Error> {
        value.to_str()
    }
}

/// The text that a pointer leads to, lent in place. It is read and refused like
/// `PointerReader::get_text`.
impl<'a, A: ReaderArena> FromPointerReader<'a, A> for Reader<'a> {
    ghost reads = { λ p old result new.
        GetGives (λ text. text.0.now) (read_text p.basis p.levels) p old result new };

    fn get_from_pointer(
        reader: &PointerReader<'a, A>,
        limiter: &mut ReadLimiter,
        default: Option<&'a [Word]>,
    ) -> errors::Result<Reader<'a>> {
        Ok(Reader(reader.get_text(limiter, default)?))
    }
}

impl<'a, A: ReaderArena> traits::Owned<'a, A> for Owned {
    type Reader = Reader<'a>;
}

/// A text to write, whose bytes are lent by a message, with a position at which pushes write. The
/// text has all of its bytes, also those after the position.
#[derive(Drop)]
pub struct Builder<'a> {
    bytes: &'a mut [u8],
    pos: usize,
}

impl<'a> Builder<'a> {
    /// Makes a text to write from its first byte on.
    pub fn new(bytes: &'a mut [u8]) -> Self
        ensures same { result.bytes.ghost_name ≡ bytes.entry.ghost_name }
        ensures bytes { result.bytes.now ≡ bytes.entry.now }
        ensures pos { result.pos ≡ 0 }
    {
        Builder { bytes, pos: 0 }
    }

    /// Makes a text to write from a position on, in bytes.
    pub fn with_pos(bytes: &'a mut [u8], pos: usize) -> Self
        ensures same { result.bytes.ghost_name ≡ bytes.entry.ghost_name }
        ensures bytes { result.bytes.now ≡ bytes.entry.now }
        ensures pos { result.pos ≡ pos }
    {
        Builder { bytes, pos }
    }

    /// Returns the number of bytes, whatever was pushed.
    pub fn len(&self) -> usize
        ensures { result ≡ length self.now.bytes.now }
    {
        self.bytes.len()
    }

    /// Returns whether the text is empty.
    pub fn is_empty(&self) -> bool
        ensures { result ≡ (length self.now.bytes.now == 0) }
    {
        self.bytes.is_empty()
    }

    /// Returns the bytes of the text.
    pub fn as_bytes(self) -> &'a [u8]
        ensures { result.now ≡ self.entry.bytes.now }
    {
        self.into_reader().as_bytes()
    }

    /// Returns the text as a `str`. It is refused if the bytes aren't UTF-8.
    pub fn to_str(self) -> Result<&'a str, Utf8Error>
        ensures { IsUtf8Text (λ text. text.now) self.entry.bytes.now result }
    {
        self.into_reader().to_str()
    }

    /// Returns the text as a `String`, or `None` if the bytes aren't UTF-8.
    pub fn to_string(self, alloc: Global) -> Result<Option<String>, AllocError>
        ensures { IfOk result (IsTextIfAny string_bytes self.entry.bytes.now) }
    {
        self.into_reader().to_string(alloc)
    }

    /// Returns the bytes of the text, to write.
    pub fn as_bytes_mut(self) -> &'a mut [u8]
        ensures same { result.ghost_name ≡ self.entry.bytes.ghost_name }
        ensures bytes { result.now ≡ self.entry.bytes.now }
    {
        let Builder { bytes, .. } = self;
        bytes
    }

    /// Writes an ASCII character at the position, and moves the position past it. There must be a
    /// byte left for the character.
    pub fn push_ascii(&mut self, ascii: u8)
        requires ascii { ascii < 128 }
        requires room { self.old.pos < length self.old.bytes.now }
        ensures same { self.new.bytes.ghost_name ≡ self.old.bytes.ghost_name }
        ensures bytes { self.new.bytes.now ≡ slice_set self.old.bytes.now self.old.pos ascii }
        ensures pos { self.new.pos ≡ self.old.pos + 1 }
    {
        self.bytes[self.pos] = ascii;
        self.pos += 1;
    }

    /// Writes a text at the position, and moves the position past it. There must be bytes left for
    /// it.
    pub fn push_str(&mut self, string: &str)
        requires { self.old.pos + length string.now ≤ length self.old.bytes.now }
        ensures same { self.new.bytes.ghost_name ≡ self.old.bytes.ghost_name }
        ensures bytes { self.new.bytes.now
            ≡ take self.old.pos self.old.bytes.now ++ string.now ++ drop
            (self.old.pos + length string.now) self.old.bytes.now }
        ensures pos { self.new.pos ≡ self.old.pos + length string.now }
    {
        let end = self.pos + string.len();
        self.bytes[self.pos..end].copy_from_slice(string.as_bytes());
        self.pos = end;
    }

    /// Writes zeros over all bytes, and moves the position to the first.
    pub fn clear(&mut self)
        ensures same { self.new.bytes.ghost_name ≡ self.old.bytes.ghost_name }
        ensures bytes { self.new.bytes.now ≡ replicate (length self.old.bytes.now) 0 }
        ensures pos { self.new.pos ≡ 0 }
    {
        self.bytes.fill(0);
        self.pos = 0;
    }

    /// Lends this text and position for a while. Writes to the lent text remain; its position isn't
    /// taken over.
    pub fn reborrow(&mut self) -> Builder<'_>
        ensures bytes { result.bytes.now ≡ self.old.bytes.now }
        ensures pos { result.pos ≡ self.old.pos }
    {
        let pos = self.pos;
        let bytes = &mut *self.bytes;
        Builder::with_pos(bytes, pos)
    }

    /// Returns the text, to read.
    pub fn into_reader(self) -> Reader<'a>
        ensures { result.0.now ≡ self.entry.bytes.now }
    {
        let bytes = self.bytes;
        Reader(bytes)
    }

    /// Lends the text, to read for a while.
    pub fn reborrow_as_reader(&self) -> Reader<'_>
        ensures { result.0.now ≡ self.now.bytes.now }
    {
        Reader(self.bytes)
    }
}

/// Compares texts by their bytes, whatever their positions are.
impl PartialEq for Builder<'_> {
    ghost eq = { λ x y. pointwise nat_eq x.bytes.now y.bytes.now };

    ghost laws = { on_per (λ b. b.bytes.now) (partial_equiv_from_equiv nat_list_eq_equiv) };

    fn eq(&self, other: &Self) -> bool {
        *self.bytes == *other.bytes
    }
}

/// Writes a text as Rust does, between quotes.
impl fmt::Debug for Builder<'_> {
    fn fmt<W: fmt::Write>(&self, f: &mut fmt::Formatter<W>) -> fmt::Result {
        match std::str::from_utf8(self.bytes) {
            Ok(text) => write!(f, "{text:?}"),
            Err(_) => f.write_str("<invalid utf-8>"),
        }
    }
}
