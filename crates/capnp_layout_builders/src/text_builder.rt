//! Texts that are built.
ghost use Rattle.std.specs.Prelude.{◌≡◌, ◌∷◌, [], ◌+◌, ◌<◌, ◌≤◌, ◌^◌, ◌==◌, length, map, nat_eq, replicate, string_bytes, IfOk};
ghost use Rattle.std.specs.Borrow.{sem};
ghost use Rattle.std.specs.Cmp.{partial_equiv_from_equiv, on_per};
ghost use Rattle.std.specs.Cmp.Lexicographic.{pointwise, slice_cmp, nat_list_eq_equiv};
ghost use Rattle.std.specs.Ordering.{nat_cmp};
ghost use Rattle.capnp_units.specs.Segments.{words_in};
ghost use Rattle.capnp_text.specs.Texts.{IsUtf8Text, IsTextIfAny};
ghost use Rattle.capnp_copy_arenas.specs.Bytes.{HasBytes, SetsBytes};
ghost use Rattle.capnp_layout_builders.specs.Blobs.{HoldsOfBytes};
ghost use Rattle.capnp_layout_builders.specs.Lent.{text_lent};

use capnp_copy_arenas::arena::{BuilderArena, Memory};
use capnp_copy_arenas::bytes::{BlobPlace, get_bytes, set_bytes, zero_bytes};
use capnp_text::text::Reader;
use std::alloc::{AllocError, Global};
use std::cmp::Ordering;
use std::fmt;
use std::str::Utf8Error;

/// A text that is built, with the place of its bytes in an arena, and a position in bytes at which
/// pushes write. The text has all of its bytes, also those after the position; the zero byte at its
/// end isn't part of it.
#[derive(Drop)]
pub struct TextBuilder<'a, A> {
    pub memory: &'a mut Memory<A>,
    pub place: BlobPlace,
    pub position: usize,
}

impl<'a, A: BuilderArena> TextBuilder<'a, A> {
    ghost use Rattle.capnp_layout_builders.specs.Lending.{LendsText};

    /// Lends this text and its position. The position of the lent text isn't taken over.
    pub fn reborrow(&mut self) -> TextBuilder<'_, A>
        ensures* lends { sem 𝓛 (LendsText A.row self.entry result) }
        ensures now { result.memory.now ≡ self.old.memory.now }
        ensures place { (result.place ≡ self.old.place) × (result.position ≡ self.old.position) }
    {
        let place = self.place;
        let position = self.position;
        let memory = &mut *self.memory;
        TextBuilder {
            memory,
            place,
            position,
        }
    }

    /// Returns the number of bytes, whatever was pushed.
    pub fn len(&self) -> usize
        ensures { result ≡ self.now.place.count }
    {
        self.place.count as usize
    }

    /// Returns whether the text is empty.
    pub fn is_empty(&self) -> bool
        ensures { result ≡ (self.now.place.count == 0) }
    {
        self.place.count == 0
    }

    /// Returns the bytes of the text, lent in place.
    pub fn as_bytes(&self) -> &[u8]
        ensures has { HasBytes (words_in (A.segments self.now.memory.now.arena)) self.now.place
            result.now }
        ensures lent { result.now ≡ text_lent A.segments self.now }
    {
        get_bytes(&self.memory.arena, self.place)
    }

    /// Returns the text as a `str`, lent in place. It is refused if the bytes aren't UTF-8.
    pub fn to_str(&self) -> Result<&str, Utf8Error>
        ensures { HoldsOfBytes (words_in (A.segments self.now.memory.now.arena)) self.now.place
            (λ bytes. IsUtf8Text (λ text. text.now) bytes result) }
    {
        self.reborrow_as_reader().to_str()
    }

    /// Returns the text as a `String`, or `None` if the bytes aren't UTF-8. The only error is lack
    /// of memory.
    pub fn to_string(&self, alloc: Global) -> Result<Option<String>, AllocError>
        ensures { HoldsOfBytes (words_in (A.segments self.now.memory.now.arena)) self.now.place
            (λ bytes. IfOk result (IsTextIfAny string_bytes bytes)) }
    {
        self.reborrow_as_reader().to_string(alloc)
    }

    /// Returns whether the text has exactly the bytes of a `str`.
    pub fn eq_str(&self, other: &str) -> bool
        ensures { HoldsOfBytes (words_in (A.segments self.now.memory.now.arena)) self.now.place
            (λ bytes. result ≡ pointwise nat_eq bytes other.now) }
    {
        self.reborrow_as_reader().eq_str(other)
    }

    /// Compares the text with a `str`: by the first bytes that differ, otherwise by length.
    pub fn cmp_str(&self, other: &str) -> Ordering
        ensures { HoldsOfBytes (words_in (A.segments self.now.memory.now.arena)) self.now.place
            (λ bytes. result ≡ slice_cmp nat_cmp bytes other.now) }
    {
        self.reborrow_as_reader().cmp_str(other)
    }

    /// Lends the text, to read for a while.
    pub fn reborrow_as_reader(&self) -> Reader<'_>
        ensures { HasBytes (words_in (A.segments self.now.memory.now.arena)) self.now.place
            result.0.now }
    {
        Reader(get_bytes(&self.memory.arena, self.place))
    }

    /// Consumes the handle, and returns the text to read.
    pub fn into_reader(self) -> Reader<'a>
        ensures { HasBytes (words_in (A.segments self.entry.memory.now.arena)) self.entry.place
            result.0.now }
    {
        let TextBuilder { memory, place, .. } = self;
        Reader(get_bytes(&memory.arena, place))
    }

    /// Writes bytes over as many bytes from an index on, counted from 0. They are within the text;
    /// all other bytes stay, and so does the position.
    pub fn write(&mut self, at: usize, bytes: &[u8])
        requires near { self.old.place.start.position < 2 ^ 61 }
        requires inside { at + length bytes.now ≤ self.old.place.count }
        ensures same { self.new.memory.ghost_name ≡ self.old.memory.ghost_name }
        ensures place { (self.new.place ≡ self.old.place)
            × (self.new.position ≡ self.old.position) }
        ensures books { A.books self.new.memory.now.arena ≡ A.books self.old.memory.now.arena }
        ensures sizes { map length (words_in (A.segments self.new.memory.now.arena))
            ≡ map length (words_in (A.segments self.old.memory.now.arena)) }
        ensures sets { SetsBytes (words_in (A.segments self.old.memory.now.arena))
            (words_in (A.segments self.new.memory.now.arena)) self.old.place.start at bytes.now }
    {
        let place = self.place;
        set_bytes(&mut self.memory.arena, place, at, bytes);
    }

    /// Writes an ASCII character at the position, and moves the position past it. There must be a
    /// byte left for the character.
    pub fn push_ascii(&mut self, ascii: u8)
        requires near { self.old.place.start.position < 2 ^ 61 }
        requires ascii { ascii < 128 }
        requires room { self.old.position < self.old.place.count }
        ensures same { self.new.memory.ghost_name ≡ self.old.memory.ghost_name }
        ensures place { (self.new.place ≡ self.old.place)
            × (self.new.position ≡ self.old.position + 1) }
        ensures books { A.books self.new.memory.now.arena ≡ A.books self.old.memory.now.arena }
        ensures sizes { map length (words_in (A.segments self.new.memory.now.arena))
            ≡ map length (words_in (A.segments self.old.memory.now.arena)) }
        ensures sets { SetsBytes (words_in (A.segments self.old.memory.now.arena))
            (words_in (A.segments self.new.memory.now.arena)) self.old.place.start
            self.old.position (ascii ∷ []) }
    {
        let place = self.place;
        let at = self.position;
        self.position = set_bytes(&mut self.memory.arena, place, at, &[ascii]);
    }

    /// Writes a text at the position, and moves the position past it. There must be bytes left for
    /// it.
    pub fn push_str(&mut self, string: &str)
        requires near { self.old.place.start.position < 2 ^ 61 }
        requires room { self.old.position + length string.now ≤ self.old.place.count }
        ensures same { self.new.memory.ghost_name ≡ self.old.memory.ghost_name }
        ensures place { (self.new.place ≡ self.old.place)
            × (self.new.position ≡ self.old.position + length string.now) }
        ensures books { A.books self.new.memory.now.arena ≡ A.books self.old.memory.now.arena }
        ensures sizes { map length (words_in (A.segments self.new.memory.now.arena))
            ≡ map length (words_in (A.segments self.old.memory.now.arena)) }
        ensures sets { SetsBytes (words_in (A.segments self.old.memory.now.arena))
            (words_in (A.segments self.new.memory.now.arena)) self.old.place.start
            self.old.position string.now }
    {
        let place = self.place;
        let at = self.position;
        self.position = set_bytes(&mut self.memory.arena, place, at, string.as_bytes());
    }

    /// Writes zeros over all bytes, and moves the position to the first.
    pub fn clear(&mut self)
        requires near { self.old.place.start.position < 2 ^ 61 }
        ensures same { self.new.memory.ghost_name ≡ self.old.memory.ghost_name }
        ensures place { (self.new.place ≡ self.old.place) × (self.new.position ≡ 0) }
        ensures books { A.books self.new.memory.now.arena ≡ A.books self.old.memory.now.arena }
        ensures sizes { map length (words_in (A.segments self.new.memory.now.arena))
            ≡ map length (words_in (A.segments self.old.memory.now.arena)) }
        ensures sets { SetsBytes (words_in (A.segments self.old.memory.now.arena))
            (words_in (A.segments self.new.memory.now.arena)) self.old.place.start 0
            (replicate self.old.place.count 0) }
    {
        let place = self.place;
        zero_bytes(&mut self.memory.arena, place);
        self.position = 0;
    }
}

/// Compares texts that are built by their bytes, whatever their places and positions are. A text
/// whose words don't exist has no bytes.
impl<A: BuilderArena> PartialEq for TextBuilder<'_, A> {
    ghost eq = { λ x y. pointwise nat_eq (text_lent A.segments x) (text_lent A.segments y) };

    ghost laws = { on_per (text_lent A.segments) (partial_equiv_from_equiv nat_list_eq_equiv) };

    fn eq(&self, other: &Self) -> bool {
        self.as_bytes() == other.as_bytes()
    }
}

/// Writes a text as Rust does, between quotes.
impl<A: BuilderArena> fmt::Debug for TextBuilder<'_, A> {
    fn fmt<W: fmt::Write>(&self, f: &mut fmt::Formatter<W>) -> fmt::Result {
        match std::str::from_utf8(self.as_bytes()) {
            Ok(text) => write!(f, "{text:?}"),
            Err(_) => f.write_str("<invalid utf-8>"),
        }
    }
}
