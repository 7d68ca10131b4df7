//! Data that are built.
ghost use Rattle.std.specs.Prelude.{◌≡◌, ◌∷◌, [], ◌+◌, ◌<◌, ◌≤◌, ◌^◌, ◌==◌, length, map, nat_eq};
ghost use Rattle.std.specs.Borrow.{sem};
ghost use Rattle.std.specs.Cmp.{partial_equiv_from_equiv, on_per};
ghost use Rattle.std.specs.Cmp.Lexicographic.{pointwise, nat_list_eq_equiv};
ghost use Rattle.capnp_units.specs.Segments.{words_in};
ghost use Rattle.capnp_copy_arenas.specs.Bytes.{HasBytes, SetsBytes};
ghost use Rattle.capnp_layout_builders.specs.Lent.{data_lent};

use capnp_copy_arenas::arena::{BuilderArena, Memory};
use capnp_copy_arenas::bytes::{BlobPlace, get_bytes, set_bytes};
use std::fmt;

/// Data that are built, with the place of their bytes in an arena.
#[derive(Drop)]
pub struct DataBuilder<'a, A> {
    pub memory: &'a mut Memory<A>,
    pub place: BlobPlace,
}

impl<'a, A: BuilderArena> DataBuilder<'a, A> {
    ghost use Rattle.capnp_layout_builders.specs.Lending.{LendsData};

    /// Lends these data.
    pub fn reborrow(&mut self) -> DataBuilder<'_, A>
        ensures* lends { sem 𝓛 (LendsData A.row self.entry result) }
        ensures now { result.memory.now ≡ self.old.memory.now }
        ensures place { result.place ≡ self.old.place }
    {
        let place = self.place;
        let memory = &mut *self.memory;
        DataBuilder { memory, place }
    }

    /// Returns the number of bytes.
    pub fn len(&self) -> usize
        ensures { result ≡ self.now.place.count }
    {
        self.place.count as usize
    }

    /// Returns whether the data are empty.
    pub fn is_empty(&self) -> bool
        ensures { result ≡ (self.now.place.count == 0) }
    {
        self.place.count == 0
    }

    /// Returns the bytes, lent in place.
    pub fn as_bytes(&self) -> &[u8]
        ensures has { HasBytes (words_in (A.segments self.now.memory.now.arena)) self.now.place
            result.now }
        ensures lent { result.now ≡ data_lent A.segments self.now }
    {
        get_bytes(&self.memory.arena, self.place)
    }

    /// Consumes the handle, and returns the bytes, lent in place.
    pub fn into_reader(self) -> &'a [u8]
        ensures { HasBytes (words_in (A.segments self.entry.memory.now.arena)) self.entry.place
            result.now }
    {
        let DataBuilder { memory, place } = self;
        get_bytes(&memory.arena, place)
    }

    /// Writes bytes over as many bytes from an index on, counted from 0. They are within the data;
    /// all other bytes stay.
    pub fn write(&mut self, at: usize, bytes: &[u8])
        requires near { self.old.place.start.position < 2 ^ 61 }
        requires inside { at + length bytes.now ≤ self.old.place.count }
        ensures same { self.new.memory.ghost_name ≡ self.old.memory.ghost_name }
        ensures place { self.new.place ≡ self.old.place }
        ensures books { A.books self.new.memory.now.arena ≡ A.books self.old.memory.now.arena }
        ensures sizes { map length (words_in (A.segments self.new.memory.now.arena))
            ≡ map length (words_in (A.segments self.old.memory.now.arena)) }
        ensures sets { SetsBytes (words_in (A.segments self.old.memory.now.arena))
            (words_in (A.segments self.new.memory.now.arena)) self.old.place.start at bytes.now }
    {
        let place = self.place;
        set_bytes(&mut self.memory.arena, place, at, bytes);
    }

    /// Writes one byte, whose index counts from 0 and is within the data; all other bytes stay.
    pub fn set(&mut self, index: usize, byte: u8)
        requires near { self.old.place.start.position < 2 ^ 61 }
        requires inside { index < self.old.place.count }
        ensures same { self.new.memory.ghost_name ≡ self.old.memory.ghost_name }
        ensures place { self.new.place ≡ self.old.place }
        ensures books { A.books self.new.memory.now.arena ≡ A.books self.old.memory.now.arena }
        ensures sizes { map length (words_in (A.segments self.new.memory.now.arena))
            ≡ map length (words_in (A.segments self.old.memory.now.arena)) }
        ensures sets { SetsBytes (words_in (A.segments self.old.memory.now.arena))
            (words_in (A.segments self.new.memory.now.arena)) self.old.place.start index
            (byte ∷ []) }
    {
        let place = self.place;
        set_bytes(&mut self.memory.arena, place, index, &[byte]);
    }
}

/// Compares data that are built by their bytes, wherever they are. Data whose words don't exist
/// have no bytes.
impl<A: BuilderArena> PartialEq for DataBuilder<'_, A> {
    ghost eq = { λ x y. pointwise nat_eq (data_lent A.segments x) (data_lent A.segments y) };

    ghost laws = { on_per (data_lent A.segments) (partial_equiv_from_equiv nat_list_eq_equiv) };

    fn eq(&self, other: &Self) -> bool {
        self.as_bytes() == other.as_bytes()
    }
}

/// Writes the bytes as Rust writes those of a slice.
impl<A: BuilderArena> fmt::Debug for DataBuilder<'_, A> {
    fn fmt<W: fmt::Write>(&self, f: &mut fmt::Formatter<W>) -> fmt::Result {
        let bytes = self.as_bytes();
        write!(f, "{bytes:?}")
    }
}
