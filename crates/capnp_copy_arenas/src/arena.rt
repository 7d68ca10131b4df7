//! Arenas in which values are built.
ghost use Rattle.std.specs.Prelude.{◌≡◌, ◌*◌, ◌/◌, ◌<◌, ◌∷◌, [], ◌↔◌, ℕ, List, length, replicate, true, IfOk, IfErr, OnErr, OnSome, IfSome, IfNone};
ghost use Rattle.std.specs.Option.{is_some};
ghost use Rattle.capnp_model.specs.Bytes.{words_in_bytes};
ghost use Rattle.capnp_model.specs.Segments.{words_at};
ghost use Rattle.capnp_units.specs.Segments.{words_in};
ghost use Rattle.capnp_units.specs.declared.kinds.ErrorKind.{ErrorKind};
ghost use Rattle.capnp_units.specs.declared.kinds.ErrorKind.TheVariants.{SizeOverflow};
ghost use Rattle.capnp_wire_objects.specs.Places.{place_view};
ghost use Rattle.capnp_model_writes.specs.Writes.{with_words};
ghost use Rattle.capnp_copy_arenas.specs.Allocations.{Allocates, AllocatesIn, HasRoom, IsThereOrNew, LastIsFull, PassesLimit, PassesOrRefused, UsesRoom};

use capnp_units::errors::Result;
use capnp_units::sizes::SegmentId;
use capnp_wire_objects::arena::ReaderArena;
use capnp_wire_objects::place::Place;

/// Segments that can be read and written, and in which words are allocated. All words allocated in
/// a message are at most 2^29 - 1.
pub trait BuilderArena: ReaderArena {
    /// The names of the memory that it borrows: those that stay, then the lent slices.
    ghost books: { Self → List (List ℕ) };

    /// The free words of each segment, after the allocated words.
    ghost room: { Self → List ℕ };

    /// The kinds with which, in this state, a new segment may be refused if the last segment has no
    /// room for n words.
    ghost refuses: { Self → ℕ → ErrorKind → Type 0 };

    /// Allocates zero words at the end of a segment, and returns the position of the first word. It
    /// returns `None` exactly when the segment doesn't exist, has fewer free words, or the
    /// message's words would exceed 2^29 - 1.
    fn allocate(&mut self, segment: SegmentId, words: u32) -> Option<u32>
        ensures some { IfSome result
            (AllocatesIn (Self.segments self.old) (Self.segments self.new) segment words) }
        ensures room { OnSome result
            (HasRoom (words_in (Self.segments self.old)) (room self.old) segment words) }
        ensures full { IfNone result
            (HasRoom (words_in (Self.segments self.old)) (room self.old) segment words → ⊥) }
        ensures none { IfNone result (Self.segments self.new ≡ Self.segments self.old) }
        ensures kept { IfNone result (room self.new ≡ room self.old) }
        ensures left { OnSome result (UsesRoom (room self.old) (room self.new) segment words) }
        ensures unasked { IfNone result
            ((n : ℕ) (kind : ErrorKind) → refuses self.new n kind → refuses self.old n kind) }
        ensures books { books self.new ≡ books self.old };

    /// Allocates zero words in any segment, which is a new segment only if the last has no room. It
    /// is refused with `SizeOverflow` exactly when the message's words would exceed 2^29 - 1,
    /// otherwise with the allocator's error; then nothing is allocated.
    fn allocate_anywhere(&mut self, words: u32) -> Result<(SegmentId, u32)>
        ensures last { IfOk result (λ p.
            IsThereOrNew (Self.segments self.old) (room self.old) words p.0) }
        ensures full { OnErr result (LastIsFull (Self.segments self.old) (room self.old) words) }
        ensures ok { IfOk result (λ p. Allocates (words_in (Self.segments self.old))
            (words_in (Self.segments self.new)) p.0 p.1 words) }
        ensures refused { OnErr result (Self.segments self.new ≡ Self.segments self.old) }
        ensures kept { OnErr result (room self.new ≡ room self.old) }
        ensures kind { IfErr result (λ e.
            (e.kind ≡ SizeOverflow) ↔ PassesLimit (Self.segments self.old) words) }
        ensures cause { IfErr result
            (PassesOrRefused (Self.segments self.old) (refuses self.old) words) }
        ensures books { books self.new ≡ books self.old };

    /// Writes a word at a place.
    fn write_word(&mut self, place: Place, word: u64)
        requires { is_some (words_at (words_in (Self.segments self.old)) (place_view place) 1)
            ≡ true }
        ensures words { words_in (Self.segments self.new)
            ≡ with_words (words_in (Self.segments self.old)) (place_view place) (word ∷ []) }
        ensures room { room self.new ≡ room self.old }
        ensures books { books self.new ≡ books self.old };

    /// Writes whole words from a place on.
    fn write_words(&mut self, place: Place, words: &[u8])
        requires whole { 8 * (length words.now / 8) ≡ length words.now }
        requires there { is_some (words_at (words_in (Self.segments self.old)) (place_view place)
            (length words.now / 8)) ≡ true }
        ensures words { words_in (Self.segments self.new)
            ≡ with_words (words_in (Self.segments self.old)) (place_view place)
            (words_in_bytes (length words.now / 8) words.now) }
        ensures room { room self.new ≡ room self.old }
        ensures books { books self.new ≡ books self.old };

    /// Writes n words of zeros from a place on.
    fn zero_words(&mut self, place: Place, count: usize)
        requires { is_some (words_at (words_in (Self.segments self.old)) (place_view place) count)
            ≡ true }
        ensures words { words_in (Self.segments self.new)
            ≡ with_words (words_in (Self.segments self.old)) (place_view place)
            (replicate count 0) }
        ensures room { room self.new ≡ room self.old }
        ensures books { books self.new ≡ books self.old };
}

/// A wrapper around an arena, which lends itself to every builder handle.
#[derive(Drop)]
pub struct Memory<A> {
    pub arena: A,
}
