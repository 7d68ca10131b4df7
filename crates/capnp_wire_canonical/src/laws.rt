//! Laws of copies, each the contract of an empty function: a call of it brings its clauses.
ghost use Rattle.std.specs.Prelude.{◌≡◌, ℕ, ◌+◌, ◌≤◌, true, false, List, [], ◌∷◌, ◌++◌, length, Some, Ok};
ghost use Rattle.std.specs.List.{flat_map};
ghost use Rattle.capnp_model.specs.Segments.{Segments, Place, root};
ghost use Rattle.capnp_model.specs.Canonical.{is_canonical_message};
ghost use Rattle.capnp_model.specs.Encoding.{canonical_words};
ghost use Rattle.capnp_model.specs.Trees.{Tree, has_capability};
ghost use Rattle.capnp_model.specs.Traversal.{tree_at};
ghost use Rattle.capnp_model.specs.Visits.{Visit, visits, visits_cost};
ghost use Rattle.capnp_units.specs.Segments.{words_in};
ghost use Rattle.capnp_wire_canonical.specs.Reaches.{reach};
ghost use Rattle.capnp_wire_canonical.specs.Writes.{filled, words_view};
ghost use Rattle.capnp_wire_canonical.specs.Copies.{copy_visits, CopyState, WritesCopy};
ghost use Rattle.capnp_wire_canonical.specs.Objects.{canonical_copy};
ghost use Rattle.capnp_wire_canonical.specs.Standing.{Hold, Stands};

use capnp_units::sizes::Word;

/// A copy of a value without a capability follows the same pointers, and pays the same words, as
/// any walk over the value.
pub fn copies_as_walks()
    ensures { (levels : ℕ) (s : Segments) (p : Place) (t : Tree) → tree_at levels s p ≡ Some t
        → has_capability t ≡ false → copy_visits levels s p ≡ visits levels s p }
{}

/// A value is laid out at a pointer, with its head at the next word, exactly if its canonical words
/// are there, up to their end.
pub fn standing_is_canonical()
    ensures words { (s : Segments) (p : Place) (t : Tree) (end : ℕ)
        → Stands s p (p.position + 1) t end → Hold s p (canonical_words t)
        × (end ≡ p.position + length (canonical_words t)) }
    ensures stand { (s : Segments) (p : Place) (t : Tree) → Hold s p (canonical_words t)
        → Stands s p (p.position + 1) t (p.position + length (canonical_words t)) }
{}

/// The canonical copy of a message that is canonical is its one segment again.
pub fn canonical_messages_are_copies()
    ensures { (n : ℕ) (s : Segments) (old : CopyState) (end : ℕ) (new : CopyState)
        → is_canonical_message n s ≡ true
        → WritesCopy (canonical_copy (reach n s) root) old (Ok end) new
        → s ≡ filled end new.words ∷ [] }
{}

/// A canonical copy follows at most one pointer more than it pays words, even if it is stopped.
pub fn copies_follow_few()
    ensures begun { (n : ℕ) (s : Segments) (p : Place) (path rest : List Visit) (paid : ℕ)
        → copy_visits n s p ≡ path ++ rest → visits_cost path ≡ Some paid
        → length path ≤ paid + 1 }
    ensures stopped { (n : ℕ) (s : Segments) (p : Place) (before : List Visit) (last : Visit)
        (behind : List Visit) (paid : ℕ) → copy_visits n s p ≡ before ++ last ∷ behind
        → visits_cost before ≡ Some paid → length before + 1 ≤ paid + 1 }
{}

/// The bytes of words, as a segment, are the words.
pub fn segments_of_words(words: &[Word])
    ensures { words_in (flat_map (λ word. word) words.now ∷ []) ≡ words_view words.now ∷ [] }
{}
