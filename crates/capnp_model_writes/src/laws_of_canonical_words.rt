//! Laws of canonical words.
ghost use Rattle.std.specs.Prelude.{◌≡◌, ℕ, ◌^◌, ◌≤◌, List, [], ◌∷◌, ◌++◌, length, Some};
ghost use Rattle.std.specs.List.{slice_get};
ghost use Rattle.capnp_model.specs.Segments.{Segments, Place, root};
ghost use Rattle.capnp_model.specs.Trees.{Tree, depth};
ghost use Rattle.capnp_model.specs.Fits.{Fits};
ghost use Rattle.capnp_model.specs.Trimming.{trim};
ghost use Rattle.capnp_model.specs.Coverage.{span, times_held};
ghost use Rattle.capnp_model.specs.Encoding.{canonical_words};
ghost use Rattle.capnp_model_writes.specs.Footprints.{footprint, Owns};
ghost use Rattle.capnp_model_writes.specs.Totals.{words_of_segments};

/// If a first segment begins with the canonical words of a value, its root has the value, which
/// takes each of these words once, and no other word. So a message of canonical words can be edited
/// in place.
pub fn canonical_words_in_place()
    ensures owned { (t : Tree) (n : ℕ) (s : Segments) (more : List ℕ) → Fits t → depth t ≤ n
        → length (canonical_words t) ≤ 2 ^ 29 → slice_get s 0 ≡ Some (canonical_words t ++ more)
        → Owns n s root t }
    ensures takes { (t : Tree) (n : ℕ) (s : Segments) (more : List ℕ) (q : Place) → Fits t
        → depth t ≤ n → length (canonical_words t) ≤ 2 ^ 29
        → slice_get s 0 ≡ Some (canonical_words t ++ more)
        → footprint n s root q ≡ times_held (span root (length (canonical_words t)) ∷ []) q }
{}

/// The canonical words of a value that takes no word twice are at most as many as the segments'
/// words, and so are those of the trimmed value. So it can be written again into as many words.
pub fn lengths_of_canonical_words()
    ensures whole { (n : ℕ) (s : Segments) (p : Place) (t : Tree) → Owns n s p t
        → length (canonical_words t) ≤ words_of_segments s }
    ensures trimmed { (n : ℕ) (s : Segments) (p : Place) (t : Tree) → Owns n s p t
        → length (canonical_words (trim t)) ≤ words_of_segments s }
{}
