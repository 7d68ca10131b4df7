//! Laws of the depths of values, and of the levels with which they are read.
ghost use Rattle.std.specs.Prelude.{ℕ, suc, ◌+◌, ◌≤◌};
ghost use Rattle.capnp_model.specs.Segments.{Segments, Place};
ghost use Rattle.capnp_model.specs.Pointers.{Object};
ghost use Rattle.capnp_model.specs.Trees.{Tree, depth};
ghost use Rattle.capnp_model_writes.specs.Footprints.{Owns, OwnsObject};
ghost use Rattle.capnp_model_writes.specs.Changes.{Replaces, ReplacesObject};
ghost use Rattle.capnp_model_writes.specs.Totals.{words_of_segments};

/// A value that takes no word twice is not deeper than the segments have words, because each
/// pointer on the way down is a word of its own. An object, to which no pointer is counted, may be
/// one level deeper, as an empty struct is if there are no words.
pub fn depths_of_owned_values()
    ensures values { (n : ℕ) (s : Segments) (p : Place) (t : Tree) → Owns n s p t
        → depth t ≤ words_of_segments s }
    ensures objects { (n : ℕ) (s : Segments) (o : Object) (t : Tree) → OwnsObject n s o t
        → depth t ≤ 1 + words_of_segments s }
{}

/// A value is owned with any levels that are at least its depth. A change is a change with any
/// levels that are at least the depths of the old and the new value. For an object its pointers are
/// read, so one level less is enough for it.
pub fn changes_with_fewer_levels()
    ensures owned { (n m : ℕ) (s : Segments) (p : Place) (t : Tree) → depth t ≤ m → Owns n s p t
        → Owns m s p t }
    ensures replaced { (n m : ℕ) (s u : Segments) (p : Place) (t v : Tree) → depth t ≤ m
        → depth v ≤ m → Owns n s p t → Replaces n s u p v → Replaces m s u p v }
    ensures object_owned { (n m : ℕ) (s : Segments) (o : Object) (t : Tree) → depth t ≤ suc m
        → OwnsObject n s o t → OwnsObject m s o t }
    ensures object_replaced { (n m : ℕ) (s u : Segments) (o : Object) (t v : Tree)
        → depth t ≤ suc m → depth v ≤ suc m → OwnsObject n s o t → ReplacesObject n s u o v
        → ReplacesObject m s u o v }
{}
