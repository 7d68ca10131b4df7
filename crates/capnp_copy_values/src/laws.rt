//! Laws of copies, each the contract of a function that does nothing.
ghost use Rattle.std.specs.Prelude.{ℕ, ◌+◌};
ghost use Rattle.capnp_model.specs.Segments.{Segments, Place};
ghost use Rattle.capnp_model.specs.Trees.{Tree};
ghost use Rattle.capnp_model_writes.specs.Footprints.{Owns};
ghost use Rattle.capnp_model_writes.specs.Changes.{Replaces};
ghost use Rattle.capnp_copy_values.specs.Copies.{BecomesCopy, GrowsByZeros};

/// A value that a copy replaces is replaced, however few levels it has; a value that a refused copy
/// leaves is unchanged.
pub fn values_after_copies()
    ensures copied { (levels n : ℕ) (s u : Segments) (p : Place) (t v : Tree)
        → BecomesCopy levels s u p v → Owns n s p t → Replaces (n + levels) s u p v }
    ensures refused { (n : ℕ) (s u : Segments) (p : Place) (t : Tree)
        → GrowsByZeros s u → Owns n s p t → Replaces n s u p t }
{}
