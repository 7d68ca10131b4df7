//! Laws of canonical copies, each the contract of a function that does nothing.
ghost use Rattle.std.specs.Prelude.{ℕ, List, Ok};
ghost use Rattle.capnp_model.specs.Segments.{Segments, Place};
ghost use Rattle.capnp_model.specs.Trees.{Tree};
ghost use Rattle.capnp_units.specs.declared.limiter.ReadLimiter.{ReadLimiter};
ghost use Rattle.capnp_model_writes.specs.Footprints.{Owns};
ghost use Rattle.capnp_wire.specs.Views.{StructView, ListView};
ghost use Rattle.capnp_layout_builders.specs.Copied.{SetsStruct, SetsList};
ghost use Rattle.capnp_layout_canonical.specs.Scratch.{level_above, ThroughScratch, PutsStruct, PutsList};

use capnp_copy_values::laws::values_after_copies;
use capnp_model::laws::values_as_a_relation;

/// If no word of the scratch's old value was taken twice, a copy that uses the scratch is exactly
/// the source's value, trimmed, and has no capability. No word of null's value is taken twice.
pub fn values_by_way_of_scratches()
    ensures structs { (v : StructView) (b d : Segments) (k : Place) (lent after : List (List ℕ))
        (s u : Segments) (p : Place) (old new : ReadLimiter) (n : ℕ) (t : Tree) → Owns n b k t
        → ThroughScratch (SetsStruct v b d k) (level_above v.levels)
        (record { words = d; slot = k; lent = lent; after = after })
        (record { old = s; new = u; slot = p }) old (Ok tt) new → PutsStruct v s u p }
    ensures lists { (v : ListView) (b d : Segments) (k : Place) (lent after : List (List ℕ))
        (s u : Segments) (p : Place) (old new : ReadLimiter) (n : ℕ) (t : Tree) → Owns n b k t
        → ThroughScratch (SetsList v b d k) (level_above v.levels)
        (record { words = d; slot = k; lent = lent; after = after })
        (record { old = s; new = u; slot = p }) old (Ok tt) new → PutsList v s u p }
{
    values_as_a_relation();
    values_after_copies();
}
