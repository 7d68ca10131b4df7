//! Laws of writing, each the contract of a function that does nothing.
//!
//! A caller that changes a value deep inside another goes down from the root by the clauses `down`,
//! to the words of the part. The clauses `up` lead back with the change.
ghost use Rattle.std.specs.Prelude.{◌≡◌, ℕ, suc, ◌<◌, ◌≤◌, length, Ok};
ghost use Rattle.capnp_model.specs.Segments.{Segments, Place, after};
ghost use Rattle.capnp_model.specs.Pointers.{Object, a_struct, Found, found_at};
ghost use Rattle.capnp_model.specs.Trees.{Tree, structure, Trees, none, child, with_child};
ghost use Rattle.capnp_model_writes.specs.Footprints.{footprint, Owns, OwnsObject};
ghost use Rattle.capnp_model_writes.specs.Changes.{Replaces, ReplacesObject, ZeroBeside};
ghost use Rattle.capnp_model_writes.specs.Writes.{with_zeros};

/// A value may be replaced again and again; afterwards no word of it is taken twice, and the other
/// words that were zero are still zero.
pub fn changes_of_values()
    ensures none { (n : ℕ) (s : Segments) (p : Place) (t : Tree) → Owns n s p t
        → Replaces n s s p t }
    ensures again { (n : ℕ) (s u v : Segments) (p : Place) (t w : Tree) → Replaces n s u p t
        → Replaces n u v p w → Replaces n s v p w }
    ensures owned { (n : ℕ) (s u : Segments) (p : Place) (t v : Tree) → Owns n s p t
        → Replaces n s u p v → Owns n u p v }
    ensures zeros { (n : ℕ) (s u : Segments) (p : Place) (v : Tree) → Replaces n s u p v
        → ZeroBeside s (footprint n s p) → ZeroBeside u (footprint n u p) }
    ensures grown { (n : ℕ) (s : Segments) (p : Place) (t : Tree) (i k : ℕ) → i ≤ length s
        → Owns n s p t → Replaces n s (with_zeros s i k) p t }
{}

/// A property that holds with n levels holds with more levels.
pub fn changes_with_more_levels()
    ensures owned { (n m : ℕ) (s : Segments) (p : Place) (t : Tree) → n ≤ m → Owns n s p t
        → Owns m s p t }
    ensures replaced { (n m : ℕ) (s u : Segments) (p : Place) (t v : Tree) → n ≤ m → Owns n s p t
        → Replaces n s u p v → Replaces m s u p v }
{}

/// A property of an object's change that holds with n levels holds with more levels.
pub fn changes_of_objects()
    ensures again { (n : ℕ) (s u v : Segments) (o : Object) (t w : Tree) → ReplacesObject n s u o t
        → ReplacesObject n u v o w → ReplacesObject n s v o w }
    ensures owned { (n : ℕ) (s u : Segments) (o : Object) (t v : Tree) → OwnsObject n s o t
        → ReplacesObject n s u o v → OwnsObject n u o v }
{}

/// From a pointer to its object, near or far, and back: the object's new value is the pointer's.
pub fn objects_of_pointers()
    ensures down { (n : ℕ) (s : Segments) (p : Place) (f : Found) (t : Tree) → found_at s p ≡ Ok f
        → Owns (suc n) s p t → OwnsObject n s f.object t }
    ensures up { (n : ℕ) (s u : Segments) (p : Place) (f : Found) (t v : Tree) → found_at s p ≡ Ok f
        → Owns (suc n) s p t → ReplacesObject n s u f.object v → Replaces (suc n) s u p v }
{}

/// From a struct to one of its children, and back.
pub fn children_of_structs()
    ensures down { (n : ℕ) (s : Segments) (p : Place) (d k i w section : ℕ) (kids : Trees) → i < k
        → OwnsObject n s (a_struct p d k) (structure w section kids)
        → Owns n s (after (after p d) i) (child kids i) }
    ensures up { (n : ℕ) (s u : Segments) (p : Place) (d k i w section : ℕ) (kids : Trees)
        (t : Tree)
        → i < k → OwnsObject n s (a_struct p d k) (structure w section kids)
        → Replaces n s u (after (after p d) i) t
        → ReplacesObject n s u (a_struct p d k) (structure w section (with_child kids i t)) }
{}
