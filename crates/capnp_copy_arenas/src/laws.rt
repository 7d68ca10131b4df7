//! Laws for callers that build, each the contract of a function that does nothing.
ghost use Rattle.std.specs.Prelude.{◌≡◌, ℕ, suc, ◌+◌, ◌<◌, ◌≤◌, Ok, length, map, true};
ghost use Rattle.std.specs.Option.{is_some};
ghost use Rattle.capnp_model.specs.Segments.{Segments, Place, after, words_at};
ghost use Rattle.capnp_model.specs.Pointers.{Object, a_struct, Found, found_at};
ghost use Rattle.capnp_model.specs.Trees.{Tree, structure, Trees, with_child};
ghost use Rattle.capnp_model_writes.specs.Footprints.{Owns};
ghost use Rattle.capnp_model_writes.specs.Changes.{Replaces, ReplacesObject};

use capnp_model_writes::laws::{children_of_structs, objects_of_pointers};

/// A change to the object of a struct's pointer is the same change to the value of the pointer to
/// the struct, whether that pointer is near or far.
pub fn changes_two_pointers_deep()
    ensures { (n : ℕ) (s u : Segments) (p q : Place) (pads d k i w section : ℕ) (kids : Trees)
        (inner : Found) (v : Tree)
        → found_at s p ≡ Ok (record { pads = pads; object = a_struct q d k }) → i < k
        → found_at s (after (after q d) i) ≡ Ok inner
        → Owns (suc (suc n)) s p (structure w section kids) → ReplacesObject n s u inner.object v
        → Replaces (suc (suc n)) s u p (structure w section (with_child kids i v)) }
{
    objects_of_pointers();
    children_of_structs();
}

/// Words that exist remain if no segment changes its length.
pub fn words_that_stay()
    ensures { (s u : Segments) (p : Place) (n : ℕ) → map length u ≡ map length s
        → is_some (words_at s p n) ≡ true → is_some (words_at u p n) ≡ true }
{}

/// If words exist, those of a part exist.
pub fn words_in_part()
    ensures behind { (s : Segments) (p : Place) (i n m : ℕ) → i + n ≤ m
        → is_some (words_at s p m) ≡ true → is_some (words_at s (after p i) n) ≡ true }
    ensures front { (s : Segments) (p : Place) (n m : ℕ) → n ≤ m
        → is_some (words_at s p m) ≡ true → is_some (words_at s p n) ≡ true }
{}
