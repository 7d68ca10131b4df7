//! Laws of clearing: the state after a pointer and everything below it become zero.
//!
//! A caller writes 0 over the pointer, clears the children of its object one after the other, and
//! then zeroes the object's own words and the pointer's pads.
ghost use Rattle.std.specs.Prelude.{◌≡◌, ℕ, ◌+◌, List, Some, Ok};
ghost use Rattle.capnp_model.specs.Segments.{Segments, Place, after, words_at};
ghost use Rattle.capnp_model.specs.Pointers.{a_struct, a_list};
ghost use Rattle.capnp_model.specs.Trees.{Tree, structure, pointer_list, struct_list, Trees, Elements, element_count};
ghost use Rattle.capnp_model.specs.Traversal.{Tag, tag_in};
ghost use Rattle.capnp_model_writes.specs.Footprints.{OwnsObject};

/// The value of an object has its shape. A struct's has its data words, and a list of pointers has
/// children. A list of structs has as many elements as its tag counts.
pub fn shapes_of_objects()
    ensures structs { (n : ℕ) (s : Segments) (p : Place) (d k : ℕ) (t : Tree)
        → OwnsObject n s (a_struct p d k) t
        → (section : ℕ) × (kids : Trees) × (t ≡ structure d section kids) }
    ensures lists { (n : ℕ) (s : Segments) (p : Place) (k : ℕ) (t : Tree)
        → OwnsObject n s (a_list p 6 k) t → (kids : Trees) × (t ≡ pointer_list kids) }
    ensures structs_in_lists { (n : ℕ) (s : Segments) (p : Place) (m : ℕ) (ws : List ℕ)
        (tag : Tag) (t : Tree)
        → words_at s p (1 + m) ≡ Some ws → tag_in ws ≡ Ok tag → OwnsObject n s (a_list p 7 m) t
        → (es : Elements) × (t ≡ struct_list tag.data_words tag.pointers es) ×
        (element_count es ≡ tag.count) }
{}
