//! Laws of elements, each the contract of a function that does nothing.
//!
//! A caller that writes into an element gets the element's struct or pointer from the list by
//! `parts`, and by the same law returns with the change to the list.
ghost use Rattle.std.specs.Prelude.{ℕ, ◌<◌};
ghost use Rattle.capnp_model.specs.Edits.{Edit, put_child};
ghost use Rattle.capnp_model.specs.Segments.{Segments};
ghost use Rattle.capnp_model.specs.Trees.{Tree};
ghost use Rattle.capnp_wire_objects.specs.Objects.{AreThere};
ghost use Rattle.capnp_wire_objects.specs.declared.place.Place as code;
ghost use Rattle.capnp_wire_objects.specs.Places.{place_view};
ghost use Rattle.capnp_model_writes.specs.Footprints.{OwnsObject};
ghost use Rattle.capnp_copy_arenas.specs.Lists.{object_of_list};
ghost use Rattle.capnp_copy_arenas.specs.Values.{Becomes};
ghost use Rattle.capnp_copy_arenas.specs.declared.fields.StructPlace.{StructPlace};
ghost use Rattle.capnp_copy_arenas.specs.declared.init.ListPlace.{ListPlace};
ghost use Rattle.capnp_schema_structs.specs.Edits.{IsThere, Edits};
ghost use Rattle.capnp_schema_structs.specs.Puts.{Deepens};
ghost use Rattle.capnp_schema_lists.specs.Lists.{IsListThere, IsListOf, HasPointer, EditsElement, DeepensElement};
ghost use Rattle.capnp_schema_lists.specs.Parts.{IsElementStruct, IsPointerOf};
ghost use Rattle.capnp_schema_lists.specs.Places.{IsStructAt, IsElementPointer};

/// An element of a list of structs is a struct at its place, and a change to this struct is a
/// change to the element.
pub fn elements_as_structs()
    ensures there { (s : Segments) (o : ListPlace) (i : ℕ) (p : StructPlace) → i < o.count
        → IsStructAt o i p → IsListThere s o → IsThere s p }
    ensures parts { (n : ℕ) (s : Segments) (o : ListPlace) (i : ℕ) (p : StructPlace) (t : Tree)
        → i < o.count → IsStructAt o i p → IsListOf o t → OwnsObject n s (object_of_list o) t
        → IsElementStruct n s o i p t }
    ensures edits { (s u : Segments) (o : ListPlace) (i : ℕ) (p : StructPlace) (f : ℕ → ℕ → Edit)
        → i < o.count → IsStructAt o i p → Edits s u p (f p.data_words p.pointers)
        → EditsElement s u o f i }
    ensures deepens { (s u : Segments) (o : ListPlace) (i : ℕ) (p : StructPlace) (f : ℕ → ℕ → Edit)
        → i < o.count → IsStructAt o i p → Deepens s u p (f p.data_words p.pointers)
        → DeepensElement s u o f i }
{}

/// A change to the value of an element's pointer is a change to the element's first child.
pub fn elements_as_pointers()
    ensures there { (s : Segments) (o : ListPlace) (i : ℕ) (q : code.Place) → HasPointer o
        → i < o.count → IsElementPointer o i q → IsListThere s o → AreThere s (place_view q) 1 }
    ensures parts { (n : ℕ) (s : Segments) (o : ListPlace) (i : ℕ) (q : code.Place) (t : Tree)
        → HasPointer o → i < o.count → IsElementPointer o i q → IsListThere s o → IsListOf o t
        → OwnsObject n s (object_of_list o) t → IsPointerOf n s o i q t }
    ensures deepens { (s u : Segments) (o : ListPlace) (i : ℕ) (q : code.Place) (v : Tree)
        → HasPointer o → i < o.count → IsElementPointer o i q → IsListThere s o
        → Becomes s u (place_view q) v → DeepensElement s u o (λ words pointers. put_child 0 v) i }
{}
