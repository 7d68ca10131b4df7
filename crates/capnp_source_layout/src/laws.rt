//! Laws of the definitions.

ghost use Rattle.std.specs.Prelude.{◌≡◌, ℕ, ◌≤◌, ◌+◌, ◌/◌, ◌^◌, ◌==◌, ◌++◌, List, Option, map, length, if◌then◌else◌};
ghost use Rattle.capnp_source_layout.specs.Holes.{place, free};
ghost use Rattle.capnp_source_layout.specs.Sections.{size_of, offsets_of, free_behind, fields_at};
ghost use Rattle.capnp_source_layout.specs.declared.sections.DataSize.{DataSize};

/// A place that is taken was free once more than it is then. All other places are as free as before.
pub fn takes_what_was_free()
    ensures { (size words : ℕ) (holes : List (Option ℕ)) (bit : ℕ) → size ≤ length holes
        → free words holes bit
        ≡ (if (bit / 2 ^ size) == (place size words holes).offset then 1 else 0)
        + free (place size words holes).words (place size words holes).holes bit }
{}

/// Each bit is in one field, or is free once. So no two fields overlap, and all are in the section.
pub fn each_bit_once()
    ensures { (sizes : List DataSize) (bit : ℕ)
        → fields_at (map size_of sizes) (offsets_of sizes) bit + free_behind sizes bit ≡ 1 }
{}

/// Fields that are added at the end leave all others where they are.
pub fn added_fields_move_none()
    ensures { (sizes added : List DataSize)
        → (offsets : List ℕ) × (offsets_of (sizes ++ added) ≡ offsets_of sizes ++ offsets) }
{}
