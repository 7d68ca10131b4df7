//! Laws of calls, each the contract of a function that does nothing.
ghost use Rattle.std.specs.Prelude.{◌≡◌, false, List, map};
ghost use Rattle.capnp_model.specs.CallRuns.{AreGiven};
ghost use Rattle.capnp_values_queries.specs.declared.structs.StructSchema.{StructSchema};
ghost use Rattle.capnp_calls.specs.declared.call.Call.{Call};
ghost use Rattle.capnp_calls.specs.CallViews.{call_view};
ghost use Rattle.capnp_values_queries.specs.Structs.{schema_around, id_of};
ghost use Rattle.capnp_calls.specs.Roots.{IsRoot};

/// The values that calls set are values of their sorts.
pub fn calls_are_given()
    ensures { (root : StructSchema) (calls : List Call) → AreGiven (map call_view calls) }
{}

/// A root, as a set finds a struct by its id, is not a group.
pub fn roots_are_no_groups()
    ensures { (root : StructSchema) → IsRoot root
        → (schema_around root).is_group (id_of root) ≡ false }
{}
