//! Laws of the results of calls, each the contract of a function that does nothing.

ghost use Rattle.std.specs.Prelude.{◌≡◌, ℕ, ◌≤◌, List, max};
ghost use Rattle.std.specs.List.{AllByRecursion};
ghost use Rattle.capnp_model.specs.Trees.{Tree, depth};
ghost use Rattle.capnp_model.specs.Schemas.{Node};
ghost use Rattle.capnp_model.specs.Readings.{Record, record_as, record_of};
ghost use Rattle.capnp_model.specs.Printing.{fields_in};
ghost use Rattle.capnp_model.specs.Calls.{Step, Call};
ghost use Rattle.capnp_model.specs.Steps.{done, step};
ghost use Rattle.capnp_model.specs.ActiveMembers.{IsActiveAt, Spares};
ghost use Rattle.capnp_model.specs.Edits.{edit};
ghost use Rattle.capnp_model.specs.EditDepths.{call_depth};
ghost use Rattle.capnp_model.specs.Accepted.{IsAccepted, schema_of};
ghost use Rattle.capnp_model.specs.Answers.{edits};

/// A call leaves a value no deeper than the value was, or than its path, its own value and the
/// defaults on the way allow. So do calls in turn.
pub fn depths_of_edited_values()
    ensures one { (nodes : List Node) (id : ℕ) (c : Call) (t : Tree)
        → depth (edit (schema_of nodes) id c t) ≤ max (depth t) (call_depth c) }
    ensures all { (nodes : List Node) (id k : ℕ) (calls : List Call) (t : Tree)
        → AllByRecursion (λ c. call_depth c ≤ k) calls
        → depth (edits (schema_of nodes) id calls t) ≤ max (depth t) k }
{}

/// A path leads to the same place after a call that spares it. So a union member stays active, also
/// one that only a newer schema has. A call doesn't spare a path if it writes a member of that
/// union, or a group, a pointer or a list's element that holds the place.
pub fn members_that_stay_active()
    ensures { (nodes : List Node) → IsAccepted nodes
        → (id : ℕ) (c : Call) (t : Tree) (r : Record) (way : List Step)
        → step (schema_of nodes) id c (record_of (schema_of nodes) id t) ≡ done r
        → Spares (schema_of nodes) c.path way (fields_in ((schema_of nodes).shape_of id))
        → IsActiveAt way (record_as (record_of (schema_of nodes) id t))
        → IsActiveAt way (record_as r) }
{}
