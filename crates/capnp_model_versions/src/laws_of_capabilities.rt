//! Laws of values without capabilities, each the contract of a function that does nothing.

ghost use Rattle.std.specs.Prelude.{◌≡◌, ℕ, false, Some, List};
ghost use Rattle.std.specs.List.{AllByRecursion};
ghost use Rattle.capnp_model.specs.Segments.{Segments};
ghost use Rattle.capnp_model.specs.Trees.{Tree, has_capability};
ghost use Rattle.capnp_model.specs.Trimming.{trim};
ghost use Rattle.capnp_model.specs.Schemas.{Node, Schema, default_or_null};
ghost use Rattle.capnp_model.specs.Accepted.{schema_of};
ghost use Rattle.capnp_model.specs.Decoding.{decode};
ghost use Rattle.capnp_model.specs.Calls.{Call};
ghost use Rattle.capnp_model.specs.Edits.{edit};
ghost use Rattle.capnp_model.specs.Answers.{Limits, edits, value_within, opened_root};
ghost use Rattle.capnp_model_versions.specs.Capabilities.{SetsNoCapability};

/// Calls put no capability into a value: if neither the value nor a message that a call sets has a
/// capability, the edited value has none. The node records need not be accepted. Opening a root or
/// trimming doesn't add one either, and a value that node records or calls keep as canonical bytes
/// has none.
pub fn edited_values_without_capabilities()
    ensures one { (nodes : List Node) (id : ℕ) (c : Call) (t : Tree) → SetsNoCapability c.verb
        → has_capability t ≡ false → has_capability (edit (schema_of nodes) id c t) ≡ false }
    ensures all { (nodes : List Node) (id : ℕ) (calls : List Call) (t : Tree)
        → AllByRecursion (λ c. SetsNoCapability c.verb) calls → has_capability t ≡ false
        → has_capability (edits (schema_of nodes) id calls t) ≡ false }
    ensures opened { (s : Schema) (id : ℕ) (t : Tree) → has_capability t ≡ false
        → has_capability (opened_root s id t) ≡ false }
    ensures kept { (bytes : List ℕ) → has_capability (default_or_null (decode bytes)) ≡ false }
    ensures trimmed { (t : Tree) → has_capability t ≡ false → has_capability (trim t) ≡ false }
{}

/// The value of a message within a relay's limits, opened as the root and edited by calls that set
/// no capability, has none.
pub fn relayed_values_without_capabilities()
    ensures { (nodes : List Node) (id : ℕ) (calls : List Call) (limits : Limits)
        (segments : Segments) (t : Tree) → AllByRecursion (λ c. SetsNoCapability c.verb) calls
        → value_within limits segments ≡ Some t → has_capability
        (edits (schema_of nodes) id calls (opened_root (schema_of nodes) id t)) ≡ false }
{}
