//! Laws of calls: the record machine and the edits of values are one. Each is the contract of a
//! function that does nothing.

ghost use Rattle.std.specs.Prelude.{◌≡◌, ℕ, ◌*◌, ◌^◌, ◌<◌, true, false, List, [], ◌∷◌, Option};
ghost use Rattle.capnp_model.specs.Trees.{Tree, structure, Trees, tree_count};
ghost use Rattle.capnp_model.specs.Trimming.{trim};
ghost use Rattle.capnp_model.specs.InKind.{in_kind};
ghost use Rattle.capnp_model.specs.Schemas.{Ty, struct, Node, Shape, group_slot, Schema};
ghost use Rattle.capnp_model.specs.Readings.{Record, record_of};
ghost use Rattle.capnp_model.specs.Printing.{fields_in};
ghost use Rattle.capnp_model.specs.Calls.{set_to, message, Call, object};
ghost use Rattle.capnp_model.specs.Steps.{done, step};
ghost use Rattle.capnp_model.specs.Edits.{Cell, mark, group_writes, after_writes, IsBegun, put_in_element, edit_field, edit};
ghost use Rattle.capnp_model.specs.NamedPaths.{IsInRange, IsOpen, GoesByNames};
ghost use Rattle.capnp_model.specs.CallRuns.{IsStart, view_of_value, records_after, record_replies};
ghost use Rattle.capnp_model.specs.Views.{SameAll};
ghost use Rattle.capnp_model.specs.Answers.{replies, edits, opened_root};
ghost use Rattle.capnp_model.specs.Accepted.{Area, are_apart, areas_of, IsAccepted, schema_of};

/// The record of an edited value is what the record machine makes of the record, for calls along
/// names that end at a slot.
pub fn records_of_edited_values()
    ensures { (nodes : List Node) → IsAccepted nodes → (id : ℕ)
        → (schema_of nodes).is_group id ≡ false → (c : Call) → IsInRange c.verb
        → GoesByNames (schema_of nodes) (fields_in ((schema_of nodes).shape_of id)) c.path
        → (t : Tree) → IsOpen t → (r : Record)
        → step (schema_of nodes) id c (record_of (schema_of nodes) id t) ≡ done r
        → record_of (schema_of nodes) id (edit (schema_of nodes) id c t) ≡ r }
{}

/// The record of an edited value is what the record machine makes of the record, for every call;
/// the next calls can start from the value.
pub fn records_after_one_call()
    ensures reads { (nodes : List Node) (id : ℕ) (c : Call) (calls : List Call) (t : Tree)
        → IsStart nodes id (c ∷ calls) t → (r : Record)
        → step (schema_of nodes) id c (record_of (schema_of nodes) id t) ≡ done r
        → record_of (schema_of nodes) id (edit (schema_of nodes) id c t) ≡ r }
    ensures next { (nodes : List Node) (id : ℕ) (c : Call) (calls : List Call) (t : Tree)
        → IsStart nodes id (c ∷ calls) t → IsStart nodes id calls (edit (schema_of nodes) id c t) }
{}

/// Calls one after the other give the value whose record they make of the record, and the replies
/// that they give at the records. The next calls can start from it.
pub fn records_after_calls()
    ensures reads { (nodes : List Node) (id : ℕ) (calls : List Call) (t : Tree)
        → IsStart nodes id calls t
        → record_of (schema_of nodes) id (edits (schema_of nodes) id calls t)
        ≡ records_after (schema_of nodes) id calls (record_of (schema_of nodes) id t) }
    ensures replied { (nodes : List Node) (id : ℕ) (quoted : List ℕ → List ℕ) (calls : List Call)
        (t : Tree) → IsStart nodes id calls t
        → replies (schema_of nodes) quoted id calls t
        ≡ record_replies (schema_of nodes) quoted id calls (record_of (schema_of nodes) id t) }
    ensures next { (nodes : List Node) (id : ℕ) (calls : List Call) (t : Tree)
        → IsStart nodes id calls t → IsStart nodes id [] (edits (schema_of nodes) id calls t) }
{}

/// Bits and pointers of the root that its schema does not name stay, whatever the calls.
pub fn root_beside_its_schema()
    ensures { (nodes : List Node) (id : ℕ) (calls : List Call) (t : Tree)
        → IsStart nodes id calls t → (areas : List Area)
        → are_apart (areas_of ((schema_of nodes).shape_of id)) areas ≡ true
        → SameAll areas (view_of_value (schema_of nodes) t)
        (view_of_value (schema_of nodes) (edits (schema_of nodes) id calls t)) }
{}

/// The output after the calls on a message's value reads as the result of the calls on the record
/// of that value.
pub fn records_of_written_values()
    ensures kinds { (s : Schema) (t : Tree) (ty : Ty) → in_kind s (trim t) ty ≡ in_kind s t ty }
    ensures start { (nodes : List Node) (id : ℕ) (calls : List Call) (t : Tree)
        → IsStart nodes id calls t → IsStart nodes id calls (opened_root (schema_of nodes) id t) }
    ensures reads { (nodes : List Node) (id : ℕ) (calls : List Call) (t : Tree)
        → IsStart nodes id calls t → record_of (schema_of nodes) id
        (trim (edits (schema_of nodes) id calls (opened_root (schema_of nodes) id t)))
        ≡ records_after (schema_of nodes) id calls (record_of (schema_of nodes) id t) }
    ensures replied { (nodes : List Node) (id : ℕ) (quoted : List ℕ → List ℕ) (calls : List Call)
        (t : Tree) → IsStart nodes id calls t
        → replies (schema_of nodes) quoted id calls (opened_root (schema_of nodes) id t)
        ≡ record_replies (schema_of nodes) quoted id calls (record_of (schema_of nodes) id t) }
{}

/// A group that is set to a struct is the last beginning of its writes; the first write marks the
/// union.
pub fn groups_set_by_writes()
    ensures whole { (s : Schema) (union member : Option ℕ) (g : Shape) (words : ℕ) (from c : Cell)
        → edit_field s [] (set_to (message (structure words from.section from.kids))) union member
        (group_slot g) c ≡ after_writes (group_writes s g (mark union member) from) c }
    ensures begun { (s : Schema) (union member : Option ℕ) (g : Shape) (words : ℕ) (from c : Cell)
        → IsBegun s union member g from c
        (edit_field s [] (set_to (message (structure words from.section from.kids))) union member
        (group_slot g) c) }
{}

/// A struct put into an element of a list has exactly the words and the pointers of the list's
/// elements.
pub fn structs_in_elements_are_cut()
    ensures words { (words pointers id w section : ℕ) (kids : Trees) (c : Cell)
        → (put_in_element words pointers (struct id) (object (structure w section kids))
        c).section < 2 ^ (64 * words) }
    ensures pointers { (words pointers id w section : ℕ) (kids : Trees) (c : Cell)
        → tree_count
        (put_in_element words pointers (struct id) (object (structure w section kids)) c).kids
        ≡ pointers }
{}
