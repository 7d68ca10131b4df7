//! Laws of versions, each the contract of a function that does nothing.

ghost use Rattle.std.specs.Prelude.{◌≡◌, ℕ, List};
ghost use Rattle.capnp_model.specs.Segments.{Segments};
ghost use Rattle.capnp_model.specs.Trees.{Tree};
ghost use Rattle.capnp_model.specs.Trimming.{trim};
ghost use Rattle.capnp_model.specs.Fits.{Fits};
ghost use Rattle.capnp_model.specs.Schemas.{Node};
ghost use Rattle.capnp_model.specs.Calls.{Call};
ghost use Rattle.capnp_model.specs.Steps.{step, outcome_map};
ghost use Rattle.capnp_model.specs.Edits.{edit};
ghost use Rattle.capnp_model.specs.Accepted.{schema_of};
ghost use Rattle.capnp_model.specs.CallRuns.{IsStart, records_after, record_replies};
ghost use Rattle.capnp_model.specs.Answers.{edits, replies};
ghost use Rattle.capnp_model_versions.specs.Whole.{IsWhole};
ghost use Rattle.capnp_model_versions.specs.StructElements.{SetsNoStructElement, SetNoStructElements};
ghost use Rattle.capnp_model_versions.specs.Roots.{IsRootInKind};
ghost use Rattle.capnp_model_versions.specs.SameReplies.{SameReplies};
ghost use Rattle.capnp_model_versions.specs.TwoVersions.{TwoVersions, older, newer, newer_record, older_view, CanEdit, CanStep, CanRun};
ghost use Rattle.capnp_model_versions.specs.OwnOutput.{WritesFitting, HaveFewWords};
ghost use Rattle.capnp_model_versions.specs.TwoRelays.{TwoRelays, first, second, joined_relay, RelayWrites, CanRelay, HasShortCalls};

/// In a value that fits its spelling every section is within its words.
pub fn fitting_values_are_whole()
    ensures { (t : Tree) → Fits t → IsWhole t }
{}

/// Trimming a struct before or after a call gives one trimmed value, if lists are in kind and the
/// call sets no whole struct element.
pub fn edits_of_trimmed_values()
    ensures { (nodes : List Node) (id : ℕ) (c : Call) (t : Tree)
        → SetsNoStructElement (schema_of nodes) id c → IsRootInKind nodes id t
        → trim (edit (schema_of nodes) id c (trim t)) ≡ trim (edit (schema_of nodes) id c t) }
{}

/// Trimming a struct before or after calls gives one trimmed value, if lists are in kind and no
/// call sets a whole struct element.
pub fn calls_at_trimmed_values()
    ensures { (nodes : List Node) (id : ℕ) (calls : List Call) (t : Tree)
        → SetNoStructElements (schema_of nodes) id calls → IsWhole t → IsStart nodes id calls t
        → trim (edits (schema_of nodes) id calls (trim t))
        ≡ trim (edits (schema_of nodes) id calls t) }
{}

/// Two relays in a row write the words of one relay with the joined calls, if
/// - the message is written by both;
/// - the first relay's calls hold no list that is too long, and it writes at most 2^29 words; or
///   its output fits its spelling.
pub fn relays_in_a_row()
    ensures by_words { (r : TwoRelays) (message one two both : Segments) → CanRelay r message
        → HasShortCalls r → HaveFewWords one
        → RelayWrites (first r) message one → RelayWrites (second r) one two
        → RelayWrites (joined_relay r) message both → two ≡ both }
    ensures by_values { (r : TwoRelays) (message one two both : Segments) → CanRelay r message
        → WritesFitting (first r) message
        → RelayWrites (first r) message one → RelayWrites (second r) one two
        → RelayWrites (joined_relay r) message both → two ≡ both }
{}

/// An admitted call leaves one trimmed value under an older schema and under a compatible newer
/// one.
pub fn edits_across_versions()
    ensures { (v : TwoVersions) (c : Call) (t : Tree) → CanEdit v c t
        → trim (edit (older v) v.older_root c t) ≡ trim (edit (newer v) v.newer_root c t) }
{}

/// At the older view of a newer record the older machine gives the older view of the newer
/// machine's outcome, for admitted calls other than `get`.
pub fn steps_across_versions()
    ensures { (v : TwoVersions) (c : Call) (t : Tree) → CanStep v c
        → step (older v) v.older_root c (older_view v (newer_record v t))
        ≡ outcome_map (older_view v) (step (newer v) v.newer_root c (newer_record v t)) }
{}

/// Editing under an older schema commutes with reading under a compatible newer one. Admitted calls
/// leave one trimmed value under both. Its newer record is the newer machine's result for the newer
/// record, and the replies to calls other than `get` are equal.
pub fn calls_across_versions()
    ensures values { (v : TwoVersions) (calls : List Call) (t : Tree) → CanRun v calls t
        → trim (edits (older v) v.older_root calls t)
        ≡ trim (edits (newer v) v.newer_root calls t) }
    ensures records { (v : TwoVersions) (calls : List Call) (t : Tree) → CanRun v calls t
        → newer_record v (trim (edits (older v) v.older_root calls t))
        ≡ records_after (newer v) v.newer_root calls (newer_record v t) }
    ensures replies { (v : TwoVersions) (calls : List Call) (t : Tree) (quoted : List ℕ → List ℕ)
        → CanRun v calls t
        → SameReplies calls (replies (older v) quoted v.older_root calls t)
        (record_replies (newer v) quoted v.newer_root calls (newer_record v t)) }
{}
