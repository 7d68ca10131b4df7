//! Laws of versions with renamed fields, each the contract of a function that does nothing.

ghost use Rattle.std.specs.Prelude.{◌≡◌, ℕ, List, []};
ghost use Rattle.capnp_model.specs.Trees.{Tree};
ghost use Rattle.capnp_model.specs.Trimming.{trim};
ghost use Rattle.capnp_model.specs.Readings.{Record, record_of};
ghost use Rattle.capnp_model.specs.Calls.{Call};
ghost use Rattle.capnp_model.specs.Partners.{Renaming};
ghost use Rattle.capnp_model.specs.CallRuns.{records_after, record_replies};
ghost use Rattle.capnp_model.specs.Answers.{edits, replies};
ghost use Rattle.capnp_model_versions.specs.SameReplies.{SameReplies};
ghost use Rattle.capnp_model_versions.specs.TwoVersions.{TwoVersions, older, newer, newer_record, older_view, CanRun};
ghost use Rattle.capnp_model_versions.specs.RenamedVersions.{newer_calls, AreCompatibleWith, CanRunWith};
ghost use Rattle.capnp_model_versions.specs.RenamedViews.{older_view_with};

/// Editing under an older schema commutes with reading under a newer one that is compatible with
/// renamed fields. Admitted calls leave one trimmed value under the older schema and, in the newer
/// names, under the newer. Its newer record is the newer machine's result for the newer record and
/// the calls in these names. The replies to calls other than `get` are equal.
pub fn calls_across_renamed_versions()
    ensures values { (rs : List Renaming) (v : TwoVersions) (calls : List Call) (t : Tree)
        → CanRunWith rs v calls t → trim (edits (older v) v.older_root calls t)
        ≡ trim (edits (newer v) v.newer_root (newer_calls rs v calls) t) }
    ensures records { (rs : List Renaming) (v : TwoVersions) (calls : List Call) (t : Tree)
        → CanRunWith rs v calls t → newer_record v (trim (edits (older v) v.older_root calls t))
        ≡ records_after (newer v) v.newer_root (newer_calls rs v calls) (newer_record v t) }
    ensures replies { (rs : List Renaming) (v : TwoVersions) (calls : List Call) (t : Tree)
        (quoted : List ℕ → List ℕ) → CanRunWith rs v calls t
        → SameReplies calls (replies (older v) quoted v.older_root calls t)
        (record_replies (newer v) quoted v.newer_root (newer_calls rs v calls) (newer_record v t)) }
{}

/// The older record of a value is the older view of its newer record, each field by its older name.
pub fn records_by_older_names()
    ensures { (rs : List Renaming) (v : TwoVersions) (t : Tree) → AreCompatibleWith rs v
        → record_of (older v) v.older_root t ≡ older_view_with rs v (newer_record v t) }
{}

/// If no field is renamed, the newer names are the calls' own, the older view is that without
/// renamings, and the conditions are on the same versions, calls and values.
pub fn calls_without_renamings()
    ensures words { (v : TwoVersions) (calls : List Call) → newer_calls [] v calls ≡ calls }
    ensures views { (v : TwoVersions) (r : Record) → older_view_with [] v r ≡ older_view v r }
    ensures plain { (v : TwoVersions) (calls : List Call) (t : Tree)
        → CanRun v calls t → CanRunWith [] v calls t }
    ensures renamed { (v : TwoVersions) (calls : List Call) (t : Tree)
        → CanRunWith [] v calls t → CanRun v calls t }
{}
