//! Laws of values that fit their spelling, each the contract of a function that does nothing.

ghost use Rattle.std.specs.Prelude.{◌≡◌, ℕ, List, []};
ghost use Rattle.std.specs.List.{AllByRecursion};
ghost use Rattle.capnp_model.specs.Segments.{Segments};
ghost use Rattle.capnp_model.specs.Trees.{Tree};
ghost use Rattle.capnp_model.specs.Fits.{Fits};
ghost use Rattle.capnp_model.specs.Messages.{Reader, Writer};
ghost use Rattle.capnp_model.specs.Schemas.{Node};
ghost use Rattle.capnp_model.specs.Accepted.{schema_of};
ghost use Rattle.capnp_model.specs.Calls.{Call};
ghost use Rattle.capnp_model.specs.Answers.{Answer, Limits, edits};
ghost use Rattle.capnp_model.specs.Runs.{AnswerEach, End, finished};
ghost use Rattle.capnp_model.specs.SameRuns.{IsForm, IsAnswerIn, Relays};
ghost use Rattle.capnp_model_versions.specs.Fitting.{HasShortLists, HoldsShortLists, AreSpelled};
ghost use Rattle.capnp_model_versions.specs.OwnOutput.{SizesSuffice, SufficeEach, WritesFitting, HaveFewWords, IsWritten, HoldsOfWritten, relay_of};
ghost use Rattle.capnp_model_versions.specs.TwoRelays.{RelayWrites};

/// Calls in order leave a value that fits its spelling, if no list in it gets too long.
pub fn edited_values_that_fit()
    ensures { (nodes : List Node) (id : ℕ) (calls : List Call) (t : Tree)
        → AreSpelled nodes calls → Fits t
        → HasShortLists (edits (schema_of nodes) id calls t)
        → Fits (edits (schema_of nodes) id calls t) }
{}

/// Sizes suffice for the output of a relay if its calls hold no list that is too long and at most
/// 2^29 words are written. The output fits its spelling if sizes suffice.
pub fn sizes_that_suffice()
    ensures sizes { (nodes : List Node) (quoted : List ℕ → List ℕ) (id : ℕ) (calls : List Call)
        (limits : Limits) (message segments : Segments)
        → AreSpelled nodes calls → AllByRecursion (λ c. HoldsShortLists c.verb) calls
        → RelayWrites (relay_of nodes quoted id calls limits) message segments
        → HaveFewWords segments
        → SizesSuffice (relay_of nodes quoted id calls limits) message }
    ensures fits { (nodes : List Node) (quoted : List ℕ → List ℕ) (id : ℕ) (calls : List Call)
        (limits : Limits) (message : Segments)
        → AreSpelled nodes calls → SizesSuffice (relay_of nodes quoted id calls limits) message
        → WritesFitting (relay_of nodes quoted id calls limits) message }
{}

/// Sizes suffice for each message that a run writes if its calls hold no list that is too long and
/// at most 2^29 words are written for each.
pub fn sizes_that_suffice_each()
    ensures { (nodes : List Node) (quoted : List ℕ → List ℕ) (id : ℕ) (calls : List Call)
        (limits : Limits) (messages : List Segments) (answers : List Answer)
        → AreSpelled nodes calls → AllByRecursion (λ c. HoldsShortLists c.verb) calls
        → AnswerEach (IsAnswerIn (relay_of nodes quoted id calls limits)) messages answers
        → HoldsOfWritten (λ s segments. HaveFewWords segments) messages answers
        → SufficeEach (relay_of nodes quoted id calls limits) messages answers }
{}

/// A relay's own output, relayed again in its form without calls, gives the same bytes, if sizes
/// sufficed for the output and the second run writes every message.
pub fn own_output_again()
    ensures { (nodes : List Node) (quoted : List ℕ → List ℕ) (id : ℕ) (calls : List Call)
        (limits again : Limits) (read other : Reader) (write : Writer)
        (bytes output log others lines : List ℕ) (end : End)
        → AreSpelled nodes calls → IsForm other write
        → (x : Relays (relay_of nodes quoted id calls limits) read write bytes output log end)
        → SufficeEach (relay_of nodes quoted id calls limits) x.messages x.answers
        → (y : Relays (relay_of nodes quoted id [] again) other write output others lines finished)
        → AllByRecursion IsWritten y.answers → others ≡ output }
{}
