//! Laws of whole runs of relays, each the contract of a function that does nothing.

ghost use Rattle.std.specs.Prelude.{◌≡◌, ◌≤◌, ◌+◌, ◌*◌, ℕ, List, [], Some, length};
ghost use Rattle.std.specs.List.{AllByRecursion};
ghost use Rattle.capnp_model.specs.Bytes.{bytes_of_words};
ghost use Rattle.capnp_model.specs.Segments.{Segments};
ghost use Rattle.capnp_model.specs.Messages.{Reader, frame};
ghost use Rattle.capnp_model.specs.Runs.{End, output_of};
ghost use Rattle.capnp_model.specs.SameRuns.{Work, Relays};
ghost use Rattle.capnp_model_versions.specs.OwnOutput.{WritesFitting, HaveFewWords, HoldsOfWritten};
ghost use Rattle.capnp_model_versions.specs.TwoRelays.{TwoRelays, first, RelayWrites, CanRelay, HasShortCalls};
ghost use Rattle.capnp_model_versions.specs.RunsInARow.{RunsInARow, WriteOnBothRoads};

/// Two relays in a row write the bytes of one relay with the joined calls, if the second reads the
/// form that the first writes, and
/// - each message is written by both or by neither;
/// - the calls of both can start from each message that the first writes;
/// - the first relay's calls hold no list that is too long, and it writes at most 2^29 words for
///   each; or its output fits its spelling.
pub fn runs_in_a_row()
    ensures by_words { (r : TwoRelays) (bytes middle output direct : List ℕ) → HasShortCalls r
        → (x : RunsInARow r bytes middle output direct)
        → WriteOnBothRoads x.first_run.answers x.second_run.answers x.joined_run.answers
        → HoldsOfWritten (λ s one. CanRelay r s × HaveFewWords one)
        x.first_run.messages x.first_run.answers → output ≡ direct }
    ensures by_values { (r : TwoRelays) (bytes middle output direct : List ℕ)
        → (x : RunsInARow r bytes middle output direct)
        → WriteOnBothRoads x.first_run.answers x.second_run.answers x.joined_run.answers
        → HoldsOfWritten (λ s one. CanRelay r s × WritesFitting (first r) s)
        x.first_run.messages x.first_run.answers → output ≡ direct }
{}

/// Without calls each framed message that is written has at most two words more than the word
/// limit: the first word of its table, and the root's pointer.
pub fn outputs_without_calls()
    ensures one { (w : Work) (message segments : Segments) (words : ℕ) → w.calls ≡ []
        → w.limits.words ≡ Some words → RelayWrites w message segments
        → length (frame segments) ≤ 8 * (words + 2) }
    ensures each { (w : Work) (read : Reader) (bytes output log : List ℕ) (end : End) (words : ℕ)
        → w.calls ≡ [] → w.limits.words ≡ Some words
        → (x : Relays w read bytes_of_words bytes output log end)
        → AllByRecursion (λ a. length (output_of bytes_of_words a) ≤ 8 * (words + 2)) x.answers }
{}
