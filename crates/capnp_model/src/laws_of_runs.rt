//! Laws of runs over streams of messages, each the contract of a function that does nothing.

ghost use Rattle.std.specs.Prelude.{◌≡◌, ℕ, ◌+◌, List, ◌∷◌, ◌++◌, length};
ghost use Rattle.std.specs.List.{AllByRecursion, flat_map};
ghost use Rattle.capnp_model.specs.Segments.{Segments};
ghost use Rattle.capnp_model.specs.Packing.{unpacked};
ghost use Rattle.capnp_model.specs.Messages.{Reader, Writer, plain_words, frame, packed_message};
ghost use Rattle.capnp_model.specs.Spelling.{CanSpell};
ghost use Rattle.capnp_model.specs.Answers.{Answer};
ghost use Rattle.capnp_model.specs.Runs.{line_of, End};
ghost use Rattle.capnp_model.specs.SameRuns.{IsFormReader, IsRefused, HaveOneValueEach, Work, IsAnswerIn, Relays};

/// The output and the log, and the end of a run, are determined by the bytes of the input.
pub fn runs_by_their_bytes()
    ensures { (w : Work) (read : Reader) (write : Writer) (bytes output log others lines : List ℕ)
        (end last : End) → IsFormReader read
        → Relays w read write bytes output log end → Relays w read write bytes others lines last
        → (output ≡ others) × (log ≡ lines) × (end ≡ last) }
{}

/// Framed and packed input of the same messages give the same output and the same log.
pub fn runs_in_two_forms()
    ensures spelled { (w : Work) (write : Writer) (messages : List Segments)
        (output log others lines : List ℕ) (end last : End)
        → AllByRecursion (CanSpell w.limits.words) messages
        → Relays w plain_words write (flat_map frame messages) output log end
        → Relays w unpacked write (flat_map packed_message messages) others lines last
        → (output ≡ others) × (log ≡ lines) × (end ≡ last) }
    ensures read { (w : Work) (read other : Reader) (write : Writer)
        (bytes texts output log others lines : List ℕ) (end last : End)
        → (x : Relays w read write bytes output log end)
        → (y : Relays w other write texts others lines last)
        → x.messages ≡ y.messages → (output ≡ others) × (log ≡ lines) }
{}

/// Messages with pairwise equal trimmed values, all within the limits, give equal output and equal
/// logs.
pub fn runs_over_equal_values()
    ensures { (w : Work) (read other : Reader) (write : Writer)
        (bytes texts output log others lines : List ℕ) (end last : End)
        → (x : Relays w read write bytes output log end)
        → (y : Relays w other write texts others lines last)
        → HaveOneValueEach w.limits x.messages y.messages → (output ≡ others) × (log ≡ lines) }
{}

/// The contents of a refused message don't change other answers: the output is the same, and so is
/// the log except for its own line.
pub fn runs_past_a_refused_message()
    ensures { (w : Work) (read other : Reader) (write : Writer)
        (bytes texts output log others lines : List ℕ) (end last : End)
        → (x : Relays w read write bytes output log end)
        → (y : Relays w other write texts others lines last)
        → (front back : List Segments) (s u : Segments) (a b : Answer)
        → x.messages ≡ front ++ s ∷ back → y.messages ≡ front ++ u ∷ back
        → IsAnswerIn w s a → IsAnswerIn w u b → IsRefused a → IsRefused b
        → (output ≡ others)
        × ((before behind : List ℕ) × (log ≡ before ++ (line_of (1 + length front) a ++ behind))
        × (lines ≡ before ++ (line_of (1 + length front) b ++ behind))) }
{}
