//! The law of the packing grammar, the contract of a function that does nothing.
ghost use Rattle.std.specs.Prelude.{◌≡◌, ℕ, List, ◌++◌, length, Ok};
ghost use Rattle.capnp_model.specs.Packing.{unpacked};
ghost use Rattle.capnp_model.specs.PackingGrammar.{IsPiece};

/// The machine that unpacks reads exactly the texts of the grammar: a piece gives its words,
/// whatever follows it, and what gives words begins with a piece of them.
pub fn packing_as_a_relation()
    ensures read { (text words rest : List ℕ) → IsPiece text words
        → unpacked (length words) (text ++ rest) ≡ Ok (words, rest) }
    ensures spelled { (n : ℕ) (bytes words rest : List ℕ) → unpacked n bytes ≡ Ok (words, rest)
        → (length words ≡ n) × ((text : List ℕ) × (bytes ≡ text ++ rest) × IsPiece text words) }
{}
