//! Laws of packed streams, each the contract of a function that does nothing.
ghost use Rattle.std.specs.Prelude.{◌≡◌, ◌≤◌, ℕ, ◌+◌, ◌*◌, ◌/◌, List, [], ◌++◌, length, Option, Some};
ghost use Rattle.capnp_units.specs.declared.kinds.ErrorKind.{ErrorKind};
ghost use Rattle.capnp_model.specs.Segments.{Segments};
ghost use Rattle.capnp_model.specs.Packing.{packed, unpacked};
ghost use Rattle.capnp_model.specs.Messages.{packed_message};
ghost use Rattle.capnp_model.specs.Spelling.{AreWords, CanSpell};
ghost use Rattle.capnp_stream.specs.Pieces.{TakesPiece, IsPieceFault};
ghost use Rattle.capnp_stream.specs.Frames.{TakesMessage, IsFrameFault};

use capnp_model::laws::{packed_words, texts_of_messages, written_messages};

/// If the bytes to come are those that `Packed::write_piece` wrote, and then any others,
/// `Packed::read_piece` returns its words and leaves exactly the others. Only a failed device
/// prevents this.
pub fn written_pieces_are_read()
    ensures read { (ws rest : List ℕ) (new : Option (List ℕ)) (words : List ℕ) → AreWords ws
        → length words ≡ length ws → TakesPiece unpacked (Some (packed ws ++ rest)) new words
        → (words ≡ ws) × (new ≡ Some rest) }
    ensures no_fault { (ws rest : List ℕ) (kind : ErrorKind) → AreWords ws
        → IsPieceFault unpacked (length ws) (Some (packed ws ++ rest)) kind
        → kind ≡ ErrorKind.Device }
{
    packed_words();
}

/// If the bytes to come are those of a packed message, and then any others, `read_message` returns
/// its segments and leaves exactly the others; it finds no fault in them.
pub fn written_messages_are_read()
    ensures read { (limit : Option ℕ) (s u : Segments) (rest : List ℕ) (new : Option (List ℕ))
        → CanSpell limit s → TakesMessage unpacked limit (Some (packed_message s ++ rest)) new u
        → (u ≡ s) × (new ≡ Some rest) }
    ensures no_fault { (limit : Option ℕ) (s : Segments) (rest : List ℕ) (kind : ErrorKind)
        → CanSpell limit s → IsFrameFault unpacked limit (packed_message s ++ rest) kind → ⊥ }
{
    texts_of_messages();
    written_messages();
}

/// A packed piece of n words has at most 8 n + (n + 3) / 2 bytes, and no bytes if n is 0.
pub fn sizes_of_pieces()
    ensures none { packed [] ≡ [] }
    ensures most { (ws : List ℕ) → length (packed ws) ≤ 8 * length ws + (length ws + 3) / 2 }
{}
