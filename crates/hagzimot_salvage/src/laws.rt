//! Laws of the pieces of a stream, each the contract of a function that does nothing.
ghost use Rattle.std.specs.Prelude.{◌≡◌, ℕ, List, length};
ghost use Rattle.std.specs.List.{flat_map};
ghost use Rattle.capnp_model.specs.Segments.{Segments};
ghost use Rattle.hagzimot_salvage.specs.declared.roots.SalvageLimits.{SalvageLimits};
ghost use Rattle.hagzimot_salvage.specs.declared.pieces.Piece.{Piece};
ghost use Rattle.hagzimot_salvage.specs.Pieces.{IsCut, AreAll, bytes_of, kept_bytes, kept_count};

use capnp_model::laws::texts_of_messages;

/// The pieces of a stream, one after the other, are the stream. What is kept of them is a stream of
/// as many messages as they count, without a fault, and it is the whole stream if that has no fault.
pub fn pieces_of_streams()
    ensures all { (l : SalvageLimits) (bytes : List ℕ) (ps : List Piece)
        → IsCut l bytes ps → flat_map (bytes_of bytes) ps ≡ bytes }
    ensures kept { (l : SalvageLimits) (bytes : List ℕ) (ps : List Piece)
        → IsCut l bytes ps → (messages : List Segments)
        × AreAll l (kept_bytes bytes ps) messages
        × (length messages ≡ kept_count ps) }
    ensures whole { (l : SalvageLimits) (bytes : List ℕ) (ps : List Piece)
        (messages : List Segments) → IsCut l bytes ps
        → AreAll l bytes messages
        → kept_bytes bytes ps ≡ bytes }
{
    texts_of_messages();
}
