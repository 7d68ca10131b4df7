//! The canonical words of a value.
ghost use Rattle.capnp_units.specs.Segments.{words_in};
ghost use Rattle.capnp_wire_objects.specs.Places.{place_view};
ghost use Rattle.capnp_wire_canonical.specs.Reaches.{reach};
ghost use Rattle.capnp_wire_canonical.specs.Copies.{copy_state, WritesCopy};
ghost use Rattle.capnp_wire_canonical.specs.Objects.{canonical_copy};

use crate::value_copies::write_at;
use crate::words::end_of;
use capnp_units::errors::Result;
use capnp_units::limiter::ReadLimiter;
use capnp_units::sizes::Word;
use capnp_wire_objects::arena::ReaderArena;
use capnp_wire_objects::place::{Place, segment_bytes};

/// Writes the canonical words of the value of the pointer at a place: the word of the pointer to
/// the value, and then the words of its objects. Each object comes before the objects that it
/// points to. Returns the number of words. The slice after them stays as it was.
///
/// Pointers are followed in the order of reading, nulls too, and objects are paid for as by
/// `size_at`. Returns the first of these errors that is met:
/// - a fault within n levels, by its kind;
/// - `CapabilityInCanonical` at a capability;
/// - `ReadLimitExceeded` at an object that costs more words than are left.
///
/// Returns `BufferNotLargeEnough` only if the value's canonical words are more than the slice has,
/// or more than the 2^29 - 1 of a message. A slice that has room for the canonical words always
/// suffices. If a fault follows, there is no such value, and this error may come before the fault
/// is met. Then the words that were granted, and one for the pointer, are more than there is room
/// for. So a slice of a word more than the limiter has left suffices too, if that is at most 2^29 -
/// 1. After an error, the first words of the slice, one more than were granted, may have been
/// written.
///
/// The copy is one walk. It takes a step for each pointer that is followed and each word of an
/// object. Each level takes a few hundred bytes of stack.
pub fn write_canonical<A: ReaderArena>(
    arena: &A,
    limiter: &mut ReadLimiter,
    place: Place,
    levels: u32,
    into: &mut [Word],
) -> Result<usize>
    ensures { WritesCopy
        (canonical_copy (reach levels (words_in (A.segments arena.now))) (place_view place))
        (copy_state into.old limiter.old) result (copy_state into.new limiter.new) }
{
    let used = end_of(into, 0, 1)?;
    let bytes = segment_bytes(arena, place.segment);
    write_at(arena, bytes, limiter, place, levels, into, 0, used)
}
