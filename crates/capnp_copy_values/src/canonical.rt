//! Canonical copies of values into an arena, which replace other values.
ghost use Rattle.std.specs.Prelude.{◌≡◌, ◌^◌, ◌<◌};
ghost use Rattle.capnp_wire_objects.specs.Places.{place_view};
ghost use Rattle.capnp_copy_values.specs.Copies.{source_in, limited, FollowsFew};
ghost use Rattle.capnp_copy_values.specs.Fits.{limited_in};
ghost use Rattle.capnp_copy_arenas.specs.Refusals.{IsSizeOrRefusal};
ghost use Rattle.capnp_copy_arenas.specs.States.{HasWords};
ghost use Rattle.capnp_copy_values.specs.Canonical.{lent_copy, CopiesCanonical, CanonicalTold, WritesFew};

use crate::copy::copy_from;
use capnp_copy_arenas::arena::BuilderArena;
use capnp_model::laws::{
    trimmed_values, values_on_walks, values_that_are_read, words_mean_their_value,
};
use capnp_units::errors::Result;
use capnp_units::limiter::ReadLimiter;
use capnp_units::sizes::Word;
use capnp_wire::backing::{Backing, default_backing};
use capnp_wire_canonical::copy::write_canonical;
use capnp_wire_canonical::laws::{copies_follow_few, segments_of_words};
use capnp_wire_objects::arena::{NullArena, ReaderArena};
use capnp_wire_objects::place::{Place, ROOT};

/// Replaces the value of the pointer at a place, which is cleared, by a copy of the value of a
/// pointer in a source. The copy is the trimmed tree, as in a canonical message. A value with a
/// capability is refused.
///
/// The value's canonical words are first written over lent words, and no other memory is taken. One
/// word more than the limiter has left, up to 2^29 - 1, always suffices. The source's pointers are
/// followed once, nulls too, and its objects paid for, as in `write_canonical`. It is refused
/// - at the first fault within n levels, with its kind;
/// - with `CapabilityInCanonical` at a capability;
/// - with `ReadLimitExceeded` at the first object that costs more words than are left;
/// - with `BufferNotLargeEnough` only if fewer words were lent than its canonical words, and fewer
///   than one more than the granted words;
/// - otherwise like `copy_from` of the canonical words, for lack of room in the arena.
///
/// After a refusal all the arena's words are unchanged, and those that were allocated are zero.
///
/// It takes the steps of `write_canonical`, and those of `copy_from` over the canonical words. The
/// number of lent words that are written is at most one more than the number of granted words.
pub fn copy_canonical_from<A: BuilderArena, B: ReaderArena>(
    arena: &mut A,
    slot: Place,
    limiter: &mut ReadLimiter,
    source: &B,
    place: Place,
    levels: u32,
    lent: &mut [Word],
) -> Result<()>
    requires there { HasWords (A.segments arena.old) slot 1 }
    requires near { slot.position < 2 ^ 61 }
    ensures copy { CopiesCanonical (lent_copy (source_in levels (B.segments source.now)
        (place_view place)) lent.old) (place_view slot) (limited (A.segments arena.old) limiter.old)
        result (limited (A.segments arena.new) limiter.new) }
    ensures few { FollowsFew limiter.old limiter.new }
    ensures lent { WritesFew limiter.old limiter.new lent.old lent.new }
    ensures told { let at = limited_in A.segments A.room A.books in CanonicalTold (lent_copy
        (source_in levels (B.segments source.now) (place_view place)) lent.old) slot.segment
        (IsSizeOrRefusal A.refuses) (at arena.old limiter.old) result (at arena.new limiter.new) }
    ensures books { A.books arena.new ≡ A.books arena.old }
{
    values_that_are_read();
    values_on_walks();
    trimmed_values();
    words_mean_their_value();
    copies_follow_few();
    let count = write_canonical(source, limiter, place, levels, lent)?;
    let words = &lent[..count];
    segments_of_words(words);
    let copy: Backing<NullArena> = default_backing(words);
    let mut unlimited = ReadLimiter::new(None);
    copy_from(arena, slot, &mut unlimited, &copy, ROOT, levels)
}
