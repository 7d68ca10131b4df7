//! Room for wider objects.
ghost use Rattle.std.specs.Prelude.{◌≡◌, ◌+◌, ◌-◌, ◌*◌, ◌<◌, ◌≤◌, ◌^◌, ◌↔◌, ℕ, true, IfOk, IfErr, OnOk, OnErr};
ghost use Rattle.std.specs.Option.{is_some};
ghost use Rattle.capnp_model.specs.Segments.{word_at};
ghost use Rattle.capnp_units.specs.Segments.{words_in};
ghost use Rattle.capnp_wire_objects.specs.Places.{place_view};
ghost use Rattle.capnp_copy_arenas.specs.Refusals.{IsSizeOrRefusal};
ghost use Rattle.capnp_copy_arenas.specs.States.{state_in};
ghost use Rattle.capnp_copy_widening.specs.Widened.{MakesWiderRoom, TakesNearObject, LacksWiderRoom, RefusesWords};

use capnp_copy_arenas::arena::BuilderArena;
use capnp_copy_arenas::room::Room;
use capnp_units::errors::{Error, Result};
use capnp_units::kinds::ErrorKind;
use capnp_units::limits::MOST_WORDS;
use capnp_units::sizes::SegmentId;
use capnp_wire_objects::place::Place;

/// Allocates words for a wider object that the pointer at a place will name. The words are in the
/// old object's segment if it has room for them, so that the pointers that move to it reach their
/// objects. If the pointer is in another segment, a pad of one word precedes them. Otherwise they
/// are after a pad in any segment, with n more words for pads of those pointers, whose place is
/// returned. Nothing is written.
///
/// It is only refused if neither has room, and then nothing is allocated:
/// - with `SizeOverflow` exactly when the message's words, including all pads, would exceed 2^29 -
///   1;
/// - otherwise with the allocator's error.
pub fn allocate_wider<A: BuilderArena>(
    arena: &mut A,
    slot: Place,
    segment: SegmentId,
    words: u32,
    pads: u64,
) -> Result<(Room, Option<Place>)>
    requires there { is_some (word_at (words_in (A.segments arena.old)) (place_view slot)) ≡ true }
    requires few { (0 < words) × (words ≤ 2 ^ 29) }
    ensures ok { let at = state_in A.segments A.room A.books in IfOk result
        (MakesWiderRoom (at arena.old) (at arena.new) slot segment words pads) }
    ensures near { let at = state_in A.segments A.room A.books in OnOk result
        (TakesNearObject (at arena.old) (at arena.new) slot segment words) }
    ensures refused { OnErr result (A.segments arena.new ≡ A.segments arena.old) }
    ensures kind { IfErr result (RefusesWords (A.segments arena.old) (1 + (words + pads))) }
    ensures cause { IfErr result (λ e. IsSizeOrRefusal A.refuses e) }
    ensures full { let at = state_in A.segments A.room A.books in OnErr result
        (LacksWiderRoom (at arena.old) slot segment words pads) }
    ensures books { A.books arena.new ≡ A.books arena.old }
{
    if slot.segment == segment {
        if let Some(at) = arena.allocate(segment, words) {
            let offset = (at as usize - (slot.position + 1)) as u32;
            return Ok((Room::Near { offset }, None));
        }
    } else if let Some(at) = arena.allocate(segment, 1 + words) {
        let pad = Place {
            segment,
            position: at as usize,
        };
        return Ok((Room::Far { pad }, None));
    }
    if pads > MOST_WORDS as u64 {
        return Err(Error::from(ErrorKind::SizeOverflow));
    }
    let (segment, at) = arena.allocate_anywhere(1 + (words + pads as u32))?;
    let pad = Place {
        segment,
        position: at as usize,
    };
    let first = Place {
        segment,
        position: at as usize + 1 + words as usize,
    };
    Ok((Room::Far { pad }, Some(first)))
}
