//! Defaults that replace null.
ghost use Rattle.std.specs.Prelude.{◌≡◌, ◌<◌, ◌^◌};
ghost use Rattle.capnp_units.specs.Segments.{words_in};
ghost use Rattle.capnp_wire_objects.specs.Places.{place_view};
ghost use Rattle.capnp_copy_arenas.specs.Refusals.{IsSizeOrRefusal};
ghost use Rattle.capnp_copy_arenas.specs.States.{HasWords, state_in};
ghost use Rattle.capnp_copy_values.specs.Defaults.{WritesDefault, TellsDefault, default_segments, is_null_or_absent};

use crate::copy::copy_from;
use capnp_copy_arenas::arena::BuilderArena;
use capnp_units::errors::Result;
use capnp_units::limiter::ReadLimiter;
use capnp_units::sizes::Word;
use capnp_wire::backing::{Backing, default_backing};
use capnp_wire_objects::arena::{NullArena, ReaderArena};
use capnp_wire_objects::place::{Place, word_at};

/// The most levels of a default.
const DEFAULT_LEVELS: u32 = 64;

/// Returns whether the pointer at a place is null, or doesn't exist.
fn is_null_at<A: ReaderArena>(arena: &A, place: Place) -> bool
    ensures { result ≡ is_null_or_absent (words_in (A.segments arena.now)) (place_view place) }
{
    word_at(arena, place).unwrap_or(0) == 0
}

/// Replaces null by a copy of a default: the root of the one segment that has these words. Nothing
/// happens if the pointer isn't null, or if the default's root is null.
///
/// The default is read 64 levels deep, and costs nothing. It is refused like `copy_from`. A default
/// that can be read within its levels is only refused for lack of room, with `SizeOverflow` or the
/// allocator's error. It isn't refused if the pointer's segment has room for its words. After a
/// refusal all words are unchanged, and those that were allocated are zero.
pub fn write_default<A: BuilderArena>(arena: &mut A, slot: Place, default: &[Word]) -> Result<()>
    requires there { HasWords (A.segments arena.old) slot 1 }
    requires near { slot.position < 2 ^ 61 }
    ensures default { WritesDefault (default_segments default.now) (words_in (A.segments arena.old))
        (words_in (A.segments arena.new)) (place_view slot) result }
    ensures told { let at = state_in A.segments A.room A.books in
        TellsDefault (default_segments default.now) (place_view slot) (at arena.old) (at arena.new)
        result (IsSizeOrRefusal A.refuses) }
    ensures books { A.books arena.new ≡ A.books arena.old }
{
    let source: Backing<NullArena> = default_backing(default);
    let root = Place {
        segment: 0,
        position: 0,
    };
    if !is_null_at(arena, slot) || is_null_at(&source, root) {
        return Ok(());
    }
    let mut limiter = ReadLimiter::new(None);
    copy_from(arena, slot, &mut limiter, &source, root, DEFAULT_LEVELS)
}
