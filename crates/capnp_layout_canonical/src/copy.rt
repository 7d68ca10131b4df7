//! Canonical copies of a reader's value, which replace the value of a builder's pointer.
ghost use Rattle.std.specs.Prelude.{◌≡◌, ◌<◌, ◌^◌, true};
ghost use Rattle.std.specs.Option.{is_some};
ghost use Rattle.capnp_model.specs.Segments.{words_at};
ghost use Rattle.capnp_units.specs.Segments.{words_in};
ghost use Rattle.capnp_wire_objects.specs.Places.{place_view};
ghost use Rattle.capnp_wire.specs.Views.{seen_pointer};
ghost use Rattle.capnp_layout_canonical.specs.Copied.{CopiesPointerCanonical};

use capnp_copy_arenas::arena::BuilderArena;
use capnp_copy_arenas::clear::clear;
use capnp_copy_values::canonical::copy_canonical_from as copy_at;
use capnp_layout_builders::pointer_builder::PointerBuilder;
use capnp_units::errors::{Error, Result};
use capnp_units::kinds::ErrorKind;
use capnp_units::limiter::ReadLimiter;
use capnp_units::sizes::Word;
use capnp_wire::backing::Backing;
use capnp_wire::pointer::PointerReader;
use capnp_wire_objects::arena::ReaderArena;
use capnp_wire_objects::place::Place;

/// Replaces the value of the pointer at a place by the canonical copy of a reader's value.
fn copy_pointer<A: BuilderArena, B: ReaderArena>(
    arena: &mut A,
    slot: Place,
    limiter: &mut ReadLimiter,
    other: PointerReader<'_, B>,
    lent: &mut [Word],
) -> Result<()>
    requires there { is_some (words_at (words_in (A.segments arena.old)) (place_view slot) 1)
        ≡ true }
    requires near { slot.position < 2 ^ 61 }
    ensures copy { CopiesPointerCanonical (seen_pointer B.segments other.entry) lent.old lent.new
        (words_in (A.segments arena.old))
        (words_in (A.segments arena.new)) (place_view slot) limiter.old result limiter.new }
    ensures books { A.books arena.new ≡ A.books arena.old }
{
    let Some(levels) = other.levels() else {
        return Err(Error::from(ErrorKind::NestingLimitExceeded));
    };
    let Some(place) = other.place() else {
        clear(arena, slot);
        return Ok(());
    };
    match other.backing() {
        Backing::Arena(source) => copy_at(arena, slot, limiter, source, place, levels, lent),
        Backing::Default(_) => {
            let mut unlimited = ReadLimiter::new(None);
            let source = other.backing();
            copy_at(arena, slot, &mut unlimited, &source, place, levels, lent)
        }
    }
}

/// Replaces a pointer's value, which is cleared, by a canonical copy of a reader's value: the
/// trimmed tree, as in a canonical message. A pointer past a struct's pointers is null. A value
/// with a capability is refused.
///
/// The copy uses lent words of 8 bytes each. It is refused like
/// `capnp_copy_values::canonical::copy_canonical_from`, and with `NestingLimitExceeded` under a
/// negative nesting limit. A value in a default is read without a limit of words, and costs
/// nothing. After a refusal all words are unchanged, and the words that were allocated are zero.
/// The number of lent words that are written is at most one more than the number of words that were
/// granted.
pub fn copy_canonical_from<A: BuilderArena, B: ReaderArena>(
    builder: &mut PointerBuilder<'_, A>,
    limiter: &mut ReadLimiter,
    other: PointerReader<'_, B>,
    lent: &mut [Word],
) -> Result<()>
    requires there { is_some (words_at (words_in (A.segments builder.old.memory.now.arena))
        (place_view builder.old.place) 1) ≡ true }
    requires near { builder.old.place.position < 2 ^ 61 }
    ensures same { builder.new.memory.ghost_name ≡ builder.old.memory.ghost_name }
    ensures place { builder.new.place ≡ builder.old.place }
    ensures copy { CopiesPointerCanonical (seen_pointer B.segments other.entry) lent.old lent.new
        (words_in (A.segments builder.old.memory.now.arena))
        (words_in (A.segments builder.new.memory.now.arena))
        (place_view builder.old.place) limiter.old result limiter.new }
    ensures books { A.books builder.new.memory.now.arena ≡ A.books builder.old.memory.now.arena }
{
    let place = builder.place;
    copy_pointer(&mut builder.memory.arena, place, limiter, other, lent)
}
