//! Canonical copies of a reader's struct or list, made in a scratch, which replace the value of a
//! builder's pointer.
ghost use Rattle.std.specs.Prelude.{◌≡◌};
ghost use Rattle.capnp_wire_objects.specs.Places.{place_view};
ghost use Rattle.capnp_wire.specs.Views.{seen_struct, seen_list};
ghost use Rattle.capnp_layout_builders.specs.Copied.{SetsStruct, SetsList};
ghost use Rattle.capnp_layout_canonical.specs.Scratch.{HasSlot, words_around, StaysThere, level_above, slot_change, CopiesScratch, ThroughScratch};

use capnp_copy_arenas::arena::BuilderArena;
use capnp_copy_values::canonical::copy_canonical_from;
use capnp_layout_builders::pointer_builder::PointerBuilder;
use capnp_units::errors::Result;
use capnp_units::limiter::ReadLimiter;
use capnp_units::sizes::Word;
use capnp_wire::list::ListReader;
use capnp_wire::structs::StructReader;
use capnp_wire_objects::arena::ReaderArena;

/// Returns the number of levels of a pointer to an object from whose pointers n levels may be
/// followed.
fn levels_above(levels: Option<u32>) -> u32
    ensures { result ≡ level_above levels }
{
    match levels {
        Some(levels) => levels.saturating_add(1),
        None => 0,
    }
}

/// Replaces the value by the canonical copy of a scratch's value. With `Some(n)`, at most n levels
/// may be followed from the pointers of its object; with `None` not even its own pointer.
fn copy_scratch<A: BuilderArena, C: BuilderArena>(
    builder: &mut PointerBuilder<'_, A>,
    scratch: &PointerBuilder<'_, C>,
    levels: Option<u32>,
    lent: &mut [Word],
) -> Result<()>
    requires { HasSlot (words_around A.segments builder.old) builder.old.place }
    ensures same { StaysThere builder.old builder.new }
    ensures copy { let d = words_around C.segments scratch.now in
        let k = place_view scratch.now.place in CopiesScratch (level_above levels)
        (record { words = d; slot = k; lent = lent.old; after = lent.new })
        (slot_change A.segments builder.old builder.new) result }
    ensures books { A.books builder.new.memory.now.arena ≡ A.books builder.old.memory.now.arena }
{
    let mut unlimited = ReadLimiter::new(None);
    let deep = levels_above(levels);
    let slot = builder.place;
    let from = &scratch.memory.arena;
    let arena = &mut builder.memory.arena;
    copy_canonical_from(arena, slot, &mut unlimited, from, scratch.place, deep, lent)
}

/// Replaces the value, which is cleared, by a canonical copy of a reader's struct: its trimmed
/// tree, as in a canonical message. A struct with a capability is refused.
///
/// The copy uses a scratch, which is another pointer of a builder, and lent words of 8 bytes each.
/// The value of the scratch becomes the plain copy, and the canonical words are written over the
/// lent words. It is refused like `PointerBuilder::set_struct` of the scratch. Then it is refused
/// with `CapabilityInCanonical`; with `BufferNotLargeEnough`, only if the copy's words and one more
/// exceed the lent words; or for lack of room, like
/// `capnp_copy_values::canonical::copy_canonical_from` of the scratch without a limit of words.
/// After a refusal all words other than the scratch's are unchanged, and the words that were
/// allocated are zero.
pub fn set_struct_canonical<A: BuilderArena, B: ReaderArena, C: BuilderArena>(
    builder: &mut PointerBuilder<'_, A>,
    limiter: &mut ReadLimiter,
    value: StructReader<'_, B>,
    scratch: &mut PointerBuilder<'_, C>,
    lent: &mut [Word],
) -> Result<()>
    requires slot { HasSlot (words_around A.segments builder.old) builder.old.place }
    requires scratch { HasSlot (words_around C.segments scratch.old) scratch.old.place }
    ensures same { StaysThere builder.old builder.new }
    ensures scratch { StaysThere scratch.old scratch.new }
    ensures copy { let d = words_around C.segments scratch.new in
        let k = place_view scratch.old.place in let v = seen_struct B.segments value.entry in
        ThroughScratch (SetsStruct v (words_around C.segments scratch.old) d k)
        (level_above v.levels)
        (record { words = d; slot = k; lent = lent.old; after = lent.new })
        (slot_change A.segments builder.old builder.new) limiter.old result limiter.new }
    ensures books { (A.books builder.new.memory.now.arena ≡ A.books builder.old.memory.now.arena)
        × (C.books scratch.new.memory.now.arena ≡ C.books scratch.old.memory.now.arena) }
{
    let levels = value.levels();
    match scratch.set_struct(limiter, value) {
        Err(error) => Err(error),
        Ok(()) => copy_scratch(builder, scratch, levels, lent),
    }
}

/// Replaces the value, which is cleared, by a canonical copy of a reader's list: its trimmed tree,
/// as in a canonical message. A list of structs is copied whole, however it was read. A list with a
/// capability is refused.
///
/// The copy uses a scratch and lent words like `set_struct_canonical`. It is refused like
/// `PointerBuilder::set_list` of the scratch, and then like `set_struct_canonical`.
pub fn set_list_canonical<A: BuilderArena, B: ReaderArena, C: BuilderArena>(
    builder: &mut PointerBuilder<'_, A>,
    limiter: &mut ReadLimiter,
    value: ListReader<'_, B>,
    scratch: &mut PointerBuilder<'_, C>,
    lent: &mut [Word],
) -> Result<()>
    requires slot { HasSlot (words_around A.segments builder.old) builder.old.place }
    requires scratch { HasSlot (words_around C.segments scratch.old) scratch.old.place }
    ensures same { StaysThere builder.old builder.new }
    ensures scratch { StaysThere scratch.old scratch.new }
    ensures copy { let d = words_around C.segments scratch.new in
        let k = place_view scratch.old.place in let v = seen_list B.segments value.entry in
        ThroughScratch (SetsList v (words_around C.segments scratch.old) d k) (level_above v.levels)
        (record { words = d; slot = k; lent = lent.old; after = lent.new })
        (slot_change A.segments builder.old builder.new) limiter.old result limiter.new }
    ensures books { (A.books builder.new.memory.now.arena ≡ A.books builder.old.memory.now.arena)
        × (C.books scratch.new.memory.now.arena ≡ C.books scratch.old.memory.now.arena) }
{
    let levels = value.levels();
    match scratch.set_list(limiter, value) {
        Err(error) => Err(error),
        Ok(()) => copy_scratch(builder, scratch, levels, lent),
    }
}
