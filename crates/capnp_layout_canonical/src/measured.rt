//! Canonical copies of a pointer's value, over words that the copy allocates.
ghost use Rattle.std.specs.Prelude.{◌≡◌, ◌+◌, ◌-◌, ◌<◌, ◌^◌, min, true};
ghost use Rattle.std.specs.Option.{is_some};
ghost use Rattle.capnp_model.specs.Segments.{words_at};
ghost use Rattle.capnp_units.specs.Segments.{words_in};
ghost use Rattle.capnp_wire_objects.specs.Places.{place_view};
ghost use Rattle.capnp_wire.specs.Views.{seen_pointer};
ghost use Rattle.capnp_layout_canonical.specs.Measured.{MeasuresAndCopies};

use crate::copy::copy_canonical_from;
use capnp_copy_arenas::arena::BuilderArena;
use capnp_layout_builders::pointer_builder::PointerBuilder;
use capnp_units::errors::Result;
use capnp_units::limiter::ReadLimiter;
use capnp_units::limits::MOST_WORDS;
use capnp_units::sizes::MessageSize;
use capnp_wire::pointer::PointerReader;
use capnp_wire_objects::arena::ReaderArena;
use std::alloc::Global;

/// Returns the number of words of a value's objects and of one pointer, at most those of a message.
fn room_for(size: MessageSize) -> usize
    ensures { result ≡ min size.word_count (2 ^ 29 - 2) + 1 }
{
    size.word_count.min(MOST_WORDS as u64 - 1) as usize + 1
}

/// Replaces a pointer's value by a canonical copy of a reader's value, like `copy_canonical_from`.
/// It takes the lent words from `alloc`: one more than the words of the value's objects, at most
/// 2^29 - 1.
///
/// The value is measured first, so following it is paid for twice. It is refused like
/// `PointerReader::total_size`, and then with `OutOfMemory` if there is no memory for the words; in
/// these cases nothing is allocated in the message. Otherwise it is refused like
/// `copy_canonical_from` over n words. After a refusal all words are unchanged.
pub fn copy_canonical<A: BuilderArena, B: ReaderArena>(
    alloc: Global,
    builder: &mut PointerBuilder<'_, A>,
    limiter: &mut ReadLimiter,
    other: PointerReader<'_, B>,
) -> Result<()>
    requires there { is_some (words_at (words_in (A.segments builder.old.memory.now.arena))
        (place_view builder.old.place) 1) ≡ true }
    requires near { builder.old.place.position < 2 ^ 61 }
    ensures same { builder.new.memory.ghost_name ≡ builder.old.memory.ghost_name }
    ensures place { builder.new.place ≡ builder.old.place }
    ensures copy { MeasuresAndCopies (seen_pointer B.segments other.entry)
        (words_in (A.segments builder.old.memory.now.arena))
        (words_in (A.segments builder.new.memory.now.arena))
        (place_view builder.old.place) limiter.old result limiter.new }
    ensures books { A.books builder.new.memory.now.arena ≡ A.books builder.old.memory.now.arena }
{
    let size = other.total_size(limiter)?;
    let mut lent = vec![in alloc; [0u8; 8]; room_for(size)]?;
    copy_canonical_from(builder, limiter, other, lent.as_mut_slice())
}
