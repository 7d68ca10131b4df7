//! Texts and data that pointers lead to, read for writing.
ghost use Rattle.std.specs.Prelude.{◌≡◌, ◌<◌, ◌^◌, Ok, Err, option_map, option_copied, IfOk, IfErr};
ghost use Rattle.capnp_model.specs.Coverage.{Grows};
ghost use Rattle.capnp_units.specs.Segments.{words_in};
ghost use Rattle.capnp_copy_arenas.specs.States.{HasWords};
ghost use Rattle.capnp_records.specs.NodeViews.{value_of};
ghost use Rattle.capnp_layout_builders.specs.Blobs.{GetsTextOrDefault, GetsDataOrDefault};
ghost use Rattle.capnp_layout_builders.specs.Making.{state_of};
ghost use Rattle.capnp_schema_values.specs.Defaults.{default_bytes};
ghost use Rattle.std.specs.Prelude.{None};
ghost use Rattle.capnp_schema_values.specs.Blobs.{TextBytesGot, NoTextBytesGot, DataBytesGot, NoDataBytesGot};

use crate::default::begin_bytes;
use capnp_copy_arenas::arena::{BuilderArena, Memory};
use capnp_copy_arenas::bytes::BlobPlace;
use capnp_layout_builders::pointer_builder::PointerBuilder;
use capnp_records::node::Value;
use capnp_units::errors::Result;
use capnp_wire_objects::place::Place;

/// Returns the text there.
fn text_here<A: BuilderArena>(memory: &mut Memory<A>, slot: Place) -> Result<BlobPlace>
    requires there { HasWords (A.segments memory.old.arena) slot 1 }
    requires near { slot.position < 2 ^ 61 }
    ensures { let at = state_of A.segments A.room A.books in
        GetsTextOrDefault None (at memory.old) (at memory.new) slot result }
{
    match (PointerBuilder {
        memory,
        place: slot,
    })
    .get_text(None)
    {
        Ok(text) => Ok(text.place),
        Err(error) => Err(error),
    }
}

/// Returns the data there.
fn data_here<A: BuilderArena>(memory: &mut Memory<A>, slot: Place) -> Result<BlobPlace>
    requires there { HasWords (A.segments memory.old.arena) slot 1 }
    requires near { slot.position < 2 ^ 61 }
    ensures { let at = state_of A.segments A.room A.books in
        GetsDataOrDefault None (at memory.old) (at memory.new) slot result }
{
    match (PointerBuilder {
        memory,
        place: slot,
    })
    .get_data(None)
    {
        Ok(data) => Ok(data.place),
        Err(error) => Err(error),
    }
}

/// Returns the text that the pointer at a place names, without the zero byte after it. A null
/// pointer gets the default, if there is one; otherwise the text is empty, at the pointer itself.
///
/// It is refused
/// - if the default finds no room, with `SizeOverflow` exactly when the message's words would
///   exceed 2^29 - 1, otherwise with the allocator's error;
/// - with the error of the value there, like `PointerBuilder::get_text`.
///
/// Then all words are unchanged.
pub fn text_slot<A: BuilderArena>(
    memory: &mut Memory<A>,
    slot: Place,
    default: Option<&Value>,
) -> Result<BlobPlace>
    requires there { HasWords (A.segments memory.old.arena) slot 1 }
    requires near { slot.position < 2 ^ 61 }
    ensures got { IfOk result (TextBytesGot
        (default_bytes (option_map value_of (option_copied default.entry)))
        (words_in (A.segments memory.old.arena)) (words_in (A.segments memory.new.arena)) slot) }
    ensures refused { IfErr result (NoTextBytesGot
        (default_bytes (option_map value_of (option_copied default.entry)))
        (words_in (A.segments memory.old.arena)) (words_in (A.segments memory.new.arena)) slot) }
    ensures grows { Grows (words_in (A.segments memory.old.arena))
        (words_in (A.segments memory.new.arena)) }
    ensures books { A.books memory.new.arena ≡ A.books memory.old.arena }
{
    begin_bytes(&mut memory.arena, slot, default)?;
    text_here(memory, slot)
}

/// Returns the data that the pointer at a place names, like `text_slot` for a text.
pub fn data_slot<A: BuilderArena>(
    memory: &mut Memory<A>,
    slot: Place,
    default: Option<&Value>,
) -> Result<BlobPlace>
    requires there { HasWords (A.segments memory.old.arena) slot 1 }
    requires near { slot.position < 2 ^ 61 }
    ensures got { IfOk result (DataBytesGot
        (default_bytes (option_map value_of (option_copied default.entry)))
        (words_in (A.segments memory.old.arena)) (words_in (A.segments memory.new.arena)) slot) }
    ensures refused { IfErr result (NoDataBytesGot
        (default_bytes (option_map value_of (option_copied default.entry)))
        (words_in (A.segments memory.old.arena)) (words_in (A.segments memory.new.arena)) slot) }
    ensures grows { Grows (words_in (A.segments memory.old.arena))
        (words_in (A.segments memory.new.arena)) }
    ensures books { A.books memory.new.arena ≡ A.books memory.old.arena }
{
    begin_bytes(&mut memory.arena, slot, default)?;
    data_here(memory, slot)
}
