//! Defaults, written instead of null.
ghost use Rattle.std.specs.Prelude.{◌≡◌, ◌<◌, ◌^◌, true, option_map, option_copied, IfErr, OnOk};
ghost use Rattle.std.specs.Option.{is_some};
ghost use Rattle.capnp_model.specs.Coverage.{Grows};
ghost use Rattle.capnp_model.specs.Segments.{words_at};
ghost use Rattle.capnp_units.specs.Segments.{words_in};
ghost use Rattle.capnp_wire_objects.specs.Places.{place_view};
ghost use Rattle.capnp_records.specs.NodeViews.{value_of};
ghost use Rattle.capnp_copy_values.specs.Defaults.{is_null_or_absent};
ghost use Rattle.capnp_schema_values.specs.Defaults.{default_bytes, BytesBegin, BytesNotBegun};

use capnp_copy_arenas::arena::BuilderArena;
use capnp_copy_arenas::blobs::{set_data, set_text};
use capnp_records::node::Value;
use capnp_units::errors::Result;
use capnp_wire_objects::place::{Place, word_at};

/// Returns whether the pointer at a place is null, or doesn't exist.
fn is_null<A: BuilderArena>(arena: &A, slot: Place) -> bool
    ensures { result ≡ is_null_or_absent (words_in (A.segments arena.now)) (place_view slot) }
{
    word_at(arena, slot).unwrap_or(0) == 0
}

/// Replaces null by the default of a text or of data, if there is a default. It is refused like
/// `set_text` and `set_data`; then all words are unchanged.
pub fn begin_bytes<A: BuilderArena>(
    arena: &mut A,
    slot: Place,
    default: Option<&Value>,
) -> Result<()>
    requires there { is_some (words_at (words_in (A.segments arena.old)) (place_view slot) 1)
        ≡ true }
    requires near { slot.position < 2 ^ 61 }
    ensures begins { OnOk result (BytesBegin
        (default_bytes (option_map value_of (option_copied default.entry)))
        (words_in (A.segments arena.old)) (words_in (A.segments arena.new)) (place_view slot)) }
    ensures refused { IfErr result (BytesNotBegun
        (default_bytes (option_map value_of (option_copied default.entry)))
        (words_in (A.segments arena.old)) (words_in (A.segments arena.new)) (place_view slot)) }
    ensures grows { Grows (words_in (A.segments arena.old)) (words_in (A.segments arena.new)) }
    ensures books { A.books arena.new ≡ A.books arena.old }
{
    match default {
        Some(Value::Text(bytes)) if is_null(arena, slot) => set_text(arena, slot, bytes),
        Some(Value::Data(bytes)) if is_null(arena, slot) => set_data(arena, slot, bytes),
        _ => Ok(()),
    }
}
