//! Structs that pointers lead to, read for writing.
ghost use Rattle.std.specs.Prelude.{◌≡◌, ◌<◌, ◌^◌, option_map, option_copied, IfOk, IfErr};
ghost use Rattle.capnp_units.specs.Segments.{words_in};
ghost use Rattle.capnp_wire_objects.specs.Places.{place_view};
ghost use Rattle.capnp_copy_arenas.specs.States.{HasWords};
ghost use Rattle.capnp_records.specs.NodeViews.{value_of};
ghost use Rattle.capnp_values_queries.specs.Structs.{shape_of_struct};
ghost use Rattle.capnp_schema_structs.specs.Defaults.{default_words};
ghost use Rattle.capnp_schema_structs.specs.Grown.{GrowsBehind};
ghost use Rattle.capnp_schema_values.specs.Structs.{PartGot, NoPartGot};

use capnp_copy_arenas::arena::BuilderArena;
use capnp_layout_builders::gets::struct_or_default;
use capnp_records::node::Value;
use capnp_schema_structs::init::{Part, struct_size};
use capnp_schema_structs::roots::default_words;
use capnp_units::errors::Result;
use capnp_values_queries::structs::StructSchema;
use capnp_wire_objects::place::Place;

/// Returns the struct that the pointer at a place names, with at least its schema's sizes. A null
/// pointer gets the default, if there is one, otherwise a struct of zeros and nulls; a narrower
/// struct is widened.
///
/// It is refused like `struct_or_default` of the builders.
pub fn struct_slot<'a, A: BuilderArena>(
    arena: &mut A,
    slot: Place,
    schema: StructSchema<'a>,
    default: Option<&Value>,
) -> Result<Part<'a>>
    requires there { HasWords (A.segments arena.old) slot 1 }
    requires near { slot.position < 2 ^ 61 }
    ensures got { IfOk result (PartGot
        (default_words (option_map value_of (option_copied default.entry)))
        (words_in (A.segments arena.old)) (words_in (A.segments arena.new)) slot schema.entry) }
    ensures refused { IfErr result (NoPartGot
        (default_words (option_map value_of (option_copied default.entry)))
        (words_in (A.segments arena.old)) (words_in (A.segments arena.new)) slot
        (shape_of_struct schema.entry)) }
    ensures grows { GrowsBehind (words_in (A.segments arena.old)) (words_in (A.segments arena.new))
        (place_view slot) }
    ensures books { A.books arena.new ≡ A.books arena.old }
{
    let place = struct_or_default(arena, slot, struct_size(schema), default_words(default))?;
    Ok(Part { place, schema })
}
