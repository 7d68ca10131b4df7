//! Lists that pointers lead to, read for writing.
ghost use Rattle.std.specs.Prelude.{◌≡◌, ◌+◌, ◌<◌, ◌^◌, true, option_map, option_copied, IfOk, IfErr};
ghost use Rattle.capnp_model.specs.Accepted.{schema_of};
ghost use Rattle.capnp_units.specs.Segments.{words_in};
ghost use Rattle.capnp_wire_objects.specs.Places.{place_view};
ghost use Rattle.capnp_copy_arenas.specs.Refusals.{IsSizeOrRefusal};
ghost use Rattle.capnp_copy_arenas.specs.States.{HasWords};
ghost use Rattle.capnp_records.specs.NodeViews.{value_of};
ghost use Rattle.capnp_records.specs.Sets.{nodes_of};
ghost use Rattle.capnp_layout_builders.specs.Gets.{GetsListOrDefault, GetsStructListOrDefault};
ghost use Rattle.capnp_layout_builders.specs.Making.{state_of};
ghost use Rattle.capnp_values_queries.specs.Structs.{shape_of_struct};
ghost use Rattle.capnp_values_queries.specs.Types.{ty_of, is_type_of};
ghost use Rattle.capnp_schema_structs.specs.Defaults.{default_words};
ghost use Rattle.capnp_schema_structs.specs.Grown.{GrowsBehind};
ghost use Rattle.capnp_schema_values.specs.Lists.{list_read, sized, PlaceGot, ListPartGot, NoListPartGot};

use crate::placed::ListPart;
use capnp_copy_arenas::arena::{BuilderArena, Memory};
use capnp_copy_arenas::init::ListPlace;
use capnp_layout_builders::pointer_builder::PointerBuilder;
use capnp_records::node::Value;
use capnp_records::set::SchemaSet;
use capnp_schema_structs::init::{struct_of_type, struct_size};
use capnp_schema_structs::roots::default_words;
use capnp_units::errors::Result;
use capnp_units::sizes::{ElementSize, StructSize, Word};
use capnp_values::opening::element_size;
use capnp_values_queries::introspect::Type;
use capnp_values_queries::structs::StructSchema;
use capnp_wire_objects::place::Place;

/// Returns the list there, of elements of a size.
fn list_here<A: BuilderArena>(
    memory: &mut Memory<A>,
    slot: Place,
    expected: ElementSize,
    default: Option<&[Word]>,
) -> Result<ListPlace>
    requires there { HasWords (A.segments memory.old.arena) slot 1 }
    requires near { slot.position < 2 ^ 61 }
    ensures { let at = state_of A.segments A.room A.books in GetsListOrDefault
        (option_copied default.entry) (at memory.old) (at memory.new) slot expected result
        (IsSizeOrRefusal A.refuses) }
{
    match (PointerBuilder {
        memory,
        place: slot,
    })
    .get_list(expected, default)
    {
        Ok(list) => Ok(list.place),
        Err(error) => Err(error),
    }
}

/// Returns the list of structs of at least a size.
fn struct_list_here<A: BuilderArena>(
    memory: &mut Memory<A>,
    slot: Place,
    size: StructSize,
    default: Option<&[Word]>,
) -> Result<ListPlace>
    requires there { HasWords (A.segments memory.old.arena) slot 1 }
    requires near { slot.position < 2 ^ 61 }
    ensures { let at = state_of A.segments A.room A.books in GetsStructListOrDefault
        (option_copied default.entry) (at memory.old) (at memory.new) slot size result
        (IsSizeOrRefusal A.refuses) }
{
    match (PointerBuilder {
        memory,
        place: slot,
    })
    .get_struct_list(size, default)
    {
        Ok(list) => Ok(list.place),
        Err(error) => Err(error),
    }
}

/// Returns the place of a list of structs, whose empty list of null has its schema's sizes too.
fn sized(list: ListPlace, schema: StructSchema<'_>) -> ListPlace
    ensures { result ≡ sized (shape_of_struct schema.entry) list }
{
    let size = struct_size(schema);
    ListPlace {
        data_words: list.data_words.max(size.data_words),
        pointers: list.pointers.max(size.pointers),
        ..list
    }
}

/// Returns the place of the list that the pointer at a place names.
fn place_of<A: BuilderArena>(
    memory: &mut Memory<A>,
    slot: Place,
    set: &SchemaSet,
    element_type: Type,
    default: Option<&[Word]>,
) -> Result<ListPlace>
    requires there { HasWords (A.segments memory.old.arena) slot 1 }
    requires near { slot.position + 1 < 2 ^ 61 }
    requires known { is_type_of (nodes_of set.now) element_type ≡ true }
    ensures got { IfOk result (PlaceGot (list_read slot (schema_of (nodes_of set.now))
        (ty_of element_type) (option_copied default.entry))
        (words_in (A.segments memory.old.arena)) (words_in (A.segments memory.new.arena))) }
    ensures refused { IfErr result (NoListPartGot (list_read slot (schema_of (nodes_of set.now))
        (ty_of element_type) (option_copied default.entry))
        (words_in (A.segments memory.old.arena)) (words_in (A.segments memory.new.arena))) }
    ensures grows { GrowsBehind (words_in (A.segments memory.old.arena))
        (words_in (A.segments memory.new.arena)) (place_view slot) }
    ensures books { A.books memory.new.arena ≡ A.books memory.old.arena }
{
    match struct_of_type(set, element_type) {
        Some(schema) => {
            let list = struct_list_here(memory, slot, struct_size(schema), default)?;
            Ok(sized(list, schema))
        }
        None => list_here(memory, slot, element_size(element_type), default),
    }
}

/// Returns the list that the pointer at a place names, of elements of a type of the set. A null
/// pointer gets the default, if there is one; otherwise the list is empty, at the pointer itself. A
/// list of structs is widened to their schema's sizes. Bits are also accepted as voids.
///
/// It is refused like `PointerBuilder::get_list`, and if the elements are structs, like
/// `get_struct_list`.
pub fn list_slot<'a, A: BuilderArena>(
    memory: &mut Memory<A>,
    slot: Place,
    set: &'a SchemaSet,
    element_type: Type,
    default: Option<&Value>,
) -> Result<ListPart<'a>>
    requires there { HasWords (A.segments memory.old.arena) slot 1 }
    requires near { slot.position + 1 < 2 ^ 61 }
    requires known { is_type_of (nodes_of set.now) element_type ≡ true }
    ensures got { IfOk result (ListPartGot (list_read slot (schema_of (nodes_of set.now))
        (ty_of element_type) (default_words (option_map value_of (option_copied default.entry))))
        (words_in (A.segments memory.old.arena)) (words_in (A.segments memory.new.arena))) }
    ensures refused { IfErr result (NoListPartGot (list_read slot (schema_of (nodes_of set.now))
        (ty_of element_type) (default_words (option_map value_of (option_copied default.entry))))
        (words_in (A.segments memory.old.arena)) (words_in (A.segments memory.new.arena))) }
    ensures grows { GrowsBehind (words_in (A.segments memory.old.arena))
        (words_in (A.segments memory.new.arena)) (place_view slot) }
    ensures books { A.books memory.new.arena ≡ A.books memory.old.arena }
{
    let place = place_of(memory, slot, set, element_type, default_words(default))?;
    Ok(ListPart {
        place,
        set,
        element_type,
    })
}
