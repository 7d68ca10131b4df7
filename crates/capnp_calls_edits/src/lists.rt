//! Lists on the way of calls.
ghost use Rattle.std.specs.Prelude.{◌≡◌, ◌<◌, ◌^◌, true, option_copied, IfOk, IfErr, OnOk};
ghost use Rattle.capnp_model.specs.Accepted.{schema_of};
ghost use Rattle.capnp_model.specs.Edits.{as_list};
ghost use Rattle.capnp_model.specs.Schemas.{list};
ghost use Rattle.capnp_model.specs.Trees.{Tree};
ghost use Rattle.capnp_units.specs.Segments.{words_in};
ghost use Rattle.capnp_wire_objects.specs.Places.{place_view};
ghost use Rattle.capnp_records.specs.Sets.{nodes_of};
ghost use Rattle.capnp_layout_builders.specs.Gets.{Gets};
ghost use Rattle.capnp_copy_arenas.specs.States.{HasWords};
ghost use Rattle.capnp_copy_arenas.specs.Refusals.{IsSizeOrRefusal};
ghost use Rattle.capnp_values_queries.specs.Types.{ty_of, is_type_of};
ghost use Rattle.capnp_calls_edits.specs.Elements.{ListBehind};
ghost use Rattle.capnp_calls_edits.specs.Written.{WhereRead, HoldsDefaultOrNull};
ghost use Rattle.capnp_calls_edits.specs.Behind.{BytesGrowBehind};

use capnp_copy_arenas::arena::BuilderArena;
use capnp_copy_arenas::init::ListPlace;
use capnp_copy_widening::lists::{Taker, get_list};
use capnp_copy_widening::struct_lists::get_struct_list;
use capnp_layout_builders::gets::begin;
use capnp_model_writes::laws::{changes_of_values, changes_with_more_levels};
use capnp_records::set::SchemaSet;
use capnp_schema_structs::init::{struct_of_type, struct_size};
use capnp_units::errors::Result;
use capnp_units::sizes::Word;
use capnp_values_queries::introspect::Type;
use capnp_wire::laws::gets_are_readings;
use capnp_wire_objects::place::Place;

/// Readies the list of elements of a type that a pointer leads to. A null pointer gets the default,
/// and if the elements are structs, the list becomes a list of structs of their schema's sizes.
fn begin_list<A: BuilderArena>(
    arena: &mut A,
    slot: Place,
    set: &SchemaSet,
    ty: Type,
    default: Option<&[Word]>,
) -> Result<()>
    requires there { HasWords (A.segments arena.old) slot 1 }
    requires near { slot.position < 2 ^ 61 }
    requires known { is_type_of (nodes_of set.now) ty ≡ true }
    ensures value { OnOk result (Gets (option_copied default.entry)
        (words_in (A.segments arena.old)) (words_in (A.segments arena.new)) (place_view slot)
        (as_list (schema_of (nodes_of set.now)) (ty_of ty))) }
    ensures grows { BytesGrowBehind (A.segments arena.old) (A.segments arena.new) slot }
    ensures cause { (d : Tree) → HoldsDefaultOrNull (option_copied default.entry) d → IfErr result
        (λ e. WhereRead (words_in (A.segments arena.old)) (place_view slot)
        (record { around = schema_of (nodes_of set.now); ty = list (ty_of ty); default = d })
        (IsSizeOrRefusal A.refuses e)) }
    ensures books { A.books arena.new ≡ A.books arena.old }
{
    changes_of_values();
    changes_with_more_levels();
    gets_are_readings();
    begin(arena, slot, default)?;
    match struct_of_type(set, ty) {
        Some(schema) => {
            get_struct_list(arena, slot, struct_size(schema))?;
            Ok(())
        }
        None => Ok(()),
    }
}

/// Returns the list of elements of a type that a pointer leads to. A null pointer gets the default,
/// if there is one; otherwise the list is empty, at the pointer itself. If the elements are
/// structs, the list becomes a list of structs of their schema's sizes.
///
/// It is refused like `write_default`, then like `get_struct_list` and a reader's `get_list` of
/// `capnp_copy_widening`. So bits aren't accepted as voids.
pub(crate) fn list_behind<A: BuilderArena>(
    arena: &mut A,
    slot: Place,
    set: &SchemaSet,
    ty: Type,
    default: Option<&[Word]>,
) -> Result<ListPlace>
    requires there { HasWords (A.segments arena.old) slot 1 }
    requires near { slot.position < 2 ^ 61 }
    requires known { is_type_of (nodes_of set.now) ty ≡ true }
    ensures got { IfOk result (ListBehind (option_copied default.entry)
        (words_in (A.segments arena.old)) (words_in (A.segments arena.new)) slot
        (schema_of (nodes_of set.now)) (ty_of ty)) }
    ensures grows { BytesGrowBehind (A.segments arena.old) (A.segments arena.new) slot }
    ensures cause { (d : Tree) → HoldsDefaultOrNull (option_copied default.entry) d → IfErr result
        (λ e. WhereRead (words_in (A.segments arena.old)) (place_view slot)
        (record { around = schema_of (nodes_of set.now); ty = list (ty_of ty); default = d })
        (IsSizeOrRefusal A.refuses e)) }
    ensures books { A.books arena.new ≡ A.books arena.old }
{
    gets_are_readings();
    begin_list(arena, slot, set, ty, default)?;
    get_list(arena, slot, ty.expected_element_size(), Taker::Reader)
}
