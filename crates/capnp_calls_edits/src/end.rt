//! Calls written at the ends of their paths.
ghost use Rattle.std.specs.Prelude.{◌≡◌, [], IfErr, OnOk};
ghost use Rattle.capnp_model.specs.Coverage.{Grows};
ghost use Rattle.capnp_units.specs.Segments.{words_in};
ghost use Rattle.capnp_values_queries.specs.Structs.{shape_of_struct};
ghost use Rattle.capnp_calls.specs.CallViews.{action_view};
ghost use Rattle.capnp_copy_arenas.specs.Refusals.{IsSizeOrRefusal};
ghost use Rattle.capnp_schema_structs.specs.Edits.{IsThere, HoldsShape};
ghost use Rattle.capnp_calls_edits.specs.Written.{WritesField, WhereFieldTakes};

use crate::values::set_value;
use capnp_calls::Action;
use capnp_copy_arenas::arena::BuilderArena;
use capnp_copy_arenas::fields::StructPlace;
use capnp_schema_structs::begin::begin_field;
use capnp_schema_structs::initn::initn_slot;
use capnp_schema_structs::slots::clear_field;
use capnp_units::errors::{Error, Result};
use capnp_units::kinds::ErrorKind;
use capnp_values_queries::fields::Field;

/// Writes a call at the field at the end of its path.
pub(crate) fn write_end<A: BuilderArena>(
    arena: &mut A,
    object: StructPlace,
    field: Field<'_>,
    action: &Action,
) -> Result<()>
    requires there { IsThere (words_in (A.segments arena.old)) object }
    requires wide { HoldsShape object (shape_of_struct field.parent) }
    ensures writes { OnOk result (WritesField (words_in (A.segments arena.old))
        (words_in (A.segments arena.new)) object field.entry
        (record { path = []; verb = action_view action.now })) }
    ensures grows { Grows (words_in (A.segments arena.old)) (words_in (A.segments arena.new)) }
    ensures cause { IfErr result (λ e. WhereFieldTakes field.entry (action_view action.now)
        (IsSizeOrRefusal A.refuses e)) }
    ensures books { A.books arena.new ≡ A.books arena.old }
{
    match action {
        Action::Clear => {
            clear_field(arena, object, field);
            Ok(())
        }
        Action::Init => {
            begin_field(arena, object, field)?;
            Ok(())
        }
        Action::Initn(count) => initn_slot(arena, object, field, *count),
        Action::Set(value) => set_value(arena, object, field, value),
        Action::Get => Err(Error::from(ErrorKind::WrongStep)),
    }
}
