//! Values that calls set into the fields at the ends of their paths.
ghost use Rattle.std.specs.Prelude.{◌≡◌, ◌<◌, ◌^◌, [], true, IfSome, IfErr, OnOk};
ghost use Rattle.capnp_model.specs.Schemas.{width};
ghost use Rattle.capnp_model.specs.Calls.{set_to, plain_content};
ghost use Rattle.capnp_model.specs.Coverage.{Grows};
ghost use Rattle.capnp_units.specs.Segments.{words_in};
ghost use Rattle.capnp_values_queries.specs.Handles.{plain_of};
ghost use Rattle.capnp_values_queries.specs.Structs.{shape_of_struct};
ghost use Rattle.capnp_calls.specs.CallViews.{slot_value_view};
ghost use Rattle.capnp_calls.specs.Contents.{bits_content};
ghost use Rattle.capnp_copy_arenas.specs.Refusals.{IsSizeOrRefusal};
ghost use Rattle.capnp_schema_structs.specs.Edits.{IsThere, HoldsShape};
ghost use Rattle.capnp_calls_edits.specs.Written.{WritesField, WhereFieldTakes, is_single};

use crate::messages::set_message;
use capnp_calls::SlotValue;
use capnp_calls::number::bits_for;
use capnp_copy_arenas::arena::BuilderArena;
use capnp_copy_arenas::fields::{StructPlace, set_bits};
use capnp_schema_structs::setting::set_flat;
use capnp_schema_structs::slots::mark;
use capnp_text::text;
use capnp_units::errors::{Error, Result};
use capnp_units::kinds::ErrorKind;
use capnp_values::dynamic_value::Reader;
use capnp_values_queries::fields::Field;
use capnp_values_queries::slots::{FieldPlace, width_of};
use capnp_wire_objects::arena::NullArena;

/// Sets a plain field to a value of its type, or a Void field to any, and marks its union. Other
/// fields, and values out of range, are refused with `TypeMismatch`.
fn set_plain<A: BuilderArena>(
    arena: &mut A,
    object: StructPlace,
    field: Field<'_>,
    value: &SlotValue,
) -> Result<()>
    requires there { IsThere (words_in (A.segments arena.old)) object }
    requires wide { HoldsShape object (shape_of_struct field.parent) }
    ensures writes { OnOk result (WritesField (words_in (A.segments arena.old))
        (words_in (A.segments arena.new)) object field.entry
        (record { path = []; verb = set_to (slot_value_view value.now) })) }
    ensures grows { Grows (words_in (A.segments arena.old)) (words_in (A.segments arena.new)) }
    ensures cause { is_single (slot_value_view value.now) ≡ true → IfErr result (λ e.
        WhereFieldTakes field.entry (set_to (slot_value_view value.now))
        (IsSizeOrRefusal A.refuses e)) }
    ensures books { A.books arena.new ≡ A.books arena.old }
{
    // For the proof, which cites what the node record says of the field.
    let _said = field.get_proto();
    match field.place() {
        FieldPlace::Void { .. } => {
            mark(arena, object, field);
            Ok(())
        }
        FieldPlace::Plain {
            ty,
            offset,
            default_bits,
        } => {
            let Some(bits) = bits_for(ty, value) else {
                return Err(Error::from(ErrorKind::TypeMismatch));
            };
            mark(arena, object, field);
            let width = width_of(ty);
            let at = width as usize * offset as usize;
            set_bits(arena, object, at, width, bits ^ default_bits);
            Ok(())
        }
        FieldPlace::Pointer { .. } | FieldPlace::Group { .. } => {
            Err(Error::from(ErrorKind::TypeMismatch))
        }
    }
}

/// Sets a field to a value, and marks its union.
pub(crate) fn set_value<A: BuilderArena>(
    arena: &mut A,
    object: StructPlace,
    field: Field<'_>,
    value: &SlotValue,
) -> Result<()>
    requires there { IsThere (words_in (A.segments arena.old)) object }
    requires wide { HoldsShape object (shape_of_struct field.parent) }
    ensures writes { OnOk result (WritesField (words_in (A.segments arena.old))
        (words_in (A.segments arena.new)) object field.entry
        (record { path = []; verb = set_to (slot_value_view value.now) })) }
    ensures grows { Grows (words_in (A.segments arena.old)) (words_in (A.segments arena.new)) }
    ensures cause { IfErr result (λ e. WhereFieldTakes field.entry
        (set_to (slot_value_view value.now)) (IsSizeOrRefusal A.refuses e)) }
    ensures books { A.books arena.new ≡ A.books arena.old }
{
    // For the proof, which cites what the node record says of the field.
    let _said = field.get_proto();
    match value {
        SlotValue::Number(_) | SlotValue::Bool(_) | SlotValue::Enum(_) => {
            set_plain(arena, object, field, value)
        }
        SlotValue::Text(text) => {
            let text: Reader<'_, NullArena> = Reader::Text(text::Reader(text.as_bytes()));
            set_flat(arena, object, field, &text)
        }
        SlotValue::Data(bytes) => {
            let data: Reader<'_, NullArena> = Reader::Data(bytes);
            set_flat(arena, object, field, &data)
        }
        SlotValue::Message(value) => set_message(arena, object, field, value),
    }
}
