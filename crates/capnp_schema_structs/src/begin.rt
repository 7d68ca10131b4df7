//! Beginning of fields by new values.
ghost use Rattle.std.specs.Prelude.{◌≡◌, IfOk, IfErr, OnErr};
ghost use Rattle.capnp_model.specs.Coverage.{Grows};
ghost use Rattle.capnp_units.specs.Segments.{words_in};
ghost use Rattle.capnp_values_queries.specs.Handles.{entry_of_field};
ghost use Rattle.capnp_values_queries.specs.Structs.{schema_around, shape_of_struct};
ghost use Rattle.capnp_values_queries.specs.Types.{ty_of};
ghost use Rattle.capnp_schema_structs.specs.Edits.{IsThere, HoldsShape};
ghost use Rattle.capnp_schema_structs.specs.Begun.{begun_field, PutsBegun, TellsBegunField, IsThereIfTold, is_untyped};
ghost use Rattle.capnp_copy_arenas.specs.Refusals.{IsSizeOrRefusal};
ghost use Rattle.capnp_copy_arenas.specs.States.{state_in};
ghost use Rattle.capnp_schema_structs.specs.Puts.{HasCause};

use crate::init::{Part, init_slot};
use crate::slots::clear_field;
use capnp_copy_arenas::arena::BuilderArena;
use capnp_copy_arenas::fields::StructPlace;
use capnp_units::errors::{Error, Result};
use capnp_units::kinds::ErrorKind;
use capnp_values_queries::fields::Field;
use capnp_values_queries::introspect::{Type, TypeVariant};
use capnp_values_queries::slots::FieldPlace;

/// Returns whether a type is an untyped pointer.
fn is_untyped(ty: Type) -> bool
    ensures { result ≡ is_untyped (ty_of ty) }
{
    match ty.which() {
        TypeVariant::AnyPointer => true,
        _ => false,
    }
}

/// Begins a field, like `init` of a dynamic struct's builder. A slot of a struct type gets a struct
/// of zeros and nulls, as in `init_slot`; a group is cleared, as in `clear`; an untyped slot
/// becomes null. A union member becomes the active member. It returns the place of the struct or
/// the group, and `None` for an untyped slot. A group and an untyped slot take no memory.
///
/// It is refused, and then everything is unchanged,
/// - with `InitIsOnlyValidForStructAndAnyPointerFields` if the field is of another type;
/// - a struct with `SizeOverflow` exactly when the message's words, including a pad, would exceed
///   2^29 - 1;
/// - a struct otherwise with the allocator's error.
pub fn begin_field<'a, A: BuilderArena>(
    arena: &mut A,
    object: StructPlace,
    field: Field<'a>,
) -> Result<Option<Part<'a>>>
    requires there { IsThere (words_in (A.segments arena.old)) object }
    requires wide { HoldsShape object (shape_of_struct field.parent) }
    ensures puts { let at = state_in A.segments A.room A.books in
        PutsBegun (at arena.old) (at arena.new) object field.entry result }
    ensures tells { IfOk result (TellsBegunField (words_in (A.segments arena.old))
        (words_in (A.segments arena.new)) object field.entry) }
    ensures there { IfOk result (IsThereIfTold (words_in (A.segments arena.new))) }
    ensures cause { IfErr result (HasCause (begun_field (schema_around field.entry.parent)
        (entry_of_field field.entry)) (IsSizeOrRefusal A.refuses)) }
    ensures refused { OnErr result (A.segments arena.new ≡ A.segments arena.old) }
    ensures grows { Grows (words_in (A.segments arena.old)) (words_in (A.segments arena.new)) }
    ensures books { A.books arena.new ≡ A.books arena.old }
{
    // For the proof, which cites the record of the field's parent and what it says of the field.
    let holder = field.parent().record();
    let _words = holder.data_word_count;
    let _said = field.get_proto();
    match field.place() {
        FieldPlace::Group { schema } => {
            clear_field(arena, object, field);
            let place = object;
            Ok(Some(Part { place, schema }))
        }
        FieldPlace::Pointer { ty, .. } => {
            if is_untyped(ty) {
                clear_field(arena, object, field);
                return Ok(None);
            }
            let part = init_slot(arena, object, field)?;
            Ok(Some(part))
        }
        FieldPlace::Void { .. } | FieldPlace::Plain { .. } => {
            Err(Error::from(ErrorKind::InitIsOnlyValidForStructAndAnyPointerFields))
        }
    }
}
