//! Structs of zeros and nulls, put into slots.
ghost use Rattle.std.specs.Prelude.{◌≡◌, ◌<◌, ◌^◌, true, option_map, IfSome, IfOk, IfErr, OnOk, OnErr};
ghost use Rattle.capnp_model.specs.Coverage.{Grows};
ghost use Rattle.capnp_units.specs.Segments.{words_in};
ghost use Rattle.capnp_units.specs.Errors.{kind_of};
ghost use Rattle.capnp_records.specs.Sets.{nodes_of};
ghost use Rattle.capnp_values_queries.specs.Structs.{nodes_around, shape_of_struct, id_of};
ghost use Rattle.capnp_values_queries.specs.Handles.{entry_of_field};
ghost use Rattle.capnp_values_queries.specs.Types.{ty_of, is_type_of};
ghost use Rattle.capnp_schema_structs.specs.Begun.{IsPartThere};
ghost use Rattle.capnp_schema_structs.specs.Inside.{HasFields, size_of_shape};
ghost use Rattle.capnp_schema_structs.specs.Edits.{IsThere, HoldsShape};
ghost use Rattle.capnp_schema_structs.specs.Inits.{struct_named, no_struct, is_slot, begun_slot, MakesEmptyStruct, LeadsToStruct, PutsNewStruct, LiesInField, StructNotMade};
ghost use Rattle.capnp_copy_arenas.specs.Refusals.{IsSizeOrRefusal};
ghost use Rattle.capnp_copy_arenas.specs.States.{HasWords, state_in};
ghost use Rattle.capnp_schema_structs.specs.Puts.{BytesGrow, HasCause};

use crate::slots::{mark, pointer_place};
use capnp_copy_arenas::arena::BuilderArena;
use capnp_copy_arenas::fields::StructPlace;
use capnp_copy_arenas::init::init_struct;
use capnp_records::set::SchemaSet;
use capnp_units::errors::{Error, Result};
use capnp_units::kinds::ErrorKind;
use capnp_units::sizes::StructSize;
use capnp_values_queries::fields::Field;
use capnp_values_queries::introspect::{Type, TypeVariant};
use capnp_values_queries::slots::FieldPlace;
use capnp_values_queries::structs::StructSchema;
use capnp_wire_objects::place::Place;

/// A struct of the message, with its schema.
#[derive(Clone, Copy)]
pub struct Part<'a> {
    pub place: StructPlace,
    pub schema: StructSchema<'a>,
}

/// Returns the two sizes of a schema's structs.
pub fn struct_size(schema: StructSchema<'_>) -> StructSize
    ensures { result ≡ size_of_shape (shape_of_struct schema.entry) }
{
    let record = schema.record();
    StructSize {
        data_words: record.data_word_count,
        pointers: record.pointer_count,
    }
}

/// Returns the schema of the struct that a type of a set names, if it is a struct type.
pub fn struct_of_type<'a>(set: &'a SchemaSet, ty: Type) -> Option<StructSchema<'a>>
    requires { is_type_of (nodes_of set.now) ty ≡ true }
    ensures named { option_map id_of result ≡ struct_named (ty_of ty) }
    ensures nodes { IfSome result (λ s. nodes_around s ≡ nodes_of set.now) }
{
    match ty.which() {
        TypeVariant::Struct(raw) => Some(StructSchema::new(set, raw)),
        _ => None,
    }
}

/// Returns the reason for which no struct is made in a slot of a pointer's type other than a
/// struct's.
fn refusal(ty: Type) -> ErrorKind
    requires { struct_named (ty_of ty) ≡ None }
    ensures { kind_of result ≡ no_struct (ty_of ty) }
{
    match ty.which() {
        TypeVariant::AnyPointer => ErrorKind::TypeMismatch,
        _ => ErrorKind::InitIsOnlyValidForStructAndAnyPointerFields,
    }
}

/// Replaces the value of the pointer at a place, which is cleared, by a struct of a schema's sizes.
fn put_struct<A: BuilderArena>(
    arena: &mut A,
    slot: Place,
    schema: StructSchema<'_>,
) -> Result<StructPlace>
    requires there { HasWords (A.segments arena.old) slot 1 }
    requires near { slot.position < 2 ^ 61 }
    ensures made { let at = state_in A.segments A.room A.books in OnOk result
        (MakesEmptyStruct (at arena.old) (at arena.new) slot (shape_of_struct schema.entry)) }
    ensures leads { IfOk result (LeadsToStruct (words_in (A.segments arena.new)) slot) }
    ensures there { IfOk result (λ o. IsThere (words_in (A.segments arena.new)) o) }
    ensures wide { IfOk result (λ o. HoldsShape o (shape_of_struct schema.entry)) }
    ensures refused { let at = state_in A.segments A.room A.books in IfErr result
        (StructNotMade (at arena.old) (at arena.new) slot (shape_of_struct schema.entry)) }
    ensures cause { IfErr result (IsSizeOrRefusal A.refuses) }
    ensures grows { OnOk result (BytesGrow (A.segments arena.old) (A.segments arena.new)) }
    ensures books { A.books arena.new ≡ A.books arena.old }
{
    init_struct(arena, slot, struct_size(schema))
}

/// Replaces the value of a slot of a struct type, which is cleared, by a struct of zeros and nulls,
/// like `init` of a dynamic struct's builder for such a field. A union member becomes the active
/// member. The struct takes the words of its schema's two sizes if the holder's segment has room
/// for them, otherwise at most one more.
///
/// It is refused
/// - with `TypeMismatch` if the slot is untyped;
/// - with `InitIsOnlyValidForStructAndAnyPointerFields` if it is of another type;
/// - with `SizeOverflow` exactly when the message's words, including a pad, would exceed 2^29 - 1;
/// - otherwise with the allocator's error.
///
/// Memory is taken before the union is marked, so after a refusal everything is unchanged.
pub fn init_slot<'a, A: BuilderArena>(
    arena: &mut A,
    object: StructPlace,
    field: Field<'a>,
) -> Result<Part<'a>>
    requires there { IsThere (words_in (A.segments arena.old)) object }
    requires inside { HasFields object (shape_of_struct field.parent) }
    requires slot { is_slot (entry_of_field field) ≡ true }
    ensures puts { let at = state_in A.segments A.room A.books in
        PutsNewStruct (at arena.old) (at arena.new) object field.entry result }
    ensures lies { IfOk result (LiesInField (words_in (A.segments arena.old))
        (words_in (A.segments arena.new)) object field.entry) }
    ensures there { IfOk result (IsPartThere (words_in (A.segments arena.new))) }
    ensures cause { IfErr result (HasCause (begun_slot field.entry) (IsSizeOrRefusal A.refuses)) }
    ensures refused { OnErr result (A.segments arena.new ≡ A.segments arena.old) }
    ensures grows { Grows (words_in (A.segments arena.old)) (words_in (A.segments arena.new)) }
    ensures books { A.books arena.new ≡ A.books arena.old }
{
    // For the proof, which cites what the node record says of the field.
    let _said = field.get_proto();
    match field.place() {
        FieldPlace::Pointer { index, ty, .. } => {
            let Some(schema) = struct_of_type(field.parent().set(), ty) else {
                return Err(Error::from(refusal(ty)));
            };
            let place = put_struct(arena, pointer_place(object, index), schema)?;
            mark(arena, object, field);
            Ok(Part { place, schema })
        }
        FieldPlace::Void { .. } | FieldPlace::Plain { .. } | FieldPlace::Group { .. } => {
            Err(Error::from(ErrorKind::InitIsOnlyValidForStructAndAnyPointerFields))
        }
    }
}
