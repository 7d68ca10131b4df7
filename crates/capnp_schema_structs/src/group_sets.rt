//! Groups that are set to structs, over places in an arena: for builders of structs, and for calls
//! that are written into a message in place (`capnp_calls_edits`).
ghost use Rattle.std.specs.Prelude.{◌≡◌, ◌<◌, true, IfErr};
ghost use Rattle.capnp_model.specs.Coverage.{Grows};
ghost use Rattle.capnp_model.specs.Trees.{child, null};
ghost use Rattle.capnp_units.specs.Segments.{words_in};
ghost use Rattle.capnp_wire.specs.Views.{seen_struct};
ghost use Rattle.capnp_values_queries.specs.Handles.{entry_of_field};
ghost use Rattle.capnp_values_queries.specs.Structs.{nodes_around, schema_around, shape_of_struct};
ghost use Rattle.capnp_values_queries.specs.Types.{ty_of, is_type_of};
ghost use Rattle.capnp_values.specs.Sources.{struct_seen};
ghost use Rattle.capnp_copy_arenas.specs.Refusals.{IsSizeOrRefusal};
ghost use Rattle.capnp_schema_structs.specs.Edits.{IsThere};
ghost use Rattle.capnp_schema_structs.specs.Inside.{HasFields};
ghost use Rattle.capnp_schema_structs.specs.Puts.{answered};
ghost use Rattle.capnp_schema_structs.specs.GroupFaults.{IsFieldFaultless, AreFaultless, IsGroupFaultless};
ghost use Rattle.capnp_schema_structs.specs.GroupRefusals.{type_tested, NullFieldRefused, field_pointer, SomeRefused, FieldRefused, OneRefused};
ghost use Rattle.capnp_schema_structs.specs.GroupWrites.{GroupSource};
ghost use Rattle.capnp_schema_structs.specs.GroupSets.{IsNotNull, IsFaultlessInTurn, IsToldIfFaultless, WritesIn, WritesRead, IsPointerAt, SetsFields, copied_field, copied_turn, copied_fields, copied_group};

use crate::group_nulls::{default_value, put_null};
use crate::group_sources::{bits_in, copy_child, has_turn};
use crate::slots::{clear_field, mark, pointer_place};
use capnp_copy_arenas::arena::BuilderArena;
use capnp_copy_arenas::fields::{StructPlace, set_bits};
use capnp_records::node::NO_DISCRIMINANT;
use capnp_units::errors::{Error, Result};
use capnp_units::kinds::ErrorKind;
use capnp_values::dynamic_struct::Reader;
use capnp_values::laws::{nulls_are_read, pointers_are_read};
use capnp_values::source::StructSource;
use capnp_values_queries::fields::Field;
use capnp_values_queries::introspect::{Type, TypeVariant};
use capnp_values_queries::slots::{FieldPlace, width_of};
use capnp_values_queries::structs::StructSchema;
use capnp_wire::structs::StructReader;
use capnp_wire_objects::arena::ReaderArena;

/// Checks that a slot of a pointer's type can be set: untyped pointers and capabilities can't.
fn test_type(ty: Type) -> Result<()>
    ensures { answered result ≡ type_tested (ty_of ty) }
{
    let kind = match ty.which() {
        TypeVariant::AnyPointer => ErrorKind::CannotSetAnyPointerFieldToAPrimitiveValue,
        TypeVariant::Capability => ErrorKind::SettingDynamicCapabilitiesIsUnsupported,
        _ => return Ok(()),
    };
    Err(Error::from(kind))
}

/// Sets a field whose pointer is null in the source: the field is left. If it is a union's member,
/// it becomes its default, otherwise the empty value of its type, and the union is marked.
fn copy_null<A: BuilderArena>(
    arena: &mut A,
    object: StructPlace,
    field: Field<'_>,
    index: u32,
    ty: Type,
) -> Result<()>
    requires there { IsThere (words_in (A.segments arena.old)) object }
    requires inside { HasFields object (shape_of_struct field.parent) × (index < object.pointers) }
    requires slot { IsPointerAt index (ty_of ty) (entry_of_field field)
        × (is_type_of (nodes_around field.parent) ty ≡ true) }
    ensures writes { (from : GroupSource) → child from.kids index ≡ null
        → WritesIn A.segments arena.old arena.new object (copied_field field.entry from) result }
    ensures why { IfErr result (NullFieldRefused (IsSizeOrRefusal A.refuses) field.entry
        (words_in (A.segments arena.new))) }
    ensures cause { (from : GroupSource) → child from.kids index ≡ null → IfErr result (λ e.
        IsFieldFaultless field.entry from → IsSizeOrRefusal A.refuses e) }
    ensures grows { Grows (words_in (A.segments arena.old)) (words_in (A.segments arena.new)) }
    ensures books { A.books arena.new ≡ A.books arena.old }
{
    let said = field.get_proto();
    if said.discriminant_value == NO_DISCRIMINANT {
        return Ok(());
    }
    test_type(ty)?;
    let slot = pointer_place(object, index);
    put_null(arena, slot, field.parent().set(), ty, default_value(field))?;
    mark(arena, object, field);
    Ok(())
}

/// Sets a field whose pointer isn't null in the source, and then marks its union. It is refused if
/// the pointer can't be read as the field's type.
fn copy_some<'a, A: BuilderArena, B: ReaderArena>(
    arena: &mut A,
    object: StructPlace,
    field: Field<'a>,
    source: &StructReader<'a, B>,
    index: u32,
    ty: Type,
) -> Result<()>
    requires there { IsThere (words_in (A.segments arena.old)) object }
    requires inside { HasFields object (shape_of_struct field.parent) × (index < object.pointers) }
    requires slot { IsPointerAt index (ty_of ty) (entry_of_field field) }
    requires some { IsNotNull (seen_struct B.segments source.now) index }
    ensures writes { WritesRead A.segments (seen_struct B.segments source.now) arena.old arena.new
        object (copied_field field.entry) result }
    ensures why { IfErr result (SomeRefused (IsSizeOrRefusal A.refuses) (field_pointer field.entry
        (seen_struct B.segments source.now) index (ty_of ty)) (words_in (A.segments arena.new))) }
    ensures cause { IsToldIfFaultless (IsSizeOrRefusal A.refuses)
        (seen_struct B.segments source.now) (IsFieldFaultless field.entry) result }
    ensures grows { Grows (words_in (A.segments arena.old)) (words_in (A.segments arena.new)) }
    ensures books { A.books arena.new ≡ A.books arena.old }
{
    nulls_are_read();
    pointers_are_read();
    // For the proof, which cites what the node record says of the field.
    let _said = field.get_proto();
    test_type(ty)?;
    Reader::new(*source, field.parent()).get(field)?;
    copy_child(arena, pointer_place(object, index), source, index)?;
    mark(arena, object, field);
    Ok(())
}

/// Sets a field to its value in the source, and marks its union.
#[cycle(sets)]
fn copy_field<'a, A: BuilderArena, B: ReaderArena>(
    arena: &mut A,
    object: StructPlace,
    field: Field<'a>,
    source: &StructReader<'a, B>,
) -> Result<()>
    requires there { IsThere (words_in (A.segments arena.old)) object }
    requires inside { HasFields object (shape_of_struct field.parent) }
    ensures writes { WritesRead A.segments (seen_struct B.segments source.now) arena.old arena.new
        object (copied_field field.entry) result }
    ensures why { IfErr result (FieldRefused (IsSizeOrRefusal A.refuses) field.entry
        (seen_struct B.segments source.now) (words_in (A.segments arena.new))) }
    ensures cause { IsToldIfFaultless (IsSizeOrRefusal A.refuses)
        (seen_struct B.segments source.now) (IsFieldFaultless field.entry) result }
    ensures grows { Grows (words_in (A.segments arena.old)) (words_in (A.segments arena.new)) }
    ensures books { A.books arena.new ≡ A.books arena.old }
{
    nulls_are_read();
    // For the proof, which cites what the node record says of the field.
    let _said = field.get_proto();
    match field.place() {
        FieldPlace::Void { .. } => {
            mark(arena, object, field);
            Ok(())
        }
        FieldPlace::Plain { ty, offset, .. } => {
            mark(arena, object, field);
            let width = width_of(ty);
            let at = width as usize * offset as usize;
            set_bits(arena, object, at, width, bits_in(source, ty, offset));
            Ok(())
        }
        FieldPlace::Pointer { index, ty, .. } => {
            if source.is_pointer_field_null(index as usize) {
                return copy_null(arena, object, field, index, ty);
            }
            copy_some(arena, object, field, source, index, ty)
        }
        FieldPlace::Group { schema } => {
            clear_field(arena, object, field);
            copy_group(arena, object, schema, source)
        }
    }
}

/// Sets a field in its turn to its value in the source: the member that is active there, or a field
/// that is not a member.
#[cycle(sets)]
fn copy_turn<'a, A: BuilderArena, B: ReaderArena>(
    arena: &mut A,
    object: StructPlace,
    field: Field<'a>,
    source: &StructReader<'a, B>,
    members: bool,
) -> Result<()>
    requires there { IsThere (words_in (A.segments arena.old)) object }
    requires inside { HasFields object (shape_of_struct field.parent) }
    ensures writes { WritesRead A.segments (seen_struct B.segments source.now) arena.old arena.new
        object (copied_turn field.entry members) result }
    ensures why { IfErr result (FieldRefused (IsSizeOrRefusal A.refuses) field.entry
        (seen_struct B.segments source.now) (words_in (A.segments arena.new))) }
    ensures cause { IsToldIfFaultless (IsSizeOrRefusal A.refuses)
        (seen_struct B.segments source.now) (IsFaultlessInTurn field.entry members) result }
    ensures grows { Grows (words_in (A.segments arena.old)) (words_in (A.segments arena.new)) }
    ensures books { A.books arena.new ≡ A.books arena.old }
{
    if !has_turn(source, field, members) {
        return Ok(());
    }
    copy_field(arena, object, field, source)
}

/// Sets the fields of a group that have their turn to their values in the source.
#[cycle(sets)]
fn copy_fields<'a, A: BuilderArena, B: ReaderArena>(
    arena: &mut A,
    object: StructPlace,
    schema: StructSchema<'a>,
    source: &StructReader<'a, B>,
    members: bool,
) -> Result<()>
    requires there { IsThere (words_in (A.segments arena.old)) object }
    requires inside { HasFields object (shape_of_struct schema) }
    ensures writes { WritesRead A.segments (seen_struct B.segments source.now) arena.old arena.new
        object (copied_fields (schema_around schema.entry) members (shape_of_struct schema.entry))
        result }
    ensures why { IfErr result (OneRefused (IsSizeOrRefusal A.refuses) schema.entry
        (seen_struct B.segments source.now) (words_in (A.segments arena.new))) }
    ensures cause { IsToldIfFaultless (IsSizeOrRefusal A.refuses)
        (seen_struct B.segments source.now) (AreFaultless (schema_around schema.entry) members
        (shape_of_struct schema.entry)) result }
    ensures grows { Grows (words_in (A.segments arena.old)) (words_in (A.segments arena.new)) }
    ensures books { A.books arena.new ≡ A.books arena.old }
{
    if let Ok(fields) = schema.get_fields() {
        for i in 0..fields.len() {
            copy_turn(arena, object, fields.get(i), source, members)?;
        }
    }
    Ok(())
}

/// Sets the fields of a cleared group to their values in the source: the active member, then the
/// fields that are not members.
#[cycle(sets)]
fn copy_group<'a, A: BuilderArena, B: ReaderArena>(
    arena: &mut A,
    object: StructPlace,
    schema: StructSchema<'a>,
    source: &StructReader<'a, B>,
) -> Result<()>
    requires there { IsThere (words_in (A.segments arena.old)) object }
    requires inside { HasFields object (shape_of_struct schema) }
    ensures writes { WritesRead A.segments (seen_struct B.segments source.now) arena.old arena.new
        object (copied_group (schema_around schema.entry) (shape_of_struct schema.entry)) result }
    ensures why { IfErr result (OneRefused (IsSizeOrRefusal A.refuses) schema.entry
        (seen_struct B.segments source.now) (words_in (A.segments arena.new))) }
    ensures cause { IsToldIfFaultless (IsSizeOrRefusal A.refuses)
        (seen_struct B.segments source.now) (IsGroupFaultless (schema_around schema.entry)
        (shape_of_struct schema.entry)) result }
    ensures grows { Grows (words_in (A.segments arena.old)) (words_in (A.segments arena.new)) }
    ensures books { A.books arena.new ≡ A.books arena.old }
{
    copy_fields(arena, object, schema, source, true)?;
    copy_fields(arena, object, schema, source, false)
}

/// Sets a field that is a group to a struct, of a message or of a default, whatever its schema, and
/// marks its union. The group is cleared, then the struct's active member is set, then its other
/// fields by index, and nested groups in the same way. A null pointer is left, but that of an
/// active member becomes its default, otherwise the empty value of its type. Values past the
/// struct's data section read as zero, also if the section isn't whole words, as in an element of a
/// list of numbers.
///
/// It is refused at the first of these fields that can't be set:
/// - with `CannotSetAnyPointerFieldToAPrimitiveValue` at an untyped pointer that isn't null or is
///   an active member;
/// - with `SettingDynamicCapabilitiesIsUnsupported` at such a capability;
/// - like `dynamic_struct::Reader::get` if a pointer can't be read as its type;
/// - at a null pointer of the active member only for lack of room for its default or its empty
///   value. The error is `SizeOverflow` exactly when the value is too long, or the message's words
///   with its next object and a pad would exceed 2^29 - 1, otherwise the allocator's error;
/// - otherwise like a copy.
///
/// After a refusal the group has a beginning of its writes, and everything else is unchanged.
pub fn set_group<'a, A: BuilderArena, B: ReaderArena>(
    arena: &mut A,
    object: StructPlace,
    field: Field<'a>,
    source: StructSource<'a, B>,
) -> Result<()>
    requires there { IsThere (words_in (A.segments arena.old)) object }
    requires inside { HasFields object (shape_of_struct field.parent) }
    ensures sets { SetsFields (IsSizeOrRefusal A.refuses) (struct_seen B.segments source.entry)
        (words_in (A.segments arena.old)) (words_in (A.segments arena.new)) object field.entry
        result }
    ensures grows { Grows (words_in (A.segments arena.old)) (words_in (A.segments arena.new)) }
    ensures books { A.books arena.new ≡ A.books arena.old }
{
    match source {
        StructSource::Message(source) => copy_field(arena, object, field, &source),
        StructSource::Default(source) => copy_field(arena, object, field, &source),
    }
}
