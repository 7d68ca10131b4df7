//! Values of any kind, set into slots: structs and lists are copied whole.
ghost use Rattle.std.specs.Prelude.{◌≡◌, ◌<◌, ◌^◌, ◌&&◌, true, false, option_map, OnSome, OnErr};
ghost use Rattle.std.specs.Option.{is_some};
ghost use Rattle.capnp_model.specs.Accepted.{areas_of};
ghost use Rattle.capnp_model.specs.Segments.{words_at};
ghost use Rattle.capnp_units.specs.Errors.{kind_of};
ghost use Rattle.capnp_units.specs.Segments.{words_in};
ghost use Rattle.capnp_wire_objects.specs.Places.{place_view};
ghost use Rattle.capnp_layout_builders.specs.Copied.{SetsStruct, SetsList};
ghost use Rattle.capnp_layout_builders.specs.Making.{state_of};
ghost use Rattle.capnp_copy_arenas.specs.Refusals.{IsSizeOrRefusal};
ghost use Rattle.capnp_values_queries.specs.Structs.{shape_of_struct};
ghost use Rattle.capnp_values_queries.specs.Handles.{entry_of_field};
ghost use Rattle.capnp_values_queries.specs.Types.{ty_of};
ghost use Rattle.capnp_values.specs.Sources.{WithoutLimit, struct_seen, list_seen};
ghost use Rattle.capnp_schema_structs.specs.Begun.{is_untyped};
ghost use Rattle.capnp_schema_structs.specs.Edits.{IsThere};
ghost use Rattle.capnp_schema_structs.specs.Given.{is_flat};
ghost use Rattle.capnp_schema_structs.specs.Inside.{LieIn};
ghost use Rattle.capnp_schema_structs.specs.Sources.{source_view, source_given, SetsSource, PutsSource, EditsWithin, StandsIfRefused};
ghost use Rattle.capnp_schema_structs.specs.Values.{is_capability, struct_given, IsStructType, group_refusal, value_given, IsPointerSlot, tree_edit, PutsGiven, LeavesUnlessGroup};

use crate::group_sets::set_group;
use crate::setting::set_flat;
use crate::slots::{mark, pointer_place};
use capnp_copy_arenas::arena::{BuilderArena, Memory};
use capnp_copy_arenas::fields::StructPlace;
use capnp_layout_builders::pointer_builder::PointerBuilder;
use capnp_units::errors::{Error, Result};
use capnp_units::kinds::ErrorKind;
use capnp_units::limiter::ReadLimiter;
use capnp_values::dynamic_value::Reader;
use capnp_values::source::{ListSource, StructSource};
use capnp_values_queries::fields::Field;
use capnp_values_queries::introspect::{Type, TypeVariant};
use capnp_values_queries::slots::FieldPlace;
use capnp_wire_objects::arena::ReaderArena;
use capnp_wire_objects::place::Place;

/// A struct or a list to copy.
pub enum Source<'a, B> {
    Struct(StructSource<'a, B>),
    List(ListSource<'a, B>),
}

/// Returns the struct or the list of a value, if a slot of a pointer's type takes it.
fn source_for<'a, B: ReaderArena>(ty: Type, value: &Reader<'a, B>) -> Option<Source<'a, B>>
    ensures given { option_map (source_view B.segments) result
        ≡ source_given B.segments value.now (ty_of ty) }
    ensures flat { OnSome result (is_flat value.now ≡ false) }
{
    match (ty.which(), value) {
        (TypeVariant::Struct(_) | TypeVariant::AnyPointer, Reader::Struct(value)) => {
            Some(Source::Struct(value.source()))
        }
        (TypeVariant::List(_) | TypeVariant::AnyPointer, Reader::List(value)) => {
            Some(Source::List(value.source()))
        }
        _ => None,
    }
}

/// Returns whether a slot of a type is untyped and the value a capability.
fn is_untyped_capability<B>(ty: Type, value: &Reader<'_, B>) -> bool
    ensures { result ≡ (is_untyped (ty_of ty) && is_capability value.now) }
{
    match (ty.which(), value) {
        (TypeVariant::AnyPointer, Reader::Capability(_)) => true,
        _ => false,
    }
}

/// Replaces the value of the pointer at a place by a copy of a struct, of a message or of a
/// default.
fn put_struct<A: BuilderArena, B: ReaderArena>(
    memory: &mut Memory<A>,
    slot: Place,
    limiter: &mut ReadLimiter,
    source: StructSource<'_, B>,
) -> Result<()>
    requires there { is_some (words_at (words_in (A.segments memory.old.arena)) (place_view slot)
        1) ≡ true }
    requires near { slot.position < 2 ^ 61 }
    ensures copy { SetsStruct (struct_seen B.segments source.entry)
        (words_in (A.segments memory.old.arena))
        (words_in (A.segments memory.new.arena)) (place_view slot) limiter.old result limiter.new }
    ensures books { A.books memory.new.arena ≡ A.books memory.old.arena }
{
    let mut pointer = PointerBuilder {
        memory,
        place: slot,
    };
    match source {
        StructSource::Message(value) => pointer.set_struct(limiter, value),
        StructSource::Default(value) => pointer.set_struct(limiter, value),
    }
}

/// Replaces the value of the pointer at a place by a copy of a list, of a message or of a default.
fn put_list<A: BuilderArena, B: ReaderArena>(
    memory: &mut Memory<A>,
    slot: Place,
    limiter: &mut ReadLimiter,
    source: ListSource<'_, B>,
) -> Result<()>
    requires there { is_some (words_at (words_in (A.segments memory.old.arena)) (place_view slot)
        1) ≡ true }
    requires near { slot.position < 2 ^ 61 }
    ensures copy { SetsList (list_seen B.segments source.entry)
        (words_in (A.segments memory.old.arena))
        (words_in (A.segments memory.new.arena)) (place_view slot) limiter.old result limiter.new }
    ensures books { A.books memory.new.arena ≡ A.books memory.old.arena }
{
    let mut pointer = PointerBuilder {
        memory,
        place: slot,
    };
    match source {
        ListSource::Message(value) => pointer.set_list(limiter, value),
        ListSource::Default(value) => pointer.set_list(limiter, value),
    }
}

/// Replaces the value of the pointer at a place by a copy of a struct or of a list, without a limit
/// of words.
pub fn put_source<A: BuilderArena, B: ReaderArena>(
    memory: &mut Memory<A>,
    slot: Place,
    source: Source<'_, B>,
) -> Result<()>
    requires there { is_some (words_at (words_in (A.segments memory.old.arena)) (place_view slot)
        1) ≡ true }
    requires near { slot.position < 2 ^ 61 }
    ensures copy { WithoutLimit (SetsSource (source_view B.segments source.entry)
        (words_in (A.segments memory.old.arena))
        (words_in (A.segments memory.new.arena)) (place_view slot)) result }
    ensures books { A.books memory.new.arena ≡ A.books memory.old.arena }
{
    let mut unlimited = ReadLimiter::new(None);
    match source {
        Source::Struct(source) => put_struct(memory, slot, &mut unlimited, source),
        Source::List(source) => put_list(memory, slot, &mut unlimited, source),
    }
}

/// Sets a pointer slot of a struct to a copy, and then marks the union.
fn set_source<A: BuilderArena, B: ReaderArena>(
    memory: &mut Memory<A>,
    object: StructPlace,
    field: Field<'_>,
    index: u32,
    source: Source<'_, B>,
) -> Result<()>
    requires there { IsThere (words_in (A.segments memory.old.arena)) object }
    requires inside { LieIn object.data_words object.pointers
        (areas_of (shape_of_struct field.parent)) }
    requires index { index < object.pointers }
    requires slot { IsPointerSlot index (entry_of_field field) }
    ensures puts { let s = words_in (A.segments memory.old.arena) in
        let u = words_in (A.segments memory.new.arena) in
        WithoutLimit (PutsSource (source_view B.segments source.entry) s u (λ n t.
        EditsWithin n s u object (tree_edit field.entry t))) result }
    ensures stands { StandsIfRefused (words_in (A.segments memory.old.arena))
        (words_in (A.segments memory.new.arena)) result }
    ensures books { A.books memory.new.arena ≡ A.books memory.old.arena }
{
    put_source(memory, pointer_place(object, index), source)?;
    mark(&mut memory.arena, object, field);
    Ok(())
}

/// Returns the struct of a value, if the type is of structs of its schema. A group is set to such a
/// struct, and elements of lists take over its content (`capnp_schema_lists`).
pub fn struct_for<'a, B: ReaderArena>(
    ty: Type,
    value: &Reader<'a, B>,
) -> Option<StructSource<'a, B>>
    ensures given { option_map (struct_seen B.segments) result
        ≡ struct_given B.segments value.now (ty_of ty) }
    ensures structs { OnSome result (IsStructType (ty_of ty)) }
    ensures flat { OnSome result (is_flat value.now ≡ false) }
{
    match (ty.which(), value) {
        (TypeVariant::Struct(raw), Reader::Struct(value)) => {
            if raw.id == value.get_schema().raw().id {
                Some(value.source())
            } else {
                None
            }
        }
        _ => None,
    }
}

/// Returns the reason for which a group isn't set to a value.
fn group_refusal<B>(value: &Reader<'_, B>) -> ErrorKind
    ensures { kind_of result ≡ group_refusal value.now }
{
    match value {
        Reader::Struct(_) => ErrorKind::TypeMismatch,
        _ => ErrorKind::NotAStruct,
    }
}

/// Sets a field to a value, or a Void field to any value. It is refused
/// - with `SettingDynamicCapabilitiesIsUnsupported` if the field is a capability, or untyped and
///   the value a capability;
/// - otherwise with `CannotSetAnyPointerFieldToAPrimitiveValue` if the field is untyped;
/// - with `NotAStruct` if the field is a group and the value not a struct;
/// - otherwise with `TypeMismatch` if the field doesn't take the value;
/// - a text or data with `SizeOverflow` exactly when its bytes, a text's with its zero byte, or the
///   message's words, including a pad, would exceed 2^29 - 1;
/// - a text or data otherwise with the allocator's error;
/// - a struct or a list like `PointerBuilder::set_struct` and `set_list` without a limit of words;
/// - a struct of a group's schema like `set_group`.
///
/// The value is checked and memory taken before the union is marked, and the pointer is written
/// last. So after a refusal all words are unchanged, and those that were allocated are zero. After
/// the refusal of a value without pointers nothing was allocated. The exception is a group that is
/// set to a struct of its schema: after a refusal it has a beginning of its writes.
pub fn set_value<'a, A: BuilderArena, B: ReaderArena>(
    memory: &mut Memory<A>,
    object: StructPlace,
    field: Field<'a>,
    value: &Reader<'a, B>,
) -> Result<()>
    requires there { IsThere (words_in (A.segments memory.old.arena)) object }
    requires inside { LieIn object.data_words object.pointers
        (areas_of (shape_of_struct field.parent)) }
    ensures puts { let at = state_of A.segments A.room A.books in
        PutsGiven (IsSizeOrRefusal A.refuses) (at memory.old) (at memory.new) object field.entry
        (value_given B.segments value.now (entry_of_field field.entry)) result }
    ensures leaves { LeavesUnlessGroup
        (value_given B.segments value.now (entry_of_field field.entry))
        (words_in (A.segments memory.old.arena)) (words_in (A.segments memory.new.arena)) result }
    ensures flat { is_flat value.now ≡ true → OnErr result
        (A.segments memory.new.arena ≡ A.segments memory.old.arena) }
    ensures books { A.books memory.new.arena ≡ A.books memory.old.arena }
{
    // For the proof, which cites what the node record says of the field.
    let _said = field.get_proto();
    match field.place() {
        FieldPlace::Pointer { index, ty, .. } => {
            if let Some(source) = source_for(ty, value) {
                return set_source(memory, object, field, index, source);
            }
            if is_untyped_capability(ty, value) {
                let kind = ErrorKind::SettingDynamicCapabilitiesIsUnsupported;
                return Err(Error::from(kind));
            }
            set_flat(&mut memory.arena, object, field, value)
        }
        FieldPlace::Group { .. } => {
            let Some(source) = struct_for(field.get_type(), value) else {
                return Err(Error::from(group_refusal(value)));
            };
            set_group(&mut memory.arena, object, field, source)
        }
        _ => set_flat(&mut memory.arena, object, field, value),
    }
}
