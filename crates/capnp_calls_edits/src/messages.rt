//! Values of messages that calls set in pointer fields.
ghost use Rattle.std.specs.Prelude.{◌≡◌, ◌<◌, ◌^◌, true, [], IfErr, OnOk};
ghost use Rattle.capnp_model.specs.Accepted.{areas_of};
ghost use Rattle.capnp_model.specs.Calls.{set_to, message, message_root};
ghost use Rattle.capnp_model.specs.Coverage.{Grows};
ghost use Rattle.capnp_units.specs.Segments.{words_in};
ghost use Rattle.capnp_wire_objects.specs.Places.{place_view};
ghost use Rattle.capnp_wire.specs.Views.{seen_struct};
ghost use Rattle.capnp_calls.specs.Messages.{tree_of_message};
ghost use Rattle.capnp_values_queries.specs.Handles.{entry_of_field};
ghost use Rattle.capnp_values_queries.specs.Structs.{shape_of_struct};
ghost use Rattle.capnp_values_queries.specs.Types.{ty_of};
ghost use Rattle.capnp_copy_arenas.specs.States.{HasWords};
ghost use Rattle.capnp_copy_arenas.specs.Refusals.{IsSizeOrRefusal};
ghost use Rattle.capnp_schema_structs.specs.Edits.{IsThere, HoldsShape};
ghost use Rattle.capnp_schema_structs.specs.GroupSets.{PutsAny, SetsFields};
ghost use Rattle.capnp_schema_structs.specs.Inside.{LieIn};
ghost use Rattle.capnp_calls_edits.specs.Written.{WritesField, WhereFieldTakes, IsGroup, takes_message};

use capnp_calls::message::MessageValue;
use capnp_copy_arenas::arena::BuilderArena;
use capnp_copy_arenas::fields::StructPlace;
use capnp_copy_arenas::init::init_struct;
use capnp_model::laws_of_edits::groups_set_by_writes;
use capnp_schema_structs::group_sets;
use capnp_schema_structs::roots::{copy_root, has_null_root, words_of};
use capnp_schema_structs::slots::{mark, pointer_place};
use capnp_units::errors::{Error, Result};
use capnp_units::kinds::ErrorKind;
use capnp_units::limiter::ReadLimiter;
use capnp_units::sizes::StructSize;
use capnp_values::source::StructSource;
use capnp_values_queries::fields::Field;
use capnp_values_queries::introspect::{Type, TypeVariant};
use capnp_values_queries::slots::FieldPlace;
use capnp_wire::backing::{Backing, default_backing};
use capnp_wire::laws::gets_are_readings;
use capnp_wire::pointer::PointerReader;
use capnp_wire::structs::StructReader;
use capnp_wire_objects::arena::{NullArena, ReaderArena};
use capnp_wire_objects::place::{Place, ROOT};

/// Returns whether a slot of a type can be set to the value of a message.
fn takes_message(ty: Type) -> bool
    ensures { result ≡ takes_message (ty_of ty) }
{
    match ty.which() {
        TypeVariant::AnyPointer | TypeVariant::Struct(_) | TypeVariant::List(_) => true,
        _ => false,
    }
}

/// Replaces the value of the pointer at a place by the value of a message; a null root counts as
/// the empty struct.
pub(crate) fn put_message<A: BuilderArena>(
    arena: &mut A,
    slot: Place,
    message: &MessageValue,
) -> Result<()>
    requires there { HasWords (A.segments arena.old) slot 1 }
    requires near { slot.position < 2 ^ 61 }
    ensures puts { OnOk result (PutsAny (words_in (A.segments arena.old))
        (words_in (A.segments arena.new)) (place_view slot)
        (message_root (tree_of_message message.now))) }
    ensures grows { Grows (words_in (A.segments arena.old)) (words_in (A.segments arena.new)) }
    ensures cause { IfErr result (IsSizeOrRefusal A.refuses) }
    ensures books { A.books arena.new ≡ A.books arena.old }
{
    let words = words_of(message.segment());
    if has_null_root(words) {
        let empty = StructSize {
            data_words: 0,
            pointers: 0,
        };
        init_struct(arena, slot, empty)?;
        return Ok(());
    }
    copy_root(arena, slot, words)
}

/// Sets a field that is a group to a struct of a message.
fn set_fields<A: BuilderArena, B: ReaderArena>(
    arena: &mut A,
    object: StructPlace,
    field: Field<'_>,
    source: StructReader<'_, B>,
) -> Result<()>
    requires there { IsThere (words_in (A.segments arena.old)) object }
    requires inside { LieIn object.data_words object.pointers
        (areas_of (shape_of_struct field.parent)) }
    ensures sets { SetsFields (IsSizeOrRefusal A.refuses) (seen_struct B.segments source.entry)
        (words_in (A.segments arena.old)) (words_in (A.segments arena.new)) object field.entry
        result }
    ensures grows { Grows (words_in (A.segments arena.old)) (words_in (A.segments arena.new)) }
    ensures books { A.books arena.new ≡ A.books arena.old }
{
    group_sets::set_group(arena, object, field, StructSource::Message(source))
}

/// Sets a field that is a group to the value of a message, whose root counts as a struct, and marks
/// its union. The group is cleared, then its active member is set, then its other fields.
fn set_group<A: BuilderArena>(
    arena: &mut A,
    object: StructPlace,
    field: Field<'_>,
    value: &MessageValue,
) -> Result<()>
    requires there { IsThere (words_in (A.segments arena.old)) object }
    requires wide { HoldsShape object (shape_of_struct field.parent) }
    requires group { IsGroup (entry_of_field field) }
    ensures writes { OnOk result (WritesField (words_in (A.segments arena.old))
        (words_in (A.segments arena.new)) object field.entry
        (record { path = []; verb = set_to (message (tree_of_message value.now)) })) }
    ensures grows { Grows (words_in (A.segments arena.old)) (words_in (A.segments arena.new)) }
    ensures cause { IfErr result (λ e. WhereFieldTakes field.entry
        (set_to (message (tree_of_message value.now))) (IsSizeOrRefusal A.refuses e)) }
    ensures books { A.books arena.new ≡ A.books arena.old }
{
    gets_are_readings();
    groups_set_by_writes();
    let backing: Backing<NullArena> = default_backing(words_of(value.segment()));
    let mut unlimited = ReadLimiter::new(None);
    let root = PointerReader::at(&backing, ROOT).get_struct(&mut unlimited, None)?;
    set_fields(arena, object, field, root)
}

/// Sets a group or a field whose type is a struct, a list or an untyped pointer to the value of a
/// message, or a Void field to any value, and marks its union. Other fields are refused with
/// `TypeMismatch`.
pub(crate) fn set_message<A: BuilderArena>(
    arena: &mut A,
    object: StructPlace,
    field: Field<'_>,
    value: &MessageValue,
) -> Result<()>
    requires there { IsThere (words_in (A.segments arena.old)) object }
    requires wide { HoldsShape object (shape_of_struct field.parent) }
    ensures writes { OnOk result (WritesField (words_in (A.segments arena.old))
        (words_in (A.segments arena.new)) object field.entry
        (record { path = []; verb = set_to (message (tree_of_message value.now)) })) }
    ensures grows { Grows (words_in (A.segments arena.old)) (words_in (A.segments arena.new)) }
    ensures cause { IfErr result (λ e. WhereFieldTakes field.entry
        (set_to (message (tree_of_message value.now))) (IsSizeOrRefusal A.refuses e)) }
    ensures books { A.books arena.new ≡ A.books arena.old }
{
    // For the proof, which cites what the node record says of the field.
    let _said = field.get_proto();
    match field.place() {
        FieldPlace::Void { .. } => {
            mark(arena, object, field);
            Ok(())
        }
        FieldPlace::Pointer { index, ty, .. } => {
            if !takes_message(ty) {
                return Err(Error::from(ErrorKind::TypeMismatch));
            }
            put_message(arena, pointer_place(object, index), value)?;
            mark(arena, object, field);
            Ok(())
        }
        FieldPlace::Group { .. } => set_group(arena, object, field, value),
        FieldPlace::Plain { .. } => Err(Error::from(ErrorKind::TypeMismatch)),
    }
}
