//! Calls written along the steps of their paths.
ghost use Rattle.std.specs.Prelude.{◌≡◌, ◌≢◌, ◌<◌, ◌^◌, true, [], map, option_copied, IfErr, OnOk};
ghost use Rattle.capnp_model.specs.Accepted.{schema_of};
ghost use Rattle.capnp_model.specs.Schemas.{struct, list};
ghost use Rattle.capnp_units.specs.Segments.{words_in};
ghost use Rattle.capnp_records.specs.Sets.{nodes_of};
ghost use Rattle.capnp_values_queries.specs.Structs.{schema_around, shape_of_struct, id_of};
ghost use Rattle.capnp_values_queries.specs.Types.{ty_of, is_type_of};
ghost use Rattle.capnp_calls.specs.CallViews.{step_view};
ghost use Rattle.capnp_calls.specs.Resolved.{call_of, IsResolved};
ghost use Rattle.capnp_calls.specs.Roots.{starts_with_name};
ghost use Rattle.capnp_copy_arenas.specs.Refusals.{IsSizeOrRefusal};
ghost use Rattle.capnp_copy_arenas.specs.States.{HasWords};
ghost use Rattle.capnp_schema_structs.specs.Edits.{IsThere, HoldsShape};
ghost use Rattle.capnp_schema_lists.specs.Places.{typed_element};
ghost use Rattle.capnp_schema_lists.specs.Lists.{IsListThere};
ghost use Rattle.capnp_schema_lists.specs.Elements.{Holds, HoldsStructs};
ghost use Rattle.capnp_calls.specs.Ways.{IsWay};
ghost use Rattle.capnp_calls_edits.specs.Written.{WritesPath, WhereDone, HoldsDefaultOrNull};
ghost use Rattle.capnp_calls_edits.specs.Elements.{WritesWithin, WhereDoneWithin, WritesFieldWithin, WhereFieldDone};
ghost use Rattle.capnp_calls_edits.specs.Behind.{call_left, HoldsInside, WritesBehind, FailsBehind, WritesAtElement, FailsAtElement, BytesGrowBehind, BytesGrowAround, BytesGrowIn, typed_slot};
ghost use Rattle.capnp_values.specs.Shown.{schema_in};

use crate::default::default_of;
use crate::elements::write_element_end;
use crate::end::write_end;
use crate::lists::list_behind;
use capnp_calls::find::{FoundField, get_field, rest_of_way};
use capnp_calls::resolved::Resolved;
use capnp_calls::steps::{begins_with_name, first_index, first_name};
use capnp_calls::{Action, Step};
use capnp_copy_arenas::arena::BuilderArena;
use capnp_copy_arenas::fields::StructPlace;
use capnp_copy_arenas::init::ListPlace;
use capnp_layout_builders::gets::struct_or_default;
use capnp_records::set::SchemaSet;
use capnp_schema_lists::holding::holds;
use capnp_schema_lists::laws::{elements_as_pointers, elements_as_structs};
use capnp_schema_lists::places::{element_pointer, element_struct};
use capnp_schema_structs::init::struct_size;
use capnp_schema_structs::slots::pointer_place;
use capnp_units::errors::{Error, Result};
use capnp_units::kinds::ErrorKind;
use capnp_units::sizes::Word;
use capnp_values_queries::fields::Field;
use capnp_values_queries::introspect::{Type, TypeVariant};
use capnp_values_queries::slots::FieldPlace;
use capnp_values_queries::structs::StructSchema;
use capnp_wire_objects::place::Place;

/// Writes a call along its path, at a struct that exists and is wide enough for its schema. If the
/// record machine does the call, any struct that is owned there becomes what the call's edit makes
/// of it, and nothing else changes. On the way a null pointer gets its default, otherwise an empty
/// struct. A narrower struct is widened to its schema's sizes. A list whose elements' type is a
/// struct becomes a list of structs of its sizes, whatever its elements were.
///
/// No name is compared if a field of the call was found under the struct that is there.
///
/// Whether the call is done isn't checked: a caller tests that on a reader first. A call that the
/// record machine does is only refused by a size past a limit of the format, or by a refusal that
/// the arena gave, with its kind. Other calls are refused like this:
///
/// - `WrongStep`: the path doesn't begin with a name, or continues by a name or an index that the
///   schema doesn't have; or the call is a `get`.
/// - `FieldNotFound`: the struct lacks the name.
/// - `IndexOutOfRange`: the list has no such index.
/// - `TypeMismatch`: a field or an element doesn't take the value.
/// - A struct on the way is refused as in `struct_or_default`, a list as in a reader's `get_list`
///   and `get_struct_list` of `capnp_copy_widening`. So bits aren't accepted as voids.
/// - The last field is refused as in `clear_field`, `begin_field`, `initn_slot` and `set_flat`. An
///   element at the path's end is refused as in `set_flat` and `init_element` of
///   `capnp_schema_lists` and in `copy_content_from`.
///
/// After a refusal structs and lists on the way may be widened or have their defaults. The last
/// field may be unchanged, and a group, or an element that is a struct, may have a part of the
/// value. Each segment of the message still exists, and is not shorter.
///
/// Each step takes stack.
pub fn write_path<A: BuilderArena>(
    arena: &mut A,
    object: StructPlace,
    schema: StructSchema<'_>,
    call: &Resolved<'_>,
) -> Result<()>
    requires there { IsThere (words_in (A.segments arena.old)) object }
    requires wide { HoldsShape object (shape_of_struct schema) }
    requires resolved { IsResolved schema call.now }
    ensures writes { OnOk result (WritesPath (words_in (A.segments arena.old))
        (words_in (A.segments arena.new)) object schema.entry (call_of call.now)) }
    ensures grows { BytesGrowAround (A.segments arena.old) (A.segments arena.new) object }
    ensures cause { IfErr result (λ e. WhereDone (words_in (A.segments arena.old)) object
        schema.entry (call_of call.now) (IsSizeOrRefusal A.refuses e)) }
    ensures books { A.books arena.new ≡ A.books arena.old }
{
    write_steps(
        arena,
        object,
        schema,
        call.path(),
        call.fields(),
        call.action(),
    )
}

/// Writes a call along its path at a struct, like `write_path`, if the record machine does the call
/// when it reads the struct's data to some extent.
#[cycle(path)]
fn write_steps<A: BuilderArena>(
    arena: &mut A,
    object: StructPlace,
    schema: StructSchema<'_>,
    path: &[Step],
    way: &[FoundField],
    action: &Action,
) -> Result<()>
    requires there { IsThere (words_in (A.segments arena.old)) object }
    requires wide { HoldsShape object (shape_of_struct schema) }
    requires way { IsWay (schema_around schema) (map step_view path.now) way.now }
    ensures writes { OnOk result (WritesWithin (words_in (A.segments arena.old))
        (words_in (A.segments arena.new)) object schema.entry (call_left path.now action.now)) }
    ensures grows { BytesGrowAround (A.segments arena.old) (A.segments arena.new) object }
    ensures cause { IfErr result (λ e. WhereDoneWithin (words_in (A.segments arena.old)) object
        schema.entry (call_left path.now action.now) (IsSizeOrRefusal A.refuses e)) }
    ensures books { A.books arena.new ≡ A.books arena.old }
{
    let Some((name, rest)) = first_name(path) else {
        return Err(Error::from(ErrorKind::WrongStep));
    };
    let field = get_field(schema, name, way)?;
    // For the proof, which cites what the node record says of the field.
    let _said = field.get_proto();
    if rest.is_empty() {
        write_end(arena, object, field, action)
    } else {
        write_behind(arena, object, field, rest, rest_of_way(way), action)
    }
}

/// Writes a call along the rest of its path, which has a step, at the value of a field.
#[cycle(path)]
fn write_behind<A: BuilderArena>(
    arena: &mut A,
    object: StructPlace,
    field: Field<'_>,
    rest: &[Step],
    way: &[FoundField],
    action: &Action,
) -> Result<()>
    requires there { IsThere (words_in (A.segments arena.old)) object }
    requires wide { HoldsShape object (shape_of_struct field.parent) }
    requires some { map step_view rest.now ≢ [] }
    requires way { IsWay (schema_around field.parent) (map step_view rest.now) way.now }
    ensures writes { OnOk result (WritesFieldWithin (words_in (A.segments arena.old))
        (words_in (A.segments arena.new)) object field.entry (call_left rest.now action.now)) }
    ensures grows { BytesGrowAround (A.segments arena.old) (A.segments arena.new) object }
    ensures cause { IfErr result (λ e. WhereFieldDone (words_in (A.segments arena.old)) object
        field.entry (call_left rest.now action.now) (IsSizeOrRefusal A.refuses e)) }
    ensures books { A.books arena.new ≡ A.books arena.old }
{
    // For the proof, which cites the record of the field's parent and what it says of the field.
    let holder = field.parent().record();
    let _words = holder.data_word_count;
    let _said = field.get_proto();
    match field.place() {
        FieldPlace::Group { schema } => write_steps(arena, object, schema, rest, way, action),
        FieldPlace::Pointer { index, ty, .. } => {
            let slot = pointer_place(object, index);
            let set = field.parent().set();
            write_value(arena, slot, set, ty, default_of(field), rest, way, action)
        }
        FieldPlace::Void { .. } | FieldPlace::Plain { .. } => {
            Err(Error::from(ErrorKind::WrongStep))
        }
    }
}

/// Writes a call along the rest of its path at the value of a pointer. A null pointer gets the
/// default that these words hold, otherwise the empty value.
#[cycle(path)]
fn write_value<A: BuilderArena>(
    arena: &mut A,
    slot: Place,
    set: &SchemaSet,
    ty: Type,
    default: Option<&[Word]>,
    path: &[Step],
    way: &[FoundField],
    action: &Action,
) -> Result<()>
    requires there { HasWords (A.segments arena.old) slot 1 }
    requires near { slot.position < 2 ^ 61 }
    requires known { is_type_of (nodes_of set.now) ty ≡ true }
    requires way { IsWay (schema_of (nodes_of set.now)) (map step_view path.now) way.now }
    ensures writes { WritesBehind (HoldsInside (ty_of ty) (option_copied default.entry)) (A.segments
        arena.old) (A.segments arena.new) (typed_slot slot (schema_in set.now) (ty_of ty))
        (call_left path.now action.now) result }
    ensures grows { BytesGrowBehind (A.segments arena.old) (A.segments arena.new) slot }
    ensures cause { FailsBehind (HoldsInside (ty_of ty) (option_copied default.entry))
        (IsSizeOrRefusal A.refuses) (A.segments arena.old) (typed_slot slot (schema_in set.now)
        (ty_of ty)) (call_left path.now action.now) result }
    ensures books { A.books arena.new ≡ A.books arena.old }
{
    match ty.which() {
        TypeVariant::Struct(raw) if begins_with_name(path) => {
            let schema = StructSchema::new(set, raw);
            write_struct(arena, slot, schema, default, path, way, action)
        }
        TypeVariant::List(element) => {
            write_list(arena, slot, set, element, default, path, way, action)
        }
        _ => Err(Error::from(ErrorKind::WrongStep)),
    }
}

/// Writes a call along the rest of its path at the struct of a pointer. A null pointer gets the
/// default that these words hold, otherwise the empty struct.
#[cycle(path)]
fn write_struct<A: BuilderArena>(
    arena: &mut A,
    slot: Place,
    schema: StructSchema<'_>,
    default: Option<&[Word]>,
    path: &[Step],
    way: &[FoundField],
    action: &Action,
) -> Result<()>
    requires there { HasWords (A.segments arena.old) slot 1 }
    requires near { slot.position < 2 ^ 61 }
    requires named { starts_with_name (map step_view path.now) ≡ true }
    requires way { IsWay (schema_around schema) (map step_view path.now) way.now }
    ensures writes { WritesBehind (HoldsDefaultOrNull (option_copied default.entry))
        (A.segments arena.old) (A.segments arena.new) (typed_slot slot (schema_around schema.entry)
        (struct (id_of schema.entry))) (call_left path.now action.now) result }
    ensures grows { BytesGrowBehind (A.segments arena.old) (A.segments arena.new) slot }
    ensures cause { FailsBehind (HoldsDefaultOrNull (option_copied default.entry))
        (IsSizeOrRefusal A.refuses) (A.segments arena.old) (typed_slot slot (schema_around
        schema.entry) (struct (id_of schema.entry))) (call_left path.now action.now) result }
    ensures books { A.books arena.new ≡ A.books arena.old }
{
    let inner = struct_or_default(arena, slot, struct_size(schema), default)?;
    write_steps(arena, inner, schema, path, way, action)
}

/// Writes a call along the rest of its path at the list of a pointer, whose elements are of a type.
/// A null pointer gets the default that these words hold.
#[cycle(path)]
fn write_list<A: BuilderArena>(
    arena: &mut A,
    slot: Place,
    set: &SchemaSet,
    element: Type,
    default: Option<&[Word]>,
    path: &[Step],
    way: &[FoundField],
    action: &Action,
) -> Result<()>
    requires there { HasWords (A.segments arena.old) slot 1 }
    requires near { slot.position < 2 ^ 61 }
    requires known { is_type_of (nodes_of set.now) element ≡ true }
    requires way { IsWay (schema_of (nodes_of set.now)) (map step_view path.now) way.now }
    ensures writes { WritesBehind (HoldsDefaultOrNull (option_copied default.entry)) (A.segments
        arena.old) (A.segments arena.new) (typed_slot slot (schema_in set.now) (list (ty_of
        element))) (call_left path.now action.now) result }
    ensures grows { BytesGrowBehind (A.segments arena.old) (A.segments arena.new) slot }
    ensures cause { FailsBehind (HoldsDefaultOrNull (option_copied default.entry)) (IsSizeOrRefusal
        A.refuses) (A.segments arena.old) (typed_slot slot (schema_in set.now) (list (ty_of
        element))) (call_left path.now action.now) result }
    ensures books { A.books arena.new ≡ A.books arena.old }
{
    let Some((index, rest)) = first_index(path) else {
        return Err(Error::from(ErrorKind::WrongStep));
    };
    let inner = list_behind(arena, slot, set, element, default)?;
    if index >= inner.count {
        return Err(Error::from(ErrorKind::IndexOutOfRange));
    }
    if !holds(inner, set, element) {
        return Err(Error::from(ErrorKind::WrongElementSize));
    }
    write_element(arena, inner, index, set, element, rest, way, action)
}

/// Writes a call along the rest of its path at an element of a list, whose elements fit their type.
#[cycle(path)]
fn write_element<A: BuilderArena>(
    arena: &mut A,
    list: ListPlace,
    index: u32,
    set: &SchemaSet,
    ty: Type,
    rest: &[Step],
    way: &[FoundField],
    action: &Action,
) -> Result<()>
    requires there { IsListThere (words_in (A.segments arena.old)) list }
    requires index { index < list.count }
    requires holds { Holds list (ty_of ty) }
    requires sizes { HoldsStructs (schema_of (nodes_of set.now)) list (ty_of ty) }
    requires known { is_type_of (nodes_of set.now) ty ≡ true }
    requires way { IsWay (schema_of (nodes_of set.now)) (map step_view rest.now) way.now }
    ensures writes { OnOk result (WritesAtElement (A.segments arena.old) (A.segments arena.new)
        (typed_element list index (schema_in set.now) (ty_of ty)) (call_left rest.now action.now)) }
    ensures grows { BytesGrowIn (A.segments arena.old) (A.segments arena.new) list }
    ensures cause { IfErr result (FailsAtElement (IsSizeOrRefusal A.refuses) (A.segments arena.old)
        (typed_element list index (schema_in set.now) (ty_of ty)) (call_left rest.now action.now)) }
    ensures books { A.books arena.new ≡ A.books arena.old }
{
    if rest.is_empty() {
        return write_element_end(arena, list, index, set, ty, action);
    }
    match ty.which() {
        TypeVariant::Struct(raw) => {
            elements_as_structs();
            let schema = StructSchema::new(set, raw);
            write_steps(
                arena,
                element_struct(list, index),
                schema,
                rest,
                way,
                action,
            )
        }
        TypeVariant::List(element) => {
            elements_as_pointers();
            let slot = element_pointer(list, index);
            write_list(arena, slot, set, element, None, rest, way, action)
        }
        _ => Err(Error::from(ErrorKind::WrongStep)),
    }
}
