//! The walk over a value that is there, by its schema.
ghost use Rattle.std.specs.Prelude.{◌≡◌, ◌+◌, ◌*◌, ◌≤◌, ◌<◌, ◌^◌, ℕ, List, true, Some};
ghost use Rattle.capnp_model.specs.Accepted.{schema_of};
ghost use Rattle.capnp_model.specs.InKind.{in_kind, shape_in_kind, body_in_kind, child_in_kind, children_in_kind, elements_in_kind};
ghost use Rattle.capnp_model.specs.Readings.{expected_size};
ghost use Rattle.capnp_model.specs.Schemas.{struct, list};
ghost use Rattle.capnp_model.specs.Segments.{after};
ghost use Rattle.capnp_model.specs.Traversal.{tree_at, each, each_element};
ghost use Rattle.capnp_model.specs.Trees.{Tree, Trees, Elements as ElementTrees};
ghost use Rattle.capnp_units.specs.Segments.{words_in};
ghost use Rattle.capnp_records.specs.Sets.{nodes_of};
ghost use Rattle.capnp_wire_objects.specs.Inside.{section_at, words_there};
ghost use Rattle.capnp_wire_objects.specs.Objects.{AreThere};
ghost use Rattle.capnp_wire_objects.specs.Places.{place_view};
ghost use Rattle.capnp_values_queries.specs.Handles.{body_of_place, IsPlaceIn};
ghost use Rattle.capnp_values_queries.specs.Structs.{nodes_around, shape_of_struct, id_of};
ghost use Rattle.capnp_values_queries.specs.Types.{ty_of, is_type_of};
ghost use Rattle.capnp_relay_kinds.specs.Kinds.{Tells, AreInside, first_pointer};

use crate::steps::{OutOfKind, Step, is_size, step_back};
use crate::structs::{Sections, active_value, is_active};
use capnp_model::laws::values_on_walks;
use capnp_records::set::SchemaSet;
use capnp_units::sizes::ElementSize;
use capnp_values_queries::introspect::{Type, TypeVariant};
use capnp_values_queries::slots::FieldPlace;
use capnp_values_queries::structs::StructSchema;
use capnp_wire_objects::arena::ReaderArena;
use capnp_wire_objects::laws::values_by_levels;
use capnp_wire_objects::object::{Object, object_at};
use capnp_wire_objects::place::Place;
use std::alloc::AllocError;

/// The elements of a list of structs, which begin at a place within this many words.
#[derive(Clone, Copy)]
struct Elements {
    start: Place,
    words: u32,
    count: u32,
    data_words: u16,
    pointers: u16,
}

/// Returns whether the value of a pointer is in kind under a type.
#[cycle(walk)]
fn value_at<A: ReaderArena>(
    arena: &A,
    set: &SchemaSet,
    place: Place,
    levels: u32,
    ty: Type,
    found: &mut OutOfKind,
) -> Result<bool, AllocError>
    requires { is_type_of (nodes_of set.now) ty ≡ true }
    ensures { (t : Tree) → tree_at levels (words_in (A.segments arena.now)) (place_view place)
        ≡ Some t → Tells (in_kind (schema_of (nodes_of set.now)) t (ty_of ty)) result }
{
    match ty.which() {
        TypeVariant::Struct(raw) => {
            struct_at(
                arena,
                set,
                place,
                levels,
                StructSchema::new(set, raw),
                found,
            )
        }
        TypeVariant::List(element) => list_at(arena, set, place, levels, element, found),
        _ => Ok(true),
    }
}

/// Returns whether the value of a pointer is in kind under a struct.
#[cycle(walk)]
pub(crate) fn struct_at<A: ReaderArena>(
    arena: &A,
    set: &SchemaSet,
    place: Place,
    levels: u32,
    schema: StructSchema<'_>,
    found: &mut OutOfKind,
) -> Result<bool, AllocError>
    requires { nodes_around schema ≡ nodes_of set.now }
    ensures { (t : Tree) → tree_at levels (words_in (A.segments arena.now)) (place_view place)
        ≡ Some t
        → Tells (in_kind (schema_of (nodes_of set.now)) t (struct (id_of schema.entry))) result }
{
    values_by_levels();
    values_on_walks();
    if levels == 0 {
        return Ok(true);
    }
    let Ok(there) = object_at(arena, place) else {
        return Ok(true);
    };
    match there.object {
        Object::Struct {
            start,
            data_words,
            pointers,
        } => {
            let sections = Sections {
                start,
                data_words,
                pointers,
            };
            fields_at(arena, set, sections, levels - 1, schema, found)
        }
        _ => Ok(true),
    }
}

/// Returns whether the value of a pointer is in kind under a list of a type.
#[cycle(walk)]
fn list_at<A: ReaderArena>(
    arena: &A,
    set: &SchemaSet,
    place: Place,
    levels: u32,
    element: Type,
    found: &mut OutOfKind,
) -> Result<bool, AllocError>
    requires { is_type_of (nodes_of set.now) element ≡ true }
    ensures { (t : Tree) → tree_at levels (words_in (A.segments arena.now)) (place_view place)
        ≡ Some t → Tells (in_kind (schema_of (nodes_of set.now)) t (list (ty_of element))) result }
{
    values_by_levels();
    values_on_walks();
    if levels == 0 {
        return Ok(true);
    }
    let Ok(there) = object_at(arena, place) else {
        return Ok(true);
    };
    let wanted = element.expected_element_size();
    match there.object {
        Object::List { size, .. } => {
            let is_plain = is_size(found, size, wanted);
            Ok(is_plain)
        }
        Object::PointerList { start, count } => {
            let are_pointers = is_size(found, ElementSize::Pointer, wanted);
            if !are_pointers {
                return Ok(false);
            }
            row_at(arena, set, start, count, levels - 1, element, found)
        }
        Object::StructList {
            start,
            words,
            count,
            data_words,
            pointers,
        } => match element.which() {
            TypeVariant::Struct(raw) => {
                let list = Elements {
                    start,
                    words,
                    count,
                    data_words,
                    pointers,
                };
                let schema = StructSchema::new(set, raw);
                elements_at(arena, set, list, levels - 1, schema, found)
            }
            _ => {
                let are_structs = is_size(found, ElementSize::InlineComposite, wanted);
                Ok(are_structs)
            }
        },
        _ => Ok(true),
    }
}

/// Returns whether the values of pointers in a row, which are the elements of a list, are in kind.
#[cycle(walk)]
fn row_at<A: ReaderArena>(
    arena: &A,
    set: &SchemaSet,
    first: Place,
    count: u32,
    levels: u32,
    element: Type,
    found: &mut OutOfKind,
) -> Result<bool, AllocError>
    requires of_set { is_type_of (nodes_of set.now) element ≡ true }
    requires near { first.position + count < 2 ^ 61 }
    requires pointers { expected_size (ty_of element) ≡ 6 }
    ensures { (ts : Trees) → each (tree_at levels (words_in (A.segments arena.now)))
        (place_view first) count ≡ Some ts
        → Tells (children_in_kind (schema_of (nodes_of set.now)) ts (ty_of element)) result }
{
    for i in 0..count {
        let place = Place {
            segment: first.segment,
            position: first.position + i as usize,
        };
        let good = value_at(arena, set, place, levels, element, found)?;
        if !good {
            return step_back(found, Step::Element(i));
        }
    }
    Ok(true)
}

/// Returns whether the elements of a list of structs are in kind.
#[cycle(walk)]
fn elements_at<A: ReaderArena>(
    arena: &A,
    set: &SchemaSet,
    list: Elements,
    levels: u32,
    schema: StructSchema<'_>,
    found: &mut OutOfKind,
) -> Result<bool, AllocError>
    requires nodes { nodes_around schema ≡ nodes_of set.now }
    requires there { AreThere (words_in (A.segments arena.now)) (place_view list.start) list.words }
    requires inside { list.count * (list.data_words + list.pointers) ≤ list.words }
    ensures { let s = words_in (A.segments arena.now) in let p = place_view list.start in
        (es : ElementTrees)
        → each_element (tree_at levels s) p (words_there s p list.words) list.data_words
        list.pointers list.count ≡ Some es
        → Tells (elements_in_kind (schema_of (nodes_of set.now)) es (struct (id_of schema.entry)))
        result }
{
    for i in 0..list.count {
        let width = list.data_words as usize + list.pointers as usize;
        let start = Place {
            segment: list.start.segment,
            position: list.start.position + i as usize * width,
        };
        let sections = Sections {
            start,
            data_words: list.data_words,
            pointers: list.pointers,
        };
        let good = fields_at(arena, set, sections, levels, schema, found)?;
        if !good {
            return step_back(found, Step::Element(i));
        }
    }
    Ok(true)
}

/// Returns whether the active fields of a struct or a group are in kind.
#[cycle(walk)]
fn fields_at<A: ReaderArena>(
    arena: &A,
    set: &SchemaSet,
    sections: Sections,
    levels: u32,
    schema: StructSchema<'_>,
    found: &mut OutOfKind,
) -> Result<bool, AllocError>
    requires nodes { nodes_around schema ≡ nodes_of set.now }
    requires inside { AreInside (words_in (A.segments arena.now)) sections }
    ensures { let s = words_in (A.segments arena.now) in (ts : Trees)
        → each (tree_at levels s) (first_pointer sections) sections.pointers ≡ Some ts
        → Tells (shape_in_kind (shape_of_struct schema.entry)
        (section_at s (place_view sections.start) sections.data_words)
        (child_in_kind (schema_of (nodes_of set.now)) ts)) result }
{
    let active = active_value(arena, schema, sections);
    let Ok(fields) = schema.get_fields() else {
        return Ok(true);
    };
    for i in 0..fields.len() {
        let field = fields.get(i);
        if !is_active(field, active) {
            continue;
        }
        let place = field.place();
        let good = field_at(arena, set, sections, levels, place, found)?;
        if !good {
            return step_back(found, Step::Field(i));
        }
    }
    Ok(true)
}

/// Returns whether a field is in kind.
#[cycle(walk)]
fn field_at<A: ReaderArena>(
    arena: &A,
    set: &SchemaSet,
    sections: Sections,
    levels: u32,
    field: FieldPlace<'_>,
    found: &mut OutOfKind,
) -> Result<bool, AllocError>
    requires of_set { IsPlaceIn (nodes_of set.now) field }
    requires inside { AreInside (words_in (A.segments arena.now)) sections }
    ensures { let s = words_in (A.segments arena.now) in (ts : Trees)
        → each (tree_at levels s) (first_pointer sections) sections.pointers ≡ Some ts
        → Tells (body_in_kind (body_of_place field.entry)
        (section_at s (place_view sections.start) sections.data_words)
        (child_in_kind (schema_of (nodes_of set.now)) ts)) result }
{
    match field {
        FieldPlace::Void { .. } => Ok(true),
        FieldPlace::Plain { .. } => Ok(true),
        FieldPlace::Group { schema } => fields_at(arena, set, sections, levels, schema, found),
        FieldPlace::Pointer { index, ty, .. } => {
            if index >= sections.pointers as u32 {
                return Ok(true);
            }
            let place = Place {
                segment: sections.start.segment,
                position: sections.start.position + sections.data_words as usize + index as usize,
            };
            value_at(arena, set, place, levels, ty, found)
        }
    }
}
