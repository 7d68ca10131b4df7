//! Slots of a struct that is built, over places.
ghost use Rattle.std.specs.Prelude.{◌≡◌, ◌+◌, ◌<◌, ◌^◌, length, map, Some};
ghost use Rattle.capnp_model.specs.Accepted.{areas_of, areas_of_body, union_area};
ghost use Rattle.capnp_model.specs.Edits.{mark, cleared, cleared_body};
ghost use Rattle.capnp_model.specs.Segments.{after};
ghost use Rattle.capnp_wire_objects.specs.Places.{place_view};
ghost use Rattle.capnp_values_queries.specs.Fields.{union_in};
ghost use Rattle.capnp_units.specs.Segments.{words_in};
ghost use Rattle.capnp_values_queries.specs.Structs.{shape_of_struct};
ghost use Rattle.capnp_values_queries.specs.Handles.{entry_of_field, body_of_place};
ghost use Rattle.capnp_model.specs.Calls.{clear};
ghost use Rattle.capnp_schema_structs.specs.Calls.{edit_of};
ghost use Rattle.capnp_schema_structs.specs.Inside.{LieIn};
ghost use Rattle.capnp_schema_structs.specs.Edits.{IsThere, Edits, WritesData, marked, cleared_entry};

use capnp_copy_arenas::arena::BuilderArena;
use capnp_copy_arenas::clear::clear;
use capnp_copy_arenas::fields::{StructPlace, set_bits};
use capnp_records::node::NO_DISCRIMINANT;
use capnp_values_queries::fields::Field;
use capnp_values_queries::slots::{FieldPlace, width_of};
use capnp_values_queries::structs::StructSchema;
use capnp_wire_objects::place::Place;

/// Writes the discriminant of the struct's union, if it has one.
pub(crate) fn set_discriminant<A: BuilderArena>(
    arena: &mut A,
    object: StructPlace,
    schema: StructSchema<'_>,
    member: u16,
)
    requires there { IsThere (words_in (A.segments arena.old)) object }
    requires inside { LieIn object.data_words object.pointers
        (union_area (union_in (shape_of_struct schema))) }
    ensures edits { Edits (words_in (A.segments arena.old)) (words_in (A.segments arena.new))
        object (mark (union_in (shape_of_struct schema.entry)) (Some member)) }
    ensures data { WritesData (words_in (A.segments arena.old)) (words_in (A.segments arena.new))
        object }
    ensures sizes { map length (words_in (A.segments arena.new))
        ≡ map length (words_in (A.segments arena.old)) }
    ensures books { A.books arena.new ≡ A.books arena.old }
{
    if let Some(offset) = schema.discriminant_offset() {
        set_bits(arena, object, 16 * offset as usize, 16, member as u64);
    }
}

/// Makes a field the active member of its union, if it is a member.
pub fn mark<A: BuilderArena>(arena: &mut A, object: StructPlace, field: Field<'_>)
    requires there { IsThere (words_in (A.segments arena.old)) object }
    requires inside { LieIn object.data_words object.pointers
        (areas_of (shape_of_struct field.parent)) }
    ensures edits { Edits (words_in (A.segments arena.old)) (words_in (A.segments arena.new))
        object (marked field.entry) }
    ensures data { WritesData (words_in (A.segments arena.old)) (words_in (A.segments arena.new))
        object }
    ensures sizes { map length (words_in (A.segments arena.new))
        ≡ map length (words_in (A.segments arena.old)) }
    ensures books { A.books arena.new ≡ A.books arena.old }
{
    let member = field.get_proto().discriminant_value;
    if member != NO_DISCRIMINANT {
        set_discriminant(arena, object, field.parent(), member);
    }
}

/// Returns the place of a pointer of the struct.
pub fn pointer_place(object: StructPlace, index: u32) -> Place
    requires near { object.start.position + (object.data_words + object.pointers) < 2 ^ 61 }
    requires inside { index < object.pointers }
    ensures place { place_view result
        ≡ after (after (place_view object.start) object.data_words) index }
    ensures near { result.position < 2 ^ 61 }
{
    Place {
        segment: object.start.segment,
        position: object.start.position + object.data_words as usize + index as usize,
    }
}

/// Writes zeros and nulls into a field, or into the member 0 and the other fields of a group.
#[cycle(groups)]
pub(crate) fn clear_body<A: BuilderArena>(arena: &mut A, object: StructPlace, place: FieldPlace<'_>)
    requires there { IsThere (words_in (A.segments arena.old)) object }
    requires inside { LieIn object.data_words object.pointers
        (areas_of_body (body_of_place place)) }
    ensures edits { Edits (words_in (A.segments arena.old)) (words_in (A.segments arena.new))
        object (cleared_body (body_of_place place.entry)) }
    ensures sizes { map length (words_in (A.segments arena.new))
        ≡ map length (words_in (A.segments arena.old)) }
    ensures books { A.books arena.new ≡ A.books arena.old }
{
    match place {
        FieldPlace::Void { .. } => {}
        FieldPlace::Plain { ty, offset, .. } => {
            let width = width_of(ty);
            set_bits(arena, object, width as usize * offset as usize, width, 0);
        }
        FieldPlace::Pointer { index, .. } => clear(arena, pointer_place(object, index)),
        FieldPlace::Group { schema } => clear_group(arena, object, schema),
    }
}

/// Writes zeros and nulls into a group's field, if it is not a member of its union or is the member
/// 0.
#[cycle(groups)]
fn clear_member<A: BuilderArena>(arena: &mut A, object: StructPlace, field: Field<'_>)
    requires there { IsThere (words_in (A.segments arena.old)) object }
    requires inside { LieIn object.data_words object.pointers
        (areas_of (shape_of_struct field.parent)) }
    ensures edits { Edits (words_in (A.segments arena.old)) (words_in (A.segments arena.new))
        object (cleared_entry (entry_of_field field.entry)) }
    ensures sizes { map length (words_in (A.segments arena.new))
        ≡ map length (words_in (A.segments arena.old)) }
    ensures books { A.books arena.new ≡ A.books arena.old }
{
    let member = field.get_proto().discriminant_value;
    if member == 0 || member == NO_DISCRIMINANT {
        clear_body(arena, object, field.place());
    }
}

/// Clears a group: its member 0 and its fields that are not members.
#[cycle(groups)]
pub(crate) fn clear_group<A: BuilderArena>(
    arena: &mut A,
    object: StructPlace,
    schema: StructSchema<'_>,
)
    requires there { IsThere (words_in (A.segments arena.old)) object }
    requires inside { LieIn object.data_words object.pointers (areas_of (shape_of_struct schema)) }
    ensures edits { Edits (words_in (A.segments arena.old)) (words_in (A.segments arena.new))
        object (cleared (shape_of_struct schema.entry)) }
    ensures sizes { map length (words_in (A.segments arena.new))
        ≡ map length (words_in (A.segments arena.old)) }
    ensures books { A.books arena.new ≡ A.books arena.old }
{
    set_discriminant(arena, object, schema, 0);
    if let Ok(fields) = schema.get_fields() {
        for i in 0..fields.len() {
            clear_member(arena, object, fields.get(i));
        }
    }
}

/// Clears a field, which becomes the active member of its union, if it is a member.
pub fn clear_field<A: BuilderArena>(arena: &mut A, object: StructPlace, field: Field<'_>)
    requires there { IsThere (words_in (A.segments arena.old)) object }
    requires inside { LieIn object.data_words object.pointers
        (areas_of (shape_of_struct field.parent)) }
    ensures edits { Edits (words_in (A.segments arena.old)) (words_in (A.segments arena.new))
        object (edit_of field.entry clear) }
    ensures sizes { map length (words_in (A.segments arena.new))
        ≡ map length (words_in (A.segments arena.old)) }
    ensures books { A.books arena.new ≡ A.books arena.old }
{
    // For the proof, which cites what the node record says of the field.
    let _said = field.get_proto();
    mark(arena, object, field);
    clear_body(arena, object, field.place());
}
