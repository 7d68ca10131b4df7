//! The active fields of a struct.
ghost use Rattle.std.specs.Prelude.{◌≡◌, ◌+◌, ◌<◌, ◌^◌, Some};
ghost use Rattle.capnp_model.specs.Readings.{whole_words, discriminant, is_active};
ghost use Rattle.capnp_units.specs.Segments.{words_in};
ghost use Rattle.capnp_wire_objects.specs.Inside.{section_at};
ghost use Rattle.capnp_wire_objects.specs.Objects.{AreThere};
ghost use Rattle.capnp_wire_objects.specs.Places.{place_view};
ghost use Rattle.capnp_values_queries.specs.Fields.{Entry, union_in};
ghost use Rattle.capnp_values_queries.specs.Handles.{entry_of_field};
ghost use Rattle.capnp_values_queries.specs.Structs.{shape_of_struct};
ghost use Rattle.capnp_relay_kinds.specs.Kinds.{AreInside};

use capnp_records::node::NO_DISCRIMINANT;
use capnp_values_queries::fields::Field;
use capnp_values_queries::structs::StructSchema;
use capnp_wire::structs::StructReader;
use capnp_wire_objects::arena::ReaderArena;
use capnp_wire_objects::place::Place;

/// The sections of a struct: its data words begin at a place, and its pointers come after them.
#[derive(Clone, Copy)]
pub(crate) struct Sections {
    pub(crate) start: Place,
    pub(crate) data_words: u16,
    pub(crate) pointers: u16,
}

/// Returns the value of the discriminant, if there is a union.
pub(crate) fn active_value<A: ReaderArena>(
    arena: &A,
    schema: StructSchema<'_>,
    sections: Sections,
) -> Option<u16>
    requires { AreInside (words_in (A.segments arena.now)) sections }
    ensures { result ≡ discriminant (union_in (shape_of_struct schema.entry)) whole_words
        (section_at (words_in (A.segments arena.now)) (place_view sections.start)
        sections.data_words) }
{
    let Some(offset) = schema.discriminant_offset() else {
        return None;
    };
    let reader = StructReader::at(
        arena,
        sections.start,
        sections.data_words,
        sections.pointers,
    );
    Some(reader.get_data_field::<u16>(offset as usize))
}

/// Returns whether a field is not a union member, or is the member of this value.
pub(crate) fn is_active(field: Field<'_>, active: Option<u16>) -> bool
    ensures { (e : Entry)
        → entry_of_field field.entry ≡ Some e → result ≡ is_active e.member active }
{
    let member = field.get_proto().discriminant_value;
    if member == NO_DISCRIMINANT {
        return true;
    }
    match active {
        None => false,
        Some(value) => member == value,
    }
}
