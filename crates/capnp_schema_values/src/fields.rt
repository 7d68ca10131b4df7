//! Fields of structs, read for writing.
ghost use Rattle.std.specs.Prelude.{◌≡◌, ℕ, Some, IfOk, option_map};
ghost use Rattle.capnp_model.specs.Schemas.{PlainType, plain_slot, width};
ghost use Rattle.capnp_units.specs.Segments.{words_in};
ghost use Rattle.capnp_wire_objects.specs.Places.{place_view};
ghost use Rattle.capnp_wire.specs.Views.{struct_at};
ghost use Rattle.capnp_values_queries.specs.Structs.{schema_around, shape_of_struct};
ghost use Rattle.capnp_values_queries.specs.Handles.{entry_of_field};
ghost use Rattle.capnp_values.specs.Shown.{number_shown};
ghost use Rattle.capnp_values.specs.Sources.{masked_bits};
ghost use Rattle.capnp_schema_structs.specs.Edits.{IsThere, HoldsShape};
ghost use Rattle.capnp_schema_values.specs.Built.{IsPlaced};
ghost use Rattle.capnp_schema_structs.specs.Grown.{GrowsAround};
ghost use Rattle.capnp_schema_values.specs.Plain.{placed_shown};
ghost use Rattle.capnp_schema_values.specs.Fields.{GetsField};

use crate::placed::Placed;
use crate::plain::plain_of;
use crate::slots::get_slot;
use capnp_copy_arenas::arena::{BuilderArena, Memory};
use capnp_copy_arenas::fields::StructPlace;
use capnp_schema_structs::init::Part;
use capnp_schema_structs::roots::default_said;
use capnp_schema_structs::slots::pointer_place;
use capnp_units::errors::Result;
use capnp_values::dynamic_struct::Reader;
use capnp_values_queries::fields::Field;
use capnp_values_queries::slots::FieldPlace;
use capnp_wire::structs::StructReader;

/// Returns a plain field of a struct, as it is read.
fn plain_field<'a, A: BuilderArena>(arena: &A, object: StructPlace, field: Field<'a>) -> Placed<'a>
    requires { IsThere (words_in (A.segments arena.now)) object }
    ensures { (p : PlainType) (at n : ℕ)
        → option_map (λ e. e.body) (entry_of_field field.entry) ≡ Some (plain_slot p at n)
        → placed_shown result ≡ Some (number_shown (schema_around field.entry.parent) p
        (masked_bits (struct_at (A.segments arena.now) (A.nesting arena.now)
        (place_view object.start) object.data_words object.pointers) at (width p) n)) }
{
    let reader = StructReader::at(arena, object.start, object.data_words, object.pointers);
    match Reader::new(reader, field.parent()).get(field) {
        Ok(value) => plain_of(field.parent().set(), field.get_type(), value),
        Err(_) => Placed::Void,
    }
}

/// Returns a field of a struct, as a value to write:
/// - a plain field as it is read, by its bits, exclusive-or'ed with those of its default;
/// - a field with a pointer as `get_slot` returns it, with its default instead of null;
/// - a group at the place of its holder, under its own schema.
///
/// A union member that isn't active is read all the same.
///
/// It is only refused for a field with a pointer, like `get_slot`.
pub fn get_field<'a, A: BuilderArena>(
    memory: &mut Memory<A>,
    object: StructPlace,
    field: Field<'a>,
) -> Result<Placed<'a>>
    requires there { IsThere (words_in (A.segments memory.old.arena)) object }
    requires wide { HoldsShape object (shape_of_struct field.parent) }
    ensures gets { GetsField (struct_at (A.segments memory.old.arena) (A.nesting memory.old.arena)
        (place_view object.start) object.data_words object.pointers)
        (words_in (A.segments memory.old.arena)) (words_in (A.segments memory.new.arena)) object
        field.entry result }
    ensures there { IfOk result (IsPlaced (words_in (A.segments memory.new.arena))) }
    ensures grows { GrowsAround (words_in (A.segments memory.old.arena))
        (words_in (A.segments memory.new.arena)) object }
    ensures books { A.books memory.new.arena ≡ A.books memory.old.arena }
{
    // For the proof, which cites the record of the field's parent.
    let holder = field.parent().record();
    let _words = holder.data_word_count;
    let said = field.get_proto();
    let set = field.parent().set();
    match field.place() {
        FieldPlace::Void { .. } => Ok(Placed::Void),
        FieldPlace::Plain { .. } => Ok(plain_field(&memory.arena, object, field)),
        FieldPlace::Pointer { index, ty, .. } => {
            let slot = pointer_place(object, index);
            get_slot(memory, slot, set, ty, default_said(said))
        }
        FieldPlace::Group { schema } => {
            let place = object;
            Ok(Placed::Struct(Part { place, schema }))
        }
    }
}
