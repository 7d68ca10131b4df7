//! Values that pointers lead to, read for writing by the pointers' types.
ghost use Rattle.std.specs.Prelude.{◌≡◌, ◌+◌, ◌<◌, ◌^◌, true, option_map, option_copied, IfOk};
ghost use Rattle.capnp_model.specs.Accepted.{schema_of};
ghost use Rattle.capnp_units.specs.Segments.{words_in};
ghost use Rattle.capnp_wire_objects.specs.Places.{place_view};
ghost use Rattle.capnp_copy_arenas.specs.States.{HasWords};
ghost use Rattle.capnp_records.specs.NodeViews.{value_of};
ghost use Rattle.capnp_records.specs.Sets.{nodes_of};
ghost use Rattle.capnp_values_queries.specs.Types.{ty_of, is_type_of};
ghost use Rattle.capnp_schema_values.specs.Built.{IsPlaced};
ghost use Rattle.capnp_schema_structs.specs.Grown.{GrowsBehind};
ghost use Rattle.capnp_schema_values.specs.Slots.{slot_read, GetsValue};

use crate::blobs::{data_slot, text_slot};
use crate::lists::list_slot;
use crate::placed::Placed;
use crate::structs::struct_slot;
use capnp_copy_arenas::arena::{BuilderArena, Memory};
use capnp_records::node::Value;
use capnp_records::set::SchemaSet;
use capnp_units::errors::Result;
use capnp_values::dynamic_value::Capability;
use capnp_values_queries::introspect::{Type, TypeVariant};
use capnp_values_queries::structs::StructSchema;
use capnp_wire_objects::place::Place;

/// Returns the value of the pointer at a place, under a type of the set, with its place. A null
/// pointer gets the default, if there is one. Otherwise, if the type is a struct, it gets a struct
/// of zeros and nulls, and any other type stays null: a text, data and a list are empty then. A
/// struct, and a list of structs, are widened to their schema's sizes. The values of untyped
/// pointers and capabilities aren't looked at. A plain type has no pointers.
///
/// It is refused like `text_slot`, `data_slot`, `struct_slot` and `list_slot`.
pub fn get_slot<'a, A: BuilderArena>(
    memory: &mut Memory<A>,
    slot: Place,
    set: &'a SchemaSet,
    ty: Type,
    default: Option<&Value>,
) -> Result<Placed<'a>>
    requires there { HasWords (A.segments memory.old.arena) slot 1 }
    requires near { slot.position + 1 < 2 ^ 61 }
    requires known { is_type_of (nodes_of set.now) ty ≡ true }
    ensures gets { GetsValue (ty_of ty) (slot_read slot (schema_of (nodes_of set.now))
        (option_map value_of (option_copied default.entry)))
        (words_in (A.segments memory.old.arena)) (words_in (A.segments memory.new.arena)) result }
    ensures there { IfOk result (IsPlaced (words_in (A.segments memory.new.arena))) }
    ensures grows { GrowsBehind (words_in (A.segments memory.old.arena))
        (words_in (A.segments memory.new.arena)) (place_view slot) }
    ensures books { A.books memory.new.arena ≡ A.books memory.old.arena }
{
    match ty.which() {
        TypeVariant::Text => {
            let text = text_slot(memory, slot, default)?;
            Ok(Placed::Text(text))
        }
        TypeVariant::Data => {
            let data = data_slot(memory, slot, default)?;
            Ok(Placed::Data(data))
        }
        TypeVariant::Struct(raw) => {
            let schema = StructSchema::new(set, raw);
            let part = struct_slot(&mut memory.arena, slot, schema, default)?;
            Ok(Placed::Struct(part))
        }
        TypeVariant::List(element_type) => {
            let list = list_slot(memory, slot, set, element_type, default)?;
            Ok(Placed::List(list))
        }
        TypeVariant::AnyPointer => Ok(Placed::AnyPointer(slot)),
        TypeVariant::Capability => Ok(Placed::Capability(Capability)),
        _ => Ok(Placed::Void),
    }
}
