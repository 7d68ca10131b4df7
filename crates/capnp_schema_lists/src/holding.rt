//! Tests whether the elements of lists fit their types.
ghost use Rattle.std.specs.Prelude.{◌≡◌, ◌↔◌, ◌≤◌, true};
ghost use Rattle.capnp_model.specs.Accepted.{schema_of};
ghost use Rattle.capnp_records.specs.Sets.{nodes_of};
ghost use Rattle.capnp_values_queries.specs.Structs.{shape_of_struct};
ghost use Rattle.capnp_values_queries.specs.Types.{ty_of, is_type_of};
ghost use Rattle.capnp_schema_lists.specs.Elements.{Holds, HoldsStructs};
ghost use Rattle.capnp_schema_lists.specs.Lists.{HasElementBits, HasPointer, HasSizes};

use crate::elements::plain_type;
use capnp_copy_arenas::init::ListPlace;
use capnp_records::set::SchemaSet;
use capnp_units::sizes::{ElementSize, data_bits_per_element};
use capnp_values_queries::introspect::{Type, TypeVariant};
use capnp_values_queries::slots::width_of;
use capnp_values_queries::structs::StructSchema;

/// Returns whether each element has n bits at its front.
fn has_room(list: ListPlace, width: u32) -> bool
    requires { width ≤ 64 }
    ensures { (result ≡ true) ↔ HasElementBits list width }
{
    match list.size {
        ElementSize::InlineComposite => list.data_words > 0,
        ElementSize::Pointer => false,
        size => width <= data_bits_per_element(size),
    }
}

/// Returns whether each element has a pointer.
fn has_pointer(list: ListPlace) -> bool
    ensures { (result ≡ true) ↔ HasPointer list }
{
    match list.size {
        ElementSize::InlineComposite => list.pointers > 0,
        ElementSize::Pointer => true,
        _ => false,
    }
}

/// Returns whether the elements are structs of at least a schema's two sizes.
fn has_sizes(list: ListPlace, schema: StructSchema<'_>) -> bool
    ensures { (result ≡ true) ↔ HasSizes list (shape_of_struct schema.entry) }
{
    let record = schema.record();
    match list.size {
        ElementSize::InlineComposite => {
            record.data_word_count <= list.data_words && record.pointer_count <= list.pointers
        }
        _ => false,
    }
}

/// Returns whether the elements of a list fit their type: plain elements with the bits of their
/// type, structs with their schema's two sizes, all others with their pointers.
pub fn holds(list: ListPlace, set: &SchemaSet, ty: Type) -> bool
    requires known { is_type_of (nodes_of set.now) ty ≡ true }
    ensures { (result ≡ true) ↔ (Holds list (ty_of ty)
        × HoldsStructs (schema_of (nodes_of set.now)) list (ty_of ty)) }
{
    if let Some(plain) = plain_type(ty) {
        return has_room(list, width_of(plain));
    }
    match ty.which() {
        TypeVariant::Struct(raw) => has_sizes(list, StructSchema::new(set, raw)),
        TypeVariant::Text
        | TypeVariant::Data
        | TypeVariant::AnyPointer
        | TypeVariant::Capability
        | TypeVariant::List(_) => has_pointer(list),
        _ => true,
    }
}
