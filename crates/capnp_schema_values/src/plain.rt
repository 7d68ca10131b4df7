//! Plain values that are read for writing.
ghost use Rattle.std.specs.Prelude.{◌≡◌, ℕ, Some, true};
ghost use Rattle.capnp_model.specs.Schemas.{PlainType, «enum», plain};
ghost use Rattle.capnp_records.specs.Sets.{nodes_of};
ghost use Rattle.capnp_values_queries.specs.Types.{ty_of, is_type_of};
ghost use Rattle.capnp_values.specs.Shown.{shown, schema_in, number_shown, an_enum};
ghost use Rattle.capnp_schema_values.specs.Plain.{placed_shown};

use crate::placed::Placed;
use capnp_records::set::SchemaSet;
use capnp_values::dynamic_value::{Enum, Reader};
use capnp_values_queries::enums::EnumSchema;
use capnp_values_queries::introspect::{Type, TypeVariant};
use capnp_wire_objects::arena::ReaderArena;

/// Returns the value of an enum of a type of the set.
fn enum_of<'a>(set: &'a SchemaSet, ty: Type, value: u16) -> Placed<'a>
    requires known { is_type_of (nodes_of set.now) ty ≡ true }
    ensures { (id : ℕ) → ty_of ty ≡ plain («enum» id)
        → placed_shown result ≡ Some (an_enum (schema_in set.now) id value) }
{
    match ty.which() {
        TypeVariant::Enum(raw) => Placed::Enum(Enum::new(value, EnumSchema::new(set, raw))),
        _ => Placed::Void,
    }
}

/// Returns a plain value of a type of the set, as it was read.
pub(crate) fn plain_of<'a, A: ReaderArena>(
    set: &'a SchemaSet,
    ty: Type,
    value: Reader<'_, A>,
) -> Placed<'a>
    requires known { is_type_of (nodes_of set.now) ty ≡ true }
    ensures { (p : PlainType) (n : ℕ) → ty_of ty ≡ plain p
        → shown A.segments value.entry ≡ number_shown (schema_in set.now) p n
        → placed_shown result ≡ Some (number_shown (schema_in set.now) p n) }
{
    match value {
        Reader::Bool(value) => Placed::Bool(value),
        Reader::Int8(value) => Placed::Int8(value),
        Reader::Int16(value) => Placed::Int16(value),
        Reader::Int32(value) => Placed::Int32(value),
        Reader::Int64(value) => Placed::Int64(value),
        Reader::UInt8(value) => Placed::UInt8(value),
        Reader::UInt16(value) => Placed::UInt16(value),
        Reader::UInt32(value) => Placed::UInt32(value),
        Reader::UInt64(value) => Placed::UInt64(value),
        Reader::Enum(value) => enum_of(set, ty, value.get_value()),
        _ => Placed::Void,
    }
}
