//! Structs to write as callers' types.
ghost use Rattle.std.specs.Prelude.{◌≡◌, true};
ghost use Rattle.capnp_values_queries.specs.Structs.{id_of};
ghost use Rattle.capnp_values.specs.Variants.{is_struct_of};

use capnp_copy_arenas::arena::BuilderArena;
use capnp_layout_builders::owned::OwnedStruct;
use capnp_layout_builders::struct_builder::StructBuilder;
use capnp_schema_structs::dynamic_struct;
use capnp_values_queries::introspect::{Introspect, TypeVariant};

/// Returns whether a struct can be passed on as a caller's type: its schema's id is that of the
/// type.
pub fn fits_struct<T: Introspect, A>(builder: &dynamic_struct::Builder<'_, A>) -> bool
    ensures { result ≡ is_struct_of (id_of builder.now.schema) T.ty }
{
    match T::introspect().which() {
        TypeVariant::Struct(raw) => raw == builder.schema.raw(),
        _ => false,
    }
}

/// Returns a struct as a caller's type, if `fits_struct` returns true: the type's handle is made
/// from the struct in place.
pub fn downcast_struct<'a, A: BuilderArena + 'a, T: OwnedStruct<'a, A> + Introspect>(
    builder: dynamic_struct::Builder<'a, A>,
) -> T::Builder
    requires fits { is_struct_of (id_of builder.schema) T.ty ≡ true }
    ensures from { T.Builder.from_gives
        (record { memory = builder.entry.memory; place = builder.entry.place }) result }
{
    let dynamic_struct::Builder { memory, place, .. } = builder;
    <T::Builder as From<StructBuilder<'a, A>>>::from(StructBuilder { memory, place })
}
