//! Laws of schemas, as contracts of functions that do nothing.

ghost use Rattle.std.specs.Prelude.{List};
ghost use Rattle.capnp_model.specs.Schemas.{Node};
ghost use Rattle.capnp_records.specs.Sets.{IsStructOf, IsNodeOf};
ghost use Rattle.capnp_records.specs.declared.raw.RawBrandedStructSchema.{RawBrandedStructSchema};

/// The raw schema of a struct, as a set finds it by its id, is that of a struct or a group, from
/// which a schema is made.
pub fn struct_is_node()
    ensures { (nodes : List Node) (raw : RawBrandedStructSchema) → IsStructOf nodes raw
        → IsNodeOf nodes raw }
{}
