//! Laws of schema sets, as contracts of functions that do nothing.

ghost use Rattle.std.specs.Prelude.{◌≡◌, List, true};
ghost use Rattle.capnp_model.specs.Schemas.{Node};
ghost use Rattle.capnp_model.specs.Accepted.{IsAccepted, is_struct_node, names_a};
ghost use Rattle.capnp_records.specs.Sets.{IsStructOf};
ghost use Rattle.capnp_records.specs.declared.raw.RawBrandedStructSchema.{RawBrandedStructSchema};

/// The id of the raw schema of a struct names a struct that is not a group, among nodes that keep
/// the rules.
pub fn struct_is_named()
    ensures { (nodes : List Node) (raw : RawBrandedStructSchema) → IsAccepted nodes
        → IsStructOf nodes raw
        → names_a is_struct_node nodes raw.id ≡ true }
{}
