//! The struct at which a version of a schema begins.
ghost use Rattle.std.specs.Prelude.{◌≡◌};
ghost use Rattle.capnp_records.specs.Sets.{nodes_of};
ghost use Rattle.capnp_values_queries.specs.Structs.{nodes_around, id_of};

use capnp_records::set::SchemaSet;
use capnp_values_queries::structs::StructSchema;

/// A struct of a schema set, by the id of its node.
#[derive(Clone, Copy)]
pub struct Root<'a> {
    pub set: &'a SchemaSet,
    pub id: u64,
}

impl<'a> Root<'a> {
    /// Makes the root of the struct of a schema.
    pub fn of(schema: StructSchema<'a>) -> Root<'a>
        ensures set { nodes_of result.set.now ≡ nodes_around schema.entry }
        ensures id { result.id ≡ id_of schema.entry }
    {
        Root {
            set: schema.set(),
            id: schema.raw().id,
        }
    }
}
