//! Items of a set of nodes: raw schemas, and types above them.

ghost use Rattle.std.specs.Prelude.{◌≡◌, Bool, List};
ghost use Rattle.capnp_model.specs.Schemas.{Node};
ghost use Rattle.capnp_model.specs.Accepted.{is_enum_node};
ghost use Rattle.capnp_records.specs.Sets.{nodes_of, has_struct, is_at};

use crate::node::NodeBody;
use crate::raw::{RawBrandedStructSchema, RawEnumSchema};
use crate::set::SchemaSet;

/// An item that can be of a set: a raw schema, or a type that names one.
pub trait OfSet: Copy {
    /// Whether the item belongs to the set of these nodes.
    ghost is_of: { List Node → Self → Bool };

    /// Returns whether the item belongs to the set.
    fn is_of_set(self, set: &SchemaSet) -> bool
        ensures { result ≡ is_of (nodes_of set.now) self };
}

impl OfSet for RawBrandedStructSchema {
    ghost is_of = { λ nodes raw. is_at has_struct nodes raw.number raw.id };

    fn is_of_set(self, set: &SchemaSet) -> bool {
        match set.node_at(self.number, self.id) {
            None => false,
            Some(node) => matches!(node.body, NodeBody::Struct(_)),
        }
    }
}

impl OfSet for RawEnumSchema {
    ghost is_of = { λ nodes raw. is_at is_enum_node nodes raw.number raw.id };

    fn is_of_set(self, set: &SchemaSet) -> bool {
        match set.node_at(self.number, self.id) {
            None => false,
            Some(node) => matches!(node.body, NodeBody::Enum(_)),
        }
    }
}
