//! The rule of places: slots are in the sections of their struct.

ghost use Rattle.std.specs.Prelude.{◌≡◌, map};
ghost use Rattle.capnp_model.specs.Accepted.{has_places, on_struct};
ghost use Rattle.capnp_records.specs.NodeViews.{struct_of, node_of};

use crate::node::{NodeBody, NodeRecord, StructRecord};
use crate::storage::has_its_place;

fn have_places(holder: &StructRecord) -> bool
    ensures { result ≡ has_places (struct_of holder.now) }
{
    holder
        .fields
        .iter()
        .all(|field| has_its_place(holder, &field.body))
}

pub(crate) fn has_places(node: &NodeRecord) -> bool
    ensures { result ≡ on_struct has_places (node_of node.now) }
{
    match &node.body {
        NodeBody::Struct(holder) => have_places(holder),
        NodeBody::Enum(_) => true,
    }
}
