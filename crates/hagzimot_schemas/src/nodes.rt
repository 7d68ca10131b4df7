//! The nodes of a schema, their names and their members.
ghost use Rattle.std.specs.Prelude.{◌≡◌, ◌≢◌, ◌==◌, map, find, All, IfSome, IfNone, option_copied, string_bytes};
ghost use Rattle.capnp_model.specs.Accepted.{enumerants_of_kind, fields_of_kind};
ghost use Rattle.capnp_records.specs.NodeViews.{enumerant_of, field_of, node_kind};
ghost use Rattle.hagzimot_schemas.specs.Nodes.{behind_colons, enumerants_of_body, fields_of_body};

use capnp_records::node::{EnumerantRecord, FieldRecord, NodeBody, NodeRecord};

/// Returns the node of an id.
pub fn node_of_id(nodes: &[NodeRecord], id: u64) -> Option<&NodeRecord>
    ensures first { option_copied result ≡ find (λ n. n.id == id) nodes.now }
    ensures found { IfSome result (λ node. node.now.id ≡ id) }
    ensures none { IfNone result (All (λ node. node.id ≢ id) nodes.now) }
{
    nodes.iter().find(|node| node.id == id)
}

/// Returns the name of a node after its last colon.
pub fn short_name(node: &NodeRecord) -> &str
    ensures { result.now ≡ behind_colons (string_bytes node.now.display_name) }
{
    let mut name = node.display_name.as_str();
    while let Some((_, behind)) = name.split_once(':') {
        name = behind;
    }
    name
}

/// Returns the fields of a node. An enum has no fields.
pub fn fields_of(node: &NodeRecord) -> &[FieldRecord]
    ensures records { result.now ≡ fields_of_body node.now.body }
    ensures fields { map field_of result.now ≡ fields_of_kind (node_kind node.now.body) }
{
    match &node.body {
        NodeBody::Struct(body) => body.fields.as_slice(),
        NodeBody::Enum(_) => &[],
    }
}

/// Returns the enumerants of a node. A struct has no enumerants.
pub fn enumerants_of(node: &NodeRecord) -> &[EnumerantRecord]
    ensures records { result.now ≡ enumerants_of_body node.now.body }
    ensures enumerants { map enumerant_of result.now
        ≡ enumerants_of_kind (node_kind node.now.body) }
{
    match &node.body {
        NodeBody::Struct(_) => &[],
        NodeBody::Enum(enumerants) => enumerants.as_slice(),
    }
}
