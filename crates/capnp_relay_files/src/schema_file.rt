//! Schema files.

ghost use Rattle.std.specs.Prelude.{◌≡◌, map, IfOk, IfErr};
ghost use Rattle.serde_json.specs.View.{view, items_view};
ghost use Rattle.capnp_records.specs.NodeViews.{node_of};
ghost use Rattle.capnp_relay_files.specs.Json.{each_item};
ghost use Rattle.capnp_relay_files.specs.SchemaFiles.{node_in, nodes_in, schema_nodes_in};
ghost use Rattle.capnp_relay_files.specs.Faults.{IsFileRefusal};

use crate::fault::FileFault;
use crate::json::value_in;
use crate::nodes::node_of;
use capnp_records::node::NodeRecord;
use serde_json::Value as Json;
use std::alloc::Global;

fn nodes_of(alloc: Global, items: &[Json]) -> Result<Vec<NodeRecord>, FileFault>
    ensures ok { IfOk result (λ v. each_item node_in (items_view items.now)
        ≡ Some (map node_of v.items)) }
    ensures refused { IfErr result (IsFileRefusal (each_item node_in (items_view items.now))) }
{
    let mut nodes = Vec::new(alloc);
    let mut rest = items;
    while let [first, others @ ..] = rest {
        nodes.push(node_of(alloc, first)?)?;
        rest = others;
    }
    Ok(nodes)
}

fn nodes_in(alloc: Global, json: &Json) -> Result<Vec<NodeRecord>, FileFault>
    ensures ok { IfOk result (λ v. nodes_in (view json.now) ≡ Some (map node_of v.items)) }
    ensures refused { IfErr result (IsFileRefusal (nodes_in (view json.now))) }
{
    let items = json.as_array().ok_or(FileFault::Form)?;
    nodes_of(alloc, items)
}

/// Reads a schema file: a JSON array of structs, groups and enums. The nodes are in the file's
/// order. Defaults of data, lists and structs are hexadecimal digits. It is refused with `Form`
/// exactly when the text is not JSON or a node has another form, and with `Memory` if memory is
/// lacking.
pub fn schema_file(alloc: Global, bytes: &[u8]) -> Result<Vec<NodeRecord>, FileFault>
    ensures ok { IfOk result (λ nodes. schema_nodes_in bytes.now ≡ Some (map node_of nodes.items)) }
    ensures refused { IfErr result (IsFileRefusal (schema_nodes_in bytes.now)) }
{
    let json = value_in(alloc, bytes)?;
    nodes_in(alloc, &json)
}
