//! Which paths lead to floats.

use crate::paths::{Landing, Misstep, landing_from};
use capnp_calls::Step;
use capnp_records::node::{BaseType, NodeRecord};
use capnp_relay_requests::request::FloatField;
use hagzimot_schemas::nodes::{fields_of, node_of_id};
use std::alloc::Global;

/// The id of the struct or group that a path leads to.
fn holder(at: Landing) -> Option<u64> {
    match at {
        Landing::Group(id) => Some(id),
        Landing::Value(ty) => match ty.base {
            BaseType::Struct(id) if ty.list_count == 0 => Some(id),
            _ => None,
        },
    }
}

/// Whether a field of a name is one of these floats.
fn is_float_field(nodes: &[NodeRecord], floats: &[FloatField], id: u64, name: &str) -> bool {
    let Some(node) = node_of_id(nodes, id) else {
        return false;
    };
    let place = fields_of(node)
        .iter()
        .position(|field| field.name.as_str() == name);
    match place {
        Some(place) => floats
            .iter()
            .any(|float| float.node == id && float.index as usize == place),
        None => false,
    }
}

/// Whether a path from the struct of an id leads to one of these fields, or into its lists.
pub(crate) fn is_float_at(
    alloc: Global,
    nodes: &[NodeRecord],
    floats: &[FloatField],
    root: u64,
    path: &[Step],
) -> Result<bool, Misstep> {
    let mut end = path.len();
    while end > 0 {
        end -= 1;
        if let Step::Name(name) = &path[end] {
            let at = landing_from(alloc, nodes, root, &path[..end])?;
            return Ok(match holder(at) {
                Some(id) => is_float_field(nodes, floats, id, name.as_str()),
                None => false,
            });
        }
    }
    Ok(false)
}
