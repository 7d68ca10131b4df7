//! The rules of types: there are no floats, and ids name nodes of their sort.

ghost use Rattle.std.specs.Prelude.{◌≡◌, not, map, IfOk};
ghost use Rattle.std.specs.List.{list_all};
ghost use Rattle.capnp_model.specs.Accepted.{is_float, has_no_float, names_its_sort, names_a, is_group_node, has_good_ids};
ghost use Rattle.capnp_records.specs.Listed.{listed};
ghost use Rattle.capnp_records.specs.NodeViews.{base_of, type_record_of, node_of};

use crate::find::{names_enum, names_group, names_struct};
use crate::node::{BaseType, NodeRecord, TypeRecord};
use crate::nodes::Nodes;
use crate::parts::{groups_of, types_of};
use std::alloc::{AllocError, Global};

// ---- 4. No float.

fn is_float(base: BaseType) -> bool
    ensures { result ≡ is_float (base_of base) }
{
    matches!(base, BaseType::Float32 | BaseType::Float64)
}

fn are_no_floats(types: &[TypeRecord]) -> bool
    ensures { result ≡ list_all (λ t. not (is_float t.base)) (map type_record_of types.now) }
{
    types.iter().all(|ty| !is_float(ty.base))
}

pub(crate) fn has_no_float(alloc: Global, node: &NodeRecord) -> Result<bool, AllocError>
    ensures { IfOk result (λ b. b ≡ has_no_float (node_of node.now)) }
{
    let types = types_of(alloc, node)?;
    Ok(are_no_floats(&types))
}

// ---- 5. A struct type names a struct, not a group; an enum type an enum, a group field a group.

fn names_its_sort(nodes: Nodes<'_>, base: BaseType) -> bool
    ensures { result ≡ names_its_sort (listed nodes.entry) (base_of base) }
{
    match base {
        BaseType::Struct(id) => names_struct(nodes, id),
        BaseType::Enum(id) => names_enum(nodes, id),
        _ => true,
    }
}

fn name_their_sorts(nodes: Nodes<'_>, types: &[TypeRecord]) -> bool
    ensures { result ≡ list_all (λ t. names_its_sort (listed nodes.entry) t.base)
        (map type_record_of types.now) }
{
    types.iter().all(|ty| names_its_sort(nodes, ty.base))
}

fn name_groups(nodes: Nodes<'_>, groups: &[u64]) -> bool
    ensures { result ≡ list_all (names_a is_group_node (listed nodes.entry)) groups.now }
{
    groups.iter().all(|id| names_group(nodes, *id))
}

pub(crate) fn has_good_ids(
    alloc: Global,
    nodes: Nodes<'_>,
    node: &NodeRecord,
) -> Result<bool, AllocError>
    ensures { IfOk result (λ b. b ≡ has_good_ids (listed nodes.entry) (node_of node.now)) }
{
    let types = types_of(alloc, node)?;
    let groups = groups_of(alloc, node)?;
    Ok(name_their_sorts(nodes, &types) && name_groups(nodes, &groups))
}
