//! Nodes.

ghost use Rattle.std.specs.Prelude.{◌≡◌, ◌≢◌, map, option_map, Ok, IfOk, IfErr};
ghost use Rattle.capnp_units.specs.Sizes.{size_number};
ghost use Rattle.capnp_records.specs.NodeViews.{struct_of, enumerant_of, node_kind as node_kind_of, node_of};
ghost use Rattle.capnp_wire.specs.Views.{seen_struct, seen_list};
ghost use Rattle.capnp_relay_requests.specs.Annotations.{context_view};
ghost use Rattle.capnp_relay_requests.specs.Nodes.{request_struct, request_enumerant, enumerants_among, request_enum, request_node_kind, node_of_kind, request_node, with_node, nodes_among};
ghost use Rattle.capnp_relay_requests.specs.Steps.{IsRequestRefusal};

use crate::annotations::{Context, annotations_at};
use crate::fault::{Part, RequestFault, Spot, unread};
use crate::fields::fields_of;
use crate::names::{member_name, node_name};
use crate::reading::structs_behind;
use capnp_records::node::{EnumerantRecord, NodeBody, NodeRecord, StructRecord};
use capnp_wire::list::ListReader;
use capnp_wire::structs::StructReader;
use capnp_wire_objects::arena::ReaderArena;
use std::alloc::{AllocError, Global};

/// Returns the struct or the group of a node.
fn struct_of<A: ReaderArena>(
    alloc: Global,
    id: u64,
    context: &Context,
    node: &StructReader<'_, A>,
) -> Result<StructRecord, RequestFault>
    ensures ok { IfOk result (λ s. request_struct (context_view context.now) id
        (seen_struct A.segments node.now) ≡ Ok (struct_of s)) }
    ensures refused { IfErr result (IsRequestRefusal (request_struct (context_view context.now) id
        (seen_struct A.segments node.now))) }
{
    let fault = unread(Spot::Node { node: id }, Part::Members);
    let list = structs_behind(node.get_pointer_field(3)).ok_or(fault)?;
    let fields = fields_of(alloc, id, context, &list)?;
    Ok(StructRecord {
        data_word_count: node.get_data_field::<u16>(7),
        pointer_count: node.get_data_field::<u16>(12),
        is_group: node.get_bool_field(224),
        discriminant_count: node.get_data_field::<u16>(15),
        discriminant_offset: node.get_data_field::<u32>(8),
        fields,
    })
}

/// Returns an enumerant.
fn enumerant_of<A: ReaderArena>(
    alloc: Global,
    spot: Spot,
    context: &Context,
    enumerant: &StructReader<'_, A>,
) -> Result<EnumerantRecord, RequestFault>
    ensures ok { IfOk result (λ e. request_enumerant (context_view context.now) spot
        (seen_struct A.segments enumerant.now) ≡ Ok (enumerant_of e)) }
    ensures refused { IfErr result (IsRequestRefusal
        (request_enumerant (context_view context.now) spot
        (seen_struct A.segments enumerant.now))) }
{
    let name = member_name(alloc, unread(spot, Part::Name), enumerant)?;
    let annotations = annotations_at(alloc, spot, context, enumerant, 1)?;
    Ok(EnumerantRecord { name, annotations })
}

/// Returns the enumerants of the enum of an id.
fn enumerants_of<A: ReaderArena>(
    alloc: Global,
    node: u64,
    context: &Context,
    list: &ListReader<'_, A>,
) -> Result<Vec<EnumerantRecord>, RequestFault>
    requires { size_number (seen_list A.segments list.now).size ≢ 1 }
    ensures ok { let l = seen_list A.segments list.now in
        IfOk result (λ v. enumerants_among (context_view context.now) node l l.count
        ≡ Ok (map enumerant_of v.items)) }
    ensures refused { let l = seen_list A.segments list.now in
        IfErr result (IsRequestRefusal (enumerants_among (context_view context.now) node l
        l.count)) }
{
    let mut enumerants = Vec::new(alloc);
    for index in 0..list.len() {
        let enumerant = list.get_struct_element(index);
        let spot = Spot::Member { node, index };
        enumerants.push(enumerant_of(alloc, spot, context, &enumerant)?)?;
    }
    Ok(enumerants)
}

/// Returns the enum of a node.
fn enum_of<A: ReaderArena>(
    alloc: Global,
    id: u64,
    context: &Context,
    node: &StructReader<'_, A>,
) -> Result<Vec<EnumerantRecord>, RequestFault>
    ensures ok { IfOk result (λ v. request_enum (context_view context.now) id
        (seen_struct A.segments node.now) ≡ Ok (map enumerant_of v.items)) }
    ensures refused { IfErr result (IsRequestRefusal (request_enum (context_view context.now) id
        (seen_struct A.segments node.now))) }
{
    let fault = unread(Spot::Node { node: id }, Part::Members);
    let list = structs_behind(node.get_pointer_field(3)).ok_or(fault)?;
    enumerants_of(alloc, id, context, &list)
}

/// Returns the body of a node; `None` for a file, an interface, a constant and an annotation.
fn body_of<A: ReaderArena>(
    alloc: Global,
    id: u64,
    context: &Context,
    node: &StructReader<'_, A>,
) -> Result<Option<NodeBody>, RequestFault>
    ensures ok { IfOk result (λ b. request_node_kind (context_view context.now) id
        (seen_struct A.segments node.now) ≡ Ok (option_map node_kind_of b)) }
    ensures refused { IfErr result (IsRequestRefusal
        (request_node_kind (context_view context.now) id
        (seen_struct A.segments node.now))) }
{
    let kind = node.get_data_field::<u16>(6);
    if kind == 1 {
        return Ok(Some(NodeBody::Struct(struct_of(alloc, id, context, node)?)));
    }
    if kind == 2 {
        return Ok(Some(NodeBody::Enum(enum_of(alloc, id, context, node)?)));
    }
    if kind < 6 {
        return Ok(None);
    }
    Err(unread(Spot::Node { node: id }, Part::Kind))
}

/// Returns a node that is a struct, a group or an enum.
fn node_of_body<A: ReaderArena>(
    alloc: Global,
    id: u64,
    context: &Context,
    node: &StructReader<'_, A>,
    body: NodeBody,
) -> Result<NodeRecord, RequestFault>
    ensures ok { IfOk result (λ n. node_of_kind (context_view context.now) id
        (seen_struct A.segments node.now) (node_kind_of body) ≡ Ok (node_of n)) }
    ensures refused { IfErr result (IsRequestRefusal (node_of_kind (context_view context.now) id
        (seen_struct A.segments node.now) (node_kind_of body))) }
{
    let spot = Spot::Node { node: id };
    let display_name = node_name(alloc, unread(spot, Part::Name), node)?;
    let annotations = annotations_at(alloc, spot, context, node, 2)?;
    Ok(NodeRecord {
        id,
        display_name,
        annotations,
        body,
    })
}

/// Returns a node; `None` for any other than a struct, a group or an enum.
fn node_of<A: ReaderArena>(
    alloc: Global,
    context: &Context,
    node: &StructReader<'_, A>,
) -> Result<Option<NodeRecord>, RequestFault>
    ensures ok { IfOk result (λ n. request_node (context_view context.now)
        (seen_struct A.segments node.now) ≡ Ok (option_map node_of n)) }
    ensures refused { IfErr result (IsRequestRefusal (request_node (context_view context.now)
        (seen_struct A.segments node.now))) }
{
    let id = node.get_data_field::<u64>(0);
    let Some(body) = body_of(alloc, id, context, node)? else {
        return Ok(None);
    };
    Ok(Some(node_of_body(alloc, id, context, node, body)?))
}

/// Appends a node, if there is one.
fn push_node(nodes: &mut Vec<NodeRecord>, node: Option<NodeRecord>) -> Result<(), AllocError>
    ensures { IfOk result (λ _. map node_of nodes.new.items
        ≡ with_node (map node_of nodes.old.items) (option_map node_of node)) }
{
    if let Some(record) = node {
        nodes.push(record)?;
    }
    Ok(())
}

/// Returns the structs, groups and enums among nodes, in their order.
pub(crate) fn nodes_of<A: ReaderArena>(
    alloc: Global,
    context: &Context,
    list: &ListReader<'_, A>,
) -> Result<Vec<NodeRecord>, RequestFault>
    requires { size_number (seen_list A.segments list.now).size ≢ 1 }
    ensures ok { let l = seen_list A.segments list.now in
        IfOk result (λ v. nodes_among (context_view context.now) l l.count
        ≡ Ok (map node_of v.items)) }
    ensures refused { let l = seen_list A.segments list.now in
        IfErr result (IsRequestRefusal (nodes_among (context_view context.now) l l.count)) }
{
    let mut nodes = Vec::new(alloc);
    for i in 0..list.len() {
        let node = list.get_struct_element(i);
        let record = node_of(alloc, context, &node)?;
        push_node(&mut nodes, record)?;
    }
    Ok(nodes)
}
