//! Requests of the compiler.

ghost use Rattle.std.specs.Prelude.{◌≡◌, ◌≢◌, ℕ, List, ◌++◌, map, Ok, Err, IfOk, IfErr};
ghost use Rattle.capnp_units.specs.Sizes.{size_number};
ghost use Rattle.capnp_records.specs.NodeViews.{node_of};
ghost use Rattle.capnp_wire.specs.Views.{seen_list};
ghost use Rattle.capnp_relay_requests.specs.Floats.{float_told};
ghost use Rattle.capnp_relay_requests.specs.Requests.{nodes_list, records_in, floats_in, records_told, floats_told, AreBound, AreRecordsOf, AreFloatsOf, IsRequestOrBindingRefusal};
ghost use Rattle.capnp_relay_requests.specs.Faults.{IsBindingRefusal};
ghost use Rattle.capnp_relay_requests.specs.Steps.{IsRequestRefusal};

use crate::annotations::{Context, declared_types};
use crate::fault::RequestFault;
use crate::floats::float_fields;
use crate::nodes::nodes_of;
use crate::origins::{files_of, requested_file, structs_in};
use crate::planned::planned_in;
use crate::reading::{struct_behind, structs_behind};
use capnp_calls::message::MessageValue;
use capnp_records::node::NodeRecord;
use capnp_relay_bindings::plans::{Plan, nodes_by};
use capnp_wire::list::ListReader;
use capnp_wire::pointer::PointerReader;
use capnp_wire_objects::arena::{ReaderArena, ReaderArenaImpl};
use std::alloc::{AllocError, Global};

/// The most levels of pointers of a request.
const MOST_LEVELS: i32 = 64;

/// The treatment of fields of the types `Float32` and `Float64`, and of lists of them.
#[derive(Clone, Copy, Debug, PartialEq, Eq)]
pub enum Floats {
    /// They are refused.
    Refused,
    /// They are `UInt32` and `UInt64` at the same place, with the same bits as default.
    AsBits,
}

/// A field whose type in the request is a float or a list of floats, by its node's id and its
/// index.
#[derive(Clone, Copy, Debug, PartialEq, Eq)]
pub struct FloatField {
    pub node: u64,
    pub index: u32,
}

/// A field that is a capability of an interface, or a list of them, by its node's id and its index.
#[derive(Clone, Copy, Debug, PartialEq, Eq)]
pub struct InterfaceField {
    pub node: u64,
    pub index: u32,
    /// The id of the interface; if its parameters are bound, a digest of the id and of the types to
    /// which they are bound.
    pub interface: u64,
}

/// A schema from the compiler.
#[derive(Debug, Drop)]
pub struct Requested {
    /// The structs, groups and enums, in the request's order, followed by a node for each binding
    /// of a generic node.
    pub nodes: Vec<NodeRecord>,
    /// The fields that are floats there, in the order of nodes and fields; empty if floats are
    /// refused.
    pub floats: Vec<FloatField>,
    /// The fields that are capabilities of an interface.
    pub interfaces: Vec<InterfaceField>,
    /// The name of the file of each node.
    pub files: Vec<String>,
    /// The structs that are directly in the first file that the compiler was asked for.
    pub top_structs: Vec<u64>,
}

/// The records and the float fields of a request, with parameters as untyped pointers.
#[derive(Drop)]
struct Told {
    nodes: Vec<NodeRecord>,
    floats: Vec<FloatField>,
}

/// Returns the nodes of a request that is the value of an arena.
fn nodes_list<A: ReaderArena>(arena: &A) -> Result<ListReader<'_, A>, RequestFault>
    ensures ok { IfOk result (λ l. nodes_list (A.segments arena.now) (A.nesting arena.now)
        ≡ Ok (seen_list A.segments l)) }
    ensures refused { IfErr result (λ e. nodes_list (A.segments arena.now) (A.nesting arena.now)
        ≡ Err e) }
    ensures bytewise { IfOk result (λ l. size_number (seen_list A.segments l).size ≢ 1) }
{
    let root = PointerReader::get_root_from_arena(arena).ok();
    let request = struct_behind(root.ok_or(RequestFault::Request)?);
    let request = request.ok_or(RequestFault::Request)?;
    structs_behind(request.get_pointer_field(0)).ok_or(RequestFault::Request)
}

/// Returns the records of a request that is the value of an arena.
fn told_in<A: ReaderArena>(alloc: Global, arena: &A, floats: Floats) -> Result<Told, RequestFault>
    ensures nodes { IfOk result (λ s. records_in floats (A.segments arena.now)
        (A.nesting arena.now) ≡ Ok (map node_of s.nodes.items)) }
    ensures floats { IfOk result (λ s. floats_in (A.segments arena.now) (A.nesting arena.now)
        ≡ Ok (map float_told s.floats.items)) }
    ensures refused { IfErr result (IsRequestRefusal (records_in floats (A.segments arena.now)
        (A.nesting arena.now))) }
{
    let list = nodes_list(arena)?;
    let types = declared_types(alloc, &list)?;
    let context = Context { floats, types };
    let nodes = nodes_of(alloc, &context, &list)?;
    let floats = float_fields(alloc, &list)?;
    Ok(Told { nodes, floats })
}

/// Returns the files of the records that plans make from those of the request.
fn files_by(alloc: Global, told: &[String], plans: &[Plan]) -> Result<Vec<String>, AllocError> {
    let mut files = Vec::new(alloc);
    for plan in plans {
        if let Some(file) = told.get(plan.place) {
            files.push(String::from_str(alloc, file.as_str())?)?;
        }
    }
    Ok(files)
}

/// Returns the ids of the structs that are directly in the first file that the compiler was asked
/// for.
fn top_structs<A: ReaderArena>(
    alloc: Global,
    arena: &A,
    list: &ListReader<'_, A>,
) -> Result<Vec<u64>, AllocError>
    requires { size_number (seen_list A.segments list.now).size ≢ 1 }
{
    match requested_file(arena) {
        Some(file) => structs_in(alloc, list, file),
        None => Ok(Vec::new(alloc)),
    }
}

/// Returns float fields, followed by others.
#[tactic(auto, using(crate::proofs::BoundRecords::floats_joined))]
fn with_floats(
    mut told: Vec<FloatField>,
    bound: &[FloatField],
) -> Result<Vec<FloatField>, AllocError>
    ensures { IfOk result (λ v. map float_told v.items
        ≡ map float_told told.items ++ map float_told bound.now) }
{
    told.extend_from_slice(bound)?;
    Ok(told)
}

/// Returns the nodes of the request or, if generic nodes are bound, the nodes that plans make from
/// them.
#[tactic(auto, using(crate::proofs::BoundRecords::planned))]
fn bound_nodes(
    alloc: Global,
    told: Vec<NodeRecord>,
    is_bound: bool,
    plans: &[Plan],
) -> Result<Vec<NodeRecord>, AllocError>
    ensures { IfOk result (λ v. AreBound (map node_of told.items) (map node_of v.items)) }
{
    if is_bound {
        nodes_by(alloc, &told, plans)
    } else {
        Ok(told)
    }
}

/// Returns the schema of a request, with its generic types bound.
fn bound_in<A: ReaderArena>(
    alloc: Global,
    arena: &A,
    floats: Floats,
    told: Told,
) -> Result<Requested, RequestFault>
    ensures nodes { IfOk result (λ s. AreBound (map node_of told.nodes.items)
        (map node_of s.nodes.items)) }
    ensures floats { IfOk result (λ s. (bound : List (ℕ × ℕ)) × (map float_told s.floats.items
        ≡ map float_told told.floats.items ++ bound)) }
    ensures refused { IfErr result IsBindingRefusal }
{
    let Ok(list) = nodes_list(arena) else {
        // What it tells was read from these nodes.
        return Err(RequestFault::Bindings);
    };
    let planned = planned_in(alloc, floats, &list, &told.nodes)?;
    let files = files_of(alloc, &list)?;
    Ok(Requested {
        floats: with_floats(told.floats, &planned.floats)?,
        files: files_by(alloc, &files, &planned.plans)?,
        top_structs: top_structs(alloc, arena, &list)?,
        nodes: bound_nodes(alloc, told.nodes, planned.is_bound, &planned.plans)?,
        interfaces: planned.interfaces,
    })
}

/// Returns the records of the request of a message, and the message's value.
#[tactic(auto, using(crate::proofs::Messages::segment_is))]
fn told_of(
    alloc: Global,
    message: &[u8],
    floats: Floats,
) -> Result<(Told, MessageValue), RequestFault>
    ensures nodes { IfOk result (λ r. records_told floats message.now
        ≡ Ok (map node_of r.0.nodes.items)) }
    ensures floats { IfOk result (λ r. floats_told message.now
        ≡ Ok (map float_told r.0.floats.items)) }
    ensures refused { IfErr result (IsRequestRefusal (records_told floats message.now)) }
{
    let Some(value) = MessageValue::new(alloc, message)? else {
        return Err(RequestFault::Message);
    };
    let told = {
        let segments = [value.segment()];
        let arena = ReaderArenaImpl::new(segments.as_slice(), MOST_LEVELS);
        told_in(alloc, &arena, floats)?
    };
    Ok((told, value))
}

/// Reads the schema of a message that the compiler sends its plugins: one frame, with nothing after
/// it.
#[tactic(auto, using(crate::proofs::BoundRecords::records_bound, crate::proofs::BoundRecords::floats_bound))]
pub fn request_file(
    alloc: Global,
    message: &[u8],
    floats: Floats,
) -> Result<Requested, RequestFault>
    ensures nodes { IfOk result (λ s. AreRecordsOf floats message.now
        (map node_of s.nodes.items)) }
    ensures floats { IfOk result (λ s. AreFloatsOf message.now (map float_told s.floats.items)) }
    ensures refused { IfErr result (IsRequestOrBindingRefusal floats message.now) }
{
    let (told, value) = told_of(alloc, message, floats)?;
    let segments = [value.segment()];
    let arena = ReaderArenaImpl::new(segments.as_slice(), MOST_LEVELS);
    let requested = bound_in(alloc, &arena, floats, told)?;
    Ok(requested)
}
