//! Annotations, whose types are in their own nodes.

ghost use Rattle.std.specs.Prelude.{◌≡◌, ◌≢◌, ℕ, nat_eq, map, option_map, Ok, IfOk, IfErr};
ghost use Rattle.std.specs.HashMap.{get};
ghost use Rattle.capnp_units.specs.Sizes.{size_number};
ghost use Rattle.capnp_records.specs.NodeViews.{type_record_of, value_of, annotation_of};
ghost use Rattle.capnp_wire.specs.Views.{seen_struct, seen_list};
ghost use Rattle.capnp_relay_requests.specs.Annotations.{declared_type, declared_or, declared_from, context_view, value_or_null, annotation_in, annotations_among, annotations_at};
ghost use Rattle.capnp_relay_requests.specs.Steps.{IsRequestRefusal};
ghost use Rattle.capnp_relay_requests.specs.Values.{null_value};

use crate::defaults::value_in;
use crate::fault::{Part, RequestFault, Spot, unread};
use crate::floats::stored_type;
use crate::reading::{struct_behind, structs_behind};
use crate::request::Floats;
use crate::types::type_at;
use capnp_records::node::{AnnotationRecord, BaseType, TypeRecord, Value};
use capnp_wire::list::ListReader;
use capnp_wire::structs::StructReader;
use capnp_wire_objects::arena::ReaderArena;
use std::alloc::{AllocError, Global};
use std::collections::HashMap;

/// The member of the union of nodes that is an annotation.
const ANNOTATION: u16 = 5;

/// Returns the type that a node declares, if the node is an annotation's.
fn declared_type<A: ReaderArena>(node: &StructReader<'_, A>) -> Option<TypeRecord>
    ensures { option_map type_record_of result
        ≡ declared_type (seen_struct A.segments node.now) }
{
    if node.get_data_field::<u16>(6) == ANNOTATION {
        type_at(node, 3)
    } else {
        None
    }
}

/// Stores the type that a node declares at its id.
fn declare<A: ReaderArena>(
    types: &mut HashMap<u64, TypeRecord>,
    node: &StructReader<'_, A>,
) -> Result<(), AllocError>
    ensures { IfOk result (λ _. (id : ℕ) → option_map type_record_of (get nat_eq types.new id)
        ≡ declared_or id (seen_struct A.segments node.now)
        (option_map type_record_of (get nat_eq types.old id))) }
{
    if let Some(ty) = declared_type(node) {
        types.insert(node.get_data_field::<u64>(0), ty)?;
    }
    Ok(())
}

/// Returns the types of annotations, by the ids of their nodes; the first node of an id counts.
pub(crate) fn declared_types<A: ReaderArena>(
    alloc: Global,
    nodes: &ListReader<'_, A>,
) -> Result<HashMap<u64, TypeRecord>, AllocError>
    requires { size_number (seen_list A.segments nodes.now).size ≢ 1 }
    ensures { let l = seen_list A.segments nodes.now in
        IfOk result (λ m. (id : ℕ) → option_map type_record_of (get nat_eq m id)
        ≡ declared_from l id 0 l.count) }
{
    let mut types = HashMap::new(alloc);
    let mut left = nodes.len();
    while left > 0 {
        left -= 1;
        let node = nodes.get_struct_element(left);
        declare(&mut types, &node)?;
    }
    Ok(types)
}

/// Returns the value of a null pointer of a type.
fn null_value(alloc: Global, ty: TypeRecord) -> Result<Value, AllocError>
    ensures { IfOk result (λ x. value_of x ≡ null_value (type_record_of ty)) }
{
    let null = [0u8; 8];
    if ty.list_count > 0 {
        return Ok(Value::List(null.to_vec(alloc)?));
    }
    match ty.base {
        BaseType::Text => Ok(Value::Text(Vec::new(alloc))),
        BaseType::Data => Ok(Value::Data(Vec::new(alloc))),
        BaseType::Struct(_) => Ok(Value::Struct(null.to_vec(alloc)?)),
        BaseType::Capability => Ok(Value::Interface),
        _ => Ok(Value::AnyPointer),
    }
}

/// Returns the value that was read; for a null pointer it returns that of the type.
fn value_or_null(alloc: Global, ty: TypeRecord, value: Option<Value>) -> Result<Value, AllocError>
    ensures { IfOk result (λ x. value_of x
        ≡ value_or_null (type_record_of ty) (option_map value_of value)) }
{
    match value {
        Some(value) => Ok(value),
        None => null_value(alloc, ty),
    }
}

/// The parts of the request to which members and nodes refer.
#[derive(Drop)]
pub(crate) struct Context {
    pub(crate) floats: Floats,
    /// The types of annotations.
    pub(crate) types: HashMap<u64, TypeRecord>,
}

/// Returns an annotation.
fn annotation_of<A: ReaderArena>(
    alloc: Global,
    spot: Spot,
    context: &Context,
    annotation: &StructReader<'_, A>,
) -> Result<AnnotationRecord, RequestFault>
    ensures ok { IfOk result (λ a. annotation_in (context_view context.now) spot
        (seen_struct A.segments annotation.now) ≡ Ok (annotation_of a)) }
    ensures refused { IfErr result (IsRequestRefusal (annotation_in (context_view context.now) spot
        (seen_struct A.segments annotation.now))) }
{
    let fault = unread(spot, Part::Annotations);
    let id = annotation.get_data_field::<u64>(0);
    let ty = *context.types.get(&id).ok_or(fault)?;
    let stored = stored_type(context.floats, ty).ok_or(unread(spot, Part::Float))?;
    let value = struct_behind(annotation.get_pointer_field(0)).ok_or(fault)?;
    let read = value_in(alloc, fault, ty, &value)?;
    let value = value_or_null(alloc, ty, read)?;
    Ok(AnnotationRecord {
        id,
        ty: stored,
        value,
    })
}

fn annotations_of<A: ReaderArena>(
    alloc: Global,
    spot: Spot,
    context: &Context,
    list: &ListReader<'_, A>,
) -> Result<Vec<AnnotationRecord>, RequestFault>
    requires { size_number (seen_list A.segments list.now).size ≢ 1 }
    ensures ok { let l = seen_list A.segments list.now in
        IfOk result (λ v. annotations_among (context_view context.now) spot l l.count
        ≡ Ok (map annotation_of v.items)) }
    ensures refused { let l = seen_list A.segments list.now in
        IfErr result (IsRequestRefusal (annotations_among (context_view context.now) spot l
        l.count)) }
{
    let mut annotations = Vec::new(alloc);
    for i in 0..list.len() {
        let annotation = list.get_struct_element(i);
        annotations.push(annotation_of(alloc, spot, context, &annotation)?)?;
    }
    Ok(annotations)
}

/// Returns the annotations that a pointer of a node or a member leads to.
pub(crate) fn annotations_at<A: ReaderArena>(
    alloc: Global,
    spot: Spot,
    context: &Context,
    reader: &StructReader<'_, A>,
    index: usize,
) -> Result<Vec<AnnotationRecord>, RequestFault>
    ensures ok { IfOk result (λ v. annotations_at (context_view context.now) spot index
        (seen_struct A.segments reader.now) ≡ Ok (map annotation_of v.items)) }
    ensures refused { IfErr result (IsRequestRefusal
        (annotations_at (context_view context.now) spot index
        (seen_struct A.segments reader.now))) }
{
    let fault = unread(spot, Part::Annotations);
    let list = structs_behind(reader.get_pointer_field(index)).ok_or(fault)?;
    annotations_of(alloc, spot, context, &list)
}
