//! Floats, and the whole numbers of their bits.

ghost use Rattle.std.specs.Prelude.{◌≡◌, ◌≢◌, if◌then◌else◌, [], ◌∷◌, ◌++◌, map, option_map, IfOk};
ghost use Rattle.capnp_model.specs.Accepted.{is_float};
ghost use Rattle.capnp_units.specs.Sizes.{size_number};
ghost use Rattle.capnp_records.specs.NodeViews.{base_of, type_record_of};
ghost use Rattle.capnp_wire.specs.Views.{seen_struct, seen_list};
ghost use Rattle.capnp_relay_requests.specs.Floats.{base_as_bits, stored_type, is_float_field, floats_among, floats_of_node, floats_of_nodes, float_told};

use crate::reading::structs_behind;
use crate::request::{FloatField, Floats};
use crate::types::type_at;
use capnp_records::node::{BaseType, TypeRecord};
use capnp_wire::list::ListReader;
use capnp_wire::structs::StructReader;
use capnp_wire_objects::arena::ReaderArena;
use std::alloc::{AllocError, Global};

/// Returns whether the type is a float, or n times a list of floats.
pub(crate) fn is_float(ty: TypeRecord) -> bool
    ensures { result ≡ is_float (type_record_of ty).base }
{
    matches!(ty.base, BaseType::Float32 | BaseType::Float64)
}

/// Returns the whole number of a float's bits; another base is unchanged.
fn base_as_bits(base: BaseType) -> BaseType
    ensures { base_of result ≡ base_as_bits (base_of base) }
{
    match base {
        BaseType::Float32 => BaseType::UInt32,
        BaseType::Float64 => BaseType::UInt64,
        other => other,
    }
}

/// Returns the type with whole numbers instead of floats, if floats aren't refused.
pub(crate) fn stored_type(floats: Floats, ty: TypeRecord) -> Option<TypeRecord>
    ensures { option_map type_record_of result ≡ stored_type floats (type_record_of ty) }
{
    let stored = TypeRecord {
        list_count: ty.list_count,
        base: base_as_bits(ty.base),
    };
    match floats {
        Floats::Refused => { if is_float(ty) { None } else { Some(stored) } }
        Floats::AsBits => Some(stored),
    }
}

/// Returns whether a field is a slot of a float, or of lists of floats.
fn is_float_field<A: ReaderArena>(field: &StructReader<'_, A>) -> bool
    ensures { result ≡ is_float_field (seen_struct A.segments field.now) }
{
    if field.get_data_field::<u16>(4) != 0 {
        return false;
    }
    match type_at(field, 2) {
        Some(ty) => is_float(ty),
        None => false,
    }
}

/// Appends a field, if it is a float.
fn push_if_float<A: ReaderArena>(
    found: &mut Vec<FloatField>,
    node: u64,
    index: u32,
    field: &StructReader<'_, A>,
) -> Result<(), AllocError>
    ensures { let v = seen_struct A.segments field.now in
        IfOk result (λ _. map float_told found.new.items ≡ map float_told found.old.items
        ++ (if is_float_field v then (node, index) ∷ [] else [])) }
{
    if is_float_field(field) {
        found.push(FloatField { node, index })?;
    }
    Ok(())
}

/// Appends the float fields of the struct of an id.
#[tactic(auto, using(crate::proofs::FloatFields::next_field))]
fn push_float_fields<A: ReaderArena>(
    found: &mut Vec<FloatField>,
    node: u64,
    fields: &ListReader<'_, A>,
) -> Result<(), AllocError>
    requires { size_number (seen_list A.segments fields.now).size ≢ 1 }
    ensures { let l = seen_list A.segments fields.now in
        IfOk result (λ _. map float_told found.new.items
        ≡ map float_told found.old.items ++ floats_among node l l.count) }
{
    for index in 0..fields.len() {
        let field = fields.get_struct_element(index);
        push_if_float(found, node, index, &field)?;
    }
    Ok(())
}

/// Appends the float fields of a node, if it is a struct or a group.
fn push_floats_of_node<A: ReaderArena>(
    found: &mut Vec<FloatField>,
    node: &StructReader<'_, A>,
) -> Result<(), AllocError>
    ensures { IfOk result (λ _. map float_told found.new.items
        ≡ map float_told found.old.items ++ floats_of_node (seen_struct A.segments node.now)) }
{
    if node.get_data_field::<u16>(6) != 1 {
        return Ok(());
    }
    match structs_behind(node.get_pointer_field(3)) {
        Some(fields) => push_float_fields(found, node.get_data_field::<u64>(0), &fields),
        None => Ok(()),
    }
}

/// Returns the float fields of nodes, in the order of nodes and fields.
#[tactic(auto, using(crate::proofs::FloatFields::next_node))]
pub(crate) fn float_fields<A: ReaderArena>(
    alloc: Global,
    nodes: &ListReader<'_, A>,
) -> Result<Vec<FloatField>, AllocError>
    requires { size_number (seen_list A.segments nodes.now).size ≢ 1 }
    ensures { let l = seen_list A.segments nodes.now in
        IfOk result (λ v. map float_told v.items ≡ floats_of_nodes l l.count) }
{
    let mut found = Vec::new(alloc);
    for i in 0..nodes.len() {
        let node = nodes.get_struct_element(i);
        push_floats_of_node(&mut found, &node)?;
    }
    Ok(found)
}
