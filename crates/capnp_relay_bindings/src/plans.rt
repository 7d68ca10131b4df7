//! Plans of the node records that are made from those of a request, with their types.

ghost use Rattle.std.specs.Prelude.{◌≡◌, map, option_map, option_copied, slice_get, IfOk};
ghost use Rattle.capnp_records.specs.NodeViews.{base_of, type_record_of, kind_of_field, field_of, struct_of, node_kind, node_of};
ghost use Rattle.capnp_relay_bindings.specs.Plans.{is_pointer_type, may_become, retyped_kind, retyped_field, retyped_fields, retyped_node_kind, planned_node, with_planned, planned_nodes};

use crate::copies::{annotations_copy, enumerants_copy, field_copy};
use capnp_records::node::{
    BaseType, FieldBody, FieldRecord, NodeBody, NodeRecord, StructRecord, TypeRecord,
};
use std::alloc::{AllocError, Global};

/// The body of a field after the parameters are bound.
#[derive(Clone, Copy)]
pub enum Retyped {
    /// A slot of this type.
    Slot(TypeRecord),
    /// A group with the node of this id.
    Group(u64),
}

/// The plan of a node record.
#[derive(Drop)]
pub struct Plan {
    /// The place of the struct or group that is bound among the records of the request.
    pub place: usize,
    pub id: u64,
    pub name: String,
    /// The new body of each of its fields.
    pub fields: Vec<Retyped>,
}

/// Returns whether pointers lead to the values of a type.
fn is_pointer_type(ty: TypeRecord) -> bool
    ensures { result ≡ is_pointer_type (type_record_of ty) }
{
    ty.list_count > 0
        || matches!(
            ty.base,
            BaseType::Text
                | BaseType::Data
                | BaseType::Struct(_)
                | BaseType::AnyPointer
                | BaseType::Capability
        )
}

/// Returns whether a type may become another when parameters are bound: an untyped pointer any type
/// with a pointer, and a struct another struct.
fn may_become(was: TypeRecord, to: TypeRecord) -> bool
    ensures { result ≡ may_become (type_record_of was) (type_record_of to) }
{
    match (was.base, to.base) {
        (BaseType::AnyPointer, _) => is_pointer_type(to),
        (BaseType::Struct(_), BaseType::Struct(_)) => was.list_count == to.list_count,
        _ => false,
    }
}

/// Returns the planned body of a field.
fn body_as(body: FieldBody, to: Retyped) -> FieldBody
    ensures { kind_of_field result ≡ retyped_kind (kind_of_field body) to }
{
    match (body, to) {
        (
            FieldBody::Slot {
                offset,
                ty,
                default,
            },
            Retyped::Slot(to),
        ) => FieldBody::Slot {
            offset,
            ty: if may_become(ty, to) { to } else { ty },
            default,
        },
        (FieldBody::Group { .. }, Retyped::Group(node)) => FieldBody::Group { node },
        (other, _) => other,
    }
}

/// Returns a field with its planned body.
fn field_as(field: FieldRecord, to: Retyped) -> FieldRecord
    ensures { field_of result ≡ retyped_field (field_of field) to }
{
    let FieldRecord {
        name,
        discriminant_value,
        annotations,
        body,
    } = field;
    FieldRecord {
        name,
        discriminant_value,
        annotations,
        body: body_as(body, to),
    }
}

/// Returns copies of fields, each with its planned body.
fn fields_by(
    alloc: Global,
    fields: &[FieldRecord],
    plan: &[Retyped],
) -> Result<Vec<FieldRecord>, AllocError>
    ensures { IfOk result (λ fs. map field_of fs.items
        ≡ retyped_fields (map field_of fields.now) plan.now) }
{
    let mut made = Vec::new(alloc);
    let mut left = fields;
    let mut to = plan;
    while let [field, others @ ..] = left {
        let copy = field_copy(alloc, field)?;
        match to {
            [first, further @ ..] => {
                made.push(field_as(copy, *first))?;
                to = further;
            }
            [] => made.push(copy)?,
        }
        left = others;
    }
    Ok(made)
}

/// Returns the struct of a node, with its planned fields.
fn struct_by(
    alloc: Global,
    told: &StructRecord,
    plan: &[Retyped],
) -> Result<StructRecord, AllocError>
    ensures { IfOk result (λ s. struct_of s ≡ record (struct_of told.now)
        { fields = retyped_fields (map field_of told.now.fields.items) plan.now }) }
{
    Ok(StructRecord {
        data_word_count: told.data_word_count,
        pointer_count: told.pointer_count,
        is_group: told.is_group,
        discriminant_count: told.discriminant_count,
        discriminant_offset: told.discriminant_offset,
        fields: fields_by(alloc, &told.fields, plan)?,
    })
}

/// Returns the body of a node, with its planned fields.
fn body_by(alloc: Global, body: &NodeBody, plan: &[Retyped]) -> Result<NodeBody, AllocError>
    ensures { IfOk result (λ b. node_kind b ≡ retyped_node_kind (node_kind body.now) plan.now) }
{
    match body {
        NodeBody::Struct(told) => Ok(NodeBody::Struct(struct_by(alloc, told, plan)?)),
        NodeBody::Enum(enumerants) => Ok(NodeBody::Enum(enumerants_copy(alloc, enumerants)?)),
    }
}

/// Returns the record that a plan makes from a record of the request.
fn node_by(alloc: Global, told: &NodeRecord, plan: &Plan) -> Result<NodeRecord, AllocError>
    ensures { IfOk result (λ n. node_of n ≡ planned_node (node_of told.now) plan.now) }
{
    Ok(NodeRecord {
        id: plan.id,
        display_name: String::from_str(alloc, plan.name.as_str())?,
        annotations: annotations_copy(alloc, &told.annotations)?,
        body: body_by(alloc, &told.body, &plan.fields)?,
    })
}

/// Returns the record of a place among those of the request.
#[tactic(auto, using(crate::proofs::Places::record_at))]
fn told_at(told: &[NodeRecord], place: usize) -> Option<&NodeRecord>
    ensures { option_map node_of (option_copied result) ≡ slice_get (map node_of told.now) place }
{
    told.get(place)
}

/// Appends the record that a plan makes from another, if that record exists.
fn push_planned(
    alloc: Global,
    nodes: &mut Vec<NodeRecord>,
    told: Option<&NodeRecord>,
    plan: &Plan,
) -> Result<(), AllocError>
    ensures { IfOk result (λ _. map node_of nodes.new.items ≡ with_planned
        (map node_of nodes.old.items) (option_map node_of (option_copied told.entry)) plan.now) }
{
    if let Some(told) = told {
        nodes.push(node_by(alloc, told, plan)?)?;
    }
    Ok(())
}

/// Returns the records that plans make from those of the request, in the order of the plans. A plan
/// for a record that doesn't exist makes none.
pub fn nodes_by(
    alloc: Global,
    told: &[NodeRecord],
    plans: &[Plan],
) -> Result<Vec<NodeRecord>, AllocError>
    ensures { IfOk result (λ ns. map node_of ns.items
        ≡ planned_nodes (map node_of told.now) plans.now) }
{
    let mut nodes = Vec::new(alloc);
    let mut left = plans;
    while let [plan, others @ ..] = left {
        push_planned(alloc, &mut nodes, told_at(told, plan.place), plan)?;
        left = others;
    }
    Ok(nodes)
}
