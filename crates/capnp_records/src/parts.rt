//! The parts of a node that the rules look at: its types, its names and the groups of its fields.

ghost use Rattle.std.specs.Prelude.{◌≡◌, ◌++◌, ◌∷◌, map, IfOk};
ghost use Rattle.std.specs.List.{flat_map, list_any};
ghost use Rattle.capnp_model.specs.Accepted.{slot_types, types_in, groups_of_field, groups_used, names_of_kind, annotations_in};
ghost use Rattle.capnp_records.specs.NodeViews.{type_record_of, annotation_of, kind_of_field, field_of, enumerant_of, node_kind, node_of};

use crate::node::{
    AnnotationRecord, EnumerantRecord, FieldBody, FieldRecord, NodeBody, NodeRecord, TypeRecord,
};
use std::alloc::{AllocError, Global};

// ---- types

fn push_types(
    types: &mut Vec<TypeRecord>,
    annotations: &[AnnotationRecord],
) -> Result<(), AllocError>
    ensures { IfOk result (λ _. map type_record_of types.new.items
        ≡ map type_record_of types.old.items ++ map (λ a. a.type)
        (map annotation_of annotations.now)) }
{
    for annotation in annotations {
        types.push(annotation.ty)?;
    }
    Ok(())
}

fn push_slot_types(types: &mut Vec<TypeRecord>, fields: &[FieldRecord]) -> Result<(), AllocError>
    ensures { IfOk result (λ _. map type_record_of types.new.items
        ≡ map type_record_of types.old.items ++ flat_map (λ f. slot_types f.kind)
        (map field_of fields.now)) }
{
    for field in fields {
        if let FieldBody::Slot { ty, .. } = &field.body {
            types.push(*ty)?;
        }
    }
    Ok(())
}

fn push_field_types(types: &mut Vec<TypeRecord>, fields: &[FieldRecord]) -> Result<(), AllocError>
    ensures { IfOk result (λ _. map type_record_of types.new.items
        ≡ map type_record_of types.old.items ++ map (λ a. a.type) (flat_map (λ as'. as') (map
        (λ f. f.annotations) (map field_of fields.now)))) }
{
    for field in fields {
        push_types(types, &field.annotations)?;
    }
    Ok(())
}

fn push_enumerant_types(
    types: &mut Vec<TypeRecord>,
    enumerants: &[EnumerantRecord],
) -> Result<(), AllocError>
    ensures { IfOk result (λ _. map type_record_of types.new.items
        ≡ map type_record_of types.old.items ++ map (λ a. a.type) (flat_map (λ as'. as') (map
        (λ e. e.annotations) (map enumerant_of enumerants.now)))) }
{
    for enumerant in enumerants {
        push_types(types, &enumerant.annotations)?;
    }
    Ok(())
}

/// Returns the types of a node's slots and of all its annotations.
pub(crate) fn types_of(alloc: Global, node: &NodeRecord) -> Result<Vec<TypeRecord>, AllocError>
    ensures { IfOk result (λ v. map type_record_of v.items ≡ types_in (node_of node.now)) }
{
    match &node.body {
        NodeBody::Struct(record) => {
            let mut types = Vec::with_capacity(alloc, record.fields.len())?;
            push_slot_types(&mut types, &record.fields)?;
            push_types(&mut types, &node.annotations)?;
            push_field_types(&mut types, &record.fields)?;
            Ok(types)
        }
        NodeBody::Enum(enumerants) => {
            let mut types = Vec::new(alloc);
            push_types(&mut types, &node.annotations)?;
            push_enumerant_types(&mut types, enumerants)?;
            Ok(types)
        }
    }
}

// ---- groups

fn push_groups(groups: &mut Vec<u64>, fields: &[FieldRecord]) -> Result<(), AllocError>
    ensures { IfOk result (λ _. groups.new.items
        ≡ groups.old.items ++ flat_map (λ f. groups_of_field f.kind) (map field_of fields.now)) }
{
    for field in fields {
        if let FieldBody::Group { node } = &field.body {
            groups.push(*node)?;
        }
    }
    Ok(())
}

/// Appends the ids of the groups of a node's fields.
pub(crate) fn push_groups_of(groups: &mut Vec<u64>, node: &NodeRecord) -> Result<(), AllocError>
    ensures { IfOk result (λ _. groups.new.items
        ≡ groups.old.items ++ groups_used (node_of node.now)) }
{
    match &node.body {
        NodeBody::Struct(record) => push_groups(groups, &record.fields),
        NodeBody::Enum(_) => Ok(()),
    }
}

/// Returns the ids of the groups of a node's fields.
pub(crate) fn groups_of(alloc: Global, node: &NodeRecord) -> Result<Vec<u64>, AllocError>
    ensures { IfOk result (λ v. v.items ≡ groups_used (node_of node.now)) }
{
    let mut groups = Vec::new(alloc);
    push_groups_of(&mut groups, node)?;
    Ok(groups)
}

// ---- names

fn push_field_names<'a>(
    names: &mut Vec<&'a str>,
    fields: &'a [FieldRecord],
) -> Result<(), AllocError>
    ensures { IfOk result (λ _. map (λ s. s.now) names.new.items
        ≡ map (λ s. s.now) names.old.items ++ map (λ f. f.name) (map field_of fields.now)) }
{
    for field in fields {
        names.push(field.name.as_str())?;
    }
    Ok(())
}

fn push_enumerant_names<'a>(
    names: &mut Vec<&'a str>,
    enumerants: &'a [EnumerantRecord],
) -> Result<(), AllocError>
    ensures { IfOk result (λ _. map (λ s. s.now) names.new.items
        ≡ map (λ s. s.now) names.old.items ++ map (λ e. e.name) (map enumerant_of enumerants.now)) }
{
    for enumerant in enumerants {
        names.push(enumerant.name.as_str())?;
    }
    Ok(())
}

/// Returns the names of a node's fields or enumerants.
pub(crate) fn names_of(alloc: Global, node: &NodeRecord) -> Result<Vec<&str>, AllocError>
    ensures { IfOk result
        (λ v. map (λ s. s.now) v.items ≡ names_of_kind (node_kind node.now.body)) }
{
    match &node.body {
        NodeBody::Struct(record) => {
            let mut names = Vec::with_capacity(alloc, record.fields.len())?;
            push_field_names(&mut names, &record.fields)?;
            Ok(names)
        }
        NodeBody::Enum(enumerants) => {
            let mut names = Vec::with_capacity(alloc, enumerants.len())?;
            push_enumerant_names(&mut names, enumerants)?;
            Ok(names)
        }
    }
}
