//! The rules of bytes: a struct or list default is canonical and null or of its type. So is each
//! struct or list value of an annotation, of whatever type.

ghost use Rattle.std.specs.Prelude.{◌≡◌, true, map, Some};
ghost use Rattle.std.specs.List.{list_all, flat_map};
ghost use Rattle.capnp_model.specs.Accepted.{is_good_value, default_reads, fields_of_kind, annotations_in};
ghost use Rattle.capnp_records.specs.NodeViews.{value_of, annotation_of, kind_of_field, field_of, enumerant_of, node_of};
ghost use Rattle.capnp_records.specs.Segments.{wants};

use crate::node::{
    AnnotationRecord, EnumerantRecord, FieldBody, FieldRecord, NodeBody, NodeRecord, Value,
};
use crate::segment::{Wanted, is_good_segment};

fn is_good_value(value: &Value, wanted: Wanted) -> bool
    ensures { result ≡ is_good_value (wants wanted) (Some (value_of value.now)) }
{
    match value {
        Value::List(bytes) | Value::Struct(bytes) => is_good_segment(bytes, wanted),
        _ => true,
    }
}

// ---- defaults

fn default_reads(body: &FieldBody) -> bool
    ensures { result ≡ default_reads (kind_of_field body.now) }
{
    match body {
        FieldBody::Slot {
            ty,
            default: Some(value),
            ..
        } => is_good_value(value, Wanted::Of(*ty)),
        _ => true,
    }
}

fn defaults_read(fields: &[FieldRecord]) -> bool
    ensures { result ≡ list_all (λ f. default_reads f.kind) (map field_of fields.now) }
{
    fields.iter().all(|field| default_reads(&field.body))
}

pub(crate) fn has_good_default_values(node: &NodeRecord) -> bool
    ensures { result ≡ list_all (λ f. default_reads f.kind)
        (fields_of_kind (node_of node.now).kind) }
{
    match &node.body {
        NodeBody::Struct(holder) => defaults_read(&holder.fields),
        NodeBody::Enum(_) => true,
    }
}

// ---- annotations

fn are_good(annotations: &[AnnotationRecord]) -> bool
    ensures { result ≡ list_all (λ a. is_good_value (λ t. true) (Some a.value))
        (map annotation_of annotations.now) }
{
    annotations.iter().all(|annotation| is_good_value(&annotation.value, Wanted::Anything))
}

fn fields_are_good(fields: &[FieldRecord]) -> bool
    ensures { result ≡ list_all (λ a. is_good_value (λ t. true) (Some a.value))
        (flat_map (λ as'. as') (map (λ f. f.annotations) (map field_of fields.now))) }
{
    fields.iter().all(|field| are_good(&field.annotations))
}

fn enumerants_are_good(enumerants: &[EnumerantRecord]) -> bool
    ensures { result ≡ list_all (λ a. is_good_value (λ t. true) (Some a.value))
        (flat_map (λ as'. as') (map (λ e. e.annotations) (map enumerant_of enumerants.now))) }
{
    enumerants
        .iter()
        .all(|enumerant| are_good(&enumerant.annotations))
}

pub(crate) fn has_good_annotations(node: &NodeRecord) -> bool
    ensures { result ≡ list_all (λ a. is_good_value (λ t. true) (Some a.value))
        (annotations_in (node_of node.now)) }
{
    let others = match &node.body {
        NodeBody::Struct(holder) => fields_are_good(&holder.fields),
        NodeBody::Enum(enumerants) => enumerants_are_good(enumerants),
    };
    are_good(&node.annotations) && others
}
