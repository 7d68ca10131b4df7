//! Copies of node records.

ghost use Rattle.std.specs.Prelude.{◌≡◌, map, option_map, string_bytes, IfOk};
ghost use Rattle.capnp_records.specs.NodeViews.{value_of, annotation_of, kind_of_field, field_of, enumerant_of};

use capnp_records::node::{AnnotationRecord, EnumerantRecord, FieldBody, FieldRecord, Value};
use std::alloc::{AllocError, Global};

/// Returns a copy of a value.
fn value_copy(alloc: Global, value: &Value) -> Result<Value, AllocError>
    ensures { IfOk result (λ v. value_of v ≡ value_of value.now) }
{
    Ok(match value {
        Value::Void => Value::Void,
        Value::Bool(b) => Value::Bool(*b),
        Value::Int8(n) => Value::Int8(*n),
        Value::Int16(n) => Value::Int16(*n),
        Value::Int32(n) => Value::Int32(*n),
        Value::Int64(n) => Value::Int64(*n),
        Value::UInt8(n) => Value::UInt8(*n),
        Value::UInt16(n) => Value::UInt16(*n),
        Value::UInt32(n) => Value::UInt32(*n),
        Value::UInt64(n) => Value::UInt64(*n),
        Value::Enum(n) => Value::Enum(*n),
        Value::Text(bytes) => Value::Text(bytes.to_vec(alloc)?),
        Value::Data(bytes) => Value::Data(bytes.to_vec(alloc)?),
        Value::List(bytes) => Value::List(bytes.to_vec(alloc)?),
        Value::Struct(bytes) => Value::Struct(bytes.to_vec(alloc)?),
        Value::AnyPointer => Value::AnyPointer,
        Value::Interface => Value::Interface,
    })
}

/// Returns a copy of a default.
fn default_copy(alloc: Global, value: &Option<Value>) -> Result<Option<Value>, AllocError>
    ensures { IfOk result (λ v. option_map value_of v ≡ option_map value_of value.now) }
{
    match value {
        Some(value) => Ok(Some(value_copy(alloc, value)?)),
        None => Ok(None),
    }
}

/// Returns a copy of an annotation.
fn annotation_copy(
    alloc: Global,
    annotation: &AnnotationRecord,
) -> Result<AnnotationRecord, AllocError>
    ensures { IfOk result (λ a. annotation_of a ≡ annotation_of annotation.now) }
{
    Ok(AnnotationRecord {
        id: annotation.id,
        ty: annotation.ty,
        value: value_copy(alloc, &annotation.value)?,
    })
}

/// Returns a copy of annotations.
pub(crate) fn annotations_copy(
    alloc: Global,
    annotations: &[AnnotationRecord],
) -> Result<Vec<AnnotationRecord>, AllocError>
    ensures { IfOk result (λ v. map annotation_of v.items ≡ map annotation_of annotations.now) }
{
    let mut copies = Vec::new(alloc);
    let mut left = annotations;
    while let [annotation, others @ ..] = left {
        copies.push(annotation_copy(alloc, annotation)?)?;
        left = others;
    }
    Ok(copies)
}

/// Returns a copy of a field's body.
fn body_copy(alloc: Global, body: &FieldBody) -> Result<FieldBody, AllocError>
    ensures { IfOk result (λ b. kind_of_field b ≡ kind_of_field body.now) }
{
    match body {
        FieldBody::Slot {
            offset,
            ty,
            default,
        } => Ok(FieldBody::Slot {
            offset: *offset,
            ty: *ty,
            default: default_copy(alloc, default)?,
        }),
        FieldBody::Group { node } => Ok(FieldBody::Group { node: *node }),
    }
}

/// Returns a copy of a field.
pub(crate) fn field_copy(alloc: Global, field: &FieldRecord) -> Result<FieldRecord, AllocError>
    ensures { IfOk result (λ f. field_of f ≡ field_of field.now) }
{
    Ok(FieldRecord {
        name: String::from_str(alloc, field.name.as_str())?,
        discriminant_value: field.discriminant_value,
        annotations: annotations_copy(alloc, &field.annotations)?,
        body: body_copy(alloc, &field.body)?,
    })
}

/// Returns a copy of an enumerant.
fn enumerant_copy(alloc: Global, enumerant: &EnumerantRecord) -> Result<EnumerantRecord, AllocError>
    ensures { IfOk result (λ e. enumerant_of e ≡ enumerant_of enumerant.now) }
{
    Ok(EnumerantRecord {
        name: String::from_str(alloc, enumerant.name.as_str())?,
        annotations: annotations_copy(alloc, &enumerant.annotations)?,
    })
}

/// Returns copies of enumerants.
pub(crate) fn enumerants_copy(
    alloc: Global,
    enumerants: &[EnumerantRecord],
) -> Result<Vec<EnumerantRecord>, AllocError>
    ensures { IfOk result (λ v. map enumerant_of v.items ≡ map enumerant_of enumerants.now) }
{
    let mut copies = Vec::new(alloc);
    let mut left = enumerants;
    while let [enumerant, others @ ..] = left {
        copies.push(enumerant_copy(alloc, enumerant)?)?;
        left = others;
    }
    Ok(copies)
}
