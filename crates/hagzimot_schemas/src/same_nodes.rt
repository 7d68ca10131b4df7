//! Comparison of nodes without their annotations.
ghost use Rattle.std.specs.Prelude.{◌≡◌, IsTrue, map, option_map};
ghost use Rattle.capnp_records.specs.NodeViews.{base_of, type_record_of, value_of, kind_of_field, field_of, enumerant_of, struct_of, node_kind, node_of};
ghost use Rattle.hagzimot_schemas.specs.SchemaForms.{bare_field, bare_enumerant, bare_struct, bare_kind, bare_node};

use capnp_records::node::{
    EnumerantRecord, FieldBody, FieldRecord, NodeBody, NodeRecord, StructRecord, Value,
};

fn is_same_value(told: &Value, read: &Value) -> bool
    ensures { IsTrue result → value_of told.now ≡ value_of read.now }
{
    match (told, read) {
        (Value::Void, Value::Void) => true,
        (Value::Bool(a), Value::Bool(b)) => *a == *b,
        (Value::Int8(a), Value::Int8(b)) => *a == *b,
        (Value::Int16(a), Value::Int16(b)) => *a == *b,
        (Value::Int32(a), Value::Int32(b)) => *a == *b,
        (Value::Int64(a), Value::Int64(b)) => *a == *b,
        (Value::UInt8(a), Value::UInt8(b)) => *a == *b,
        (Value::UInt16(a), Value::UInt16(b)) => *a == *b,
        (Value::UInt32(a), Value::UInt32(b)) => *a == *b,
        (Value::UInt64(a), Value::UInt64(b)) => *a == *b,
        (Value::Enum(a), Value::Enum(b)) => *a == *b,
        (Value::Text(a), Value::Text(b)) => a.as_slice() == b.as_slice(),
        (Value::Data(a), Value::Data(b)) => a.as_slice() == b.as_slice(),
        (Value::List(a), Value::List(b)) => a.as_slice() == b.as_slice(),
        (Value::Struct(a), Value::Struct(b)) => a.as_slice() == b.as_slice(),
        _ => false,
    }
}

fn is_same_default(told: &Option<Value>, read: &Option<Value>) -> bool
    ensures { IsTrue result → option_map value_of told.now ≡ option_map value_of read.now }
{
    match (told, read) {
        (None, None) => true,
        (Some(told), Some(read)) => is_same_value(told, read),
        _ => false,
    }
}

fn is_same_body(told: &FieldBody, read: &FieldBody) -> bool
    ensures { IsTrue result → kind_of_field told.now ≡ kind_of_field read.now }
{
    match (told, read) {
        (FieldBody::Group { node: a }, FieldBody::Group { node: b }) => *a == *b,
        (
            FieldBody::Slot {
                offset: a,
                ty,
                default: told,
            },
            FieldBody::Slot {
                offset: b,
                ty: other,
                default: read,
            },
        ) => *a == *b && *ty == *other && is_same_default(told, read),
        _ => false,
    }
}

fn is_same_field(told: &FieldRecord, read: &FieldRecord) -> bool
    ensures { IsTrue result → bare_field (field_of told.now) ≡ bare_field (field_of read.now) }
{
    told.name.as_bytes() == read.name.as_bytes()
        && told.discriminant_value == read.discriminant_value
        && is_same_body(&told.body, &read.body)
}

fn are_same_fields(told: &[FieldRecord], read: &[FieldRecord]) -> bool
    ensures { IsTrue result
        → map bare_field (map field_of told.now) ≡ map bare_field (map field_of read.now) }
{
    let mut told_left = told;
    let mut read_left = read;
    while let ([x, xs @ ..], [y, ys @ ..]) = (told_left, read_left) {
        if !is_same_field(x, y) {
            return false;
        }
        told_left = xs;
        read_left = ys;
    }
    told_left.is_empty() && read_left.is_empty()
}

fn is_same_enumerant(told: &EnumerantRecord, read: &EnumerantRecord) -> bool
    ensures { IsTrue result
        → bare_enumerant (enumerant_of told.now) ≡ bare_enumerant (enumerant_of read.now) }
{
    told.name.as_bytes() == read.name.as_bytes()
}

fn are_same_enumerants(told: &[EnumerantRecord], read: &[EnumerantRecord]) -> bool
    ensures { IsTrue result
        → map bare_enumerant (map enumerant_of told.now)
        ≡ map bare_enumerant (map enumerant_of read.now) }
{
    let mut told_left = told;
    let mut read_left = read;
    while let ([x, xs @ ..], [y, ys @ ..]) = (told_left, read_left) {
        if !is_same_enumerant(x, y) {
            return false;
        }
        told_left = xs;
        read_left = ys;
    }
    told_left.is_empty() && read_left.is_empty()
}

fn is_same_struct(told: &StructRecord, read: &StructRecord) -> bool
    ensures { IsTrue result
        → bare_struct (struct_of told.now) ≡ bare_struct (struct_of read.now) }
{
    told.data_word_count == read.data_word_count
        && told.pointer_count == read.pointer_count
        && told.is_group == read.is_group
        && told.discriminant_count == read.discriminant_count
        && told.discriminant_offset == read.discriminant_offset
        && are_same_fields(&told.fields, &read.fields)
}

fn is_same_kind(told: &NodeBody, read: &NodeBody) -> bool
    ensures { IsTrue result → bare_kind (node_kind told.now) ≡ bare_kind (node_kind read.now) }
{
    match (told, read) {
        (NodeBody::Struct(told), NodeBody::Struct(read)) => is_same_struct(told, read),
        (NodeBody::Enum(told), NodeBody::Enum(read)) => are_same_enumerants(told, read),
        _ => false,
    }
}

fn is_same_node(told: &NodeRecord, read: &NodeRecord) -> bool
    ensures { IsTrue result → bare_node (node_of told.now) ≡ bare_node (node_of read.now) }
{
    told.id == read.id
        && told.display_name.as_bytes() == read.display_name.as_bytes()
        && is_same_kind(&told.body, &read.body)
}

/// Tests whether nodes are the same, apart from their annotations.
pub(crate) fn are_same_nodes(told: &[NodeRecord], read: &[NodeRecord]) -> bool
    ensures { IsTrue result
        → map bare_node (map node_of told.now) ≡ map bare_node (map node_of read.now) }
{
    let mut told_left = told;
    let mut read_left = read;
    while let ([x, xs @ ..], [y, ys @ ..]) = (told_left, read_left) {
        if !is_same_node(x, y) {
            return false;
        }
        told_left = xs;
        read_left = ys;
    }
    told_left.is_empty() && read_left.is_empty()
}
