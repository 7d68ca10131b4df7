//! The rule of kinds: a plain slot has a default of its kind, a pointer slot has one of its kind or
//! no default.

ghost use Rattle.std.specs.Prelude.{◌≡◌, map, option_map, Some};
ghost use Rattle.std.specs.List.{list_all};
ghost use Rattle.capnp_model.specs.Schemas.{Ty, base_type, type_of, list};
ghost use Rattle.capnp_model.specs.Accepted.{is_default_of, has_good_default, fields_of_kind};
ghost use Rattle.capnp_records.specs.NodeViews.{base_of, type_record_of, value_of, kind_of_field, field_of, node_of};

use crate::node::{BaseType, FieldBody, FieldRecord, NodeBody, NodeRecord, TypeRecord, Value};
use capnp_units::limits::MOST_WORDS;

// A float, which no accepted schema names, counts as Void.
fn is_default_of_base(base: BaseType, default: &Option<Value>) -> bool
    ensures { result ≡ is_default_of (base_type (base_of base)) (option_map value_of default.now) }
{
    match default {
        None => matches!(
            base,
            BaseType::Text
                | BaseType::Data
                | BaseType::Struct(_)
                | BaseType::AnyPointer
                | BaseType::Capability
        ),
        Some(value) => is_value_of(base, value),
    }
}

fn is_value_of(base: BaseType, value: &Value) -> bool
    ensures { result ≡ is_default_of (base_type (base_of base)) (Some (value_of value.now)) }
{
    // Each number is read for the proof, which cites that it lies in its type's range.
    match value {
        Value::Void => matches!(base, BaseType::Void | BaseType::Float32 | BaseType::Float64),
        Value::Bool(_) => matches!(base, BaseType::Bool),
        Value::Int8(n) => {
            let _n = *n;
            matches!(base, BaseType::Int8)
        }
        Value::Int16(n) => {
            let _n = *n;
            matches!(base, BaseType::Int16)
        }
        Value::Int32(n) => {
            let _n = *n;
            matches!(base, BaseType::Int32)
        }
        Value::Int64(n) => {
            let _n = *n;
            matches!(base, BaseType::Int64)
        }
        Value::UInt8(n) => {
            let _n = *n;
            matches!(base, BaseType::UInt8)
        }
        Value::UInt16(n) => {
            let _n = *n;
            matches!(base, BaseType::UInt16)
        }
        Value::UInt32(n) => {
            let _n = *n;
            matches!(base, BaseType::UInt32)
        }
        Value::UInt64(n) => {
            let _n = *n;
            matches!(base, BaseType::UInt64)
        }
        Value::Enum(n) => {
            let _n = *n;
            matches!(base, BaseType::Enum(_))
        }
        Value::Text(bytes) => matches!(base, BaseType::Text) && bytes.len() < MOST_WORDS as usize,
        Value::Data(bytes) => matches!(base, BaseType::Data) && bytes.len() <= MOST_WORDS as usize,
        Value::List(_) => false,
        Value::Struct(_) => matches!(base, BaseType::Struct(_)),
        Value::AnyPointer | Value::Interface => false,
    }
}

fn is_default_of_list(default: &Option<Value>) -> bool
    ensures { (t : Ty) → result ≡ is_default_of (list t) (option_map value_of default.now) }
{
    match default {
        None => true,
        Some(Value::List(_)) => true,
        Some(_) => false,
    }
}

#[tactic(auto, using(crate::proofs::lemmas::Stored::types))]
fn is_default_of(ty: TypeRecord, default: &Option<Value>) -> bool
    ensures { result ≡ is_default_of (type_of (type_record_of ty))
        (option_map value_of default.now) }
{
    if ty.list_count > 0 {
        return is_default_of_list(default);
    }
    is_default_of_base(ty.base, default)
}

fn has_good_default(body: &FieldBody) -> bool
    ensures { result ≡ has_good_default (kind_of_field body.now) }
{
    match body {
        FieldBody::Slot { ty, default, .. } => is_default_of(*ty, default),
        FieldBody::Group { .. } => true,
    }
}

fn have_good_defaults(fields: &[FieldRecord]) -> bool
    ensures { result ≡ list_all (λ f. has_good_default f.kind) (map field_of fields.now) }
{
    fields.iter().all(|field| has_good_default(&field.body))
}

pub(crate) fn has_good_defaults(node: &NodeRecord) -> bool
    ensures { result ≡ list_all (λ f. has_good_default f.kind) (fields_of_kind
        (node_of node.now).kind) }
{
    match &node.body {
        NodeBody::Struct(holder) => have_good_defaults(&holder.fields),
        NodeBody::Enum(_) => true,
    }
}
