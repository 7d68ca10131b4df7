//! Types in schema files.

ghost use Rattle.std.specs.Prelude.{◌≡◌, option_map};
ghost use Rattle.serde_json.specs.View.{view};
ghost use Rattle.capnp_records.specs.NodeViews.{base_of, type_record_of};
ghost use Rattle.capnp_relay_files.specs.Json.{find_named};
ghost use Rattle.capnp_relay_files.specs.SchemaFiles.{named_bases, list_type, type_with_id, type_in};

use crate::json::{number_in, only_member};
use capnp_records::node::{BaseType, TypeRecord};
use serde_json::Value as Json;

fn base_named(name: &str) -> Option<BaseType>
    ensures { option_map base_of result ≡ find_named name.now named_bases }
{
    match name {
        "Void" => Some(BaseType::Void),
        "Bool" => Some(BaseType::Bool),
        "Int8" => Some(BaseType::Int8),
        "Int16" => Some(BaseType::Int16),
        "Int32" => Some(BaseType::Int32),
        "Int64" => Some(BaseType::Int64),
        "UInt8" => Some(BaseType::UInt8),
        "UInt16" => Some(BaseType::UInt16),
        "UInt32" => Some(BaseType::UInt32),
        "UInt64" => Some(BaseType::UInt64),
        "Float32" => Some(BaseType::Float32),
        "Float64" => Some(BaseType::Float64),
        "Text" => Some(BaseType::Text),
        "Data" => Some(BaseType::Data),
        "AnyPointer" => Some(BaseType::AnyPointer),
        "Capability" => Some(BaseType::Capability),
        _ => None,
    }
}

fn no_list(base: BaseType) -> TypeRecord
    ensures { type_record_of result ≡ record { list_count = 0; base = base_of base } }
{
    TypeRecord {
        list_count: 0,
        base,
    }
}

/// Returns the list of a type.
fn list_type(ty: TypeRecord) -> Option<TypeRecord>
    ensures { option_map type_record_of result ≡ list_type (type_record_of ty) }
{
    let list_count = ty.list_count.checked_add(1)?;
    Some(TypeRecord {
        list_count,
        base: ty.base,
    })
}

/// Returns a struct or an enum by its id.
fn type_with_id(key: &str, json: &Json) -> Option<TypeRecord>
    ensures { option_map type_record_of result ≡ type_with_id key.now (view json.now) }
{
    match key {
        "struct" => Some(no_list(BaseType::Struct(number_in(json, u64::MAX)?))),
        "enum" => Some(no_list(BaseType::Enum(number_in(json, u64::MAX)?))),
        _ => None,
    }
}

/// Returns a type: a name, or an object whose one key is `list`, `struct` or `enum`.
#[tactic(auto, using(crate::proofs::OnlyMembers::types))]
pub(crate) fn type_of(json: &Json) -> Option<TypeRecord>
    ensures { option_map type_record_of result ≡ type_in (view json.now) }
{
    if let Some(name) = json.as_str() {
        return Some(no_list(base_named(name)?));
    }
    let (key, value) = only_member(json.as_object()?)?;
    if key == "list" {
        list_type(type_of(value)?)
    } else {
        type_with_id(key, value)
    }
}
