//! Defaults in schema files.

ghost use Rattle.std.specs.Prelude.{◌≡◌, option_map, IfOk, IfErr};
ghost use Rattle.std.specs.Option.{option_copied};
ghost use Rattle.serde_json.specs.View.{view};
ghost use Rattle.capnp_records.specs.NodeViews.{base_of, type_record_of, value_of};
ghost use Rattle.capnp_relay_files.specs.SchemaFiles.{plain_default, base_default, default_in_file, absent_default, slot_default};
ghost use Rattle.capnp_relay_files.specs.Faults.{IsFileRefusal};

use crate::fault::FileFault;
use crate::json::{hex_in, number_in};
use capnp_records::node::{BaseType, TypeRecord, Value};
use serde_json::Value as Json;
use std::alloc::Global;

/// Returns the default of a slot of numbers, bools or enumerants; `None` for another slot.
fn plain_default(base: BaseType, json: &Json) -> Option<Value>
    ensures { option_map value_of result ≡ plain_default (base_of base) (view json.now) }
{
    match base {
        BaseType::Bool => Some(Value::Bool(json.as_bool()?)),
        BaseType::Int8 => Some(Value::Int8(i8::try_from(json.as_i64()?).ok()?)),
        BaseType::Int16 => Some(Value::Int16(i16::try_from(json.as_i64()?).ok()?)),
        BaseType::Int32 => Some(Value::Int32(i32::try_from(json.as_i64()?).ok()?)),
        BaseType::Int64 => Some(Value::Int64(json.as_i64()?)),
        BaseType::UInt8 => Some(Value::UInt8(number_in(json, 0xff)? as u8)),
        BaseType::UInt16 => Some(Value::UInt16(number_in(json, 0xffff)? as u16)),
        BaseType::UInt32 => Some(Value::UInt32(number_in(json, 0xffff_ffff)? as u32)),
        BaseType::UInt64 => Some(Value::UInt64(number_in(json, u64::MAX)?)),
        BaseType::Enum(_) => Some(Value::Enum(number_in(json, 0xffff)? as u16)),
        BaseType::Void
        | BaseType::Float32
        | BaseType::Float64
        | BaseType::Text
        | BaseType::Data
        | BaseType::Struct(_)
        | BaseType::AnyPointer
        | BaseType::Capability => None,
    }
}

/// Returns the default of a slot of a base.
fn base_default(alloc: Global, base: BaseType, json: &Json) -> Result<Value, FileFault>
    ensures ok { IfOk result (λ v. base_default (base_of base) (view json.now)
        ≡ Some (value_of v)) }
    ensures refused { IfErr result (IsFileRefusal (base_default (base_of base) (view json.now))) }
{
    match base {
        BaseType::Text => {
            let text = json.as_str().ok_or(FileFault::Form)?;
            Ok(Value::Text(text.as_bytes().to_vec(alloc)?))
        }
        BaseType::Data => Ok(Value::Data(hex_in(alloc, json)?)),
        BaseType::Struct(_) => Ok(Value::Struct(hex_in(alloc, json)?)),
        BaseType::Void
        | BaseType::Bool
        | BaseType::Int8
        | BaseType::Int16
        | BaseType::Int32
        | BaseType::Int64
        | BaseType::UInt8
        | BaseType::UInt16
        | BaseType::UInt32
        | BaseType::UInt64
        | BaseType::Float32
        | BaseType::Float64
        | BaseType::Enum(_)
        | BaseType::AnyPointer
        | BaseType::Capability => plain_default(base, json).ok_or(FileFault::Form),
    }
}

/// Returns the default that the file gives to a slot of a type.
fn default_in(alloc: Global, ty: TypeRecord, json: &Json) -> Result<Value, FileFault>
    ensures ok { IfOk result (λ v. default_in_file (type_record_of ty) (view json.now)
        ≡ Some (value_of v)) }
    ensures refused { IfErr result (IsFileRefusal (default_in_file (type_record_of ty)
        (view json.now))) }
{
    if ty.list_count > 0 {
        Ok(Value::List(hex_in(alloc, json)?))
    } else {
        base_default(alloc, ty.base, json)
    }
}

/// Returns the default of a slot for which the file gives no default: nothing or zero for a plain
/// slot, `None` for another.
fn absent_default(ty: TypeRecord) -> Option<Value>
    ensures { option_map value_of result ≡ absent_default (type_record_of ty) }
{
    if ty.list_count > 0 {
        return None;
    }
    match ty.base {
        BaseType::Void => Some(Value::Void),
        BaseType::Bool => Some(Value::Bool(false)),
        BaseType::Int8 => Some(Value::Int8(0)),
        BaseType::Int16 => Some(Value::Int16(0)),
        BaseType::Int32 => Some(Value::Int32(0)),
        BaseType::Int64 => Some(Value::Int64(0)),
        BaseType::UInt8 => Some(Value::UInt8(0)),
        BaseType::UInt16 => Some(Value::UInt16(0)),
        BaseType::UInt32 => Some(Value::UInt32(0)),
        BaseType::UInt64 => Some(Value::UInt64(0)),
        BaseType::Enum(_) => Some(Value::Enum(0)),
        _ => None,
    }
}

/// Returns the default of a slot.
pub(crate) fn slot_default(
    alloc: Global,
    ty: TypeRecord,
    json: &Json,
) -> Result<Option<Value>, FileFault>
    ensures ok { IfOk result (λ v. slot_default (type_record_of ty) (view json.now)
        ≡ Some (option_map value_of v)) }
    ensures refused { IfErr result (IsFileRefusal (slot_default (type_record_of ty)
        (view json.now))) }
{
    match json.get("default") {
        None => Ok(absent_default(ty)),
        Some(value) => Ok(Some(default_in(alloc, ty, value)?)),
    }
}
