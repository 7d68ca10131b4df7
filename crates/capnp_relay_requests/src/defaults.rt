//! Values of defaults and annotations.

ghost use Rattle.std.specs.Prelude.{◌≡◌, option_map, Ok, IfOk, IfErr};
ghost use Rattle.capnp_records.specs.NodeViews.{base_of, type_record_of, value_of};
ghost use Rattle.capnp_wire.specs.Views.{seen_struct};
ghost use Rattle.capnp_relay_requests.specs.Steps.{IsRequestRefusal};
ghost use Rattle.capnp_relay_requests.specs.Values.{is_untyped_capability, is_member_of, member_of_base, member_of_type, plain_value, pointed_value, base_value, list_value, request_value};

use crate::fault::RequestFault;
use crate::reading::{data_behind, text_behind};
use crate::segments::segment_behind;
use capnp_records::node::{BaseType, TypeRecord, Value};
use capnp_wire::structs::StructReader;
use capnp_wire_objects::arena::ReaderArena;
use std::alloc::Global;

/// Returns the member of the union of values for a base.
fn member_of_base(base: BaseType) -> u16
    ensures { result ≡ member_of_base (base_of base) }
{
    match base {
        BaseType::Void => 0,
        BaseType::Bool => 1,
        BaseType::Int8 => 2,
        BaseType::Int16 => 3,
        BaseType::Int32 => 4,
        BaseType::Int64 => 5,
        BaseType::UInt8 => 6,
        BaseType::UInt16 => 7,
        BaseType::UInt32 => 8,
        BaseType::UInt64 => 9,
        BaseType::Float32 => 10,
        BaseType::Float64 => 11,
        BaseType::Text => 12,
        BaseType::Data => 13,
        BaseType::Enum(_) => 15,
        BaseType::Struct(_) => 16,
        BaseType::Capability => 17,
        BaseType::AnyPointer => 18,
    }
}

/// Returns the member of the union of values for a type.
fn member_of(ty: TypeRecord) -> u16
    ensures { result ≡ member_of_type (type_record_of ty) }
{
    if ty.list_count > 0 {
        14
    } else {
        member_of_base(ty.base)
    }
}

/// Returns whether a type is that of any capability, whose value is given as an untyped pointer.
fn is_untyped_capability(ty: TypeRecord) -> bool
    ensures { result ≡ is_untyped_capability (type_record_of ty) }
{
    match ty.base {
        BaseType::Capability => ty.list_count == 0,
        _ => false,
    }
}

/// Returns whether a member of the union of values is for a type.
fn is_member_of(member: u16, ty: TypeRecord) -> bool
    ensures { result ≡ is_member_of member (type_record_of ty) }
{
    (member == 18 && is_untyped_capability(ty)) || member == member_of(ty)
}

/// Returns the value of a plain base, with the bits of a float as a whole number; `None` for
/// another base.
fn plain_value<A: ReaderArena>(base: BaseType, value: &StructReader<'_, A>) -> Option<Value>
    ensures { option_map value_of result
        ≡ plain_value (base_of base) (seen_struct A.segments value.now) }
{
    match base {
        BaseType::Void => Some(Value::Void),
        BaseType::Bool => Some(Value::Bool(value.get_bool_field(16))),
        BaseType::Int8 => Some(Value::Int8(value.get_data_field::<u8>(2).cast_signed())),
        BaseType::Int16 => Some(Value::Int16(value.get_data_field::<u16>(1).cast_signed())),
        BaseType::Int32 => Some(Value::Int32(value.get_data_field::<u32>(1).cast_signed())),
        BaseType::Int64 => Some(Value::Int64(value.get_data_field::<u64>(1).cast_signed())),
        BaseType::UInt8 => Some(Value::UInt8(value.get_data_field::<u8>(2))),
        BaseType::UInt16 => Some(Value::UInt16(value.get_data_field::<u16>(1))),
        BaseType::UInt32 | BaseType::Float32 => {
            Some(Value::UInt32(value.get_data_field::<u32>(1)))
        }
        BaseType::UInt64 | BaseType::Float64 => {
            Some(Value::UInt64(value.get_data_field::<u64>(1)))
        }
        BaseType::Enum(_) => Some(Value::Enum(value.get_data_field::<u16>(1))),
        BaseType::Text
        | BaseType::Data
        | BaseType::Struct(_)
        | BaseType::AnyPointer
        | BaseType::Capability => None,
    }
}

/// Returns the value of a pointer, which isn't null. Untyped values and capabilities are refused.
fn pointed_value<A: ReaderArena>(
    alloc: Global,
    fault: RequestFault,
    base: BaseType,
    value: &StructReader<'_, A>,
) -> Result<Value, RequestFault>
    ensures ok { IfOk result (λ x. pointed_value fault (base_of base)
        (seen_struct A.segments value.now) ≡ Ok (value_of x)) }
    ensures refused { IfErr result (IsRequestRefusal (pointed_value fault (base_of base)
        (seen_struct A.segments value.now))) }
{
    match base {
        BaseType::Text => {
            let text = text_behind(value.get_pointer_field(0)).ok_or(fault)?;
            Ok(Value::Text(text.to_vec(alloc)?))
        }
        BaseType::Data => {
            let bytes = data_behind(value.get_pointer_field(0)).ok_or(fault)?;
            Ok(Value::Data(bytes.to_vec(alloc)?))
        }
        BaseType::Struct(_) => Ok(Value::Struct(segment_behind(alloc, value)?)),
        _ => Err(fault),
    }
}

/// Returns the value of a base; `None` for a null pointer.
fn base_value<A: ReaderArena>(
    alloc: Global,
    fault: RequestFault,
    base: BaseType,
    value: &StructReader<'_, A>,
) -> Result<Option<Value>, RequestFault>
    ensures ok { IfOk result (λ x. base_value fault (base_of base)
        (seen_struct A.segments value.now) ≡ Ok (option_map value_of x)) }
    ensures refused { IfErr result (IsRequestRefusal (base_value fault (base_of base)
        (seen_struct A.segments value.now))) }
{
    if let Some(plain) = plain_value(base, value) {
        return Ok(Some(plain));
    }
    if value.is_pointer_field_null(0) {
        return Ok(None);
    }
    Ok(Some(pointed_value(alloc, fault, base, value)?))
}

/// Returns the value of a list; `None` for a null pointer.
fn list_value<A: ReaderArena>(
    alloc: Global,
    fault: RequestFault,
    value: &StructReader<'_, A>,
) -> Result<Option<Value>, RequestFault>
    ensures ok { IfOk result (λ x. list_value fault (seen_struct A.segments value.now)
        ≡ Ok (option_map value_of x)) }
    ensures refused { IfErr result (IsRequestRefusal (list_value fault
        (seen_struct A.segments value.now))) }
{
    // For the proof, whose clauses name the fault.
    let _fault = fault;
    if value.is_pointer_field_null(0) {
        return Ok(None);
    }
    Ok(Some(Value::List(segment_behind(alloc, value)?)))
}

/// Returns the value of a type; `None` for a null pointer.
pub(crate) fn value_in<A: ReaderArena>(
    alloc: Global,
    fault: RequestFault,
    ty: TypeRecord,
    value: &StructReader<'_, A>,
) -> Result<Option<Value>, RequestFault>
    ensures ok { IfOk result (λ x. request_value fault (type_record_of ty)
        (seen_struct A.segments value.now) ≡ Ok (option_map value_of x)) }
    ensures refused { IfErr result (IsRequestRefusal (request_value fault (type_record_of ty)
        (seen_struct A.segments value.now))) }
{
    if !is_member_of(value.get_data_field::<u16>(0), ty) {
        return Err(fault);
    }
    if ty.list_count > 0 {
        list_value(alloc, fault, value)
    } else {
        base_value(alloc, fault, ty.base, value)
    }
}
