//! Slots that are recognised and read directly from their records.
ghost use Rattle.std.specs.Prelude.{◌≡◌, ◌*◌, ◌++◌, true, Some, option_map, OnOk};
ghost use Rattle.capnp_model.specs.Schemas.{Schema, base_type, type_of};
ghost use Rattle.capnp_model.specs.Accepted.{field_body, default_bits};
ghost use Rattle.capnp_model.specs.Printing.{number_text};
ghost use Rattle.capnp_records.specs.NodeViews.{base_of, type_record_of, value_of, kind_of_field};
ghost use Rattle.capnp_wire_objects.specs.Places.{seen};
ghost use Rattle.capnp_wire.specs.Views.{seen_struct, pointer_field};
ghost use Rattle.capnp_wire.specs.Reads.{is_null_pointer};
ghost use Rattle.capnp_values_queries.specs.Types.{is_pointer};
ghost use Rattle.capnp_values.specs.Sources.{struct_seen, pointed_text, masked_bits};
ghost use Rattle.capnp_values.specs.Shown.{is_null_slot};
ghost use Rattle.capnp_values_print.specs.Printed.{no_schema};
ghost use Rattle.capnp_values_print.specs.Slots.{IsNumberWithin, slot_bits, AppendsBase, AppendsSlot};

use crate::single::{push_signed, push_text, push_unsigned};
use capnp_records::node::{BaseType, FieldBody, TypeRecord, Value};
use capnp_units::errors::Result;
use capnp_units::limiter::ReadLimiter;
use capnp_values::dynamic_struct;
use capnp_values::source::StructSource;
use capnp_wire::structs::StructReader;
use capnp_wire_objects::arena::ReaderArena;
use std::alloc::AllocError;

// ---- null pointers

/// Returns whether a type that is not a list has values that pointers lead to.
fn is_base_pointer(base: BaseType) -> bool
    ensures { result ≡ is_pointer (base_type (base_of base)) }
{
    match base {
        BaseType::Void | BaseType::Bool | BaseType::Enum(_) => false,
        BaseType::Int8 | BaseType::Int16 | BaseType::Int32 | BaseType::Int64 => false,
        BaseType::UInt8 | BaseType::UInt16 | BaseType::UInt32 | BaseType::UInt64 => false,
        BaseType::Float32 | BaseType::Float64 => false,
        BaseType::Text | BaseType::Data | BaseType::Struct(_) => true,
        BaseType::AnyPointer | BaseType::Capability => true,
    }
}

/// Returns whether a type has values that pointers lead to.
fn is_pointer(ty: TypeRecord) -> bool
    ensures { result ≡ is_pointer (type_of (type_record_of ty)) }
{
    if ty.list_count > 0 {
        return true;
    }
    is_base_pointer(ty.base)
}

/// Returns whether a pointer of a struct is null; pointers past the last are null.
fn is_null_at<A: ReaderArena>(reader: &dynamic_struct::Reader<'_, A>, index: usize) -> bool
    ensures { result
        ≡ is_null_pointer (pointer_field (struct_seen A.segments reader.now.source) index) }
{
    match reader.source() {
        StructSource::Message(inner) => inner.is_pointer_field_null(index),
        StructSource::Default(inner) => inner.is_pointer_field_null(index),
    }
}

/// Returns whether a field's value is that of a pointer that is null.
pub(crate) fn is_null_field<A: ReaderArena>(
    reader: &dynamic_struct::Reader<'_, A>,
    body: &FieldBody,
) -> bool
    ensures { (s : Schema) → result
        ≡ is_null_slot (struct_seen A.segments reader.now.source)
        (Some (field_body s.shape_of (kind_of_field body.now))) }
{
    match body {
        FieldBody::Slot { offset, ty, .. } => {
            is_pointer(*ty) && is_null_at(reader, *offset as usize)
        }
        FieldBody::Group { .. } => false,
    }
}

// ---- numbers

/// Returns the bits of a plain default; 0 without a default.
fn default_bits(default: &Option<Value>) -> u64
    ensures { result ≡ default_bits (option_map value_of default.now) }
{
    match default {
        Some(Value::Bool(value)) => u64::from(*value),
        Some(Value::Int8(value)) => u64::from(value.cast_unsigned()),
        Some(Value::Int16(value)) => u64::from(value.cast_unsigned()),
        Some(Value::Int32(value)) => u64::from(value.cast_unsigned()),
        Some(Value::Int64(value)) => value.cast_unsigned(),
        Some(Value::UInt8(value)) => u64::from(*value),
        Some(Value::UInt16(value)) => u64::from(*value),
        Some(Value::UInt32(value)) => u64::from(*value),
        Some(Value::UInt64(value)) => *value,
        Some(Value::Enum(value)) => u64::from(*value),
        _ => 0,
    }
}

/// Returns a number of 8 bits, at an offset in units of its width.
fn number_8<A: ReaderArena>(reader: &StructReader<'_, A>, offset: usize, mask: u8) -> u8
    ensures { result ≡ masked_bits (seen_struct A.segments reader.now) (8 * offset) 8 mask }
{
    reader.get_data_field_mask(offset, mask)
}

/// Returns a number of 16 bits, at an offset in units of its width.
fn number_16<A: ReaderArena>(reader: &StructReader<'_, A>, offset: usize, mask: u16) -> u16
    ensures { result ≡ masked_bits (seen_struct A.segments reader.now) (16 * offset) 16 mask }
{
    reader.get_data_field_mask(offset, mask)
}

/// Returns a number of 32 bits, at an offset in units of its width.
fn number_32<A: ReaderArena>(reader: &StructReader<'_, A>, offset: usize, mask: u32) -> u32
    ensures { result ≡ masked_bits (seen_struct A.segments reader.now) (32 * offset) 32 mask }
{
    reader.get_data_field_mask(offset, mask)
}

/// Returns a number of 64 bits, at an offset in units of its width.
fn number_64<A: ReaderArena>(reader: &StructReader<'_, A>, offset: usize, mask: u64) -> u64
    ensures { result ≡ masked_bits (seen_struct A.segments reader.now) (64 * offset) 64 mask }
{
    reader.get_data_field_mask(offset, mask)
}

/// Returns whether values of a type are numbers, and a default has their width.
fn is_number(base: BaseType, default: u64) -> bool
    ensures { result ≡ true → IsNumberWithin (base_type (base_of base)) default }
{
    match base {
        BaseType::Int8 | BaseType::UInt8 => default < 1 << 8,
        BaseType::Int16 | BaseType::UInt16 => default < 1 << 16,
        BaseType::Int32 | BaseType::UInt32 => default < 1 << 32,
        BaseType::Int64 | BaseType::UInt64 => true,
        _ => false,
    }
}

/// Appends a number of a struct, exclusive-or'ed with its default.
fn push_number<A: ReaderArena>(
    out: &mut Vec<u8>,
    reader: &StructReader<'_, A>,
    base: BaseType,
    at: usize,
    default: u64,
) -> std::result::Result<(), AllocError>
    requires { IsNumberWithin (base_type (base_of base)) default }
    ensures { let ty = base_type (base_of base) in
        OnOk result
        (out.new.items
        ≡ out.old.items ++ number_text no_schema ty
        (slot_bits (seen_struct A.segments reader.now) ty at default)) }
{
    match base {
        BaseType::Int8 => push_signed(out, u64::from(number_8(reader, at, default as u8)), 8),
        BaseType::Int16 => push_signed(out, u64::from(number_16(reader, at, default as u16)), 16),
        BaseType::Int32 => push_signed(out, u64::from(number_32(reader, at, default as u32)), 32),
        BaseType::Int64 => push_signed(out, number_64(reader, at, default), 64),
        BaseType::UInt8 => push_unsigned(out, u64::from(number_8(reader, at, default as u8))),
        BaseType::UInt16 => push_unsigned(out, u64::from(number_16(reader, at, default as u16))),
        BaseType::UInt32 => push_unsigned(out, u64::from(number_32(reader, at, default as u32))),
        BaseType::UInt64 => push_unsigned(out, number_64(reader, at, default)),
        _ => unreachable!(),
    }
}

// ---- slots

/// Returns the text that a pointer of a struct leads to, without a budget; null is the empty text.
#[tactic(auto, using(capnp_values::proofs::lemmas::Unlimited::answers_reading))]
fn text_at<'a, A: ReaderArena>(reader: &StructReader<'a, A>, index: usize) -> Result<&'a [u8]>
    ensures { seen (λ r. r.now) result
        ≡ pointed_text (pointer_field (seen_struct A.segments reader.now) index) }
{
    let mut unlimited = ReadLimiter::new(None);
    reader
        .get_pointer_field(index)
        .get_text(&mut unlimited, None)
}

/// Appends a slot of a type that is not a list, if it is a number, or a text without a default.
fn push_base<A: ReaderArena>(
    out: &mut Vec<u8>,
    reader: &StructReader<'_, A>,
    base: BaseType,
    offset: u32,
    default: &Option<Value>,
) -> Result<bool>
    ensures { AppendsBase (seen_struct A.segments reader.now) (base_of base) offset
        (option_map value_of default.now) out.old.items result out.new.items }
{
    let at = offset as usize;
    let bits = default_bits(default);
    if is_number(base, bits) {
        push_number(out, reader, base, at, bits)?;
        return Ok(true);
    }
    if let (BaseType::Text, None) = (base, default) {
        let text = text_at(reader, at)?;
        push_text(out, text)?;
        return Ok(true);
    }
    Ok(false)
}

/// Appends the text of a message's field that is a number, or a text without a default. For another
/// field it appends nothing, and returns false.
// Inlined, what it takes of the stack would be taken by each struct that is printed in another.
#[inline(never)]
pub(crate) fn push_slot<A: ReaderArena>(
    out: &mut Vec<u8>,
    reader: &dynamic_struct::Reader<'_, A>,
    body: &FieldBody,
) -> Result<bool>
    ensures { AppendsSlot (struct_seen A.segments reader.now.source) (kind_of_field body.now)
        out.old.items result out.new.items }
{
    let FieldBody::Slot {
        offset,
        ty,
        default,
    } = body
    else {
        return Ok(false);
    };
    let StructSource::Message(inner) = reader.source() else {
        return Ok(false);
    };
    if ty.list_count > 0 {
        return Ok(false);
    }
    push_base(out, &inner, ty.base, *offset, default)
}
