//! Places of fields in their structs.

ghost use Rattle.std.specs.Prelude.{◌≡◌, ◌^◌, ◌<◌, true, option_map, option_copied};
ghost use Rattle.capnp_model.specs.Schemas.{plain, type_of, width};
ghost use Rattle.capnp_model.specs.Accepted.{default_bits, names_its_sort, slot_body};
ghost use Rattle.capnp_records.specs.NodeViews.{base_of, type_record_of, value_of};
ghost use Rattle.capnp_records.specs.Sets.{nodes_of};
ghost use Rattle.capnp_values_queries.specs.Handles.{plain_of, body_of_place, IsPlaceIn};

use crate::introspect::{Type, TypeVariant};
use crate::named::type_in;
use crate::structs::StructSchema;
use capnp_records::node::{TypeRecord, Value};
use capnp_records::raw::RawEnumSchema;
use capnp_records::set::SchemaSet;

/// The type of a plain value, which is in the data section.
#[derive(Clone, Copy, Debug, PartialEq, Eq, Hash)]
pub enum PlainType {
    Bool,
    Int8,
    Int16,
    Int32,
    Int64,
    UInt8,
    UInt16,
    UInt32,
    UInt64,
    Enum(RawEnumSchema),
}

/// The place of a field in its struct.
#[derive(Clone, Copy, Debug)]
pub enum FieldPlace<'a> {
    /// Nowhere.
    Void {
        /// The offset in the node, which has no effect.
        offset: u32,
    },
    /// In the data section.
    Plain {
        ty: PlainType,
        /// The place in the section, in units of the type's width.
        offset: u32,
        /// The default's bits, which are exclusive-or'ed with the stored bits.
        default_bits: u64,
    },
    /// The value of a pointer.
    Pointer {
        /// The place in the pointer section.
        index: u32,
        ty: Type,
        default: Option<&'a Value>,
    },
    /// In the same two sections, under the schema of the group.
    Group {
        schema: StructSchema<'a>,
    },
}

/// Returns the number of bits of a plain type's values.
pub fn width_of(ty: PlainType) -> u32
    ensures { result ≡ width (plain_of ty) }
{
    match ty {
        PlainType::Bool => 1,
        PlainType::Int8 | PlainType::UInt8 => 8,
        PlainType::Int16 | PlainType::UInt16 | PlainType::Enum(_) => 16,
        PlainType::Int32 | PlainType::UInt32 => 32,
        PlainType::Int64 | PlainType::UInt64 => 64,
    }
}

/// Returns the bits of a plain default.
fn default_bits(default: Option<&Value>) -> u64
    ensures { result ≡ default_bits (option_map value_of (option_copied default.entry)) }
{
    match default {
        Some(Value::Bool(value)) => u64::from(*value),
        Some(Value::Int8(value)) => u64::from(value.cast_unsigned()),
        Some(Value::Int16(value)) => u64::from(value.cast_unsigned()),
        Some(Value::Int32(value)) => u64::from(value.cast_unsigned()),
        Some(Value::Int64(value)) => value.cast_unsigned(),
        Some(Value::UInt8(value)) => u64::from(*value),
        Some(Value::UInt16(value)) => u64::from(*value),
        Some(Value::UInt32(value)) => u64::from(*value),
        Some(Value::UInt64(value)) => *value,
        Some(Value::Enum(value)) => u64::from(*value),
        _ => 0,
    }
}

/// Returns the place of a slot of a node of the set.
pub(crate) fn slot_place<'a>(
    set: &SchemaSet,
    offset: u32,
    base: TypeRecord,
    default: Option<&'a Value>,
) -> FieldPlace<'a>
    requires { names_its_sort (nodes_of set.now) (base_of base.base) ≡ true }
    ensures of_set { IsPlaceIn (nodes_of set.now) result }
    ensures body { body_of_place result
        ≡ slot_body offset (type_of (type_record_of base))
        (option_map value_of (option_copied default.entry)) }
{
    let named = type_in(set, base);
    let ty = match named.which() {
        TypeVariant::Void => return FieldPlace::Void { offset },
        TypeVariant::Bool => PlainType::Bool,
        TypeVariant::Int8 => PlainType::Int8,
        TypeVariant::Int16 => PlainType::Int16,
        TypeVariant::Int32 => PlainType::Int32,
        TypeVariant::Int64 => PlainType::Int64,
        TypeVariant::UInt8 => PlainType::UInt8,
        TypeVariant::UInt16 => PlainType::UInt16,
        TypeVariant::UInt32 => PlainType::UInt32,
        TypeVariant::UInt64 => PlainType::UInt64,
        TypeVariant::Enum(raw) => PlainType::Enum(raw),
        _ => {
            return FieldPlace::Pointer {
                index: offset,
                ty: named,
                default,
            };
        }
    };
    FieldPlace::Plain {
        ty,
        offset,
        default_bits: default_bits(default),
    }
}
