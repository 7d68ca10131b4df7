//! Storage of types in a struct, and the places of its slots.

ghost use Rattle.std.specs.Prelude.{◌≡◌, ◌<◌, ◌≤◌, Option};
ghost use Rattle.capnp_model.specs.Schemas.{Value, base_type, type_of};
ghost use Rattle.capnp_model.specs.Accepted.{slot_body, areas_of_body, has_its_place};
ghost use Rattle.capnp_records.specs.NodeViews.{base_of, type_record_of, kind_of_field, struct_of};
ghost use Rattle.capnp_records.specs.Storage.{storage_of, bits_in, TakesBits, areas_in};

use crate::area::{Area, Span};
use crate::node::{BaseType, FieldBody, StructRecord, TypeRecord};

/// The storage of a type in a struct.
#[derive(Clone, Copy)]
pub(crate) enum Storage {
    Nothing,
    /// n bits of the data section.
    Bits(u32),
    Pointer,
}

// A float, which no accepted schema names, counts as Void.
fn storage_of_base(base: BaseType) -> Storage
    ensures same { result ≡ storage_of (base_type (base_of base)) }
    ensures narrow { bits_in result ≤ 64 }
    ensures wide { TakesBits result }
{
    match base {
        BaseType::Void | BaseType::Float32 | BaseType::Float64 => Storage::Nothing,
        BaseType::Bool => Storage::Bits(1),
        BaseType::Int8 | BaseType::UInt8 => Storage::Bits(8),
        BaseType::Int16 | BaseType::UInt16 | BaseType::Enum(_) => Storage::Bits(16),
        BaseType::Int32 | BaseType::UInt32 => Storage::Bits(32),
        BaseType::Int64 | BaseType::UInt64 => Storage::Bits(64),
        BaseType::Text
        | BaseType::Data
        | BaseType::Struct(_)
        | BaseType::AnyPointer
        | BaseType::Capability => Storage::Pointer,
    }
}

#[tactic(auto, using(crate::proofs::lemmas::Stored::types))]
pub(crate) fn storage_of(ty: TypeRecord) -> Storage
    ensures same { result ≡ storage_of (type_of (type_record_of ty)) }
    ensures narrow { bits_in result ≤ 64 }
    ensures wide { TakesBits result }
{
    if ty.list_count > 0 {
        return Storage::Pointer;
    }
    storage_of_base(ty.base)
}

/// Returns whether the field is in the sections of its struct. A group has its place elsewhere.
#[tactic(auto, using(crate::proofs::lemmas::Stored::places))]
pub(crate) fn has_its_place(holder: &StructRecord, body: &FieldBody) -> bool
    ensures { result ≡ has_its_place (struct_of holder.now) (kind_of_field body.now) }
{
    match body {
        FieldBody::Slot { offset, ty, .. } => match storage_of(*ty) {
            Storage::Nothing => true,
            Storage::Bits(count) => {
                let words = holder.data_word_count;
                u64::from(count) * (u64::from(*offset) + 1) <= 64 * u64::from(words)
            }
            Storage::Pointer => *offset < u32::from(holder.pointer_count),
        },
        FieldBody::Group { .. } => true,
    }
}

/// Returns the area that a slot takes.
#[tactic(auto, using(crate::proofs::lemmas::Stored::areas))]
pub(crate) fn area_of(offset: u32, ty: TypeRecord) -> Area
    ensures { (d : Option Value) → areas_in result
        ≡ areas_of_body (slot_body offset (type_of (type_record_of ty)) d) }
{
    match storage_of(ty) {
        Storage::Nothing => Area::Empty,
        Storage::Bits(width) => Area::Bits(Span {
            width,
            place: offset,
        }),
        Storage::Pointer => Area::Pointer { place: offset },
    }
}
