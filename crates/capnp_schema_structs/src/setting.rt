//! Values without pointers, set into slots.
ghost use Rattle.std.specs.Prelude.{◌≡◌, ◌*◌, ◌<◌, ◌^◌, length, option_map, IfSome, IfErr, OnOk, OnErr};
ghost use Rattle.capnp_model.specs.Accepted.{areas_of};
ghost use Rattle.capnp_model.specs.Calls.{blob_tree};
ghost use Rattle.capnp_model.specs.Coverage.{Grows};
ghost use Rattle.capnp_model.specs.Schemas.{width};
ghost use Rattle.capnp_model.specs.Sections.{words_for};
ghost use Rattle.capnp_units.specs.Segments.{words_in};
ghost use Rattle.capnp_units.specs.Errors.{kind_of};
ghost use Rattle.capnp_layout_builders.specs.Making.{Makes, BytesNotSet};
ghost use Rattle.capnp_values_queries.specs.Structs.{shape_of_struct};
ghost use Rattle.capnp_values_queries.specs.Handles.{entry_of_field, plain_of};
ghost use Rattle.capnp_values_queries.specs.Types.{ty_of};
ghost use Rattle.capnp_schema_structs.specs.Inside.{LieIn};
ghost use Rattle.capnp_schema_structs.specs.Blobs.{list_bytes_of};
ghost use Rattle.capnp_schema_structs.specs.Edits.{IsThere};
ghost use Rattle.capnp_schema_structs.specs.Given.{plain_given, bits_given, bytes_given, pointer_refusal, set_content, set_edit};
ghost use Rattle.capnp_copy_arenas.specs.Refusals.{IsSizeOrRefusal};
ghost use Rattle.capnp_copy_arenas.specs.States.{HasWords, state_in};
ghost use Rattle.capnp_schema_structs.specs.Puts.{HasCause, PutsContent};

use crate::slots::{mark, pointer_place};
use capnp_copy_arenas::arena::BuilderArena;
use capnp_copy_arenas::blobs::{set_data, set_text};
use capnp_copy_arenas::fields::{StructPlace, set_bits};
use capnp_units::errors::{Error, Result};
use capnp_units::kinds::ErrorKind;
use capnp_values::dynamic_value::Reader;
use capnp_values_queries::fields::Field;
use capnp_values_queries::introspect::{Type, TypeVariant};
use capnp_values_queries::slots::{FieldPlace, PlainType, width_of};
use capnp_wire_objects::place::Place;

/// A text, without its zero byte, or data.
pub enum Blob<'a> {
    Text(&'a [u8]),
    Data(&'a [u8]),
}

/// Returns the bits of a value of a plain type; the value of any enum is a value of each enum.
pub fn bits_for<B>(ty: PlainType, value: &Reader<'_, B>) -> Option<u64>
    ensures bits { result ≡ bits_given (plain_of ty) (plain_given value.now) }
    ensures fit { IfSome result (λ n. n < 2 ^ width (plain_of ty)) }
{
    match (ty, value) {
        (PlainType::Bool, Reader::Bool(x)) => Some(u64::from(*x)),
        (PlainType::Int8, Reader::Int8(x)) => Some(u64::from(x.cast_unsigned())),
        (PlainType::Int16, Reader::Int16(x)) => Some(u64::from(x.cast_unsigned())),
        (PlainType::Int32, Reader::Int32(x)) => Some(u64::from(x.cast_unsigned())),
        (PlainType::Int64, Reader::Int64(x)) => Some(x.cast_unsigned()),
        (PlainType::UInt8, Reader::UInt8(x)) => Some(u64::from(*x)),
        (PlainType::UInt16, Reader::UInt16(x)) => Some(u64::from(*x)),
        (PlainType::UInt32, Reader::UInt32(x)) => Some(u64::from(*x)),
        (PlainType::UInt64, Reader::UInt64(x)) => Some(*x),
        (PlainType::Enum(_), Reader::Enum(x)) => Some(u64::from(x.get_value())),
        _ => None,
    }
}

/// Returns the reason for which a slot of a pointer's type takes no plain value.
fn refusal(ty: Type) -> ErrorKind
    ensures { kind_of result ≡ pointer_refusal (ty_of ty) }
{
    match ty.which() {
        TypeVariant::AnyPointer => ErrorKind::CannotSetAnyPointerFieldToAPrimitiveValue,
        TypeVariant::Capability => ErrorKind::SettingDynamicCapabilitiesIsUnsupported,
        _ => ErrorKind::TypeMismatch,
    }
}

/// Returns the text or the data of a value, if a slot of a pointer's type takes it.
fn blob_for<'a, B>(ty: Type, value: &Reader<'a, B>) -> Option<Blob<'a>>
    ensures { option_map list_bytes_of result ≡ bytes_given value.now (ty_of ty) }
{
    match (ty.which(), value) {
        (TypeVariant::Text | TypeVariant::AnyPointer, Reader::Text(text)) => {
            Some(Blob::Text(text.as_bytes()))
        }
        (TypeVariant::Data | TypeVariant::AnyPointer, Reader::Data(data)) => Some(Blob::Data(data)),
        _ => None,
    }
}

/// Replaces the value of the pointer at a place, which is cleared, by a text, with its zero byte,
/// or data. The pointer is a struct's, or an element's of a list (`capnp_schema_lists`). It is
/// refused, and everything is unchanged,
/// - with `SizeOverflow` exactly when its list has 2^29 bytes or more, or the message's words,
///   including a pad, would exceed 2^29 - 1;
/// - otherwise with the allocator's error.
pub fn put_blob<A: BuilderArena>(arena: &mut A, slot: Place, blob: Blob<'_>) -> Result<()>
    requires there { HasWords (A.segments arena.old) slot 1 }
    requires near { slot.position < 2 ^ 61 }
    ensures made { let at = state_in A.segments A.room A.books in OnOk result
        (Makes (at arena.old) (at arena.new) slot (blob_tree (list_bytes_of blob.entry))
        (words_for (8 * length (list_bytes_of blob.entry)))) }
    ensures refused { let at = state_in A.segments A.room A.books in IfErr result
        (BytesNotSet (at arena.old) (at arena.new) slot.segment
        (length (list_bytes_of blob.entry))) }
    ensures cause { IfErr result (IsSizeOrRefusal A.refuses) }
    ensures grows { OnOk result
        (Grows (words_in (A.segments arena.old)) (words_in (A.segments arena.new))) }
    ensures books { A.books arena.new ≡ A.books arena.old }
{
    match blob {
        Blob::Text(text) => set_text(arena, slot, text),
        Blob::Data(data) => set_data(arena, slot, data),
    }
}

/// Sets a slot to a value without pointers, or a Void slot to any value. The value is checked and
/// memory taken before the union is marked, so a refusal leaves everything unchanged.
pub fn set_flat<A: BuilderArena, B>(
    arena: &mut A,
    object: StructPlace,
    field: Field<'_>,
    value: &Reader<'_, B>,
) -> Result<()>
    requires there { IsThere (words_in (A.segments arena.old)) object }
    requires inside { LieIn object.data_words object.pointers
        (areas_of (shape_of_struct field.parent)) }
    ensures puts { let at = state_in A.segments A.room A.books in
        PutsContent (at arena.old) (at arena.new) object (set_edit field.entry value.now)
        (set_content value.now (entry_of_field field.entry)) result }
    ensures cause { IfErr result (HasCause (set_content value.now (entry_of_field field.entry))
        (IsSizeOrRefusal A.refuses)) }
    ensures refused { OnErr result (A.segments arena.new ≡ A.segments arena.old) }
    ensures grows { Grows (words_in (A.segments arena.old)) (words_in (A.segments arena.new)) }
    ensures books { A.books arena.new ≡ A.books arena.old }
{
    // For the proof, which cites what the node record says of the field.
    let _said = field.get_proto();
    match field.place() {
        FieldPlace::Void { .. } => mark(arena, object, field),
        FieldPlace::Plain {
            ty,
            offset,
            default_bits,
        } => {
            let Some(bits) = bits_for(ty, value) else {
                return Err(Error::from(ErrorKind::TypeMismatch));
            };
            mark(arena, object, field);
            let width = width_of(ty);
            let at = width as usize * offset as usize;
            set_bits(arena, object, at, width, bits ^ default_bits);
        }
        FieldPlace::Pointer { index, ty, .. } => {
            let Some(blob) = blob_for(ty, value) else {
                return Err(Error::from(refusal(ty)));
            };
            put_blob(arena, pointer_place(object, index), blob)?;
            mark(arena, object, field);
        }
        FieldPlace::Group { .. } => return Err(Error::from(ErrorKind::NotAStruct)),
    }
    Ok(())
}
