//! Plain elements of lists that are built, over places.
ghost use Rattle.std.specs.Prelude.{◌≡◌, ◌<◌, ◌^◌, length, map, option_map, IfErr, OnOk, OnErr};
ghost use Rattle.capnp_model.specs.Coverage.{Grows};
ghost use Rattle.capnp_model.specs.Edits.{put_bits};
ghost use Rattle.capnp_units.specs.Segments.{words_in};
ghost use Rattle.capnp_wire_objects.specs.Places.{seen};
ghost use Rattle.capnp_values_queries.specs.Handles.{plain_of};
ghost use Rattle.capnp_values_queries.specs.Types.{ty_of};
ghost use Rattle.capnp_copy_arenas.specs.Refusals.{IsSizeOrRefusal};
ghost use Rattle.capnp_copy_arenas.specs.States.{state_in};
ghost use Rattle.capnp_schema_structs.specs.Puts.{HasCause};
ghost use Rattle.capnp_schema_lists.specs.Puts.{PutsElementContent};
ghost use Rattle.capnp_schema_lists.specs.Lists.{IsListThere, HasElementBits, EditsElement};
ghost use Rattle.capnp_schema_lists.specs.Elements.{plain_in, Holds, answer_of, single_element, single_edit, flat_element, element_edit};

use crate::blobs::{blob_for, put_blob};
use crate::laws::elements_as_structs;
use crate::places::element_struct;
use capnp_copy_arenas::arena::BuilderArena;
use capnp_copy_arenas::elements::set_element;
use capnp_copy_arenas::fields::set_bits;
use capnp_copy_arenas::init::ListPlace;
use capnp_schema_structs::setting::bits_for;
use capnp_units::errors::{Error, Result};
use capnp_units::kinds::ErrorKind;
use capnp_units::sizes::ElementSize;
use capnp_values::dynamic_value::Reader;
use capnp_values_queries::introspect::{Type, TypeVariant};
use capnp_values_queries::slots::{PlainType, width_of};

/// Returns the plain type of a type, if the type is plain.
pub fn plain_type(ty: Type) -> Option<PlainType>
    ensures { option_map plain_of result ≡ plain_in (ty_of ty) }
{
    match ty.which() {
        TypeVariant::Bool => Some(PlainType::Bool),
        TypeVariant::Int8 => Some(PlainType::Int8),
        TypeVariant::Int16 => Some(PlainType::Int16),
        TypeVariant::Int32 => Some(PlainType::Int32),
        TypeVariant::Int64 => Some(PlainType::Int64),
        TypeVariant::UInt8 => Some(PlainType::UInt8),
        TypeVariant::UInt16 => Some(PlainType::UInt16),
        TypeVariant::UInt32 => Some(PlainType::UInt32),
        TypeVariant::UInt64 => Some(PlainType::UInt64),
        TypeVariant::Enum(raw) => Some(PlainType::Enum(raw)),
        _ => None,
    }
}

/// Writes a number into the bits at the front of an element. The index is within the list, whose
/// elements have n bits; the number fits them.
pub fn set_front<A: BuilderArena>(
    arena: &mut A,
    list: ListPlace,
    index: u32,
    width: u32,
    value: u64,
)
    requires there { IsListThere (words_in (A.segments arena.old)) list }
    requires index { index < list.count }
    requires room { HasElementBits list width }
    requires some { 0 < width }
    requires fits { value < 2 ^ width }
    ensures edits { EditsElement (words_in (A.segments arena.old)) (words_in (A.segments arena.new))
        list (λ words pointers. put_bits 0 width value) index }
    ensures sizes { map length (words_in (A.segments arena.new))
        ≡ map length (words_in (A.segments arena.old)) }
    ensures books { A.books arena.new ≡ A.books arena.old }
{
    elements_as_structs();
    match list.size {
        ElementSize::InlineComposite => {
            set_bits(arena, element_struct(list, index), 0, width, value);
        }
        _ => set_element(arena, list, index, width, value),
    }
}

/// Sets an element to a plain value, or a Void element to any value. The value is checked first, so
/// a refusal leaves everything unchanged.
fn set_single<A: BuilderArena, B>(
    arena: &mut A,
    list: ListPlace,
    ty: Type,
    index: u32,
    value: &Reader<'_, B>,
) -> Result<()>
    requires there { IsListThere (words_in (A.segments arena.old)) list }
    requires holds { Holds list (ty_of ty) }
    requires index { index < list.count }
    ensures answer { seen (λ x. x) result ≡ answer_of (single_element value.now (ty_of ty)) }
    ensures edits { OnOk result
        (EditsElement (words_in (A.segments arena.old)) (words_in (A.segments arena.new)) list
        (single_edit value.now (ty_of ty)) index) }
    ensures refused { OnErr result (A.segments arena.new ≡ A.segments arena.old) }
    ensures sizes { map length (words_in (A.segments arena.new))
        ≡ map length (words_in (A.segments arena.old)) }
    ensures books { A.books arena.new ≡ A.books arena.old }
{
    if let Some(plain) = plain_type(ty) {
        let Some(bits) = bits_for(plain, value) else {
            return Err(Error::from(ErrorKind::TypeMismatch));
        };
        set_front(arena, list, index, width_of(plain), bits);
        return Ok(());
    }
    match ty.which() {
        TypeVariant::Void => Ok(()),
        TypeVariant::AnyPointer => Err(Error::from(ErrorKind::ListAnyPointerNotSupported)),
        _ => Err(Error::from(ErrorKind::TypeMismatch)),
    }
}

/// Sets an element to a value without pointers, or a Void element to any value. The value is
/// checked and memory taken first, so a refusal leaves everything unchanged.
pub fn set_flat<A: BuilderArena, B>(
    arena: &mut A,
    list: ListPlace,
    ty: Type,
    index: u32,
    value: &Reader<'_, B>,
) -> Result<()>
    requires there { IsListThere (words_in (A.segments arena.old)) list }
    requires holds { Holds list (ty_of ty) }
    requires index { index < list.count }
    ensures puts { let seen = state_in A.segments A.room A.books in
        PutsElementContent (seen arena.old) (seen arena.new)
        (record { place = list; at = index; edit = element_edit value.now (ty_of ty) })
        (flat_element value.now (ty_of ty)) result }
    ensures cause { IfErr result (HasCause (flat_element value.now (ty_of ty))
        (IsSizeOrRefusal A.refuses)) }
    ensures refused { OnErr result (A.segments arena.new ≡ A.segments arena.old) }
    ensures grows { Grows (words_in (A.segments arena.old)) (words_in (A.segments arena.new)) }
    ensures books { A.books arena.new ≡ A.books arena.old }
{
    match blob_for(ty, value) {
        Some(blob) => put_blob(arena, list, index, blob),
        None => set_single(arena, list, ty, index, value),
    }
}
