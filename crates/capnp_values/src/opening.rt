//! Reading of pointers under types.
ghost use Rattle.std.specs.Prelude.{◌≡◌, ◌≢◌, true, Ok, option_map, option_copied};
ghost use Rattle.capnp_model.specs.Chains.{◌and_then◌};
ghost use Rattle.capnp_model.specs.Schemas.{struct, list};
ghost use Rattle.capnp_wire_objects.specs.Places.{seen};
ghost use Rattle.capnp_records.specs.NodeViews.{value_of};
ghost use Rattle.capnp_records.specs.Sets.{nodes_of, IsNodeOf};
ghost use Rattle.capnp_values_queries.specs.Types.{ty_of, is_type_of};
ghost use Rattle.capnp_values.specs.Sources.{pointer_seen, struct_seen, list_seen, size_in, default_pointer, pointed_text, pointed_data};
ghost use Rattle.capnp_units.specs.Sizes.{size_number};
ghost use Rattle.capnp_values.specs.ListSizes.{size_of};
ghost use Rattle.capnp_values.specs.Shown.{a_text, a_blob, a_struct, a_list, shown, shown_behind, segment_opened, default_opened, slot_opened, schema_in};

use crate::defaults::{default_list, default_struct};
use crate::dynamic_value::{Capability, Reader};
use crate::source::{ListSource, PointerSource, StructSource};
use crate::{any_pointer, dynamic_list, dynamic_struct};
use capnp_records::node::Value;
use capnp_records::raw::RawBrandedStructSchema;
use capnp_records::set::SchemaSet;
use capnp_text::text;
use capnp_units::errors::Result;
use capnp_units::sizes::ElementSize;
use capnp_values_queries::introspect::{Type, TypeVariant};
use capnp_values_queries::structs::StructSchema;
use capnp_wire_objects::arena::ReaderArena;

/// Returns the size with which lists of the type are requested.
pub fn element_size(ty: Type) -> ElementSize
    ensures { result ≡ size_of (ty_of ty) }
{
    match ty.which() {
        TypeVariant::Void => ElementSize::Void,
        TypeVariant::Bool => ElementSize::Bit,
        TypeVariant::Int8 | TypeVariant::UInt8 => ElementSize::Byte,
        TypeVariant::Int16 | TypeVariant::UInt16 | TypeVariant::Enum(_) => ElementSize::TwoBytes,
        TypeVariant::Int32 | TypeVariant::UInt32 => ElementSize::FourBytes,
        TypeVariant::Int64 | TypeVariant::UInt64 => ElementSize::EightBytes,
        TypeVariant::Struct(_) => ElementSize::InlineComposite,
        TypeVariant::Text
        | TypeVariant::Data
        | TypeVariant::AnyPointer
        | TypeVariant::Capability
        | TypeVariant::List(_) => ElementSize::Pointer,
    }
}

fn open_text<'a, A: ReaderArena>(pointer: PointerSource<'a, A>) -> Result<Reader<'a, A>>
    ensures { seen (shown A.segments) result
        ≡ (pointed_text (pointer_seen A.segments pointer.entry) and_then λ bytes. Ok
        (a_text bytes)) }
{
    Ok(Reader::Text(text::Reader(pointer.text()?)))
}

fn open_data<'a, A: ReaderArena>(pointer: PointerSource<'a, A>) -> Result<Reader<'a, A>>
    ensures { seen (shown A.segments) result
        ≡ (pointed_data (pointer_seen A.segments pointer.entry) and_then λ bytes. Ok
        (a_blob bytes)) }
{
    Ok(Reader::Data(pointer.data()?))
}

/// Returns the struct of an id of the set.
pub(crate) fn struct_value<'a, A: ReaderArena>(
    source: StructSource<'a, A>,
    set: &'a SchemaSet,
    raw: RawBrandedStructSchema,
) -> Reader<'a, A>
    requires { IsNodeOf (nodes_of set.now) raw }
    ensures { let s = schema_in set.now in
        shown A.segments result
        ≡ a_struct s (s.shape_of raw.id) (struct_seen A.segments source.entry) }
{
    let schema = StructSchema::new(set, raw);
    Reader::Struct(dynamic_struct::Reader { source, schema })
}

/// Returns a list of elements of a type of the set.
fn list_value<'a, A: ReaderArena>(
    source: ListSource<'a, A>,
    set: &'a SchemaSet,
    element_type: Type,
) -> Reader<'a, A>
    requires known { is_type_of (nodes_of set.now) element_type ≡ true }
    requires bytewise { size_number (size_of (ty_of element_type)) ≡ 7
        → size_number (size_in source) ≢ 1 }
    ensures { shown A.segments result
        ≡ a_list (schema_in set.now) (ty_of element_type) (list_seen A.segments source.entry) }
{
    Reader::List(dynamic_list::Reader::of_source(source, set, element_type))
}

fn open_struct<'a, A: ReaderArena>(
    pointer: PointerSource<'a, A>,
    set: &'a SchemaSet,
    raw: RawBrandedStructSchema,
) -> Result<Reader<'a, A>>
    requires { IsNodeOf (nodes_of set.now) raw }
    ensures { seen (shown A.segments) result
        ≡ shown_behind (schema_in set.now) (struct raw.id) (pointer_seen A.segments pointer.entry) }
{
    Ok(struct_value(pointer.structure()?, set, raw))
}

fn open_list<'a, A: ReaderArena>(
    pointer: PointerSource<'a, A>,
    set: &'a SchemaSet,
    element_type: Type,
) -> Result<Reader<'a, A>>
    requires { is_type_of (nodes_of set.now) element_type ≡ true }
    ensures { seen (shown A.segments) result
        ≡ shown_behind (schema_in set.now) (list (ty_of element_type))
        (pointer_seen A.segments pointer.entry) }
{
    let source = pointer.list(element_size(element_type))?;
    Ok(list_value(source, set, element_type))
}

/// Returns the value of a pointer under a type of the set; null is the empty value. A plain type
/// has no pointers.
#[tactic(auto, using(crate::proofs::Named::named_rules))]
pub(crate) fn open<'a, A: ReaderArena>(
    pointer: PointerSource<'a, A>,
    set: &'a SchemaSet,
    ty: Type,
) -> Result<Reader<'a, A>>
    requires { is_type_of (nodes_of set.now) ty ≡ true }
    ensures { seen (shown A.segments) result
        ≡ shown_behind (schema_in set.now) (ty_of ty) (pointer_seen A.segments pointer.entry) }
{
    match ty.which() {
        TypeVariant::Text => open_text(pointer),
        TypeVariant::Data => open_data(pointer),
        TypeVariant::Struct(raw) => open_struct(pointer, set, raw),
        TypeVariant::List(element_type) => open_list(pointer, set, element_type),
        TypeVariant::AnyPointer => Ok(Reader::AnyPointer(any_pointer::Reader::of_source(pointer))),
        TypeVariant::Capability => Ok(Reader::Capability(Capability)),
        _ => Ok(Reader::Void),
    }
}

/// Returns the struct that a default's bytes hold.
pub(crate) fn struct_of_default<'a, A: ReaderArena>(
    bytes: &'a [u8],
    set: &'a SchemaSet,
    raw: RawBrandedStructSchema,
) -> Result<Reader<'a, A>>
    requires { IsNodeOf (nodes_of set.now) raw }
    ensures { seen (shown A.segments) result
        ≡ shown_behind (schema_in set.now) (struct raw.id) (default_pointer bytes.now) }
{
    let source = default_struct(bytes)?;
    Ok(struct_value(StructSource::Default(source), set, raw))
}

/// Returns the list that a default's bytes hold.
pub(crate) fn list_of_default<'a, A: ReaderArena>(
    bytes: &'a [u8],
    set: &'a SchemaSet,
    element_type: Type,
) -> Result<Reader<'a, A>>
    requires { is_type_of (nodes_of set.now) element_type ≡ true }
    ensures { seen (shown A.segments) result
        ≡ shown_behind (schema_in set.now) (list (ty_of element_type)) (default_pointer bytes.now) }
{
    let source = default_list(bytes, element_size(element_type))?;
    Ok(list_value(ListSource::Default(source), set, element_type))
}

/// Returns the value of a default's bytes, which replaces a null pointer.
#[tactic(auto, using(crate::proofs::Named::named_rules))]
fn open_segment<'a, A: ReaderArena>(
    pointer: PointerSource<'a, A>,
    set: &'a SchemaSet,
    ty: Type,
    bytes: &'a [u8],
) -> Result<Reader<'a, A>>
    requires { is_type_of (nodes_of set.now) ty ≡ true }
    ensures { seen (shown A.segments) result
        ≡ segment_opened (schema_in set.now) (ty_of ty) (pointer_seen A.segments pointer.entry)
        bytes.now }
{
    match ty.which() {
        TypeVariant::Struct(raw) => struct_of_default(bytes, set, raw),
        TypeVariant::List(element_type) => list_of_default(bytes, set, element_type),
        _ => open(pointer, set, ty),
    }
}

/// Returns the value of a default, which replaces a null pointer.
fn open_default<'a, A: ReaderArena>(
    pointer: PointerSource<'a, A>,
    set: &'a SchemaSet,
    ty: Type,
    default: &'a Value,
) -> Result<Reader<'a, A>>
    requires { is_type_of (nodes_of set.now) ty ≡ true }
    ensures { seen (shown A.segments) result
        ≡ default_opened (schema_in set.now) (ty_of ty) (pointer_seen A.segments pointer.entry)
        (value_of default.now) }
{
    match default {
        Value::Text(bytes) => Ok(Reader::Text(text::Reader(bytes))),
        Value::Data(bytes) => Ok(Reader::Data(bytes)),
        Value::List(bytes) | Value::Struct(bytes) => open_segment(pointer, set, ty, bytes),
        _ => open(pointer, set, ty),
    }
}

/// Returns the value of a pointer slot: a null pointer as its default.
pub(crate) fn open_slot<'a, A: ReaderArena>(
    pointer: PointerSource<'a, A>,
    set: &'a SchemaSet,
    ty: Type,
    default: Option<&'a Value>,
) -> Result<Reader<'a, A>>
    requires { is_type_of (nodes_of set.now) ty ≡ true }
    ensures { seen (shown A.segments) result
        ≡ slot_opened (schema_in set.now) (ty_of ty)
        (option_map value_of (option_copied default.entry))
        (pointer_seen A.segments pointer.entry) }
{
    match default {
        Some(value) if pointer.is_null() => open_default(pointer, set, ty, value),
        _ => open(pointer, set, ty),
    }
}
