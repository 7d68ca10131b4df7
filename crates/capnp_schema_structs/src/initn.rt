//! Lists of zeros, nulls and empty structs, and texts and data of zero bytes, put into slots.
ghost use Rattle.std.specs.Prelude.{◌≡◌, ◌<◌, ◌^◌, ℕ, suc, true, IfSome, IfErr, OnOk, OnErr};
ghost use Rattle.capnp_model.specs.Accepted.{areas_of, schema_of};
ghost use Rattle.capnp_model.specs.Calls.{initn, initn_content, new_list};
ghost use Rattle.capnp_model.specs.Coverage.{Grows};
ghost use Rattle.capnp_model.specs.Kinds.{InitnIsOnlyValidForListTextOrDataFields};
ghost use Rattle.capnp_model.specs.Sizes.{object_words};
ghost use Rattle.capnp_model.specs.Trees.{plain_list, struct_list};
ghost use Rattle.capnp_units.specs.Segments.{words_in};
ghost use Rattle.capnp_units.specs.Sizes.{size_number};
ghost use Rattle.capnp_records.specs.Sets.{nodes_of};
ghost use Rattle.capnp_model_writes.specs.NewObjects.{new_tree, zero_elements};
ghost use Rattle.capnp_copy_arenas.specs.Lists.{zeros_of};
ghost use Rattle.capnp_layout_builders.specs.Making.{Makes};
ghost use Rattle.capnp_values_queries.specs.Structs.{schema_around, shape_of_struct};
ghost use Rattle.capnp_values_queries.specs.Handles.{entry_of_field};
ghost use Rattle.capnp_values_queries.specs.Types.{ty_of, is_type_of};
ghost use Rattle.capnp_schema_structs.specs.Inside.{LieIn};
ghost use Rattle.capnp_schema_structs.specs.Edits.{IsThere};
ghost use Rattle.capnp_schema_structs.specs.Calls.{edit_of};
ghost use Rattle.capnp_schema_structs.specs.NewLists.{tree_of_new, IsMade, content_of_list, initn_field, ObjectNotMade};
ghost use Rattle.capnp_copy_arenas.specs.Refusals.{IsSizeOrRefusal};
ghost use Rattle.capnp_copy_arenas.specs.States.{HasWords, state_in};
ghost use Rattle.capnp_schema_structs.specs.Puts.{BytesGrow, HasCause, PutsContent};

use crate::init::struct_size;
use crate::slots::{mark, pointer_place};
use capnp_copy_arenas::arena::BuilderArena;
use capnp_copy_arenas::fields::StructPlace;
use capnp_copy_arenas::init::init_list;
use capnp_copy_arenas::struct_lists::init_struct_list;
use capnp_records::set::SchemaSet;
use capnp_units::errors::{Error, Result};
use capnp_units::kinds::ErrorKind;
use capnp_units::limits::MOST_WORDS;
use capnp_units::sizes::{ElementSize, StructSize};
use capnp_values_queries::fields::Field;
use capnp_values_queries::introspect::{Type, TypeVariant};
use capnp_values_queries::slots::FieldPlace;
use capnp_values_queries::structs::StructSchema;
use capnp_wire_objects::place::Place;

/// The kind of a new list's elements.
#[derive(Clone, Copy)]
pub enum NewList {
    /// A text's bytes, and its zero byte.
    Text,
    /// Plain elements, including bytes of data, or pointers.
    Elements(ElementSize),
    Structs(StructSize),
}

/// Returns the elements of lists of a type of a set.
fn elements_of(set: &SchemaSet, element: Type) -> NewList
    requires { is_type_of (nodes_of set.now) element ≡ true }
    ensures list { (n : ℕ) → tree_of_new result n
        ≡ new_list (schema_of (nodes_of set.now)) n (ty_of element) }
    ensures made { IsMade result }
{
    match element.which() {
        TypeVariant::Void => NewList::Elements(ElementSize::Void),
        TypeVariant::Bool => NewList::Elements(ElementSize::Bit),
        TypeVariant::Int8 | TypeVariant::UInt8 => NewList::Elements(ElementSize::Byte),
        TypeVariant::Int16 | TypeVariant::UInt16 | TypeVariant::Enum(_) => {
            NewList::Elements(ElementSize::TwoBytes)
        }
        TypeVariant::Int32 | TypeVariant::UInt32 => NewList::Elements(ElementSize::FourBytes),
        TypeVariant::Int64 | TypeVariant::UInt64 => NewList::Elements(ElementSize::EightBytes),
        TypeVariant::Text
        | TypeVariant::Data
        | TypeVariant::AnyPointer
        | TypeVariant::Capability
        | TypeVariant::List(_) => NewList::Elements(ElementSize::Pointer),
        TypeVariant::Struct(raw) => NewList::Structs(struct_size(StructSchema::new(set, raw))),
    }
}

/// Returns the elements that `initn` makes in a slot of a type, if the type is text, data or a
/// list.
pub fn list_for(set: &SchemaSet, ty: Type) -> Option<NewList>
    requires { is_type_of (nodes_of set.now) ty ≡ true }
    ensures list { (n : ℕ) → content_of_list result n
        ≡ initn_content (schema_of (nodes_of set.now)) n (ty_of ty)
        InitnIsOnlyValidForListTextOrDataFields }
    ensures made { IfSome result IsMade }
{
    match ty.which() {
        TypeVariant::Text => Some(NewList::Text),
        TypeVariant::Data => Some(NewList::Elements(ElementSize::Byte)),
        TypeVariant::List(element) => Some(elements_of(set, element)),
        _ => None,
    }
}

/// Replaces the value of the pointer at a place, which is cleared, by a text of n zero bytes,
/// followed by its zero byte.
fn put_text<A: BuilderArena>(arena: &mut A, slot: Place, count: u32) -> Result<()>
    requires there { HasWords (A.segments arena.old) slot 1 }
    requires near { slot.position < 2 ^ 61 }
    ensures made { let at = state_in A.segments A.room A.books in
        let t = plain_list 2 (suc count) 0 in
        OnOk result (Makes (at arena.old) (at arena.new) slot t (object_words t)) }
    ensures refused { let at = state_in A.segments A.room A.books in IfErr result
        (ObjectNotMade (at arena.old) (at arena.new) slot.segment (plain_list 2 (suc count) 0)) }
    ensures cause { IfErr result (IsSizeOrRefusal A.refuses) }
    ensures grows { OnOk result (BytesGrow (A.segments arena.old) (A.segments arena.new)) }
    ensures books { A.books arena.new ≡ A.books arena.old }
{
    if count >= MOST_WORDS {
        return Err(Error::from(ErrorKind::SizeOverflow));
    }
    init_list(arena, slot, ElementSize::Byte, count + 1)?;
    Ok(())
}

/// Replaces the value of the pointer at a place, which is cleared, by a list of zeros or nulls.
fn put_elements<A: BuilderArena>(
    arena: &mut A,
    slot: Place,
    size: ElementSize,
    count: u32,
) -> Result<()>
    requires there { HasWords (A.segments arena.old) slot 1 }
    requires near { slot.position < 2 ^ 61 }
    requires plain { size_number size < 7 }
    ensures made { let at = state_in A.segments A.room A.books in
        let t = new_tree (zeros_of (size_number size) count) in
        OnOk result (Makes (at arena.old) (at arena.new) slot t (object_words t)) }
    ensures refused { let at = state_in A.segments A.room A.books in
        let t = new_tree (zeros_of (size_number size) count) in
        IfErr result (ObjectNotMade (at arena.old) (at arena.new) slot.segment t) }
    ensures cause { IfErr result (IsSizeOrRefusal A.refuses) }
    ensures grows { OnOk result (BytesGrow (A.segments arena.old) (A.segments arena.new)) }
    ensures books { A.books arena.new ≡ A.books arena.old }
{
    init_list(arena, slot, size, count)?;
    Ok(())
}

/// Replaces the value of the pointer at a place, which is cleared, by a list of structs of zeros
/// and nulls.
fn put_structs<A: BuilderArena>(
    arena: &mut A,
    slot: Place,
    size: StructSize,
    count: u32,
) -> Result<()>
    requires there { HasWords (A.segments arena.old) slot 1 }
    requires near { slot.position < 2 ^ 61 }
    ensures made { let at = state_in A.segments A.room A.books in
        let t = struct_list size.data_words size.pointers (zero_elements count size.pointers) in
        OnOk result (Makes (at arena.old) (at arena.new) slot t (object_words t)) }
    ensures refused { let at = state_in A.segments A.room A.books in
        let t = struct_list size.data_words size.pointers (zero_elements count size.pointers) in
        IfErr result (ObjectNotMade (at arena.old) (at arena.new) slot.segment t) }
    ensures cause { IfErr result (IsSizeOrRefusal A.refuses) }
    ensures grows { OnOk result (BytesGrow (A.segments arena.old) (A.segments arena.new)) }
    ensures books { A.books arena.new ≡ A.books arena.old }
{
    init_struct_list(arena, slot, count, size)?;
    Ok(())
}

/// Replaces the value of the pointer at a place, which is cleared, by a new list.
pub fn put_list<A: BuilderArena>(
    arena: &mut A,
    slot: Place,
    list: NewList,
    count: u32,
) -> Result<()>
    requires there { HasWords (A.segments arena.old) slot 1 }
    requires near { slot.position < 2 ^ 61 }
    requires made { IsMade list }
    ensures made { let at = state_in A.segments A.room A.books in let t = tree_of_new list count in
        OnOk result (Makes (at arena.old) (at arena.new) slot t (object_words t)) }
    ensures refused { let at = state_in A.segments A.room A.books in IfErr result
        (ObjectNotMade (at arena.old) (at arena.new) slot.segment (tree_of_new list count)) }
    ensures cause { IfErr result (IsSizeOrRefusal A.refuses) }
    ensures grows { OnOk result (BytesGrow (A.segments arena.old) (A.segments arena.new)) }
    ensures books { A.books arena.new ≡ A.books arena.old }
{
    match list {
        NewList::Text => put_text(arena, slot, count),
        NewList::Elements(size) => put_elements(arena, slot, size, count),
        NewList::Structs(size) => put_structs(arena, slot, size, count),
    }
}

/// Replaces the value of a slot, which is cleared, by n zeros, like `initn` of a dynamic struct's
/// builder. A text or data becomes n zero bytes, and a text also has its own zero byte. A list
/// becomes n zeros, nulls or empty structs. A union member becomes the active member. The list
/// takes its words, including the tag of structs, if the holder's segment has room for them,
/// otherwise at most one more.
///
/// It is refused
/// - with `InitnIsOnlyValidForListTextOrDataFields` if the field is a group or of another type;
/// - with `SizeOverflow` exactly when the elements, structs' words or the message's words,
///   including a pad, would exceed 2^29 - 1;
/// - otherwise with the allocator's error.
///
/// Memory is taken before the union is marked, so after a refusal everything is unchanged.
pub fn initn_slot<A: BuilderArena>(
    arena: &mut A,
    object: StructPlace,
    field: Field<'_>,
    count: u32,
) -> Result<()>
    requires there { IsThere (words_in (A.segments arena.old)) object }
    requires inside { LieIn object.data_words object.pointers
        (areas_of (shape_of_struct field.parent)) }
    ensures puts { let at = state_in A.segments A.room A.books in
        PutsContent (at arena.old) (at arena.new) object (edit_of field.entry (initn count))
        (initn_field (schema_around field.entry.parent) count (entry_of_field field.entry)) result }
    ensures cause { IfErr result (HasCause (initn_field (schema_around field.entry.parent) count
        (entry_of_field field.entry)) (IsSizeOrRefusal A.refuses)) }
    ensures refused { OnErr result (A.segments arena.new ≡ A.segments arena.old) }
    ensures grows { Grows (words_in (A.segments arena.old)) (words_in (A.segments arena.new)) }
    ensures books { A.books arena.new ≡ A.books arena.old }
{
    // For the proof, which cites what the node record says of the field.
    let _said = field.get_proto();
    match field.place() {
        FieldPlace::Pointer { index, ty, .. } => {
            let Some(list) = list_for(field.parent().set(), ty) else {
                let kind = ErrorKind::InitnIsOnlyValidForListTextOrDataFields;
                return Err(Error::from(kind));
            };
            put_list(arena, pointer_place(object, index), list, count)?;
            mark(arena, object, field);
            Ok(())
        }
        FieldPlace::Void { .. } | FieldPlace::Plain { .. } | FieldPlace::Group { .. } => {
            Err(Error::from(ErrorKind::InitnIsOnlyValidForListTextOrDataFields))
        }
    }
}
