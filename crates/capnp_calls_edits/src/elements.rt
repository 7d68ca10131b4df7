//! Calls written at the elements of lists at the ends of their paths.
ghost use Rattle.std.specs.Prelude.{ℕ, ◌≡◌, ◌<◌, true, [], IfErr, OnOk};
ghost use Rattle.capnp_model.specs.Accepted.{schema_of};
ghost use Rattle.capnp_model.specs.Calls.{set_to, message};
ghost use Rattle.capnp_model.specs.Coverage.{Grows};
ghost use Rattle.capnp_model.specs.Schemas.{Schema, struct};
ghost use Rattle.capnp_units.specs.Segments.{words_in};
ghost use Rattle.capnp_units.specs.Sizes.{size_number};
ghost use Rattle.capnp_records.specs.Sets.{nodes_of};
ghost use Rattle.capnp_calls.specs.Messages.{tree_of_message};
ghost use Rattle.capnp_values_queries.specs.Types.{ty_of, is_type_of};
ghost use Rattle.capnp_calls.specs.CallViews.{action_view, slot_value_view};
ghost use Rattle.capnp_copy_arenas.specs.Refusals.{IsSizeOrRefusal};
ghost use Rattle.capnp_schema_lists.specs.Places.{typed_element};
ghost use Rattle.capnp_schema_lists.specs.Lists.{IsListThere};
ghost use Rattle.capnp_schema_lists.specs.Elements.{Holds, HoldsStructs};
ghost use Rattle.capnp_calls_edits.specs.Elements.{call_at_end, EditsElementAt, WhereElementTakes};
ghost use Rattle.capnp_calls_edits.specs.Written.{is_single};
ghost use Rattle.capnp_calls_edits.specs.Behind.{BytesGrowIn};

use crate::contents::copy_content;
use crate::messages::put_message;
use capnp_calls::message::MessageValue;
use capnp_calls::number::bits_for;
use capnp_calls::{Action, SlotValue};
use capnp_copy_arenas::arena::BuilderArena;
use capnp_copy_arenas::init::ListPlace;
use capnp_records::set::SchemaSet;
use capnp_schema_lists::elements::{plain_type, set_flat, set_front};
use capnp_schema_lists::init::init_element;
use capnp_schema_lists::laws::{elements_as_pointers, elements_as_structs};
use capnp_schema_lists::places::{element_pointer, element_struct};
use capnp_schema_structs::roots::words_of;
use capnp_text::text;
use capnp_units::errors::{Error, Result};
use capnp_units::kinds::ErrorKind;
use capnp_values::dynamic_value::Reader;
use capnp_values_queries::introspect::{Type, TypeVariant};
use capnp_values_queries::slots::width_of;
use capnp_wire_objects::arena::NullArena;

/// Sets an element to a plain value of its type, or a Void element to any value. Other elements,
/// and values out of range, are refused with `TypeMismatch`.
fn set_plain<A: BuilderArena>(
    arena: &mut A,
    list: ListPlace,
    index: u32,
    ty: Type,
    value: &SlotValue,
) -> Result<()>
    requires there { IsListThere (words_in (A.segments arena.old)) list }
    requires index { index < list.count }
    requires holds { Holds list (ty_of ty) }
    ensures writes { (s : Schema) → OnOk result (EditsElementAt (words_in (A.segments arena.old))
        (words_in (A.segments arena.new)) (typed_element list index s (ty_of ty))
        (call_at_end (set_to (slot_value_view value.now)))) }
    ensures grows { Grows (words_in (A.segments arena.old)) (words_in (A.segments arena.new)) }
    ensures cause { (s : Schema) → is_single (slot_value_view value.now) ≡ true
        → IfErr result (λ e. WhereElementTakes s (ty_of ty)
        (set_to (slot_value_view value.now)) (IsSizeOrRefusal A.refuses e)) }
    ensures books { A.books arena.new ≡ A.books arena.old }
{
    if let Some(plain) = plain_type(ty) {
        let Some(bits) = bits_for(plain, value) else {
            return Err(Error::from(ErrorKind::TypeMismatch));
        };
        set_front(arena, list, index, width_of(plain), bits);
        return Ok(());
    }
    match ty.which() {
        TypeVariant::Void => Ok(()),
        _ => Err(Error::from(ErrorKind::TypeMismatch)),
    }
}

/// Sets an element that is a struct or a list to the value of a message, or a Void element to any
/// value. A struct takes as much as it has room for. Other elements are refused with
/// `TypeMismatch`.
fn set_message<A: BuilderArena>(
    arena: &mut A,
    list: ListPlace,
    index: u32,
    ty: Type,
    value: &MessageValue,
) -> Result<()>
    requires there { IsListThere (words_in (A.segments arena.old)) list }
    requires index { index < list.count }
    requires holds { Holds list (ty_of ty) }
    requires structs { (id : ℕ) → struct id ≡ ty_of ty → size_number list.size ≡ 7 }
    ensures writes { (s : Schema) → OnOk result (EditsElementAt (words_in (A.segments arena.old))
        (words_in (A.segments arena.new)) (typed_element list index s (ty_of ty))
        (call_at_end (set_to (message (tree_of_message value.now))))) }
    ensures grows { BytesGrowIn (A.segments arena.old) (A.segments arena.new) list }
    ensures cause { (s : Schema) → IfErr result (λ e. WhereElementTakes s (ty_of ty) (set_to
        (message (tree_of_message value.now))) (IsSizeOrRefusal A.refuses e)) }
    ensures books { A.books arena.new ≡ A.books arena.old }
{
    match ty.which() {
        TypeVariant::Void => Ok(()),
        TypeVariant::Struct(_) => {
            elements_as_structs();
            copy_content(
                arena,
                element_struct(list, index),
                words_of(value.segment()),
            )
        }
        TypeVariant::List(_) => {
            elements_as_pointers();
            put_message(arena, element_pointer(list, index), value)
        }
        _ => Err(Error::from(ErrorKind::TypeMismatch)),
    }
}

/// Sets an element to a value.
fn set_value<A: BuilderArena>(
    arena: &mut A,
    list: ListPlace,
    index: u32,
    ty: Type,
    value: &SlotValue,
) -> Result<()>
    requires there { IsListThere (words_in (A.segments arena.old)) list }
    requires index { index < list.count }
    requires holds { Holds list (ty_of ty) }
    requires structs { (id : ℕ) → struct id ≡ ty_of ty → size_number list.size ≡ 7 }
    ensures writes { (s : Schema) → OnOk result (EditsElementAt (words_in (A.segments arena.old))
        (words_in (A.segments arena.new)) (typed_element list index s (ty_of ty))
        (call_at_end (set_to (slot_value_view value.now)))) }
    ensures grows { BytesGrowIn (A.segments arena.old) (A.segments arena.new) list }
    ensures cause { (s : Schema) → IfErr result (λ e. WhereElementTakes s (ty_of ty) (set_to
        (slot_value_view value.now)) (IsSizeOrRefusal A.refuses e)) }
    ensures books { A.books arena.new ≡ A.books arena.old }
{
    match value {
        SlotValue::Number(_) | SlotValue::Bool(_) | SlotValue::Enum(_) => {
            set_plain(arena, list, index, ty, value)
        }
        SlotValue::Text(text) => {
            let text: Reader<'_, NullArena> = Reader::Text(text::Reader(text.as_bytes()));
            set_flat(arena, list, ty, index, &text)
        }
        SlotValue::Data(bytes) => {
            let data: Reader<'_, NullArena> = Reader::Data(bytes);
            set_flat(arena, list, ty, index, &data)
        }
        SlotValue::Message(value) => set_message(arena, list, index, ty, value),
    }
}

/// Writes a call at the element at the end of its path. A `get`, `init` and `clear` are refused:
/// they have no elements as targets.
pub(crate) fn write_element_end<A: BuilderArena>(
    arena: &mut A,
    list: ListPlace,
    index: u32,
    set: &SchemaSet,
    ty: Type,
    action: &Action,
) -> Result<()>
    requires there { IsListThere (words_in (A.segments arena.old)) list }
    requires index { index < list.count }
    requires holds { Holds list (ty_of ty) }
    requires sizes { HoldsStructs (schema_of (nodes_of set.now)) list (ty_of ty) }
    requires known { is_type_of (nodes_of set.now) ty ≡ true }
    ensures writes { OnOk result (EditsElementAt (words_in (A.segments arena.old)) (words_in
        (A.segments arena.new)) (typed_element list index (schema_of (nodes_of set.now)) (ty_of ty))
        (call_at_end (action_view action.now))) }
    ensures grows { BytesGrowIn (A.segments arena.old) (A.segments arena.new) list }
    ensures cause { IfErr result (λ e. WhereElementTakes (schema_of (nodes_of set.now)) (ty_of ty)
        (action_view action.now) (IsSizeOrRefusal A.refuses e)) }
    ensures books { A.books arena.new ≡ A.books arena.old }
{
    match action {
        Action::Initn(count) => init_element(arena, list, set, ty, index, *count),
        Action::Set(value) => set_value(arena, list, index, ty, value),
        Action::Init => Err(Error::from(ErrorKind::ExpectedAListOrBlob)),
        Action::Clear => Err(Error::from(ErrorKind::ClearNeedsAField)),
        Action::Get => Err(Error::from(ErrorKind::WrongStep)),
    }
}
