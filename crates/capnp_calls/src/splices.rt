//! Writes of calls into canonical words in place, and the hops to their places.
ghost use Rattle.std.specs.Prelude.{◌≡◌, ◌+◌, ◌*◌, ◌^◌, ◌<◌, ◌++◌, true, Option, Some, IfOk, IfErr, IfSome};
ghost use Rattle.capnp_units.specs.declared.kinds.ErrorKind.{ErrorKind};
ghost use Rattle.capnp_model.specs.Schemas.{plain, width};
ghost use Rattle.capnp_model.specs.Calls.{set_to};
ghost use Rattle.capnp_model.specs.InKindCalls.{at_slot, at_value};
ghost use Rattle.capnp_values_queries.specs.Handles.{plain_of, body_of_place};
ghost use Rattle.capnp_values_queries.specs.Types.{ty_of};
ghost use Rattle.capnp_calls.specs.CallViews.{step_view, slot_value_view, action_view};
ghost use Rattle.capnp_calls.specs.Ends.{end_view};
ghost use Rattle.capnp_calls.specs.Hops.{HasSmallDefault, EndsSmall, StepsBehind, GoesOn, goes_straight, hops_made, onward_if, IsElementOf, SetsEnd};
ghost use Rattle.capnp_calls.specs.PlainFields.{SetsPlainSlot};
ghost use Rattle.capnp_calls.specs.Splices.{IsPutOf, IsNumberOf, IsBlobOf};
ghost use Rattle.capnp_calls.specs.declared.splices.Onward.TheVariants as ways;
ghost use Rattle.capnp_calls_splice.specs.declared.splice.Put.TheVariants as puts;

use crate::ends::{End, Next};
use crate::number::bits_for;
use crate::{Action, SlotValue, Step};
use capnp_calls_splice::blob::Blob;
use capnp_calls_splice::plain::PlainSet;
use capnp_calls_splice::splice::{Hop, Put, Splice};
use capnp_units::errors::Result;
use capnp_values_queries::introspect::{Type, TypeVariant};
use capnp_values_queries::slots::{FieldPlace, PlainType, width_of};
use std::alloc::Global;

/// An element of the list that a pointer leads to.
#[derive(Clone, Copy)]
pub(crate) struct ListPlace {
    pub(crate) pointer: u32,
    pub(crate) index: u32,
}

/// The next part of a path, by a step.
#[derive(Clone, Copy)]
pub(crate) enum Onward {
    /// From the struct at which the path is.
    Here,
    /// From a struct that is a hop away.
    Behind(Hop),
    /// To an element that is not a struct.
    Into(ListPlace),
    /// In a way that splices don't support.
    Astray,
}

/// The course of a path to its end.
#[derive(Clone, Copy)]
pub(crate) struct Course {
    /// Whether the path goes by hops, and finds no member of a union.
    pub(crate) is_straight: bool,
    /// The discriminant, if the path goes by hops to a member of a union, and finds no other
    /// member.
    pub(crate) mark: Option<PlainSet>,
    /// The element, if the path goes by hops to an element that is not a struct, and finds no
    /// member of a union.
    pub(crate) element: Option<ListPlace>,
}

/// Returns the course of a path whose step leads there, from the next part of the path as a whole.
pub(crate) fn course_after(onward: Onward, next: Next<'_>) -> Course
    ensures straight { result.is_straight ≡ true
        → (goes_straight onward ≡ true) × (next.entry.is_alone ≡ true) }
    ensures mark { IfSome result.mark
        (λ m. (goes_straight onward ≡ true) × (next.entry.mark ≡ Some m)) }
    ensures element { IfSome result.element (λ place. onward ≡ ways.Into place) }
{
    match onward {
        Onward::Here | Onward::Behind(_) => Course {
            is_straight: next.is_alone,
            mark: next.mark,
            element: None,
        },
        Onward::Into(place) => Course {
            is_straight: false,
            mark: None,
            element: Some(place),
        },
        Onward::Astray => Course {
            is_straight: false,
            mark: None,
            element: None,
        },
    }
}

/// Returns the next part of a path by a step from a pointer slot of a type: by a hop to a struct,
/// or to an element of a list.
fn step_behind(pointer: u32, ty: Type, step: &Step) -> Onward
    ensures { StepsBehind result pointer (ty_of ty) (step_view step.now) }
{
    match (step, ty.which()) {
        (Step::Name(_), TypeVariant::Struct(_)) => Onward::Behind(Hop::Pointer(pointer)),
        (Step::Index(index), TypeVariant::List(element)) => {
            let index = *index;
            match element.which() {
                TypeVariant::Struct(_) => Onward::Behind(Hop::Element { pointer, index }),
                _ => Onward::Into(ListPlace { pointer, index }),
            }
        }
        _ => Onward::Astray,
    }
}

/// Returns the next part of a path by a step from its end so far.
pub(crate) fn next_hop(end: End<'_>, step: &Step) -> Onward
    ensures { GoesOn result (end_view end.entry) (step_view step.now) }
{
    match (step, end) {
        (Step::Name(_), End::Value(_)) => Onward::Here,
        (Step::Name(_), End::Slot(FieldPlace::Group { .. })) => Onward::Behind(Hop::Group),
        (_, End::Slot(FieldPlace::Pointer { index, ty, .. })) => step_behind(index, ty, step),
        _ => Onward::Astray,
    }
}

/// Adds the hop of a step that makes one, if the path was straight so far. It returns the next part
/// of the path as a whole. `OutOfMemory`: the list can't grow.
pub(crate) fn note_hop(hops: &mut Vec<Hop>, was_straight: bool, onward: Onward) -> Result<Onward>
    ensures onward { IfOk result (λ whole. whole ≡ onward_if was_straight onward) }
    ensures hops { IfOk result (λ whole. hops.new.items ≡ hops.old.items ++ hops_made whole) }
    ensures kind { IfErr result (λ e. e.kind ≡ ErrorKind.OutOfMemory) }
{
    if !was_straight {
        return Ok(Onward::Astray);
    }
    if let Onward::Behind(hop) = onward {
        hops.push(hop)?;
    }
    Ok(onward)
}

/// Returns a number of a plain type, in the word of the data that has the slot at an offset, in
/// units of the type's width.
fn number_in(ty: PlainType, offset: u32, bits: u64) -> PlainSet
    requires { bits < 2 ^ width (plain_of ty) }
    ensures place { 64 * result.word + result.shift ≡ width (plain_of ty) * offset }
    ensures width { result.width ≡ width (plain_of ty) }
    ensures bits { result.bits ≡ bits }
{
    let width = width_of(ty);
    let at = u64::from(width) * u64::from(offset);
    PlainSet {
        word: (at / 64) as u32,
        shift: (at % 64) as u32,
        width,
        bits,
    }
}

/// Returns the text or data to which a value sets a slot of a type. `None` if the type is not a
/// text or data, the value isn't of the type, or it is too long. `OutOfMemory`: the memory for its
/// words was refused.
fn blob_for(alloc: Global, ty: Type, value: &SlotValue) -> Result<Option<Blob>>
    ensures blob { IfOk result
        (λ found. IfSome found (λ b. IsBlobOf b (ty_of ty) (slot_value_view value.now))) }
    ensures kind { IfErr result (λ e. e.kind ≡ ErrorKind.OutOfMemory) }
{
    match (ty.which(), value) {
        (TypeVariant::Text, SlotValue::Text(text)) => Blob::text(alloc, text.as_bytes()),
        (TypeVariant::Data, SlotValue::Data(bytes)) => Blob::data(alloc, bytes),
        _ => Ok(None),
    }
}

/// Returns the number that sets a plain slot to a value, at an offset in units of the type's width.
/// `None` if the value isn't of the type.
fn number_for(ty: PlainType, offset: u32, default_bits: u64, value: &SlotValue) -> Option<PlainSet>
    requires { default_bits < 2 ^ width (plain_of ty) }
    ensures { IfSome result (SetsPlainSlot (plain_of ty) (width (plain_of ty) * offset) default_bits
        (slot_value_view value.now)) }
{
    let bits = bits_for(ty, value)?;
    Some(number_in(ty, offset, bits ^ default_bits))
}

/// Returns the write that sets a slot to a value. `None` if the slot is not plain and not of a text
/// or data, or the value isn't of its type. `OutOfMemory`: memory for it was refused.
fn put_at(alloc: Global, place: FieldPlace<'_>, value: &SlotValue) -> Result<Option<Put>>
    requires { HasSmallDefault (body_of_place place) }
    ensures put { IfOk result (λ found. IfSome found
        (λ put. IsPutOf put (body_of_place place.entry) (slot_value_view value.now))) }
    ensures kind { IfErr result (λ e. e.kind ≡ ErrorKind.OutOfMemory) }
{
    match place {
        FieldPlace::Plain {
            ty,
            offset,
            default_bits,
        } => match number_for(ty, offset, default_bits, value) {
            Some(set) => Ok(Some(Put::Number(set))),
            None => Ok(None),
        },
        FieldPlace::Pointer { index, ty, .. } => match blob_for(alloc, ty, value)? {
            Some(blob) => Ok(Some(Put::Blob {
                pointer: index,
                blob,
            })),
            None => Ok(None),
        },
        FieldPlace::Void { .. } | FieldPlace::Group { .. } => Ok(None),
    }
}

/// Returns the plain type of a type, if the type is plain.
fn plain_type(ty: Type) -> Option<PlainType>
    ensures { IfSome result (λ q. ty_of ty ≡ plain (plain_of q)) }
{
    match ty.which() {
        TypeVariant::Bool => Some(PlainType::Bool),
        TypeVariant::Int8 => Some(PlainType::Int8),
        TypeVariant::Int16 => Some(PlainType::Int16),
        TypeVariant::Int32 => Some(PlainType::Int32),
        TypeVariant::Int64 => Some(PlainType::Int64),
        TypeVariant::UInt8 => Some(PlainType::UInt8),
        TypeVariant::UInt16 => Some(PlainType::UInt16),
        TypeVariant::UInt32 => Some(PlainType::UInt32),
        TypeVariant::UInt64 => Some(PlainType::UInt64),
        TypeVariant::Enum(raw) => Some(PlainType::Enum(raw)),
        _ => None,
    }
}

/// Returns the write that sets the element of a plain type at a place to a value. `None` if the
/// value isn't of the type.
fn number_at(place: ListPlace, ty: PlainType, value: &SlotValue) -> Option<Put>
    ensures { IfSome result
        (λ put. IsElementOf put place (plain (plain_of ty)) (slot_value_view value.now)) }
{
    let ListPlace { pointer, index } = place;
    let set = number_for(ty, index, 0, value)?;
    Some(Put::NumberAt {
        pointer,
        index,
        set,
    })
}

/// Returns the write that sets the element of a type at a place to a value. `None` if the type is
/// not plain and not a text or data, or the value isn't of the type. `OutOfMemory`: memory for it
/// was refused.
fn element_at(alloc: Global, place: ListPlace, ty: Type, value: &SlotValue) -> Result<Option<Put>>
    ensures put { IfOk result (λ found. IfSome found
        (λ put. IsElementOf put place (ty_of ty) (slot_value_view value.now))) }
    ensures kind { IfErr result (λ e. e.kind ≡ ErrorKind.OutOfMemory) }
{
    if let Some(plain) = plain_type(ty) {
        return Ok(number_at(place, plain, value));
    }
    let ListPlace { pointer, index } = place;
    match blob_for(alloc, ty, value)? {
        Some(blob) => Ok(Some(Put::BlobAt {
            pointer,
            index,
            blob,
        })),
        None => Ok(None),
    }
}

/// Returns the write that sets a member with this discriminant to a value. `None` if its slot is a
/// pointer or a group, or the value isn't of its type.
fn member_at(mark: PlainSet, place: FieldPlace<'_>, value: &SlotValue) -> Option<Put>
    requires { HasSmallDefault (body_of_place place) }
    ensures { IfSome result (λ put. (p : Option PlainSet) × (put ≡ puts.Member mark p)
        × IsNumberOf p (body_of_place place.entry) (slot_value_view value.now)) }
{
    match place {
        FieldPlace::Void { .. } => Some(Put::Member { mark, number: None }),
        FieldPlace::Plain {
            ty,
            offset,
            default_bits,
        } => {
            let set = number_for(ty, offset, default_bits, value)?;
            Some(Put::Member {
                mark,
                number: Some(set),
            })
        }
        FieldPlace::Pointer { .. } | FieldPlace::Group { .. } => None,
    }
}

/// Returns the write that sets the slot at the end of a path to a value, if the path is straight or
/// goes to a member of a union. `None` and `OutOfMemory` come as from `put_at` and `member_at`.
fn put_by(
    alloc: Global,
    course: Course,
    place: FieldPlace<'_>,
    value: &SlotValue,
) -> Result<Option<Put>>
    requires { HasSmallDefault (body_of_place place) }
    ensures put { IfOk result (λ found. IfSome found (λ put.
        SetsEnd put course (at_slot (body_of_place place.entry))
        (set_to (slot_value_view value.now)))) }
    ensures kind { IfErr result (λ e. e.kind ≡ ErrorKind.OutOfMemory) }
{
    match course.mark {
        Some(mark) => Ok(member_at(mark, place, value)),
        None if course.is_straight => put_at(alloc, place, value),
        None => Ok(None),
    }
}

/// Returns the write that sets the element of a type at the end of a path to a value. `None` if the
/// path goes there in another way; otherwise `None` and `OutOfMemory` come as from `element_at`.
fn put_into(alloc: Global, course: Course, ty: Type, value: &SlotValue) -> Result<Option<Put>>
    ensures put { IfOk result (λ found. IfSome found (λ put.
        SetsEnd put course (at_value (ty_of ty)) (set_to (slot_value_view value.now)))) }
    ensures kind { IfErr result (λ e. e.kind ≡ ErrorKind.OutOfMemory) }
{
    match course.element {
        Some(place) => element_at(alloc, place, ty, value),
        None => Ok(None),
    }
}

/// Returns the write that sets an end to a value. `None` and `OutOfMemory` come as from `put_by`
/// and `put_into`.
fn put_for(alloc: Global, course: Course, end: End<'_>, value: &SlotValue) -> Result<Option<Put>>
    requires { EndsSmall (end_view end) }
    ensures put { IfOk result (λ found. IfSome found (λ put.
        SetsEnd put course (end_view end.entry) (set_to (slot_value_view value.now)))) }
    ensures kind { IfErr result (λ e. e.kind ≡ ErrorKind.OutOfMemory) }
{
    match end {
        End::Slot(place) => put_by(alloc, course, place, value),
        End::Value(ty) => put_into(alloc, course, ty, value),
        End::Nowhere => Ok(None),
    }
}

/// Returns the write of an action at the end of a path, and the hops to it, if the path is
/// straight, or goes to a member with this discriminant or to an element. `None` if the path goes
/// in another way, or if the action doesn't set the end: a slot or an element to a number, a text
/// or data of its type, or a member to a number or to nothing. `OutOfMemory`: memory for it was
/// refused.
pub(crate) fn splice_to(
    alloc: Global,
    hops: Vec<Hop>,
    course: Course,
    end: End<'_>,
    action: &Action,
) -> Result<Option<Splice>>
    requires small { EndsSmall (end_view end) }
    ensures hops { IfOk result (λ found. IfSome found (λ p. p.hops.items ≡ hops.items)) }
    ensures put { IfOk result (λ found. IfSome found
        (λ p. SetsEnd p.put course (end_view end.entry) (action_view action.now))) }
    ensures kind { IfErr result (λ e. e.kind ≡ ErrorKind.OutOfMemory) }
{
    let Action::Set(value) = action else {
        return Ok(None);
    };
    match put_for(alloc, course, end, value)? {
        Some(put) => Ok(Some(Splice { hops, put })),
        None => Ok(None),
    }
}
