//! Values of messages along hops.

use crate::asked::Asked;
use crate::hops::Hop;
use crate::orders::{bytes_order, contains, fits, order_32, order_64, order_of};
use capnp_records::node::NO_DISCRIMINANT;
use capnp_text::text;
use capnp_values::dynamic_value::Reader;
use capnp_values::{dynamic_list, dynamic_struct};
use capnp_values_queries::fields::Field;
use capnp_wire_objects::arena::ReaderArena;
use hagzimot_expressions::tree::Operator;
use std::cell::Cell;

/// A part of a message can't be read as the schema says, or reading it costs more than the limits
/// allow.
#[derive(Clone, Copy, Debug, PartialEq, Eq)]
pub struct Unread;

/// The number of words that may still be looked at in a message.
#[derive(Drop)]
pub(crate) struct Budget {
    left: Cell<u64>,
}

impl Budget {
    /// Allows this number of words.
    pub(crate) fn new(words: u64) -> Budget {
        Budget {
            left: Cell::new(words),
        }
    }

    /// Notes that an element, or this number of bytes, is looked at.
    pub(crate) fn spend(&self, bytes: usize) -> Result<(), Unread> {
        let words = (bytes as u64 / 8).saturating_add(1);
        match self.left.get().checked_sub(words) {
            Some(left) => {
                self.left.set(left);
                Ok(())
            }
            None => Err(Unread),
        }
    }
}

/// Returns the field of an index, of the struct that is there.
pub(crate) fn field_at<'a, A: ReaderArena>(
    reader: dynamic_struct::Reader<'a, A>,
    index: u16,
) -> Option<Field<'a>> {
    let Ok(fields) = reader.get_schema().get_fields() else {
        return None;
    };
    if index < fields.len() {
        Some(fields.get(index))
    } else {
        None
    }
}

/// Returns whether a field is not a member of a union, or the active one.
fn is_active<A: ReaderArena>(reader: dynamic_struct::Reader<'_, A>, field: Field<'_>) -> bool {
    let member = field.get_proto().discriminant_value;
    member == NO_DISCRIMINANT || has_member(reader, member)
}

/// Returns whether the active member has this discriminant.
fn has_member<A: ReaderArena>(reader: dynamic_struct::Reader<'_, A>, member: u16) -> bool {
    match reader.which() {
        Ok(Some(active)) => active.get_proto().discriminant_value == member,
        _ => false,
    }
}

/// Returns the value of the field of an index; `None` of an inactive member.
fn field_value<'a, A: ReaderArena>(
    reader: dynamic_struct::Reader<'a, A>,
    index: u16,
) -> Result<Option<Reader<'a, A>>, Unread> {
    let Some(field) = field_at(reader, index) else {
        return Ok(None);
    };
    if !is_active(reader, field) {
        return Ok(None);
    }
    match reader.get(field) {
        Ok(value) => Ok(Some(value)),
        Err(_) => Err(Unread),
    }
}

/// Returns the element of an index; `None` if there is none.
fn element<'a, A: ReaderArena>(
    list: dynamic_list::Reader<'a, A>,
    index: u32,
) -> Result<Option<Reader<'a, A>>, Unread> {
    if index >= list.len() {
        return Ok(None);
    }
    match list.get(index) {
        Ok(value) => Ok(Some(value)),
        Err(_) => Err(Unread),
    }
}

/// Returns the value that a hop leads to, if it leads to one; `None` if the message has none.
pub(crate) fn value_behind<'a, A: ReaderArena>(
    value: Reader<'a, A>,
    hop: Hop,
) -> Result<Option<Reader<'a, A>>, Unread> {
    match (hop, value) {
        (Hop::Field(index), Reader::Struct(reader)) => field_value(reader, index),
        (Hop::Element(index), Reader::List(list)) => element(list, index),
        _ => Ok(None),
    }
}

/// Returns the whole number that a value is.
fn whole<A>(value: Reader<'_, A>) -> Option<i128> {
    match value {
        Reader::Int8(number) => Some(number as i128),
        Reader::Int16(number) => Some(number as i128),
        Reader::Int32(number) => Some(number as i128),
        Reader::Int64(number) => Some(number as i128),
        Reader::UInt8(number) => Some(number as i128),
        Reader::UInt16(number) => Some(number as i128),
        Reader::UInt32(number) => Some(number as i128),
        Reader::UInt64(number) => Some(number as i128),
        _ => None,
    }
}

/// Returns the number of a Bool.
fn bit_of(value: bool) -> i128 {
    if value { 1 } else { 0 }
}

/// Returns whether a text compares so with these bytes.
fn text_fits(text: &[u8], operator: Operator, bytes: &[u8]) -> bool {
    if operator == Operator::Contains {
        return contains(text, bytes);
    }
    fits(operator, Some(bytes_order(text, bytes)))
}

/// Returns whether the field of an index is present in the struct that is there.
fn is_present<A: ReaderArena>(reader: dynamic_struct::Reader<'_, A>, index: u16) -> bool {
    match field_at(reader, index) {
        Some(field) => reader.has(field) == Ok(true),
        None => false,
    }
}

/// Returns whether a value is what is asked for.
fn is_so<A: ReaderArena>(
    value: Reader<'_, A>,
    asked: &Asked,
    budget: &Budget,
) -> Result<bool, Unread> {
    match (asked, value) {
        (Asked::There, _) => Ok(true),
        (Asked::Present(index), Reader::Struct(reader)) => Ok(is_present(reader, *index)),
        (Asked::Member(member), Reader::Struct(reader)) => Ok(has_member(reader, *member)),
        (Asked::Whole { operator, number }, value) => match whole(value) {
            Some(there) => Ok(fits(*operator, Some(order_of(there, *number)))),
            None => Ok(false),
        },
        (Asked::Truth { operator, value }, Reader::Bool(there)) => {
            Ok(fits(*operator, Some(order_of(bit_of(there), bit_of(*value)))))
        }
        (Asked::Enumerant { operator, number }, Reader::Enum(there)) => {
            Ok(fits(
                *operator,
                Some(order_of(there.get_value() as i128, *number as i128)),
            ))
        }
        (Asked::Text { operator, bytes }, Reader::Text(text::Reader(there))) => {
            budget.spend(there.len())?;
            Ok(text_fits(there, *operator, bytes))
        }
        (Asked::Data { operator, bytes }, Reader::Data(there)) => {
            budget.spend(there.len())?;
            Ok(text_fits(there, *operator, bytes))
        }
        (Asked::Float32 { operator, bits }, Reader::UInt32(there)) => {
            Ok(fits(*operator, order_32(there, *bits)))
        }
        (Asked::Float64 { operator, bits }, Reader::UInt64(there)) => {
            Ok(fits(*operator, order_64(there, *bits)))
        }
        _ => Ok(false),
    }
}

/// Returns whether what is asked for holds of what the hops lead to from a value. After a hop to
/// each element of a list it is enough that it holds of one.
#[cycle(hops)]
pub(crate) fn holds_behind<A: ReaderArena>(
    value: Reader<'_, A>,
    hops: &[Hop],
    asked: &Asked,
    budget: &Budget,
) -> Result<bool, Unread> {
    let Some((hop, behind)) = hops.split_first() else {
        return is_so(value, asked, budget);
    };
    if let (Hop::Each, Reader::List(list)) = (*hop, value) {
        return some_holds(list, behind, asked, budget);
    }
    match value_behind(value, *hop)? {
        Some(next) => holds_behind(next, behind, asked, budget),
        None => Ok(false),
    }
}

/// Returns whether it holds of what the hops lead to from some element of a list.
#[cycle(hops)]
fn some_holds<A: ReaderArena>(
    list: dynamic_list::Reader<'_, A>,
    hops: &[Hop],
    asked: &Asked,
    budget: &Budget,
) -> Result<bool, Unread> {
    for index in 0..list.len() {
        budget.spend(0)?;
        let Some(value) = element(list, index)? else {
            return Ok(false);
        };
        if holds_behind(value, hops, asked, budget)? {
            return Ok(true);
        }
    }
    Ok(false)
}
