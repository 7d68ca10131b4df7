//! Steps from structs.

use crate::machine::{Machine, Message};
use crate::pointers::{size, told};
use crate::seen::{Answer, Seen, bytes, shown, word};
use crate::steps::Step;
use capnp_units::primitive::{Mask, Primitive, Zero};
use capnp_wire::structs::StructReader;
use std::alloc::{AllocError, Global};
use std::fmt::Display;
use std::str::FromStr;

/// Returns a number of the data section at an index in units of its own width, combined by
/// exclusive or with a default if the step has one.
fn number<N>(alloc: Global, record: StructReader<'_, Message<'_>>, step: &Step) -> Answer
where
    N: Primitive + Zero + Mask<T = N> + Display + FromStr,
    N::Err: Drop,
{
    let Some(index) = step.number(1) else {
        return Ok(Seen::Nothing);
    };
    let Some(text) = step.part(2) else {
        return shown(alloc, &record.get_data_field::<N>(index));
    };
    match text.parse::<N>().ok() {
        Some(default) => shown(alloc, &record.get_data_field_mask::<N>(index, default)),
        None => Ok(Seen::Nothing),
    }
}

/// Returns a bit of the data section at an index, combined by exclusive or with a default if the
/// step has one.
fn bit(alloc: Global, record: StructReader<'_, Message<'_>>, step: &Step) -> Answer {
    let Some(index) = step.number(1) else {
        return Ok(Seen::Nothing);
    };
    match step.part(2) {
        None => shown(alloc, &record.get_bool_field(index)),
        Some(text) => shown(alloc, &record.get_bool_field_mask(index, text == "true")),
    }
}

impl Machine<'_> {
    /// Returns the answer of a step from a struct; `None` if there is no struct, or the step is of
    /// another sort.
    pub fn of_struct(&mut self, alloc: Global, step: &Step) -> Result<Option<Seen>, AllocError> {
        let Some(record) = self.record else {
            return Ok(None);
        };
        let seen = match step.verb() {
            "u8" => number::<u8>(alloc, record, step),
            "i8" => number::<i8>(alloc, record, step),
            "u16" => number::<u16>(alloc, record, step),
            "i16" => number::<i16>(alloc, record, step),
            "u32" => number::<u32>(alloc, record, step),
            "i32" => number::<i32>(alloc, record, step),
            "u64" => number::<u64>(alloc, record, step),
            "i64" => number::<i64>(alloc, record, step),
            "bool" => bit(alloc, record, step),
            "section" => bytes(alloc, record.section()),
            "pointers" => shown(alloc, &record.pointers()),
            "struct_size" => size(alloc, record.total_size(&mut self.limiter)),
            "field" => self.step_into_field(alloc, step),
            "null_field" => self.is_field_null(alloc, step),
            "struct_canonical" => self.is_struct_canonical(alloc, step),
            _ => return Ok(None),
        };
        Ok(Some(seen?))
    }

    fn step_into_field(&mut self, alloc: Global, step: &Step) -> Answer {
        let (Some(record), Some(index)) = (self.record, step.number(1)) else {
            return Ok(Seen::Nothing);
        };
        self.pointer = Some(record.get_pointer_field(index));
        word(alloc, "ok")
    }

    fn is_field_null(&self, alloc: Global, step: &Step) -> Answer {
        let (Some(record), Some(index)) = (self.record, step.number(1)) else {
            return Ok(Seen::Nothing);
        };
        shown(alloc, &record.is_pointer_field_null(index))
    }

    /// Asks with two heads: the head of the struct's own words, which the answer gives after a
    /// comma, and the head of what they lead to.
    fn is_struct_canonical(&mut self, alloc: Global, step: &Step) -> Answer {
        let (Some(record), Some(own), Some(head)) = (self.record, step.place(1), step.place(2))
        else {
            return Ok(Seen::Nothing);
        };
        let mut own = own;
        self.head = head;
        match record.is_canonical(&mut self.limiter, &mut own, &mut self.head) {
            Ok(holds) => Ok(Seen::Word(format!(in alloc; "{holds},{}", own.position)?)),
            Err(e) => told(alloc, Err(e)),
        }
    }
}
