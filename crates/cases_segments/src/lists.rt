//! Steps from lists.
ghost use Rattle.std.specs.Prelude.{◌<◌};
ghost use Rattle.capnp_wire.specs.Views.{seen_list};

use crate::machine::{Machine, Message};
use crate::seen::{Answer, Seen, bytes, shown, word};
use crate::steps::Step;
use capnp_wire::element::PrimitiveElement;
use capnp_wire::list::ListReader;
use std::alloc::{AllocError, Global};
use std::fmt::Display;

/// Returns an element, read as a type.
fn element<T: PrimitiveElement + Display>(
    alloc: Global,
    list: ListReader<'_, Message<'_>>,
    step: &Step,
) -> Answer {
    match step.short(1) {
        Some(index) if index < list.len() => shown(alloc, &T::get(&list, index)),
        _ => Ok(Seen::Nothing),
    }
}

/// Returns an element, read as nothing.
fn void(alloc: Global, list: ListReader<'_, Message<'_>>, step: &Step) -> Answer {
    match step.short(1) {
        Some(index) if index < list.len() => {
            <() as PrimitiveElement>::get(&list, index);
            word(alloc, "ok")
        }
        _ => Ok(Seen::Nothing),
    }
}

impl Machine<'_> {
    /// Returns the answer of a step from a list; `None` if there is no list, or the step is of
    /// another sort.
    pub fn of_list(&mut self, alloc: Global, step: &Step) -> Result<Option<Seen>, AllocError> {
        let Some(list) = self.list else {
            return Ok(None);
        };
        let seen = match step.verb() {
            "as_void" => void(alloc, list, step),
            "as_bool" => element::<bool>(alloc, list, step),
            "as_u8" => element::<u8>(alloc, list, step),
            "as_i8" => element::<i8>(alloc, list, step),
            "as_u16" => element::<u16>(alloc, list, step),
            "as_i16" => element::<i16>(alloc, list, step),
            "as_u32" => element::<u32>(alloc, list, step),
            "as_i32" => element::<i32>(alloc, list, step),
            "as_u64" => element::<u64>(alloc, list, step),
            "as_i64" => element::<i64>(alloc, list, step),
            "bytes" => bytes(alloc, list.bytes()),
            "element_size" => shown(alloc, &list.element_size().number()),
            "element" => self.step_into_element(alloc, step),
            "element_pointer" => self.step_into_pointer(alloc, step),
            _ => return Ok(None),
        };
        Ok(Some(seen?))
    }

    /// Steps into an element as a struct. Single bits can't be read so.
    fn step_into_element(&mut self, alloc: Global, step: &Step) -> Answer {
        let (Some(list), Some(index)) = (self.list, step.short(1)) else {
            return Ok(Seen::Nothing);
        };
        if index >= list.len() || list.element_size().number() == 1 {
            return Ok(Seen::Nothing);
        }
        self.record = Some(list.get_struct_element(index));
        word(alloc, "ok")
    }

    fn step_into_pointer(&mut self, alloc: Global, step: &Step) -> Answer {
        let (Some(list), Some(index)) = (self.list, step.short(1)) else {
            return Ok(Seen::Nothing);
        };
        if index >= list.len() {
            return Ok(Seen::Nothing);
        }
        self.pointer = Some(list.get_pointer_element(index));
        word(alloc, "ok")
    }
}
