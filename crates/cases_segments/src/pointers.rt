//! Steps from pointers.

use crate::machine::Machine;
use crate::seen::{Answer, Seen, bytes, refusal, shown, word};
use crate::steps::Step;
use capnp_units::errors::Result as Read;
use capnp_units::sizes::{MessageSize, PointerType};
use std::alloc::{AllocError, Global};

/// Returns bytes that were lent, or why they weren't.
fn lent(alloc: Global, read: Read<&[u8]>) -> Answer {
    match read {
        Ok(found) => bytes(alloc, found),
        Err(e) => refusal(alloc, e),
    }
}

/// Returns a size: its words, and its capabilities after a comma.
pub fn size(alloc: Global, read: Read<MessageSize>) -> Answer {
    match read {
        Ok(size) => Ok(Seen::Word(format!(in alloc; "{},{}", size.word_count, size.cap_count)?)),
        Err(e) => refusal(alloc, e),
    }
}

/// Returns whether something holds, or why that isn't known.
pub fn told(alloc: Global, read: Read<bool>) -> Answer {
    match read {
        Ok(holds) => shown(alloc, &holds),
        Err(e) => refusal(alloc, e),
    }
}

fn sort(alloc: Global, read: Read<PointerType>) -> Answer {
    match read {
        Ok(PointerType::Null) => word(alloc, "null"),
        Ok(PointerType::Struct) => word(alloc, "struct"),
        Ok(PointerType::List) => word(alloc, "list"),
        Ok(PointerType::Capability) => word(alloc, "capability"),
        Err(e) => refusal(alloc, e),
    }
}

impl Machine<'_> {
    /// Returns the answer of a step from a pointer; `None` if there is no pointer, or the step is
    /// of another sort.
    pub fn of_pointer(&mut self, alloc: Global, step: &Step) -> Result<Option<Seen>, AllocError> {
        let Some(pointer) = self.pointer else {
            return Ok(None);
        };
        let limiter = &mut self.limiter;
        let seen = match step.verb() {
            "text" => lent(alloc, pointer.get_text(limiter, self.default)),
            "data" => lent(alloc, pointer.get_data(limiter, self.default)),
            "size" => size(alloc, pointer.total_size(limiter)),
            "sort" => sort(alloc, pointer.get_pointer_type()),
            "null" => shown(alloc, &pointer.is_null()),
            "struct" => self.step_into_struct(alloc),
            "list" => self.step_into_list(alloc, step),
            "canonical" => self.is_value_canonical(alloc, step),
            _ => return Ok(None),
        };
        Ok(Some(seen?))
    }

    fn step_into_struct(&mut self, alloc: Global) -> Answer {
        let Some(pointer) = self.pointer else {
            return Ok(Seen::Nothing);
        };
        match pointer.get_struct(&mut self.limiter, self.default) {
            Ok(record) => {
                self.record = Some(record);
                word(alloc, "ok")
            }
            Err(e) => refusal(alloc, e),
        }
    }

    fn step_into_list(&mut self, alloc: Global, step: &Step) -> Answer {
        let (Some(pointer), Some(size)) = (self.pointer, step.size(1)) else {
            return Ok(Seen::Nothing);
        };
        match pointer.get_list(&mut self.limiter, size, self.default) {
            Ok(list) => {
                self.list = Some(list);
                shown(alloc, &list.len())
            }
            Err(e) => refusal(alloc, e),
        }
    }

    fn is_value_canonical(&mut self, alloc: Global, step: &Step) -> Answer {
        let (Some(pointer), Some(head)) = (self.pointer, step.place(1)) else {
            return Ok(Seen::Nothing);
        };
        self.head = head;
        let answer = pointer.is_canonical(&mut self.limiter, &mut self.head);
        told(alloc, answer)
    }
}
