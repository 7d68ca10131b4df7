//! Reasons why no message can be made from a JSON value.

use std::alloc::{AllocError, AllocFailed, Global};
use std::fmt;
use std::fmt::{Display, Formatter, Write};

/// A step from a JSON value into it.
#[derive(Debug, Drop)]
pub enum JsonStep {
    Name(String),
    Index(usize),
}

/// Something wrong in a JSON value.
#[derive(Debug, Drop)]
pub struct Wrong {
    /// The steps to the place, the last step first.
    pub steps: Vec<JsonStep>,
    /// The fault, in words.
    pub text: String,
}

impl Display for Wrong {
    fn fmt<W: Write>(&self, f: &mut Formatter<W>) -> fmt::Result {
        for step in self.steps.iter().rev() {
            match step {
                JsonStep::Name(name) => write!(f, ".{name}")?,
                JsonStep::Index(index) => write!(f, "[{index}]")?,
            }
        }
        let text = self.text.as_str();
        let mark = if self.steps.is_empty() { "" } else { ": " };
        write!(f, "{mark}{text}")
    }
}

/// Why no message is made.
#[derive(Debug, Drop)]
pub enum MakeFault {
    /// The JSON value does not describe a value of the schema.
    Wrong(Wrong),
    /// The message would have 2^29 words or more.
    TooLarge,
    /// An allocation was refused.
    Memory,
}

impl From<AllocError> for MakeFault {
    fn from(_e: AllocError) -> MakeFault {
        MakeFault::Memory
    }
}

impl<T: Drop> From<AllocFailed<T>> for MakeFault {
    fn from(_e: AllocFailed<T>) -> MakeFault {
        MakeFault::Memory
    }
}

/// Returns the fault of a value, at no steps from it.
pub(crate) fn value_fault(alloc: Global, text: String) -> MakeFault {
    MakeFault::Wrong(Wrong {
        steps: Vec::new(alloc),
        text,
    })
}

/// Returns the fault of a value that is at a step from another.
pub(crate) fn below(fault: MakeFault, step: JsonStep) -> MakeFault {
    match fault {
        MakeFault::Wrong(mut it) => match it.steps.push(step) {
            Ok(()) => MakeFault::Wrong(it),
            Err(_) => MakeFault::Memory,
        },
        fault => fault,
    }
}

/// Returns the fault of a value that is in a member of an object.
pub(crate) fn in_member(alloc: Global, fault: MakeFault, name: &str) -> MakeFault {
    match String::from_str(alloc, name) {
        Ok(name) => below(fault, JsonStep::Name(name)),
        Err(_) => MakeFault::Memory,
    }
}
