//! Steps over segments: readers at places in a message, and a budget.

use crate::seen::{Answer, Seen};
use crate::steps::Step;
use crate::words::{bytes_of, limit_of, segments_of};
use capnp_message::options::ReaderOptions;
use capnp_message::reader::Reader;
use capnp_units::limiter::ReadLimiter;
use capnp_units::sizes::Word;
use capnp_wire::list::ListReader;
use capnp_wire::pointer::PointerReader;
use capnp_wire::structs::StructReader;
use capnp_wire_objects::place::Place;
use std::alloc::{AllocError, Global};

/// A message of the segments of a case.
pub type Message<'a> = Reader<&'a Vec<Vec<u8>>>;

/// The readers that the steps so far led to, the part of the budget that they used, and the end of
/// the canonical words that were found.
#[derive(Drop)]
pub struct Machine<'a> {
    pub message: &'a Message<'a>,
    pub default: Option<&'a [Word]>,
    pub limiter: ReadLimiter,
    pub pointer: Option<PointerReader<'a, Message<'a>>>,
    pub record: Option<StructReader<'a, Message<'a>>>,
    pub list: Option<ListReader<'a, Message<'a>>>,
    pub head: Place,
}

impl<'a> Machine<'a> {
    fn new(
        message: &'a Message<'a>,
        default: Option<&'a [Word]>,
        limiter: ReadLimiter,
    ) -> Machine<'a> {
        Machine {
            message,
            default,
            limiter,
            pointer: None,
            record: None,
            list: None,
            head: Place {
                segment: 0,
                position: 0,
            },
        }
    }

    /// Returns the answer of a step.
    fn answer(&mut self, alloc: Global, step: &Step) -> Answer {
        if let Some(seen) = self.of_message(alloc, step)? {
            return Ok(seen);
        }
        if let Some(seen) = self.of_pointer(alloc, step)? {
            return Ok(seen);
        }
        if let Some(seen) = self.of_struct(alloc, step)? {
            return Ok(seen);
        }
        match self.of_list(alloc, step)? {
            Some(seen) => Ok(seen),
            None => Ok(Seen::Nothing),
        }
    }
}

/// Returns whether each step gives what it should.
fn goes_on(alloc: Global, machine: &mut Machine, steps: &[&str]) -> Result<bool, AllocError> {
    for text in steps {
        let Some(step) = Step::of(text) else {
            return Ok(false);
        };
        let seen = machine.answer(alloc, &step)?;
        if !seen.is(alloc, step.wanted())? {
            return Ok(false);
        }
    }
    Ok(!steps.is_empty())
}

/// Returns the limits of reading a message.
fn options_of(nesting: &str, budget: &str) -> Option<ReaderOptions> {
    Some(ReaderOptions {
        traversal_limit_in_words: limit_of(budget)?,
        nesting_limit: nesting.parse::<i32>().ok()?,
    })
}

/// Returns whether the steps over segments give what they should: under a nesting limit and a
/// budget, with a default if the case has one.
pub fn goes(
    alloc: Global,
    segments: &str,
    nesting: &str,
    budget: &str,
    default: &str,
    steps: &[&str],
) -> Result<bool, AllocError> {
    let Some(segments) = segments_of(alloc, segments)? else {
        return Ok(false);
    };
    let Some(default) = bytes_of(alloc, default)? else {
        return Ok(false);
    };
    let Some(options) = options_of(nesting, budget) else {
        return Ok(false);
    };
    let (words, _) = default.as_slice().as_chunks::<8>();
    let message = Reader::new(&segments, options);
    let given = if words.is_empty() { None } else { Some(words) };
    let mut machine = Machine::new(&message, given, options.read_limiter());
    goes_on(alloc, &mut machine, steps)
}
