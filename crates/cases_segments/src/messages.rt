//! Steps from a whole message.

use crate::machine::Machine;
use crate::pointers::told;
use crate::seen::{Answer, Seen, refusal, shown, word};
use crate::steps::Step;
use capnp_units::errors::Result as Read;
use capnp_units::sizes::{Word, words_as_bytes};
use capnp_wire::pointer::PointerReader;
use capnp_wire_canonical::check::{are_canonical, is_canonical, is_canonical_message};
use capnp_wire_canonical::copy::write_canonical;
use capnp_wire_objects::arena::ReaderArena;
use capnp_wire_objects::place::{ROOT, has_words};
use std::alloc::{AllocError, Global};

/// The value that fills words into which nothing should be written.
const UNTOUCHED: Word = [0xaa; 8];

/// Reports whether a call that gives nothing was refused, and why.
fn done(alloc: Global, read: Read<()>) -> Answer {
    match read {
        Ok(()) => word(alloc, "ok"),
        Err(e) => refusal(alloc, e),
    }
}

/// Returns the bytes of words.
fn words(alloc: Global, words: &[Word]) -> Answer {
    Ok(Seen::Bytes(Vec::from_slice(alloc, words_as_bytes(words))?))
}

impl Machine<'_> {
    /// Returns the answer of a step from the message; `None` if the step is of another sort.
    pub fn of_message(&mut self, alloc: Global, step: &Step) -> Result<Option<Seen>, AllocError> {
        let limiter = &mut self.limiter;
        let seen = match step.verb() {
            "root" => self.step_into_root(alloc),
            "at" => self.step_to(alloc, step),
            "words" => shown(alloc, &self.message.size_in_words()),
            "nesting" => shown(alloc, &self.message.nesting_limit()),
            "granted" => shown(alloc, &limiter.granted()),
            "followed" => shown(alloc, &limiter.followed()),
            "head" => shown(alloc, &self.head.position),
            "is_canonical" => told(alloc, self.message.is_canonical(limiter)),
            "canonicalize" => self.canonicalize(alloc),
            "offset" => self.offset(alloc, step),
            "interval" => self.interval(alloc, step),
            "amplified" => self.amplified(alloc, step),
            "copy" => self.copy(alloc, step),
            "is_message" => self.is_message(alloc, step),
            "is_value" => self.is_value(alloc, step),
            "is_row" => self.is_row(alloc, step),
            _ => return Ok(None),
        };
        Ok(Some(seen?))
    }

    fn step_into_root(&mut self, alloc: Global) -> Answer {
        match PointerReader::get_root_from_arena(self.message) {
            Ok(root) => {
                self.pointer = Some(root);
                word(alloc, "ok")
            }
            Err(e) => refusal(alloc, e),
        }
    }

    fn step_to(&mut self, alloc: Global, step: &Step) -> Answer {
        let Some(place) = step.place(1) else {
            return Ok(Seen::Nothing);
        };
        self.pointer = Some(PointerReader::at(self.message, place));
        word(alloc, "ok")
    }

    fn canonicalize(&mut self, alloc: Global) -> Answer {
        match self.message.canonicalize(alloc, &mut self.limiter) {
            Ok(found) => words(alloc, &found),
            Err(e) => refusal(alloc, e),
        }
    }

    fn offset(&self, alloc: Global, step: &Step) -> Answer {
        let offset = step.part(2).and_then(|text| text.parse::<i32>().ok());
        let (Some(start), Some(offset)) = (step.place(1), offset) else {
            return Ok(Seen::Nothing);
        };
        match self.message.check_offset(start, offset) {
            Ok(place) => {
                Ok(Seen::Word(format!(in alloc; "{}/{}", place.segment, place.position)?))
            }
            Err(e) => refusal(alloc, e),
        }
    }

    fn interval(&mut self, alloc: Global, step: &Step) -> Answer {
        let (Some(start), Some(size)) = (step.place(1), step.number(2)) else {
            return Ok(Seen::Nothing);
        };
        done(
            alloc,
            self.message
                .contains_interval(&mut self.limiter, start, size),
        )
    }

    fn amplified(&mut self, alloc: Global, step: &Step) -> Answer {
        let Some(amount) = step.number(1) else {
            return Ok(Seen::Nothing);
        };
        done(
            alloc,
            self.message
                .amplified_read(&mut self.limiter, amount as u64),
        )
    }

    /// Writes the canonical words of the root, under n levels, into m words, and returns them. The
    /// words after them must keep their values.
    fn copy(&mut self, alloc: Global, step: &Step) -> Answer {
        let (Some(levels), Some(room)) = (step.short(1), step.number(2)) else {
            return Ok(Seen::Nothing);
        };
        let mut into = vec![in alloc; UNTOUCHED; room]?;
        let limiter = &mut self.limiter;
        match write_canonical(self.message, limiter, ROOT, levels, into.as_mut_slice()) {
            Ok(count) => match into.as_slice().split_at_checked(count) {
                Some((found, rest)) if rest.iter().all(|w| *w == UNTOUCHED) => words(alloc, found),
                _ => word(alloc, "written-behind"),
            },
            Err(e) => refusal(alloc, e),
        }
    }

    fn is_message(&mut self, alloc: Global, step: &Step) -> Answer {
        let Some(levels) = step.short(1) else {
            return Ok(Seen::Nothing);
        };
        told(
            alloc,
            is_canonical_message(self.message, &mut self.limiter, levels),
        )
    }

    fn is_value(&mut self, alloc: Global, step: &Step) -> Answer {
        let (Some(place), Some(levels), Some(head)) = (step.place(1), step.short(2), step.place(3))
        else {
            return Ok(Seen::Nothing);
        };
        self.head = head;
        let limiter = &mut self.limiter;
        told(
            alloc,
            is_canonical(self.message, limiter, place, levels, &mut self.head),
        )
    }

    fn is_row(&mut self, alloc: Global, step: &Step) -> Answer {
        let (Some(first), Some(count), Some(levels)) = (step.place(1), step.short(2), step.short(3))
        else {
            return Ok(Seen::Nothing);
        };
        let Some(head) = step.place(4) else {
            return Ok(Seen::Nothing);
        };
        if !has_words(self.message, first, count as usize) {
            return Ok(Seen::Nothing);
        }
        self.head = head;
        let limiter = &mut self.limiter;
        told(
            alloc,
            are_canonical(self.message, limiter, first, count, levels, &mut self.head),
        )
    }
}
