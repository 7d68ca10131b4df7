//! The steps of a case: a call with its arguments, and the answer it should give.

use capnp_units::sizes::ElementSize;
use capnp_wire_objects::place::Place;

/// A step: a verb and its arguments between colons, and after an equals sign the answer it should
/// give.
#[derive(Clone, Copy)]
pub struct Step<'a> {
    call: &'a str,
    wanted: &'a str,
}

impl<'a> Step<'a> {
    /// Parses the step of a word.
    pub fn of(word: &'a str) -> Option<Step<'a>> {
        let (call, wanted) = word.split_once('=')?;
        Some(Step { call, wanted })
    }

    /// Returns the answer it should give.
    pub fn wanted(&self) -> &'a str {
        self.wanted
    }

    /// Returns the verb at place 0, and its arguments at the places after it.
    pub fn part(&self, place: usize) -> Option<&'a str> {
        self.call.split(':').nth(place)
    }

    /// Returns the verb.
    pub fn verb(&self) -> &'a str {
        self.part(0).unwrap_or("")
    }

    /// Returns an argument that is a number.
    pub fn number(&self, place: usize) -> Option<usize> {
        self.part(place)?.parse::<usize>().ok()
    }

    /// Returns an argument that is a number of fewer bits.
    pub fn short(&self, place: usize) -> Option<u32> {
        self.part(place)?.parse::<u32>().ok()
    }

    /// Returns an argument that is a place: its segment and its word, with a slash between.
    pub fn place(&self, place: usize) -> Option<Place> {
        let (segment, position) = self.part(place)?.split_once('/')?;
        Some(Place {
            segment: segment.parse::<u32>().ok()?,
            position: position.parse::<usize>().ok()?,
        })
    }

    /// Returns an argument that is the size of elements, 0 to 7.
    pub fn size(&self, place: usize) -> Option<ElementSize> {
        let number = self.part(place)?.parse::<u64>().ok()?;
        if number < 8 {
            Some(ElementSize::from_number(number))
        } else {
            None
        }
    }
}
