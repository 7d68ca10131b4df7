//! Marks: what a word of a message is.
use capnp_wire_objects::place::Place;
use hagzimot_faults::steps::Step;

/// A word's place in an object.
#[derive(Clone, Copy, Debug, PartialEq, Eq)]
pub enum Part {
    /// A word of a struct's data, from 0 on.
    Data { index: u64 },
    /// A pointer of a struct, of a list, or of an element of a list of structs.
    Pointer { step: Step },
    /// A word of a list of plain elements, from 0 on.
    Elements { index: u64 },
    /// The tag of a list of structs.
    Tag,
    /// A word of the data of an element of a list of structs.
    ElementData { element: u64, index: u64 },
    /// A word that a list of structs claims, but that no element fills.
    Unfilled,
}

/// A word's place in a message: in the object or the landing pad of a pointer.
#[derive(Clone, Copy, Debug, PartialEq, Eq)]
pub enum Mark {
    /// No pointer that was followed leads to the word.
    NotReached,
    /// The root pointer.
    Root,
    /// The first or the second word of the landing pad of the pointer at a place.
    Pad { pointer: Place, is_second: bool },
    /// A word of the object of the pointer at a place.
    Object { pointer: Place, part: Part },
}

/// A word of a message.
#[derive(Clone, Copy, Debug, PartialEq, Eq)]
pub struct Word {
    /// The word's mark by the first pointer that leads to it.
    pub mark: Mark,
    /// Whether the word is something to another pointer too.
    pub again: bool,
}
