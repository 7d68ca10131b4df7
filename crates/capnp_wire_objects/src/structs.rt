//! Structs and lists of structs by themselves, so that readers of only these need no `Object`.
use crate::place::Place;
use capnp_units::sizes::StructSize;

/// A struct in the segment of the pointer to it.
#[derive(Clone, Copy, Debug, PartialEq, Eq)]
pub struct NearStruct {
    /// The place of its data words.
    pub start: Place,
    pub size: StructSize,
}

/// A list of structs in the segment of the pointer to it.
#[derive(Clone, Copy, Debug, PartialEq, Eq)]
pub struct NearStructs {
    /// The place of the first element, after the tag.
    pub start: Place,
    /// The number of words that the pointer claims for the elements, which they needn't fill.
    pub words: u32,
    pub count: u32,
    /// The sizes of each element.
    pub size: StructSize,
}
