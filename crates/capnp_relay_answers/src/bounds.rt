//! Limits of following a message that is answered.

/// The limits of following a message.
#[derive(Clone, Copy, Debug, PartialEq, Eq)]
pub struct Bounds {
    /// The most words that following it may cost: those of each object, as often as a pointer leads
    /// to it, and of the pads on the way. A list of voids costs a word for each element, and so
    /// does a list of structs without a word, in addition to its tag.
    pub words: u32,
    /// The most levels of pointers, the root's the first; a null pointer is not a level.
    pub nesting: u32,
}
