//! Writes into a message, with their places.

use crate::blob::Blob;
use crate::plain::PlainSet;

/// A step from a struct to the next one on the way to a field.
#[derive(Clone, Copy, Debug, PartialEq, Eq)]
pub enum Hop {
    /// To the struct of a pointer, counted from 0 on.
    Pointer(u32),
    /// To an element of the list of structs of a pointer.
    Element { pointer: u32, index: u32 },
    /// To a group, whose fields are in the same struct.
    Group,
}

/// A write into a struct.
#[derive(Debug, Drop)]
pub enum Put {
    /// A number, into its data.
    Number(PlainSet),
    /// A text or data, in place of null or of the list of bytes, bits or numbers of a pointer.
    Blob {
        pointer: u32,
        blob: Blob,
    },
    /// The discriminant of a union, and the number of its member, if it has one.
    Member {
        mark: PlainSet,
        number: Option<PlainSet>,
    },
    /// A text or data, in place of null or of a list of bytes, bits or numbers at an index of the
    /// list of pointers of a pointer.
    BlobAt {
        pointer: u32,
        index: u32,
        blob: Blob,
    },
    /// A number, in place of the element at an index of the list of elements of its width, which a
    /// pointer leads to. Its word and its shift are those of the element among the words of the
    /// list.
    NumberAt {
        pointer: u32,
        index: u32,
        set: PlainSet,
    },
}

/// A write into a struct that is reached from the root by hops.
#[derive(Debug, Drop)]
pub struct Splice {
    pub hops: Vec<Hop>,
    pub put: Put,
}

/// The outcome of a splice.
#[derive(Clone, Copy, Debug, PartialEq, Eq)]
pub enum Spliced {
    /// The write is done, and n words are used then.
    Done(usize),
    /// The write has no place. The used words are unchanged.
    Unplaced,
    /// Some of the write may be done, and the words must not be used.
    Spoiled,
}
