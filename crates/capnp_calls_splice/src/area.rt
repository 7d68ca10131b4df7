//! Places of structs and lists among words.

/// The data and the pointers of a struct, or of an element of a list of structs.
#[derive(Clone, Copy)]
pub(crate) struct Area {
    /// The word at which the data begin.
    pub(crate) at: usize,
    pub(crate) data_words: usize,
    pub(crate) pointers: usize,
}

/// Words in a row.
#[derive(Clone, Copy)]
pub(crate) struct Run {
    pub(crate) start: usize,
    pub(crate) len: usize,
}

/// The elements of a list of structs.
#[derive(Clone, Copy)]
pub(crate) struct Structs {
    /// The word at which the first element begins.
    pub(crate) first: usize,
    pub(crate) count: usize,
    pub(crate) data_words: usize,
    pub(crate) pointers: usize,
}

/// The state after a write.
#[derive(Clone, Copy)]
pub(crate) struct Placed {
    /// The number of used words.
    pub(crate) count: usize,
    /// The data words of the struct or element that was written.
    pub(crate) data_words: usize,
}

/// The reason for which nothing was written.
#[derive(Clone, Copy)]
pub(crate) enum Unput {
    /// There is no room for more words in the slice. The words are unchanged.
    Room,
    /// There is no place for the write. The words are unchanged.
    Place,
    /// Some of the write may be done, and the words must not be used.
    Spoiled,
}
