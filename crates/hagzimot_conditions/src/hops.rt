//! Steps of a path under a schema.

/// A step from a value of a message.
#[derive(Clone, Copy, Debug, PartialEq, Eq)]
pub enum Hop {
    /// To the field of an index, of a struct or a group.
    Field(u16),
    /// To an element of a list.
    Element(u32),
    /// To each element of a list.
    Each,
}
