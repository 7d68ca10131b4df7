//! Steps from pointer to pointer.

/// A step from a pointer of a message to a pointer in the object that it leads to.
#[derive(Clone, Copy, Debug, PartialEq, Eq)]
pub enum Step {
    /// To the pointer of this index of a struct.
    Pointer(u32),
    /// To the element of this index of a list of pointers.
    Item(u32),
    /// To a pointer of the element of this index of a list of structs.
    Element { index: u32, pointer: u32 },
}
