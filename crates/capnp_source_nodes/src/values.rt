//! Values of constants, defaults and annotations.

/// A value under its type.
#[derive(Debug, Drop)]
pub enum Value {
    Void,
    Bool(bool),
    Int8(i8),
    Int16(i16),
    Int32(i32),
    Int64(i64),
    UInt8(u8),
    UInt16(u16),
    UInt32(u32),
    UInt64(u64),
    /// The bits of the float.
    Float32(u32),
    /// The bits of the float.
    Float64(u64),
    /// The bytes, without the zero byte that ends a text in a message.
    Text(Vec<u8>),
    Data(Vec<u8>),
    Enum(u16),
    List(Object),
    Struct(Object),
    AnyPointer(Object),
    Interface,
}

/// The object that a pointer of a message leads to.
#[cycle(objects)]
#[derive(Debug, Drop)]
pub enum Object {
    /// Nothing: a null pointer.
    Null,
    Struct(Parts),
    /// A list of elements without pointers.
    Elements {
        /// The size of an element.
        size: Width,
        /// The number of elements.
        count: u32,
        /// The elements, lowest bit first; for `Void` no byte.
        bytes: Vec<u8>,
    },
    Pointers(Vec<Object>),
    /// A list of structs, each with sections of these sizes.
    Structs {
        data_words: u16,
        pointers: u16,
        elements: Vec<Parts>,
    },
}

/// The sections of a struct.
#[cycle(objects)]
#[derive(Debug, Drop)]
pub struct Parts {
    /// The data section, in whole words.
    pub data: Vec<u8>,
    pub pointers: Vec<Object>,
}

/// The size of an element of a list without pointers.
#[derive(Clone, Copy, Debug, PartialEq, Eq)]
pub enum Width {
    Void,
    Bit,
    Byte,
    TwoBytes,
    FourBytes,
    EightBytes,
}
