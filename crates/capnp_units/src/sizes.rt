//! Sizes of structs, of lists' elements and of messages, and words.
ghost use Rattle.std.specs.Prelude.{◌≡◌, ◌+◌, ◌*◌, ◌<◌, length};
ghost use Rattle.std.specs.List.{flat_map};
ghost use Rattle.capnp_units.specs.Sizes.{size_number, data_bits, pointer_count, kind_number};

use crate::units::{BitCount32, WirePointerCount32, WordCount32};

/// Eight bytes, the unit of segments. Numbers are in it with the lowest byte first.
pub type Word = [u8; 8];

/// The number of a segment in its message, from 0 on.
pub type SegmentId = u32;

/// Returns the bytes of words, lent in place.
pub fn words_as_bytes(words: &[Word]) -> &[u8]
    ensures bytes { result.now ≡ flat_map (λ word. word) words.now }
    ensures len { length result.now ≡ 8 * length words.now }
{
    words.as_flattened()
}

/// The size of a list's elements, 0 to 7 in list pointers.
#[derive(Clone, Copy, Debug, PartialEq, Eq)]
pub enum ElementSize {
    /// No bits.
    Void,
    /// One bit.
    Bit,
    /// 8 bits.
    Byte,
    /// 16 bits.
    TwoBytes,
    /// 32 bits.
    FourBytes,
    /// 64 bits.
    EightBytes,
    /// One pointer.
    Pointer,
    /// Structs of one size, which is in the list's tag word.
    InlineComposite,
}

impl ElementSize {
    /// Returns the size of a number from 0 to 7, as bits 32 to 34 of a list pointer have it.
    pub fn from_number(number: u64) -> ElementSize
        requires { number < 8 }
        ensures { size_number result ≡ number }
    {
        match number {
            0 => ElementSize::Void,
            1 => ElementSize::Bit,
            2 => ElementSize::Byte,
            3 => ElementSize::TwoBytes,
            4 => ElementSize::FourBytes,
            5 => ElementSize::EightBytes,
            6 => ElementSize::Pointer,
            _ => ElementSize::InlineComposite,
        }
    }

    /// Returns the number that a list pointer has for the size, 0 to 7.
    pub fn number(self) -> u64
        ensures { result ≡ size_number self }
    {
        match self {
            ElementSize::Void => 0,
            ElementSize::Bit => 1,
            ElementSize::Byte => 2,
            ElementSize::TwoBytes => 3,
            ElementSize::FourBytes => 4,
            ElementSize::EightBytes => 5,
            ElementSize::Pointer => 6,
            ElementSize::InlineComposite => 7,
        }
    }
}

/// Returns the bits of data in an element: 0 to 64, and 0 for pointers and structs.
pub fn data_bits_per_element(size: ElementSize) -> BitCount32
    ensures { result ≡ data_bits (size_number size) }
{
    match size {
        ElementSize::Void | ElementSize::Pointer | ElementSize::InlineComposite => 0,
        ElementSize::Bit => 1,
        ElementSize::Byte => 8,
        ElementSize::TwoBytes => 16,
        ElementSize::FourBytes => 32,
        ElementSize::EightBytes => 64,
    }
}

/// Returns the pointers in an element: 1 for pointers, otherwise 0, also for structs.
pub fn pointers_per_element(size: ElementSize) -> WirePointerCount32
    ensures { result ≡ pointer_count (size_number size) }
{
    match size {
        ElementSize::Pointer => 1,
        _ => 0,
    }
}

/// The two sizes of a struct.
#[derive(Clone, Copy, Debug, PartialEq, Eq)]
pub struct StructSize {
    /// Words of the data section.
    pub data_words: u16,
    /// Pointers, which come after the data.
    pub pointers: u16,
}

impl StructSize {
    /// Returns the words of the struct, 0 to 131,070. A pointer takes one word.
    pub fn total(&self) -> WordCount32
        ensures { result ≡ self.now.data_words + self.now.pointers }
    {
        self.data_words as WordCount32 + self.pointers as WordCount32
    }
}

/// The form of a pointer that isn't null, 0 to 3 in its lowest two bits.
#[derive(Clone, Copy, Debug, PartialEq, Eq)]
pub enum WirePointerKind {
    /// To a struct.
    Struct,
    /// To a list.
    List,
    /// To a landing pad, maybe in another segment.
    Far,
    /// Of a capability, or unknown.
    Other,
}

impl WirePointerKind {
    /// Returns the kind of a number from 0 to 3.
    pub fn from_number(number: u64) -> WirePointerKind
        requires { number < 4 }
        ensures { kind_number result ≡ number }
    {
        match number {
            0 => WirePointerKind::Struct,
            1 => WirePointerKind::List,
            2 => WirePointerKind::Far,
            _ => WirePointerKind::Other,
        }
    }

    /// Returns the kind's number, 0 to 3.
    pub fn number(self) -> u64
        ensures { result ≡ kind_number self }
    {
        match self {
            WirePointerKind::Struct => 0,
            WirePointerKind::List => 1,
            WirePointerKind::Far => 2,
            WirePointerKind::Other => 3,
        }
    }
}

/// The type of a pointer's object, with far pointers followed.
#[derive(Clone, Copy, Debug, PartialEq, Eq)]
pub enum PointerType {
    /// Nothing: the pointer's word is zero.
    Null,
    /// A struct.
    Struct,
    /// A list of any kind, a text or data.
    List,
    /// A capability, by its index.
    Capability,
}

/// The size of a value: words of its objects, and capabilities. Each count stops at the greatest
/// number of its type.
#[derive(Clone, Copy, Debug, PartialEq, Eq)]
pub struct MessageSize {
    /// Words of eight bytes.
    pub word_count: u64,
    /// Capabilities.
    pub cap_count: u32,
}
