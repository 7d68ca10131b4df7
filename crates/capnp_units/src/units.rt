//! The unit types of the layout, and conversions between units.
ghost use Rattle.std.specs.Prelude.{◌≡◌, ◌*◌, ◌^◌, ◌<◌};
ghost use Rattle.std.specs.Mem.{type_size};

use std::mem::size_of;

/// A count of bits.
pub type BitCount0 = usize;
/// A count of bits, of 8 bits.
pub type BitCount8 = u8;
/// A count of bits, of 16 bits.
pub type BitCount16 = u16;
/// A count of bits, of 32 bits.
pub type BitCount32 = u32;
/// A count of bits, of 64 bits.
pub type BitCount64 = u64;

/// A count of bytes.
pub type ByteCount = usize;
/// A count of bytes, of 8 bits.
pub type ByteCount8 = u8;
/// A count of bytes, of 16 bits.
pub type ByteCount16 = u16;
/// A count of bytes, of 32 bits.
pub type ByteCount32 = u32;
/// A count of bytes, of 64 bits.
pub type ByteCount64 = u64;

/// A count of words of eight bytes.
pub type WordCount = usize;
/// A count of words, of 8 bits.
pub type WordCount8 = u8;
/// A count of words, of 16 bits.
pub type WordCount16 = u16;
/// A count of words, of 32 bits.
pub type WordCount32 = u32;
/// A count of words, of 64 bits.
pub type WordCount64 = u64;

/// A count of elements.
pub type ElementCount = usize;
/// A count of elements, of 8 bits.
pub type ElementCount8 = u8;
/// A count of elements, of 16 bits.
pub type ElementCount16 = u16;
/// A count of elements, of 32 bits.
pub type ElementCount32 = u32;
/// A count of elements, of 64 bits.
pub type ElementCount64 = u64;

/// A count of pointers.
pub type WirePointerCount = usize;
/// A count of pointers, of 8 bits.
pub type WirePointerCount8 = u8;
/// A count of pointers, of 16 bits.
pub type WirePointerCount16 = u16;
/// A count of pointers, of 32 bits.
pub type WirePointerCount32 = u32;
/// A count of pointers, of 64 bits.
pub type WirePointerCount64 = u64;

/// A byte is 8 bits.
pub const BITS_PER_BYTE: BitCount0 = 8;
/// A word is 64 bits.
pub const BITS_PER_WORD: BitCount0 = 64;
/// A word is 8 bytes.
pub const BYTES_PER_WORD: ByteCount = 8;
/// A pointer is 64 bits.
pub const BITS_PER_POINTER: BitCount0 = 64;
/// A pointer is 8 bytes.
pub const _BYTES_PER_POINTER: ByteCount = 8;
/// A pointer is one word.
pub const WORDS_PER_POINTER: WordCount = 1;
/// A pointer is one word.
pub const POINTER_SIZE_IN_WORDS: WordCount = 1;

/// Returns the bytes that a value of a type takes, fewer than 2^64. An element of a list of whole
/// numbers takes the same number of bytes.
pub fn _bytes_per_element<T>() -> ByteCount
    requires { type_size T.row < 2 ^ 64 }
    ensures { result ≡ type_size T.row }
{
    // The size of a type parameter may only occur in products.
    1 * size_of::<T>()
}

/// Returns the bits that a value of a type takes, fewer than 2^64.
pub fn bits_per_element<T>() -> BitCount0
    requires { 8 * type_size T.row < 2 ^ 64 }
    ensures { result ≡ 8 * type_size T.row }
{
    BITS_PER_BYTE * size_of::<T>()
}
