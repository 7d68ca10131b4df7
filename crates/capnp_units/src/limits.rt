//! The greatest numbers of the encoding.

/// The most words of a message, elements of a list and bytes of data: 2^29 - 1. The 29 bits of a
/// list pointer's count can't hold more, and a pointer's offset reaches no further.
///
/// Encoding document, "Structs" and "Lists".
pub const MOST_WORDS: u32 = 0x1fff_ffff;
