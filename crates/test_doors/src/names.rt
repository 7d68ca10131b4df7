//! Constants, and types of units.
use capnp_layout::units::{
    _BYTES_PER_POINTER, BITS_PER_BYTE, BITS_PER_POINTER, BITS_PER_WORD, BYTES_PER_WORD, BitCount0,
    BitCount8, BitCount16, BitCount32, BitCount64, ByteCount, ByteCount8, ByteCount16, ByteCount32,
    ByteCount64, ElementCount, ElementCount8, ElementCount16, ElementCount32, ElementCount64,
    POINTER_SIZE_IN_WORDS, WORDS_PER_POINTER, WirePointerCount, WirePointerCount8,
    WirePointerCount16, WirePointerCount32, WirePointerCount64, WordCount, WordCount8, WordCount16,
    WordCount32, WordCount64,
};
use capnp_message::message::{
    AllocationStrategy, SUGGESTED_ALLOCATION_STRATEGY, SUGGESTED_FIRST_SEGMENT_WORDS,
};
use capnp_message::serialize::SEGMENTS_COUNT_LIMIT;
use std::test::Fail;

#[test]
fn a_word_is_eight_bytes(rt: HostRuntime) -> Result<(), Fail> {
    let byte: BitCount0 = BITS_PER_BYTE;
    let word: BitCount0 = BITS_PER_WORD;
    let bytes: ByteCount = BYTES_PER_WORD;
    assert!(rt; byte == 8 && word == 64 && bytes == 8);
    let most: BitCount64 = 1 << 63;
    assert!(rt; most == 0x8000_0000_0000_0000);
    Ok(())
}

#[test]
fn counts_have_the_widths_of_their_names(rt: HostRuntime) -> Result<(), Fail> {
    let bits: (BitCount8, BitCount16, BitCount32) = (u8::MAX, u16::MAX, u32::MAX);
    let bytes: (ByteCount8, ByteCount16, ByteCount32, ByteCount64) = (bits.0, bits.1, bits.2, 1);
    let words: (WordCount8, WordCount16, WordCount32, WordCount64) = bytes;
    let items: (
        ElementCount8,
        ElementCount16,
        ElementCount32,
        ElementCount64,
    ) = words;
    let (narrow, short, wide, long) = items;
    let pointers: (WirePointerCount8, WirePointerCount16) = (narrow, short);
    let others: (WirePointerCount32, WirePointerCount64) = (wide, long);
    assert!(rt; pointers == (255, 65535) && others == (0xffff_ffff, 1));
    Ok(())
}

#[test]
fn a_pointer_is_a_word(rt: HostRuntime) -> Result<(), Fail> {
    let words: WordCount = WORDS_PER_POINTER;
    let (elements, pointers): (ElementCount, WirePointerCount) = (1, POINTER_SIZE_IN_WORDS);
    assert!(rt; words == 1 && elements == pointers);
    assert!(rt; BITS_PER_POINTER == 64 && _BYTES_PER_POINTER == 8);
    Ok(())
}

#[test]
fn limits_and_suggestions(rt: HostRuntime) -> Result<(), Fail> {
    assert!(rt; SEGMENTS_COUNT_LIMIT == 512 && SUGGESTED_FIRST_SEGMENT_WORDS == 1024);
    assert!(rt; SUGGESTED_ALLOCATION_STRATEGY == AllocationStrategy::GrowHeuristically);
    Ok(())
}
