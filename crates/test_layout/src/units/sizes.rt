//! Sizes, and the words of bytes.

use capnp_units::sizes::{
    ElementSize, StructSize, WirePointerKind, Word, data_bits_per_element, pointers_per_element,
    words_as_bytes,
};
use std::test::Fail;

#[test]
fn sizes_are_counted(rt: HostRuntime) -> Result<(), Fail> {
    let words: [Word; 2] = [[1, 2, 3, 4, 5, 6, 7, 8], [9, 0, 0, 0, 0, 0, 0, 0]];
    let bytes = [1, 2, 3, 4, 5, 6, 7, 8, 9, 0, 0, 0, 0, 0, 0, 0];
    assert!(rt; words_as_bytes(&words) == bytes.as_slice());
    let size = StructSize {
        data_words: 65535,
        pointers: 65535,
    };
    assert!(rt; size.total() == 131070);
    assert!(rt; ElementSize::from_number(3) == ElementSize::TwoBytes);
    assert!(rt; ElementSize::InlineComposite.number() == 7);
    assert!(rt; WirePointerKind::from_number(3) == WirePointerKind::Other);
    assert!(rt; WirePointerKind::Far.number() == 2);
    assert!(rt; data_bits_per_element(ElementSize::FourBytes) == 32);
    assert!(rt; pointers_per_element(ElementSize::Pointer) == 1);
    Ok(())
}
