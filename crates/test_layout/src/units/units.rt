//! Bits and bytes of an element.

use capnp_units::units::{_bytes_per_element, BITS_PER_WORD, bits_per_element};
use std::test::Fail;

#[test]
fn elements_have_their_bits(rt: HostRuntime) -> Result<(), Fail> {
    assert!(rt; bits_per_element::<u16>() == 16);
    assert!(rt; bits_per_element::<i64>() == BITS_PER_WORD);
    assert!(rt; _bytes_per_element::<u32>() == 4);
    assert!(rt; _bytes_per_element::<i8>() == 1);
    Ok(())
}
