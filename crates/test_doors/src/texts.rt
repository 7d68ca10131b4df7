//! Texts that are compared and converted.
use capnp_layout::text;
use std::test::Fail;

#[test]
fn texts_compare_by_their_bytes(rt: HostRuntime) -> std::result::Result<(), Fail> {
    let (short, long) = (text::Reader::from("ab"), text::Reader::from(b"abc"));
    assert!(rt; short < long && short == text::Reader::from("ab"));
    assert!(rt; text::Reader::from("b") > long);
    Ok(())
}

#[test]
fn texts_are_taken_as_strings(rt: HostRuntime) -> std::result::Result<(), Fail> {
    assert!(rt; text::Reader(b"hi").to_str() == Ok("hi"));
    assert!(rt; text::Reader(&[0x68, 0xff]).to_str().is_err());
    Ok(())
}
