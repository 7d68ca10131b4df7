//! Segments that are lent.

use capnp_units::segments::ReaderSegments;
use capnp_units::sizes::SegmentId;
use std::test::Fail;

fn last_byte<S: ReaderSegments>(segments: &S, id: SegmentId) -> Option<u8> {
    segments.get_segment(id)?.last().copied()
}

fn is_one<S: ReaderSegments>(segments: S) -> bool
where
    S: Drop,
{
    !segments.is_empty() && segments.len() == 1
}

#[test]
fn segments_are_lent(rt: HostRuntime) -> Result<(), Fail> {
    let bytes: [&[u8]; 2] = [b"ab", b"cde"];
    let lent = &bytes[..];
    assert!(rt; last_byte(&lent, 1) == Some(b'e'));
    assert!(rt; last_byte(&lent, 2) == None);
    assert!(rt; !is_one(lent));
    let mut owned = Vec::new(rt.alloc());
    owned.push(Vec::from_slice(rt.alloc(), b"abc")?)?;
    assert!(rt; last_byte(&owned, 0) == Some(b'c'));
    assert!(rt; last_byte(&&owned, 0) == Some(b'c'));
    assert!(rt; is_one(&owned));
    Ok(())
}
