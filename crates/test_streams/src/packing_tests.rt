//! Packed sources and sinks that are read and written a piece at a time.

use crate::messages::{PACKED, WRITTEN};
use capnp_stream::forms::MessageForm;
use capnp_stream_io::adapters::Sink;
use capnp_stream_io::traits::{Read, Write};
use capnp_stream_packed::form::Packed;
use capnp_stream_packed::streams::{PackedRead, PackedWrite};
use capnp_units::errors::Error;
use capnp_units::kinds::ErrorKind;
use std::test::Fail;
use test_support::shown::Shown;

/// Two words without zero bytes, except the last byte.
const DENSE: [u8; 16] = [1, 2, 3, 4, 5, 6, 7, 8, 1, 2, 3, 4, 5, 6, 7, 0];

/// Their packed bytes.
const PACKED_DENSE: [u8; 18] = [255, 1, 2, 3, 4, 5, 6, 7, 8, 1, 1, 2, 3, 4, 5, 6, 7, 0];

#[test]
fn words_are_packed_a_piece_at_a_time(rt: HostRuntime) -> std::result::Result<(), Fail> {
    let mut held = Vec::new(rt.alloc());
    let mut sink = Sink::new(&mut held);
    let mut words = PackedWrite { inner: &mut sink };
    words.write_all(&DENSE)?;
    words.write_all(&[0; 8])?;
    assert!(rt; words.inner.failures() == 0);
    assert!(rt; held.starts_with(&PACKED_DENSE));
    assert!(rt; held.ends_with(&[0, 0]));
    assert!(rt; held.len() == 20);
    let mut place = [9u8; 4];
    let mut rest = place.as_mut_slice();
    Packed::write_piece(&mut rest, &[0, 0, 12, 0, 0, 34, 0, 0])?;
    assert!(rt; rest.len() == 1);
    let mut short = PackedWrite { inner: rest };
    let full = short.write_piece(&[1, 0, 0, 0, 0, 0, 0, 0]).err();
    assert!(rt; full == Some(Error::from(ErrorKind::BufferNotLargeEnough)));
    let ragged = short.write_all(&[0; 9]).err();
    assert!(rt; ragged == Some(Error::from(ErrorKind::BufferNotLargeEnough)));
    assert!(rt; short.inner.len() == 1);
    assert!(rt; place.as_slice() == [0x24, 12, 34, 9].as_slice());
    Ok(())
}

#[test]
fn words_are_read_a_piece_at_a_time(rt: HostRuntime) -> std::result::Result<(), Fail> {
    let mut words = PackedRead {
        inner: PACKED.as_slice(),
    };
    let mut first = [9u8; 8];
    let mut segment = [9u8; 16];
    let ragged = words.read(&mut first[..7]).err();
    assert!(rt; ragged == Some(Error::from(ErrorKind::BufferNotLargeEnough)));
    assert!(rt; words.read(&mut first[..0])? == 0);
    assert!(rt; words.read(&mut first)? == 8);
    assert!(rt; first == [0, 0, 0, 0, 2, 0, 0, 0]);
    words.read_exact(&mut segment)?;
    assert!(rt; segment.as_slice() == &WRITTEN[8..]);
    assert!(rt; words.read(&mut first)? == 0);
    let cut = words.read_exact(&mut first).err();
    assert!(rt; cut == Some(Error::from(ErrorKind::FailedToFillTheWholeBuffer)));
    Ok(())
}

#[test]
fn a_failing_source_is_told(rt: HostRuntime) -> std::result::Result<(), Fail> {
    let mut first = [9u8; 8];
    let mut failing = PackedRead {
        inner: Shown::failing(&PACKED, 1),
    };
    let failed = failing.read(&mut first).err();
    assert!(rt; failed == Some(Error::from(ErrorKind::Device)));
    assert!(rt; failing.failures() == 1);
    assert!(rt; failing.inner.bytes.len() == 5);
    Ok(())
}

#[test]
fn long_runs_take_few_looks(rt: HostRuntime) -> std::result::Result<(), Fail> {
    let alloc = rt.alloc();
    let full = vec![in alloc; 255u8; 2050]?;
    let mut words = vec![in alloc; 0u8; 2048]?;
    let mut packed = PackedRead {
        inner: Shown::new(&full, 0, usize::MAX),
    };
    packed.read_exact(&mut words)?;
    assert!(rt; words.iter().all(|b| *b == 255));
    assert!(rt; packed.inner.looks() <= 4);
    Ok(())
}
