//! Streams that fail or are too short, in every form, and the buffer that is kept after a refusal.

use crate::messages::{PACKED, TWO, WRITTEN, expect_two, is_two};
use capnp_stream::forms::Framed;
use capnp_stream::frames::try_read_message_in;
use capnp_stream::kept::{MessageBuffer, try_read_message_into};
use capnp_stream::messages::write_segment;
use capnp_stream_io::adapters::{Sink, Source};
use capnp_stream_io::traits::{BufRead, Read, Write};
use capnp_stream_packed::form::Packed;
use capnp_stream_packed::serialize_packed;
use capnp_units::errors::{Error, Result};
use capnp_units::kinds::ErrorKind;
use std::test::Fail;
use test_support::shown::Shown;
use test_support::{Drip, Short};

/// Returns whether the result says that the device failed.
fn is_failed<T>(read: &Result<T>) -> bool {
    match read {
        Ok(_) => false,
        Err(e) => e.kind == ErrorKind::Device,
    }
}

#[test]
fn messages_are_read_from_programs_readers(rt: HostRuntime) -> std::result::Result<(), Fail> {
    let alloc = rt.alloc();
    expect_two(&rt, alloc, &mut Drip::new(&TWO, 40))?;
    expect_two(&rt, alloc, &mut Source::new(alloc, TWO.as_slice())?)?;
    Ok(())
}

#[test]
fn failing_input_is_refused(rt: HostRuntime) -> std::result::Result<(), Fail> {
    let alloc = rt.alloc();
    for n in 0..40 {
        let mut source = Drip::new(&TWO, n);
        let failed = try_read_message_in::<Framed, _>(alloc, &mut source, None);
        assert!(rt; is_failed(&failed), "at {n}");
        assert!(rt; source.failures() == 1, "at {n}");
        assert!(rt; source.rest().len() == 40 - n, "at {n}");
    }
    for n in 0..6 {
        let mut source = Shown::failing(&PACKED, n);
        let failed = try_read_message_in::<Packed, _>(alloc, &mut source, None);
        assert!(rt; is_failed(&failed), "at {n}");
        assert!(rt; source.failures() == 1, "at {n}");
        assert!(rt; source.bytes.len() == 6 - n, "at {n}");
    }
    Ok(())
}

#[test]
fn a_refusal_leaves_the_buffer_to_the_next(rt: HostRuntime) -> std::result::Result<(), Fail> {
    let mut buffer = MessageBuffer::new(rt.alloc());
    let mut cut: &[u8] = &TWO[..39];
    let refused = try_read_message_into::<Framed, &[u8]>(&mut cut, &mut buffer, None).err();
    assert!(rt; refused == Some(Error::from(ErrorKind::FailedToFillTheWholeBuffer)));
    let mut source = Drip::new(&TWO, 30);
    let failed = try_read_message_into::<Framed, _>(&mut source, &mut buffer, None).err();
    assert!(rt; failed == Some(Error::from(ErrorKind::Device)));
    assert!(rt; source.failures() == 1);
    let mut whole = TWO.as_slice();
    let found = try_read_message_into::<Framed, &[u8]>(&mut whole, &mut buffer, Some(3))?;
    assert!(rt; found.is_some_and(|message| is_two(&message)));
    Ok(())
}

#[test]
fn a_short_write_is_no_whole_one(rt: HostRuntime) -> std::result::Result<(), Fail> {
    let alloc = rt.alloc();
    for n in 0..24 {
        let mut out = Short::new(alloc, n, false);
        let failed = write_segment(&mut out, &WRITTEN[8..]);
        assert!(rt; is_failed(&failed), "at {n}");
        assert!(rt; out.failures() == 1, "at {n}");
        assert!(rt; out.held() == &WRITTEN[..n], "at {n}");
    }
    Ok(())
}

#[test]
fn messages_are_written_to_programs_writers(rt: HostRuntime) -> std::result::Result<(), Fail> {
    let alloc = rt.alloc();
    let mut held = Vec::new(alloc);
    let mut sink = Sink::new(&mut held);
    serialize_packed::write_segment(&mut sink, &WRITTEN[8..])?;
    write_segment(&mut sink, &WRITTEN[8..])?;
    assert!(rt; sink.failures() == 0);
    drop(sink);
    assert!(rt; held.len() == 30);
    assert!(rt; held.starts_with(&PACKED));
    assert!(rt; held.ends_with(&WRITTEN));
    Ok(())
}
