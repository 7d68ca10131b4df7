//! Readers and writers of a program that are interrupted, end and fail.
use crate::messages::{TWO, WRITTEN, expect_two};
use capnp_stream::forms::Framed;
use capnp_stream::frames::try_read_message_in;
use capnp_stream::messages::write_segment;
use capnp_stream_io::adapters::{Sink, Source};
use capnp_stream_io::traits::{BufRead, Read, Windowed, Write};
use capnp_units::errors::Error;
use capnp_units::kinds::ErrorKind;
use std::io;
use std::test::Fail;

/// A reader that gives some bytes, one at a call, and stumbles once between two of them.
#[derive(Drop)]
struct Stumbling<'a> {
    bytes: &'a [u8],
    steps: usize,
    kind: io::ErrorKind,
}

impl<'a> Stumbling<'a> {
    fn new(bytes: &'a [u8], steps: usize, kind: io::ErrorKind) -> Stumbling<'a> {
        Stumbling { bytes, steps, kind }
    }
}

impl io::Read for Stumbling<'_> {
    fn read(&mut self, buf: &mut [u8]) -> io::Result<usize> {
        if self.steps == 0 {
            self.steps = usize::MAX;
            return Err(io::Error::from(self.kind));
        }
        self.steps -= 1;
        let bytes = self.bytes;
        match (bytes.split_first(), buf.first_mut()) {
            (Some((byte, behind)), Some(place)) => {
                *place = *byte;
                self.bytes = behind;
                Ok(1)
            }
            _ => Ok(0),
        }
    }
}

/// A writer that takes up to three bytes at a call, and falters at one call, of a write or a flush.
#[derive(Drop)]
struct Faltering<'a> {
    held: &'a mut Vec<u8>,
    calls_before: usize,
    kind: io::ErrorKind,
}

impl<'a> Faltering<'a> {
    fn new(held: &'a mut Vec<u8>, calls_before: usize, kind: io::ErrorKind) -> Faltering<'a> {
        Faltering {
            held,
            calls_before,
            kind,
        }
    }

    fn falter(&mut self) -> io::Result<()> {
        if self.calls_before == 0 {
            self.calls_before = usize::MAX;
            return Err(io::Error::from(self.kind));
        }
        self.calls_before -= 1;
        Ok(())
    }
}

impl io::Write for Faltering<'_> {
    fn write(&mut self, buf: &[u8]) -> io::Result<usize> {
        self.falter()?;
        let n = buf.len().min(3);
        self.held.extend_from_slice(&buf[..n])?;
        Ok(n)
    }

    fn flush(&mut self) -> io::Result<()> {
        self.falter()
    }
}

/// The number of bytes that the earlier calls hold when a table and a segment of two words are
/// written by three bytes.
const HELD_BEFORE: [usize; 10] = [0, 3, 6, 8, 11, 14, 17, 20, 23, 24];

#[test]
fn a_failed_read_is_no_end(rt: HostRuntime) -> std::result::Result<(), Fail> {
    let alloc = rt.alloc();
    for n in 0..40 {
        let reader = Stumbling::new(&TWO, n, io::ErrorKind::Other);
        let mut source = Source::new(alloc, reader)?;
        let failed = try_read_message_in::<Framed, _>(alloc, &mut source, None).err();
        assert!(rt; failed == Some(Error::from(ErrorKind::Device)), "at {n}");
        assert!(rt; source.failures() == 1, "at {n}");
    }
    let reader = Stumbling::new(&TWO, 0, io::ErrorKind::Other);
    let mut source = Source::new(alloc, reader)?;
    assert!(rt; source.fill_buf().is_err());
    assert!(rt; source.window().is_empty());
    expect_two(&rt, alloc, &mut source)?;
    assert!(rt; source.failures() == 1);
    Ok(())
}

#[test]
fn an_interrupted_read_is_tried_again(rt: HostRuntime) -> std::result::Result<(), Fail> {
    let alloc = rt.alloc();
    for n in 0..40 {
        let reader = Stumbling::new(&TWO, n, io::ErrorKind::Interrupted);
        let mut source = Source::new(alloc, reader)?;
        expect_two(&rt, alloc, &mut source)?;
        assert!(rt; source.failures() == 0, "at {n}");
    }
    Ok(())
}

#[test]
fn what_was_read_is_shown_until_it_is_taken(rt: HostRuntime) -> std::result::Result<(), Fail> {
    let mut source = Source::new(rt.alloc(), [1u8, 2, 3].as_slice())?;
    assert!(rt; source.window().is_empty());
    assert!(rt; source.fill_buf()?.len() == 3);
    assert!(rt; source.window() == [1, 2, 3].as_slice());
    source.consume(1);
    assert!(rt; source.window() == [2, 3].as_slice());
    let mut two = [0; 2];
    source.read_exact(&mut two)?;
    assert!(rt; two == [2, 3]);
    assert!(rt; source.window().is_empty());
    assert!(rt; source.read(&mut two)? == 0);
    assert!(rt; source.failures() == 0);
    Ok(())
}

#[test]
fn the_end_of_input_is_no_failure(rt: HostRuntime) -> std::result::Result<(), Fail> {
    let alloc = rt.alloc();
    let mut source = Source::new(alloc, TWO.as_slice())?;
    let mut buf = [0u8; 64];
    assert!(rt; source.read(&mut buf)? == 40);
    assert!(rt; &buf[..40] == TWO.as_slice());
    assert!(rt; source.read(&mut buf)? == 0);
    assert!(rt; source.fill_buf()?.is_empty());
    assert!(rt; try_read_message_in::<Framed, _>(alloc, &mut source, None)?.is_none());
    assert!(rt; source.failures() == 0);
    Ok(())
}

#[test]
fn a_faltering_write_is_counted(rt: HostRuntime) -> std::result::Result<(), Fail> {
    let alloc = rt.alloc();
    for n in 0..10 {
        let mut held = Vec::new(alloc);
        let mut sink = Sink::new(Faltering::new(&mut held, n, io::ErrorKind::Other));
        let failed = write_segment(&mut sink, &WRITTEN[8..]).err();
        let failures = sink.failures();
        drop(sink);
        let whole = HELD_BEFORE[n] == 24;
        assert!(rt; failed.is_none() == whole, "at {n}");
        assert!(rt; failures == u64::from(!whole), "at {n}");
        assert!(rt; held.as_slice() == &WRITTEN[..HELD_BEFORE[n]], "at {n}");
    }
    Ok(())
}

#[test]
fn an_interrupted_write_is_tried_again(rt: HostRuntime) -> std::result::Result<(), Fail> {
    let alloc = rt.alloc();
    for n in 0..10 {
        let mut held = Vec::new(alloc);
        let mut sink = Sink::new(Faltering::new(&mut held, n, io::ErrorKind::Interrupted));
        write_segment(&mut sink, &WRITTEN[8..])?;
        assert!(rt; sink.failures() == 0, "at {n}");
        drop(sink);
        assert!(rt; held.as_slice() == WRITTEN.as_slice(), "at {n}");
    }
    Ok(())
}

#[test]
fn a_flush_counts_as_a_write(rt: HostRuntime) -> std::result::Result<(), Fail> {
    let alloc = rt.alloc();
    for n in 0..2 {
        let mut held = Vec::new(alloc);
        let mut sink = Sink::buffered(alloc, Faltering::new(&mut held, n, io::ErrorKind::Other))?;
        sink.write_all(&[1, 2])?;
        assert!(rt;
            sink.flush() == Err(Error::from(ErrorKind::Device)),
            "at {n}"
        );
        assert!(rt; sink.failures() == 1, "at {n}");
        sink.flush()?;
        assert!(rt; sink.failures() == 1, "at {n}");
        drop(sink);
        assert!(rt; held.as_slice() == [1, 2].as_slice(), "at {n}");
    }
    for n in 0..2 {
        let mut held = Vec::new(alloc);
        let device = Faltering::new(&mut held, n, io::ErrorKind::Interrupted);
        let mut sink = Sink::buffered(alloc, device)?;
        sink.write_all(&[1, 2])?;
        sink.flush()?;
        assert!(rt; sink.failures() == 0, "at {n}");
        drop(sink);
        assert!(rt; held.as_slice() == [1, 2].as_slice(), "at {n}");
    }
    Ok(())
}

#[test]
fn buffered_bytes_keep_their_order(rt: HostRuntime) -> std::result::Result<(), Fail> {
    let alloc = rt.alloc();
    let mut held = Vec::new(alloc);
    let mut out = Sink::buffered(alloc, &mut held)?;
    let large = vec![in alloc; 7u8; 70000]?;
    out.write_all(&[1, 2])?;
    out.write_all(&large)?;
    out.write_all(&[3])?;
    out.flush()?;
    assert!(rt; out.failures() == 0);
    drop(out);
    assert!(rt; held.len() == 70003);
    assert!(rt; held.first() == Some(&1));
    assert!(rt; held.last() == Some(&3));
    Ok(())
}
