//! Readers and writers of a program with a choice at each call, and reads of many bytes at once.
use capnp_stream::forms::Framed;
use capnp_stream::frames::read_message_in;
use capnp_stream_io::adapters::{Sink, Source};
use capnp_stream_io::traits::{BufRead, Read, Write};
use capnp_units::errors::{Error, Result};
use capnp_units::kinds::ErrorKind;
use capnp_units::segments::ReaderSegments;
use std::alloc::Global;
use std::io;
use std::process::Abort;
use std::test::Fail;

/// The action of a device at a call: it moves at most n bytes, or fails.
#[derive(Clone, Copy)]
enum Turn {
    Moves(usize),
    Fails(io::ErrorKind),
}

use Turn::{Fails, Moves};

const INTERRUPTED: Turn = Fails(io::ErrorKind::Interrupted);

const BROKEN: Turn = Fails(io::ErrorKind::Other);

/// The turns of a device that are left; afterwards it moves all bytes that it is asked for.
#[derive(Drop)]
struct Turns<'a> {
    left: &'a [Turn],
}

impl Turns<'_> {
    fn next(&mut self) -> io::Result<usize> {
        let Some((first, behind)) = self.left.split_first() else {
            return Ok(usize::MAX);
        };
        self.left = behind;
        match *first {
            Moves(n) => Ok(n),
            Fails(kind) => Err(io::Error::from(kind)),
        }
    }
}

/// A reader of bytes by turns, which counts its calls.
#[derive(Drop)]
struct Giving<'a> {
    bytes: &'a [u8],
    turns: Turns<'a>,
    calls: &'a mut usize,
}

impl io::Read for Giving<'_> {
    fn read(&mut self, buf: &mut [u8]) -> io::Result<usize> {
        *self.calls = self.calls.saturating_add(1);
        let most = self.turns.next()?;
        let bytes = self.bytes;
        let n = buf.len().min(most).min(bytes.len());
        buf[..n].copy_from_slice(&bytes[..n]);
        self.bytes = &bytes[n..];
        Ok(n)
    }
}

/// A writer by turns, of writes and of flushes.
#[derive(Drop)]
struct Taking<'a> {
    held: &'a mut Vec<u8>,
    turns: Turns<'a>,
}

impl io::Write for Taking<'_> {
    fn write(&mut self, buf: &[u8]) -> io::Result<usize> {
        let n = buf.len().min(self.turns.next()?);
        self.held.extend_from_slice(&buf[..n])?;
        Ok(n)
    }

    fn flush(&mut self) -> io::Result<()> {
        self.turns.next()?;
        Ok(())
    }
}

const EIGHT: [u8; 8] = [1, 2, 3, 4, 5, 6, 7, 8];

/// The bytes that a reader's first turns show, `None` if it has failed.
const READS: [(&[Turn], Option<usize>); 8] = [
    (&[], Some(8)),
    (&[Moves(1)], Some(1)),
    (&[Moves(0)], Some(0)),
    (&[INTERRUPTED, Moves(3)], Some(3)),
    (&[INTERRUPTED, INTERRUPTED, Moves(0)], Some(0)),
    (&[BROKEN], None),
    (&[INTERRUPTED, BROKEN], None),
    (&[Fails(io::ErrorKind::UnexpectedEof)], None),
];

/// Returns the number of bytes that a source shows.
fn count_shown<R: BufRead>(source: &mut R) -> Result<usize> {
    Ok(source.fill_buf()?.len())
}

/// A reader's first turns show n bytes or fail, and the next calls read all eight.
fn expect_reads(
    rt: &impl Abort,
    alloc: Global,
    turns: &[Turn],
    shown: Option<usize>,
) -> std::result::Result<(), Fail> {
    let mut calls = 0;
    let reader = Giving {
        bytes: &EIGHT,
        turns: Turns { left: turns },
        calls: &mut calls,
    };
    let mut source = Source::new(alloc, reader)?;
    let first = count_shown(&mut source);
    assert!(rt; first == shown.ok_or(Error::from(ErrorKind::Device)));
    assert!(rt; source.failures() == u64::from(shown.is_none()));
    let mut all = [0u8; 8];
    source.read_exact(&mut all)?;
    assert!(rt; all == EIGHT);
    assert!(rt; source.fill_buf()?.is_empty());
    assert!(rt; source.failures() == u64::from(shown.is_none()));
    Ok(())
}

#[test]
fn readers_end_stop_and_fail(rt: HostRuntime) -> std::result::Result<(), Fail> {
    for (turns, shown) in READS {
        expect_reads(&rt, rt.alloc(), turns, shown)?;
    }
    Ok(())
}

/// The number of eight bytes that a writer holds after its first turns, and whether it has failed.
const WRITES: [(&[Turn], usize, bool); 9] = [
    (&[], 8, false),
    (&[Moves(1)], 8, false),
    (&[Moves(7), Moves(1)], 8, false),
    (&[INTERRUPTED], 8, false),
    (&[Moves(2), INTERRUPTED], 8, false),
    (&[Moves(0)], 0, true),
    (&[Moves(5), Moves(0)], 5, true),
    (&[BROKEN], 0, true),
    (&[Moves(4), BROKEN], 4, true),
];

#[test]
fn writers_take_parts_stop_and_fail(rt: HostRuntime) -> std::result::Result<(), Fail> {
    for (turns, count, fails) in WRITES {
        let mut held = Vec::new(rt.alloc());
        let mut sink = Sink::new(Taking {
            held: &mut held,
            turns: Turns { left: turns },
        });
        let written = sink.write_all(&EIGHT);
        let failures = sink.failures();
        drop(sink);
        assert!(rt; written.is_err() == fails);
        assert!(rt; failures == u64::from(fails));
        assert!(rt; held.len() == count);
        assert!(rt; EIGHT.starts_with(&held));
    }
    Ok(())
}

/// The turns of a writer that is flushed, and whether it has failed then.
const FLUSHES: [(&[Turn], bool); 6] = [
    (&[], false),
    (&[INTERRUPTED], false),
    (&[Moves(8), INTERRUPTED], false),
    (&[Moves(3)], false),
    (&[BROKEN], true),
    (&[Moves(8), BROKEN], true),
];

#[test]
fn flushes_stop_and_fail(rt: HostRuntime) -> std::result::Result<(), Fail> {
    for (turns, fails) in FLUSHES {
        let alloc = rt.alloc();
        let mut held = Vec::new(alloc);
        let device = Taking {
            held: &mut held,
            turns: Turns { left: turns },
        };
        let mut sink = Sink::buffered(alloc, device)?;
        sink.write_all(&EIGHT)?;
        assert!(rt; sink.flush().is_err() == fails);
        assert!(rt; sink.failures() == u64::from(fails));
        sink.flush()?;
        sink.flush()?;
        assert!(rt; sink.failures() == u64::from(fails));
        drop(sink);
        assert!(rt; held.as_slice() == EIGHT.as_slice());
    }
    Ok(())
}

#[test]
fn a_source_asks_for_many_bytes_at_once(rt: HostRuntime) -> std::result::Result<(), Fail> {
    let alloc = rt.alloc();
    let bytes = vec![in alloc; 7u8; 100_000]?;
    let mut calls = 0;
    let reader = Giving {
        bytes: &bytes,
        turns: Turns { left: &[] },
        calls: &mut calls,
    };
    let mut source = Source::new(alloc, reader)?;
    assert!(rt; source.fill_buf()?.len() == 65536);
    let mut all = vec![in alloc; 0u8; 100_000]?;
    source.read_exact(&mut all)?;
    drop(source);
    assert!(rt; all == bytes);
    assert!(rt; calls == 2);
    Ok(())
}

#[test]
fn the_most_segments_are_read(rt: HostRuntime) -> std::result::Result<(), Fail> {
    let alloc = rt.alloc();
    let mut bytes = vec![in alloc; 254, 1, 0, 0]?;
    bytes.resize(2048, 0)?;
    let message = read_message_in::<Framed, &[u8]>(alloc, &mut bytes.as_slice(), Some(0))?;
    assert!(rt; message.len() == 511);
    assert!(rt;
        message
            .get_segment(510)
            .is_some_and(|segment| segment.is_empty())
    );
    assert!(rt; message.get_segment(511).is_none());
    Ok(())
}
