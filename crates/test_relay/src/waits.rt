//! Flushes before a wait for input.
ghost use Rattle.std.specs.Prelude.{◌≡◌, length};
ghost use Rattle.capnp_units.specs.declared.kinds.ErrorKind.{ErrorKind};

use crate::devices::Device;
use crate::samples::{SET_A, run, set_a};
use capnp_relay_program::sources::Windowed;
use capnp_stream_io::traits::{BufRead, Read};
use capnp_units::errors::Result;
use std::test::Fail;

/// A source that shows its bytes in two windows.
#[derive(Drop)]
struct TwoWindows<'a> {
    window: &'a [u8],
    next: &'a [u8],
}

impl<'a> Read for TwoWindows<'a> {
    ghost failures = { λ _. 0 };

    ghost refuses = { λ k. k ≡ ErrorKind.Device };

    fn read(&mut self, buf: &mut [u8]) -> Result<usize> {
        let all = self.window;
        let n = all.len().min(buf.len());
        buf[..n].copy_from_slice(&all[..n]);
        self.window = &all[n..];
        Ok(n)
    }

    fn failures(&self) -> u64 {
        0
    }
}

impl<'a> BufRead for TwoWindows<'a> {
    ghost shown = { λ s. length s.window.now };

    fn fill_buf(&mut self) -> Result<&[u8]> {
        if self.window.is_empty() {
            self.window = self.next;
            self.next = &[];
        }
        Ok(self.window)
    }

    fn consume(&mut self, amount: usize) {
        let all = self.window;
        self.window = &all[amount..];
    }

    ghost device_alone = { λ _ e. e };
}

impl<'a> Windowed for TwoWindows<'a> {
    ghost window = { λ s. s.window.now };

    fn window(&self) -> &[u8] {
        self.window
    }
}

/// Two frames of a null root.
const TWO: [u8; 32] = [
    0, 0, 0, 0, 1, 0, 0, 0, 0, 0, 0, 0, 0, 0, 0, 0, 0, 0, 0, 0, 1, 0, 0, 0, 0, 0, 0, 0, 0, 0, 0, 0,
];

/// The number of bytes that are written for each.
const WRITTEN: usize = 24;

#[test]
fn sinks_are_flushed_before_the_source_is_asked(rt: HostRuntime) -> std::result::Result<(), Fail> {
    let alloc = rt.alloc();
    // The output's flush fails: where it comes the run ends, so it shows when.
    let mut source = TwoWindows {
        window: &TWO[..16],
        next: &TWO[16..],
    };
    let mut out = Device::new(alloc, 1000, false);
    let mut log = Device::new(alloc, 1000, true);
    assert!(rt; set_a(alloc, &mut source, &mut out, &mut log)? == 1);
    assert!(rt; out.held.len() == WRITTEN);
    assert!(rt; source.next.len() == 16);
    assert!(rt; log.held.as_slice() == b"message 1 written; done\nfault: out\n".as_slice());
    // Then the log's.
    let mut source = TwoWindows {
        window: &TWO[..16],
        next: &TWO[16..],
    };
    let mut out = Device::new(alloc, 1000, true);
    let mut log = Device::new(alloc, 1000, false);
    assert!(rt; set_a(alloc, &mut source, &mut out, &mut log)? == 1);
    assert!(rt; source.next.len() == 16);
    assert!(rt; log.held.as_slice() == b"message 1 written; done\nfault: log\n".as_slice());
    Ok(())
}

#[test]
fn no_sink_is_flushed_while_bytes_are_shown(rt: HostRuntime) -> std::result::Result<(), Fail> {
    let alloc = rt.alloc();
    let mut source = TwoWindows {
        window: &TWO,
        next: &[],
    };
    let mut out = Device::new(alloc, 1000, false);
    let mut log = Device::new(alloc, 1000, true);
    assert!(rt; set_a(alloc, &mut source, &mut out, &mut log)? == 1);
    assert!(rt; out.held.len() == 2 * WRITTEN);
    assert!(rt;
        log.held.as_slice()
            == b"message 1 written; done\nmessage 2 written; done\nfault: out\n".as_slice()
    );
    Ok(())
}

#[test]
fn sinks_are_flushed_before_the_rest_of_a_message_is_asked_for(
    rt: HostRuntime,
) -> std::result::Result<(), Fail> {
    let alloc = rt.alloc();
    // Of the second message the source shows nothing, a part of the table, the table, and a part of
    // the segment.
    for shown in [16, 20, 24, 28] {
        let mut source = TwoWindows {
            window: &TWO[..shown],
            next: &TWO[shown..],
        };
        let mut out = Device::new(alloc, 1000, false);
        let mut log = Device::new(alloc, 1000, true);
        assert!(rt; set_a(alloc, &mut source, &mut out, &mut log)? == 1);
        assert!(rt; out.held.len() == WRITTEN);
        assert!(rt; source.window.len() == shown - 16);
        assert!(rt; log.held.as_slice() == b"message 1 written; done\nfault: out\n".as_slice());
    }
    Ok(())
}

#[test]
fn sinks_are_flushed_where_packed_words_may_be_longer(
    rt: HostRuntime,
) -> std::result::Result<(), Fail> {
    let alloc = rt.alloc();
    // Four messages of a null root, each a packed word in the table and one behind it. Ten bytes
    // suffice for a word, and as many are shown behind the tables of the first two.
    let mut source = [16, 1, 0, 0, 16, 1, 0, 0, 16, 1, 0, 0, 16, 1, 0, 0].as_slice();
    let mut out = Device::new(alloc, 1000, false);
    let mut log = Device::new(alloc, 1000, true);
    assert!(rt;
        run(
            alloc,
            "packed-framed",
            SET_A,
            &mut source,
            &mut out,
            &mut log
        )? == 1
    );
    assert!(rt; out.held.len() == 2 * WRITTEN);
    assert!(rt; source.len() == 8);
    Ok(())
}

#[test]
fn a_long_table_is_flushed_before(rt: HostRuntime) -> std::result::Result<(), Fail> {
    let alloc = rt.alloc();
    // 33 segments, of which the first has the root.
    let mut bytes = [0u8; 4 + 4 * 33 + 8];
    bytes[0] = 32;
    bytes[4] = 1;
    let mut source = bytes.as_slice();
    let mut out = Device::new(alloc, 1000, false);
    let mut log = Device::new(alloc, 1000, true);
    assert!(rt; set_a(alloc, &mut source, &mut out, &mut log)? == 1);
    assert!(rt; out.held.is_empty());
    assert!(rt; log.held.as_slice() == b"fault: out\n".as_slice());
    Ok(())
}
