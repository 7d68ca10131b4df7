//! Runs of `relay` over streams that fail, need memory or are too short.

use crate::samples::{EMPTY, NO_CALLS, NULL, SET_A, SEVEN, relayed};
use capnp_relay_loop::ends::{Counts, Fault, RelayFault};
use std::alloc::{AllocError, Global};
use std::test::Fail;
use test_support::{Drip, Short};

/// A message of a capability.
const CAPABILITY: [u8; 16] = [0, 0, 0, 0, 1, 0, 0, 0, 3, 0, 0, 0, 0, 0, 0, 0];

/// The log for this message, if it is the first, and for a null root after it.
const FIRST: &[u8] = b"message 1 refused: value\n";

const BOTH: &[u8] = b"message 1 refused: value\nmessage 2 written\n";

fn fault(fault: Fault, written: u64, refused: u64) -> Result<Counts, RelayFault> {
    Err(RelayFault {
        fault,
        counts: Counts { written, refused },
    })
}

/// Returns a capability and a null root, n times.
fn two(alloc: Global, times: usize) -> Result<Vec<u8>, AllocError> {
    let mut bytes = Vec::new(alloc);
    for _ in 0..times {
        bytes.extend_from_slice(&CAPABILITY)?;
        bytes.extend_from_slice(&NULL)?;
    }
    Ok(bytes)
}

#[test]
fn a_failed_read_is_no_end(rt: HostRuntime) -> Result<(), Fail> {
    let alloc = rt.alloc();
    let bytes = two(alloc, 2)?;
    let whole: &[u8] =
        b"message 1 refused: value\nmessage 2 written\nmessage 3 refused: value\nmessage 4 written\n";
    for n in 0..=64usize {
        let mut out = Vec::new(alloc);
        let mut log = Vec::new(alloc);
        let mut source = Drip::new(&bytes, n);
        let end = relayed(alloc, "framed", NO_CALLS, &mut source, &mut out, &mut log)?;
        let (written, refused) = (n / 32, (n + 16) / 32);
        assert!(rt; end == fault(Fault::Source, written as u64, refused as u64));
        let lines = 18 * written + 25 * refused;
        assert!(rt; Some(log.as_slice()) == whole.get(..lines));
        assert!(rt; out.len() == 16 * written);
        assert!(rt;
            out.as_slice()
                .chunks(16)
                .all(|frame| frame == EMPTY.as_slice())
        );
    }
    Ok(())
}

#[test]
fn a_failed_output_ends_a_run(rt: HostRuntime) -> Result<(), Fail> {
    let alloc = rt.alloc();
    for n in 0..SEVEN.len() {
        let mut out = Short::new(alloc, n, false);
        let mut log = Vec::new(alloc);
        let mut source = NULL.as_slice();
        let end = relayed(alloc, "framed", SET_A, &mut source, &mut out, &mut log)?;
        assert!(rt; end == fault(Fault::Out, 0, 0));
        assert!(rt; out.held() == &SEVEN[..n]);
        assert!(rt; log.is_empty());
    }
    // The message behind isn't read.
    let mut out = Short::new(alloc, 0, false);
    let mut log = Vec::new(alloc);
    let mut twice = Vec::from_slice(alloc, &NULL)?;
    twice.extend_from_slice(&NULL)?;
    let mut source = twice.as_slice();
    let end = relayed(alloc, "framed", NO_CALLS, &mut source, &mut out, &mut log)?;
    assert!(rt; end == fault(Fault::Out, 0, 0));
    assert!(rt; source.len() == 16);
    Ok(())
}

#[test]
fn a_failed_log_ends_a_run(rt: HostRuntime) -> Result<(), Fail> {
    let alloc = rt.alloc();
    let mut out = Vec::new(alloc);
    let mut log = Short::new(alloc, 0, false);
    let mut source = NULL.as_slice();
    let end = relayed(alloc, "framed", SET_A, &mut source, &mut out, &mut log)?;
    assert!(rt; end == fault(Fault::Log, 1, 0));
    assert!(rt; out.as_slice() == SEVEN.as_slice());
    let bytes = two(alloc, 1)?;
    for n in 0..BOTH.len() {
        let mut out = Vec::new(alloc);
        let mut log = Short::new(alloc, n, false);
        let mut source = bytes.as_slice();
        let end = relayed(alloc, "framed", NO_CALLS, &mut source, &mut out, &mut log)?;
        let whole = n >= FIRST.len();
        let count = whole as u64;
        assert!(rt; end == fault(Fault::Log, count, count));
        assert!(rt; out.as_slice() == if whole { EMPTY.as_slice() } else { &[] });
        assert!(rt; log.held() == &BOTH[..n]);
    }
    Ok(())
}

#[test]
fn a_short_slice_is_a_fault_of_the_output(rt: HostRuntime) -> Result<(), Fail> {
    let alloc = rt.alloc();
    let bytes = two(alloc, 1)?;
    let mut room = [0u8; 15];
    let mut log = Vec::new(alloc);
    let mut out = room.as_mut_slice();
    let mut source = bytes.as_slice();
    let end = relayed(alloc, "framed", NO_CALLS, &mut source, &mut out, &mut log)?;
    assert!(rt; end == fault(Fault::Out, 0, 1));
    assert!(rt; log.as_slice() == FIRST);
    Ok(())
}

#[test]
fn a_sink_that_wants_memory_ends_a_run(rt: HostRuntime) -> Result<(), Fail> {
    let alloc = rt.alloc();
    let bytes = two(alloc, 1)?;
    let mut out = Short::new(alloc, 8, true);
    let mut log = Vec::new(alloc);
    let mut source = bytes.as_slice();
    let end = relayed(alloc, "framed", NO_CALLS, &mut source, &mut out, &mut log)?;
    assert!(rt; end == fault(Fault::Memory, 0, 1));
    assert!(rt; log.as_slice() == FIRST);
    let mut out = Vec::new(alloc);
    let mut log = Short::new(alloc, FIRST.len(), true);
    let mut source = bytes.as_slice();
    let end = relayed(alloc, "framed", NO_CALLS, &mut source, &mut out, &mut log)?;
    assert!(rt; end == fault(Fault::Memory, 1, 1));
    assert!(rt; log.held() == FIRST);
    Ok(())
}
