//! The whole program over streams that are whole, cut or fail.

use crate::devices::{Broken, Device};
use crate::samples::{SEVEN, run, set_a};
use capnp_relay_program::program::program;
use capnp_relay_program::usage::USAGE;
use std::test::Fail;

/// A message whose root is null, and the first half of a table.
const CUT: [u8; 20] = [0, 0, 0, 0, 1, 0, 0, 0, 0, 0, 0, 0, 0, 0, 0, 0, 0, 0, 0, 0];

/// A calls file with no call, within no word.
const NO_WORDS: &str = "{\"calls\":[],\"words\":0}";

/// Room for every run here.
const ROOM: usize = 1000;

#[test]
fn a_failing_source_is_told(rt: HostRuntime) -> Result<(), Fail> {
    let alloc = rt.alloc();
    let mut out = Device::new(alloc, ROOM, true);
    let mut log = Device::new(alloc, ROOM, true);
    let mut source = Broken { failures: 0 };
    assert!(rt; set_a(alloc, &mut source, &mut out, &mut log)? == 1);
    assert!(rt; out.held.is_empty());
    assert!(rt; log.held.as_slice() == b"fault: source\n".as_slice());
    Ok(())
}

#[test]
fn a_failing_output_is_told(rt: HostRuntime) -> Result<(), Fail> {
    let alloc = rt.alloc();
    for n in 0..SEVEN.len() {
        let mut out = Device::new(alloc, n, true);
        let mut log = Device::new(alloc, ROOM, true);
        assert!(rt; set_a(alloc, &mut CUT.as_slice(), &mut out, &mut log)? == 1);
        assert!(rt; out.held.as_slice() == &SEVEN[..n]);
        assert!(rt; log.held.as_slice() == b"fault: out\n".as_slice());
    }
    Ok(())
}

#[test]
fn a_failing_flush_of_the_output_is_told(rt: HostRuntime) -> Result<(), Fail> {
    let alloc = rt.alloc();
    let mut out = Device::new(alloc, ROOM, false);
    let mut log = Device::new(alloc, ROOM, true);
    assert!(rt; set_a(alloc, &mut &CUT[..16], &mut out, &mut log)? == 1);
    assert!(rt; log.held.as_slice() == b"message 1 written; done\nfault: out\n".as_slice());
    // So it is before the rest of a message is asked for.
    let mut log = Device::new(alloc, ROOM, true);
    assert!(rt; set_a(alloc, &mut &CUT[16..], &mut out, &mut log)? == 1);
    assert!(rt; log.held.as_slice() == b"fault: out\n".as_slice());
    // A fault of the run itself goes before that of a flush behind it.
    let mut log = Device::new(alloc, ROOM, true);
    let status = run(
        alloc,
        "framed",
        NO_WORDS,
        &mut &CUT[..16],
        &mut out,
        &mut log,
    )?;
    assert!(rt; status == 1);
    assert!(rt; log.held.as_slice() == b"fault: framing MessageTooLarge\n".as_slice());
    Ok(())
}

#[test]
fn a_failing_log_has_status_one(rt: HostRuntime) -> Result<(), Fail> {
    let alloc = rt.alloc();
    let mut out = Device::new(alloc, ROOM, true);
    let mut log = Device::new(alloc, 8, true);
    assert!(rt; set_a(alloc, &mut &CUT[..16], &mut out, &mut log)? == 1);
    assert!(rt; out.held.as_slice() == SEVEN.as_slice());
    assert!(rt; log.held.as_slice() == b"message ".as_slice());
    // A log that only fails at its flush still gets the line.
    let mut log = Device::new(alloc, ROOM, false);
    assert!(rt; set_a(alloc, &mut &CUT[..16], &mut out, &mut log)? == 1);
    assert!(rt; log.held.as_slice() == b"message 1 written; done\nfault: log\n".as_slice());
    Ok(())
}

#[test]
fn help_is_told_on_the_output(rt: HostRuntime) -> Result<(), Fail> {
    let alloc = rt.alloc();
    let mut words = Vec::new(alloc);
    words.push(String::from_str(alloc, "--help")?)?;
    let mut source = CUT.as_slice();
    let mut out = Vec::new(alloc);
    let mut log = Vec::new(alloc);
    let status = program(
        alloc,
        &words,
        None,
        None,
        None,
        None,
        &mut source,
        &mut out,
        &mut log,
    );
    assert!(rt; status == 1);
    assert!(rt; source.len() == CUT.len());
    assert!(rt; out.as_slice() == USAGE.as_bytes());
    assert!(rt; log.as_slice() == b"fault: arguments\n".as_slice());
    Ok(())
}
