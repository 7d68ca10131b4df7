//! Errors show their kind.

use capnp_units::errors::{Error, Result};
use capnp_units::kinds::ErrorKind;
use std::alloc::{AllocError, Global};
use std::test::Fail;

fn pushed(alloc: Global, byte: u8) -> Result<usize> {
    let mut bytes = Vec::new(alloc);
    bytes.push(byte)?;
    Ok(bytes.len())
}

fn refused(kind: ErrorKind) -> Result<usize> {
    Err(kind)?
}

#[test]
fn errors_show_their_kind(rt: HostRuntime) -> std::result::Result<(), Fail> {
    let error = refused(ErrorKind::PrematureEndOfFile)
        .err()
        .ok_or("refused")?;
    let text = format!(in rt.alloc(); "fault: framing {error}, {}", ErrorKind::Device)?;
    assert!(rt; text.as_str() == "fault: framing PrematureEndOfFile, Device");
    assert!(rt; error == Error::from(ErrorKind::PrematureEndOfFile));
    assert!(rt; Error::from(AllocError).kind == ErrorKind::OutOfMemory);
    assert!(rt; pushed(rt.alloc(), 7)? == 1);
    Ok(())
}
