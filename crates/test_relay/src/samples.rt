//! The schema of a struct of one data word and one pointer with the number `a` and the text `t`,
//! and runs at it.

use capnp_relay_loop::ends::{Counts, RelayFault};
use capnp_relay_program::program::program;
use capnp_relay_program::settings::Settings;
use capnp_relay_program::sinks::Flush;
use capnp_relay_program::sources::Windowed;
use capnp_relay_program::version::Version;
use capnp_relay_streams::relay::relay;
use capnp_stream_io::traits::{BufRead, Write};
use std::alloc::{AllocError, Global};
use std::test::Fail;

/// Its schema file.
pub(crate) const SCHEMA: &str =
    "[{\"id\":1,\"name\":\"P\",\"data\":1,\"pointers\":1,\"fields\":[{\"name\":\"a\",\"type\":\"UInt16\",\"offset\":0},{\"name\":\"t\",\"type\":\"Text\",\"offset\":0}]}]";

/// A calls file: `set a = 7`, within 1000 words.
pub(crate) const SET_A: &str =
    "{\"calls\":[{\"path\":[\"a\"],\"verb\":\"set\",\"value\":{\"number\":7}}],\"words\":1000}";

/// A calls file without calls, within 1000 words.
pub(crate) const NO_CALLS: &str = "{\"calls\":[],\"words\":1000}";

/// A frame of a null root.
pub(crate) const NULL: [u8; 16] = [0, 0, 0, 0, 1, 0, 0, 0, 0, 0, 0, 0, 0, 0, 0, 0];

/// The output for this frame without calls.
pub(crate) const EMPTY: [u8; 16] = [0, 0, 0, 0, 1, 0, 0, 0, 0xfc, 0xff, 0xff, 0xff, 0, 0, 0, 0];

/// The output for this frame if `a` is set to 7.
pub(crate) const SEVEN: [u8; 24] = [
    0, 0, 0, 0, 2, 0, 0, 0, 0, 0, 0, 0, 1, 0, 0, 0, 7, 0, 0, 0, 0, 0, 0, 0,
];

/// Returns the arguments of a run in a form.
fn words_in(alloc: Global, form: &str) -> Result<Vec<String>, AllocError> {
    let mut words = Vec::new(alloc);
    for word in ["p.json", "c.json", "1", form] {
        words.push(String::from_str(alloc, word)?)?;
    }
    Ok(words)
}

/// Returns the status of a run of the program in this form with this calls file.
pub(crate) fn run<R: Windowed, W: Flush, L: Flush>(
    alloc: Global,
    form: &str,
    calls: &str,
    source: &mut R,
    out: &mut W,
    log: &mut L,
) -> Result<u8, AllocError> {
    let words = words_in(alloc, form)?;
    let schema = Some(SCHEMA.as_bytes());
    let calls = Some(calls.as_bytes());
    Ok(program(alloc, &words, schema, calls, None, None, source, out, log))
}

/// Returns the status of a framed run with the call `set a = 7`.
pub(crate) fn set_a<R: Windowed, W: Flush, L: Flush>(
    alloc: Global,
    source: &mut R,
    out: &mut W,
    log: &mut L,
) -> Result<u8, AllocError> {
    run(alloc, "framed", SET_A, source, out, log)
}

/// Returns the end of `relay` in this form with this calls file. The region isn't zero before, and
/// has to be zero after.
pub(crate) fn relayed<R: BufRead, W: Write, L: Write>(
    alloc: Global,
    form: &str,
    calls: &str,
    source: &mut R,
    out: &mut W,
    log: &mut L,
) -> Result<Result<Counts, RelayFault>, Fail> {
    let words = words_in(alloc, form)?;
    let schema = Some(SCHEMA.as_bytes());
    let Ok(settings) = Settings::new(alloc, &words, schema, Some(calls.as_bytes()), None, None)
    else {
        return Err(Fail::from("the run is refused"));
    };
    let Ok(version) = Version::new(alloc, schema, 1) else {
        return Err(Fail::from("the schema is refused"));
    };
    let root = version.root();
    let options = settings.options;
    let mut region = vec![in alloc; 0xffu8; options.region_len()]?;
    let calls = settings.calls.as_slice();
    let end = relay(alloc, source, out, log, root, calls, options, &mut region);
    if region.as_slice().iter().any(|byte| *byte != 0) {
        return Err(Fail::from("the region is left dirty"));
    }
    Ok(end)
}
