//! Runs of `relay`, `relay_between` and `relay_between_with`, over a region that isn't zero.

use crate::case::{Case, Fault};
use crate::given::{Given, Left};
use crate::sources::OneByOne;
use capnp_relay_loop::ends::{Counts, RelayFault};
use capnp_relay_streams::between::{BetweenFault, relay_between, relay_between_with};
use capnp_relay_streams::relay::relay;
use capnp_stream_io::traits::BufRead;
use std::alloc::Global;

/// The bytes of the region before a run.
const DIRT: u8 = 0xff;

/// Describes the end of `relay`.
fn end_of(alloc: Global, end: &Result<Counts, RelayFault>) -> Result<String, Fault> {
    let Counts { written, refused } = match end {
        Ok(counts) => *counts,
        Err(fault) => fault.counts,
    };
    match end {
        Ok(_) => Ok(format!(in alloc; "written {written}, refused {refused}")?),
        Err(fault) => Ok(format!(in alloc; "{fault}, written {written}, refused {refused}")?),
    }
}

/// Describes the end of a run. Reports a region that isn't zero afterwards, or isn't as it was if
/// the run didn't begin.
fn checked(
    alloc: Global,
    end: Result<Counts, BetweenFault>,
    region: &[u8],
) -> Result<String, Fault> {
    let (text, wanted) = match end {
        Ok(counts) => (end_of(alloc, &Ok(counts))?, 0),
        Err(BetweenFault::Relay(fault)) => (end_of(alloc, &Err(fault))?, 0),
        Err(fault) => (format!(in alloc; "{fault}")?, DIRT),
    };
    if region.iter().all(|byte| *byte == wanted) {
        Ok(text)
    } else {
        Ok(format!(in alloc; "{text}, but the region has other bytes")?)
    }
}

/// Describes the end of a run of `relay`, of `relay_between` if there is a newer schema, or of
/// `relay_between_with` if fields are renamed.
fn ended<R: BufRead>(
    alloc: Global,
    given: &Given,
    source: &mut R,
    out: &mut Vec<u8>,
    log: &mut Vec<u8>,
) -> Result<String, Fault> {
    let settings = given.settings(alloc)?;
    let version = given.older(alloc)?;
    let root = version.root();
    let calls = settings.calls.as_slice();
    let options = settings.options;
    let mut region = vec![in alloc; DIRT; options.region_len()]?;
    if given.newer.is_none() {
        let end = match relay(alloc, source, out, log, root, calls, options, &mut region) {
            Ok(counts) => Ok(counts),
            Err(fault) => Err(BetweenFault::Relay(fault)),
        };
        return checked(alloc, end, &region);
    }
    let newer = given.newer(alloc)?;
    let newer = newer.root();
    let end = if given.renames.is_some() {
        let renamings = &settings.renamings;
        relay_between_with(
            alloc,
            source,
            out,
            log,
            root,
            newer,
            renamings,
            calls,
            options,
            &mut region,
        )
    } else {
        relay_between(
            alloc,
            source,
            out,
            log,
            root,
            newer,
            calls,
            options,
            &mut region,
        )
    };
    checked(alloc, end, &region)
}

/// Returns the results of a run, except the number of unread bytes.
fn left_of<R: BufRead>(alloc: Global, given: &Given, source: &mut R) -> Result<Left, Fault> {
    let mut out = Vec::new(alloc);
    let mut log = Vec::new(alloc);
    let end = ended(alloc, given, source, &mut out, &mut log)?;
    Ok(Left {
        end,
        out,
        log,
        unread: 0,
    })
}

/// Returns the difference in a run of the relay, if any, with its input shown at once and one byte
/// at a time.
pub fn difference(alloc: Global, case: &Case) -> Result<Option<String>, Fault> {
    let given = Given::new(alloc, case)?;
    let input = case.bytes(alloc, "stdin")?;
    let mut source = input.as_slice();
    let mut left = left_of(alloc, &given, &mut source)?;
    left.unread = source.len();
    if let Some(difference) = left.difference(alloc, &given, case)? {
        return Ok(Some(difference));
    }
    let mut source = OneByOne::new(&input);
    let mut left = left_of(alloc, &given, &mut source)?;
    left.unread = source.left();
    left.difference(alloc, &given, case)
}
