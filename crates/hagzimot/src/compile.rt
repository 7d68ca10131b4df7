//! `hagzimot compile` and `hagzimot id`.

use crate::faults::Failure;
use crate::files::Output;
use crate::outputs::{Outputs, check_apart};
use crate::reports::print_line;
use crate::schema_sources::request_of;
use crate::words;
use clap::ArgMatches;
use hagzimot_sources::sources::Asked;
use std::alloc::Global;
use std::io::Write;
use std::random::RandomSource;
use std::rc::Rc;

/// The sources that words name.
fn asked_sources(rt: &HostRuntime, names: Vec<String>) -> Result<Vec<Asked>, Failure> {
    let mut asked = Vec::new(rt.alloc());
    for name in names {
        if name.as_str() == "-" {
            asked.push(Asked::Standard(words::read_standard_input(rt)?))?;
        } else {
            asked.push(Asked::Named(name))?;
        }
    }
    Ok(asked)
}

/// Writes bytes to the output of messages.
fn write_request(alloc: Global, outputs: &Outputs, bytes: &[u8]) -> Result<(), Failure> {
    let mut output = Output::Kept(Rc::clone(&outputs.messages)?);
    match output.write_all(bytes) {
        Ok(()) => outputs.commit(alloc),
        Err(_) => {
            let failure = outputs.messages.failure(alloc);
            outputs.discard();
            Err(failure)
        }
    }
}

/// `hagzimot compile`: sources as the request that the compiler hands to plugins.
pub fn compile(rt: &HostRuntime, matches: &ArgMatches<'_>) -> Result<u8, Failure> {
    let alloc = rt.alloc();
    let names = words::inputs(alloc, matches)?;
    check_apart(rt, matches, &names)?;
    let asked = asked_sources(rt, names)?;
    let request = request_of(rt, matches, asked)?;
    let outputs = Outputs::open(rt, matches, &[])?;
    write_request(alloc, &outputs, &request)?;
    Ok(0)
}

/// The bit that each id has.
const TOP: u64 = 1 << 63;

/// `hagzimot id`: an id of random bits for a file.
pub fn id(rt: &HostRuntime) -> Result<u8, Failure> {
    let mut bytes = [0; 8];
    if let Err(why) = rt.fill_bytes(&mut bytes) {
        return Err(Failure::about(rt.alloc(), "id", &why));
    }
    let id = u64::from_le_bytes(bytes) | TOP;
    let line = format!(in rt.alloc(); "@0x{id:016x};")?;
    print_line(rt, line.as_str())?;
    Ok(0)
}
