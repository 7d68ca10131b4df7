//! The subcommand `hagzimot version`: the version, and what was proved of the program.

use crate::faults::Failure;
use crate::reports::print_line;
use clap::ArgMatches;
use std::{env, fs, io};

/// The version of this release. Every other place that has the version is made from this line or
/// compared with it.
pub static VERSION: &str = "0.2.0";

/// The places of the statement, seen from the folder of the program: beside it, and the folder into
/// which it is installed.
static PLACES: [&str; 2] = [
    "hagzimot.proof.json",
    "../share/hagzimot/hagzimot.proof.json",
];

/// Prints the version, or with `--proof` the statement of what was proved of this build.
pub fn version(rt: &HostRuntime, matches: &ArgMatches<'_>) -> Result<u8, Failure> {
    if matches.get_flag("proof") {
        return print_statement(rt);
    }
    let line = format!(in rt.alloc(); "hagzimot {VERSION}")?;
    print_line(rt, line.as_str())?;
    Ok(0)
}

/// Prints the first statement that is there.
fn print_statement(rt: &HostRuntime) -> Result<u8, Failure> {
    let alloc = rt.alloc();
    let program = match env::current_exe(rt) {
        Ok(path) => path,
        Err(why) => return Err(Failure::file(alloc, "/proc/self/exe", why)),
    };
    if let Some(folder) = program.parent() {
        for place in PLACES.iter() {
            let path = folder.join(alloc, *place)?;
            match fs::read_to_string(rt, path.as_str()) {
                Ok(text) => {
                    print_line(rt, text.as_str().trim_end())?;
                    return Ok(0);
                }
                Err(why) if why.kind() == io::ErrorKind::NotFound => {}
                Err(why) => return Err(Failure::file(alloc, path.as_str(), why)),
            }
        }
    }
    let text =
        "hagzimot.proof.json: it isn't beside the program or in ../share/hagzimot (./install writes it)";
    Err(Failure::Text(String::from_str(alloc, text)?))
}
