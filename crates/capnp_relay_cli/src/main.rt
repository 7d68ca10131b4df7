//! Relays Cap'n Proto messages from standard input to standard output, with the log on standard
//! error.
//!
//! The arguments name a schema file, a calls file, the root's node and the form of the messages;
//! `--help` says more. A fault is the last line on standard error, and makes the status 1.
#![tactic(auto)]

use capnp_relay_program::program::program;
use capnp_stream_io::adapters::{Sink, Source};
use std::process::ExitCode;
use std::{env, fs, io};

/// Reports why the program didn't begin: an argument is not UTF-8, or otherwise lack of memory.
fn tell(rt: &impl Eprint, e: &io::Error) -> io::Result<()> {
    match e.kind() {
        io::ErrorKind::InvalidData => eprintln!(rt; "fault: arguments"),
        _ => eprintln!(rt; "fault: memory"),
    }
}

/// Returns the arguments after the program's name. `InvalidData`: an argument is not UTF-8, or the
/// name is not.
fn words(rt: &HostRuntime) -> io::Result<Vec<String>> {
    let mut words = env::args(rt)?;
    let _name = words.next();
    Ok(words.collect(rt.alloc())?)
}

/// Reads the file that an argument names; `None` if no argument names one, or if it can't be read.
fn file(rt: &HostRuntime, words: &[String], place: usize) -> io::Result<Option<Vec<u8>>> {
    let Some(name) = words.get(place) else {
        return Ok(None);
    };
    match fs::read(rt, name.as_str()) {
        Ok(bytes) => Ok(Some(bytes)),
        Err(e) if e.kind() == io::ErrorKind::OutOfMemory => Err(e),
        Err(_) => Ok(None),
    }
}

/// Returns the status of the program over the files that the arguments name; an error if an
/// argument is not UTF-8 or memory is lacking.
fn run(rt: &HostRuntime) -> io::Result<u8> {
    let alloc = rt.alloc();
    let words = words(rt)?;
    let schema = file(rt, &words, 0)?;
    let calls = file(rt, &words, 1)?;
    let newer = file(rt, &words, 4)?;
    let renames = file(rt, &words, 5)?;
    let source = Source::new(alloc, rt.stdin());
    let out = Sink::buffered(alloc, rt.stdout());
    let log = Sink::buffered(alloc, rt.stderr());
    let (Ok(mut source), Ok(mut out), Ok(mut log)) = (source, out, log) else {
        return Err(io::Error::from(io::ErrorKind::OutOfMemory));
    };
    Ok(program(
        alloc,
        &words,
        schema.as_deref(),
        calls.as_deref(),
        newer.as_deref(),
        renames.as_deref(),
        &mut source,
        &mut out,
        &mut log,
    ))
}

fn main(rt: HostRuntime) -> ExitCode {
    match run(&rt) {
        Ok(0) => ExitCode::SUCCESS,
        Ok(_) => ExitCode::FAILURE,
        Err(e) => {
            // Where standard error is closed there is nowhere to say so.
            let _said = tell(&rt, &e);
            ExitCode::FAILURE
        }
    }
}
