//! Reads, writes and relays over devices that fail at each byte, and compares the answers and what
//! is left with what they should be.
//!
//! Each argument names a case; README.md lists the cases.
#![tactic(auto)]

mod devices;
mod messages;
mod readings;
mod relays;
mod rows;
mod writings;

use devices::Fault;
use std::alloc::Global;
use std::process::ExitCode;
use std::{env, io};

/// Returns the number of byte counts at which a device failed in the case of a name, each as it
/// should be.
fn faults(alloc: Global, name: &str) -> Result<usize, Fault> {
    if let Some(count) = writings::faults(alloc, name)? {
        return Ok(count);
    }
    if let Some(count) = relays::faults(alloc, name)? {
        return Ok(count);
    }
    readings::faults(alloc, name)?.ok_or(Fault::Memory)
}

/// Prints how often devices failed in each case. Returns whether each case is as it should be, and
/// there is at least one.
fn run(rt: &HostRuntime) -> io::Result<bool> {
    let mut are_good = true;
    let mut all: usize = 0;
    for name in env::args(rt)?.skip(1) {
        match faults(rt.alloc(), name.as_str()) {
            Ok(count) => {
                println!(rt; "{}: devices failed {count} times", name.as_str())?;
                all = all.saturating_add(count);
                are_good &= count > 0;
            }
            Err(fault) => {
                println!(rt; "{}: {fault}", name.as_str())?;
                are_good = false;
            }
        }
    }
    println!(rt; "in all {all} times")?;
    Ok(are_good && all > 0)
}

fn main(rt: HostRuntime) -> ExitCode {
    match run(&rt) {
        Ok(true) => ExitCode::SUCCESS,
        _ => ExitCode::FAILURE,
    }
}
