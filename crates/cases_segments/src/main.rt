//! Compares the answers of readers and streams for given bytes with the answers they should give.
//!
//! Each line of the files that are named is a case; the README describes how cases are written.
#![tactic(auto)]

mod cases;
mod lists;
mod machine;
mod messages;
mod pointers;
mod readings;
mod records;
mod seen;
mod steps;
mod streams;
mod words;
mod writes;

use cases::is_as_it_should_be;
use std::alloc::{AllocError, Global};
use std::process::ExitCode;
use std::{env, fs, io};

/// The number of cases that are as they should be, and the lines of those that differ.
#[derive(Drop)]
struct Counts {
    same: u64,
    differing: Vec<u64>,
}

fn count(alloc: Global, text: &str) -> Result<Counts, AllocError> {
    let mut counts = Counts {
        same: 0,
        differing: Vec::new(alloc),
    };
    let mut number: u64 = 0;
    for line in text.lines() {
        number = number.saturating_add(1);
        if line.is_empty() || line.starts_with('#') {
            continue;
        }
        if is_as_it_should_be(alloc, line)? {
            counts.same = counts.same.saturating_add(1);
        } else {
            counts.differing.push(number)?;
        }
    }
    Ok(counts)
}

/// Prints the counts of a file. Returns whether no case differs, and there is at least one.
fn report(rt: &HostRuntime, name: &str, counts: &Counts) -> io::Result<bool> {
    let Counts { same, differing } = counts;
    println!(rt; "{name}: {same} cases are as they should be")?;
    for line in differing {
        println!(rt; "{name}: the case of line {line} differs")?;
    }
    println!(rt; "{name}: {} cases differ", differing.len())?;
    Ok(differing.is_empty() && *same > 0)
}

/// Compares the cases of a file.
fn compare(rt: &HostRuntime, name: &str) -> io::Result<bool> {
    let text = fs::read_to_string(rt, name)?;
    match count(rt.alloc(), text.as_str()) {
        Ok(counts) => report(rt, name, &counts),
        Err(_) => {
            println!(rt; "out of memory")?;
            Ok(false)
        }
    }
}

/// Compares the cases of each file that is named; the status is 0 if none differs.
fn run(rt: &HostRuntime) -> io::Result<ExitCode> {
    let mut is_any = false;
    let mut is_all = true;
    for name in env::args(rt)?.skip(1) {
        is_any = true;
        if !compare(rt, name.as_str())? {
            is_all = false;
        }
    }
    if is_any && is_all {
        Ok(ExitCode::SUCCESS)
    } else {
        Ok(ExitCode::FAILURE)
    }
}

fn main(rt: HostRuntime) -> ExitCode {
    match run(&rt) {
        Ok(code) => code,
        Err(_) => ExitCode::FAILURE,
    }
}
