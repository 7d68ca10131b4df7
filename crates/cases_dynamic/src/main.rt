//! Compares calls of dynamic values, queries of schemas and printed texts with what they should be.
//!
//! The files that are given are read line by line; the README explains the lines. The answers come
//! from independent software, or were worked out by hand.
#![tactic(auto)]

mod answers;
mod asked;
mod cases;
mod fault;
mod messages;
mod queries;
mod readers;
mod room;
mod schemas;
mod scripts;
mod steps;
mod values;
mod verbs;
mod wholes;

use cases::{Counts, count};
use std::process::ExitCode;
use std::{env, fs, io};

/// Prints the counts of a file. Returns whether no case differs, and there is at least one.
fn report(rt: &HostRuntime, name: &str, counts: &Counts) -> io::Result<bool> {
    let Counts { same, differing } = counts;
    println!(rt;
        "{name}: {same} cases are as they should be, {} differ",
        differing.len()
    )?;
    for line in differing {
        println!(rt; "the case that ends at line {line} differs")?;
    }
    Ok(differing.is_empty() && *same > 0)
}

/// Compares the cases of a file.
fn compare(rt: &HostRuntime, name: &str) -> io::Result<bool> {
    let text = fs::read_to_string(rt, name)?;
    match count(rt.alloc(), text.as_str()) {
        Ok(counts) => report(rt, name, &counts),
        Err(fault) => {
            println!(rt; "{name}: {fault}")?;
            Ok(false)
        }
    }
}

/// Compares the cases of all files that are named.
fn run(rt: &HostRuntime) -> io::Result<bool> {
    let mut is_right = true;
    for name in env::args(rt)?.skip(1) {
        if !compare(rt, name.as_str())? {
            is_right = false;
        }
    }
    Ok(is_right)
}

fn main(rt: HostRuntime) -> ExitCode {
    match run(&rt) {
        Ok(true) => ExitCode::SUCCESS,
        _ => ExitCode::FAILURE,
    }
}
