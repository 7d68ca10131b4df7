//! Compares runs of the relay's program, and calls of its library, with the results they should
//! give.
//!
//! Each line of the files that are given is a JSON object, a case. README lists its members.
#![tactic(auto)]

mod answers;
mod breaks;
mod case;
mod given;
mod plain;
mod relays;
mod runs;
mod sources;

use case::{Case, Fault};
use std::alloc::Global;
use std::process::ExitCode;
use std::{env, fs, io};

/// The number of cases that are as they should be, and a report on each case that differs.
#[derive(Drop)]
struct Counts {
    same: u64,
    differing: Vec<String>,
}

/// Returns the answer of a call of the library.
fn answer(alloc: Global, call: &str, case: &Case) -> Result<String, Fault> {
    match call {
        "show" => answers::shown(alloc, case),
        "compatible" => answers::compatibility(alloc, case),
        "first_break" => breaks::first(alloc, case),
        "all_breaks" => breaks::all(alloc, case),
        "admitted" => answers::admission(alloc, case),
        "calls" => answers::made_calls(alloc, case),
        "schema_file" => answers::schema_text(alloc, case),
        "calls_file" => answers::calls_text(alloc, case),
        "renames_file" => answers::renames_text(alloc, case),
        "message" => answers::message_words(alloc, case),
        "plain_sets" => answers::words_after_sets(alloc, case),
        "splices" => answers::words_after_splices(alloc, case),
        _ => Err(Fault::Shape),
    }
}

/// Returns the difference in a case, if any.
fn difference(alloc: Global, case: &Case) -> Result<Option<String>, Fault> {
    if !case.has("call") {
        return runs::difference(alloc, case);
    }
    let call = case.text("call")?;
    if call == "relay" {
        return relays::difference(alloc, case);
    }
    let answer = answer(alloc, call, case)?;
    if answer.as_str() == case.text("answer")? {
        Ok(None)
    } else {
        Ok(Some(answer))
    }
}

/// Returns the difference in the case of a line, if any.
fn difference_in(alloc: Global, line: &str) -> Result<Option<String>, Fault> {
    let told = match Case::new(alloc, line) {
        Ok(case) => difference(alloc, &case),
        Err(fault) => Err(fault),
    };
    match told {
        Err(Fault::Shape) => Ok(Some(String::from_str(alloc, "this is no case")?)),
        told => told,
    }
}

fn count(alloc: Global, text: &str) -> Result<Counts, Fault> {
    let mut counts = Counts {
        same: 0,
        differing: Vec::new(alloc),
    };
    let mut number: u64 = 0;
    for line in text.lines() {
        number = number.saturating_add(1);
        match difference_in(alloc, line)? {
            None => counts.same = counts.same.saturating_add(1),
            Some(told) => {
                let told = format!(in alloc; "line {number}: {}", told.as_str())?;
                counts.differing.push(told)?;
            }
        }
    }
    Ok(counts)
}

/// Prints the counts. Returns whether no case differs, and there are some.
fn report(rt: &HostRuntime, name: &str, counts: &Counts) -> io::Result<bool> {
    let Counts { same, differing } = counts;
    println!(rt;
        "{name}: {same} cases are as they should be, {} differ",
        differing.len()
    )?;
    for line in differing {
        println!(rt; "{}", line.as_str())?;
    }
    Ok(differing.is_empty() && *same > 0)
}

/// Returns whether all cases of a file are as they should be.
fn compare(rt: &HostRuntime, name: &str) -> io::Result<bool> {
    let text = fs::read_to_string(rt, name)?;
    match count(rt.alloc(), text.as_str()) {
        Ok(counts) => report(rt, name, &counts),
        Err(fault) => {
            println!(rt; "{name}: {fault}")?;
            Ok(false)
        }
    }
}

fn run(rt: &HostRuntime) -> io::Result<ExitCode> {
    let mut files: u64 = 0;
    let mut are_same = true;
    for name in env::args(rt)?.skip(1) {
        files = files.saturating_add(1);
        are_same &= compare(rt, name.as_str())?;
    }
    if are_same && files > 0 {
        Ok(ExitCode::SUCCESS)
    } else {
        Ok(ExitCode::FAILURE)
    }
}

fn main(rt: HostRuntime) -> ExitCode {
    match run(&rt) {
        Ok(code) => code,
        Err(_) => ExitCode::FAILURE,
    }
}
