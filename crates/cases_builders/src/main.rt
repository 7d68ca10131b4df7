//! Makes builder calls by scripts, and compares their answers and messages with the expected ones.
//!
//! Each file that is given has scripts, one after the other; README.md describes their lines. The
//! answers come from independent software, or were worked out by hand.
#![tactic(auto)]

mod blobs;
mod calls;
mod canonical_sets;
mod copies;
mod edits;
mod gets;
mod handles;
mod layouts;
mod line;
mod makes;
mod marks;
mod outcomes;
mod scripts;
mod settings;
mod sources;
mod stock;
mod values;
mod ways;

use outcomes::{Answer, Stop};
use std::alloc::Global;
use std::process::ExitCode;
use std::{env, fs, io};

/// The number of scripts that are as they should be, and the lines of the file that differ, each
/// with its answer.
#[derive(Drop)]
struct Counts {
    same: u64,
    differing: Vec<(usize, Answer)>,
}

impl Counts {
    /// Runs the script that ends before a line of the file, if there is one.
    fn add(&mut self, alloc: Global, lines: &[&str], end: usize) -> Result<(), Stop> {
        match lines.first() {
            Some(first) if first.starts_with("0 ") => {}
            _ => return Ok(()),
        }
        let begin = end.saturating_sub(lines.len());
        match scripts::run(alloc, lines) {
            Ok(None) => self.same = self.same.saturating_add(1),
            Ok(Some((number, answer))) => {
                self.differing.push((begin.saturating_add(number), answer))?;
            }
            Err(Stop::Memory) => return Err(Stop::Memory),
            Err(stop) => self.differing.push((begin, Err(stop)))?,
        }
        Ok(())
    }
}

/// Runs the scripts of a file.
fn count(alloc: Global, text: &str) -> Result<Counts, Stop> {
    let mut counts = Counts {
        same: 0,
        differing: Vec::new(alloc),
    };
    let mut script: Vec<&str> = Vec::new(alloc);
    let mut number: usize = 1;
    for line in text.lines() {
        if line.starts_with("0 ") {
            counts.add(alloc, &script, number)?;
            script.clear();
        }
        script.push(line)?;
        number = number.saturating_add(1);
    }
    counts.add(alloc, &script, number)?;
    Ok(counts)
}

/// Prints the counts. Returns whether there was a script and none differs.
fn report(rt: &HostRuntime, name: &str, counts: &Counts) -> io::Result<bool> {
    let Counts { same, differing } = counts;
    println!(rt; "{same} scripts of {name} are as they should be")?;
    for (line, answer) in differing {
        println!(rt; "line {line} of {name} differs: {answer:?}")?;
    }
    Ok(differing.is_empty() && *same > 0)
}

fn run(rt: &HostRuntime) -> io::Result<ExitCode> {
    let mut files: usize = 0;
    let mut good = true;
    for name in env::args(rt)?.skip(1) {
        files = files.saturating_add(1);
        let text = fs::read_to_string(rt, name.as_str())?;
        match count(rt.alloc(), text.as_str()) {
            Ok(counts) => good = report(rt, name.as_str(), &counts)? && good,
            Err(fault) => {
                println!(rt; "{fault}")?;
                good = false;
            }
        }
    }
    if good && files > 0 {
        Ok(ExitCode::SUCCESS)
    } else {
        Ok(ExitCode::FAILURE)
    }
}

fn main(rt: HostRuntime) -> ExitCode {
    match run(&rt) {
        Ok(code) => code,
        Err(_) => ExitCode::FAILURE,
    }
}
