//! Reads, unpacks, packs, builds and accepts schemas, n times, so that instructions can be counted.
//!
//! The first word names the work; `README.md` beside this folder lists all of them. The result is
//! printed on standard output, and the speed on standard error.
#![tactic(auto)]

mod building;
mod building_bench;
mod cars;
mod cars_bench;
mod cars_building;
mod cars_reading;
mod packing;
mod reading;
mod reading_bench;
mod reading_samples;
mod schema_bench;
mod schema_samples;
mod segments;
mod streams;

use std::{env, io};

/// The number of structs that are read if no number is given.
const STRUCTS: u32 = 1_000_000;

/// The number of builder calls that are made if no number is given.
const CALLS: u32 = 100;

/// The number of cars that are built or read if no number is given.
const CARS: u32 = 50;

/// The number of nodes of a set if no number is given.
const NODES: u32 = 2_000;

/// The words after the program's name.
struct Words {
    task: String,
    first: Option<String>,
    second: Option<String>,
    third: Option<String>,
}

/// Returns the words; `None` if there is no first word.
fn words_given(rt: &HostRuntime) -> io::Result<Option<Words>> {
    let mut given = env::args(rt)?;
    let Some(task) = given.nth(1) else {
        return Ok(None);
    };
    Ok(Some(Words {
        task,
        first: given.next(),
        second: given.next(),
        third: given.next(),
    }))
}

/// Returns the number that a word spells, otherwise another.
fn number(word: &Option<String>, other: u32) -> u32 {
    match word {
        Some(text) => text.parse::<u32>().unwrap_or(other),
        None => other,
    }
}

/// Returns the word, otherwise another.
fn text<'a>(word: &'a Option<String>, other: &'a str) -> &'a str {
    match word {
        Some(text) => text.as_str(),
        None => other,
    }
}

fn main(rt: HostRuntime) -> io::Result<()> {
    let Some(words) = words_given(&rt)? else {
        return reading_bench::read(&rt, STRUCTS);
    };
    let Words {
        task,
        first,
        second,
        third,
    } = words;
    match task.as_str() {
        "read" => reading_bench::read(&rt, number(&first, STRUCTS)),
        "unpack" => streams::unpack(&rt, text(&first, ""), number(&second, 1)),
        "pack" => streams::pack(&rt, text(&first, ""), number(&second, 1)),
        "build" => building_bench::build(&rt, text(&first, "fields"), number(&second, CALLS)),
        "cars" => cars_bench::cars(
            &rt,
            text(&first, "read"),
            number(&second, CARS),
            number(&third, 1),
        ),
        "schema" => schema_bench::accept_all(
            &rt,
            text(&first, "nodes"),
            number(&second, NODES),
            number(&third, 1),
        ),
        other => eprintln!(rt; "{other} is no task"),
    }
}
