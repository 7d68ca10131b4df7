//! Files of cases, line by line.
use crate::answers::hex_of;
use crate::asked::{self, Asked};
use crate::fault::Fault;
use crate::schemas;
use crate::scripts::{Script, is_right_in_room, is_right_on_heap, words_of};
use crate::values::{number_in, schema_of};
use capnp_records::set::SchemaSet;
use std::alloc::Global;

/// The number of cases that are as they should be, and the last lines of those that differ.
#[derive(Drop)]
pub struct Counts {
    pub same: u64,
    pub differing: Vec<u64>,
}

/// Returns whether a line is a script's last.
fn is_end(line: &str) -> bool {
    line == "." || line.starts_with(". ") || line.starts_with(": ")
}

/// Returns whether everything is as a script says: its head, calls with their answers, and its end.
fn is_script_right(alloc: Global, set: &SchemaSet, lines: &[&str]) -> Result<bool, Fault> {
    let [head, calls @ .., end] = lines else {
        return Err(Fault::Shape);
    };
    let words = words_of(alloc, head)?;
    let [sort, room, root, content] = words.as_slice() else {
        return Err(Fault::Shape);
    };
    if matches!(*sort, "R" | "F" | "Q" | "E") {
        let asked = Asked {
            set,
            limits: *room,
            id: *root,
            content: *content,
        };
        return asked::is_right(alloc, sort, asked, calls);
    }
    let bytes = hex_of(alloc, content)?;
    let script = Script {
        schema: schema_of(set, root)?,
        content: &bytes,
        calls,
        end,
    };
    match *sort {
        "N" => is_right_on_heap(alloc, number_in::<u32>(room)?, script),
        "W" => is_right_in_room(alloc, number_in::<u32>(room)?, script),
        _ => Err(Fault::Shape),
    }
}

/// The state while a file is read: its last schema file, and the lines of a script so far.
#[derive(Drop)]
struct Reading<'a> {
    set: SchemaSet,
    lines: Vec<&'a str>,
}

/// Reads a line. If the line ends a case, returns whether the case is right.
fn take<'a>(
    alloc: Global,
    reading: &mut Reading<'a>,
    line: &'a str,
) -> Result<Option<bool>, Fault> {
    if line.starts_with('[') {
        reading.set = schemas::set_of(alloc, line)?;
        return Ok(None);
    }
    if line.starts_with('{') {
        return Ok(Some(schemas::is_right(alloc, line)?));
    }
    if line.is_empty() || line.starts_with('*') {
        return Ok(None);
    }
    reading.lines.push(line)?;
    if !is_end(line) {
        return Ok(None);
    }
    let is_right = is_script_right(alloc, &reading.set, &reading.lines)?;
    reading.lines.clear();
    Ok(Some(is_right))
}

/// Compares all cases of a file.
pub fn count(alloc: Global, text: &str) -> Result<Counts, Fault> {
    let mut counts = Counts {
        same: 0,
        differing: Vec::new(alloc),
    };
    let mut reading = Reading {
        set: schemas::set_of(alloc, "[]")?,
        lines: Vec::new(alloc),
    };
    let mut number: u64 = 0;
    for line in text.lines() {
        number = number.saturating_add(1);
        match take(alloc, &mut reading, line)? {
            Some(true) => counts.same = counts.same.saturating_add(1),
            Some(false) => counts.differing.push(number)?,
            None => {}
        }
    }
    if reading.lines.is_empty() {
        Ok(counts)
    } else {
        Err(Fault::Shape)
    }
}
