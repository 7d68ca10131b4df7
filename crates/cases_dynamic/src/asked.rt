//! Scripts of calls at messages that are read, and of queries of schemas.
use crate::answers::{Answer, hex_of, is_wanted, told};
use crate::fault::{Fault, Stop};
use crate::scripts::words_of;
use crate::values::{number_in, root_struct, schema_of};
use crate::verbs::{Call, call_of};
use crate::{queries, readers};
use capnp_message::options::ReaderOptions;
use capnp_records::set::SchemaSet;
use capnp_relay_show::show::show;
use capnp_values::dynamic_value::Reader;
use capnp_values_queries::enums::EnumSchema;
use capnp_wire_objects::arena::ReaderArenaImpl;
use std::alloc::Global;

/// The subject of a script: a message under a schema, or a schema.
#[derive(Clone, Copy)]
pub struct Asked<'a> {
    pub set: &'a SchemaSet,
    /// The limit of levels of a message; for shown text also the limit of words, after a comma.
    pub limits: &'a str,
    pub id: &'a str,
    /// The message in hex: its segments with commas between them, or its frame.
    pub content: &'a str,
}

/// Returns whether all calls of a script give the answers in their lines.
pub fn is_right(
    alloc: Global,
    sort: &str,
    asked: Asked<'_>,
    calls: &[&str],
) -> Result<bool, Fault> {
    let (pairs, rest) = calls.as_chunks::<2>();
    let mut all = rest.is_empty();
    for [line, wanted] in pairs {
        let words = words_of(alloc, line)?;
        let call = call_of(&words)?;
        let answer = match sort {
            "R" => read(alloc, asked, call),
            "F" => shown(alloc, asked),
            "E" => of_enum(alloc, asked, call),
            _ => queries::of_struct(alloc, schema_of(asked.set, asked.id)?, call),
        };
        if !is_wanted(alloc, answer, wanted)? {
            all = false;
        }
    }
    Ok(all)
}

/// Answers a query of an enum.
fn of_enum(alloc: Global, asked: Asked<'_>, call: Call<'_>) -> Result<Answer, Stop> {
    let id = number_in::<u64>(asked.id)?;
    let raw = asked.set.enum_by_id(id).ok_or(Fault::Shape)?;
    queries::of_enum(alloc, EnumSchema::new(asked.set, raw), call)
}

/// Answers a call at the root of a message.
fn read(alloc: Global, asked: Asked<'_>, call: Call<'_>) -> Result<Answer, Stop> {
    let mut held = Vec::new(alloc);
    for text in asked.content.split(',') {
        held.push(hex_of(alloc, text)?)?;
    }
    let mut segments: Vec<&[u8]> = Vec::new(alloc);
    for segment in &held {
        segments.push(segment.as_slice())?;
    }
    let levels = number_in::<i32>(asked.limits)?;
    let arena = ReaderArenaImpl::new(segments.as_slice(), levels);
    let root = root_struct(&arena, schema_of(asked.set, asked.id)?)?;
    let root = Reader::Struct(root);
    if call.verb == "format" {
        return readers::formatted(alloc, readers::follow(root, call.path)?);
    }
    readers::answer(alloc, root, call)
}

/// Parses the limits of a message that is shown: `LEVELS,WORDS`, or only `LEVELS`.
fn options_of(limits: &str) -> Result<ReaderOptions, Fault> {
    let (levels, words) = match limits.split_once(',') {
        Some((levels, words)) => (levels, Some(number_in::<usize>(words)?)),
        None => (limits, None),
    };
    Ok(ReaderOptions {
        traversal_limit_in_words: words,
        nesting_limit: number_in::<i32>(levels)?,
    })
}

/// Shows a framed message: returns its text, or why there is none.
fn shown(alloc: Global, asked: Asked<'_>) -> Result<Answer, Stop> {
    let frame = hex_of(alloc, asked.content)?;
    let schema = schema_of(asked.set, asked.id)?;
    match show(alloc, &frame, schema, options_of(asked.limits)?) {
        Ok(text) => Ok(Answer::Text(text)),
        Err(fault) => told(alloc, format!(in alloc; "fault: {fault}")?.as_str()),
    }
}
