//! Differences of messages.

use crate::json::{Difference, NoMemory, list_differences};
use capnp_relay_show::show::ShowFault;
use capnp_units::segments::ReaderSegments;
use capnp_units::sizes::Word;
use capnp_wire_objects::arena::ReaderArenaImpl;
use hagzimot_commands::canonical::{Canonical, write_value};
use hagzimot_show::laid_out::{Manner, laid_out};
use serde_json::Value as Json;
use std::alloc::{AllocError, Global};

/// The way in which two messages differ.
#[derive(Debug, Drop)]
pub enum Outcome {
    /// They have the same value: the same canonical bytes.
    Same,
    /// Their records differ at these places.
    Records(Vec<Difference>),
    /// Their canonical bytes differ, but not the JSON of their records: in untyped pointers, in
    /// fields that the schema does not know, or in bits that JSON does not show.
    Bytes,
    /// The first message has no value within the limits, or can't be read under the schema, and the
    /// second is another.
    LeftUnread,
    /// The second message has no value within the limits, or can't be read under the schema, and the
    /// first is another.
    RightUnread,
}

/// Returns the canonical words of a message; `None` if it has no value within the limits.
fn words_of<S: ReaderSegments>(
    alloc: Global,
    segments: &S,
    limits: Canonical,
) -> Result<Option<Vec<Word>>, NoMemory> {
    let arena = ReaderArenaImpl::new(segments, i32::MAX);
    let mut words = Vec::new(alloc);
    match write_value(&arena, limits, &mut words) {
        Ok(Some(count)) => {
            words.truncate(count);
            Ok(Some(words))
        }
        Ok(None) => Ok(None),
        Err(_) => Err(NoMemory),
    }
}

/// Returns the JSON of a message's record; `None` if it can't be shown.
fn json_of<S: ReaderSegments>(
    alloc: Global,
    segments: &S,
    manner: Manner<'_>,
) -> Result<Option<Json>, NoMemory> {
    match laid_out(alloc, segments, manner) {
        Ok(text) => Ok(Json::from_str(alloc, text.as_str()).ok()),
        Err(ShowFault::Memory) => Err(NoMemory),
        Err(_) => Ok(None),
    }
}

/// Compares the records of two messages that have other canonical bytes.
fn compare_records<S: ReaderSegments, T: ReaderSegments>(
    alloc: Global,
    left: &S,
    right: &T,
    manner: Manner<'_>,
) -> Result<Outcome, NoMemory> {
    let Some(x) = json_of(alloc, left, manner)? else {
        return Ok(Outcome::LeftUnread);
    };
    let Some(y) = json_of(alloc, right, manner)? else {
        return Ok(Outcome::RightUnread);
    };
    let found = list_differences(alloc, &x, &y)?;
    if found.is_empty() {
        return Ok(Outcome::Bytes);
    }
    Ok(Outcome::Records(found))
}

/// Compares two messages: by their canonical bytes, and if these differ by the records that they
/// have under a schema, shown as JSON. Without a manner there is no schema.
pub fn compare<S: ReaderSegments, T: ReaderSegments>(
    alloc: Global,
    left: &S,
    right: &T,
    limits: Canonical,
    manner: Option<Manner<'_>>,
) -> Result<Outcome, NoMemory> {
    let (x, y) = (
        words_of(alloc, left, limits)?,
        words_of(alloc, right, limits)?,
    );
    match (&x, &y) {
        (Some(x), Some(y)) if x.as_slice() == y.as_slice() => return Ok(Outcome::Same),
        (Some(_), Some(_)) => {}
        (None, _) => return Ok(Outcome::LeftUnread),
        (Some(_), None) => return Ok(Outcome::RightUnread),
    }
    match manner {
        Some(manner) => compare_records(alloc, left, right, manner),
        None => Ok(Outcome::Bytes),
    }
}
