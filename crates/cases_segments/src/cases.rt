//! Whole cases.

use crate::machine;
use crate::streams::{self, Cuts, Form};
use std::alloc::{AllocError, Global};

/// Returns whether each step of a case gives what it should. A line that isn't written in the form
/// of cases counts as different.
pub fn is_as_it_should_be(alloc: Global, line: &str) -> Result<bool, AllocError> {
    let mut words = Vec::new(alloc);
    for word in line.split_whitespace() {
        words.push(word)?;
    }
    match words.as_slice() {
        [
            _name,
            "segments",
            segments,
            nesting,
            budget,
            default,
            steps @ ..,
        ] => { machine::goes(alloc, segments, nesting, budget, default, steps) }
        [_name, "framed", bytes, steps @ ..] => {
            streams::goes(alloc, Form::Framed, Cuts::Some, bytes, steps)
        }
        [_name, "packed", bytes, steps @ ..] => {
            streams::goes(alloc, Form::Packed, Cuts::Some, bytes, steps)
        }
        [_name, "packed_each", bytes, steps @ ..] => {
            streams::goes(alloc, Form::Packed, Cuts::All, bytes, steps)
        }
        _ => Ok(false),
    }
}
