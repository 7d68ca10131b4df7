//! The answers of calls, and the answers that lines give.
use crate::fault::{Fault, Stop};
use std::alloc::Global;

/// The answer of a call that is done.
#[derive(Drop)]
pub enum Answer {
    Done,
    Text(Vec<u8>),
}

/// Returns the bytes of a text in hex; no bytes for `-`.
pub fn hex_of(alloc: Global, text: &str) -> Result<Vec<u8>, Fault> {
    if text == "-" {
        return Ok(Vec::new(alloc));
    }
    Ok(hex::decode(alloc, text.as_bytes())?)
}

/// Returns a word as a text.
pub fn told(alloc: Global, text: &str) -> Result<Answer, Stop> {
    Ok(Answer::Text(Vec::from_slice(alloc, text.as_bytes())?))
}

/// Returns a truth value as a text.
pub fn truth(alloc: Global, value: bool) -> Result<Answer, Stop> {
    told(alloc, if value { "true" } else { "false" })
}

/// Returns whether the bytes are those of a text, in which `|` stands for a line feed.
fn is_text_of(bytes: &[u8], wanted: &[u8]) -> bool {
    if bytes.len() != wanted.len() {
        return false;
    }
    for (byte, sign) in bytes.iter().zip(wanted) {
        let is_same = if *sign == b'|' {
            *byte == b'\n'
        } else {
            byte == sign
        };
        if !is_same {
            return false;
        }
    }
    true
}

/// Returns whether bytes are the expected ones: `t` and hex, or `'` and the text itself.
fn is_wanted_text(alloc: Global, bytes: &[u8], wanted: &str) -> Result<bool, Fault> {
    if let Some(text) = wanted.strip_prefix('t') {
        return Ok(bytes == hex_of(alloc, text)?.as_slice());
    }
    match wanted.strip_prefix('\'') {
        Some(text) => Ok(is_text_of(bytes, text.as_bytes())),
        None => Ok(false),
    }
}

/// Returns whether a call gave the answer in a line.
pub fn is_wanted(alloc: Global, answer: Result<Answer, Stop>, line: &str) -> Result<bool, Fault> {
    let wanted = line.strip_prefix("= ").ok_or(Fault::Shape)?;
    match answer {
        Ok(Answer::Done) => Ok(wanted == "k"),
        Ok(Answer::Text(bytes)) => is_wanted_text(alloc, &bytes, wanted),
        Err(Stop::Refused(kind)) => Ok(wanted.strip_prefix('e') == Some(kind.name())),
        Err(Stop::NoCall) => Ok(wanted == "x"),
        Err(Stop::Fault(fault)) => Err(fault),
    }
}
