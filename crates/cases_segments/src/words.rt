//! Bytes and segments in the notation of cases.

use hex::FromHexError;
use std::alloc::{AllocError, Global};

/// Adds the bytes of a group in hex, repeated if a count follows a star.
fn add_group(alloc: Global, bytes: &mut Vec<u8>, group: &str) -> Result<bool, AllocError> {
    let (digits, count) = match group.split_once('*') {
        Some((digits, count)) => (digits, count.parse::<usize>().ok()),
        None => (group, Some(1)),
    };
    let Some(count) = count else {
        return Ok(false);
    };
    let part = match hex::decode(alloc, digits.as_bytes()) {
        Ok(part) => part,
        Err(FromHexError::OutOfMemory) => return Err(AllocError),
        Err(_) => return Ok(false),
    };
    for _ in 0..count {
        bytes.extend_from_slice(&part)?;
    }
    Ok(true)
}

/// Returns the bytes of groups in hex between dots, or no bytes for a dash.
pub fn bytes_of(alloc: Global, text: &str) -> Result<Option<Vec<u8>>, AllocError> {
    let mut bytes = Vec::new(alloc);
    if text == "-" {
        return Ok(Some(bytes));
    }
    for group in text.split('.') {
        if !add_group(alloc, &mut bytes, group)? {
            return Ok(None);
        }
    }
    Ok(Some(bytes))
}

/// Returns the segments between bars; `none` has no segments.
pub fn segments_of(alloc: Global, text: &str) -> Result<Option<Vec<Vec<u8>>>, AllocError> {
    let mut segments = Vec::new(alloc);
    if text == "none" {
        return Ok(Some(segments));
    }
    for part in text.split('|') {
        let Some(bytes) = bytes_of(alloc, part)? else {
            return Ok(None);
        };
        segments.push(bytes)?;
    }
    Ok(Some(segments))
}

/// Parses a number, or `all` for no limit.
pub fn limit_of(text: &str) -> Option<Option<usize>> {
    if text == "all" {
        return Some(None);
    }
    match text.parse::<usize>() {
        Ok(number) => Some(Some(number)),
        Err(_) => None,
    }
}
