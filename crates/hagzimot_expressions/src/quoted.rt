//! Texts in quotes.

use crate::mistakes::{ExpressionFault, Wrong, mistake_at};
use crate::tree::Span;
use std::alloc::Global;

/// Returns the byte that an escape means.
fn escaped(byte: u8) -> Option<u8> {
    match byte {
        b'"' | b'\'' | b'\\' => Some(byte),
        b'n' => Some(b'\n'),
        b't' => Some(b'\t'),
        _ => None,
    }
}

/// Returns the bytes between quotes, with escapes replaced, of a text at a place.
fn inside(alloc: Global, text: &[u8], start: usize) -> Result<Vec<u8>, ExpressionFault> {
    let mut bytes = Vec::new(alloc);
    let mut is_escaped = false;
    for (i, byte) in text.iter().enumerate() {
        if !is_escaped && *byte == b'\\' {
            is_escaped = true;
            continue;
        }
        if !is_escaped {
            bytes.push(*byte)?;
            continue;
        }
        is_escaped = false;
        match escaped(*byte) {
            Some(meant) => bytes.push(meant)?,
            None => {
                let at = start.saturating_add(i);
                let span = Span {
                    start: at.saturating_sub(1),
                    end: at.saturating_add(1),
                };
                return Err(mistake_at(span, Wrong::UnknownEscape));
            }
        }
    }
    Ok(bytes)
}

/// Returns the text that a part of a text says, which is in quotes.
pub(crate) fn quoted_text(
    alloc: Global,
    text: &str,
    span: Span,
) -> Result<String, ExpressionFault> {
    let start = span.start.saturating_add(1);
    let end = span.end.saturating_sub(1);
    let between = text.as_bytes().get(start..end).unwrap_or(&[]);
    let bytes = inside(alloc, between, start)?;
    match str::from_utf8(&bytes) {
        Ok(told) => Ok(String::from_str(alloc, told)?),
        // An escape that ends within a character.
        Err(_) => Err(mistake_at(span, Wrong::UnknownEscape)),
    }
}
