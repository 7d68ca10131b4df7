//! The tokens of an expression.

use crate::mistakes::{ExpressionFault, Wrong, mistake_at};
use crate::tree::{Operator, Span};
use std::alloc::Global;

/// The kind of a token.
#[derive(Clone, Copy, Debug, PartialEq, Eq)]
pub(crate) enum TokenKind {
    Open,
    Close,
    Operator(Operator),
    /// A path, a value or a word such as `and`.
    Word,
    /// A text in quotes.
    Quoted,
}

/// A token with its place.
#[derive(Clone, Copy, Debug, PartialEq, Eq)]
pub(crate) struct Token {
    pub kind: TokenKind,
    pub span: Span,
}

/// Returns whether a byte separates tokens.
fn is_blank(byte: u8) -> bool {
    matches!(byte, b' ' | b'\t' | b'\n' | b'\r')
}

/// Returns whether a byte ends a word.
fn ends_word(byte: u8) -> bool {
    is_blank(byte)
        || matches!(
            byte,
            b'(' | b')' | b'=' | b'!' | b'<' | b'>' | b'~' | b'"' | b'\''
        )
}

/// Returns the number of bytes in front of the first that isn't blank.
fn blank_length(text: &[u8]) -> usize {
    match text.iter().position(|byte| !is_blank(*byte)) {
        Some(at) => at,
        None => text.len(),
    }
}

/// Returns the number of bytes of the word at the front.
fn word_length(text: &[u8]) -> usize {
    match text.iter().position(|byte| ends_word(*byte)) {
        Some(at) => at,
        None => text.len(),
    }
}

/// Returns the number of bytes of the text in quotes after its first quote, with the last quote.
fn quoted_length(behind: &[u8], quote: u8) -> Option<usize> {
    let mut is_escaped = false;
    for (i, byte) in behind.iter().enumerate() {
        if is_escaped {
            is_escaped = false;
        } else if *byte == b'\\' {
            is_escaped = true;
        } else if *byte == quote {
            return Some(i.saturating_add(1));
        }
    }
    None
}

/// A token at the front of a text, or a mistake there, and the number of its bytes.
type AtFront = Result<(TokenKind, usize), (Wrong, usize)>;

/// Returns the operator at the front, which isn't empty.
fn operator_front(text: &[u8]) -> Option<AtFront> {
    let (operator, len) = match text {
        [b'=', b'=', ..] => return Some(Err((Wrong::DoubleEquals, 2))),
        [b'=', b'~', ..] => return Some(Err((Wrong::Matches, 2))),
        [b'=', b'<' | b'>', ..] => return Some(Err((Wrong::Reversed, 2))),
        [b'<', b'>', ..] => return Some(Err((Wrong::NotEqual, 2))),
        [b'!', b'~', ..] => return Some(Err((Wrong::MatchesNot, 2))),
        [b'!', b'=', ..] => (Operator::Unequal, 2),
        [b'<', b'=', ..] => (Operator::AtMost, 2),
        [b'>', b'=', ..] => (Operator::AtLeast, 2),
        [b'=', ..] => (Operator::Equal, 1),
        [b'<', ..] => (Operator::Less, 1),
        [b'>', ..] => (Operator::Greater, 1),
        [b'~', ..] => (Operator::Contains, 1),
        [b'!', ..] => return Some(Err((Wrong::Exclamation, 1))),
        _ => return None,
    };
    Some(Ok((TokenKind::Operator(operator), len)))
}

/// Returns the token at the front of a text, which isn't empty and doesn't begin with a blank.
fn front(text: &[u8]) -> AtFront {
    if let Some(front) = operator_front(text) {
        return front;
    }
    match text {
        [b'(', ..] => Ok((TokenKind::Open, 1)),
        [b')', ..] => Ok((TokenKind::Close, 1)),
        [quote @ (b'"' | b'\''), behind @ ..] => match quoted_length(behind, *quote) {
            Some(len) => Ok((TokenKind::Quoted, len.saturating_add(1))),
            None => Err((Wrong::Unclosed, text.len())),
        },
        _ => Ok((TokenKind::Word, word_length(text))),
    }
}

/// Returns the token at an offset.
fn token_at(text: &[u8], start: usize) -> Result<Token, ExpressionFault> {
    let left = text.get(start..).unwrap_or(&[]);
    match front(left) {
        Ok((kind, len)) => Ok(Token {
            kind,
            span: Span {
                start,
                end: start.saturating_add(len),
            },
        }),
        Err((wrong, len)) => {
            let end = start.saturating_add(len);
            Err(mistake_at(Span { start, end }, wrong))
        }
    }
}

/// Returns the tokens of a text in their order.
pub(crate) fn tokens(alloc: Global, text: &[u8]) -> Result<Vec<Token>, ExpressionFault> {
    let mut found = Vec::new(alloc);
    let mut at: usize = 0;
    // Each token has a byte at least.
    for _ in 0..text.len() {
        let left = text.get(at..).unwrap_or(&[]);
        let start = at.saturating_add(blank_length(left));
        if start >= text.len() {
            return Ok(found);
        }
        let token = token_at(text, start)?;
        at = token.span.end;
        found.push(token)?;
    }
    Ok(found)
}
