//! The front of a source: blanks, or one token.

ghost use Rattle.std.specs.Prelude.{◌≡◌, ◌+◌, ◌<◌, ◌≤◌, ◌==◌, true, false, position, length, slice_index, IfSome};
ghost use Rattle.std.specs.List.{prefix_len};
ghost use Rattle.capnp_source_text.specs.Bytes.{is_in};
ghost use Rattle.capnp_source_text.specs.Lexemes.{blanks_end, ends_in_exponent, number_length, closing_place, mark_of, text_lexeme, bytes_lexeme, begins_bytes, plain_lexeme, lexeme_of};

use crate::bytes::{ByteClass, is_in, is_name_start, is_operator_byte, is_space};

/// The kind of a token.
#[derive(Clone, Copy, Debug, PartialEq, Eq)]
pub enum TokenKind {
    /// A name or a word of the language.
    Name,
    /// An integer or a float.
    Number,
    /// A text between quotes.
    Text,
    /// Bytes between quotes, after `0x`.
    Bytes,
    /// One or more bytes of operators.
    Operator,
    OpenParenthesis,
    CloseParenthesis,
    OpenBracket,
    CloseBracket,
    OpenBrace,
    CloseBrace,
    Comma,
    Semicolon,
}

/// The token at the front of a text.
#[derive(Clone, Copy, Debug, PartialEq, Eq)]
pub struct Lexeme {
    pub kind: TokenKind,
    /// The number of bytes of the token.
    pub len: usize,
}

/// Returns the number of bytes of white space and comments at the front of a text.
pub fn blank_length(text: &[u8]) -> usize
    ensures value { result ≡ blanks_end 0 false text.now }
    ensures within { result ≤ length text.now }
{
    let mut passed = 0;
    let mut in_comment = false;
    let mut left = text;
    while let [byte, others @ ..] = left {
        if in_comment {
            in_comment = *byte != b'\n';
        } else if *byte == b'#' {
            in_comment = true;
        } else if !is_space(*byte) {
            return passed;
        }
        passed += 1;
        left = others;
    }
    passed
}

/// Returns the number of bytes at the front of a text that are of a class.
fn run_length(text: &[u8], class: ByteClass) -> usize
    ensures value { result ≡ prefix_len (is_in class) text.now }
    ensures within { result ≤ length text.now }
{
    for (place, byte) in text.iter().enumerate() {
        if !is_in(class, *byte) {
            return place;
        }
    }
    text.len()
}

/// Returns whether the front of a number ends in the letter of an exponent.
fn ends_in_exponent(front: &[u8]) -> bool
    ensures { result ≡ ends_in_exponent front.now }
{
    match front {
        [b'0', b'x', ..] => false,
        [.., last] => *last == b'e' || *last == b'E',
        [] => false,
    }
}

/// Returns the number of bytes of the number at the front of a text. A sign may follow the letter
/// of an exponent.
fn number_length(text: &[u8]) -> usize
    ensures value { result ≡ number_length text.now }
    ensures within { result ≤ length text.now }
{
    let front = run_length(text, ByteClass::Number);
    if !ends_in_exponent(&text[..front]) {
        return front;
    }
    match &text[front..] {
        [b'+' | b'-', exponent @ ..] => front + 1 + run_length(exponent, ByteClass::Number),
        _ => front,
    }
}

/// Returns the place of the quote that ends a text whose first quote comes right before the bytes.
/// Returns `None` if the line or the source ends first.
fn closing_place(bytes: &[u8]) -> Option<usize>
    ensures value { result ≡ closing_place 0 false bytes.now }
    ensures within { IfSome result (λ n. n < length bytes.now) }
{
    let mut passed = 0;
    let mut is_escaped = false;
    let mut left = bytes;
    while let [byte, others @ ..] = left {
        if *byte == b'\n' {
            return None;
        }
        if *byte == b'"' && !is_escaped {
            return Some(passed);
        }
        is_escaped = *byte == b'\\' && !is_escaped;
        passed += 1;
        left = others;
    }
    None
}

/// Returns the token of a text whose first quote comes right before the bytes.
fn text_lexeme(inside: &[u8]) -> Option<Lexeme>
    ensures value { result ≡ text_lexeme inside.now }
    ensures within { IfSome result (λ t. (2 ≤ t.len) × (t.len ≤ length inside.now + 1)) }
{
    let place = closing_place(inside)?;
    Some(Lexeme {
        kind: TokenKind::Text,
        len: place + 2,
    })
}

/// Returns the place of the first quote.
fn quote_place(bytes: &[u8]) -> Option<usize>
    ensures value { result ≡ position (λ b. b == 34) bytes.now }
    ensures within { IfSome result (λ n. n < length bytes.now) }
{
    bytes.iter().position(|byte| *byte == b'"')
}

/// Returns the token of a literal of bytes whose first quote comes right before the bytes.
fn bytes_lexeme(inside: &[u8]) -> Option<Lexeme>
    ensures value { result ≡ bytes_lexeme inside.now }
    ensures within { IfSome result (λ t. (4 ≤ t.len) × (t.len ≤ length inside.now + 3)) }
{
    let place = quote_place(inside)?;
    Some(Lexeme {
        kind: TokenKind::Bytes,
        len: place + 4,
    })
}

/// Returns the kind of the token that consists of one byte.
fn mark_of(byte: u8) -> Option<TokenKind>
    ensures { result ≡ mark_of byte }
{
    match byte {
        b'(' => Some(TokenKind::OpenParenthesis),
        b')' => Some(TokenKind::CloseParenthesis),
        b'[' => Some(TokenKind::OpenBracket),
        b']' => Some(TokenKind::CloseBracket),
        b'{' => Some(TokenKind::OpenBrace),
        b'}' => Some(TokenKind::CloseBrace),
        b',' => Some(TokenKind::Comma),
        b';' => Some(TokenKind::Semicolon),
        _ => None,
    }
}

/// Returns whether a text begins like a literal of bytes: with `0x` and a quote.
fn begins_bytes(text: &[u8]) -> bool
    ensures value { result ≡ begins_bytes text.now }
    ensures within { result ≡ true → 3 ≤ length text.now }
{
    matches!(text, [b'0', b'x', b'"', ..])
}

/// Returns the token at the front of a text that begins with this byte, which is not a quote.
#[tactic(auto, using(crate::proofs::Runs::prefix_first))]
fn plain_lexeme(text: &[u8], first: u8) -> Option<Lexeme>
    requires nonempty { 0 < length text.now }
    requires front { first ≡ slice_index text.now 0 }
    ensures value { result ≡ plain_lexeme text.now first }
    ensures within { IfSome result (λ t. (1 ≤ t.len) × (t.len ≤ length text.now)) }
{
    if is_name_start(first) {
        Some(Lexeme {
            kind: TokenKind::Name,
            len: run_length(text, ByteClass::Name),
        })
    } else if first.is_ascii_digit() {
        Some(Lexeme {
            kind: TokenKind::Number,
            len: number_length(text),
        })
    } else if is_operator_byte(first) {
        Some(Lexeme {
            kind: TokenKind::Operator,
            len: run_length(text, ByteClass::Operator),
        })
    } else {
        Some(Lexeme {
            kind: mark_of(first)?,
            len: 1,
        })
    }
}

/// Returns the token at the front of a text. Returns `None` if no token begins with the first byte,
/// if a literal there has no end, or if the text is empty.
pub fn lexeme_of(text: &[u8]) -> Option<Lexeme>
    ensures value { result ≡ lexeme_of text.now }
    ensures within { IfSome result (λ t. (1 ≤ t.len) × (t.len ≤ length text.now)) }
{
    match text {
        [] => None,
        [b'"', inside @ ..] => text_lexeme(inside),
        [first, ..] => {
            if begins_bytes(text) {
                bytes_lexeme(&text[3..])
            } else {
                plain_lexeme(text, *first)
            }
        }
    }
}
