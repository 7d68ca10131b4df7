//! Values of texts and of literals of bytes.

ghost use Rattle.std.specs.Prelude.{◌≡◌, ◌≢◌, ◌≤◌, ◌<◌, ◌+◌, length, slice_index, IfOk, IfErr, IfSome};
ghost use Rattle.std.specs.List.{prefix_len};
ghost use Rattle.capnp_source_text.specs.Bytes.{is_space};
ghost use Rattle.capnp_source_text.specs.Literals.{octal_at, named_escape, hex_byte, small_piece, octal_escape, escape_of, piece_of, pair_of, is_blank, IsText, IsTextFault, IsBytes, IsBytesFault};

use crate::bytes::{digit_of, is_space};
use std::alloc::{AllocError, AllocFailed, Global};

/// One byte of the value of a literal.
#[derive(Clone, Copy, Debug, PartialEq, Eq)]
pub struct Piece {
    pub byte: u8,
    /// The number of bytes that it takes in the source.
    pub len: usize,
}

/// The reason why a literal has no value.
#[derive(Clone, Copy, Debug, PartialEq, Eq)]
pub enum LiteralFault {
    /// No byte is spelled at this offset between the quotes.
    Piece(usize),
    /// Nothing is between the quotes, and at least one byte is needed.
    Empty,
    /// An allocation was refused.
    Memory,
}

impl From<AllocError> for LiteralFault {
    ghost use Rattle.std.specs.Prelude.{◌≡◌};
    ghost use Rattle.capnp_source_text.specs.declared.literals.LiteralFault.{LiteralFault};

    ghost from_gives = { λ _ fault. fault ≡ LiteralFault.Memory };

    fn from(_e: AllocError) -> LiteralFault {
        LiteralFault::Memory
    }
}

impl<T: Drop> From<AllocFailed<T>> for LiteralFault {
    ghost use Rattle.std.specs.Prelude.{◌≡◌};
    ghost use Rattle.capnp_source_text.specs.declared.literals.LiteralFault.{LiteralFault};

    ghost from_gives = { λ _ fault. fault ≡ LiteralFault.Memory };

    fn from(_e: AllocFailed<T>) -> LiteralFault {
        LiteralFault::Memory
    }
}

/// Returns the byte at a place, or 0 after the end.
fn byte_at(text: &[u8], place: usize) -> u8
    ensures value { result ≡ slice_index text.now place }
    ensures within { result ≢ 0 → place < length text.now }
{
    if place < text.len() { text[place] } else { 0 }
}

/// Returns the octal digit at a place.
fn octal_at(text: &[u8], place: usize) -> Option<u16>
    ensures value { result ≡ octal_at text.now place }
    ensures within { IfSome result (λ d. (d < 8) × (place < length text.now)) }
{
    let byte = byte_at(text, place);
    if (b'0'..=b'7').contains(&byte) {
        Some(u16::from(byte - b'0'))
    } else {
        None
    }
}

/// Returns the byte that a letter or a sign means after a backslash.
fn named_escape(byte: u8) -> Option<u8>
    ensures value { result ≡ named_escape byte }
    ensures within { IfSome result (λ _. byte ≢ 0) }
{
    match byte {
        b'a' => Some(7),
        b'b' => Some(8),
        b't' => Some(9),
        b'n' => Some(10),
        b'v' => Some(11),
        b'f' => Some(12),
        b'r' => Some(13),
        b'"' | b'\'' | b'?' | b'\\' => Some(byte),
        _ => None,
    }
}

/// Returns the byte that two hexadecimal digits spell.
fn hex_byte(high: u8, low: u8) -> Option<u8>
    ensures value { result ≡ hex_byte high low }
    ensures within { IfSome result (λ _. (high ≢ 0) × (low ≢ 0)) }
{
    let high = digit_of(high)?;
    let low = digit_of(low)?;
    Some(16 * high + low)
}

/// Returns a byte with this value and length, or `None` if the value is above 255.
fn small_piece(value: u16, len: usize) -> Option<Piece>
    ensures { result ≡ small_piece value len }
{
    if value > 255 {
        return None;
    }
    Some(Piece {
        byte: value as u8,
        len,
    })
}

/// Returns the byte that one to three octal digits after a backslash spell. Returns `None` if there
/// is no digit, or if the number is above 255.
fn octal_escape(behind: &[u8]) -> Option<Piece>
    ensures value { result ≡ octal_escape behind.now }
    ensures within { IfSome result (λ p. (2 ≤ p.len) × (p.len ≤ length behind.now + 1)) }
{
    let first = octal_at(behind, 0)?;
    let Some(second) = octal_at(behind, 1) else {
        return small_piece(first, 2);
    };
    let Some(third) = octal_at(behind, 2) else {
        return small_piece(8 * first + second, 3);
    };
    small_piece(64 * first + 8 * second + third, 4)
}

/// Returns the byte of an escape, which is given by the bytes after its backslash. The length
/// includes the backslash.
fn escape_of(behind: &[u8]) -> Option<Piece>
    ensures value { result ≡ escape_of behind.now }
    ensures within { IfSome result (λ p. (2 ≤ p.len) × (p.len ≤ length behind.now + 1)) }
{
    let first = byte_at(behind, 0);
    if first == b'x' {
        let byte = hex_byte(byte_at(behind, 1), byte_at(behind, 2))?;
        return Some(Piece { byte, len: 4 });
    }
    if octal_at(behind, 0).is_some() {
        return octal_escape(behind);
    }
    let byte = named_escape(first)?;
    Some(Piece { byte, len: 2 })
}

/// Returns the byte at the front of a text without its first quote: the byte itself, or that of an
/// escape. Returns `None` if there is no byte or no such escape.
pub fn piece_of(inside: &[u8]) -> Option<Piece>
    ensures value { result ≡ piece_of inside.now }
    ensures within { IfSome result (λ p. (1 ≤ p.len) × (p.len ≤ length inside.now)) }
{
    match inside {
        [] => None,
        [b'\\', behind @ ..] => escape_of(behind),
        [byte, ..] => Some(Piece {
            byte: *byte,
            len: 1,
        }),
    }
}

/// Returns the bytes of a text, which is given without its quotes. `Piece` has the offset of an
/// escape that spells no byte.
pub fn text_of(alloc: Global, inside: &[u8]) -> Result<Vec<u8>, LiteralFault>
    ensures ok { IfOk result (λ v. IsText inside.now v.items) }
    ensures err { IfErr result (IsTextFault inside.now) }
{
    let mut made = Vec::new(alloc);
    let mut at = 0;
    while at < inside.len() {
        let Some(piece) = piece_of(&inside[at..]) else {
            return Err(LiteralFault::Piece(at));
        };
        made.push(piece.byte)?;
        at += piece.len;
    }
    Ok(made)
}

/// Returns the number of bytes of white space at the front of a text.
fn space_length(text: &[u8]) -> usize
    ensures value { result ≡ prefix_len is_space text.now }
    ensures within { result ≤ length text.now }
{
    for (place, byte) in text.iter().enumerate() {
        if !is_space(*byte) {
            return place;
        }
    }
    text.len()
}

/// Returns the byte at the front of a literal of bytes without its first quote: white space and two
/// hexadecimal digits. Returns `None` if the digits aren't there.
pub fn pair_of(inside: &[u8]) -> Option<Piece>
    ensures value { result ≡ pair_of inside.now }
    ensures within { IfSome result (λ p. (1 ≤ p.len) × (p.len ≤ length inside.now)) }
{
    let spaces = space_length(inside);
    let digits = &inside[spaces..];
    let byte = hex_byte(byte_at(digits, 0), byte_at(digits, 1))?;
    Some(Piece {
        byte,
        len: spaces + 2,
    })
}

/// Returns whether a text has only white space.
fn is_blank(text: &[u8]) -> bool
    ensures { result ≡ is_blank text.now }
{
    space_length(text) == text.len()
}

/// Returns the bytes of a literal of bytes, which is given without its quotes. `Piece` has the
/// offset at which two hexadecimal digits are missing. `Empty` says that there are no digits.
pub fn bytes_of(alloc: Global, inside: &[u8]) -> Result<Vec<u8>, LiteralFault>
    ensures ok { IfOk result (λ v. IsBytes inside.now v.items) }
    ensures err { IfErr result (IsBytesFault inside.now) }
{
    if is_blank(inside) {
        return Err(LiteralFault::Empty);
    }
    let mut made = Vec::new(alloc);
    let mut at = 0;
    while !is_blank(&inside[at..]) {
        let Some(pair) = pair_of(&inside[at..]) else {
            return Err(LiteralFault::Piece(at));
        };
        made.push(pair.byte)?;
        at += pair.len;
    }
    Ok(made)
}
