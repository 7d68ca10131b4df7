//! Tokens of a source.

ghost use Rattle.std.specs.Prelude.{◌≡◌, ◌<◌, ◌≤◌, length, All, IfOk, IfErr, IfSome};
ghost use Rattle.capnp_source_text.specs.Tokens.{mark_length, next_start, token_at, LiesIn, AreTokens, IsTokenFault};

use crate::lexemes::{TokenKind, blank_length, lexeme_of};
use std::alloc::{AllocError, AllocFailed, Global};

/// A token of a source.
#[derive(Clone, Copy, Debug, PartialEq, Eq)]
pub struct Token {
    pub kind: TokenKind,
    /// The offset of the token's first byte.
    pub start: usize,
    /// The offset after the token's last byte.
    pub end: usize,
}

/// The reason why a source has no tokens.
#[derive(Clone, Copy, Debug, PartialEq, Eq)]
pub enum TokenFault {
    /// No token begins at this offset, or the token that begins there has no end.
    NoToken(usize),
    /// An allocation was refused.
    Memory,
}

impl From<AllocError> for TokenFault {
    ghost use Rattle.std.specs.Prelude.{◌≡◌};
    ghost use Rattle.capnp_source_text.specs.declared.tokens.TokenFault.{TokenFault};

    ghost from_gives = { λ _ fault. fault ≡ TokenFault.Memory };

    fn from(_e: AllocError) -> TokenFault {
        TokenFault::Memory
    }
}

impl<T: Drop> From<AllocFailed<T>> for TokenFault {
    ghost use Rattle.std.specs.Prelude.{◌≡◌};
    ghost use Rattle.capnp_source_text.specs.declared.tokens.TokenFault.{TokenFault};

    ghost from_gives = { λ _ fault. fault ≡ TokenFault.Memory };

    fn from(_e: AllocFailed<T>) -> TokenFault {
        TokenFault::Memory
    }
}

/// Returns the number of bytes of the byte order mark of UTF-8 at the front of a source, or 0
/// without a mark.
fn mark_length(text: &[u8]) -> usize
    ensures value { result ≡ mark_length text.now }
    ensures within { result ≤ length text.now }
{
    match text {
        [0xef, 0xbb, 0xbf, ..] => 3,
        _ => 0,
    }
}

/// Returns the offset of the next token, after the blanks that begin at an offset. Returns the
/// offset of the end if there is no further token.
fn next_start(text: &[u8], from: usize) -> usize
    requires { from ≤ length text.now }
    ensures value { result ≡ next_start text.now from }
    ensures within { result ≤ length text.now }
    ensures behind { from ≤ result }
{
    from + blank_length(&text[from..])
}

/// Returns the token at an offset.
fn token_at(text: &[u8], start: usize) -> Option<Token>
    requires { start ≤ length text.now }
    ensures value { result ≡ token_at text.now start }
    ensures within { IfSome result (λ t. LiesIn text.now t × (start < t.end)) }
{
    let lexeme = lexeme_of(&text[start..])?;
    Some(Token {
        kind: lexeme.kind,
        start,
        end: start + lexeme.len,
    })
}

/// Returns the tokens of a source in order, without white space and comments. `NoToken` has the
/// first offset at which a token has to begin and none does.
pub fn tokens(alloc: Global, text: &[u8]) -> Result<Vec<Token>, TokenFault>
    ensures ok { IfOk result (λ v. AreTokens text.now v.items) }
    ensures within { IfOk result (λ v. All (LiesIn text.now) v.items) }
    ensures err { IfErr result (IsTokenFault text.now) }
{
    let mut found = Vec::new(alloc);
    let mut start = next_start(text, mark_length(text));
    while start < text.len() {
        let Some(token) = token_at(text, start) else {
            return Err(TokenFault::NoToken(start));
        };
        found.push(token)?;
        start = next_start(text, token.end);
    }
    Ok(found)
}
