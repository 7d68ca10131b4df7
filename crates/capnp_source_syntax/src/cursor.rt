//! A cursor over the tokens of a source.

use crate::faults::{Mistake, SyntaxFault, Wrong};
use crate::tree::{Name, Number, Span};
use capnp_source_text::integers::{IntegerFault, integer_of};
use capnp_source_text::lexemes::TokenKind;
use capnp_source_text::literals::{LiteralFault, bytes_of, text_of};
use capnp_source_text::tokens::Token;
use std::alloc::Global;
use std::str;

/// The tokens of a source from a place on.
#[derive(Drop)]
pub(crate) struct Cursor<'a> {
    alloc: Global,
    text: &'a [u8],
    tokens: &'a [Token],
    at: usize,
}

impl<'a> Cursor<'a> {
    /// Makes a cursor over all tokens of a source.
    pub(crate) fn new(alloc: Global, text: &'a [u8], tokens: &'a [Token]) -> Cursor<'a> {
        Cursor {
            alloc,
            text,
            tokens,
            at: 0,
        }
    }

    /// Returns the allocator for everything that is read.
    pub(crate) fn alloc(&self) -> Global {
        self.alloc
    }

    /// Returns the number of tokens that are left.
    pub(crate) fn left(&self) -> usize {
        self.tokens.len().saturating_sub(self.at)
    }

    /// Returns the next token.
    fn next(&self) -> Option<Token> {
        self.tokens.get(self.at).copied()
    }

    /// Returns the token after the next.
    fn second(&self) -> Option<Token> {
        self.tokens.get(self.at.saturating_add(1)).copied()
    }

    /// Passes the next token.
    pub(crate) fn advance(&mut self) {
        self.at = self.at.saturating_add(1);
    }

    /// Returns the offset of the next token, or of the end if no token is left.
    pub(crate) fn here(&self) -> usize {
        match self.next() {
            Some(token) => token.start,
            None => self.text.len(),
        }
    }

    /// Returns the span from an offset to the end of the last passed token.
    pub(crate) fn span_from(&self, start: usize) -> Span {
        let end = match self.tokens.get(self.at.saturating_sub(1)) {
            Some(token) => token.end,
            None => start,
        };
        Span { start, end }
    }

    /// Returns the fault that something is wrong with the next token.
    pub(crate) fn mistake(&self, wrong: Wrong) -> SyntaxFault {
        SyntaxFault::Mistake(Mistake {
            offset: self.here(),
            wrong,
        })
    }

    /// Returns the bytes of a token.
    fn bytes(&self, token: Token) -> &'a [u8] {
        self.text.get(token.start..token.end).unwrap_or(&[])
    }

    /// Returns whether the next token is of a kind.
    pub(crate) fn is_kind(&self, kind: TokenKind) -> bool {
        match self.next() {
            Some(token) => token.kind == kind,
            None => false,
        }
    }

    /// Passes the next token if it is of a kind, and returns whether it is.
    pub(crate) fn take_kind(&mut self, kind: TokenKind) -> bool {
        let is_kind = self.is_kind(kind);
        if is_kind {
            self.advance();
        }
        is_kind
    }

    /// Passes the next token, which has to be of a kind.
    pub(crate) fn expect_kind(&mut self, kind: TokenKind, wrong: Wrong) -> Result<(), SyntaxFault> {
        if self.take_kind(kind) {
            return Ok(());
        }
        Err(self.mistake(wrong))
    }

    /// Returns whether a token is of a kind and has these bytes.
    fn is_token(&self, token: Option<Token>, kind: TokenKind, bytes: &[u8]) -> bool {
        match token {
            Some(token) => token.kind == kind && self.bytes(token) == bytes,
            None => false,
        }
    }

    /// Returns whether the next token is an operator.
    pub(crate) fn is_operator(&self, operator: &[u8]) -> bool {
        self.is_token(self.next(), TokenKind::Operator, operator)
    }

    /// Returns whether the token after the next is an operator.
    pub(crate) fn is_second_operator(&self, operator: &[u8]) -> bool {
        self.is_token(self.second(), TokenKind::Operator, operator)
    }

    /// Returns whether the token after the next is of a kind.
    pub(crate) fn is_second_kind(&self, kind: TokenKind) -> bool {
        match self.second() {
            Some(token) => token.kind == kind,
            None => false,
        }
    }

    /// Returns whether the next token is a word.
    pub(crate) fn is_word(&self, word: &[u8]) -> bool {
        self.is_token(self.next(), TokenKind::Name, word)
    }

    /// Passes the next token if it is an operator, and returns whether it is.
    pub(crate) fn take_operator(&mut self, operator: &[u8]) -> bool {
        let is_operator = self.is_operator(operator);
        if is_operator {
            self.advance();
        }
        is_operator
    }

    /// Passes the next token if it is a word, and returns whether it is.
    pub(crate) fn take_word(&mut self, word: &[u8]) -> bool {
        let is_word = self.is_word(word);
        if is_word {
            self.advance();
        }
        is_word
    }

    /// Passes the next token, which has to be an operator.
    pub(crate) fn expect_operator(
        &mut self,
        operator: &[u8],
        wrong: Wrong,
    ) -> Result<(), SyntaxFault> {
        if self.take_operator(operator) {
            return Ok(());
        }
        Err(self.mistake(wrong))
    }

    /// Passes the next token, which has to be of a kind, and returns it with its bytes.
    fn take(&mut self, kind: TokenKind, wrong: Wrong) -> Result<(Token, &'a [u8]), SyntaxFault> {
        match self.next() {
            Some(token) if token.kind == kind => {
                self.advance();
                Ok((token, self.bytes(token)))
            }
            _ => Err(self.mistake(wrong)),
        }
    }

    /// Reads and passes the next name.
    pub(crate) fn name(&mut self) -> Result<Name, SyntaxFault> {
        let alloc = self.alloc;
        let (token, bytes) = self.take(TokenKind::Name, Wrong::NoName)?;
        Ok(Name {
            text: ascii(alloc, bytes)?,
            span: span_of(token),
        })
    }

    /// Reads and passes the next integer.
    pub(crate) fn integer(&mut self) -> Result<Number, SyntaxFault> {
        let (token, bytes) = self.take(TokenKind::Number, Wrong::NoInteger)?;
        match integer_of(bytes) {
            Ok(value) => Ok(Number {
                value,
                span: span_of(token),
            }),
            Err(IntegerFault::TooLarge) => Err(mistake_at(token.start, Wrong::IntegerTooLarge)),
            Err(IntegerFault::Malformed) => Err(mistake_at(token.start, Wrong::MalformedNumber)),
        }
    }

    /// Passes the next number, and returns its digits.
    pub(crate) fn number(&mut self) -> Result<(Span, &'a [u8]), SyntaxFault> {
        let (token, bytes) = self.take(TokenKind::Number, Wrong::NoValue)?;
        Ok((span_of(token), bytes))
    }

    /// Passes the next text, and returns its bytes.
    pub(crate) fn text(&mut self) -> Result<Vec<u8>, SyntaxFault> {
        let (token, bytes) = self.take(TokenKind::Text, Wrong::NoText)?;
        let inside = without_ends(bytes, 1);
        match text_of(self.alloc, inside) {
            Ok(text) => Ok(text),
            Err(fault) => Err(literal_fault(fault, token.start, 1, Wrong::UnknownEscape)),
        }
    }

    /// Passes the next literal of bytes, and returns its bytes.
    pub(crate) fn literal_bytes(&mut self) -> Result<Vec<u8>, SyntaxFault> {
        let (token, bytes) = self.take(TokenKind::Bytes, Wrong::NoValue)?;
        let inside = without_ends(bytes, 3);
        match bytes_of(self.alloc, inside) {
            Ok(bytes) => Ok(bytes),
            Err(fault) => Err(literal_fault(fault, token.start, 3, Wrong::NoPairOfDigits)),
        }
    }

    /// Passes the rest of a statement: up to its semicolon or the end of its block. Doesn't pass
    /// the brace that ends the enclosing block.
    pub(crate) fn skip_statement(&mut self) {
        let mut levels: usize = 0;
        for _ in 0..self.left() {
            let Some(token) = self.next() else {
                return;
            };
            match token.kind {
                TokenKind::OpenBrace => levels = levels.saturating_add(1),
                TokenKind::CloseBrace if levels == 0 => return,
                TokenKind::CloseBrace => levels -= 1,
                _ => {}
            }
            self.advance();
            if levels == 0 && matches!(token.kind, TokenKind::CloseBrace | TokenKind::Semicolon) {
                return;
            }
        }
    }
}

/// Returns a mistake at an offset.
pub(crate) fn mistake_at(offset: usize, wrong: Wrong) -> SyntaxFault {
    SyntaxFault::Mistake(Mistake { offset, wrong })
}

/// Returns the span of a token.
fn span_of(token: Token) -> Span {
    Span {
        start: token.start,
        end: token.end,
    }
}

/// Returns the text of ASCII bytes.
pub(crate) fn ascii(alloc: Global, bytes: &[u8]) -> Result<String, SyntaxFault> {
    match str::from_utf8(bytes) {
        Ok(text) => Ok(String::from_str(alloc, text)?),
        Err(_) => Ok(String::new(alloc)),
    }
}

/// Returns a literal without its quotes. `front` is the number of bytes up to and with the first
/// quote.
fn without_ends(bytes: &[u8], front: usize) -> &[u8] {
    let end = bytes.len().saturating_sub(1);
    bytes.get(front..end).unwrap_or(&[])
}

/// Returns the fault of a literal whose first byte between the quotes is `front` bytes after an
/// offset.
fn literal_fault(fault: LiteralFault, start: usize, front: usize, wrong: Wrong) -> SyntaxFault {
    match fault {
        LiteralFault::Piece(at) => {
            mistake_at(start.saturating_add(front).saturating_add(at), wrong)
        }
        LiteralFault::Empty => mistake_at(start, Wrong::NoBytes),
        LiteralFault::Memory => SyntaxFault::Memory,
    }
}
