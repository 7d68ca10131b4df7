//! Whole schema sources.

ghost use Rattle.std.specs.Prelude.{◌≡◌, ◌≤◌, length, All, IfOk, IfErr};
ghost use Rattle.capnp_source_syntax.specs.SourceFaults.{IsSourceFault};

use crate::cursor::{Cursor, mistake_at};
use crate::declarations::{note, outermost, tell};
use crate::faults::{Mistake, SyntaxFault, Wrong};
use crate::heads::{annotations, id};
use crate::tree::{Application, Declaration, Number};
use capnp_source_text::lexemes::TokenKind;
use capnp_source_text::tokens::{Token, TokenFault, tokens};
use std::alloc::{AllocError, AllocFailed, Global};

/// The declarations of a file.
#[derive(Debug, Drop)]
pub struct SourceFile {
    /// The id of the file, if it is written.
    pub id: Option<Number>,
    pub annotations: Vec<Application>,
    pub declarations: Vec<Declaration>,
}

/// The reason why a file can't be read.
#[derive(Debug, Drop)]
pub enum SourceFault {
    /// The mistakes in the order in which they were found: at least one and at most twenty.
    Mistakes(Vec<Mistake>),
    /// An allocation was refused.
    Memory,
}

impl From<AllocError> for SourceFault {
    ghost use Rattle.std.specs.Prelude.{◌≡◌};
    ghost use Rattle.capnp_source_syntax.specs.declared.source_file.SourceFault.{SourceFault};

    ghost from_gives = { λ _ fault. fault ≡ SourceFault.Memory };

    fn from(_e: AllocError) -> SourceFault {
        SourceFault::Memory
    }
}

impl<T: Drop> From<AllocFailed<T>> for SourceFault {
    ghost use Rattle.std.specs.Prelude.{◌≡◌};
    ghost use Rattle.capnp_source_syntax.specs.declared.source_file.SourceFault.{SourceFault};

    ghost from_gives = { λ _ fault. fault ≡ SourceFault.Memory };

    fn from(_e: AllocFailed<T>) -> SourceFault {
        SourceFault::Memory
    }
}

/// Returns the mistakes of a text, with no offset after its end.
fn mistakes_in(alloc: Global, text: &[u8], mistakes: &[Mistake]) -> Result<Vec<Mistake>, AllocError>
    ensures inside { IfOk result (λ v. All (λ m. m.offset ≤ length text.now) v.items) }
    ensures count { IfOk result (λ v. length v.items ≡ length mistakes.now) }
{
    let mut told = Vec::new(alloc);
    let mut left = mistakes;
    while let [mistake, others @ ..] = left {
        let Mistake { offset, wrong } = *mistake;
        let offset = offset.min(text.len());
        told.push(Mistake { offset, wrong })?;
        left = others;
    }
    Ok(told)
}

/// Returns the mistake at an offset at which no token begins.
fn token_mistake(text: &[u8], offset: usize) -> Mistake {
    let wrong = match text.get(offset) {
        Some(b'"') => Wrong::UnclosedText,
        Some(b'0') => Wrong::UnclosedBytes,
        _ => Wrong::UnknownByte,
    };
    Mistake { offset, wrong }
}

/// Reads one statement of a file.
fn statement(
    cursor: &mut Cursor,
    mistakes: &mut Vec<Mistake>,
    file: &mut SourceFile,
) -> Result<(), SyntaxFault> {
    if cursor.is_operator(b"@") {
        let number = id(cursor)?;
        cursor.expect_kind(TokenKind::Semicolon, Wrong::NoSemicolon)?;
        if file.id.is_some() {
            return Err(mistake_at(number.span.start, Wrong::IdTwice));
        }
        file.id = Some(number);
        return Ok(());
    }
    if cursor.is_operator(b"$") {
        for application in annotations(cursor)? {
            file.annotations.push(application)?;
        }
        return cursor.expect_kind(TokenKind::Semicolon, Wrong::NoSemicolon);
    }
    if cursor.is_kind(TokenKind::CloseBrace) {
        let offset = cursor.here();
        cursor.advance();
        let wrong = Wrong::BlockNotOpen;
        return Ok(tell(mistakes, Mistake { offset, wrong })?);
    }
    file.declarations.push(outermost(cursor, mistakes)?)?;
    Ok(())
}

/// Reads the declarations in the tokens of a file.
fn declared(
    alloc: Global,
    text: &[u8],
    tokens: &[Token],
) -> Result<(SourceFile, Vec<Mistake>), SyntaxFault> {
    let mut cursor = Cursor::new(alloc, text, tokens);
    let mut mistakes = Vec::new(alloc);
    let mut file = SourceFile {
        id: None,
        annotations: Vec::new(alloc),
        declarations: Vec::new(alloc),
    };
    for _ in 0..tokens.len() {
        if cursor.left() == 0 {
            break;
        }
        if let Err(fault) = statement(&mut cursor, &mut mistakes, &mut file) {
            note(&mut cursor, &mut mistakes, fault)?;
        }
    }
    Ok((file, mistakes))
}

/// Returns the declarations of a file, which is given by its text. If the file has mistakes, they
/// are returned, each with an offset in the text or the offset of its end.
pub fn source_file(alloc: Global, text: &[u8]) -> Result<SourceFile, SourceFault>
    ensures { IfErr result (IsSourceFault text.now) }
{
    let tokens = match tokens(alloc, text) {
        Ok(tokens) => tokens,
        Err(TokenFault::NoToken(offset)) => {
            let mut mistakes = Vec::new(alloc);
            mistakes.push(token_mistake(text, offset))?;
            return Err(SourceFault::Mistakes(mistakes_in(alloc, text, &mistakes)?));
        }
        Err(TokenFault::Memory) => return Err(SourceFault::Memory),
    };
    match declared(alloc, text, &tokens) {
        Ok((file, mistakes)) => {
            if mistakes.is_empty() {
                return Ok(file);
            }
            Err(SourceFault::Mistakes(mistakes_in(alloc, text, &mistakes)?))
        }
        Err(_) => Err(SourceFault::Memory),
    }
}
