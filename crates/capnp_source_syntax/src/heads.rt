//! Parts before and after declared names: ids, ordinals, parameters, annotations.

use crate::arguments::expression;
use crate::cursor::{Cursor, mistake_at};
use crate::faults::{SyntaxFault, Wrong};
use crate::tree::{Application, Expression, Name, Number, Targets};
use capnp_source_text::lexemes::TokenKind;

/// The greatest ordinal.
const MOST_ORDINAL: u64 = 65_535;

/// The least id: ids have the highest bit.
const LEAST_ID: u64 = 1 << 63;

/// Reads the next ordinal.
pub(crate) fn ordinal(cursor: &mut Cursor) -> Result<Number, SyntaxFault> {
    cursor.expect_operator(b"@", Wrong::NoOrdinal)?;
    let number = cursor.integer()?;
    if number.value > MOST_ORDINAL {
        return Err(mistake_at(number.span.start, Wrong::OrdinalTooLarge));
    }
    Ok(number)
}

/// Reads the next id.
pub(crate) fn id(cursor: &mut Cursor) -> Result<Number, SyntaxFault> {
    cursor.expect_operator(b"@", Wrong::NoOrdinal)?;
    let number = cursor.integer()?;
    if number.value < LEAST_ID {
        return Err(mistake_at(number.span.start, Wrong::IdTooSmall));
    }
    Ok(number)
}

/// Reads an id if it comes next.
pub(crate) fn optional_id(cursor: &mut Cursor) -> Result<Option<Number>, SyntaxFault> {
    if cursor.is_operator(b"@") {
        return Ok(Some(id(cursor)?));
    }
    Ok(None)
}

/// Reads names with commas between them, up to a closing token.
fn names(cursor: &mut Cursor, close: TokenKind, wrong: Wrong) -> Result<Vec<Name>, SyntaxFault> {
    let mut names = Vec::new(cursor.alloc());
    for _ in 0..cursor.left() {
        names.push(cursor.name()?)?;
        if cursor.take_kind(close) {
            return Ok(names);
        }
        cursor.expect_kind(TokenKind::Comma, wrong)?;
    }
    Err(cursor.mistake(wrong))
}

/// Reads the parameters of a generic type between parentheses, if there are any.
pub(crate) fn type_parameters(cursor: &mut Cursor) -> Result<Vec<Name>, SyntaxFault> {
    if cursor.take_kind(TokenKind::OpenParenthesis) {
        return names(
            cursor,
            TokenKind::CloseParenthesis,
            Wrong::ParenthesisNotClosed,
        );
    }
    Ok(Vec::new(cursor.alloc()))
}

/// Reads the parameters of a generic method between brackets, if there are any.
pub(crate) fn method_parameters(cursor: &mut Cursor) -> Result<Vec<Name>, SyntaxFault> {
    if cursor.take_kind(TokenKind::OpenBracket) {
        return names(cursor, TokenKind::CloseBracket, Wrong::BracketNotClosed);
    }
    Ok(Vec::new(cursor.alloc()))
}

/// Reads one annotation. Its sign was passed.
fn application(cursor: &mut Cursor, start: usize) -> Result<Application, SyntaxFault> {
    let expression = expression(cursor)?;
    let span = cursor.span_from(start);
    Ok(Application { span, expression })
}

/// Reads annotations up to another token.
pub(crate) fn annotations(cursor: &mut Cursor) -> Result<Vec<Application>, SyntaxFault> {
    let mut annotations = Vec::new(cursor.alloc());
    for _ in 0..cursor.left() {
        let start = cursor.here();
        if !cursor.take_operator(b"$") {
            break;
        }
        annotations.push(application(cursor, start)?)?;
    }
    Ok(annotations)
}

/// Reads a colon and a type.
pub(crate) fn type_behind(cursor: &mut Cursor) -> Result<Expression, SyntaxFault> {
    cursor.expect_operator(b":", Wrong::NoColon)?;
    expression(cursor)
}

/// Reads an equals sign and a value, if they come next.
pub(crate) fn default_behind(cursor: &mut Cursor) -> Result<Option<Expression>, SyntaxFault> {
    if cursor.take_operator(b"=") {
        return Ok(Some(expression(cursor)?));
    }
    Ok(None)
}

/// Reads the kinds of declarations to which an annotation may be applied, between parentheses.
pub(crate) fn targets(cursor: &mut Cursor) -> Result<Targets, SyntaxFault> {
    cursor.expect_kind(TokenKind::OpenParenthesis, Wrong::NoTarget)?;
    if cursor.take_operator(b"*") {
        cursor.expect_kind(TokenKind::CloseParenthesis, Wrong::ParenthesisNotClosed)?;
        return Ok(Targets::All);
    }
    let kinds = names(
        cursor,
        TokenKind::CloseParenthesis,
        Wrong::ParenthesisNotClosed,
    )?;
    Ok(Targets::Kinds(kinds))
}

/// Reads the interfaces that an interface extends.
pub(crate) fn extended(cursor: &mut Cursor) -> Result<Vec<Expression>, SyntaxFault> {
    let mut extended = Vec::new(cursor.alloc());
    if !cursor.take_word(b"extends") {
        return Ok(extended);
    }
    cursor.expect_kind(TokenKind::OpenParenthesis, Wrong::ParenthesisNotOpen)?;
    for _ in 0..cursor.left() {
        extended.push(expression(cursor)?)?;
        if cursor.take_kind(TokenKind::CloseParenthesis) {
            return Ok(extended);
        }
        cursor.expect_kind(TokenKind::Comma, Wrong::ParenthesisNotClosed)?;
    }
    Err(cursor.mistake(Wrong::ParenthesisNotClosed))
}
