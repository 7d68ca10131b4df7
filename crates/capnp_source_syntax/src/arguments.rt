//! Types and values in the form in which they are written.

use crate::cursor::{Cursor, ascii, mistake_at};
use crate::faults::{SyntaxFault, Wrong};
use crate::tree::{Argument, Expression, Root, Step};
use capnp_source_text::integers::{IntegerFault, integer_of};
use capnp_source_text::lexemes::TokenKind;

/// The most levels of nested expressions, and of nested declarations.
pub(crate) const MOST_LEVELS: u32 = 64;

/// The most members and arguments that may follow in a path.
const MOST_STEPS: u32 = 64;

/// Returns whether the bytes of a number are those of a float: digits, a fraction, an exponent.
fn is_float(bytes: &[u8]) -> bool {
    let mut has_digit = false;
    let mut has_point = false;
    let mut in_exponent = false;
    for byte in bytes {
        match *byte {
            b'0'..=b'9' => has_digit = true,
            b'.' if !has_point && !in_exponent && has_digit => has_point = true,
            b'e' | b'E' if !in_exponent && has_digit => {
                in_exponent = true;
                has_digit = false;
            }
            b'+' | b'-' if in_exponent && !has_digit => {}
            _ => return false,
        }
    }
    has_digit
}

/// Reads the next number, after its minus sign if there is one.
fn number(cursor: &mut Cursor, start: usize, is_negative: bool) -> Result<Expression, SyntaxFault> {
    let alloc = cursor.alloc();
    let (span, bytes) = cursor.number()?;
    let at = span.start;
    let span = cursor.span_from(start);
    match integer_of(bytes) {
        Ok(magnitude) => Ok(Expression::Integer {
            span,
            is_negative,
            magnitude,
        }),
        Err(IntegerFault::TooLarge) => Err(mistake_at(at, Wrong::IntegerTooLarge)),
        Err(IntegerFault::Malformed) if is_float(bytes) => Ok(Expression::Float {
            span,
            is_negative,
            digits: ascii(alloc, bytes)?,
        }),
        Err(IntegerFault::Malformed) => Err(mistake_at(at, Wrong::MalformedNumber)),
    }
}

/// Reads what follows a minus sign: a number, or `inf`.
fn negative(cursor: &mut Cursor, start: usize) -> Result<Expression, SyntaxFault> {
    if cursor.take_word(b"inf") {
        return Ok(Expression::Float {
            span: cursor.span_from(start),
            is_negative: true,
            digits: String::from_str(cursor.alloc(), "inf")?,
        });
    }
    number(cursor, start, true)
}

/// Reads a text, bytes, or the bytes of a file.
fn literal(cursor: &mut Cursor, start: usize) -> Result<Option<Expression>, SyntaxFault> {
    if cursor.is_kind(TokenKind::Text) {
        let bytes = cursor.text()?;
        let span = cursor.span_from(start);
        return Ok(Some(Expression::Text { span, bytes }));
    }
    if cursor.is_kind(TokenKind::Bytes) {
        let bytes = cursor.literal_bytes()?;
        let span = cursor.span_from(start);
        return Ok(Some(Expression::Bytes { span, bytes }));
    }
    if cursor.is_kind(TokenKind::Number) {
        return Ok(Some(number(cursor, start, false)?));
    }
    if cursor.take_operator(b"-") {
        return Ok(Some(negative(cursor, start)?));
    }
    if cursor.is_word(b"embed") && cursor.is_second_kind(TokenKind::Text) {
        cursor.advance();
        let path = cursor.text()?;
        let span = cursor.span_from(start);
        return Ok(Some(Expression::Embed { span, path }));
    }
    Ok(None)
}

/// Reads the beginning of a path.
fn root(cursor: &mut Cursor) -> Result<Root, SyntaxFault> {
    if cursor.is_word(b"import") && cursor.is_second_kind(TokenKind::Text) {
        cursor.advance();
        return Ok(Root::Import(cursor.text()?));
    }
    if cursor.take_operator(b".") {
        return Ok(Root::Absolute(cursor.name()?));
    }
    if cursor.is_kind(TokenKind::Name) {
        return Ok(Root::Relative(cursor.name()?));
    }
    Err(cursor.mistake(Wrong::NoValue))
}

/// Reads the values between brackets. The first bracket was passed.
#[cycle(expressions)]
fn items(cursor: &mut Cursor, levels: u32) -> Result<Vec<Expression>, SyntaxFault> {
    let mut items = Vec::new(cursor.alloc());
    if cursor.take_kind(TokenKind::CloseBracket) {
        return Ok(items);
    }
    for _ in 0..cursor.left() {
        items.push(expression_within(cursor, levels)?)?;
        if cursor.take_kind(TokenKind::CloseBracket) {
            return Ok(items);
        }
        cursor.expect_kind(TokenKind::Comma, Wrong::BracketNotClosed)?;
    }
    Err(cursor.mistake(Wrong::BracketNotClosed))
}

/// Reads one argument: a value, or a name and its value.
#[cycle(expressions)]
fn argument(cursor: &mut Cursor, levels: u32) -> Result<Argument, SyntaxFault> {
    if cursor.is_kind(TokenKind::Name) && cursor.is_second_operator(b"=") {
        let name = cursor.name()?;
        cursor.advance();
        let value = expression_within(cursor, levels)?;
        return Ok(Argument::Named { name, value });
    }
    Ok(Argument::Plain(expression_within(cursor, levels)?))
}

/// Reads the arguments between parentheses. The first parenthesis was passed.
#[cycle(expressions)]
fn arguments(cursor: &mut Cursor, levels: u32) -> Result<Vec<Argument>, SyntaxFault> {
    let mut arguments = Vec::new(cursor.alloc());
    if cursor.take_kind(TokenKind::CloseParenthesis) {
        return Ok(arguments);
    }
    for _ in 0..cursor.left() {
        arguments.push(argument(cursor, levels)?)?;
        if cursor.take_kind(TokenKind::CloseParenthesis) {
            return Ok(arguments);
        }
        cursor.expect_kind(TokenKind::Comma, Wrong::ParenthesisNotClosed)?;
    }
    Err(cursor.mistake(Wrong::ParenthesisNotClosed))
}

/// Reads the steps after the beginning of a path.
#[cycle(expressions)]
fn steps(cursor: &mut Cursor, levels: u32) -> Result<Vec<Step>, SyntaxFault> {
    let mut steps = Vec::new(cursor.alloc());
    for _ in 0..MOST_STEPS {
        if cursor.take_operator(b".") {
            steps.push(Step::Member(cursor.name()?))?;
        } else if cursor.take_kind(TokenKind::OpenParenthesis) {
            steps.push(Step::Arguments(arguments(cursor, levels)?))?;
        } else {
            return Ok(steps);
        }
    }
    Err(cursor.mistake(Wrong::TooManySteps))
}

/// Reads an expression in which at most `levels` levels may be nested.
#[cycle(expressions)]
fn expression_within(cursor: &mut Cursor, levels: u32) -> Result<Expression, SyntaxFault> {
    if levels == 0 {
        return Err(cursor.mistake(Wrong::TooDeep));
    }
    let start = cursor.here();
    if let Some(literal) = literal(cursor, start)? {
        return Ok(literal);
    }
    if cursor.take_kind(TokenKind::OpenBracket) {
        let items = items(cursor, levels - 1)?;
        let span = cursor.span_from(start);
        return Ok(Expression::List { span, items });
    }
    if cursor.take_kind(TokenKind::OpenParenthesis) {
        let arguments = arguments(cursor, levels - 1)?;
        let span = cursor.span_from(start);
        return Ok(Expression::Tuple { span, arguments });
    }
    let root = root(cursor)?;
    let steps = steps(cursor, levels - 1)?;
    let span = cursor.span_from(start);
    Ok(Expression::Path { span, root, steps })
}

/// Reads the next expression: a type or a value.
pub(crate) fn expression(cursor: &mut Cursor) -> Result<Expression, SyntaxFault> {
    expression_within(cursor, MOST_LEVELS)
}
