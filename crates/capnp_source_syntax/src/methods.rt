//! Methods of interfaces.

use crate::arguments::expression;
use crate::cursor::Cursor;
use crate::faults::{SyntaxFault, Wrong};
use crate::heads::{annotations, default_behind, method_parameters, ordinal, type_behind};
use crate::tree::{Body, Parameter, Parameters};
use capnp_source_text::lexemes::TokenKind;

/// Reads one parameter.
fn parameter(cursor: &mut Cursor) -> Result<Parameter, SyntaxFault> {
    let name = cursor.name()?;
    let ty = type_behind(cursor)?;
    let default = default_behind(cursor)?;
    let annotations = annotations(cursor)?;
    Ok(Parameter {
        name,
        ty,
        default,
        annotations,
    })
}

/// Reads parameters between parentheses. The first parenthesis was passed.
fn parameter_list(cursor: &mut Cursor) -> Result<Vec<Parameter>, SyntaxFault> {
    let mut list = Vec::new(cursor.alloc());
    if cursor.take_kind(TokenKind::CloseParenthesis) {
        return Ok(list);
    }
    for _ in 0..cursor.left() {
        list.push(parameter(cursor)?)?;
        if cursor.take_kind(TokenKind::CloseParenthesis) {
            return Ok(list);
        }
        cursor.expect_kind(TokenKind::Comma, Wrong::ParenthesisNotClosed)?;
    }
    Err(cursor.mistake(Wrong::ParenthesisNotClosed))
}

/// Reads the parameters or the results of a method.
fn parameters(cursor: &mut Cursor) -> Result<Parameters, SyntaxFault> {
    if cursor.take_kind(TokenKind::OpenParenthesis) {
        return Ok(Parameters::List(parameter_list(cursor)?));
    }
    Ok(Parameters::Struct(expression(cursor)?))
}

/// Reads the results of a method, if they are written.
fn returned(cursor: &mut Cursor) -> Result<Option<Parameters>, SyntaxFault> {
    if !cursor.take_operator(b"->") {
        return Ok(None);
    }
    let start = cursor.here();
    if cursor.take_word(b"stream") {
        return Ok(Some(Parameters::Stream(cursor.span_from(start))));
    }
    Ok(Some(parameters(cursor)?))
}

/// Reads a method. Its name was passed.
pub(crate) fn method(cursor: &mut Cursor) -> Result<Body, SyntaxFault> {
    let ordinal = ordinal(cursor)?;
    let generic = method_parameters(cursor)?;
    let takes = parameters(cursor)?;
    let returns = returned(cursor)?;
    Ok(Body::Method {
        ordinal,
        parameters: generic,
        takes,
        returns,
    })
}
