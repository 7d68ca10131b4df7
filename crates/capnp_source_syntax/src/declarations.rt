//! Declarations.

use crate::arguments::{MOST_LEVELS, expression};
use crate::cursor::Cursor;
use crate::faults::{Mistake, SyntaxFault, Wrong};
use crate::heads::{
    annotations, default_behind, extended, optional_id, ordinal, targets, type_behind,
    type_parameters,
};
use crate::methods::method;
use crate::tree::{Body, Declaration, Name, Number};
use capnp_source_text::lexemes::TokenKind;
use std::alloc::AllocError;

/// The most mistakes that are reported.
const MOST_MISTAKES: usize = 20;

/// The place of a declaration.
#[derive(Clone, Copy, Debug, PartialEq, Eq)]
pub(crate) enum Place {
    File,
    Struct,
    Enum,
    Interface,
}

/// A declaration up to its semicolon or its block.
#[derive(Drop)]
struct Head {
    name: Option<Name>,
    id: Option<Number>,
    body: Body,
    /// The place of the members, if the declaration has a block.
    block: Option<Place>,
}

/// Makes the head of a declaration without a block.
fn statement(name: Name, body: Body) -> Head {
    Head {
        name: Some(name),
        id: None,
        body,
        block: None,
    }
}

/// Reads `using`: a name for a target, or the target's own name.
fn using(cursor: &mut Cursor) -> Result<Head, SyntaxFault> {
    let mut name = None;
    if cursor.is_kind(TokenKind::Name) && cursor.is_second_operator(b"=") {
        name = Some(cursor.name()?);
        cursor.advance();
    }
    let target = expression(cursor)?;
    Ok(Head {
        name,
        id: None,
        body: Body::Using { target },
        block: None,
    })
}

/// Reads a constant.
fn constant(cursor: &mut Cursor) -> Result<Head, SyntaxFault> {
    let name = Some(cursor.name()?);
    let id = optional_id(cursor)?;
    let ty = type_behind(cursor)?;
    cursor.expect_operator(b"=", Wrong::NoEqualsSign)?;
    let value = expression(cursor)?;
    Ok(Head {
        name,
        id,
        body: Body::Constant { ty, value },
        block: None,
    })
}

/// Reads an annotation.
fn annotation(cursor: &mut Cursor) -> Result<Head, SyntaxFault> {
    let name = Some(cursor.name()?);
    let id = optional_id(cursor)?;
    let targets = targets(cursor)?;
    let ty = type_behind(cursor)?;
    Ok(Head {
        name,
        id,
        body: Body::Annotation { targets, ty },
        block: None,
    })
}

/// Reads an enum.
fn enumeration(cursor: &mut Cursor) -> Result<Head, SyntaxFault> {
    let name = Some(cursor.name()?);
    let id = optional_id(cursor)?;
    Ok(Head {
        name,
        id,
        body: Body::Enum,
        block: Some(Place::Enum),
    })
}

/// Reads a struct.
fn structure(cursor: &mut Cursor) -> Result<Head, SyntaxFault> {
    let name = Some(cursor.name()?);
    let id = optional_id(cursor)?;
    let parameters = type_parameters(cursor)?;
    Ok(Head {
        name,
        id,
        body: Body::Struct { parameters },
        block: Some(Place::Struct),
    })
}

/// Reads an interface.
fn interface(cursor: &mut Cursor) -> Result<Head, SyntaxFault> {
    let name = Some(cursor.name()?);
    let id = optional_id(cursor)?;
    let parameters = type_parameters(cursor)?;
    let extends = extended(cursor)?;
    Ok(Head {
        name,
        id,
        body: Body::Interface {
            parameters,
            extends,
        },
        block: Some(Place::Interface),
    })
}

/// Passes a word, and reads what it declares.
fn keyword(cursor: &mut Cursor, place: Place) -> Result<Head, SyntaxFault> {
    if cursor.take_word(b"using") {
        using(cursor)
    } else if cursor.take_word(b"const") {
        constant(cursor)
    } else if cursor.take_word(b"annotation") {
        annotation(cursor)
    } else if cursor.take_word(b"enum") {
        enumeration(cursor)
    } else if cursor.take_word(b"struct") {
        structure(cursor)
    } else if cursor.take_word(b"interface") {
        interface(cursor)
    } else if place == Place::Struct && cursor.take_word(b"union") {
        Ok(Head {
            name: None,
            id: None,
            body: Body::Union { ordinal: None },
            block: Some(Place::Struct),
        })
    } else if cursor.is_kind(TokenKind::Name) {
        Err(cursor.mistake(Wrong::UnknownWord))
    } else {
        Err(cursor.mistake(Wrong::NoName))
    }
}

/// Reads a union or a group with a name, or a field.
fn struct_member(cursor: &mut Cursor) -> Result<Head, SyntaxFault> {
    let name = cursor.name()?;
    let mut number = None;
    if cursor.is_operator(b"@") {
        number = Some(ordinal(cursor)?);
        cursor.take_operator(b"!");
    }
    cursor.expect_operator(b":", Wrong::NoColon)?;
    if cursor.take_word(b"union") {
        return Ok(Head {
            name: Some(name),
            id: None,
            body: Body::Union { ordinal: number },
            block: Some(Place::Struct),
        });
    }
    let Some(ordinal) = number else {
        if cursor.take_word(b"group") {
            return Ok(Head {
                name: Some(name),
                id: None,
                body: Body::Group,
                block: Some(Place::Struct),
            });
        }
        return Err(cursor.mistake(Wrong::NoOrdinal));
    };
    let ty = expression(cursor)?;
    let default = default_behind(cursor)?;
    Ok(statement(
        name,
        Body::Field {
            ordinal,
            ty,
            default,
        },
    ))
}

/// Reads a declaration up to its annotations, and a semicolon or a block.
fn head_in(cursor: &mut Cursor, place: Place) -> Result<Head, SyntaxFault> {
    if place == Place::Enum {
        let name = cursor.name()?;
        let ordinal = ordinal(cursor)?;
        return Ok(statement(name, Body::Enumerant { ordinal }));
    }
    if !cursor.is_second_operator(b"@") && !cursor.is_second_operator(b":") {
        return keyword(cursor, place);
    }
    match place {
        Place::Struct => struct_member(cursor),
        Place::Interface => {
            let name = cursor.name()?;
            let body = method(cursor)?;
            Ok(statement(name, body))
        }
        _ => Err(cursor.mistake(Wrong::MemberOutside)),
    }
}

/// Reads a declaration in which at most `levels` levels may be nested.
#[cycle(declarations)]
fn declaration(
    cursor: &mut Cursor,
    mistakes: &mut Vec<Mistake>,
    place: Place,
    levels: u32,
) -> Result<Declaration, SyntaxFault> {
    let start = cursor.here();
    let Head {
        name,
        id,
        body,
        block,
    } = head_in(cursor, place)?;
    let annotations = annotations(cursor)?;
    let span = cursor.span_from(start);
    let members = match block {
        Some(inner) => members(cursor, mistakes, inner, levels)?,
        None => {
            cursor.expect_kind(TokenKind::Semicolon, Wrong::NoSemicolon)?;
            Vec::new(cursor.alloc())
        }
    };
    Ok(Declaration {
        span,
        name,
        id,
        annotations,
        body,
        members,
    })
}

/// Returns whether the last mistake is at an offset.
fn is_told(mistakes: &[Mistake], offset: usize) -> bool {
    match mistakes.last() {
        Some(last) => last.offset == offset,
        None => false,
    }
}

/// Appends a mistake, unless the most mistakes are already there or the last mistake is at the same
/// offset.
pub(crate) fn tell(mistakes: &mut Vec<Mistake>, mistake: Mistake) -> Result<(), AllocError> {
    if mistakes.len() < MOST_MISTAKES && !is_told(mistakes, mistake.offset) {
        mistakes.push(mistake)?;
    }
    Ok(())
}

/// Notes a mistake, and passes the rest of its statement. Returns the fault if it is a refused
/// allocation.
pub(crate) fn note(
    cursor: &mut Cursor,
    mistakes: &mut Vec<Mistake>,
    fault: SyntaxFault,
) -> Result<(), SyntaxFault> {
    match fault {
        SyntaxFault::Memory => Err(SyntaxFault::Memory),
        SyntaxFault::Mistake(mistake) => {
            tell(mistakes, mistake)?;
            cursor.skip_statement();
            Ok(())
        }
    }
}

/// Reads the declarations of a block, with its braces.
#[cycle(declarations)]
fn members(
    cursor: &mut Cursor,
    mistakes: &mut Vec<Mistake>,
    place: Place,
    levels: u32,
) -> Result<Vec<Declaration>, SyntaxFault> {
    if levels == 0 {
        return Err(cursor.mistake(Wrong::TooDeep));
    }
    cursor.expect_kind(TokenKind::OpenBrace, Wrong::NoBlock)?;
    let mut declared = Vec::new(cursor.alloc());
    for _ in 0..cursor.left() {
        if cursor.take_kind(TokenKind::CloseBrace) {
            return Ok(declared);
        }
        if cursor.left() == 0 {
            break;
        }
        match declaration(cursor, mistakes, place, levels - 1) {
            Ok(member) => declared.push(member)?,
            Err(fault) => note(cursor, mistakes, fault)?,
        }
    }
    Err(cursor.mistake(Wrong::BlockNotClosed))
}

/// Reads the next declaration of a file.
pub(crate) fn outermost(
    cursor: &mut Cursor,
    mistakes: &mut Vec<Mistake>,
) -> Result<Declaration, SyntaxFault> {
    declaration(cursor, mistakes, Place::File, MOST_LEVELS)
}
