//! Mistakes in expressions.
ghost use Rattle.std.specs.Prelude.{◌≡◌, ◌≤◌, length, filter};
ghost use Rattle.hagzimot_expressions.specs.Mistakes.{starts_character, IsMistakeAt};

use crate::tree::Span;
use std::alloc::{AllocError, AllocFailed};
use std::fmt;
use std::fmt::{Display, Formatter, Write};

/// A kind of mistake.
#[derive(Clone, Copy, Debug, PartialEq, Eq)]
pub enum Wrong {
    Empty,
    DoubleEquals,
    Reversed,
    NotEqual,
    Matches,
    MatchesNot,
    Exclamation,
    AndWord,
    OrWord,
    Unclosed,
    UnknownEscape,
    NoTest,
    QuotedPath,
    NotPath,
    NoPath,
    NoOperator,
    NoValue,
    NoMember,
    NotClosed,
    NotOpen,
    Behind,
    TooDeep,
    TooMany,
}

impl Wrong {
    /// Returns what is wrong, and what to do.
    pub fn message(self) -> &'static str {
        match self {
            Wrong::Empty => "there is no condition (write one, as status = sent)",
            Wrong::DoubleEquals => "there is no operator == (write =)",
            Wrong::Reversed => "there is no such operator (write <= or >=)",
            Wrong::NotEqual => "there is no operator <> (write !=)",
            Wrong::Matches => "there is no operator =~ (write ~ for a part of a text)",
            Wrong::MatchesNot => "there is no operator !~ (write not PATH ~ VALUE)",
            Wrong::Exclamation => "there is no operator ! (write not)",
            Wrong::AndWord => "conditions are joined by and (write and)",
            Wrong::OrWord => "conditions are joined by or (write or)",
            Wrong::Unclosed => "the text has no closing quote (add it)",
            Wrong::UnknownEscape =>
                "there is no such escape (write \\\\ for a backslash; \\\", \\', \\n and \\t are the others)",
            Wrong::NoTest =>
                "a condition is missing here (write PATH OP VALUE, has PATH or PATH is MEMBER)",
            Wrong::QuotedPath => "a condition begins with a path (write it without quotes)",
            Wrong::NotPath => "this is not a path (write it as lines[0].count or lines[*].count)",
            Wrong::NoPath => "a path is missing behind has (write has PATH)",
            Wrong::NoOperator =>
                "an operator is missing behind the path (write = != < <= > >= ~ or is, or has before the path)",
            Wrong::NoValue => "a value is missing here (write one, in quotes if it has spaces)",
            Wrong::NoMember => "the name of a member is missing behind is (write PATH is MEMBER)",
            Wrong::NotClosed => "this parenthesis is not closed (add a closing one)",
            Wrong::NotOpen => "no parenthesis is open here (take this one out)",
            Wrong::Behind =>
                "a whole condition stands before this (join conditions by and or or; write a text with spaces in quotes)",
            Wrong::TooDeep => "more than 64 parentheses and nots are nested (nest less)",
            Wrong::TooMany => "there are more than 1000 conditions (write fewer)",
        }
    }
}

/// A mistake with its place.
#[derive(Clone, Copy, Debug, PartialEq, Eq)]
pub struct Mistake {
    pub span: Span,
    pub wrong: Wrong,
}

/// Why an expression isn't read.
#[derive(Clone, Copy, Debug, PartialEq, Eq)]
pub enum ExpressionFault {
    Mistake(Mistake),
    /// An allocation was refused.
    Memory,
}

impl From<AllocError> for ExpressionFault {
    ghost use Rattle.std.specs.Prelude.{◌≡◌};
    ghost use Rattle.hagzimot_expressions.specs.declared.mistakes.ExpressionFault.{ExpressionFault};

    ghost from_gives = { λ _ fault. fault ≡ ExpressionFault.Memory };

    fn from(_e: AllocError) -> ExpressionFault {
        ExpressionFault::Memory
    }
}

impl<T: Drop> From<AllocFailed<T>> for ExpressionFault {
    fn from(_e: AllocFailed<T>) -> ExpressionFault {
        ExpressionFault::Memory
    }
}

/// Returns the fault of a mistake.
pub(crate) fn mistake_at(span: Span, wrong: Wrong) -> ExpressionFault
    ensures { IsMistakeAt span wrong result }
{
    ExpressionFault::Mistake(Mistake { span, wrong })
}

/// A place in an expression, as people count: `column 8, paid`.
#[derive(Clone, Copy)]
pub struct Place<'a> {
    pub text: &'a str,
    pub span: Span,
}

/// Returns whether a byte is the first of a character.
fn starts_character(byte: u8) -> bool
    ensures { result ≡ starts_character byte }
{
    byte & 0xc0 != 0x80
}

/// Returns the number of characters that begin in these bytes.
fn characters(bytes: &[u8]) -> usize
    ensures count { result ≡ length (filter starts_character bytes.now) }
    ensures bound { result ≤ length bytes.now }
{
    bytes.iter().filter(|byte| starts_character(**byte)).count()
}

impl Place<'_> {
    ghost use Rattle.std.specs.Prelude.{◌≡◌};
    ghost use Rattle.hagzimot_expressions.specs.Mistakes.{column_of, IsPart};

    /// Returns the number of the first character, counted from 1.
    pub fn column(&self) -> usize
        ensures { result ≡ column_of self.now.text.now self.now.span.start }
    {
        let text = self.text.as_bytes();
        let before = &text[..self.span.start.min(text.len())];
        characters(before) + 1
    }

    /// Returns the part of the text that is there; empty at the end.
    pub fn part(&self) -> &str
        ensures { IsPart self.now.text.now self.now.span result.now }
    {
        match self.text.get(self.span.start..self.span.end) {
            Some(part) => part,
            None => "",
        }
    }
}

impl Display for Place<'_> {
    fn fmt<W: Write>(&self, f: &mut Formatter<W>) -> fmt::Result {
        let column = self.column();
        let part = self.part();
        if part.is_empty() {
            return write!(f, "column {column}");
        }
        write!(f, "column {column}, {part}")
    }
}
