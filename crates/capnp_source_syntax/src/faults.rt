//! Mistakes in schema sources.

use std::alloc::{AllocError, AllocFailed};

/// A kind of mistake.
#[derive(Clone, Copy, Debug, PartialEq, Eq)]
pub enum Wrong {
    UnknownByte,
    UnclosedText,
    UnclosedBytes,
    MalformedNumber,
    IntegerTooLarge,
    UnknownEscape,
    NoBytes,
    NoPairOfDigits,
    OrdinalTooLarge,
    IdTooSmall,
    IdTwice,
    TooDeep,
    TooManySteps,
    UnknownWord,
    MemberOutside,
    BlockNotOpen,
    NoName,
    NoOrdinal,
    NoInteger,
    NoText,
    NoValue,
    NoTarget,
    NoColon,
    NoEqualsSign,
    NoSemicolon,
    NoBlock,
    BlockNotClosed,
    ParenthesisNotOpen,
    ParenthesisNotClosed,
    BracketNotClosed,
}

impl Wrong {
    /// Returns the text that says what is wrong, and what to do.
    pub fn message(self) -> &'static str {
        match self {
            Wrong::UnknownByte => "no token begins with this byte (take it out)",
            Wrong::UnclosedText => "the text has no closing quote on its line (add it)",
            Wrong::UnclosedBytes => "the bytes have no closing quote (add it)",
            Wrong::MalformedNumber => "this is no number (write digits, or 0x and digits)",
            Wrong::IntegerTooLarge => "the integer takes more than 64 bits (write a smaller one)",
            Wrong::UnknownEscape => "the text has an unknown escape (write \\\\ for a backslash)",
            Wrong::NoBytes => "there are no bytes between the quotes (write two digits for each)",
            Wrong::NoPairOfDigits => "a byte isn't two hexadecimal digits (write both)",
            Wrong::OrdinalTooLarge => "the ordinal is above 65535 (write a smaller one)",
            Wrong::IdTooSmall => "the id lacks the highest bit (take one of `hagzimot id`)",
            Wrong::IdTwice => "the file has an id already (take one out)",
            Wrong::TooDeep => "more than 64 levels are nested (nest less)",
            Wrong::TooManySteps => "the name has more than 64 parts (name a part by `using`)",
            Wrong::UnknownWord => "nothing is declared by this word (write `struct`, or a member)",
            Wrong::MemberOutside => "members stand in a struct or an interface (move it there)",
            Wrong::BlockNotOpen => "no block is open here (take the brace out)",
            Wrong::NoName => "a name is missing here",
            Wrong::NoOrdinal => "an ordinal is missing here (write `@` and a number)",
            Wrong::NoInteger => "an integer is missing here",
            Wrong::NoText => "a text between quotes is missing here",
            Wrong::NoValue => "a type or a value is missing here",
            Wrong::NoTarget => "what it may be applied to is missing here (write `*` for anything)",
            Wrong::NoColon => "a colon and a type are missing here",
            Wrong::NoEqualsSign => "an equals sign is missing here",
            Wrong::NoSemicolon => "a semicolon is missing here",
            Wrong::NoBlock => "a block is missing here (write `{`)",
            Wrong::BlockNotClosed => "the source ends in a block (close it by `}`)",
            Wrong::ParenthesisNotOpen => "an opening parenthesis is missing here",
            Wrong::ParenthesisNotClosed => "a comma or a closing parenthesis is missing here",
            Wrong::BracketNotClosed => "a comma or a closing bracket is missing here",
        }
    }
}

/// A mistake, with its offset.
#[derive(Clone, Copy, Debug, PartialEq, Eq)]
pub struct Mistake {
    pub offset: usize,
    pub wrong: Wrong,
}

/// The reason why a part of a source can't be read.
#[derive(Clone, Copy, Debug, PartialEq, Eq)]
pub enum SyntaxFault {
    Mistake(Mistake),
    /// An allocation was refused.
    Memory,
}

impl From<AllocError> for SyntaxFault {
    fn from(_e: AllocError) -> SyntaxFault {
        SyntaxFault::Memory
    }
}

impl<T: Drop> From<AllocFailed<T>> for SyntaxFault {
    fn from(_e: AllocFailed<T>) -> SyntaxFault {
        SyntaxFault::Memory
    }
}
