//! Why a condition or a column doesn't fit a schema.

use hagzimot_commands::paths::Misstep;
use hagzimot_commands::strict::Misfit;
use hagzimot_commands::word_calls::WordTrouble;
use hagzimot_expressions::tree::Span;
use std::alloc::{AllocError, AllocFailed};
use std::fmt;
use std::fmt::{Display, Formatter, Write};

/// A reason for which a condition or a column doesn't fit.
#[derive(Debug, Drop)]
pub enum Trouble {
    /// A path leads nowhere.
    Step(Misstep),
    /// A word spells no value of the type that is there.
    Value(WordTrouble),
    /// A value isn't one that the field could have.
    Misfit(Misfit),
    /// Values of this sort can't be compared at all.
    NotCompared(&'static str),
    /// Values of this sort don't compare so.
    NoOrder(&'static str),
    /// Only texts have parts.
    NoParts(&'static str),
    /// The field is always there.
    AlwaysThere,
    /// There is no union.
    NoUnion,
    /// An enum is there.
    Enum { member: String },
    /// The union has no member of a name.
    NoMember { member: String, node: String },
    /// A field isn't a member of the union.
    NotMember { member: String },
    /// A column of each element.
    Each,
    /// A column of what has no text.
    NoColumn(&'static str),
    /// An allocation was refused.
    Memory,
}

impl From<AllocError> for Trouble {
    fn from(_e: AllocError) -> Trouble {
        Trouble::Memory
    }
}

impl<T: Drop> From<AllocFailed<T>> for Trouble {
    fn from(_e: AllocFailed<T>) -> Trouble {
        Trouble::Memory
    }
}

impl From<Misstep> for Trouble {
    fn from(e: Misstep) -> Trouble {
        match e {
            Misstep::Memory => Trouble::Memory,
            misstep => Trouble::Step(misstep),
        }
    }
}

impl From<WordTrouble> for Trouble {
    fn from(e: WordTrouble) -> Trouble {
        match e {
            WordTrouble::Memory => Trouble::Memory,
            WordTrouble::Step(misstep) => Trouble::from(misstep),
            trouble => Trouble::Value(trouble),
        }
    }
}

impl Trouble {
    /// Returns whether an allocation was refused.
    pub fn is_memory(&self) -> bool {
        matches!(self, Trouble::Memory)
    }
}

impl Display for Trouble {
    fn fmt<W: Write>(&self, f: &mut Formatter<W>) -> fmt::Result {
        match self {
            Trouble::Step(misstep) => write!(f, "{misstep}"),
            Trouble::Value(trouble) => write!(f, "{trouble}"),
            Trouble::Misfit(misfit) => write!(f, "{misfit}"),
            Trouble::NotCompared(sort) => write!(
                f,
                "{sort} can't be compared (compare a field or an element of it, or write has PATH)"
            ),
            Trouble::NoOrder(sort) => write!(f, "{sort} has no order (write = or !=)"),
            Trouble::NoParts(sort) => write!(f, "only a text has parts, and this is {sort}"),
            Trouble::AlwaysThere => write!(
                f,
                "this field is always there (compare it with a value)"
            ),
            Trouble::NoUnion => write!(
                f,
                "there is no union here (write has PATH or PATH = VALUE)"
            ),
            Trouble::Enum { member } => write!(
                f,
                "this is an enum, and is asks for a member of a union (write = {member})"
            ),
            Trouble::NoMember { member, node } => write!(
                f,
                "no member \"{member}\" in the union of {node}"
            ),
            Trouble::NotMember { member } => write!(
                f,
                "\"{member}\" is not a member of the union (write has PATH or PATH = VALUE)"
            ),
            Trouble::Each => write!(f, "a column has one value (write an index for *)"),
            Trouble::NoColumn(sort) => write!(
                f,
                "{sort} can't be a column (name a field or an element of it)"
            ),
            Trouble::Memory => write!(f, "there is no memory for it"),
        }
    }
}

/// Such a reason, with its place in the text.
#[derive(Debug, Drop)]
pub struct PlacedTrouble {
    pub span: Span,
    pub why: Trouble,
}
