//! Expressions as trees.

/// The place of a part of a text: from one byte up to another.
#[derive(Clone, Copy, Debug, PartialEq, Eq)]
pub struct Span {
    pub start: usize,
    pub end: usize,
}

/// A step of a path.
#[derive(Debug, Drop)]
pub enum Step {
    /// To a field of a struct or a group.
    Name(String),
    /// To an element of a list.
    Index(u32),
    /// To each element of a list.
    Each,
}

/// A path from the root of a message.
#[derive(Debug, Drop)]
pub struct Path {
    pub steps: Vec<Step>,
    pub span: Span,
}

/// A value, or the name of a member.
#[derive(Debug, Drop)]
pub struct Word {
    pub text: String,
    pub span: Span,
}

/// An operator between two values.
#[derive(Clone, Copy, Debug, PartialEq, Eq)]
pub enum Operator {
    Equal,
    Unequal,
    Less,
    AtMost,
    Greater,
    AtLeast,
    /// A text has another as a part.
    Contains,
}

/// A single condition.
#[derive(Debug, Drop)]
pub enum Test {
    /// Compares a field with a value.
    Compares {
        path: Path,
        operator: Operator,
        operator_span: Span,
        value: Word,
    },
    /// Asks whether something is there.
    Has(Path),
    /// Asks whether a member of a union is active.
    Is {
        path: Path,
        member: Word,
    },
}

/// A tree of conditions, each by its number, counted from 0.
#[derive(Debug, Drop)]
pub enum Tree {
    Test(usize),
    Not(Box<Tree>),
    And(Box<Tree>, Box<Tree>),
    Or(Box<Tree>, Box<Tree>),
}

/// An expression: its conditions in the order of the text, and how they are joined.
#[derive(Debug, Drop)]
pub struct Expression {
    pub tests: Vec<Test>,
    pub tree: Tree,
}
