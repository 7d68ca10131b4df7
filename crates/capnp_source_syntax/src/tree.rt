//! The declarations of a schema source, in the form in which they are written.

/// The span of a part of a source: from one offset up to another.
#[derive(Clone, Copy, Debug, PartialEq, Eq)]
pub struct Span {
    pub start: usize,
    pub end: usize,
}

/// A name that is declared or used.
#[derive(Debug, Drop)]
pub struct Name {
    pub text: String,
    pub span: Span,
}

/// An id or an ordinal.
#[derive(Clone, Copy, Debug, PartialEq, Eq)]
pub struct Number {
    pub value: u64,
    pub span: Span,
}

/// A value or a type. Only resolved names show which of the two it is.
#[cycle(expressions)]
#[derive(Debug, Drop)]
pub enum Expression {
    Integer {
        span: Span,
        is_negative: bool,
        magnitude: u64,
    },
    /// A float, by its digits. After a minus sign they may be `inf`.
    Float {
        span: Span,
        is_negative: bool,
        digits: String,
    },
    Text {
        span: Span,
        bytes: Vec<u8>,
    },
    Bytes {
        span: Span,
        bytes: Vec<u8>,
    },
    /// Values between brackets.
    List {
        span: Span,
        items: Vec<Expression>,
    },
    /// Values between parentheses.
    Tuple {
        span: Span,
        arguments: Vec<Argument>,
    },
    /// The bytes of a file.
    Embed {
        span: Span,
        path: Vec<u8>,
    },
    /// A name, with what follows it: members, and arguments of generic types.
    Path {
        span: Span,
        root: Root,
        steps: Vec<Step>,
    },
}

/// The beginning of a path.
#[derive(Debug, Drop)]
pub enum Root {
    /// A name that is looked up in the enclosing scope, and then further outwards.
    Relative(Name),
    /// A name of the file, after a point.
    Absolute(Name),
    /// A file, by the text of an import.
    Import(Vec<u8>),
}

/// A step of a path.
#[cycle(expressions)]
#[derive(Debug, Drop)]
pub enum Step {
    Member(Name),
    Arguments(Vec<Argument>),
}

/// A value between parentheses.
#[cycle(expressions)]
#[derive(Debug, Drop)]
pub enum Argument {
    Plain(Expression),
    Named { name: Name, value: Expression },
}

/// An annotation at the place to which it is applied.
#[derive(Debug, Drop)]
pub struct Application {
    pub span: Span,
    /// The annotation's name. The last step has the value as arguments, if there is one.
    pub expression: Expression,
}

/// A parameter of a method.
#[derive(Debug, Drop)]
pub struct Parameter {
    pub name: Name,
    pub ty: Expression,
    pub default: Option<Expression>,
    pub annotations: Vec<Application>,
}

/// The parameters or the results of a method.
#[derive(Debug, Drop)]
pub enum Parameters {
    /// Named parameters between parentheses.
    List(Vec<Parameter>),
    /// The fields of a struct.
    Struct(Expression),
    /// Nothing, with flow control: `stream`.
    Stream(Span),
}

/// The kinds of declarations to which an annotation may be applied.
#[derive(Debug, Drop)]
pub enum Targets {
    /// All kinds: `*`.
    All,
    /// These kinds, by their words.
    Kinds(Vec<Name>),
}

/// A declaration.
#[derive(Debug, Drop)]
pub struct Declaration {
    /// The span from the first token up to the semicolon or the block.
    pub span: Span,
    /// The declared name. `None` for a union without a name, and for a `using` that takes the name
    /// of its target.
    pub name: Option<Name>,
    /// The id, if it is written.
    pub id: Option<Number>,
    pub annotations: Vec<Application>,
    pub body: Body,
    /// The declarations in the block.
    pub members: Vec<Declaration>,
}

/// The kind of a declaration, with its parts.
#[derive(Debug, Drop)]
pub enum Body {
    Using {
        target: Expression,
    },
    Constant {
        ty: Expression,
        value: Expression,
    },
    Enum,
    Enumerant {
        ordinal: Number,
    },
    Struct {
        parameters: Vec<Name>,
    },
    Field {
        ordinal: Number,
        ty: Expression,
        default: Option<Expression>,
    },
    Union {
        ordinal: Option<Number>,
    },
    Group,
    Interface {
        parameters: Vec<Name>,
        extends: Vec<Expression>,
    },
    Method {
        ordinal: Number,
        parameters: Vec<Name>,
        takes: Parameters,
        returns: Option<Parameters>,
    },
    Annotation {
        targets: Targets,
        ty: Expression,
    },
}
