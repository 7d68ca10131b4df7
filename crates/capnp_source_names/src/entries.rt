//! Entries: what has a name and a scope.

use capnp_source_syntax::tree::{
    Application, Body, Declaration, Expression, Name, Root, Span, Step,
};

/// The kind of an entry.
#[derive(Clone, Copy, Debug, PartialEq, Eq)]
pub enum Kind {
    File,
    Struct,
    Enum,
    Interface,
    Constant,
    Annotation,
    /// Another name, which `using` declares.
    Alias,
}

/// Something that has a name and a scope.
#[derive(Drop)]
pub struct Entry<'a> {
    pub kind: Kind,
    /// The file, by its place in the list of files.
    pub file: usize,
    /// The entry around it, by its index; `None` of a file.
    pub scope: Option<usize>,
    pub name: &'a str,
    /// Its name in the source.
    pub span: Span,
    pub id: u64,
    pub display_name: String,
    /// The bytes of the display name before its own name.
    pub prefix_length: usize,
    /// Its own type parameters.
    pub parameters: &'a [Name],
    /// Whether it or a scope around it has type parameters.
    pub is_generic: bool,
    /// The entries in it by their index, in the order of the source.
    pub children: Vec<usize>,
    pub annotations: &'a [Application],
    /// `None` of a file.
    pub declaration: Option<&'a Declaration>,
}

/// Returns what a declaration is, if it has a name and a scope.
pub(crate) fn kind_of(body: &Body) -> Option<Kind> {
    match body {
        Body::Using { .. } => Some(Kind::Alias),
        Body::Constant { .. } => Some(Kind::Constant),
        Body::Enum => Some(Kind::Enum),
        Body::Struct { .. } => Some(Kind::Struct),
        Body::Interface { .. } => Some(Kind::Interface),
        Body::Annotation { .. } => Some(Kind::Annotation),
        Body::Enumerant { .. }
        | Body::Field { .. }
        | Body::Union { .. }
        | Body::Group
        | Body::Method { .. } => None,
    }
}

/// Returns the type parameters of a declaration.
pub(crate) fn parameters_of(body: &Body) -> &[Name] {
    match body {
        Body::Struct { parameters } => parameters,
        Body::Interface { parameters, .. } => parameters,
        _ => &[],
    }
}

/// Returns the name that a path ends with.
fn last_name(path: &Expression) -> Option<&Name> {
    let Expression::Path { root, steps, .. } = path else {
        return None;
    };
    match steps.last() {
        Some(Step::Member(name)) => Some(name),
        Some(Step::Arguments(_)) => None,
        None => match root {
            Root::Relative(name) => Some(name),
            Root::Absolute(name) => Some(name),
            Root::Import(_) => None,
        },
    }
}

/// Returns the name that a path ends with, without its arguments. `None` if it is that of a file.
pub(crate) fn target_name(path: &Expression) -> Option<&str> {
    let Expression::Path { root, steps, .. } = path else {
        return None;
    };
    for step in steps.iter().rev() {
        if let Step::Member(name) = step {
            return Some(name.text.as_str());
        }
    }
    match root {
        Root::Relative(name) => Some(name.text.as_str()),
        Root::Absolute(name) => Some(name.text.as_str()),
        Root::Import(_) => None,
    }
}

/// Returns the name that a declaration gives: its own, or that of the target of a `using`.
pub(crate) fn given_name(declaration: &Declaration) -> Option<&Name> {
    if let Some(name) = &declaration.name {
        return Some(name);
    }
    match &declaration.body {
        Body::Using { target } => last_name(target),
        _ => None,
    }
}
