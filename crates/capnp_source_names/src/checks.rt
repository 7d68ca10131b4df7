//! Rules for names.

use crate::entries::{given_name, kind_of, target_name};
use crate::problems::{Problems, Stop};
use crate::sources::Loaded;
use capnp_source_syntax::tree::{Body, Declaration, Expression, Name, Parameters, Span};
use std::alloc::Global;
use std::collections::HashSet;

/// The names that are seen.
#[derive(Drop)]
struct Seen<'a> {
    alloc: Global,
    /// The file whose names are checked.
    file: usize,
    /// The number of scopes so far.
    scopes: usize,
    /// Each name with the number of its scope. A union without a name has the name "".
    names: HashSet<(usize, &'a str)>,
}

/// The letters that a name begins with.
#[derive(Clone, Copy, Debug, PartialEq, Eq)]
enum Letters {
    Capital,
    Small,
}

/// Returns the letters that the name of an alias begins with: those of its target.
fn letters_of_target(target: &Expression) -> Letters {
    let name = target_name(target).unwrap_or("");
    match name.as_bytes().first() {
        Some(first) if first.is_ascii_lowercase() => Letters::Small,
        _ => Letters::Capital,
    }
}

/// Returns the letters that the name of a declaration begins with.
fn letters_of(body: &Body) -> Letters {
    match body {
        Body::Using { target } => letters_of_target(target),
        Body::Enum | Body::Struct { .. } | Body::Interface { .. } => Letters::Capital,
        Body::Constant { .. }
        | Body::Enumerant { .. }
        | Body::Field { .. }
        | Body::Union { .. }
        | Body::Group
        | Body::Method { .. }
        | Body::Annotation { .. } => Letters::Small,
    }
}

/// Returns what is wrong with how a name is written.
fn fault_of_style(text: &str, letters: Letters) -> Option<&'static str> {
    let first = text.as_bytes().first().copied().unwrap_or(b'a');
    if letters == Letters::Capital && !first.is_ascii_uppercase() {
        return Some("the name of a type begins with a small letter (write a capital letter)");
    }
    if letters == Letters::Small && !first.is_ascii_lowercase() {
        return Some("only the name of a type begins with a capital letter (write a small letter)");
    }
    if text.as_bytes().contains(&b'_') {
        return Some("the name has an underscore (write it as in `camelCase`)");
    }
    None
}

impl<'a> Seen<'a> {
    /// Begins a scope, and returns its number.
    fn open(&mut self) -> usize {
        self.scopes = self.scopes.saturating_add(1);
        self.scopes
    }

    /// Notes a problem of the file.
    fn tell(&self, problems: &mut Problems, span: Span, text: &str) -> Result<(), Stop> {
        let text = String::from_str(self.alloc, text)?;
        problems.tell(self.file, span, text)
    }

    /// Checks that the name of a declaration is free in a scope, and takes it.
    fn take_name(
        &mut self,
        problems: &mut Problems,
        name: &'a Name,
        scope: usize,
    ) -> Result<(), Stop> {
        let text = name.text.as_str();
        if self.names.contains(&(scope, text)) {
            let wrong = format!(in self.alloc;
                "the name \"{text}\" is taken already in this scope (take another)"
            )?;
            return problems.tell(self.file, name.span, wrong);
        }
        self.names.insert((scope, text))?;
        Ok(())
    }

    /// Checks the names of what a method takes or returns.
    fn check_parameters(
        &mut self,
        problems: &mut Problems,
        parameters: &'a Parameters,
    ) -> Result<(), Stop> {
        if let Parameters::List(list) = parameters {
            let scope = self.open();
            for parameter in list {
                self.take_name(problems, &parameter.name, scope)?;
            }
        }
        Ok(())
    }

    /// Checks the names of the parameters and results of a method.
    fn check_method(&mut self, problems: &mut Problems, body: &'a Body) -> Result<(), Stop> {
        if let Body::Method { takes, returns, .. } = body {
            self.check_parameters(problems, takes)?;
            if let Some(returns) = returns {
                self.check_parameters(problems, returns)?;
            }
        }
        Ok(())
    }

    /// Checks the name of a declaration in a scope.
    fn check_name(
        &mut self,
        problems: &mut Problems,
        name: &'a Name,
        scope: usize,
        letters: Letters,
    ) -> Result<(), Stop> {
        self.take_name(problems, name, scope)?;
        match fault_of_style(name.text.as_str(), letters) {
            Some(wrong) => self.tell(problems, name.span, wrong),
            None => Ok(()),
        }
    }

    /// Checks a declaration without a name: a union, or a `using` whose target has no name.
    fn check_unnamed(
        &mut self,
        problems: &mut Problems,
        declaration: &Declaration,
        scope: usize,
    ) -> Result<(), Stop> {
        let span = declaration.span;
        if matches!(declaration.body, Body::Using { .. }) {
            let wrong = "the target of this `using` has no name (write `using Name = ..`)";
            return self.tell(problems, span, wrong);
        }
        if !declaration.annotations.is_empty() {
            let wrong = "a union without a name has annotations (give it a name, or take them out)";
            self.tell(problems, span, wrong)?;
        }
        if self.names.contains(&(scope, "")) {
            let wrong = "the struct has a union without a name already (give this one a name)";
            return self.tell(problems, span, wrong);
        }
        self.names.insert((scope, ""))?;
        Ok(())
    }

    /// Checks the name of a declaration, and whether it may be where it is.
    fn check_one(
        &mut self,
        problems: &mut Problems,
        declaration: &'a Declaration,
        scope: usize,
        is_in_group: bool,
    ) -> Result<(), Stop> {
        match given_name(declaration) {
            Some(name) => {
                let letters = letters_of(&declaration.body);
                self.check_name(problems, name, scope, letters)?;
            }
            None => self.check_unnamed(problems, declaration, scope)?,
        }
        self.check_method(problems, &declaration.body)?;
        if is_in_group && kind_of(&declaration.body).is_some() {
            let wrong = "this is declared in a group or a union (move it out of there)";
            self.tell(problems, declaration.span, wrong)?;
        }
        Ok(())
    }
}

/// Checks a declaration in a scope, and its members.
fn check_declaration<'a>(
    declaration: &'a Declaration,
    seen: &mut Seen<'a>,
    problems: &mut Problems,
    scope: usize,
    is_in_group: bool,
) -> Result<(), Stop> {
    seen.check_one(problems, declaration, scope, is_in_group)?;
    let is_group = matches!(declaration.body, Body::Group | Body::Union { .. });
    let inner = if is_group && declaration.name.is_none() {
        scope
    } else {
        seen.open()
    };
    for member in &declaration.members {
        check_declaration(member, seen, problems, inner, is_group)?;
    }
    Ok(())
}

/// Checks the names of a file's declarations and their members.
pub fn check_names(
    alloc: Global,
    number: usize,
    file: &Loaded,
    problems: &mut Problems,
) -> Result<(), Stop> {
    let mut seen = Seen {
        alloc,
        file: number,
        scopes: 0,
        names: HashSet::new(alloc),
    };
    for declaration in &file.file.declarations {
        check_declaration(declaration, &mut seen, problems, 0, false)?;
    }
    Ok(())
}
