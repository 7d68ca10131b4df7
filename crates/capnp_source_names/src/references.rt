//! The imports and embeds of a file.

use crate::sources::Reference;
use capnp_source_syntax::source_file::SourceFile;
use capnp_source_syntax::tree::{
    Application, Argument, Body, Declaration, Expression, Parameter, Parameters, Root, Span, Step,
};
use std::alloc::{AllocError, Global};
use std::collections::HashSet;

/// The file that declares the result of methods with flow control.
pub const STREAM_FILE: &[u8] = b"/capnp/stream.capnp";

/// References that are collected.
#[derive(Drop)]
struct Collector<'a> {
    alloc: Global,
    /// Whether values count. Otherwise only names of types and annotations do.
    with_values: bool,
    found: Vec<Reference>,
    imports: HashSet<&'a [u8]>,
    embeds: HashSet<&'a [u8]>,
}

/// Adds a path to those that were seen, and returns whether it is new.
fn is_new<'a>(seen: &mut HashSet<&'a [u8]>, path: &'a [u8]) -> Result<bool, AllocError> {
    if seen.contains(&path) {
        return Ok(false);
    }
    seen.insert(path)?;
    Ok(true)
}

impl<'a> Collector<'a> {
    /// Adds a reference, unless it is there already.
    fn add(&mut self, path: &'a [u8], is_embed: bool, span: Span) -> Result<(), AllocError> {
        let is_new = if is_embed {
            is_new(&mut self.embeds, path)?
        } else {
            is_new(&mut self.imports, path)?
        };
        if !is_new {
            return Ok(());
        }
        let path = path.to_vec(self.alloc)?;
        self.found.push(Reference {
            path,
            is_embed,
            span,
        })?;
        Ok(())
    }

    /// Adds the references of a value.
    fn add_value(&mut self, value: &'a Expression) -> Result<(), AllocError> {
        if self.with_values {
            return add_expression(value, self);
        }
        Ok(())
    }

    /// Adds the references of a default.
    fn add_default(&mut self, default: &'a Option<Expression>) -> Result<(), AllocError> {
        match default {
            Some(value) => self.add_value(value),
            None => Ok(()),
        }
    }

    /// Adds the references of annotations.
    fn add_annotations(&mut self, applications: &'a [Application]) -> Result<(), AllocError> {
        for application in applications {
            if self.with_values {
                add_expression(&application.expression, self)?;
            } else if let Expression::Path {
                span,
                root: Root::Import(path),
                ..
            } = &application.expression
            {
                self.add(path, false, *span)?;
            }
        }
        Ok(())
    }

    /// Adds the references of a method's parameter.
    fn add_parameter(&mut self, parameter: &'a Parameter) -> Result<(), AllocError> {
        add_expression(&parameter.ty, self)?;
        self.add_default(&parameter.default)?;
        self.add_annotations(&parameter.annotations)
    }

    /// Adds the references of what a method takes or returns.
    fn add_parameters(&mut self, parameters: &'a Parameters) -> Result<(), AllocError> {
        match parameters {
            Parameters::List(list) => {
                for parameter in list {
                    self.add_parameter(parameter)?;
                }
                Ok(())
            }
            Parameters::Struct(expression) => add_expression(expression, self),
            Parameters::Stream(span) => self.add(STREAM_FILE, false, *span),
        }
    }

    /// Adds the references of what is declared.
    fn add_body(&mut self, body: &'a Body) -> Result<(), AllocError> {
        match body {
            Body::Using { target } => add_expression(target, self),
            Body::Constant { ty, value } => {
                add_expression(ty, self)?;
                self.add_value(value)
            }
            Body::Field { ty, default, .. } => {
                add_expression(ty, self)?;
                self.add_default(default)
            }
            Body::Interface { extends, .. } => {
                for expression in extends {
                    add_expression(expression, self)?;
                }
                Ok(())
            }
            Body::Method { takes, returns, .. } => {
                self.add_parameters(takes)?;
                match returns {
                    Some(returns) => self.add_parameters(returns),
                    None => Ok(()),
                }
            }
            Body::Annotation { ty, .. } => self.add_value(ty),
            Body::Enum
            | Body::Enumerant { .. }
            | Body::Struct { .. }
            | Body::Union { .. }
            | Body::Group => Ok(()),
        }
    }
}

/// Adds the references of arguments.
#[cycle(expressions)]
fn add_arguments<'a>(
    arguments: &'a [Argument],
    collector: &mut Collector<'a>,
) -> Result<(), AllocError> {
    for argument in arguments {
        match argument {
            Argument::Plain(value) => add_expression(value, collector)?,
            Argument::Named { value, .. } => add_expression(value, collector)?,
        }
    }
    Ok(())
}

/// Adds the references of an expression.
#[cycle(expressions)]
fn add_expression<'a>(
    expression: &'a Expression,
    collector: &mut Collector<'a>,
) -> Result<(), AllocError> {
    match expression {
        Expression::List { items, .. } => {
            for item in items {
                add_expression(item, collector)?;
            }
        }
        Expression::Tuple { arguments, .. } => add_arguments(arguments, collector)?,
        Expression::Embed { span, path } => collector.add(path, true, *span)?,
        Expression::Path { span, root, steps } => {
            if let Root::Import(path) = root {
                collector.add(path, false, *span)?;
            }
            for step in steps {
                if let Step::Arguments(arguments) = step {
                    add_arguments(arguments, collector)?;
                }
            }
        }
        Expression::Integer { .. }
        | Expression::Float { .. }
        | Expression::Text { .. }
        | Expression::Bytes { .. } => {}
    }
    Ok(())
}

/// Adds the references of a declaration and its members.
fn add_declaration<'a>(
    declaration: &'a Declaration,
    collector: &mut Collector<'a>,
) -> Result<(), AllocError> {
    collector.add_body(&declaration.body)?;
    collector.add_annotations(&declaration.annotations)?;
    for member in &declaration.members {
        add_declaration(member, collector)?;
    }
    Ok(())
}

/// Returns the references of a file, each path once.
fn collected(
    alloc: Global,
    file: &SourceFile,
    with_values: bool,
) -> Result<Vec<Reference>, AllocError> {
    let mut collector = Collector {
        alloc,
        with_values,
        found: Vec::new(alloc),
        imports: HashSet::new(alloc),
        embeds: HashSet::new(alloc),
    };
    collector.add_annotations(&file.annotations)?;
    for declaration in &file.declarations {
        add_declaration(declaration, &mut collector)?;
    }
    let Collector { found, .. } = collector;
    Ok(found)
}

/// Returns the imports and embeds of a file, each path once, in the order of the source.
pub fn references(alloc: Global, file: &SourceFile) -> Result<Vec<Reference>, AllocError> {
    collected(alloc, file, true)
}

/// Returns the imports in the types and the names of annotations of a file, each path once, in the
/// order of the source. A request lists these as the imports of a file.
pub fn named_imports(alloc: Global, file: &SourceFile) -> Result<Vec<Reference>, AllocError> {
    collected(alloc, file, false)
}
