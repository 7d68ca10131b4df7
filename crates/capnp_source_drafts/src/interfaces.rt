//! The nodes of interfaces.

use crate::context::{Context, texts_of};
use crate::drafts::{Drafts, MarkJob, Spot, Subject};
use crate::methods::{Side, side_of};
use capnp_source_names::entries::Kind;
use capnp_source_names::problems::{Problems, Stop};
use capnp_source_nodes::nodes::{Interface, Method, Superclass};
use capnp_source_structs::ordinals::{Numbered, in_order, ordinal_of, short};
use capnp_source_syntax::tree::{
    Application, Body, Declaration, Expression, Name, Number, Parameters,
};
use capnp_source_types::paths::{span_of, target_of};
use capnp_source_types::targets::Target;

/// A method as it is written.
#[derive(Clone, Copy)]
struct Written<'a> {
    name: &'a str,
    code_order: u16,
    ordinal: Number,
    parameters: &'a [Name],
    takes: &'a Parameters,
    returns: Option<&'a Parameters>,
    annotations: &'a [Application],
}

/// Returns a method of an interface as it is written.
fn written_method<'a>(declaration: &'a Declaration, code_order: usize) -> Option<Written<'a>> {
    let name = match &declaration.name {
        Some(name) => name.text.as_str(),
        None => "",
    };
    match &declaration.body {
        Body::Method {
            ordinal,
            parameters,
            takes,
            returns,
        } => Some(Written {
            name,
            code_order: short(code_order),
            ordinal: *ordinal,
            parameters,
            takes,
            returns: returns.as_ref(),
            annotations: &declaration.annotations,
        }),
        _ => None,
    }
}

/// Returns the methods of an interface as they are written.
fn written_methods<'a>(
    context: &Context<'_, 'a>,
    declaration: &'a Declaration,
) -> Result<Vec<Written<'a>>, Stop> {
    let mut methods = Vec::new(context.alloc);
    for member in &declaration.members {
        if let Some(method) = written_method(member, methods.len()) {
            methods.push(method)?;
        }
    }
    Ok(methods)
}

/// Returns an interface that another extends.
fn superclass(context: &Context, expression: &Expression) -> Result<Superclass, Stop> {
    let place = context.place("interface");
    let span = span_of(expression);
    if let Target::Entry { entry, chain } = target_of(expression, &context.resolver, place)? {
        if let Some(target) = context.resolver.table.entry(entry) {
            if target.kind == Kind::Interface {
                let brand = context.resolver.brand(&chain, span, place)?;
                return Ok(Superclass {
                    id: target.id,
                    brand,
                });
            }
        }
    }
    Err(context.wrong(span, "only interfaces can be extended (name an interface)"))
}

/// Adds the structs of a method, and returns the method.
fn method<'a>(
    drafts: &mut Drafts<'a>,
    problems: &mut Problems,
    context: &Context<'_, 'a>,
    written: Written<'a>,
) -> Result<Method, Stop> {
    let mut side = Side {
        name: written.name,
        ordinal: ordinal_of(&written.ordinal),
        parameters: written.parameters,
        are_results: false,
    };
    let takes = side_of(drafts, problems, context, side, Some(written.takes))?;
    side.are_results = true;
    let returns = side_of(drafts, problems, context, side, written.returns)?;
    Ok(Method {
        name: String::from_str(context.alloc, written.name)?,
        code_order: written.code_order,
        parameters: texts_of(context.alloc, written.parameters)?,
        param_struct: takes.id,
        param_brand: takes.brand,
        result_struct: returns.id,
        result_brand: returns.brand,
        annotations: Vec::new(context.alloc),
    })
}

/// Returns the methods of an interface with their ordinals.
fn numbered(context: &Context, methods: &[Written]) -> Result<Vec<Numbered>, Stop> {
    let mut all = Vec::new(context.alloc);
    for (member, method) in methods.iter().enumerate() {
        let ordinal = method.ordinal;
        all.push(Numbered { ordinal, member })?;
    }
    Ok(all)
}

/// Returns an interface, whose node has an index, after the structs of its methods are added.
pub(crate) fn interface<'a>(
    drafts: &mut Drafts<'a>,
    problems: &mut Problems,
    context: &Context<'_, 'a>,
    declaration: &'a Declaration,
    node: usize,
) -> Result<Interface, Stop> {
    let mut superclasses = Vec::new(context.alloc);
    if let Body::Interface { extends, .. } = &declaration.body {
        for expression in extends {
            if let Some(outer) = problems.kept(superclass(context, expression))? {
                superclasses.push(outer)?;
            }
        }
    }
    let written = written_methods(context, declaration)?;
    let order = in_order(
        context.alloc,
        context.file,
        numbered(context, &written)?,
        problems,
    )?;
    let mut methods = Vec::new(context.alloc);
    for index in &order {
        let Some(written) = written.get(*index).copied() else {
            continue;
        };
        let outcome = method(drafts, problems, context, written);
        if let Some(method) = problems.kept(outcome)? {
            drafts.mark(MarkJob {
                node,
                spot: Spot::Part(methods.len()),
                entry: context.entry,
                subject: Subject::Method,
                applications: written.annotations,
            })?;
            methods.push(method)?;
        }
    }
    Ok(Interface {
        methods,
        superclasses,
    })
}
