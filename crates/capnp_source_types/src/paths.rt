//! Whole paths, with arguments.

use crate::chains::Level;
use crate::resolver::{Place, Resolver};
use crate::targets::Target;
use capnp_source_names::problems::Stop;
use capnp_source_nodes::types::Type;
use capnp_source_syntax::tree::{Argument, Expression, Root, Span, Step};

/// Returns where an expression is.
pub fn span_of(expression: &Expression) -> Span {
    match expression {
        Expression::Integer { span, .. } => *span,
        Expression::Float { span, .. } => *span,
        Expression::Text { span, .. } => *span,
        Expression::Bytes { span, .. } => *span,
        Expression::List { span, .. } => *span,
        Expression::Tuple { span, .. } => *span,
        Expression::Embed { span, .. } => *span,
        Expression::Path { span, .. } => *span,
    }
}

/// Whether a type parameter may be bound to a type.
fn is_argument(ty: &Type) -> bool {
    matches!(
        ty,
        Type::Text
            | Type::Data
            | Type::List(_)
            | Type::Struct { .. }
            | Type::Interface { .. }
            | Type::AnyPointer
            | Type::Parameter { .. }
            | Type::MethodParameter { .. }
    )
}

/// Returns what is wrong with arguments for a scope.
fn fault_of_arguments(level: &Level, arguments: &[Type]) -> Option<&'static str> {
    if !level.arguments.is_empty() {
        return Some("the parameters are bound twice (take the second parentheses out)");
    }
    if level.count == 0 {
        return Some("this has no type parameters (take the parentheses out)");
    }
    if arguments.len() > level.count {
        return Some("there are more arguments than type parameters (take some out)");
    }
    if arguments.len() < level.count {
        return Some("there are fewer arguments than type parameters (bind each)");
    }
    if !arguments.iter().all(|ty| is_argument(ty)) {
        return Some("only pointers can be bound to parameters (put the value in a struct)");
    }
    None
}

/// Returns what a path leads to if its last name gets arguments.
fn applied(
    target: Target,
    arguments: Vec<Type>,
    span: Span,
    resolver: &Resolver,
    place: Place,
) -> Result<Target, Stop> {
    match target {
        Target::Entry { entry, mut chain } => {
            let Some(level) = chain.last_mut() else {
                return Err(Stop::Known);
            };
            if let Some(text) = fault_of_arguments(level, &arguments) {
                return Err(resolver.wrong_text(place, span, text));
            }
            level.arguments = arguments;
            Ok(Target::Entry { entry, chain })
        }
        Target::List(element) if element.is_empty() && arguments.len() == 1 => {
            Ok(Target::List(arguments))
        }
        Target::List(_) => {
            let text = "a list has one type of element (write as in `List(Text)`)";
            Err(resolver.wrong_text(place, span, text))
        }
        _ => {
            let text = "this has no type parameters (take the parentheses out)";
            Err(resolver.wrong_text(place, span, text))
        }
    }
}

/// Returns the types that arguments name.
#[cycle(paths)]
fn types_of(arguments: &[Argument], resolver: &Resolver, place: Place) -> Result<Vec<Type>, Stop> {
    let mut types = Vec::new(resolver.table.alloc);
    for argument in arguments {
        match argument {
            Argument::Plain(value) => types.push(type_of(value, resolver, place)?)?,
            Argument::Named { name, .. } => {
                let text = "arguments of a type have no names (take the name out)";
                return Err(resolver.wrong_text(place, name.span, text));
            }
        }
    }
    Ok(types)
}

/// Returns what steps lead to from a beginning.
#[cycle(paths)]
pub fn followed(
    steps: &[Step],
    root: &Root,
    span: Span,
    resolver: &Resolver,
    place: Place,
) -> Result<Target, Stop> {
    let mut target = resolver.root(root, span, place)?;
    for step in steps {
        match step {
            Step::Member(name) => target = resolver.member(target, name, place)?,
            Step::Arguments(arguments) => {
                let types = types_of(arguments, resolver, place)?;
                target = applied(target, types, span, resolver, place)?;
            }
        }
    }
    Ok(target)
}

/// Returns the type that an expression names.
#[cycle(paths)]
pub fn type_of(expression: &Expression, resolver: &Resolver, place: Place) -> Result<Type, Stop> {
    match expression {
        Expression::Path { span, root, steps } => {
            let target = followed(steps, root, *span, resolver, place)?;
            resolver.type_of_target(target, *span, place)
        }
        _ => {
            let text = "a type is a name (write the name of a type)";
            Err(resolver.wrong_text(place, span_of(expression), text))
        }
    }
}

/// Returns what an expression leads to, which has to be a path.
pub fn target_of(
    expression: &Expression,
    resolver: &Resolver,
    place: Place,
) -> Result<Target, Stop> {
    match expression {
        Expression::Path { span, root, steps } => followed(steps, root, *span, resolver, place),
        _ => {
            let wanted = place.wanted;
            let text = format!(in resolver.table.alloc; "this is not a name (name {wanted})")?;
            Err(resolver.wrong(place, span_of(expression), text))
        }
    }
}
