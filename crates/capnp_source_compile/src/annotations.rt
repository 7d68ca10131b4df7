//! Annotations where they are applied.

use crate::known::Known;
use crate::values::Work;
use capnp_source_drafts::drafts::{MarkJob, Spot, Subject};
use capnp_source_names::problems::{Problems, Stop};
use capnp_source_nodes::nodes::{Annotation, Node, NodeBody, Targets};
use capnp_source_nodes::types::Type;
use capnp_source_nodes::values::Value;
use capnp_source_syntax::tree::{Application, Argument, Expression, Span, Step};
use capnp_source_types::paths::followed;
use capnp_source_types::resolver::Resolver;
use capnp_source_types::targets::Target;
use capnp_source_values::names::Names;
use capnp_source_values::values::applied_value;

/// Whether an annotation may be applied to a subject.
fn is_target(targets: &Targets, subject: Subject) -> bool {
    match subject {
        Subject::File => targets.file,
        Subject::Constant => targets.constant,
        Subject::Enum => targets.enumeration,
        Subject::Enumerant => targets.enumerant,
        Subject::Struct => targets.structure,
        Subject::Field => targets.field,
        Subject::Union => targets.union,
        Subject::Group => targets.group,
        Subject::Interface => targets.interface,
        Subject::Method => targets.method,
        Subject::Parameter => targets.parameter,
        Subject::Annotation => targets.annotation,
    }
}

/// Returns the arguments that a path ends with, and the steps before them.
fn split_value(steps: &[Step]) -> (&[Step], Option<&[Argument]>) {
    match steps {
        [name @ .., Step::Arguments(arguments)] => (name, Some(arguments)),
        _ => (steps, None),
    }
}

/// Returns something wrong with an annotation.
fn wrong(known: &Known, span: Span, text: &str) -> Stop {
    known
        .resolver
        .wrong_text(known.place("annotation"), span, text)
}

/// Returns the value of an annotation of a type.
fn value_in(
    known: &Known,
    ty: &Type,
    arguments: Option<&[Argument]>,
    span: Span,
) -> Result<Value, Stop> {
    let Some(arguments) = arguments else {
        if matches!(ty, Type::Void) {
            return Ok(Value::Void);
        }
        let text = "the annotation needs a value (write the value in parentheses)";
        return Err(wrong(known, span, text));
    };
    match applied_value(known.alloc, known, ty, arguments, span) {
        Ok(value) => Ok(value),
        Err(fault) => match known.stop_of(fault) {
            Stop::Pending(_) => Err(Stop::Known),
            stop => Err(stop),
        },
    }
}

/// Returns an annotation that is applied to a subject.
fn annotation(
    known: &Known,
    application: &Application,
    subject: Subject,
) -> Result<Annotation, Stop> {
    let Expression::Path { span, root, steps } = &application.expression else {
        let text = "an annotation is a name (write the name of an annotation)";
        return Err(wrong(known, application.span, text));
    };
    let place = known.place("annotation");
    let (name, arguments) = split_value(steps);
    if let Target::Entry { entry, chain } = followed(name, root, *span, &known.resolver, place)? {
        let id = known.resolver.table.id_of(entry);
        if let Some(node) = known.node(id) {
            if let NodeBody::Annotation { ty, targets } = &node.body {
                if !is_target(targets, subject) {
                    let text = "the annotation can't be applied here (take it out)";
                    return Err(wrong(known, *span, text));
                }
                let brand = known.resolver.brand(&chain, *span, place)?;
                let value = value_in(known, ty, arguments, *span)?;
                return Ok(Annotation { id, brand, value });
            }
        }
    }
    let text = "this name is not that of an annotation (name an annotation)";
    Err(wrong(known, *span, text))
}

/// Returns the annotations of a job.
fn annotations_of<'a>(
    work: &Work<'a>,
    resolver: Resolver<'_, 'a>,
    problems: &mut Problems,
    job: MarkJob<'a>,
) -> Result<Vec<Annotation>, Stop> {
    let known = work.known(resolver, job.entry, true);
    let mut all = Vec::new(work.alloc);
    for application in job.applications {
        let outcome = annotation(&known, application, job.subject);
        if let Some(annotation) = problems.kept(outcome)? {
            all.push(annotation)?;
        }
    }
    Ok(all)
}

/// Puts annotations at a part of a node. Returns false if the node has no such part.
fn put(node: &mut Node, spot: Spot, annotations: Vec<Annotation>) -> bool {
    let Spot::Part(part) = spot else {
        node.annotations = annotations;
        return true;
    };
    match &mut node.body {
        NodeBody::Struct(structure) => match structure.fields.get_mut(part) {
            Some(field) => field.annotations = annotations,
            None => return false,
        },
        NodeBody::Enum(enumerants) => match enumerants.get_mut(part) {
            Some(enumerant) => enumerant.annotations = annotations,
            None => return false,
        },
        NodeBody::Interface(interface) => match interface.methods.get_mut(part) {
            Some(method) => method.annotations = annotations,
            None => return false,
        },
        _ => return false,
    }
    true
}

/// Gives all nodes and their parts their annotations.
pub fn settle_annotations<'a>(
    work: &mut Work<'a>,
    resolver: Resolver<'_, 'a>,
    problems: &mut Problems,
) -> Result<(), Stop> {
    for index in 0..work.drafts.marks.len() {
        let Some(job) = work.drafts.marks.get(index).copied() else {
            return Err(Stop::Known);
        };
        let annotations = annotations_of(work, resolver, problems, job)?;
        let is_put = match work.drafts.nodes.get_mut(job.node) {
            Some(node) => put(node, job.spot, annotations),
            None => false,
        };
        if !is_put {
            problems.kept::<()>(Err(Stop::Known))?;
        }
    }
    Ok(())
}
