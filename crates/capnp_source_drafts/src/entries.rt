//! The nodes of all entries.

use crate::context::{Context, node_of};
use crate::drafts::{ConstantJob, Drafts, MarkJob, Spot, Subject};
use crate::interfaces::interface;
use crate::structs::{Head, add_struct, plan};
use capnp_source_names::entries::{Entry, Kind};
use capnp_source_names::problems::{Problems, Stop};
use capnp_source_nodes::nodes::{Enumerant, Interface, NodeBody, Targets};
use capnp_source_nodes::types::Type;
use capnp_source_nodes::values::Value;
use capnp_source_structs::members::members_of;
use capnp_source_structs::ordinals::{Numbered, in_order, short};
use capnp_source_syntax::tree;
use capnp_source_syntax::tree::{Body, Declaration, Expression, Name};
use capnp_source_types::paths::type_of;
use capnp_source_types::resolver::Resolver;

/// Returns annotations' targets, each the same.
fn targets_of(all: bool) -> Targets {
    Targets {
        file: all,
        constant: all,
        enumeration: all,
        enumerant: all,
        structure: all,
        field: all,
        union: all,
        group: all,
        interface: all,
        method: all,
        parameter: all,
        annotation: all,
    }
}

/// Adds a target of annotations by its word. `Wrong` if no target has the word.
fn add_target(context: &Context, targets: &mut Targets, word: &Name) -> Result<(), Stop> {
    match word.text.as_str() {
        "file" => targets.file = true,
        "const" => targets.constant = true,
        "enum" => targets.enumeration = true,
        "enumerant" => targets.enumerant = true,
        "struct" => targets.structure = true,
        "field" => targets.field = true,
        "union" => targets.union = true,
        "group" => targets.group = true,
        "interface" => targets.interface = true,
        "method" => targets.method = true,
        "param" | "parameter" => targets.parameter = true,
        "annotation" => targets.annotation = true,
        _ => {
            let text = "nothing of this kind can be annotated (write `field`, `struct` or `*`)";
            return Err(context.wrong(word.span, text));
        }
    }
    Ok(())
}

/// Returns the targets of an annotation.
fn targets(
    context: &Context,
    written: &tree::Targets,
    problems: &mut Problems,
) -> Result<Targets, Stop> {
    match written {
        tree::Targets::All => Ok(targets_of(true)),
        tree::Targets::Kinds(words) => {
            let mut targets = targets_of(false);
            let mut seen = Vec::new(context.alloc);
            for word in words {
                let outcome = if seen.contains(&word.text.as_str()) {
                    let text = "this kind is listed already (take it out)";
                    Err(context.wrong(word.span, text))
                } else {
                    seen.push(word.text.as_str())?;
                    add_target(context, &mut targets, word)
                };
                let _ = problems.kept(outcome)?;
            }
            Ok(targets)
        }
    }
}

/// Returns a type, and `Void` if it is wrong, which is noted.
fn type_or_void(
    context: &Context,
    expression: &Expression,
    problems: &mut Problems,
) -> Result<Type, Stop> {
    let outcome = type_of(expression, &context.resolver, context.place("type"));
    Ok(problems.kept(outcome)?.unwrap_or(Type::Void))
}

/// Returns the enumerants of an enum with their ordinals.
fn numbered(context: &Context, declaration: &Declaration) -> Result<Vec<Numbered>, Stop> {
    let mut all = Vec::new(context.alloc);
    for (member, enumerant) in declaration.members.iter().enumerate() {
        if let Body::Enumerant { ordinal } = &enumerant.body {
            let ordinal = *ordinal;
            all.push(Numbered { ordinal, member })?;
        }
    }
    Ok(all)
}

/// Returns the enumerants of an enum, whose node has an index.
fn enumerants<'a>(
    drafts: &mut Drafts<'a>,
    problems: &mut Problems,
    context: &Context<'_, 'a>,
    declaration: &'a Declaration,
    node: usize,
) -> Result<Vec<Enumerant>, Stop> {
    let members = numbered(context, declaration)?;
    let order = in_order(context.alloc, context.file, members, problems)?;
    let mut all = Vec::new(context.alloc);
    for index in &order {
        let Some(member) = declaration.members.get(*index) else {
            continue;
        };
        let name = match &member.name {
            Some(name) => name.text.as_str(),
            None => "",
        };
        drafts.mark(MarkJob {
            node,
            spot: Spot::Part(all.len()),
            entry: context.entry,
            subject: Subject::Enumerant,
            applications: &member.annotations,
        })?;
        all.push(Enumerant {
            name: String::from_str(context.alloc, name)?,
            code_order: short(*index),
            annotations: Vec::new(context.alloc),
        })?;
    }
    Ok(all)
}

/// Adds the node of a struct.
fn add_struct_entry<'a>(
    drafts: &mut Drafts<'a>,
    problems: &mut Problems,
    context: &Context<'_, 'a>,
    entry: &Entry<'a>,
    declaration: &'a Declaration,
) -> Result<usize, Stop> {
    let members = members_of(context.alloc, context.file, declaration, problems)?;
    let planned = plan(context, &members, context.place("type"), problems)?;
    let head = Head {
        node: node_of(context.resolver.table, entry, NodeBody::File)?,
        are_parameters: false,
    };
    add_struct(drafts, context, &planned, head)
}

/// Returns the body of an entry that is not a struct, whose node will have an index.
fn body_of<'a>(
    drafts: &mut Drafts<'a>,
    problems: &mut Problems,
    context: &Context<'_, 'a>,
    declaration: &'a Declaration,
    node: usize,
) -> Result<NodeBody, Stop> {
    match &declaration.body {
        Body::Enum => Ok(NodeBody::Enum(enumerants(drafts, problems, context, declaration, node)?)),
        Body::Constant { ty, value } => {
            let ty = type_or_void(context, ty, problems)?;
            drafts.constants.push(ConstantJob {
                node,
                entry: context.entry,
                expression: value,
            })?;
            let value = Value::Void;
            Ok(NodeBody::Constant { ty, value })
        }
        Body::Annotation {
            targets: written,
            ty,
        } => {
            let ty = type_or_void(context, ty, problems)?;
            let targets = targets(context, written, problems)?;
            Ok(NodeBody::Annotation { ty, targets })
        }
        _ => Ok(NodeBody::File),
    }
}

/// Adds the node of an interface, and the structs of its methods after it.
fn add_interface<'a>(
    drafts: &mut Drafts<'a>,
    problems: &mut Problems,
    context: &Context<'_, 'a>,
    entry: &Entry<'a>,
    declaration: &'a Declaration,
) -> Result<usize, Stop> {
    let empty = Interface {
        methods: Vec::new(context.alloc),
        superclasses: Vec::new(context.alloc),
    };
    let body = NodeBody::Interface(empty);
    let node = node_of(context.resolver.table, entry, body)?;
    let index = drafts.add(node, context.entry)?;
    let body = interface(drafts, problems, context, declaration, index)?;
    if let Some(node) = drafts.nodes.get_mut(index) {
        node.body = NodeBody::Interface(body);
    }
    Ok(index)
}

/// Adds the node of an entry, and returns its index; `None` of an alias.
fn add_entry<'a>(
    drafts: &mut Drafts<'a>,
    problems: &mut Problems,
    context: &Context<'_, 'a>,
    entry: &Entry<'a>,
) -> Result<Option<usize>, Stop> {
    let table = context.resolver.table;
    let Some(declaration) = entry.declaration else {
        let node = node_of(table, entry, NodeBody::File)?;
        return Ok(Some(drafts.add(node, context.entry)?));
    };
    match entry.kind {
        Kind::Alias => Ok(None),
        Kind::Struct => Ok(Some(add_struct_entry(drafts, problems, context, entry, declaration)?)),
        Kind::Interface => Ok(Some(add_interface(drafts, problems, context, entry, declaration)?)),
        _ => {
            let index = drafts.nodes.len();
            let body = body_of(drafts, problems, context, declaration, index)?;
            let node = node_of(table, entry, body)?;
            Ok(Some(drafts.add(node, context.entry)?))
        }
    }
}

/// Returns what an entry is as the subject of annotations.
fn subject_of(kind: Kind) -> Subject {
    match kind {
        Kind::File | Kind::Alias => Subject::File,
        Kind::Struct => Subject::Struct,
        Kind::Enum => Subject::Enum,
        Kind::Interface => Subject::Interface,
        Kind::Constant => Subject::Constant,
        Kind::Annotation => Subject::Annotation,
    }
}

/// Returns the nodes of all entries. What is wrong with them is noted.
pub fn drafts_of<'a>(
    resolver: Resolver<'_, 'a>,
    problems: &mut Problems,
) -> Result<Drafts<'a>, Stop> {
    let alloc = resolver.table.alloc;
    let mut drafts = Drafts::new(alloc);
    for (index, entry) in resolver.table.entries.iter().enumerate() {
        let context = Context {
            alloc,
            resolver,
            entry: index,
            file: entry.file,
        };
        let outcome = add_entry(&mut drafts, problems, &context, entry);
        if let Some(Some(node)) = problems.kept(outcome)? {
            drafts.mark(MarkJob {
                node,
                spot: Spot::Node,
                entry: index,
                subject: subject_of(entry.kind),
                applications: entry.annotations,
            })?;
        }
    }
    Ok(drafts)
}
