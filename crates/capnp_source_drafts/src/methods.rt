//! The structs of what methods take and return.

use crate::context::{Context, length_of, texts_of};
use crate::drafts::Drafts;
use crate::structs::{Head, add_struct, plan};
use capnp_source_ids::ids::parameters_id;
use capnp_source_names::entries::{Entry, Kind};
use capnp_source_names::problems::{Problems, Stop};
use capnp_source_names::references::STREAM_FILE;
use capnp_source_nodes::nodes::{Node, NodeBody};
use capnp_source_nodes::types::BrandScope;
use capnp_source_structs::members::members_of_parameters;
use capnp_source_syntax::tree::{Expression, Name, Parameter, Parameters, Span};
use capnp_source_types::chains::chain_inside;
use capnp_source_types::paths::{span_of, target_of};
use capnp_source_types::resolver::Place;
use capnp_source_types::targets::Target;

/// A side of a method: its parameters or its results.
#[derive(Clone, Copy)]
pub(crate) struct Side<'a> {
    pub(crate) name: &'a str,
    pub(crate) ordinal: u16,
    /// The method's own type parameters.
    pub(crate) parameters: &'a [Name],
    /// Whether it is what the method returns.
    pub(crate) are_results: bool,
}

/// A struct with its brand.
#[derive(Drop)]
pub(crate) struct Branded {
    pub(crate) id: u64,
    pub(crate) brand: Vec<BrandScope>,
}

/// Returns the struct of a side before its fields.
fn head_of(context: &Context, interface: &Entry, side: Side) -> Result<Head, Stop> {
    let alloc = context.alloc;
    let ending = if side.are_results {
        "$Results"
    } else {
        "$Params"
    };
    let outer = interface.display_name.as_str();
    let name = side.name;
    let display_name = format!(in alloc; "{outer}.{name}{ending}")?;
    let own = name.len().saturating_add(ending.len());
    let prefix = display_name.len().saturating_sub(own);
    Ok(Head {
        node: Node {
            id: parameters_id(interface.id, side.ordinal, side.are_results),
            display_name,
            prefix_length: length_of(prefix),
            scope: 0,
            parameters: texts_of(alloc, side.parameters)?,
            is_generic: interface.is_generic || !side.parameters.is_empty(),
            nested: Vec::new(alloc),
            annotations: Vec::new(alloc),
            body: NodeBody::File,
        },
        are_parameters: true,
    })
}

/// Adds the struct of parameters that are listed, and returns it.
fn listed<'a>(
    drafts: &mut Drafts<'a>,
    problems: &mut Problems,
    context: &Context<'_, 'a>,
    side: Side<'a>,
    parameters: &'a [Parameter],
) -> Result<Branded, Stop> {
    let table = context.resolver.table;
    let Some(interface) = table.entry(context.entry) else {
        return Err(Stop::Known);
    };
    let head = head_of(context, interface, side)?;
    let id = head.node.id;
    let place = Place {
        scope: context.entry,
        parameters: side.parameters,
        parameters_of: id,
        wanted: "type",
    };
    let members = members_of_parameters(context.alloc, parameters)?;
    let planned = plan(context, &members, place, problems)?;
    add_struct(drafts, context, &planned, head)?;
    let chain = chain_inside(table, context.entry)?;
    let brand = context
        .resolver
        .brand(&chain, Span { start: 0, end: 0 }, place)?;
    Ok(Branded { id, brand })
}

/// Returns the struct that an expression names as a side.
fn named(context: &Context, side: Side, expression: &Expression) -> Result<Branded, Stop> {
    let place = Place {
        scope: context.entry,
        parameters: side.parameters,
        parameters_of: 0,
        wanted: "struct",
    };
    let span = span_of(expression);
    let table = context.resolver.table;
    if let Target::Entry { entry, chain } = target_of(expression, &context.resolver, place)? {
        if let Some(target) = table.entry(entry) {
            if target.kind == Kind::Struct {
                let brand = context.resolver.brand(&chain, span, place)?;
                return Ok(Branded {
                    id: target.id,
                    brand,
                });
            }
        }
    }
    let text = "a method takes and returns structs (name a struct, or list parameters)";
    Err(context.wrong(span, text))
}

/// Returns the struct that methods with flow control return.
fn streamed(context: &Context, span: Span) -> Result<Branded, Stop> {
    let table = context.resolver.table;
    if let Some(file) = table.imported(context.file, STREAM_FILE) {
        if let Some(entry) = table.member(file, "StreamResult") {
            return Ok(Branded {
                id: table.id_of(entry),
                brand: Vec::new(context.alloc),
            });
        }
    }
    let text = "`stream` needs StreamResult of /capnp/stream.capnp (add its folder to the imports)";
    Err(context.wrong(span, text))
}

/// Returns the struct of a side of a method, which is added if its parameters are listed.
pub(crate) fn side_of<'a>(
    drafts: &mut Drafts<'a>,
    problems: &mut Problems,
    context: &Context<'_, 'a>,
    side: Side<'a>,
    written: Option<&'a Parameters>,
) -> Result<Branded, Stop> {
    match written {
        None => listed(drafts, problems, context, side, &[]),
        Some(Parameters::List(list)) => listed(drafts, problems, context, side, list),
        Some(Parameters::Struct(expression)) => named(context, side, expression),
        Some(Parameters::Stream(span)) => {
            if side.are_results {
                return streamed(context, *span);
            }
            let text = "`stream` is what a method returns (write it after `->`)";
            Err(context.wrong(*span, text))
        }
    }
}
