//! Where an entry's parts are read, and the node that it begins as.

use capnp_source_names::entries::{Entry, Kind};
use capnp_source_names::problems::Stop;
use capnp_source_names::table::Table;
use capnp_source_nodes::nodes::{Nested, Node, NodeBody};
use capnp_source_syntax::tree::{Name, Span};
use capnp_source_types::resolver::{Place, Resolver};
use std::alloc::{AllocError, Global};

/// Where the parts of an entry are read.
#[derive(Clone, Copy)]
pub struct Context<'r, 'a> {
    pub alloc: Global,
    pub resolver: Resolver<'r, 'a>,
    /// The entry, by its index.
    pub entry: usize,
    pub file: usize,
}

impl<'r, 'a> Context<'r, 'a> {
    /// Returns the place of the entry's paths.
    pub(crate) fn place(&self, wanted: &'static str) -> Place<'static> {
        Place {
            scope: self.entry,
            parameters: &[],
            parameters_of: 0,
            wanted,
        }
    }

    /// Returns something wrong with a part of the entry.
    pub(crate) fn wrong(&self, span: Span, text: &str) -> Stop {
        self.resolver.wrong_text(self.place("type"), span, text)
    }
}

/// Returns names as texts.
pub(crate) fn texts_of(alloc: Global, names: &[Name]) -> Result<Vec<String>, AllocError> {
    let mut texts = Vec::new(alloc);
    for name in names {
        texts.push(String::from_str(alloc, &name.text)?)?;
    }
    Ok(texts)
}

/// Returns the nodes that are declared in an entry.
fn nested_in(table: &Table, entry: &Entry) -> Result<Vec<Nested>, AllocError> {
    let mut nested = Vec::new(table.alloc);
    for child in &entry.children {
        if let Some(child) = table.entry(*child) {
            if child.kind != Kind::Alias {
                let name = String::from_str(table.alloc, child.name)?;
                nested.push(Nested { name, id: child.id })?;
            }
        }
    }
    Ok(nested)
}

/// Returns a length in 32 bits.
pub(crate) fn length_of(length: usize) -> u32 {
    u32::try_from(length).unwrap_or(u32::MAX)
}

/// Returns the node of an entry.
pub(crate) fn node_of(table: &Table, entry: &Entry, body: NodeBody) -> Result<Node, AllocError> {
    let scope = match entry.scope {
        Some(scope) => table.id_of(scope),
        None => 0,
    };
    let display_name = String::from_str(table.alloc, &entry.display_name)?;
    let parameters = texts_of(table.alloc, entry.parameters)?;
    let nested = nested_in(table, entry)?;
    Ok(Node {
        id: entry.id,
        display_name,
        prefix_length: length_of(entry.prefix_length),
        scope,
        parameters,
        is_generic: entry.is_generic,
        nested,
        annotations: Vec::new(table.alloc),
        body,
    })
}
