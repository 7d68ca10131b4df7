//! The nodes that the requested files need.

use capnp_source_drafts::drafts::Drafts;
use capnp_source_names::problems::Stop;
use capnp_source_names::table::Table;
use capnp_source_nodes::nodes::{Annotation, FieldBody, Node, NodeBody};
use capnp_source_nodes::types::{Binding, BrandScope, Type};
use std::alloc::{AllocError, Global};

/// Adds the ids of the nodes in a type.
#[cycle(ids)]
fn add_type(ty: &Type, ids: &mut Vec<u64>) -> Result<(), AllocError> {
    match ty {
        Type::List(items) => {
            for item in items {
                add_type(item, ids)?;
            }
            Ok(())
        }
        Type::Enum { id, brand } => {
            ids.push(*id)?;
            add_brand(brand, ids)
        }
        Type::Struct { id, brand } => {
            ids.push(*id)?;
            add_brand(brand, ids)
        }
        Type::Interface { id, brand } => {
            ids.push(*id)?;
            add_brand(brand, ids)
        }
        _ => Ok(()),
    }
}

/// Adds the ids of the nodes in what is bound.
#[cycle(ids)]
fn add_binding(binding: &Binding, ids: &mut Vec<u64>) -> Result<(), AllocError> {
    if let Binding::Bound(arguments) = binding {
        for argument in arguments {
            if let Some(ty) = argument {
                add_type(ty, ids)?;
            }
        }
    }
    Ok(())
}

/// Adds the ids of the nodes in a brand.
#[cycle(ids)]
fn add_brand(brand: &[BrandScope], ids: &mut Vec<u64>) -> Result<(), AllocError> {
    for scope in brand {
        add_binding(&scope.binding, ids)?;
    }
    Ok(())
}

/// Adds the ids of annotations that are applied.
fn add_annotations(annotations: &[Annotation], ids: &mut Vec<u64>) -> Result<(), AllocError> {
    for annotation in annotations {
        ids.push(annotation.id)?;
        add_brand(&annotation.brand, ids)?;
    }
    Ok(())
}

/// Adds the ids that the body of a node needs.
fn add_body(body: &NodeBody, ids: &mut Vec<u64>) -> Result<(), AllocError> {
    match body {
        NodeBody::File => {}
        NodeBody::Struct(structure) => {
            for field in &structure.fields {
                add_annotations(&field.annotations, ids)?;
                if let FieldBody::Slot { ty, .. } = &field.body {
                    add_type(ty, ids)?;
                }
            }
        }
        NodeBody::Enum(enumerants) => {
            for enumerant in enumerants {
                add_annotations(&enumerant.annotations, ids)?;
            }
        }
        NodeBody::Interface(interface) => {
            for superclass in &interface.superclasses {
                ids.push(superclass.id)?;
                add_brand(&superclass.brand, ids)?;
            }
            for method in &interface.methods {
                add_annotations(&method.annotations, ids)?;
                ids.push(method.param_struct)?;
                add_brand(&method.param_brand, ids)?;
                ids.push(method.result_struct)?;
                add_brand(&method.result_brand, ids)?;
            }
        }
        NodeBody::Constant { ty, .. } => add_type(ty, ids)?,
        NodeBody::Annotation { ty, .. } => add_type(ty, ids)?,
    }
    Ok(())
}

/// The entries that are needed.
#[derive(Drop)]
struct Search {
    /// Whether each entry is needed.
    needed: Vec<bool>,
    /// The needed entries that are not searched yet.
    waiting: Vec<usize>,
}

impl Search {
    /// Returns a search in which no entry is needed.
    fn new(alloc: Global, count: usize) -> Result<Search, AllocError> {
        let mut needed = Vec::new(alloc);
        for _ in 0..count {
            needed.push(false)?;
        }
        Ok(Search {
            needed,
            waiting: Vec::new(alloc),
        })
    }

    /// Notes that an entry is needed. `Known` if there is no such entry.
    fn need(&mut self, entry: usize) -> Result<(), Stop> {
        match self.needed.get_mut(entry) {
            Some(needed) if !*needed => *needed = true,
            Some(_) => return Ok(()),
            None => return Err(Stop::Known),
        }
        self.waiting.push(entry)?;
        Ok(())
    }

    /// Notes the entries that a node needs. `Known` if one of them has no node.
    fn need_of_node(&mut self, drafts: &Drafts, node: &Node, alloc: Global) -> Result<(), Stop> {
        let mut ids = Vec::new(alloc);
        add_annotations(&node.annotations, &mut ids)?;
        add_body(&node.body, &mut ids)?;
        for id in &ids {
            let Some(index) = drafts.by_id.get(id) else {
                return Err(Stop::Known);
            };
            let Some(entry) = drafts.entries.get(*index) else {
                return Err(Stop::Known);
            };
            self.need(*entry)?;
        }
        Ok(())
    }

    /// Notes what an entry needs: the scope around it, and what its nodes need.
    fn need_of_entry(
        &mut self,
        table: &Table,
        drafts: &Drafts,
        nodes: &[usize],
        entry: usize,
    ) -> Result<(), Stop> {
        if let Some(scope) = table.scope_of(entry) {
            self.need(scope)?;
        }
        for index in nodes {
            let Some(node) = drafts.nodes.get(*index) else {
                return Err(Stop::Known);
            };
            self.need_of_node(drafts, node, table.alloc)?;
        }
        Ok(())
    }
}

/// Returns the nodes of each entry, by index. `Known` if a node has no entry.
fn nodes_of_entries(table: &Table, drafts: &Drafts) -> Result<Vec<Vec<usize>>, Stop> {
    let mut all = Vec::new(table.alloc);
    for _ in &table.entries {
        all.push(Vec::new(table.alloc))?;
    }
    for (node, entry) in drafts.entries.iter().enumerate() {
        let Some(list) = all.get_mut(*entry) else {
            return Err(Stop::Known);
        };
        list.push(node)?;
    }
    Ok(all)
}

/// Returns whether each entry is needed: the entries of the requested files, what their nodes need,
/// the scopes around, and what these need in turn. `Known` if a part of this is missing.
pub fn needed_entries(table: &Table, drafts: &Drafts) -> Result<Vec<bool>, Stop> {
    let nodes = nodes_of_entries(table, drafts)?;
    let mut search = Search::new(table.alloc, table.entries.len())?;
    for (index, entry) in table.entries.iter().enumerate() {
        match table.files.get(entry.file) {
            Some(file) if file.is_requested => search.need(index)?,
            Some(_) => {}
            None => return Err(Stop::Known),
        }
    }
    // Each entry waits once.
    for _ in 0..table.entries.len() {
        let Some(entry) = search.waiting.pop() else {
            break;
        };
        let Some(list) = nodes.get(entry) else {
            return Err(Stop::Known);
        };
        search.need_of_entry(table, drafts, list, entry)?;
    }
    let Search { needed, .. } = search;
    Ok(needed)
}
