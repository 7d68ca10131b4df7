//! Chains of scopes with their arguments, from which brands are read.

use crate::copies::{copy_types, size_of_brand};
use capnp_source_names::problems::Stop;
use capnp_source_names::table::Table;
use capnp_source_nodes::types::{Binding, BrandScope, Type};
use std::alloc::{AllocError, Global};

/// The largest number of scopes around an entry.
const MOST_SCOPES: usize = 80;

/// A scope on the way to a node.
#[derive(Debug, Drop)]
pub struct Level {
    /// The entry, by its index.
    pub entry: usize,
    pub id: u64,
    /// The number of its own type parameters.
    pub count: usize,
    /// Whether its parameters stay those of the scope in which the name is used.
    pub is_inherited: bool,
    /// The types that its parameters are bound to; empty if they are unbound.
    pub arguments: Vec<Type>,
}

/// A type parameter at the end of a chain.
#[derive(Debug, Drop)]
pub enum Looked<'c> {
    Bound(&'c Type),
    /// It stays the parameter.
    Kept,
    /// It is not bound, and so any pointer.
    Unbound,
}

/// Returns a scope of a chain, without arguments.
pub fn level_of(table: &Table, entry: usize, is_inherited: bool) -> Level {
    let count = match table.entry(entry) {
        Some(entry) => entry.parameters.len(),
        None => 0,
    };
    Level {
        entry,
        id: table.id_of(entry),
        count,
        is_inherited,
        arguments: Vec::new(table.alloc),
    }
}

/// Returns the entries around an entry and itself, the file first.
pub(crate) fn scopes_around(table: &Table, entry: usize) -> Result<Vec<usize>, AllocError> {
    let mut inward = Vec::new(table.alloc);
    let mut around = Some(entry);
    for _ in 0..MOST_SCOPES {
        let Some(scope) = around else {
            break;
        };
        inward.push(scope)?;
        around = table.scope_of(scope);
    }
    let mut outward = Vec::new(table.alloc);
    for scope in inward.iter().rev() {
        outward.push(*scope)?;
    }
    Ok(outward)
}

/// Returns the chain that leads to an entry, with the parameters of each scope as they are in it.
pub fn chain_inside(table: &Table, entry: usize) -> Result<Vec<Level>, AllocError> {
    let mut chain = Vec::new(table.alloc);
    for scope in scopes_around(table, entry)? {
        chain.push(level_of(table, scope, true))?;
    }
    Ok(chain)
}

/// Returns a copy of a scope of a chain.
fn copy_level(level: &Level, alloc: Global) -> Result<Level, AllocError> {
    let arguments = copy_types(&level.arguments, alloc)?;
    Ok(Level {
        entry: level.entry,
        id: level.id,
        count: level.count,
        is_inherited: level.is_inherited,
        arguments,
    })
}

/// Returns the front of a chain up to a scope. If the scope is not in the chain, the result is that
/// scope, without parameters.
pub fn chain_around(
    table: &Table,
    chain: &[Level],
    scope: usize,
) -> Result<Vec<Level>, AllocError> {
    let mut front = Vec::new(table.alloc);
    for level in chain {
        front.push(copy_level(level, table.alloc)?)?;
        if level.entry == scope {
            return Ok(front);
        }
    }
    let mut front = Vec::new(table.alloc);
    front.push(Level {
        entry: scope,
        id: table.id_of(scope),
        count: 0,
        is_inherited: false,
        arguments: Vec::new(table.alloc),
    })?;
    Ok(front)
}

/// Returns what a type parameter is at the end of a chain.
pub fn looked_up(chain: &[Level], id: u64, index: usize) -> Looked<'_> {
    for level in chain {
        if level.id == id {
            return match level.arguments.get(index) {
                Some(ty) => Looked::Bound(ty),
                None if level.is_inherited => Looked::Kept,
                None => Looked::Unbound,
            };
        }
    }
    Looked::Kept
}

/// Returns the scope of a chain with an id.
pub(crate) fn level_with(chain: &[Level], id: u64) -> Option<&Level> {
    for level in chain {
        if level.id == id {
            return Some(level);
        }
    }
    None
}

/// Returns arguments as they are bound in a brand.
fn bound(arguments: &[Type], alloc: Global) -> Result<Vec<Option<Type>>, AllocError> {
    let mut all = Vec::new(alloc);
    for ty in copy_types(arguments, alloc)? {
        all.push(Some(ty))?;
    }
    Ok(all)
}

/// Returns the scope of a brand for a scope of a chain, if it has parameters that are bound.
fn brand_scope(level: &Level, alloc: Global) -> Result<Option<BrandScope>, AllocError> {
    let id = level.id;
    if !level.arguments.is_empty() {
        let binding = Binding::Bound(bound(&level.arguments, alloc)?);
        return Ok(Some(BrandScope { id, binding }));
    }
    if level.is_inherited && level.count > 0 {
        let binding = Binding::Inherited;
        return Ok(Some(BrandScope { id, binding }));
    }
    Ok(None)
}

/// The largest number of types in a type.
pub const MOST_TYPES: usize = 1000;

/// Returns the brand of what a chain leads to, the innermost scope first. `None` if it would have
/// more types than a type may have.
pub fn brand_of(chain: &[Level], alloc: Global) -> Result<Option<Vec<BrandScope>>, Stop> {
    let mut brand = Vec::new(alloc);
    for level in chain.iter().rev() {
        if let Some(scope) = brand_scope(level, alloc)? {
            brand.push(scope)?;
        }
    }
    if size_of_brand(&brand) > MOST_TYPES {
        return Ok(None);
    }
    Ok(Some(brand))
}
