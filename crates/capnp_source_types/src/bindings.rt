//! Types at the end of a chain: with their parameters bound.

use crate::chains::{Level, Looked, level_of, level_with, looked_up, scopes_around};
use crate::copies::{copy_type, copy_types, plain_copy};
use capnp_source_names::table::Table;
use capnp_source_nodes::types::{Binding, BrandScope, Type};
use std::alloc::{AllocError, Global};

/// Returns what a parameter is bound to in a chain.
fn bound_parameter(
    chain: &[Level],
    alloc: Global,
    scope: u64,
    index: u16,
) -> Result<Type, AllocError> {
    match looked_up(chain, scope, index as usize) {
        Looked::Bound(ty) => copy_type(ty, alloc),
        Looked::Kept => Ok(Type::Parameter { scope, index }),
        Looked::Unbound => Ok(Type::AnyPointer),
    }
}

/// Returns a type with its parameters bound as in a chain.
#[cycle(bindings)]
pub fn bound_type(ty: &Type, chain: &[Level], alloc: Global) -> Result<Type, AllocError> {
    match ty {
        Type::List(items) => {
            let mut all = Vec::new(alloc);
            for item in items {
                all.push(bound_type(item, chain, alloc)?)?;
            }
            Ok(Type::List(all))
        }
        Type::Enum { id, brand } => {
            let brand = bound_brand(brand, chain, alloc)?;
            Ok(Type::Enum { id: *id, brand })
        }
        Type::Struct { id, brand } => {
            let brand = bound_brand(brand, chain, alloc)?;
            Ok(Type::Struct { id: *id, brand })
        }
        Type::Interface { id, brand } => {
            let brand = bound_brand(brand, chain, alloc)?;
            Ok(Type::Interface { id: *id, brand })
        }
        Type::Parameter { scope, index } => bound_parameter(chain, alloc, *scope, *index),
        _ => Ok(plain_copy(ty)),
    }
}

/// Returns arguments with their parameters bound as in a chain.
#[cycle(bindings)]
fn bound_arguments(
    arguments: &[Option<Type>],
    chain: &[Level],
    alloc: Global,
) -> Result<Vec<Option<Type>>, AllocError> {
    let mut all = Vec::new(alloc);
    for argument in arguments {
        match argument {
            Some(ty) => all.push(Some(bound_type(ty, chain, alloc)?))?,
            None => all.push(None)?,
        }
    }
    Ok(all)
}

/// Returns the arguments of a scope as its parameters are bound in a chain: `None` if they are
/// unbound there.
fn inherited(id: u64, chain: &[Level], alloc: Global) -> Result<Option<Binding>, AllocError> {
    match level_with(chain, id) {
        Some(level) if level.is_inherited => Ok(Some(Binding::Inherited)),
        Some(level) if level.arguments.is_empty() => Ok(None),
        Some(level) => {
            let mut all = Vec::new(alloc);
            for ty in copy_types(&level.arguments, alloc)? {
                all.push(Some(ty))?;
            }
            Ok(Some(Binding::Bound(all)))
        }
        None => Ok(Some(Binding::Inherited)),
    }
}

/// Returns a brand with its parameters bound as in a chain.
#[cycle(bindings)]
pub fn bound_brand(
    brand: &[BrandScope],
    chain: &[Level],
    alloc: Global,
) -> Result<Vec<BrandScope>, AllocError> {
    let mut all = Vec::new(alloc);
    for scope in brand {
        let id = scope.id;
        match &scope.binding {
            Binding::Bound(arguments) => {
                let binding = Binding::Bound(bound_arguments(arguments, chain, alloc)?);
                all.push(BrandScope { id, binding })?;
            }
            Binding::Inherited => {
                if let Some(binding) = inherited(id, chain, alloc)? {
                    all.push(BrandScope { id, binding })?;
                }
            }
        }
    }
    Ok(all)
}

/// Returns the arguments that are bound; any pointer for one that is not.
fn arguments_of(arguments: &[Option<Type>], alloc: Global) -> Result<Vec<Type>, AllocError> {
    let mut all = Vec::new(alloc);
    for argument in arguments {
        match argument {
            Some(ty) => all.push(copy_type(ty, alloc)?)?,
            None => all.push(Type::AnyPointer)?,
        }
    }
    Ok(all)
}

/// Returns the chain to an entry whose brand is this.
pub fn chain_with(
    table: &Table,
    entry: usize,
    brand: &[BrandScope],
) -> Result<Vec<Level>, AllocError> {
    let mut chain = Vec::new(table.alloc);
    for scope in scopes_around(table, entry)? {
        let mut level = level_of(table, scope, false);
        for bound in brand {
            if bound.id == level.id {
                match &bound.binding {
                    Binding::Bound(arguments) => {
                        level.arguments = arguments_of(arguments, table.alloc)?;
                    }
                    Binding::Inherited => level.is_inherited = true,
                }
            }
        }
        chain.push(level)?;
    }
    Ok(chain)
}
