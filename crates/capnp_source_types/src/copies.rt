//! Copies and sizes of types.

use capnp_source_nodes::types::{Binding, BrandScope, Type};
use std::alloc::{AllocError, Global};

/// Returns a copy of a type that has no types in it.
pub(crate) fn plain_copy(ty: &Type) -> Type {
    match ty {
        Type::Bool => Type::Bool,
        Type::Int8 => Type::Int8,
        Type::Int16 => Type::Int16,
        Type::Int32 => Type::Int32,
        Type::Int64 => Type::Int64,
        Type::UInt8 => Type::UInt8,
        Type::UInt16 => Type::UInt16,
        Type::UInt32 => Type::UInt32,
        Type::UInt64 => Type::UInt64,
        Type::Float32 => Type::Float32,
        Type::Float64 => Type::Float64,
        Type::Text => Type::Text,
        Type::Data => Type::Data,
        Type::AnyPointer => Type::AnyPointer,
        Type::AnyStruct => Type::AnyStruct,
        Type::AnyList => Type::AnyList,
        Type::Capability => Type::Capability,
        Type::Parameter { scope, index } => Type::Parameter {
            scope: *scope,
            index: *index,
        },
        Type::MethodParameter { index } => Type::MethodParameter { index: *index },
        _ => Type::Void,
    }
}

/// Returns a copy of a type.
#[cycle(copies)]
pub fn copy_type(ty: &Type, alloc: Global) -> Result<Type, AllocError> {
    match ty {
        Type::List(items) => {
            let mut copies = Vec::new(alloc);
            for item in items {
                copies.push(copy_type(item, alloc)?)?;
            }
            Ok(Type::List(copies))
        }
        Type::Enum { id, brand } => {
            let brand = copy_brand(brand, alloc)?;
            Ok(Type::Enum { id: *id, brand })
        }
        Type::Struct { id, brand } => {
            let brand = copy_brand(brand, alloc)?;
            Ok(Type::Struct { id: *id, brand })
        }
        Type::Interface { id, brand } => {
            let brand = copy_brand(brand, alloc)?;
            Ok(Type::Interface { id: *id, brand })
        }
        _ => Ok(plain_copy(ty)),
    }
}

/// Returns a copy of what is bound.
#[cycle(copies)]
fn copy_binding(binding: &Binding, alloc: Global) -> Result<Binding, AllocError> {
    match binding {
        Binding::Inherited => Ok(Binding::Inherited),
        Binding::Bound(arguments) => {
            let mut copies = Vec::new(alloc);
            for argument in arguments {
                match argument {
                    Some(ty) => copies.push(Some(copy_type(ty, alloc)?))?,
                    None => copies.push(None)?,
                }
            }
            Ok(Binding::Bound(copies))
        }
    }
}

/// Returns a copy of a brand.
#[cycle(copies)]
pub fn copy_brand(brand: &[BrandScope], alloc: Global) -> Result<Vec<BrandScope>, AllocError> {
    let mut copies = Vec::new(alloc);
    for scope in brand {
        let binding = copy_binding(&scope.binding, alloc)?;
        copies.push(BrandScope {
            id: scope.id,
            binding,
        })?;
    }
    Ok(copies)
}

/// Returns copies of types.
pub fn copy_types(types: &[Type], alloc: Global) -> Result<Vec<Type>, AllocError> {
    let mut copies = Vec::new(alloc);
    for ty in types {
        copies.push(copy_type(ty, alloc)?)?;
    }
    Ok(copies)
}

/// Returns the number of types in a type, itself included.
#[cycle(sizes)]
pub fn size_of_type(ty: &Type) -> usize {
    match ty {
        Type::List(items) => {
            let mut size: usize = 1;
            for item in items {
                size = size.saturating_add(size_of_type(item));
            }
            size
        }
        Type::Enum { brand, .. } => size_of_brand(brand),
        Type::Struct { brand, .. } => size_of_brand(brand),
        Type::Interface { brand, .. } => size_of_brand(brand),
        _ => 1,
    }
}

/// Returns the number of types in what is bound.
#[cycle(sizes)]
fn size_of_binding(binding: &Binding) -> usize {
    let mut size: usize = 1;
    if let Binding::Bound(arguments) = binding {
        for argument in arguments {
            if let Some(ty) = argument {
                size = size.saturating_add(size_of_type(ty));
            }
        }
    }
    size
}

/// Returns the number of types in a brand, and one more.
#[cycle(sizes)]
pub fn size_of_brand(brand: &[BrandScope]) -> usize {
    let mut size: usize = 1;
    for scope in brand {
        size = size.saturating_add(size_of_binding(&scope.binding));
    }
    size
}
