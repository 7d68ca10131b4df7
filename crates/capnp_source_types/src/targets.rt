//! The ends of paths.

use crate::chains::Level;
use capnp_source_names::builtins::Builtin;
use capnp_source_nodes::types::{BrandScope, Type};

/// The end of a path.
#[derive(Debug, Drop)]
pub enum Target {
    /// An entry by its index, and the scopes that lead to it.
    Entry { entry: usize, chain: Vec<Level> },
    /// A list, with its element's type if that is given: one type or none.
    List(Vec<Type>),
    /// Another type that every file knows.
    Builtin(Builtin),
    /// A type parameter of the node with an id.
    Parameter { scope: u64, index: u16 },
    /// A type parameter of the method around.
    MethodParameter { index: u16 },
}

/// The meaning of an alias.
#[derive(Debug, Drop)]
pub enum Meaning {
    /// An entry by its index, and its brand.
    Entry {
        entry: usize,
        brand: Vec<BrandScope>,
    },
    /// A list, with its element's type if that is given: one type or none.
    List(Vec<Type>),
    /// Another type that every file knows.
    Builtin(Builtin),
    /// A type parameter of the node with an id.
    Parameter {
        scope: u64,
        index: u16,
    },
}

/// An alias, as far as it is resolved.
#[derive(Debug, Drop)]
pub enum Alias {
    /// Its target is not resolved yet.
    Open,
    /// Something is wrong with it, which is reported.
    Failed,
    Means(Meaning),
}

/// Returns a type that every file knows.
pub fn type_of_builtin(builtin: Builtin) -> Type {
    match builtin {
        Builtin::Void => Type::Void,
        Builtin::Bool => Type::Bool,
        Builtin::Int8 => Type::Int8,
        Builtin::Int16 => Type::Int16,
        Builtin::Int32 => Type::Int32,
        Builtin::Int64 => Type::Int64,
        Builtin::UInt8 => Type::UInt8,
        Builtin::UInt16 => Type::UInt16,
        Builtin::UInt32 => Type::UInt32,
        Builtin::UInt64 => Type::UInt64,
        Builtin::Float32 => Type::Float32,
        Builtin::Float64 => Type::Float64,
        Builtin::Text => Type::Text,
        Builtin::Data => Type::Data,
        Builtin::List | Builtin::AnyList => Type::AnyList,
        Builtin::AnyPointer => Type::AnyPointer,
        Builtin::AnyStruct => Type::AnyStruct,
        Builtin::Capability => Type::Capability,
    }
}

/// Returns the type that every file knows for a type without a node.
pub(crate) fn builtin_of(ty: &Type) -> Builtin {
    match ty {
        Type::Bool => Builtin::Bool,
        Type::Int8 => Builtin::Int8,
        Type::Int16 => Builtin::Int16,
        Type::Int32 => Builtin::Int32,
        Type::Int64 => Builtin::Int64,
        Type::UInt8 => Builtin::UInt8,
        Type::UInt16 => Builtin::UInt16,
        Type::UInt32 => Builtin::UInt32,
        Type::UInt64 => Builtin::UInt64,
        Type::Float32 => Builtin::Float32,
        Type::Float64 => Builtin::Float64,
        Type::Text => Builtin::Text,
        Type::Data => Builtin::Data,
        Type::AnyPointer => Builtin::AnyPointer,
        Type::AnyStruct => Builtin::AnyStruct,
        Type::AnyList => Builtin::AnyList,
        Type::Capability => Builtin::Capability,
        _ => Builtin::Void,
    }
}
