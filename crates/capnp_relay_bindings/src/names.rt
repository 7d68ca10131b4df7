//! The names of generic nodes whose parameters are bound.

use crate::bound::BoundNodes;
use crate::scopes::Scopes;
use crate::types::{Binding, BoundType, bound_to};
use capnp_records::node::BaseType;
use std::alloc::{AllocError, Global};

/// The most bytes of arguments that a name shows; more are shown as `..`.
const MOST_SHOWN: usize = 200;

/// Returns the name of a node, bound or not.
fn name_of<'a>(scopes: &'a Scopes, bound: &'a BoundNodes, id: u64) -> &'a str {
    if let Some(node) = bound.get(id) {
        return node.name.as_str();
    }
    match scopes.get(id) {
        Some(node) => node.path.as_str(),
        None => "?",
    }
}

/// Returns the name of a base.
fn base_name<'a>(scopes: &'a Scopes, bound: &'a BoundNodes, to: BoundType) -> &'a str {
    match to.ty.base {
        BaseType::Void => "Void",
        BaseType::Bool => "Bool",
        BaseType::Int8 => "Int8",
        BaseType::Int16 => "Int16",
        BaseType::Int32 => "Int32",
        BaseType::Int64 => "Int64",
        BaseType::UInt8 => "UInt8",
        BaseType::UInt16 => "UInt16",
        BaseType::UInt32 => "UInt32",
        BaseType::UInt64 => "UInt64",
        BaseType::Float32 => "Float32",
        BaseType::Float64 => "Float64",
        BaseType::Text => "Text",
        BaseType::Data => "Data",
        BaseType::Enum(id) | BaseType::Struct(id) => name_of(scopes, bound, id),
        BaseType::Capability if to.interface != 0 => name_of(scopes, bound, to.interface),
        BaseType::Capability => "Capability",
        BaseType::AnyPointer => "AnyPointer",
    }
}

/// Writes the name of a type.
fn put_type(
    name: &mut String,
    scopes: &Scopes,
    bound: &BoundNodes,
    to: BoundType,
) -> Result<(), AllocError> {
    let lists = to.ty.list_count;
    for _ in 0..lists {
        name.push_str("List(")?;
    }
    name.push_str(base_name(scopes, bound, to))?;
    for _ in 0..lists {
        name.push_str(")")?;
    }
    Ok(())
}

/// Returns the types to which the parameters of a scope are bound, with commas between them.
fn arguments(
    alloc: Global,
    scopes: &Scopes,
    bound: &BoundNodes,
    bindings: &[Binding],
    scope: u64,
) -> Result<String, AllocError> {
    let mut text = String::new(alloc);
    let count = match scopes.get(scope) {
        Some(node) => node.parameters,
        None => 0,
    };
    for index in 0..count {
        if text.len() > MOST_SHOWN {
            return String::from_str(alloc, "..");
        }
        if index > 0 {
            text.push_str(", ")?;
        }
        put_type(&mut text, scopes, bound, bound_to(bindings, scope, index))?;
    }
    if text.len() > MOST_SHOWN {
        return String::from_str(alloc, "..");
    }
    Ok(text)
}

/// Returns whether a parameter of a scope is bound.
fn is_bound(bindings: &[Binding], scope: u64) -> bool {
    bindings.iter().any(|binding| binding.scope == scope)
}

/// Returns the name of a node with bindings, such as `Map(Text, Text).Entry`.
pub(crate) fn bound_name(
    alloc: Global,
    scopes: &Scopes,
    bound: &BoundNodes,
    generic: u64,
    bindings: &[Binding],
) -> Result<String, AllocError> {
    let mut name = String::new(alloc);
    let around = scopes.around(alloc, generic)?;
    for scope in around.iter().rev() {
        if !name.is_empty() {
            name.push_str(".")?;
        }
        if let Some(node) = scopes.get(*scope) {
            name.push_str(node.name.as_str())?;
        }
        if is_bound(bindings, *scope) {
            let text = arguments(alloc, scopes, bound, bindings, *scope)?;
            name.push_str("(")?;
            name.push_str(text.as_str())?;
            name.push_str(")")?;
        }
    }
    Ok(name)
}
