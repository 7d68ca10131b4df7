//! Texts of faults.

use crate::faults::{ValueFault, wrong};
use crate::names::Names;
use crate::numbers::range_of;
use capnp_source_nodes::nodes::{Enumerant, Field, Node};
use capnp_source_nodes::types::Type;
use capnp_source_syntax::tree::{Name, Span};
use std::alloc::{AllocError, Global};
use strsim::osa_distance;

/// A fault at a place, by a text that is always the same.
pub(crate) fn refused(alloc: Global, span: Span, text: &str) -> ValueFault {
    match String::from_str(alloc, text) {
        Ok(text) => wrong(span, text),
        Err(_) => ValueFault::Memory,
    }
}

/// Returns the own name of a node.
fn own_name(node: &Node) -> &str {
    let name = node.display_name.as_str();
    match usize::try_from(node.prefix_length) {
        Ok(start) => name.get(start..).unwrap_or(name),
        Err(_) => name,
    }
}

/// Returns the name of a type that isn't a list.
fn word_of<'a, N: Names>(names: &'a N, ty: &Type) -> &'a str {
    match ty {
        Type::Void => "Void",
        Type::Bool => "Bool",
        Type::Int8 => "Int8",
        Type::Int16 => "Int16",
        Type::Int32 => "Int32",
        Type::Int64 => "Int64",
        Type::UInt8 => "UInt8",
        Type::UInt16 => "UInt16",
        Type::UInt32 => "UInt32",
        Type::UInt64 => "UInt64",
        Type::Float32 => "Float32",
        Type::Float64 => "Float64",
        Type::Text => "Text",
        Type::Data => "Data",
        Type::List(_) => "List",
        Type::Enum { id, .. } | Type::Struct { id, .. } | Type::Interface { id, .. } => {
            match names.node(*id) {
                Some(node) => own_name(node),
                None => "its type",
            }
        }
        Type::AnyStruct => "AnyStruct",
        Type::AnyList => "AnyList",
        Type::Capability => "Capability",
        Type::AnyPointer | Type::Parameter { .. } | Type::MethodParameter { .. } => "AnyPointer",
    }
}

/// Returns how a value of a type is written.
fn advice_for(ty: &Type) -> &'static str {
    match ty {
        Type::Void => "write `void`",
        Type::Bool => "write `true` or `false`",
        Type::Float32 | Type::Float64 => "write a number, `inf` or `nan`",
        Type::Text => "write a text between quotes",
        Type::Data => "write a text between quotes, or 0x\"..\" with hexadecimal digits",
        Type::List(_) => "write values between brackets",
        Type::Enum { .. } => "write the name of an enumerant",
        Type::Struct { .. } => "write its fields between parentheses, as `(name = value)`",
        Type::Interface { .. } | Type::Capability => "leave the value out: it is always null",
        Type::AnyStruct => "name a constant whose type is a struct",
        Type::AnyList => "name a constant whose type is a list",
        Type::AnyPointer | Type::Parameter { .. } | Type::MethodParameter { .. } => {
            "name a constant whose type is a struct or a list"
        }
        _ => "write an integer",
    }
}

/// A fault that a value isn't of its type.
pub(crate) fn not_of_type<N: Names>(alloc: Global, names: &N, ty: &Type, span: Span) -> ValueFault {
    let (word, advice) = (word_of(names, ty), advice_for(ty));
    match format!(in alloc; "the value is not of the type {word} ({advice})") {
        Ok(text) => wrong(span, text),
        Err(_) => ValueFault::Memory,
    }
}

/// A fault that an integer is out of the range of its type.
pub(crate) fn out_of_range<N: Names>(
    alloc: Global,
    names: &N,
    ty: &Type,
    span: Span,
    is_negative: bool,
    magnitude: u64,
) -> ValueFault {
    let Some(range) = range_of(ty) else {
        return not_of_type(alloc, names, ty, span);
    };
    let word = word_of(names, ty);
    let sign = if is_negative { "-" } else { "" };
    match format!(in alloc; "{sign}{magnitude} is out of range of {word} (write {range})") {
        Ok(text) => wrong(span, text),
        Err(_) => ValueFault::Memory,
    }
}

/// The name that is nearest to another, so far.
#[derive(Drop)]
struct Nearest<'a> {
    wanted: &'a str,
    found: Option<&'a str>,
    /// The number of edits that a nearer name is below.
    least: usize,
}

impl<'a> Nearest<'a> {
    /// Nothing yet. A name is near if at most a third of the letters, and one, differ.
    fn to(wanted: &'a str) -> Nearest<'a> {
        Nearest {
            wanted,
            found: None,
            least: wanted.len() / 3 + 2,
        }
    }

    /// Takes a name if it's nearer than those before.
    fn offer(&mut self, alloc: Global, name: &'a str) -> Result<(), AllocError> {
        let distance = osa_distance(alloc, name, self.wanted)?;
        if distance < self.least {
            self.least = distance;
            self.found = Some(name);
        }
        Ok(())
    }

    /// Returns the text that a node doesn't have what is wanted.
    fn told(&self, alloc: Global, node: &str, member: &str) -> Result<String, AllocError> {
        let wanted = self.wanted;
        match self.found {
            Some(near) => {
                format!(in alloc;
                    "the {node} has no {member} \"{wanted}\" (did you mean \"{near}\"?)"
                )
            }
            None => {
                format!(in alloc; "the {node} has no {member} \"{wanted}\" (write the name of one)")
            }
        }
    }
}

/// Returns the text that a struct doesn't have a field.
fn no_field_text(alloc: Global, fields: &[Field], name: &str) -> Result<String, AllocError> {
    let mut nearest = Nearest::to(name);
    for field in fields {
        nearest.offer(alloc, field.name.as_str())?;
    }
    nearest.told(alloc, "struct", "field")
}

/// Returns the text that an enum doesn't have an enumerant.
fn no_enumerant_text(
    alloc: Global,
    enumerants: &[Enumerant],
    name: &str,
) -> Result<String, AllocError> {
    let mut nearest = Nearest::to(name);
    for enumerant in enumerants {
        nearest.offer(alloc, enumerant.name.as_str())?;
    }
    nearest.told(alloc, "enum", "enumerant")
}

/// A fault that a struct doesn't have a field.
pub(crate) fn no_field(alloc: Global, fields: &[Field], name: &Name) -> ValueFault {
    match no_field_text(alloc, fields, name.text.as_str()) {
        Ok(text) => wrong(name.span, text),
        Err(_) => ValueFault::Memory,
    }
}

/// A fault that an enum doesn't have an enumerant.
pub(crate) fn no_enumerant(alloc: Global, enumerants: &[Enumerant], name: &Name) -> ValueFault {
    match no_enumerant_text(alloc, enumerants, name.text.as_str()) {
        Ok(text) => wrong(name.span, text),
        Err(_) => ValueFault::Memory,
    }
}

/// A fault that the name of a constant isn't qualified.
pub(crate) fn unqualified(alloc: Global, scope: &str, name: &Name) -> ValueFault {
    let own = name.text.as_str();
    match format!(in alloc; "the name of a constant is not qualified (write `{scope}.{own}`)") {
        Ok(text) => wrong(name.span, text),
        Err(_) => ValueFault::Memory,
    }
}
