//! Values without parts: names, words and files.

use crate::bindings::Bound;
use crate::constants::{constant_under, data_under, text_under};
use crate::faults::ValueFault;
use crate::making::Making;
use crate::messages::root_of;
use crate::names::Names;
use crate::telling::{no_enumerant, not_of_type, refused, unqualified};
use capnp_source_nodes::nodes::NodeBody;
use capnp_source_nodes::types::Type;
use capnp_source_nodes::values::Value;
use capnp_source_syntax::tree::{Expression, Name, Root, Span, Step};

/// Returns the value of a word that stands for one whatever is declared. `None` of other words.
fn word_value<N: Names>(
    making: &Making<N>,
    ty: &Type,
    word: &str,
    span: Span,
) -> Option<Result<Value, ValueFault>> {
    let value = match (word, ty) {
        ("void", Type::Void) => Value::Void,
        ("true", Type::Bool) => Value::Bool(true),
        ("false", Type::Bool) => Value::Bool(false),
        ("nan", Type::Float32) => Value::Float32(0x7fc0_0000),
        ("nan", Type::Float64) => Value::Float64(0x7ff8_0000_0000_0000),
        ("inf", Type::Float32) => Value::Float32(0x7f80_0000),
        ("inf", Type::Float64) => Value::Float64(0x7ff0_0000_0000_0000),
        ("void" | "true" | "false" | "nan" | "inf", _) => {
            return Some(Err(not_of_type(making.alloc, making.names, ty, span)));
        }
        _ => return None,
    };
    Some(Ok(value))
}

/// Returns the enumerant with a name, under the enum with an id.
fn enumerant<N: Names>(making: &Making<N>, id: u64, name: &Name) -> Result<Value, ValueFault> {
    let names = making.names;
    let enumerants = match names.node(id) {
        Some(node) => match &node.body {
            NodeBody::Enum(enumerants) => enumerants.as_slice(),
            _ => &[],
        },
        None => &[],
    };
    let mut number: u16 = 0;
    for enumerant in enumerants {
        if enumerant.name.as_str() == name.text.as_str() {
            return Ok(Value::Enum(number));
        }
        number = number.saturating_add(1);
    }
    Err(no_enumerant(making.alloc, enumerants, name))
}

/// Returns the name that a path is, if it's only one.
pub(crate) fn bare_name<'a>(root: &'a Root, steps: &[Step]) -> Option<&'a Name> {
    match (root, steps) {
        (Root::Relative(name), []) => Some(name),
        _ => None,
    }
}

/// Returns the value that a path names.
pub(crate) fn named<N: Names>(
    making: &mut Making<N>,
    bound: Bound,
    path: &Expression,
    bare: Option<&Name>,
    span: Span,
) -> Result<Value, ValueFault> {
    if let Some(name) = bare {
        if let Type::Enum { id, .. } = bound.ty {
            return enumerant(making, *id, name);
        }
        if let Some(value) = word_value(making, bound.ty, name.text.as_str(), span) {
            return value;
        }
    }
    let names = making.names;
    let constant = names.constant(path)?;
    if let Some(name) = bare {
        return Err(unqualified(making.alloc, constant.scope, name));
    }
    constant_under(making, bound, constant, span)
}

/// Returns the value of the bytes of a file.
pub(crate) fn embedded<N: Names>(
    making: &mut Making<N>,
    ty: &Type,
    path: &[u8],
    span: Span,
) -> Result<Value, ValueFault> {
    let names = making.names;
    match ty {
        Type::Text => {
            let bytes = names.embedded(path, span)?;
            text_under(making, ty, bytes, span)
        }
        Type::Data => {
            let bytes = names.embedded(path, span)?;
            data_under(making, ty, bytes, span)
        }
        Type::Struct { .. } => {
            let bytes = names.embedded(path, span)?;
            Ok(Value::Struct(root_of(making, bytes, span)?))
        }
        _ => {
            let text = "a file is only a text, data or a struct (write the value itself)";
            Err(refused(making.alloc, span, text))
        }
    }
}
