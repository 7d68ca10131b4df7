//! Structs whose fields are set.

use crate::faults::ValueFault;
use crate::kinds::scalar_of;
use crate::making::Making;
use crate::names::Names;
use crate::sections::put;
use crate::telling::{no_field, refused};
use capnp_source_nodes::nodes::{Field, NodeBody, Struct};
use capnp_source_nodes::values::{Object, Parts, Value, Width};
use capnp_source_syntax::tree::{Argument, Expression, Name, Span};
use std::alloc::{AllocError, Global};

/// The discriminant of a field that isn't in a union.
const NO_DISCRIMINANT: u16 = 65535;

/// Returns the place of an expression in its file.
pub(crate) fn span_of(expression: &Expression) -> Span {
    match expression {
        Expression::Integer { span, .. }
        | Expression::Float { span, .. }
        | Expression::Text { span, .. }
        | Expression::Bytes { span, .. }
        | Expression::List { span, .. }
        | Expression::Tuple { span, .. }
        | Expression::Embed { span, .. }
        | Expression::Path { span, .. } => *span,
    }
}

/// Returns an expression without the parentheses around it.
pub(crate) fn peeled(expression: &Expression) -> &Expression {
    let mut inner = expression;
    while let Expression::Tuple { arguments, .. } = inner {
        match arguments.as_slice() {
            [Argument::Plain(value)] => inner = value,
            _ => return inner,
        }
    }
    inner
}

/// Returns the struct or the group with an id.
pub(crate) fn structure_of<'a, N: Names>(
    making: &Making<'a, N>,
    id: u64,
    span: Span,
) -> Result<&'a Struct, ValueFault> {
    let names = making.names;
    if let Some(node) = names.node(id) {
        if let NodeBody::Struct(structure) = &node.body {
            return Ok(structure);
        }
    }
    let text = "the struct of this value isn't laid out (mend what is wrong with it first)";
    Err(refused(making.alloc, span, text))
}

/// Returns the object that a pointer to a value leads to. Of a value without a pointer, null.
pub(crate) fn object_of<N: Names>(
    making: &mut Making<N>,
    value: Value,
    span: Span,
) -> Result<Object, ValueFault> {
    match value {
        Value::Text(text) => {
            let mut bytes = text;
            bytes.push(0)?;
            let count = making.count(bytes.len(), span)?;
            let size = Width::Byte;
            Ok(Object::Elements { size, count, bytes })
        }
        Value::Data(bytes) => {
            let count = making.count(bytes.len(), span)?;
            let size = Width::Byte;
            Ok(Object::Elements { size, count, bytes })
        }
        Value::List(object) | Value::Struct(object) | Value::AnyPointer(object) => Ok(object),
        _ => Ok(Object::Null),
    }
}

/// A fault that the sections of a struct don't have the place of a field.
fn misplaced<N: Names>(making: &Making<N>, span: Span) -> ValueFault {
    let text = "the field isn't inside of its struct (report this)";
    refused(making.alloc, span, text)
}

/// Puts the value of a field into its struct. Data is stored as its difference from the default.
pub(crate) fn store<N: Names>(
    making: &mut Making<N>,
    parts: &mut Parts,
    offset: u32,
    default: &Value,
    value: Value,
    span: Span,
) -> Result<(), ValueFault> {
    let Ok(place) = usize::try_from(offset) else {
        return Err(misplaced(making, span));
    };
    if let Some(scalar) = scalar_of(&value) {
        let usual = match scalar_of(default) {
            Some(scalar) => scalar.bits,
            None => 0,
        };
        if put(
            parts.data.as_mut_slice(),
            scalar.width,
            place,
            scalar.bits ^ usual,
        ) {
            return Ok(());
        }
        return Err(misplaced(making, span));
    }
    let object = object_of(making, value, span)?;
    match parts.pointers.get_mut(place) {
        Some(pointer) => {
            *pointer = object;
            Ok(())
        }
        None => Err(misplaced(making, span)),
    }
}

/// Returns the sections of a struct in these sizes.
fn fitted<N: Names>(
    making: &mut Making<N>,
    parts: Parts,
    data_words: u16,
    pointers: u16,
    span: Span,
) -> Result<Parts, ValueFault> {
    making.take(u64::from(data_words) + u64::from(pointers), span)?;
    let Parts {
        mut data,
        pointers: mut found,
    } = parts;
    data.resize(8 * usize::from(data_words), 0)?;
    found.truncate(usize::from(pointers));
    for _ in found.len()..usize::from(pointers) {
        found.push(Object::Null)?;
    }
    Ok(Parts {
        data,
        pointers: found,
    })
}

/// Returns the sections of a struct, if a value is one that isn't null.
fn sections_of(value: Value) -> Option<Parts> {
    match value {
        Value::Struct(object) => match object {
            Object::Struct(parts) => Some(parts),
            _ => None,
        },
        _ => None,
    }
}

/// Returns an element of a list of structs, whose sections have these sizes. Of a value that isn't
/// a struct, or is null, an element in which nothing is set.
pub(crate) fn element_of<N: Names>(
    making: &mut Making<N>,
    value: Value,
    data_words: u16,
    pointers: u16,
    span: Span,
) -> Result<Parts, ValueFault> {
    match sections_of(value) {
        Some(parts) => fitted(making, parts, data_words, pointers, span),
        None => making.parts(data_words, pointers, span),
    }
}

/// Which fields of a struct are set.
#[derive(Drop)]
pub(crate) struct Marks {
    set: Vec<bool>,
    /// Whether a member of the union is set.
    is_chosen: bool,
}

impl Marks {
    /// No field of a struct.
    pub(crate) fn new(alloc: Global, structure: &Struct) -> Result<Marks, AllocError> {
        Ok(Marks {
            set: vec![in alloc; false; structure.fields.len()]?,
            is_chosen: false,
        })
    }

    /// Finds a field that isn't set yet, and marks it as set.
    pub(crate) fn mark<'a>(
        &mut self,
        alloc: Global,
        structure: &'a Struct,
        name: &Name,
    ) -> Result<&'a Field, ValueFault> {
        for (place, field) in structure.fields.iter().enumerate() {
            if field.name.as_str() == name.text.as_str() {
                if self.set.get(place).copied().unwrap_or(false) {
                    let text = "the field is set twice (take one out)";
                    return Err(refused(alloc, name.span, text));
                }
                if let Some(is_set) = self.set.get_mut(place) {
                    *is_set = true;
                }
                return Ok(field);
            }
        }
        Err(no_field(alloc, structure.fields.as_slice(), name))
    }

    /// Writes the discriminant of a field that is in the union, which has no other member set.
    pub(crate) fn choose(
        &mut self,
        alloc: Global,
        parts: &mut Parts,
        structure: &Struct,
        field: &Field,
        name: &Name,
    ) -> Result<(), ValueFault> {
        if field.discriminant == NO_DISCRIMINANT {
            return Ok(());
        }
        if self.is_chosen {
            let text = "another member of the union is set already (set only one)";
            return Err(refused(alloc, name.span, text));
        }
        self.is_chosen = true;
        let bits = u64::from(field.discriminant);
        let is_inside = match usize::try_from(structure.discriminant_offset) {
            Ok(place) => put(parts.data.as_mut_slice(), Width::TwoBytes, place, bits),
            Err(_) => false,
        };
        if is_inside {
            return Ok(());
        }
        let text = "the union isn't inside of its struct (report this)";
        Err(refused(alloc, name.span, text))
    }
}
