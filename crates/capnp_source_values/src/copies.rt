//! Copies of the objects of constants.

use crate::faults::ValueFault;
use crate::making::Making;
use crate::names::Names;
use crate::telling::refused;
use capnp_source_nodes::values::{Object, Parts};
use capnp_source_syntax::tree::Span;

/// The number of levels of objects that are copied.
pub(crate) const MOST_LEVELS: u32 = 256;

/// Returns the number of words that bytes take.
fn words_of(bytes: usize) -> u64 {
    match u64::try_from(bytes) {
        Ok(bytes) => bytes.div_ceil(8),
        Err(_) => u64::MAX,
    }
}

/// Returns a copy of bytes, with room for one more.
pub(crate) fn copied_bytes<N: Names>(
    making: &mut Making<N>,
    bytes: &[u8],
    span: Span,
) -> Result<Vec<u8>, ValueFault> {
    making.count(bytes.len(), span)?;
    making.take(words_of(bytes.len()), span)?;
    let mut copied = Vec::new(making.alloc);
    copied.extend_from_slice(bytes)?;
    Ok(copied)
}

/// Returns copies of pointers.
#[cycle(copies)]
fn copied_pointers<N: Names>(
    making: &mut Making<N>,
    pointers: &[Object],
    span: Span,
    levels: u32,
) -> Result<Vec<Object>, ValueFault> {
    let mut copied = Vec::new(making.alloc);
    for pointer in pointers {
        copied.push(copied_object(making, pointer, span, levels)?)?;
    }
    Ok(copied)
}

/// Returns a copy of the sections of a struct.
#[cycle(copies)]
fn copied_parts<N: Names>(
    making: &mut Making<N>,
    parts: &Parts,
    span: Span,
    levels: u32,
) -> Result<Parts, ValueFault> {
    let data = copied_bytes(making, parts.data.as_slice(), span)?;
    let pointers = copied_pointers(making, parts.pointers.as_slice(), span, levels)?;
    Ok(Parts { data, pointers })
}

/// Returns copies of the structs of a list.
#[cycle(copies)]
fn copied_structs<N: Names>(
    making: &mut Making<N>,
    elements: &[Parts],
    span: Span,
    levels: u32,
) -> Result<Vec<Parts>, ValueFault> {
    let mut copied = Vec::new(making.alloc);
    for parts in elements {
        copied.push(copied_parts(making, parts, span, levels)?)?;
    }
    Ok(copied)
}

/// Returns a copy of an object, in which n levels may be nested.
#[cycle(copies)]
pub(crate) fn copied_object<N: Names>(
    making: &mut Making<N>,
    object: &Object,
    span: Span,
    levels: u32,
) -> Result<Object, ValueFault> {
    if levels == 0 {
        let text = "more than 256 levels are nested (nest less)";
        return Err(refused(making.alloc, span, text));
    }
    making.take(1, span)?;
    match object {
        Object::Null => Ok(Object::Null),
        Object::Struct(parts) => Ok(Object::Struct(copied_parts(making, parts, span, levels - 1)?)),
        Object::Elements { size, count, bytes } => Ok(Object::Elements {
            size: *size,
            count: *count,
            bytes: copied_bytes(making, bytes.as_slice(), span)?,
        }),
        Object::Pointers(pointers) => {
            let copied = copied_pointers(making, pointers.as_slice(), span, levels - 1)?;
            Ok(Object::Pointers(copied))
        }
        Object::Structs {
            data_words,
            pointers,
            elements,
        } => Ok(Object::Structs {
            data_words: *data_words,
            pointers: *pointers,
            elements: copied_structs(making, elements.as_slice(), span, levels - 1)?,
        }),
    }
}
