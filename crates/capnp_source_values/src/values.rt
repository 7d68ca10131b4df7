//! The values that expressions mean.

use crate::bindings::{Bindings, Bound, is_parameter, resolved};
use crate::constants::{data_under, float_under, integer_under, text_under};
use crate::faults::ValueFault;
use crate::kinds::{bytes_of, scalar_of, width_of};
use crate::leaves::{bare_name, embedded, named};
use crate::making::Making;
use crate::names::Names;
use crate::numbers::float_of;
use crate::objects::{Marks, element_of, object_of, peeled, span_of, store, structure_of};
use crate::sections::put;
use crate::telling::{not_of_type, refused};
use capnp_source_nodes::nodes::{Field, FieldBody, Struct};
use capnp_source_nodes::types::Type;
use capnp_source_nodes::values::{Object, Parts, Value, Width};
use capnp_source_syntax::tree::{Argument, Expression, Span};
use std::alloc::Global;

/// The number of levels that may be nested in a value.
const MOST_LEVELS: u32 = 64;

/// Returns the value that a field, a constant or an annotation of a type has if none is written.
pub fn default_of(alloc: Global, ty: &Type) -> Value {
    match ty {
        Type::Void => Value::Void,
        Type::Bool => Value::Bool(false),
        Type::Int8 => Value::Int8(0),
        Type::Int16 => Value::Int16(0),
        Type::Int32 => Value::Int32(0),
        Type::Int64 => Value::Int64(0),
        Type::UInt8 => Value::UInt8(0),
        Type::UInt16 => Value::UInt16(0),
        Type::UInt32 => Value::UInt32(0),
        Type::UInt64 => Value::UInt64(0),
        Type::Float32 => Value::Float32(0),
        Type::Float64 => Value::Float64(0),
        Type::Text => Value::Text(Vec::new(alloc)),
        Type::Data => Value::Data(Vec::new(alloc)),
        Type::Enum { .. } => Value::Enum(0),
        Type::List(_) => Value::List(Object::Null),
        Type::Struct { .. } => Value::Struct(Object::Null),
        Type::Interface { .. } => Value::Interface,
        Type::AnyPointer
        | Type::AnyStruct
        | Type::AnyList
        | Type::Capability
        | Type::Parameter { .. }
        | Type::MethodParameter { .. } => Value::AnyPointer(Object::Null),
    }
}

/// Returns the list of the values that expressions mean, whose elements have a size.
#[cycle(values)]
fn elements_within<N: Names>(
    making: &mut Making<N>,
    element: Bound,
    width: Width,
    items: &[Expression],
    span: Span,
    levels: u32,
) -> Result<Object, ValueFault> {
    let alloc = making.alloc;
    let count = making.count(items.len(), span)?;
    let Some(size) = bytes_of(width, items.len()) else {
        return Err(ValueFault::Memory);
    };
    let mut bytes = vec![in alloc; 0u8; size]?;
    for (place, item) in items.iter().enumerate() {
        let value = value_within(making, element, item, levels)?;
        if let Some(scalar) = scalar_of(&value) {
            put(bytes.as_mut_slice(), width, place, scalar.bits);
        }
    }
    Ok(Object::Elements {
        size: width,
        count,
        bytes,
    })
}

/// Returns the list of the structs that expressions mean.
#[cycle(values)]
fn structs_within<N: Names>(
    making: &mut Making<N>,
    element: Bound,
    structure: &Struct,
    items: &[Expression],
    levels: u32,
) -> Result<Object, ValueFault> {
    let (data_words, pointers) = (structure.data_words, structure.pointers);
    let mut elements = Vec::new(making.alloc);
    for item in items {
        let value = value_within(making, element, item, levels)?;
        let parts = element_of(making, value, data_words, pointers, span_of(item))?;
        elements.push(parts)?;
    }
    Ok(Object::Structs {
        data_words,
        pointers,
        elements,
    })
}

/// Returns the list that expressions mean.
#[cycle(values)]
fn list_within<N: Names>(
    making: &mut Making<N>,
    bound: Bound,
    items: &[Expression],
    span: Span,
    levels: u32,
) -> Result<Value, ValueFault> {
    let (alloc, names) = (making.alloc, making.names);
    let Type::List(types) = bound.ty else {
        return Err(not_of_type(alloc, names, bound.ty, span));
    };
    let [ty] = types.as_slice() else {
        return Err(not_of_type(alloc, names, bound.ty, span));
    };
    making.count(items.len(), span)?;
    making.take(1, span)?;
    let bindings = bound.bindings;
    let element = resolved(Bound { ty, bindings });
    if let Some(width) = width_of(element.ty) {
        let list = elements_within(making, element, width, items, span, levels)?;
        return Ok(Value::List(list));
    }
    if let Type::Struct { id, .. } = element.ty {
        let structure = structure_of(making, *id, span)?;
        let list = structs_within(making, element, structure, items, levels)?;
        return Ok(Value::List(list));
    }
    let mut pointers = Vec::new(alloc);
    for item in items {
        let value = value_within(making, element, item, levels)?;
        pointers.push(object_of(making, value, span_of(item))?)?;
    }
    Ok(Value::List(Object::Pointers(pointers)))
}

/// Sets a field of a struct to what an expression means.
#[cycle(values)]
fn field_within<N: Names>(
    making: &mut Making<N>,
    parts: &mut Parts,
    field: &Field,
    bindings: &Bindings,
    expression: &Expression,
    levels: u32,
) -> Result<(), ValueFault> {
    let span = span_of(expression);
    match &field.body {
        FieldBody::Slot {
            offset,
            ty,
            default,
            has_default: _,
        } => {
            let bindings = Some(bindings);
            let value = value_within(making, Bound { ty, bindings }, expression, levels)?;
            store(making, parts, *offset, default, value, span)
        }
        FieldBody::Group(id) => {
            if levels == 0 {
                return Err(too_deep(making, span));
            }
            let Expression::Tuple { arguments, .. } = peeled(expression) else {
                let text = "the field is a group (write its fields between parentheses)";
                return Err(refused(making.alloc, span, text));
            };
            let structure = structure_of(making, *id, span)?;
            fields_within(making, parts, structure, bindings, arguments, levels - 1)
        }
    }
}

/// Sets fields of a struct or a group.
#[cycle(values)]
fn fields_within<N: Names>(
    making: &mut Making<N>,
    parts: &mut Parts,
    structure: &Struct,
    bindings: &Bindings,
    arguments: &[Argument],
    levels: u32,
) -> Result<(), ValueFault> {
    let mut marks = Marks::new(making.alloc, structure)?;
    for argument in arguments {
        match argument {
            Argument::Plain(value) => {
                let text = "the name of a field is missing here (write `name = value`)";
                return Err(refused(making.alloc, span_of(value), text));
            }
            Argument::Named { name, value } => {
                let field = marks.mark(making.alloc, structure, name)?;
                marks.choose(making.alloc, parts, structure, field, name)?;
                field_within(making, parts, field, bindings, value, levels)?;
            }
        }
    }
    Ok(())
}

/// Returns the struct whose fields are set by arguments.
#[cycle(values)]
fn struct_within<N: Names>(
    making: &mut Making<N>,
    bound: Bound,
    arguments: &[Argument],
    span: Span,
    levels: u32,
) -> Result<Value, ValueFault> {
    let Type::Struct { id, brand } = bound.ty else {
        return Err(not_of_type(making.alloc, making.names, bound.ty, span));
    };
    let structure = structure_of(making, *id, span)?;
    let mut parts = making.parts(structure.data_words, structure.pointers, span)?;
    let any = Type::AnyPointer;
    let bindings = Bindings {
        brand: brand.as_slice(),
        any: &any,
        outer: bound.bindings,
    };
    fields_within(making, &mut parts, structure, &bindings, arguments, levels)?;
    Ok(Value::Struct(Object::Struct(parts)))
}

/// A fault that too many levels are nested.
fn too_deep<N: Names>(making: &Making<N>, span: Span) -> ValueFault {
    refused(
        making.alloc,
        span,
        "more than 64 levels are nested (nest less)",
    )
}

/// Returns the value that an expression means, in which n levels may be nested.
#[cycle(values)]
fn value_within<N: Names>(
    making: &mut Making<N>,
    bound: Bound,
    expression: &Expression,
    levels: u32,
) -> Result<Value, ValueFault> {
    let span = span_of(expression);
    if levels == 0 {
        return Err(too_deep(making, span));
    }
    let bound = resolved(bound);
    let ty = bound.ty;
    if is_parameter(ty) {
        let text = "the type is a parameter that isn't bound here (leave the value out)";
        return Err(refused(making.alloc, span, text));
    }
    match peeled(expression) {
        Expression::Integer {
            is_negative,
            magnitude,
            ..
        } => { integer_under(making, ty, *is_negative, *magnitude, span) }
        Expression::Float {
            is_negative,
            digits,
            ..
        } => {
            match float_of(*is_negative, digits.as_str()) {
                Some(float) => float_under(making, ty, float, span),
                None => Err(refused(
                    making.alloc,
                    span,
                    "the number is not a float (write digits)",
                )),
            }
        }
        Expression::Text { bytes, .. } => match ty {
            Type::Data => data_under(making, ty, bytes.as_slice(), span),
            _ => text_under(making, ty, bytes.as_slice(), span),
        },
        Expression::Bytes { bytes, .. } => data_under(making, ty, bytes.as_slice(), span),
        Expression::List { items, .. } => list_within(making, bound, items, span, levels - 1),
        Expression::Tuple { arguments, .. } => {
            struct_within(making, bound, arguments, span, levels - 1)
        }
        Expression::Embed { path, .. } => embedded(making, ty, path.as_slice(), span),
        Expression::Path { root, steps, .. } => {
            let bare = bare_name(root, steps.as_slice());
            named(making, bound, peeled(expression), bare, span)
        }
    }
}

/// Returns the value that an expression means under a type.
///
/// - `Wrong` if it doesn't mean a value of this type, or the value is nested more than 64 levels
///   deep or takes more than 64 MiB.
/// - `Pending` if it names a constant that doesn't have its value yet.
/// - `Memory` if an allocation was refused.
pub fn value_of<N: Names>(
    alloc: Global,
    names: &N,
    ty: &Type,
    expression: &Expression,
) -> Result<Value, ValueFault> {
    let mut making = Making::new(alloc, names);
    let bindings = None;
    value_within(&mut making, Bound { ty, bindings }, expression, MOST_LEVELS)
}

/// Returns the value that the arguments of an annotation mean under its type: a single argument
/// without a name is the value, and others are the fields of a struct. It fails as `value_of`.
pub fn applied_value<N: Names>(
    alloc: Global,
    names: &N,
    ty: &Type,
    arguments: &[Argument],
    span: Span,
) -> Result<Value, ValueFault> {
    if let [Argument::Plain(expression)] = arguments {
        return value_of(alloc, names, ty, expression);
    }
    let mut making = Making::new(alloc, names);
    let bindings = None;
    struct_within(
        &mut making,
        Bound { ty, bindings },
        arguments,
        span,
        MOST_LEVELS,
    )
}
