//! Bindings of the parameters of generic types.

use capnp_source_nodes::types::{Binding, BrandScope, Type};

/// The number of levels of types that are compared.
const MOST_LEVELS: u32 = 256;

/// The bindings of parameters in the fields of a struct, by the brand of the struct's type. The
/// arguments in the brand are written where the outer bindings hold.
#[derive(Clone, Copy)]
pub(crate) struct Bindings<'a> {
    pub brand: &'a [BrandScope],
    /// The type of parameters that bindings leave out.
    pub any: &'a Type,
    pub outer: Option<&'a Bindings<'a>>,
}

/// A type where some bindings hold. Without bindings no parameter is bound.
#[derive(Clone, Copy)]
pub(crate) struct Bound<'a> {
    pub ty: &'a Type,
    pub bindings: Option<&'a Bindings<'a>>,
}

/// The type to which a brand binds a parameter.
#[derive(Clone, Copy)]
enum Found<'a> {
    /// Any pointer.
    Nothing,
    Argument(&'a Type),
    /// The type to which the bindings around bind it.
    Inherited,
}

/// Finds the argument of a parameter in a brand.
fn found_in<'a>(brand: &'a [BrandScope], scope: u64, index: u16) -> Found<'a> {
    for each in brand {
        if each.id == scope {
            return match &each.binding {
                Binding::Inherited => Found::Inherited,
                Binding::Bound(arguments) => match arguments.get(usize::from(index)) {
                    Some(Some(argument)) => Found::Argument(argument),
                    _ => Found::Nothing,
                },
            };
        }
    }
    Found::Nothing
}

/// Returns a type that isn't a bound parameter: the type itself, or the argument of the parameter
/// that it is. A parameter that bindings leave out is any pointer, and a parameter without bindings
/// stays.
pub(crate) fn resolved<'a>(bound: Bound<'a>) -> Bound<'a> {
    let mut ty = bound.ty;
    let mut left = bound.bindings;
    while let Some(bindings) = left {
        let Type::Parameter { scope, index } = ty else {
            return Bound { ty, bindings: left };
        };
        match found_in(bindings.brand, *scope, *index) {
            Found::Nothing => {
                let ty = bindings.any;
                return Bound { ty, bindings: None };
            }
            Found::Inherited => {}
            Found::Argument(argument) => ty = argument,
        }
        left = bindings.outer;
    }
    Bound { ty, bindings: left }
}

/// Whether a type is any pointer of some kind, as a parameter is that isn't bound.
fn is_any(ty: &Type) -> bool {
    matches!(
        ty,
        Type::AnyPointer | Type::Parameter { .. } | Type::MethodParameter { .. }
    )
}

/// Returns a number that differs from one kind of types to another.
fn kind_of(ty: &Type) -> u8 {
    match ty {
        Type::Void => 0,
        Type::Bool => 1,
        Type::Int8 => 2,
        Type::Int16 => 3,
        Type::Int32 => 4,
        Type::Int64 => 5,
        Type::UInt8 => 6,
        Type::UInt16 => 7,
        Type::UInt32 => 8,
        Type::UInt64 => 9,
        Type::Float32 => 10,
        Type::Float64 => 11,
        Type::Text => 12,
        Type::Data => 13,
        Type::List(_) => 14,
        Type::Enum { .. } => 15,
        Type::Struct { .. } => 16,
        Type::Interface { .. } => 17,
        Type::AnyStruct => 18,
        Type::AnyList => 19,
        Type::Capability => 20,
        Type::AnyPointer | Type::Parameter { .. } | Type::MethodParameter { .. } => 21,
    }
}

/// Whether two lists of arguments for the parameters of one node bind the same types.
#[cycle(types)]
fn are_same_arguments(
    arguments: &[Option<Type>],
    others: &[Option<Type>],
    bindings: Option<&Bindings>,
    levels: u32,
) -> bool {
    if arguments.len() != others.len() {
        return false;
    }
    for (argument, other) in arguments.iter().zip(others) {
        let is_same = match (argument, other) {
            (Some(ty), Some(other)) => is_same_type(Bound { ty, bindings }, other, levels),
            (None, Some(ty)) => is_any(ty),
            (Some(ty), None) => is_any(resolved(Bound { ty, bindings }).ty),
            (None, None) => true,
        };
        if !is_same {
            return false;
        }
    }
    true
}

/// Whether the arguments of one scope are those that another brand has for it.
#[cycle(types)]
fn is_same_scope(
    scope: &BrandScope,
    brand: &[BrandScope],
    bindings: Option<&Bindings>,
    levels: u32,
) -> bool {
    let Binding::Bound(arguments) = &scope.binding else {
        return true;
    };
    for other in brand {
        if other.id == scope.id {
            return match &other.binding {
                Binding::Bound(others) => are_same_arguments(arguments, others, bindings, levels),
                Binding::Inherited => false,
            };
        }
    }
    false
}

/// Whether two brands bind the same types.
#[cycle(types)]
fn is_same_brand(
    brand: &[BrandScope],
    other: &[BrandScope],
    bindings: Option<&Bindings>,
    levels: u32,
) -> bool {
    if brand.len() != other.len() {
        return false;
    }
    for scope in brand {
        if !is_same_scope(scope, other, bindings, levels) {
            return false;
        }
    }
    true
}

/// Whether a type where bindings hold is a type without bindings.
#[cycle(types)]
fn is_same_type(bound: Bound, other: &Type, levels: u32) -> bool {
    let Bound { ty, bindings } = resolved(bound);
    if levels == 0 || kind_of(ty) != kind_of(other) {
        return false;
    }
    match (ty, other) {
        (Type::List(elements), Type::List(others)) => {
            match (elements.as_slice(), others.as_slice()) {
                ([ty], [other]) => is_same_type(Bound { ty, bindings }, other, levels - 1),
                _ => false,
            }
        }
        (
            Type::Enum { id, brand },
            Type::Enum {
                id: other,
                brand: others,
            },
        )
        | (
            Type::Struct { id, brand },
            Type::Struct {
                id: other,
                brand: others,
            },
        ) => { id == other && is_same_brand(brand, others, bindings, levels - 1) }
        _ => true,
    }
}

/// Whether a type where bindings hold is the type of a constant.
pub(crate) fn is_type(bound: Bound, other: &Type) -> bool {
    is_same_type(bound, other, MOST_LEVELS)
}

/// Whether a type takes a constant of any struct.
pub(crate) fn takes_any_struct(ty: &Type) -> bool {
    matches!(ty, Type::AnyPointer | Type::AnyStruct)
}

/// Whether a type takes a constant of any list.
pub(crate) fn takes_any_list(ty: &Type) -> bool {
    matches!(ty, Type::AnyPointer | Type::AnyList)
}

/// Whether a type is a parameter.
pub(crate) fn is_parameter(ty: &Type) -> bool {
    matches!(ty, Type::Parameter { .. } | Type::MethodParameter { .. })
}
