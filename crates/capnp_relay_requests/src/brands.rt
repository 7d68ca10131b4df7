//! Types within a scope whose parameters are bound. (schema.capnp, Brand)

ghost use Rattle.std.specs.Prelude.{◌≢◌};
ghost use Rattle.capnp_units.specs.Sizes.{size_number};
ghost use Rattle.capnp_wire.specs.Views.{seen_list};

use crate::reading::{struct_behind, structs_behind};
use crate::types::base_in;
use capnp_records::node::BaseType;
use capnp_relay_bindings::bound::{BindFault, BoundNodes};
use capnp_relay_bindings::identity::{id_of_key, key_of};
use capnp_relay_bindings::scopes::Scopes;
use capnp_relay_bindings::types::{Binding, BoundType, bound_to, depth_of};
use capnp_wire::list::ListReader;
use capnp_wire::structs::StructReader;
use capnp_wire_objects::arena::ReaderArena;
use std::alloc::{AllocError, Global};

/// The members of the union of types.
const LIST: u16 = 14;

const STRUCT: u16 = 16;

const INTERFACE: u16 = 17;

const ANY_POINTER: u16 = 18;

/// The member of the union of untyped pointers that is a parameter of a type.
const PARAMETER: u16 = 1;

/// The members of the union of a brand's scope.
const BIND: u16 = 0;

const INHERIT: u16 = 1;

/// The most nested types of a field's type; deeper types are untyped pointers.
pub(crate) const MOST_TYPES: u32 = 64;

/// The state of binding types: the scopes of the request, and the bound nodes that were reached.
#[derive(Drop)]
pub(crate) struct Binder {
    pub(crate) alloc: Global,
    pub(crate) scopes: Scopes,
    pub(crate) bound: BoundNodes,
}

impl Binder {
    /// Returns the id of a generic node with bindings.
    pub(crate) fn bind(&mut self, generic: u64, bindings: Vec<Binding>) -> Result<u64, BindFault> {
        self.bound.bind(self.alloc, &self.scopes, generic, bindings)
    }
}

/// Appends the bindings of a scope, out of others, to further bindings.
fn inherit(found: &mut Vec<Binding>, bindings: &[Binding], scope: u64) -> Result<(), AllocError> {
    for binding in bindings {
        if binding.scope == scope {
            found.push(*binding)?;
        }
    }
    Ok(())
}

/// Returns the bindings of a group, or of another node that inherits them, within the scope of
/// others.
pub(crate) fn inherited(
    alloc: Global,
    scopes: &Scopes,
    bindings: &[Binding],
    id: u64,
) -> Result<Vec<Binding>, AllocError> {
    let mut found = Vec::new(alloc);
    if bindings.is_empty() {
        return Ok(found);
    }
    let around = scopes.around(alloc, id)?;
    for scope in &around {
        inherit(&mut found, bindings, *scope)?;
    }
    Ok(found)
}

/// Returns the part of a brand for a scope.
fn scope_in<'a, A: ReaderArena>(
    brand: &ListReader<'a, A>,
    scope: u64,
) -> Option<StructReader<'a, A>>
    requires { size_number (seen_list A.segments brand.now).size ≢ 1 }
{
    for i in 0..brand.len() {
        let entry = brand.get_struct_element(i);
        if entry.get_data_field::<u64>(0) == scope {
            return Some(entry);
        }
    }
    None
}

/// Appends the bindings of the parameters of a scope to others.
#[cycle(binding)]
fn push_bound<A: ReaderArena>(
    binder: &mut Binder,
    bindings: &[Binding],
    levels: u32,
    scope: u64,
    entry: &StructReader<'_, A>,
    found: &mut Vec<Binding>,
) -> Result<(), BindFault> {
    let Some(list) = structs_behind(entry.get_pointer_field(0)) else {
        return Ok(());
    };
    for index in 0..list.len() {
        let argument = list.get_struct_element(index);
        if argument.get_data_field::<u16>(0) == 1 {
            if let Some(ty) = struct_behind(argument.get_pointer_field(0)) {
                let to = type_in(binder, bindings, levels, &ty)?.as_argument();
                if !to.is_untyped() {
                    found.push(Binding { scope, index, to })?;
                }
            }
        }
    }
    Ok(())
}

/// Returns the bindings that the brand of a type gives the node of an id.
#[cycle(binding)]
fn bindings_in<A: ReaderArena>(
    binder: &mut Binder,
    bindings: &[Binding],
    levels: u32,
    id: u64,
    ty: &StructReader<'_, A>,
) -> Result<Vec<Binding>, BindFault> {
    let mut found = Vec::new(binder.alloc);
    let Some(brand) = struct_behind(ty.get_pointer_field(0)) else {
        return Ok(found);
    };
    let Some(brand) = structs_behind(brand.get_pointer_field(0)) else {
        return Ok(found);
    };
    if brand.len() == 0 {
        return Ok(found);
    }
    let around = binder.scopes.around(binder.alloc, id)?;
    for scope in &around {
        if let Some(entry) = scope_in(&brand, *scope) {
            match entry.get_data_field::<u16>(4) {
                BIND => push_bound(binder, bindings, levels, *scope, &entry, &mut found)?,
                INHERIT => inherit(&mut found, bindings, *scope)?,
                _ => {}
            }
        }
    }
    Ok(found)
}

/// Returns a struct or an interface with its brand: its id, and the number of types nested in it.
#[cycle(binding)]
fn branded<A: ReaderArena>(
    binder: &mut Binder,
    bindings: &[Binding],
    levels: u32,
    is_struct: bool,
    ty: &StructReader<'_, A>,
) -> Result<BoundType, BindFault> {
    let id = ty.get_data_field::<u64>(1);
    let found = bindings_in(binder, bindings, levels, id, ty)?;
    let depth = depth_of(&found);
    let bound = if is_struct {
        BoundType::of(BaseType::Struct(binder.bind(id, found)?))
    } else if found.is_empty() {
        BoundType::capability(id)
    } else {
        BoundType::capability(id_of_key(&key_of(binder.alloc, id, &found)?))
    };
    Ok(BoundType { depth, ..bound })
}

/// Returns the type to which a parameter is bound, or the type of an untyped pointer.
fn parameter_in<A: ReaderArena>(bindings: &[Binding], ty: &StructReader<'_, A>) -> BoundType {
    if ty.get_data_field::<u16>(4) == PARAMETER {
        let scope = ty.get_data_field::<u64>(2);
        let index = ty.get_data_field::<u16>(5) as u32;
        return bound_to(bindings, scope, index);
    }
    match base_in(ANY_POINTER, ty) {
        Some(base) => BoundType::of(base),
        None => BoundType::untyped(),
    }
}

/// Returns a type within a scope of these bindings. A type that can't be read is the untyped
/// pointer, and so are types nested deeper than n levels.
#[cycle(binding)]
pub(crate) fn type_in<A: ReaderArena>(
    binder: &mut Binder,
    bindings: &[Binding],
    levels: u32,
    ty: &StructReader<'_, A>,
) -> Result<BoundType, BindFault> {
    if levels == 0 {
        return Ok(BoundType::untyped());
    }
    match ty.get_data_field::<u16>(0) {
        LIST => match struct_behind(ty.get_pointer_field(0)) {
            Some(element) => Ok(type_in(binder, bindings, levels - 1, &element)?.in_list()),
            None => Ok(BoundType::untyped()),
        },
        STRUCT => branded(binder, bindings, levels - 1, true, ty),
        INTERFACE => branded(binder, bindings, levels - 1, false, ty),
        ANY_POINTER => Ok(parameter_in(bindings, ty)),
        member => match base_in(member, ty) {
            Some(base) => Ok(BoundType::of(base)),
            None => Ok(BoundType::untyped()),
        },
    }
}
