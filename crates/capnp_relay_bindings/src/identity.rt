//! The ids of generic nodes whose parameters are bound.

ghost use Rattle.std.specs.Prelude.{◌≡◌, ◌++◌, IfOk};
ghost use Rattle.capnp_relay_bindings.specs.Identity.{base_number, base_id, number_bytes, with_type, with_binding, with_bindings, key_of, id_of_key};

use crate::types::{Binding, BoundType};
use capnp_records::node::BaseType;
use sha2::{Digest, Sha256};
use std::alloc::{AllocError, Global};

/// The bit that is also set in the ids of the compiler.
const TOP: u64 = 1 << 63;

/// Returns the number of a base: that of its member in the union of types.
fn base_number(base: BaseType) -> u64
    ensures { result ≡ base_number base }
{
    match base {
        BaseType::Void => 0,
        BaseType::Bool => 1,
        BaseType::Int8 => 2,
        BaseType::Int16 => 3,
        BaseType::Int32 => 4,
        BaseType::Int64 => 5,
        BaseType::UInt8 => 6,
        BaseType::UInt16 => 7,
        BaseType::UInt32 => 8,
        BaseType::UInt64 => 9,
        BaseType::Float32 => 10,
        BaseType::Float64 => 11,
        BaseType::Text => 12,
        BaseType::Data => 13,
        BaseType::Enum(_) => 15,
        BaseType::Struct(_) => 16,
        BaseType::Capability => 17,
        BaseType::AnyPointer => 18,
    }
}

/// Returns the id that a base names; 0 if it names no id.
fn base_id(base: BaseType) -> u64
    ensures { result ≡ base_id base }
{
    match base {
        BaseType::Enum(id) | BaseType::Struct(id) => id,
        _ => 0,
    }
}

/// Writes a number as eight bytes, the lowest first.
#[tactic(auto, unfolding(crate::specs::Identity::number_bytes))]
fn put_number(key: &mut Vec<u8>, number: u64) -> Result<(), AllocError>
    ensures { IfOk result (λ _. key.new.items ≡ key.old.items ++ number_bytes number) }
{
    key.extend_from_slice(&number.to_le_bytes())
}

/// Writes a type: how many times it is a list, its base, the id of the base, and its interface.
fn put_type(key: &mut Vec<u8>, to: BoundType) -> Result<(), AllocError>
    ensures { IfOk result (λ _. key.new.items ≡ with_type key.old.items to) }
{
    put_number(key, to.ty.list_count as u64)?;
    put_number(key, base_number(to.ty.base))?;
    put_number(key, base_id(to.ty.base))?;
    put_number(key, to.interface)
}

/// Writes a binding: its scope, its index and its type.
fn put_binding(key: &mut Vec<u8>, binding: Binding) -> Result<(), AllocError>
    ensures { IfOk result (λ _. key.new.items ≡ with_binding key.old.items binding) }
{
    put_number(key, binding.scope)?;
    put_number(key, binding.index as u64)?;
    put_type(key, binding.to)
}

/// Writes bindings in their order.
fn put_bindings(key: &mut Vec<u8>, bindings: &[Binding]) -> Result<(), AllocError>
    ensures { IfOk result (λ _. key.new.items ≡ with_bindings key.old.items bindings.now) }
{
    let mut left = bindings;
    while let [binding, others @ ..] = left {
        put_binding(key, *binding)?;
        left = others;
    }
    Ok(())
}

/// Returns the bytes that are digested for a generic node with bindings: its id, and the bindings
/// in order.
pub fn key_of(alloc: Global, generic: u64, bindings: &[Binding]) -> Result<Vec<u8>, AllocError>
    ensures { IfOk result (λ key. key.items ≡ key_of generic bindings.now) }
{
    let mut key = Vec::new(alloc);
    put_number(&mut key, generic)?;
    put_bindings(&mut key, bindings)?;
    Ok(key)
}

/// Returns the id of a key: the first eight bytes of its digest, with the top bit set.
pub fn id_of_key(key: &[u8]) -> u64
    ensures { result ≡ id_of_key key.now }
{
    let digest = Sha256::digest(key);
    let [a, b, c, d, e, f, g, h, ..] = digest;
    u64::from_le_bytes([a, b, c, d, e, f, g, h]) | TOP
}
