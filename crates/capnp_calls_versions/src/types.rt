//! Related types: equal except for enums and structs, which are versions of one another.

ghost use Rattle.std.specs.Prelude.{◌≡◌, false, ◌==◌, ◌&&◌, IfOk};
ghost use Rattle.capnp_model.specs.Schemas.{base_type, type_of};
ghost use Rattle.capnp_model.specs.Compatible.{related, same_names};
ghost use Rattle.capnp_records.specs.NodeViews.{base_of, type_record_of};
ghost use Rattle.capnp_calls_versions.specs.Types.{sort, bits, id_in};
ghost use Rattle.capnp_calls_versions.specs.Holders.{held_schema};
ghost use Rattle.capnp_calls_versions.specs.Walks.{IsSoundFor, Decides, older_schema};
ghost use Rattle.capnp_calls_versions.specs.Breaks.{AreUnrelated};

use crate::keeps::Versions;
use crate::reached::{Reached, same_names};
use capnp_records::node::{BaseType, TypeRecord};
use std::alloc::AllocError;

/// Returns the sort of a base and the bits of its numbers.
fn sort_of(base: BaseType) -> (u8, u8)
    ensures { result ≡ (sort (base_type (base_of base)), bits (base_type (base_of base))) }
{
    match base {
        BaseType::Void | BaseType::Float32 | BaseType::Float64 => (0, 0),
        BaseType::Bool => (1, 1),
        BaseType::Int8 => (2, 8),
        BaseType::Int16 => (2, 16),
        BaseType::Int32 => (2, 32),
        BaseType::Int64 => (2, 64),
        BaseType::UInt8 => (3, 8),
        BaseType::UInt16 => (3, 16),
        BaseType::UInt32 => (3, 32),
        BaseType::UInt64 => (3, 64),
        BaseType::Enum(_) => (4, 16),
        BaseType::Text => (5, 0),
        BaseType::Data => (6, 0),
        BaseType::AnyPointer => (7, 0),
        BaseType::Capability => (8, 0),
        BaseType::Struct(_) => (9, 0),
    }
}

/// Returns whether bases are of one sort, and their numbers have the same bits.
fn same_sort(older: BaseType, newer: BaseType) -> bool
    ensures { result ≡ (sort (base_type (base_of older)) == sort (base_type (base_of newer)) &&
        bits (base_type (base_of older)) == bits (base_type (base_of newer))) }
{
    let (sort, bits) = sort_of(older);
    let (other_sort, other_bits) = sort_of(newer);
    sort == other_sort && bits == other_bits
}

/// Returns the id of an enum's or a struct's node, otherwise 0.
fn id_of(base: BaseType) -> u64
    ensures { result ≡ id_in (base_type (base_of base)) }
{
    match base {
        BaseType::Enum(id) | BaseType::Struct(id) => id,
        _ => 0,
    }
}

/// Returns whether the names of the older enum are the beginning of the newer names.
fn related_enums(
    versions: &Versions<'_>,
    older: u64,
    newer: u64,
    reached: &mut Reached,
) -> Result<bool, AllocError>
    requires sound { IsSoundFor versions.now reached.old }
    ensures decides { IfOk result (λ b.
        Decides versions.now reached.old reached.new
        b (λ _. same_names ((held_schema versions.now.older).names_of older)
        ((held_schema versions.now.newer).names_of newer))) }
    ensures never { IfOk result (λ b. b ≡ false
        → same_names ((held_schema versions.now.older).names_of older)
        ((held_schema versions.now.newer).names_of newer) ≡ false) }
{
    if reached.knows(older, newer) {
        return Ok(true);
    }
    if !same_names(
        versions.older.enumerants(older),
        versions.newer.enumerants(newer),
    ) {
        return Ok(false);
    }
    reached.know(older, newer)?;
    Ok(true)
}

/// Returns whether bases are related if the structs that they name are; this pair is reached.
fn related_bases(
    versions: &Versions<'_>,
    older: BaseType,
    newer: BaseType,
    reached: &mut Reached,
) -> Result<bool, AllocError>
    requires sound { IsSoundFor versions.now reached.old }
    ensures decides { IfOk result (λ b.
        Decides versions.now reached.old reached.new
        b (λ pairs.
        related (older_schema versions.now) (held_schema versions.now.newer) pairs
        (base_type (base_of older)) (base_type (base_of newer)))) }
    ensures never { IfOk result (λ b. b ≡ false → AreUnrelated (older_schema versions.now)
        (held_schema versions.now.newer) (base_type (base_of older)) (base_type (base_of newer))) }
{
    if !same_sort(older, newer) {
        return Ok(false);
    }
    match older {
        BaseType::Enum(id) => related_enums(versions, id, id_of(newer), reached),
        BaseType::Struct(id) => {
            reached.reach(id, id_of(newer))?;
            Ok(true)
        }
        BaseType::Void
        | BaseType::Bool
        | BaseType::Int8
        | BaseType::Int16
        | BaseType::Int32
        | BaseType::Int64
        | BaseType::UInt8
        | BaseType::UInt16
        | BaseType::UInt32
        | BaseType::UInt64
        | BaseType::Float32
        | BaseType::Float64
        | BaseType::Text
        | BaseType::Data
        | BaseType::AnyPointer
        | BaseType::Capability => Ok(true),
    }
}

/// Returns whether types are related if the structs that they name are; this pair is reached.
pub(crate) fn related(
    versions: &Versions<'_>,
    older: TypeRecord,
    newer: TypeRecord,
    reached: &mut Reached,
) -> Result<bool, AllocError>
    requires sound { IsSoundFor versions.now reached.old }
    ensures decides { IfOk result (λ b.
        Decides versions.now reached.old reached.new
        b (λ pairs.
        related (older_schema versions.now) (held_schema versions.now.newer) pairs
        (type_of (type_record_of older)) (type_of (type_record_of newer)))) }
    ensures never { IfOk result (λ b. b ≡ false → AreUnrelated (older_schema versions.now)
        (held_schema versions.now.newer) (type_of (type_record_of older))
        (type_of (type_record_of newer))) }
{
    if older.list_count != newer.list_count {
        return Ok(false);
    }
    related_bases(versions, older.base, newer.base, reached)
}
