//! The nodes and types that ids in node records name.

ghost use Rattle.std.specs.Prelude.{◌≡◌, true};
ghost use Rattle.capnp_model.specs.Schemas.{BaseType as ModelBase, base_type, type_of};
ghost use Rattle.capnp_model.specs.Accepted.{is_group_node, names_a, names_its_sort};
ghost use Rattle.capnp_records.specs.NodeViews.{base_of, type_record_of};
ghost use Rattle.capnp_records.specs.Sets.{nodes_of, IsNodeOf, IsEnumOf};
ghost use Rattle.capnp_values_queries.specs.Types.{ty_of_base, ty_of, is_base_of, is_type_of};

use crate::introspect::{Base, Type};
use capnp_records::node::{BaseType, TypeRecord};
use capnp_records::raw::{RawBrandedStructSchema, RawEnumSchema};
use capnp_records::set::SchemaSet;

fn struct_in(set: &SchemaSet, id: u64) -> RawBrandedStructSchema
    requires { names_its_sort (nodes_of set.now) (ModelBase.Struct id) ≡ true }
    ensures id { result.id ≡ id }
    ensures of_set { IsNodeOf (nodes_of set.now) result }
{
    let Some(raw) = set.struct_or_group_by_id(id) else {
        unreachable!()
    };
    raw
}

/// Returns the group of a field.
pub(crate) fn group_in(set: &SchemaSet, id: u64) -> RawBrandedStructSchema
    requires { names_a is_group_node (nodes_of set.now) id ≡ true }
    ensures id { result.id ≡ id }
    ensures of_set { IsNodeOf (nodes_of set.now) result }
{
    let Some(raw) = set.struct_or_group_by_id(id) else {
        unreachable!()
    };
    raw
}

fn enum_in(set: &SchemaSet, id: u64) -> RawEnumSchema
    requires { names_its_sort (nodes_of set.now) (ModelBase.Enum id) ≡ true }
    ensures id { result.id ≡ id }
    ensures of_set { IsEnumOf (nodes_of set.now) result }
{
    let Some(raw) = set.enum_by_id(id) else {
        unreachable!()
    };
    raw
}

/// Returns the base of a type. A float, which accepted schemas never name, counts as Void.
fn base_in(set: &SchemaSet, base: BaseType) -> Base
    requires { names_its_sort (nodes_of set.now) (base_of base) ≡ true }
    ensures ty { ty_of_base result ≡ base_type (base_of base) }
    ensures of_set { is_base_of (nodes_of set.now) result ≡ true }
{
    match base {
        BaseType::Void | BaseType::Float32 | BaseType::Float64 => Base::Void,
        BaseType::Bool => Base::Bool,
        BaseType::Int8 => Base::Int8,
        BaseType::Int16 => Base::Int16,
        BaseType::Int32 => Base::Int32,
        BaseType::Int64 => Base::Int64,
        BaseType::UInt8 => Base::UInt8,
        BaseType::UInt16 => Base::UInt16,
        BaseType::UInt32 => Base::UInt32,
        BaseType::UInt64 => Base::UInt64,
        BaseType::Text => Base::Text,
        BaseType::Data => Base::Data,
        BaseType::Enum(id) => Base::Enum(enum_in(set, id)),
        BaseType::Struct(id) => Base::Struct(struct_in(set, id)),
        BaseType::AnyPointer => Base::AnyPointer,
        BaseType::Capability => Base::Capability,
    }
}

/// Returns the type that a record of the set names.
pub(crate) fn type_in(set: &SchemaSet, ty: TypeRecord) -> Type
    requires { names_its_sort (nodes_of set.now) (base_of ty.base) ≡ true }
    ensures ty { ty_of result ≡ type_of (type_record_of ty) }
    ensures of_set { is_type_of (nodes_of set.now) result ≡ true }
{
    Type::new(base_in(set, ty.base), ty.list_count)
}
