//! Types.

ghost use Rattle.std.specs.Prelude.{◌≡◌, ◌≤◌, option_map, IfSome};
ghost use Rattle.capnp_records.specs.NodeViews.{base_of, type_record_of};
ghost use Rattle.capnp_wire.specs.Views.{seen_struct};
ghost use Rattle.capnp_relay_requests.specs.Places.{number};
ghost use Rattle.capnp_relay_requests.specs.Types.{untyped_of, other_base, base_in, type_within, pointed_type};

use crate::reading::struct_behind;
use capnp_records::node::{BaseType, TypeRecord};
use capnp_wire::structs::StructReader;
use capnp_wire_objects::arena::ReaderArena;

/// The member of the union of types that is a list.
const LIST: u16 = 14;

/// The most nested lists.
const MOST_LISTS: u32 = 64;

/// Returns an untyped pointer, or a capability of any interface. A parameter of a type or of a
/// method is an untyped pointer.
fn untyped_base<A: ReaderArena>(ty: &StructReader<'_, A>) -> Option<BaseType>
    ensures { let v = seen_struct A.segments ty.now in
        option_map base_of result ≡ untyped_of (number 16 4 v) (number 16 5 v) }
{
    let member = ty.get_data_field::<u16>(4);
    let kind = ty.get_data_field::<u16>(5);
    if member == 0 {
        if kind < 3 {
            Some(BaseType::AnyPointer)
        } else if kind == 3 {
            Some(BaseType::Capability)
        } else {
            None
        }
    } else if member < 3 {
        Some(BaseType::AnyPointer)
    } else {
        None
    }
}

/// Returns a type with an id, or an untyped one.
fn other_base<A: ReaderArena>(member: u16, ty: &StructReader<'_, A>) -> Option<BaseType>
    ensures { option_map base_of result ≡ other_base member (seen_struct A.segments ty.now) }
{
    match member {
        15 => Some(BaseType::Enum(ty.get_data_field::<u64>(1))),
        16 => Some(BaseType::Struct(ty.get_data_field::<u64>(1))),
        17 => Some(BaseType::Capability),
        18 => untyped_base(ty),
        _ => None,
    }
}

/// Returns a type that is not a list.
pub(crate) fn base_in<A: ReaderArena>(member: u16, ty: &StructReader<'_, A>) -> Option<BaseType>
    ensures { option_map base_of result ≡ base_in member (seen_struct A.segments ty.now) }
{
    match member {
        0 => Some(BaseType::Void),
        1 => Some(BaseType::Bool),
        2 => Some(BaseType::Int8),
        3 => Some(BaseType::Int16),
        4 => Some(BaseType::Int32),
        5 => Some(BaseType::Int64),
        6 => Some(BaseType::UInt8),
        7 => Some(BaseType::UInt16),
        8 => Some(BaseType::UInt32),
        9 => Some(BaseType::UInt64),
        10 => Some(BaseType::Float32),
        11 => Some(BaseType::Float64),
        12 => Some(BaseType::Text),
        13 => Some(BaseType::Data),
        _ => other_base(member, ty),
    }
}

/// Returns a type within which at most n lists are nested.

fn type_within<A: ReaderArena>(lists: u32, ty: &StructReader<'_, A>) -> Option<TypeRecord>
    ensures type_is { option_map type_record_of result
        ≡ type_within lists (seen_struct A.segments ty.now) }
    ensures few { IfSome result (λ t. t.list_count ≤ lists) }
{
    let member = ty.get_data_field::<u16>(0);
    if member != LIST {
        let base = base_in(member, ty)?;
        return Some(TypeRecord {
            list_count: 0,
            base,
        });
    }
    if lists == 0 {
        return None;
    }
    let element = struct_behind(ty.get_pointer_field(0))?;
    let TypeRecord { list_count, base } = type_within(lists - 1, &element)?;
    Some(TypeRecord {
        list_count: list_count + 1,
        base,
    })
}

/// Returns the type of a pointer's struct.
pub(crate) fn type_at<A: ReaderArena>(
    reader: &StructReader<'_, A>,
    index: usize,
) -> Option<TypeRecord>
    ensures { option_map type_record_of result
        ≡ pointed_type index (seen_struct A.segments reader.now) }
{
    let ty = struct_behind(reader.get_pointer_field(index))?;
    type_within(MOST_LISTS, &ty)
}
