//! Fields.

ghost use Rattle.std.specs.Prelude.{◌≡◌, ◌≢◌, map, Ok, IfOk, IfErr};
ghost use Rattle.capnp_units.specs.Sizes.{size_number};
ghost use Rattle.capnp_records.specs.NodeViews.{kind_of_field, field_of};
ghost use Rattle.capnp_wire.specs.Views.{seen_struct, seen_list};
ghost use Rattle.capnp_relay_requests.specs.Annotations.{context_view};
ghost use Rattle.capnp_relay_requests.specs.Fields.{request_slot, field_kind, request_field, fields_among};
ghost use Rattle.capnp_relay_requests.specs.Steps.{IsRequestRefusal};

use crate::annotations::{Context, annotations_at};
use crate::defaults::value_in;
use crate::fault::{Part, RequestFault, Spot, unread};
use crate::floats::stored_type;
use crate::names::member_name;
use crate::reading::struct_behind;
use crate::types::type_at;
use capnp_records::node::{FieldBody, FieldRecord};
use capnp_wire::list::ListReader;
use capnp_wire::structs::StructReader;
use capnp_wire_objects::arena::ReaderArena;
use std::alloc::Global;

/// Returns a slot.
fn slot_of<A: ReaderArena>(
    alloc: Global,
    spot: Spot,
    context: &Context,
    field: &StructReader<'_, A>,
) -> Result<FieldBody, RequestFault>
    ensures ok { IfOk result (λ b. request_slot (context_view context.now) spot
        (seen_struct A.segments field.now) ≡ Ok (kind_of_field b)) }
    ensures refused { IfErr result (IsRequestRefusal (request_slot (context_view context.now) spot
        (seen_struct A.segments field.now))) }
{
    let ty = type_at(field, 2).ok_or(unread(spot, Part::FieldType))?;
    let stored = stored_type(context.floats, ty).ok_or(unread(spot, Part::Float))?;
    let fault = unread(spot, Part::Default);
    let value = struct_behind(field.get_pointer_field(3)).ok_or(fault)?;
    let default = value_in(alloc, fault, ty, &value)?;
    Ok(FieldBody::Slot {
        offset: field.get_data_field::<u32>(1),
        ty: stored,
        default,
    })
}

/// Returns the body of a field: a slot or a group.
fn body_of<A: ReaderArena>(
    alloc: Global,
    spot: Spot,
    context: &Context,
    field: &StructReader<'_, A>,
) -> Result<FieldBody, RequestFault>
    ensures ok { IfOk result (λ b. field_kind (context_view context.now) spot
        (seen_struct A.segments field.now) ≡ Ok (kind_of_field b)) }
    ensures refused { IfErr result (IsRequestRefusal (field_kind (context_view context.now) spot
        (seen_struct A.segments field.now))) }
{
    match field.get_data_field::<u16>(4) {
        0 => slot_of(alloc, spot, context, field),
        1 => {
            let node = field.get_data_field::<u64>(2);
            Ok(FieldBody::Group { node })
        }
        _ => Err(unread(spot, Part::Kind)),
    }
}

/// Returns a field.
fn field_of<A: ReaderArena>(
    alloc: Global,
    spot: Spot,
    context: &Context,
    field: &StructReader<'_, A>,
) -> Result<FieldRecord, RequestFault>
    ensures ok { IfOk result (λ f. request_field (context_view context.now) spot
        (seen_struct A.segments field.now) ≡ Ok (field_of f)) }
    ensures refused { IfErr result (IsRequestRefusal (request_field (context_view context.now) spot
        (seen_struct A.segments field.now))) }
{
    let name = member_name(alloc, unread(spot, Part::Name), field)?;
    let annotations = annotations_at(alloc, spot, context, field, 1)?;
    let body = body_of(alloc, spot, context, field)?;
    Ok(FieldRecord {
        name,
        discriminant_value: field.get_data_field_mask::<u16>(1, 65535),
        annotations,
        body,
    })
}

/// Returns the fields of the struct of an id.
pub(crate) fn fields_of<A: ReaderArena>(
    alloc: Global,
    node: u64,
    context: &Context,
    list: &ListReader<'_, A>,
) -> Result<Vec<FieldRecord>, RequestFault>
    requires { size_number (seen_list A.segments list.now).size ≢ 1 }
    ensures ok { let l = seen_list A.segments list.now in
        IfOk result (λ v. fields_among (context_view context.now) node l l.count
        ≡ Ok (map field_of v.items)) }
    ensures refused { let l = seen_list A.segments list.now in
        IfErr result (IsRequestRefusal (fields_among (context_view context.now) node l l.count)) }
{
    let mut fields = Vec::new(alloc);
    for index in 0..list.len() {
        let field = list.get_struct_element(index);
        let spot = Spot::Member { node, index };
        fields.push(field_of(alloc, spot, context, &field)?)?;
    }
    Ok(fields)
}
