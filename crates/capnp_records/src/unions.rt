//! The rule of unions: the members' values are 0 to the count less one, each once, and the
//! discriminant is in its section.

ghost use Rattle.std.specs.Prelude.{◌≡◌, ◌&&◌, ◌++◌, nat_lt, map, filter_map, IfOk};
ghost use Rattle.std.specs.List.{list_all};
ghost use Rattle.capnp_model.specs.Accepted.{members_of, are_once, has_good_union};
ghost use Rattle.capnp_records.specs.NodeViews.{field_of, struct_of};

use crate::marks::{mark_at, raise};
use crate::node::{FieldRecord, NO_DISCRIMINANT, StructRecord};
use std::alloc::{AllocError, Global};

/// Returns the member's value, if the field is a union member.
fn member_of(field: &FieldRecord) -> Option<u16>
    ensures { result ≡ (field_of field.now).member }
{
    if field.discriminant_value == NO_DISCRIMINANT {
        None
    } else {
        Some(field.discriminant_value)
    }
}

fn push_members(members: &mut Vec<u16>, fields: &[FieldRecord]) -> Result<(), AllocError>
    ensures { IfOk result (λ _. members.new.items
        ≡ members.old.items ++ filter_map (λ f. f.member) (map field_of fields.now)) }
{
    for field in fields {
        if let Some(member) = member_of(field) {
            members.push(member)?;
        }
    }
    Ok(())
}

/// Returns whether the members are below the count and each occurs once.
fn are_once_below(alloc: Global, members: &[u16], count: u16) -> Result<bool, AllocError>
    ensures { IfOk result (λ b. b ≡ (list_all
        (λ m. nat_lt m count) members.now && are_once members.now)) }
{
    let mut seen = Vec::new(alloc);
    for member in members {
        let place = *member as usize;
        if *member >= count {
            return Ok(false);
        }
        if mark_at(&seen, place) > 0 {
            return Ok(false);
        }
        raise(&mut seen, place, place + 1, 1)?;
    }
    Ok(true)
}

pub(crate) fn has_good_union(alloc: Global, holder: &StructRecord) -> Result<bool, AllocError>
    ensures { IfOk result (λ b. b ≡ has_good_union (struct_of holder.now)) }
{
    let mut members = Vec::new(alloc);
    push_members(&mut members, &holder.fields)?;
    let count = holder.discriminant_count;
    let end = 16 * (u64::from(holder.discriminant_offset) + 1);
    if members.len() != count as usize {
        return Ok(false);
    }
    let are_once = are_once_below(alloc, &members, count)?;
    Ok(are_once && (count == 0 || end <= 64 * u64::from(holder.data_word_count)))
}
