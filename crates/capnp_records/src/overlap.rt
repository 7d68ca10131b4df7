//! The rule of places. Two fields of a struct or a group, including the fields of their groups,
//! share a bit or a pointer only if they are two members of its union. No field shares a bit with
//! its discriminant.

ghost use Rattle.std.specs.Prelude.{◌≡◌, ◌++◌, is_some, map, IfOk, IfSome, IfNone};
ghost use Rattle.std.specs.Bool.{MatchBool};
ghost use Rattle.capnp_model.specs.Accepted.{field_body, shape_in, union_place, union_area, areas_of, areas_of_body, has_no_overlap, body_has_no_overlap};
ghost use Rattle.capnp_records.specs.Listed.{listed};
ghost use Rattle.capnp_records.specs.NodeViews.{member_of, kind_of_field, field_of, struct_of};
ghost use Rattle.capnp_records.specs.Storage.{areas_seen};
ghost use Rattle.capnp_records.specs.Marks.{AllowsAll, HasMarkAbove, MarksAreas, most_mark, level_mark};
ghost use Rattle.capnp_records.specs.Claims.{claim_in, claims_in, claims_are_apart, areas_claimed, groups_have_no_overlap, IsWrittenOut, IsUnwritten};

use crate::area::{Area, Span};
use crate::marks::Marks;
use crate::node::{FieldBody, FieldRecord, NO_DISCRIMINANT, NodeBody, NodeRecord, StructRecord};
use crate::nodes::Nodes;
use crate::storage::area_of;
use std::alloc::{AllocError, Global};

// ---- what fields take

/// Returns the struct or the group that is written out of an id at n levels.
fn struct_at<'a>(nodes: Nodes<'a>, levels: usize, id: u64) -> Option<&'a StructRecord>
    ensures missing { IfNone result (IsUnwritten (listed nodes.entry) levels id) }
    ensures found { IfSome result (λ holder. IsWrittenOut (listed nodes.entry) levels id
        (struct_of holder.now)) }
{
    if levels == 0 {
        return None;
    }
    let Some(node) = nodes.find(id) else {
        return None;
    };
    match &node.body {
        NodeBody::Struct(holder) => Some(holder),
        NodeBody::Enum(_) => None,
    }
}

/// Appends the areas of a field, including those of its group.
#[cycle(areas)]
#[tactic(auto, using(crate::proofs::Overlaps::fields))]
fn push_areas_of_body(
    areas: &mut Vec<Area>,
    nodes: Nodes<'_>,
    levels: usize,
    body: &FieldBody,
) -> Result<(), AllocError>
    ensures { IfOk result (λ _. areas_seen areas.new.items
        ≡ areas_seen areas.old.items ++ areas_of_body (field_body (λ id. shape_in
        (listed nodes.entry) levels id) (kind_of_field body.now))) }
{
    match body {
        FieldBody::Slot { offset, ty, .. } => {
            areas.push(area_of(*offset, *ty))?;
            Ok(())
        }
        FieldBody::Group { node } => push_areas_of(areas, nodes, levels, *node),
    }
}

/// Appends the areas of a struct or a group: that of its discriminant and those of its fields.
#[cycle(areas)]
fn push_areas_of(
    areas: &mut Vec<Area>,
    nodes: Nodes<'_>,
    levels: usize,
    id: u64,
) -> Result<(), AllocError>
    ensures { IfOk result (λ _. areas_seen areas.new.items
        ≡ areas_seen areas.old.items ++ areas_of (shape_in (listed nodes.entry) levels id)) }
{
    match struct_at(nodes, levels, id) {
        None => Ok(()),
        Some(holder) => {
            push_union_area(areas, holder)?;
            push_areas_of_fields(areas, nodes, levels - 1, &holder.fields)
        }
    }
}

/// Appends the areas of fields.
#[cycle(areas)]
fn push_areas_of_fields(
    areas: &mut Vec<Area>,
    nodes: Nodes<'_>,
    levels: usize,
    fields: &[FieldRecord],
) -> Result<(), AllocError>
    ensures { IfOk result (λ _. areas_seen areas.new.items
        ≡ areas_seen areas.old.items ++ areas_claimed (map (claim_in (λ id. shape_in
        (listed nodes.entry) levels id)) (map field_of fields.now))) }
{
    for field in fields {
        push_areas_of_body(areas, nodes, levels, &field.body)?;
    }
    Ok(())
}

/// Appends the area of a struct's discriminant.
fn push_union_area(areas: &mut Vec<Area>, holder: &StructRecord) -> Result<(), AllocError>
    ensures { IfOk result (λ _. areas_seen areas.new.items
        ≡ areas_seen areas.old.items ++ union_area (union_place (struct_of holder.now))) }
{
    if holder.discriminant_count != 0 {
        areas.push(Area::Bits(Span {
            width: 16,
            place: holder.discriminant_offset,
        }))?;
    }
    Ok(())
}

/// Returns whether a field is a union member.
fn is_member(field: &FieldRecord) -> bool
    ensures { result ≡ is_some (member_of field.now.discriminant_value) }
{
    field.discriminant_value != NO_DISCRIMINANT
}

// ---- what they share

/// Returns whether each mark of the areas is at most the highest.
fn allows_all(marks: &Marks, areas: &[Area], most: u8) -> bool
    ensures { MatchBool result (AllowsAll marks.now (areas_seen areas.now) most)
        (HasMarkAbove marks.now (areas_seen areas.now) most) }
{
    for area in areas {
        if !marks.allows(*area, most) {
            return false;
        }
    }
    true
}

/// Raises the marks of the areas to at least the level.
fn put_all(marks: &mut Marks, areas: &[Area], level: u8) -> Result<(), AllocError>
    ensures { IfOk result (λ _. MarksAreas marks.old marks.new (areas_seen areas.now) level) }
{
    for area in areas {
        marks.put(*area, level)?;
    }
    Ok(())
}

/// Returns the highest mark that a field may meet: a union member may meet other members.
fn most_mark(is_member: bool) -> u8
    ensures { result ≡ most_mark is_member }
{
    if is_member { 1 } else { 0 }
}

/// Returns the mark of the parts that a field takes.
fn level_mark(is_member: bool) -> u8
    ensures { result ≡ level_mark is_member }
{
    if is_member { 1 } else { 2 }
}

/// Returns whether a struct's discriminant and its fields share only if both are members.
fn are_claims_apart(
    alloc: Global,
    nodes: Nodes<'_>,
    levels: usize,
    holder: &StructRecord,
) -> Result<bool, AllocError>
    ensures { IfOk result (λ b. b ≡ claims_are_apart (claims_in (λ id. shape_in
        (listed nodes.entry) levels id) (struct_of holder.now))) }
{
    let mut marks = Marks::new(alloc);
    // One list takes the areas of each field in turn.
    let mut areas = Vec::new(alloc);
    push_union_area(&mut areas, holder)?;
    put_all(&mut marks, &areas, level_mark(false))?;
    for field in &holder.fields {
        areas.clear();
        push_areas_of_body(&mut areas, nodes, levels, &field.body)?;
        let member = is_member(field);
        if !allows_all(&marks, &areas, most_mark(member)) {
            return Ok(false);
        }
        put_all(&mut marks, &areas, level_mark(member))?;
    }
    Ok(true)
}

// ---- the rule

/// Returns whether a struct with its groups keeps the rule.
#[cycle(overlap)]
pub(crate) fn has_no_overlap(
    alloc: Global,
    nodes: Nodes<'_>,
    levels: usize,
    id: u64,
) -> Result<bool, AllocError>
    ensures { IfOk result (λ b. b ≡ has_no_overlap (shape_in (listed nodes.entry) levels id)) }
{
    match struct_at(nodes, levels, id) {
        None => Ok(true),
        Some(holder) => {
            if !are_claims_apart(alloc, nodes, levels - 1, holder)? {
                return Ok(false);
            }
            have_no_overlap(alloc, nodes, levels - 1, &holder.fields)
        }
    }
}

/// Returns whether a field keeps the rule, as a group with its groups.
#[cycle(overlap)]
#[tactic(auto, using(crate::proofs::Overlaps::fields))]
fn body_has_no_overlap(
    alloc: Global,
    nodes: Nodes<'_>,
    levels: usize,
    body: &FieldBody,
) -> Result<bool, AllocError>
    ensures { IfOk result (λ b. b ≡ body_has_no_overlap (field_body (λ id. shape_in
        (listed nodes.entry) levels id) (kind_of_field body.now))) }
{
    match body {
        FieldBody::Slot { .. } => Ok(true),
        FieldBody::Group { node } => has_no_overlap(alloc, nodes, levels, *node),
    }
}

/// Returns whether the groups of the fields keep the rule.
#[cycle(overlap)]
fn have_no_overlap(
    alloc: Global,
    nodes: Nodes<'_>,
    levels: usize,
    fields: &[FieldRecord],
) -> Result<bool, AllocError>
    ensures { IfOk result (λ b. b ≡ groups_have_no_overlap (λ id. shape_in
        (listed nodes.entry) levels id) (map field_of fields.now)) }
{
    let mut rest = fields;
    while let [first, others @ ..] = rest {
        if !body_has_no_overlap(alloc, nodes, levels, &first.body)? {
            return Ok(false);
        }
        rest = others;
    }
    Ok(true)
}
