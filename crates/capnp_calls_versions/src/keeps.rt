//! The test whether a newer struct keeps an older one, field by field.

ghost use Rattle.std.specs.Prelude.{◌≡◌, ◌==◌, ◌&&◌, ◌∷◌, true, false, not, nat_le, count_by, string_bytes, is_none, IfOk, IfErr, IfSome, IfNone};
ghost use Rattle.std.specs.Str.{bytes_eq};
ghost use Rattle.std.specs.List.{list_any};
ghost use Rattle.capnp_model.specs.Compatible.{same_option, member_count, is_new, keeps_union, keeps_fields, keeps_body};
ghost use Rattle.capnp_records.specs.NodeViews.{kind_of_field, member_of};
ghost use Rattle.capnp_model.specs.Partners.{partner_name};
ghost use Rattle.capnp_calls_versions.specs.Renamed.{names_in};
ghost use Rattle.capnp_calls_versions.specs.Holders.{held_schema, are_sound, is_sound_kind};
ghost use Rattle.capnp_calls_versions.specs.Walks.{IsSoundFor, Decides, fields_left, PassesField, older_schema, begins_with, has_room, keeps_at, older_fields, newer_fields, kept_body, newer_body};
ghost use Rattle.capnp_calls_versions.specs.Faults.{taken_rule, break_of, BreaksSections, IsBodyFault, IsFaultOf, IsNextFault, left_after, Passes, IsBreakOfFields, IsBreakAt};

use crate::breaks::{Break, Fault, FieldRule, Rule};
use crate::defaults::same_default;
use crate::names::Names;
use crate::nodes::{Holder, Nodes};
use crate::reached::Reached;
use crate::types::related;
use capnp_records::node::{FieldBody, FieldRecord, NO_DISCRIMINANT};
use std::alloc::AllocError;

/// The nodes of two versions, and the newer names of the older fields.
#[derive(Drop)]
pub(crate) struct Versions<'a> {
    pub(crate) older: Nodes<'a>,
    pub(crate) newer: Nodes<'a>,
    pub(crate) names: Names<'a>,
}

impl<'a> Versions<'a> {
    ghost use Rattle.capnp_calls_versions.specs.Walks.{AreEnough};

    /// Returns enough levels for all groups.
    pub(crate) fn levels(&self) -> Levels
        ensures { AreEnough self.now result }
    {
        Levels {
            older: self.older.levels(),
            newer: self.newer.levels(),
        }
    }
}

/// The number of levels of groups that are left in each version.
#[derive(Clone, Copy)]
pub(crate) struct Levels {
    pub(crate) older: usize,
    pub(crate) newer: usize,
}

/// Returns the number of fields that are union members.
fn member_count(fields: &[FieldRecord]) -> usize
    ensures { result ≡ count_by (λ f. not (f.discriminant_value == 65535)) fields.now }
{
    fields
        .iter()
        .filter(|field| field.discriminant_value != NO_DISCRIMINANT)
        .count()
}

/// Returns whether a field may be new if the older union has n members.
#[tactic(auto, using(crate::proofs::Slots::new_members))]
fn is_new(count: usize, field: &FieldRecord) -> bool
    ensures { result ≡ is_new count (member_of field.now.discriminant_value) }
{
    field.discriminant_value == NO_DISCRIMINANT || count <= usize::from(field.discriminant_value)
}

/// Returns whether an older union keeps its discriminant's place.
fn keeps_union(older: Option<u64>, newer: Option<u64>) -> bool
    ensures { result ≡ keeps_union older newer }
{
    match older {
        None => true,
        Some(place) => match newer {
            None => false,
            Some(other) => place == other,
        },
    }
}

/// Returns the rule of sections or of unions that the newer node breaks.
fn broken_sections(older: Holder<'_>, newer: Holder<'_>) -> Option<Rule>
    ensures room { is_none result ≡ has_room older.entry newer.entry }
    ensures rule { IfSome result (BreaksSections older.entry newer.entry) }
{
    if newer.words < older.words {
        return Some(Rule::Words);
    }
    if newer.pointers < older.pointers {
        return Some(Rule::Pointers);
    }
    if !keeps_union(older.union, newer.union) {
        return Some(Rule::Union);
    }
    None
}

/// Returns the first of a node's fields, if its partner has the name, and the later fields.
fn partner<'f>(
    names: &Names<'_>,
    node: u64,
    left: &'f [FieldRecord],
    name: &str,
) -> Option<(&'f FieldRecord, &'f [FieldRecord])>
    ensures missing { IfNone result
        (begins_with (names_in names.now) node left.now name.now ≡ false) }
    ensures found { IfSome result (λ p. left.now ≡ p.0.now ∷ p.1.now) }
    ensures name { IfSome result (λ p.
        bytes_eq (partner_name (names_in names.now) node (string_bytes p.0.now.name)) name.now
        ≡ true) }
{
    let [first, others @ ..] = left else {
        return None;
    };
    if names.partner(node, first.name.as_str()) != name {
        return None;
    }
    Some((first, others))
}

/// Returns whether a field has the name.
fn has_name(fields: &[FieldRecord], name: &str) -> bool
    ensures { result ≡ list_any (λ f. bytes_eq name.now (string_bytes f.name)) fields.now }
{
    fields.iter().any(|field| name == field.name.as_str())
}

/// Returns the rule that is broken if these older fields are due and the first of these newer ones,
/// at the index `at`, may not be new. The first of the older, at the index `due`, is missing, or
/// has its partner further on.
fn taken_rule(
    names: &Names<'_>,
    node: u64,
    left: &[FieldRecord],
    rest: &[FieldRecord],
    due: usize,
    at: usize,
) -> Rule
    ensures { result ≡ taken_rule (names_in names.now) node left.now rest.now due at }
{
    let [first, ..] = left else {
        return Rule::Taken { due, newer: at };
    };
    if has_name(rest, names.partner(node, first.name.as_str())) {
        Rule::Taken { due, newer: at }
    } else {
        Rule::Missing { older: due }
    }
}

/// Returns the break of a fault between two nodes, if these older fields are due and these newer
/// ones are left, from the indices `due` and `at` on.
fn break_of(
    names: &Names<'_>,
    older: u64,
    newer: u64,
    left: &[FieldRecord],
    rest: &[FieldRecord],
    due: usize,
    at: usize,
    fault: Fault,
) -> Break
    ensures { result ≡ break_of (names_in names.now) older newer
        (record { left = left.now; rest = rest.now; due = due; at = at }) fault }
{
    let rule = match fault {
        Fault::Taken => taken_rule(names, older, left, rest, due, at),
        Fault::Field(rule) => Rule::Field {
            older: due,
            newer: at,
            rule,
        },
        Fault::Inner(inner) => return inner,
    };
    Break { older, newer, rule }
}

/// Returns the break between an older struct or group and a newer, each of an id, if the structs
/// that they name are kept; these pairs are reached.
#[cycle(keeps)]
pub(crate) fn keeps(
    versions: &Versions<'_>,
    levels: Levels,
    older: u64,
    newer: u64,
    reached: &mut Reached,
) -> Result<Option<Break>, AllocError>
    requires sound { IsSoundFor versions.now reached.old }
    ensures decides { IfOk result (λ o.
        Decides versions.now reached.old reached.new (is_none o)
        (keeps_at versions.now levels older newer)) }
    ensures breaks { IfOk result (λ o. IfSome o (IsBreakAt versions.now levels older newer)) }
{
    if levels.older == 0 {
        return Ok(None);
    }
    let a = versions.older.holder(levels.older, older);
    let b = versions.newer.holder(levels.newer, newer);
    if let Some(rule) = broken_sections(a, b) {
        return Ok(Some(Break {
            older: a.id,
            newer: b.id,
            rule,
        }));
    }
    let below = Levels {
        older: levels.older - 1,
        newer: levels.newer.saturating_sub(1),
    };
    keeps_fields(versions, below, a.id, b.id, a.fields, b.fields, reached)
}

/// Returns the break between the fields of an older node and the newer fields. Each older field has
/// to be kept, in the newer order.
#[cycle(keeps)]
fn keeps_fields(
    versions: &Versions<'_>,
    levels: Levels,
    node: u64,
    other: u64,
    older: &[FieldRecord],
    newer: &[FieldRecord],
    reached: &mut Reached,
) -> Result<Option<Break>, AllocError>
    requires sound { IsSoundFor versions.now reached.old }
    requires older { are_sound older.now ≡ true }
    requires newer { are_sound newer.now ≡ true }
    ensures decides { IfOk result (λ o.
        Decides versions.now reached.old reached.new (is_none o)
        (λ pairs. keeps_fields (older_schema versions.now) (held_schema versions.now.newer) pairs
        (member_count (older_fields versions.now levels node older.now))
        (older_fields versions.now levels node older.now)
        (newer_fields versions.now levels newer.now))) }
    ensures breaks { IfOk result (λ o. IfSome o (IsBreakOfFields versions.now levels
        (record { id = node; fields = older.now }) (record { id = other; fields = newer.now }))) }
{
    let count = member_count(older);
    let mut left = older;
    let mut rest = newer;
    while let [next, more @ ..] = rest {
        match keeps_next(versions, levels, node, count, left, next, reached)? {
            Ok(others) => left = others,
            Err(fault) => {
                let due = older.len() - left.len();
                let at = newer.len() - rest.len();
                let names = &versions.names;
                return Ok(Some(break_of(names, node, other, left, rest, due, at, fault)));
            }
        }
        rest = more;
    }
    if left.is_empty() {
        return Ok(None);
    }
    let rule = Rule::Missing {
        older: older.len() - left.len(),
    };
    Ok(Some(Break {
        older: node,
        newer: other,
        rule,
    }))
}

/// Returns the older fields that are left after a newer field, which keeps the first of them or is
/// new; otherwise its fault.
#[cycle(keeps)]
fn keeps_next<'f>(
    versions: &Versions<'_>,
    levels: Levels,
    node: u64,
    count: usize,
    left: &'f [FieldRecord],
    next: &FieldRecord,
    reached: &mut Reached,
) -> Result<Result<&'f [FieldRecord], Fault>, AllocError>
    requires sound { IsSoundFor versions.now reached.old }
    requires left { are_sound left.now ≡ true }
    requires next { is_sound_kind (kind_of_field next.now.body) ≡ true }
    ensures moves { IfOk result (λ r.
        PassesField versions.now levels reached.old reached.new (fields_left node count left.now)
        next.now (left_after r)) }
    ensures passes { IfOk result (λ r. IfOk r (λ others.
        Passes (names_in versions.now.names) node left.now next.now others.now)) }
    ensures fault { IfOk result (λ r. IfErr r
        (IsNextFault versions.now levels count (record { id = node; fields = left.now })
        next.now)) }
{
    let Some((first, others)) = partner(&versions.names, node, left, next.name.as_str()) else {
        if is_new(count, next) {
            return Ok(Ok(left));
        }
        return Ok(Err(Fault::Taken));
    };
    if let Some(fault) = keeps_field(versions, levels, first, next, reached)? {
        return Ok(Err(fault));
    }
    Ok(Ok(others))
}

/// Returns the reason for which the newer field does not keep the older: its value in the union,
/// its place, its type or its default.
#[cycle(keeps)]
fn keeps_field(
    versions: &Versions<'_>,
    levels: Levels,
    older: &FieldRecord,
    newer: &FieldRecord,
    reached: &mut Reached,
) -> Result<Option<Fault>, AllocError>
    requires sound { IsSoundFor versions.now reached.old }
    requires older { is_sound_kind (kind_of_field older.now.body) ≡ true }
    requires newer { is_sound_kind (kind_of_field newer.now.body) ≡ true }
    ensures decides { IfOk result (λ o.
        Decides versions.now reached.old reached.new (is_none o)
        (λ pairs. same_option (member_of older.now.discriminant_value)
        (member_of newer.now.discriminant_value)
        && keeps_body (older_schema versions.now) (held_schema versions.now.newer) pairs
        (kept_body versions.now levels older.now.body)
        (newer_body versions.now levels newer.now.body))) }
    ensures fault { IfOk result (λ o.
        IfSome o (IsFaultOf versions.now levels older.now newer.now)) }
{
    if older.discriminant_value != newer.discriminant_value {
        return Ok(Some(Fault::Field(FieldRule::Value)));
    }
    keeps_body(versions, levels, &older.body, &newer.body, reached)
}

/// Returns the reason for which the newer slot or group does not keep the older.
#[cycle(keeps)]
fn keeps_body(
    versions: &Versions<'_>,
    levels: Levels,
    older: &FieldBody,
    newer: &FieldBody,
    reached: &mut Reached,
) -> Result<Option<Fault>, AllocError>
    requires sound { IsSoundFor versions.now reached.old }
    requires older { is_sound_kind (kind_of_field older.now) ≡ true }
    requires newer { is_sound_kind (kind_of_field newer.now) ≡ true }
    ensures decides { IfOk result (λ o.
        Decides versions.now reached.old reached.new (is_none o)
        (λ pairs. keeps_body (older_schema versions.now) (held_schema versions.now.newer) pairs
        (kept_body versions.now levels older.now) (newer_body versions.now levels newer.now))) }
    ensures fault { IfOk result (λ o.
        IfSome o (IsBodyFault versions.now levels older.now newer.now)) }
{
    match older {
        FieldBody::Slot {
            offset,
            ty,
            default,
        } => match newer {
            FieldBody::Slot {
                offset: place,
                ty: kind,
                default: value,
            } => {
                let same = same_default(default, value);
                if !related(versions, *ty, *kind, reached)? {
                    return Ok(Some(Fault::Field(FieldRule::Type)));
                }
                if *offset != *place {
                    return Ok(Some(Fault::Field(FieldRule::Place)));
                }
                if !same {
                    return Ok(Some(Fault::Field(FieldRule::Default)));
                }
                Ok(None)
            }
            FieldBody::Group { .. } => Ok(Some(Fault::Field(FieldRule::Kind))),
        },
        FieldBody::Group { node } => match newer {
            FieldBody::Slot { .. } => Ok(Some(Fault::Field(FieldRule::Kind))),
            FieldBody::Group { node: other } => {
                match keeps(versions, levels, *node, *other, reached)? {
                    None => Ok(None),
                    Some(inner) => Ok(Some(Fault::Inner(inner))),
                }
            }
        },
    }
}
