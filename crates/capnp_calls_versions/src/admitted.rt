//! Admitted calls.

ghost use Rattle.std.specs.Prelude.{◌≡◌, List, map, option_map, IfOk, IfErr};
ghost use Rattle.capnp_model.specs.Schemas.{struct, id_of_shape, type_of};
ghost use Rattle.capnp_model.specs.Printing.{fields_in};
ghost use Rattle.capnp_model.specs.Calls.{Step as ModelStep, Verb as ModelVerb};
ghost use Rattle.capnp_model.specs.Admitted.{at_body, is_admitted_end, into_fields, into_type, into_at, is_admitted_with};
ghost use Rattle.capnp_units.specs.declared.kinds.ErrorKind.TheVariants.{OutOfMemory};
ghost use Rattle.capnp_records.specs.NodeViews.{type_record_of};
ghost use Rattle.capnp_values_queries.specs.Structs.{schema_around, id_of};
ghost use Rattle.capnp_calls.specs.CallViews.{step_view, call_view};
ghost use Rattle.capnp_calls.specs.Resolved.{calls_of, AreResolved};
ghost use Rattle.capnp_calls.specs.Ways.{FindsFirst, IsWay};
ghost use Rattle.capnp_calls_versions.specs.Holders.{held_schema};
ghost use Rattle.capnp_calls_versions.specs.Walks.{older_body, newer_body};
ghost use Rattle.capnp_calls_versions.specs.Roots.{is_admitted_at, is_admitted_with_at};
ghost use Rattle.capnp_calls_versions.specs.Renamed.{names_in, renamings_of};
ghost use Rattle.capnp_calls_versions.specs.declared.keeps.Versions.{Versions};
ghost use Rattle.capnp_calls_versions.specs.Ways.{struct_id_in, element_in, older_shape, newer_shape, at_seen, goes_on, next_seen, writes_group, sets, FindsStep, way_behind, IsAdmissionOf};

use crate::compatible::versions;
use crate::extended::is_extended;
use crate::keeps::{Levels, Versions};
use crate::renamings::Renamings;
use crate::root::Root;
use capnp_calls::find::{FoundField, known_place, rest_of_way};
use capnp_calls::resolved::Resolved;
use capnp_calls::{Call, Step, Verb};
use capnp_records::node::{BaseType, FieldBody, TypeRecord};
use capnp_units::errors::Result;
use capnp_values_queries::structs::StructSchema;
use std::alloc::Global;

/// The answer whether calls are admitted.
#[derive(Clone, Copy, PartialEq, Eq, Debug)]
pub enum Admission {
    Admitted,
    /// The first call that is not, counted from 1.
    Refused(usize),
}

/// The position of the walk along a path.
#[derive(Clone, Copy)]
enum At {
    /// at a group of both versions, n levels above the last
    Group {
        levels: Levels,
        older: u64,
        newer: u64,
    },
    /// at a slot of both versions
    Slot {
        older: TypeRecord,
        newer: TypeRecord,
    },
    /// at an element of a list of both versions
    Element {
        older: TypeRecord,
        newer: TypeRecord,
    },
    /// at a place that no step fits
    Nowhere,
}

/// The result of a step.
#[derive(Clone, Copy)]
enum Next {
    /// The older version has no field of the name.
    Unknown,
    /// The step does not fit: later steps aren't looked at.
    Unfit,
    To(At),
}

/// Returns the position at a field of both versions.
fn at_fields(levels: Levels, older: &FieldBody, newer: &FieldBody) -> At
    ensures { (v : Versions) (path : List ModelStep) (verb : ModelVerb)
        → goes_on v path verb
        (at_body (older_body v levels older.now) (newer_body v levels newer.now))
        ≡ goes_on v path verb (at_seen v result) }
{
    match older {
        FieldBody::Slot { ty, .. } => match newer {
            FieldBody::Slot { ty: other, .. } => At::Slot {
                older: *ty,
                newer: *other,
            },
            FieldBody::Group { .. } => At::Nowhere,
        },
        FieldBody::Group { node } => match newer {
            FieldBody::Slot { .. } => At::Nowhere,
            FieldBody::Group { node: other } => At::Group {
                levels,
                older: *node,
                newer: *other,
            },
        },
    }
}

/// Follows a name from a struct or a group; a way may have the older field already.
fn into_fields(
    versions: &Versions<'_>,
    levels: Levels,
    older: u64,
    newer: u64,
    name: &str,
    way: &[FoundField],
) -> Next
    requires way { FindsFirst (held_schema versions.now.older) name.now way.now }
    ensures { (path : List ModelStep) (verb : ModelVerb) → into_fields (names_in versions.now.names)
        (id_of_shape (older_shape versions.now levels older)) name.now
        (fields_in (older_shape versions.now levels older))
        (fields_in (newer_shape versions.now levels newer)) (goes_on versions.now path verb)
        ≡ next_seen versions.now result path verb }
{
    if levels.older == 0 {
        return Next::Unknown;
    }
    let a = versions.older.holder(levels.older, older);
    let b = versions.newer.holder(levels.newer, newer);
    let below = Levels {
        older: levels.older - 1,
        newer: levels.newer.saturating_sub(1),
    };
    let Some(field) = a.field(name, known_place(way, older)) else {
        return Next::Unknown;
    };
    match b.field(versions.names.partner(a.id, name), None) {
        None => Next::To(At::Nowhere),
        Some(other) => Next::To(at_fields(below, &field.body, &other.body)),
    }
}

/// Returns the struct that a type names.
fn struct_id(ty: TypeRecord) -> Option<u64>
    ensures { result ≡ struct_id_in (type_of (type_record_of ty)) }
{
    if ty.list_count > 0 {
        return None;
    }
    match ty.base {
        BaseType::Struct(id) => Some(id),
        _ => None,
    }
}

/// Returns the type of a list's elements.
fn element_of(ty: TypeRecord) -> Option<TypeRecord>
    ensures { option_map (λ t. type_of (type_record_of t)) result
        ≡ element_in (type_of (type_record_of ty)) }
{
    if ty.list_count == 0 {
        return None;
    }
    Some(TypeRecord {
        list_count: ty.list_count - 1,
        base: ty.base,
    })
}

/// Follows a step from a pointer of a type.
fn into_type(
    versions: &Versions<'_>,
    step: &Step,
    way: &[FoundField],
    older: TypeRecord,
    newer: TypeRecord,
) -> Next
    requires way { FindsStep (held_schema versions.now.older) (step_view step.now) way.now }
    ensures { (path : List ModelStep) (verb : ModelVerb)
        → into_type (names_in versions.now.names) (held_schema versions.now.older)
        (held_schema versions.now.newer) (step_view step.now) (type_of (type_record_of older))
        (type_of (type_record_of newer)) (goes_on versions.now path verb)
        ≡ next_seen versions.now result path verb }
{
    match step {
        Step::Name(name) => {
            let Some(id) = struct_id(older) else {
                return Next::Unfit;
            };
            let Some(other) = struct_id(newer) else {
                return Next::Unfit;
            };
            into_fields(versions, versions.levels(), id, other, name.as_str(), way)
        }
        Step::Index(_) => {
            let Some(element) = element_of(older) else {
                return Next::Unfit;
            };
            let Some(other) = element_of(newer) else {
                return Next::Unfit;
            };
            Next::To(At::Element {
                older: element,
                newer: other,
            })
        }
    }
}

/// Follows a step.
fn into_at(versions: &Versions<'_>, step: &Step, way: &[FoundField], at: At) -> Next
    requires way { FindsStep (held_schema versions.now.older) (step_view step.now) way.now }
    ensures { (path : List ModelStep) (verb : ModelVerb)
        → into_at (names_in versions.now.names) (held_schema versions.now.older)
        (held_schema versions.now.newer) (step_view step.now) (at_seen versions.now at)
        (goes_on versions.now path verb) ≡ next_seen versions.now result path verb }
{
    match at {
        At::Group {
            levels,
            older,
            newer,
        } => match step {
            Step::Name(name) => into_fields(versions, levels, older, newer, name.as_str(), way),
            Step::Index(_) => Next::Unfit,
        },
        At::Slot { older, newer } => into_type(versions, step, way, older, newer),
        At::Element { older, newer } => into_type(versions, step, way, older, newer),
        At::Nowhere => Next::Unfit,
    }
}

/// Returns whether the verb writes a whole group.
fn is_group_write(verb: Verb) -> bool
    ensures { result ≡ writes_group verb }
{
    matches!(verb, Verb::Set | Verb::Init | Verb::Clear)
}

fn is_set(verb: Verb) -> bool
    ensures { result ≡ sets verb }
{
    matches!(verb, Verb::Set)
}

/// Returns whether a call that ends here is admitted.
fn is_admitted_end(versions: &Versions<'_>, call: &Call, at: At) -> bool
    ensures { result ≡ is_admitted_end (names_in versions.now.names) (call_view call.now).verb
        (at_seen versions.now at) }
{
    match at {
        At::Group {
            levels,
            older,
            newer,
        } => {
            if !is_group_write(call.verb()) {
                return true;
            }
            !is_extended(versions, levels, older, newer)
        }
        At::Element { older, .. } => !is_set(call.verb()) || struct_id(older).is_none(),
        At::Slot { .. } | At::Nowhere => true,
    }
}

/// Returns the rest of a way after a step.
fn way_behind<'a>(step: &Step, way: &'a [FoundField]) -> &'a [FoundField]
    ensures { result.now ≡ way_behind (step_view step.now) way.now }
{
    match step {
        Step::Name(_) => rest_of_way(way),
        Step::Index(_) => way,
    }
}

/// Returns whether a call is admitted from the two roots. If a way has the fields of its names
/// under the older schema, these names aren't looked up there.
fn is_admitted(
    versions: &Versions<'_>,
    older: u64,
    newer: u64,
    call: &Call,
    way: &[FoundField],
) -> bool
    requires way { IsWay (held_schema versions.now.older) (call_view call.now).path way.now }
    ensures { result ≡ is_admitted_with (names_in versions.now.names)
        (held_schema versions.now.older) (held_schema versions.now.newer) older newer
        (call_view call.now) }
{
    let mut at = At::Element {
        older: struct_type(older),
        newer: struct_type(newer),
    };
    let mut rest = call.path();
    let mut known = way;
    while let [step, more @ ..] = rest {
        match into_at(versions, step, known, at) {
            Next::Unknown => return false,
            Next::Unfit => return true,
            Next::To(next) => at = next,
        }
        known = way_behind(step, known);
        rest = more;
    }
    is_admitted_end(versions, call, at)
}

fn struct_type(id: u64) -> TypeRecord
    ensures { type_of (type_record_of result) ≡ struct id }
{
    TypeRecord {
        list_count: 0,
        base: BaseType::Struct(id),
    }
}

/// Returns whether each call under the older schema is admitted beside the newer, if fields are
/// renamed. An admitted call uses fields that the older schema has, writes no whole group that the
/// newer schema extends, and sets no list element of struct type. It takes two binary searches by
/// name for each step of a call, and one or two for each field of a group that is written whole.
/// Memory is only taken for the renamings. The only error is `OutOfMemory`.
pub fn admitted_with(
    alloc: Global,
    calls: &[Call],
    older: Root<'_>,
    newer: Root<'_>,
    renamings: &Renamings,
) -> Result<Admission>
    ensures answer { IfOk result (IsAdmissionOf
        (is_admitted_with_at (renamings_of renamings.now) older.entry newer.entry)
        (map call_view calls.now)) }
    ensures refusal { IfErr result (λ e. e.kind ≡ OutOfMemory) }
{
    let versions = versions(alloc, older, newer, renamings)?;
    for i in 0..calls.len() {
        if !is_admitted(&versions, older.id, newer.id, &calls[i], &[]) {
            return Ok(Admission::Refused(i + 1));
        }
    }
    Ok(Admission::Admitted)
}

/// Answers like `admitted_with`, for calls that are resolved under the older schema, whose names
/// aren't looked up there again. It takes one binary search by name for each step of a call.
pub fn admitted_resolved(
    alloc: Global,
    calls: &[Resolved<'_>],
    older: StructSchema<'_>,
    newer: StructSchema<'_>,
    renamings: &Renamings,
) -> Result<Admission>
    requires resolved { AreResolved older calls.now }
    ensures answer { IfOk result (IsAdmissionOf
        (is_admitted_with (renamings_of renamings.now) (schema_around older.entry)
        (schema_around newer.entry) (id_of older.entry) (id_of newer.entry))
        (calls_of calls.now)) }
    ensures refusal { IfErr result (λ e. e.kind ≡ OutOfMemory) }
{
    let versions = versions(alloc, Root::of(older), Root::of(newer), renamings)?;
    let (older_id, newer_id) = (older.raw().id, newer.raw().id);
    for i in 0..calls.len() {
        let call = &calls[i];
        if !is_admitted(&versions, older_id, newer_id, call.call(), call.fields()) {
            let number = i + 1;
            return Ok(Admission::Refused(number));
        }
    }
    Ok(Admission::Admitted)
}

/// Returns whether each call under the older schema is admitted beside the newer. An admitted call
/// uses fields that the older schema has, writes no whole group that the newer schema extends, and
/// sets no list element of struct type. It takes two binary searches by name for each step of a
/// call, and one for each field of a group that is written whole. The only error is `OutOfMemory`.
pub fn admitted(
    alloc: Global,
    calls: &[Call],
    older: Root<'_>,
    newer: Root<'_>,
) -> Result<Admission>
    ensures answer { IfOk result
        (IsAdmissionOf (is_admitted_at older.entry newer.entry) (map call_view calls.now)) }
    ensures refusal { IfErr result (λ e. e.kind ≡ OutOfMemory) }
{
    admitted_with(alloc, calls, older, newer, &Renamings::none(alloc))
}
