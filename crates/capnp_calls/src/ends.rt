//! Steps of paths under a schema.
ghost use Rattle.std.specs.Prelude.{◌≡◌, ◌≢◌, true, Some, None, option_map, IfSome, IsSomeAnd};
ghost use Rattle.capnp_model.specs.Accepted.{schema_of};
ghost use Rattle.capnp_model.specs.InKindCalls.{nowhere, end_at, step_into, next_end};
ghost use Rattle.capnp_model.specs.Steps.{target_of};
ghost use Rattle.capnp_records.specs.Sets.{nodes_of};
ghost use Rattle.capnp_values_queries.specs.Handles.{entry_of_field};
ghost use Rattle.capnp_values_queries.specs.Fields.{union_in};
ghost use Rattle.capnp_values_queries.specs.Structs.{nodes_around, schema_around, fields_of_struct, shape_of_struct};
ghost use Rattle.capnp_values_queries.specs.Types.{ty_of, is_type_of};
ghost use Rattle.capnp_calls.specs.CallViews.{step_view};
ghost use Rattle.capnp_calls.specs.Ends.{end_view, IsEndOf, IsStepFound};
ghost use Rattle.capnp_calls.specs.Hops.{IsAlone, FindsAlone, StepsAlone, EndsSmall, MarksEntry, MarksNamed, MarksInto, MarksStep};
ghost use Rattle.capnp_calls.specs.Ways.{Finds};

use crate::Step;
use crate::find::FoundField;
use capnp_calls_splice::plain::PlainSet;
use capnp_records::node::NO_DISCRIMINANT;
use capnp_records::set::SchemaSet;
use capnp_values_queries::fields::Field;
use capnp_values_queries::introspect::{Type, TypeVariant};
use capnp_values_queries::slots::FieldPlace;
use capnp_values_queries::structs::StructSchema;

/// The end of a path.
#[derive(Clone, Copy)]
pub(crate) enum End<'a> {
    /// At a field.
    Slot(FieldPlace<'a>),
    /// At a value of a type: the root, or an element of a list.
    Value(Type),
    /// At a place that it doesn't fit.
    Nowhere,
}

/// The end of a step.
#[derive(Clone, Copy)]
pub(crate) struct Next<'a> {
    pub(crate) end: End<'a>,
    /// The field that a name finds, if the step begins at a struct or a group.
    pub(crate) found: Option<FoundField>,
    /// Whether the step leads to an element, or to a field that is not a member of a union.
    pub(crate) is_alone: bool,
    /// The discriminant, if the step leads to a member.
    pub(crate) mark: Option<PlainSet>,
}

/// Returns whether a field is not a member of a union.
fn is_alone(field: Field<'_>) -> bool
    ensures { result ≡ true → option_map (λ e. e.member) (entry_of_field field.entry) ≡ Some None }
{
    field.get_proto().discriminant_value == NO_DISCRIMINANT
}

/// Returns the discriminant of a field in the data of its struct or group, if the field is a member
/// of the union there.
fn mark_of(field: Field<'_>) -> Option<PlainSet>
    ensures { IfSome result (λ mark. MarksEntry mark (union_in (shape_of_struct field.entry.parent))
        (entry_of_field field.entry)) }
{
    let member = field.get_proto().discriminant_value;
    if member == NO_DISCRIMINANT {
        return None;
    }
    let offset = field.parent().discriminant_offset()?;
    Some(PlainSet {
        word: offset / 4,
        shift: 16 * (offset % 4),
        width: 16,
        bits: u64::from(member),
    })
}

/// Returns the end of a name from a struct or a group.
fn field_named<'a>(schema: StructSchema<'a>, name: &str) -> Next<'a>
    ensures end { end_view result.end
        ≡ end_at (target_of name.now (fields_of_struct schema.entry)) }
    ensures of_set { IsEndOf (nodes_around schema.entry) result.end }
    ensures small { EndsSmall (end_view result.end) }
    ensures found { IsSomeAnd result.found (Finds (schema_around schema.entry) name.now) }
    ensures alone { result.is_alone ≡ true
        → IsAlone (target_of name.now (fields_of_struct schema.entry)) }
    ensures mark { IfSome result.mark
        (λ mark. MarksNamed mark (shape_of_struct schema.entry) name.now) }
{
    let node = schema.raw().id;
    match schema.get_field_by_name(name) {
        Ok(field) => {
            let place = Some(field.get_index());
            Next {
                end: End::Slot(field.place()),
                found: Some(FoundField { node, place }),
                is_alone: is_alone(field),
                mark: mark_of(field),
            }
        }
        Err(_) => Next {
            end: End::Nowhere,
            found: Some(FoundField { node, place: None }),
            is_alone: false,
            mark: None,
        },
    }
}

/// Returns the end of a step into a value of a type.
fn step_into<'a>(set: &'a SchemaSet, step: &Step, ty: Type) -> Next<'a>
    requires known { is_type_of (nodes_of set.now) ty ≡ true }
    ensures end { end_view result.end
        ≡ step_into (schema_of (nodes_of set.now)) (step_view step.now) (ty_of ty) }
    ensures of_set { IsEndOf (nodes_of set.now) result.end }
    ensures small { EndsSmall (end_view result.end) }
    ensures found { IsStepFound (schema_of (nodes_of set.now)) (step_view step.now)
        (end_view result.end) result.found }
    ensures alone { result.is_alone ≡ true
        → FindsAlone (schema_of (nodes_of set.now)) (step_view step.now) (ty_of ty) }
    ensures mark { IfSome result.mark (λ mark.
        MarksInto (schema_of (nodes_of set.now)) mark (step_view step.now) (ty_of ty)) }
{
    match (step, ty.which()) {
        (Step::Name(name), TypeVariant::Struct(raw)) => {
            field_named(StructSchema::new(set, raw), name)
        }
        (Step::Index(_), TypeVariant::List(element)) => Next {
            end: End::Value(element),
            found: None,
            is_alone: true,
            mark: None,
        },
        _ => Next {
            end: End::Nowhere,
            found: None,
            is_alone: false,
            mark: None,
        },
    }
}

/// Returns the end of a step.
pub(crate) fn next_end<'a>(set: &'a SchemaSet, step: &Step, end: End<'a>) -> Next<'a>
    requires known { IsEndOf (nodes_of set.now) end }
    ensures end { end_view result.end
        ≡ next_end (schema_of (nodes_of set.now)) (step_view step.now) (end_view end.entry) }
    ensures of_set { IsEndOf (nodes_of set.now) result.end }
    ensures small { EndsSmall (end_view result.end) }
    ensures found { IsStepFound (schema_of (nodes_of set.now)) (step_view step.now)
        (end_view result.end) result.found }
    ensures alone { result.is_alone ≡ true
        → StepsAlone (schema_of (nodes_of set.now)) (step_view step.now) (end_view end.entry) }
    ensures mark { IfSome result.mark (λ mark.
        MarksStep (schema_of (nodes_of set.now)) mark (step_view step.now) (end_view end.entry)) }
    ensures begun { IfSome result.found (λ _. end_view end.entry ≢ nowhere) }
{
    match (step, end) {
        (Step::Name(name), End::Slot(FieldPlace::Group { schema })) => field_named(schema, name),
        (_, End::Slot(FieldPlace::Pointer { ty, .. }) | End::Value(ty)) => step_into(set, step, ty),
        _ => Next {
            end: End::Nowhere,
            found: None,
            is_alone: false,
            mark: None,
        },
    }
}
