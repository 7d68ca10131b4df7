//! Conditions are checked against a schema.

use crate::asked::Asked;
use crate::hops::Hop;
use crate::tested::{Sort, asked_of, sort_at};
use crate::troubles::{PlacedTrouble, Trouble};
pub use crate::ways::Scope;
use crate::ways::{Way, field_named, holder, way_along};
use capnp_records::node::{BaseType, NO_DISCRIMINANT, NodeRecord};
use hagzimot_commands::paths::Landing;
use hagzimot_expressions::tree::{Operator, Path, Span, Test, Word};
use hagzimot_schemas::nodes::{node_of_id, short_name};
use std::alloc::Global;

/// A condition under a schema: where it looks, and what is asked of what is there.
#[derive(Debug, Drop)]
pub struct Condition {
    pub(crate) hops: Vec<Hop>,
    pub(crate) asked: Asked,
}

/// Puts what is wrong at a place.
fn placed<T: Drop>(outcome: Result<T, Trouble>, span: Span) -> Result<T, PlacedTrouble> {
    match outcome {
        Ok(value) => Ok(value),
        Err(why) => Err(PlacedTrouble { span, why }),
    }
}

/// Returns whether values of a sort compare so.
fn check_operator(sort: Sort, operator: Operator, name: &'static str) -> Result<(), Trouble> {
    if operator == Operator::Contains && sort != Sort::Text {
        return Err(Trouble::NoParts(name));
    }
    let is_equality = matches!(operator, Operator::Equal | Operator::Unequal);
    match sort {
        Sort::Truth | Sort::Enumerant | Sort::Data if !is_equality => Err(Trouble::NoOrder(name)),
        _ => Ok(()),
    }
}

/// Returns the comparison of what a path leads to.
fn comparison(
    alloc: Global,
    scope: Scope<'_>,
    path: &Path,
    operator: Operator,
    operator_span: Span,
    value: &Word,
) -> Result<Condition, PlacedTrouble> {
    let way = placed(way_along(alloc, scope, &path.steps), path.span)?;
    let (sort, name) = placed(sort_at(&way), path.span)?;
    placed(check_operator(sort, operator, name), operator_span)?;
    let asked = asked_of(alloc, scope, &way, sort, operator, value.text.as_str());
    Ok(Condition {
        asked: placed(asked, value.span)?,
        hops: way.hops,
    })
}

/// Returns the question whether what a way leads to is there.
fn presence(way: Way) -> Result<Condition, Trouble> {
    let is_pointer = match way.at {
        Landing::Group(_) => false,
        Landing::Value(ty) => ty.list_count > 0
            || matches!(
                ty.base,
                BaseType::Text
                    | BaseType::Data
                    | BaseType::Struct(_)
                    | BaseType::AnyPointer
                    | BaseType::Capability
            ),
    };
    let mut hops = way.hops;
    let asked = match hops.last() {
        Some(Hop::Field(index)) if is_pointer || way.may_lack => Asked::Present(*index),
        Some(Hop::Field(_)) | None => return Err(Trouble::AlwaysThere),
        Some(_) => Asked::There,
    };
    if matches!(asked, Asked::Present(_)) {
        hops.pop();
    }
    Ok(Condition { hops, asked })
}

/// Returns why a member isn't one of the union of a node.
fn no_member(alloc: Global, node: &NodeRecord, member: &str) -> Trouble {
    let (Ok(member), Ok(node)) = (
        String::from_str(alloc, member),
        String::from_str(alloc, short_name(node)),
    ) else {
        return Trouble::Memory;
    };
    Trouble::NoMember { member, node }
}

/// Returns what is wrong where a union is asked for and no struct or group is.
fn no_struct(alloc: Global, at: Landing, member: &str) -> Trouble {
    match at {
        Landing::Value(ty) if ty.list_count == 0 && matches!(ty.base, BaseType::Enum(_)) => {
            match String::from_str(alloc, member) {
                Ok(member) => Trouble::Enum { member },
                Err(_) => Trouble::Memory,
            }
        }
        _ => Trouble::NoUnion,
    }
}

/// Returns the discriminant of the member of a name, of the union that is there.
fn member_at(alloc: Global, scope: Scope<'_>, at: Landing, member: &str) -> Result<u16, Trouble> {
    let Some(id) = holder(at) else {
        return Err(no_struct(alloc, at, member));
    };
    let Some(node) = node_of_id(scope.nodes, id) else {
        return Err(Trouble::NoUnion);
    };
    let Some((_, field)) = field_named(node, member) else {
        return Err(no_member(alloc, node, member));
    };
    if field.discriminant_value == NO_DISCRIMINANT {
        return Err(Trouble::NotMember {
            member: String::from_str(alloc, member)?,
        });
    }
    Ok(field.discriminant_value)
}

/// Returns the question which member of a union is active.
fn membership(
    alloc: Global,
    scope: Scope<'_>,
    path: &Path,
    member: &Word,
) -> Result<Condition, PlacedTrouble> {
    let way = placed(way_along(alloc, scope, &path.steps), path.span)?;
    let found = member_at(alloc, scope, way.at, member.text.as_str());
    Ok(Condition {
        asked: Asked::Member(placed(found, member.span)?),
        hops: way.hops,
    })
}

/// Returns a condition of an expression under a schema, or why no message could keep it.
pub(crate) fn condition_of(
    alloc: Global,
    scope: Scope<'_>,
    test: &Test,
) -> Result<Condition, PlacedTrouble> {
    match test {
        Test::Compares {
            path,
            operator,
            operator_span,
            value,
        } => comparison(alloc, scope, path, *operator, *operator_span, value),
        Test::Has(path) => {
            let way = placed(way_along(alloc, scope, &path.steps), path.span)?;
            placed(presence(way), path.span)
        }
        Test::Is { path, member } => membership(alloc, scope, path, member),
    }
}
