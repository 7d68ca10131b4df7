//! The changes that break the compatibility of a case's versions.

use crate::case::{Case, Fault};
use crate::given::Given;
use capnp_calls_versions::all_breaks::all_breaks;
use capnp_calls_versions::breaks::{Break, FieldRule, Rule};
use capnp_calls_versions::compatible::first_break;
use capnp_calls_versions::root::Root;
use std::alloc::Global;

fn field_rule(rule: FieldRule) -> &'static str {
    match rule {
        FieldRule::Value => "value",
        FieldRule::Kind => "kind",
        FieldRule::Type => "type",
        FieldRule::Place => "place",
        FieldRule::Default => "default",
    }
}

fn break_text(alloc: Global, found: Break) -> Result<String, Fault> {
    let Break { older, newer, rule } = found;
    let told = match rule {
        Rule::Roots => String::from_str(alloc, "roots")?,
        Rule::Words => String::from_str(alloc, "words")?,
        Rule::Pointers => String::from_str(alloc, "pointers")?,
        Rule::Union => String::from_str(alloc, "union")?,
        Rule::Missing { older } => format!(in alloc; "field {older} missing")?,
        Rule::Taken { due, newer } => format!(in alloc; "newer field {newer} taken, due {due}")?,
        Rule::Field { older, newer, rule } => {
            format!(in alloc; "fields {older} {newer} {}", field_rule(rule))?
        }
    };
    Ok(format!(in alloc; "{older} {newer}: {}", told.as_str())?)
}

/// Returns the break of each pair that is reached, or `none`.
pub fn all(alloc: Global, case: &Case) -> Result<String, Fault> {
    let given = Given::new(alloc, case)?;
    let (older, newer) = (given.older(alloc)?, given.newer(alloc)?);
    let older = Root {
        set: older.root().set(),
        id: given.root()?,
    };
    let newer = Root {
        set: newer.root().set(),
        id: given.root()?,
    };
    let breaks = all_breaks(alloc, older, newer, &given.renamings(alloc)?)?;
    if breaks.is_empty() {
        return Ok(String::from_str(alloc, "none")?);
    }
    let mut told = String::new(alloc);
    for found in breaks.as_slice() {
        if !told.is_empty() {
            told.push_str("; ")?;
        }
        told.push_str(break_text(alloc, *found)?.as_str())?;
    }
    Ok(told)
}

/// Returns the first break of a case's versions, or `none`.
pub fn first(alloc: Global, case: &Case) -> Result<String, Fault> {
    let given = Given::new(alloc, case)?;
    let (older, newer) = (given.older(alloc)?, given.newer(alloc)?);
    let older = Root {
        set: older.root().set(),
        id: given.root()?,
    };
    let newer = Root {
        set: newer.root().set(),
        id: given.root()?,
    };
    match first_break(alloc, older, newer, &given.renamings(alloc)?)? {
        None => Ok(String::from_str(alloc, "none")?),
        Some(found) => break_text(alloc, found),
    }
}
