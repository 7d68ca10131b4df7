//! Aliases, each after those that it needs.

use crate::paths::{span_of, target_of};
use crate::resolver::{Place, Resolver};
use crate::targets::{Alias, Meaning, Target};
use capnp_source_names::entries::{Entry, Kind};
use capnp_source_names::problems::{Problems, Stop, wrong};
use capnp_source_names::table::Table;
use capnp_source_syntax::tree::{Body, Expression};

/// Returns the target of an alias as it is written.
fn written_target<'a>(entry: &Entry<'a>) -> Option<&'a Expression> {
    match entry.declaration {
        Some(declaration) => match &declaration.body {
            Body::Using { target } => Some(target),
            _ => None,
        },
        None => None,
    }
}

/// Returns what an alias means. `Pending` if it needs one that is not resolved.
fn meaning_of(table: &Table, aliases: &[Alias], index: usize) -> Result<Meaning, Stop> {
    let Some(entry) = table.entry(index) else {
        return Err(Stop::Known);
    };
    let (Some(target), Some(scope)) = (written_target(entry), entry.scope) else {
        return Err(Stop::Known);
    };
    let resolver = Resolver { table, aliases };
    let place = Place {
        scope,
        parameters: &[],
        parameters_of: 0,
        wanted: "declaration",
    };
    match target_of(target, &resolver, place)? {
        Target::Entry { entry, chain } => {
            let brand = resolver.brand(&chain, span_of(target), place)?;
            Ok(Meaning::Entry { entry, brand })
        }
        Target::List(element) => Ok(Meaning::List(element)),
        Target::Builtin(builtin) => Ok(Meaning::Builtin(builtin)),
        Target::Parameter { scope, index } => Ok(Meaning::Parameter { scope, index }),
        Target::MethodParameter { .. } => Err(Stop::Known),
    }
}

/// Returns that an alias leads back to itself.
fn cycle_of(table: &Table, index: usize) -> Stop {
    let Some(entry) = table.entry(index) else {
        return Stop::Known;
    };
    let name = entry.name;
    match format!(in table.alloc; "\"{name}\" leads back to itself (name its target directly)") {
        Ok(text) => wrong(entry.file, entry.span, text),
        Err(_) => Stop::Memory,
    }
}

/// Sets what is known of an alias.
fn settle(aliases: &mut [Alias], index: usize, alias: Alias) {
    if let Some(slot) = aliases.get_mut(index) {
        *slot = alias;
    }
}

/// Whether an alias is not resolved yet.
fn is_open(aliases: &[Alias], index: usize) -> bool {
    matches!(aliases.get(index), Some(Alias::Open))
}

/// Resolves an alias, after those that it needs.
fn resolve(
    table: &Table,
    aliases: &mut Vec<Alias>,
    problems: &mut Problems,
    first: usize,
) -> Result<(), Stop> {
    let mut waiting = Vec::new(table.alloc);
    waiting.push(first)?;
    // Each alias of a chain takes three turns: it is pushed, settled and dropped.
    for _ in 0..table.entries.len().saturating_mul(3).saturating_add(2) {
        let Some(index) = waiting.last().copied() else {
            break;
        };
        if !is_open(aliases, index) {
            let _ = waiting.pop();
            continue;
        }
        let outcome = match meaning_of(table, aliases, index) {
            Err(Stop::Pending(needed)) => {
                if !waiting.contains(&needed) {
                    waiting.push(needed)?;
                    continue;
                }
                Err(cycle_of(table, index))
            }
            outcome => outcome,
        };
        match problems.kept(outcome)? {
            Some(meaning) => settle(aliases, index, Alias::Means(meaning)),
            None => settle(aliases, index, Alias::Failed),
        }
    }
    Ok(())
}

/// Returns what is known of each entry as an alias. What is wrong with an alias is noted.
pub fn resolved_aliases(table: &Table, problems: &mut Problems) -> Result<Vec<Alias>, Stop> {
    let mut aliases = Vec::new(table.alloc);
    for entry in &table.entries {
        if entry.kind == Kind::Alias {
            aliases.push(Alias::Open)?;
        } else {
            aliases.push(Alias::Failed)?;
        }
    }
    for index in 0..aliases.len() {
        if is_open(&aliases, index) {
            resolve(table, &mut aliases, problems, index)?;
        }
        if is_open(&aliases, index) {
            problems.kept::<()>(Err(cycle_of(table, index)))?;
            settle(&mut aliases, index, Alias::Failed);
        }
    }
    Ok(aliases)
}
