//! Paths, as `lines[0].count`.
ghost use Rattle.std.specs.Prelude.{◌≡◌, ◌≢◌, ◌++◌, ◌↔◌, true, IsTrue, IfOk, IfErr, OnOk, string_bytes};
ghost use Rattle.std.specs.List.{All, flat_map};
ghost use Rattle.hagzimot_expressions.specs.Paths.{IsName, IsNamed, step_text, SpellsPath};
ghost use Rattle.hagzimot_expressions.specs.Mistakes.{IsMistakeAt};
ghost use Rattle.hagzimot_expressions.specs.declared.mistakes.Wrong.{Wrong};

use crate::mistakes::{ExpressionFault, Wrong, mistake_at};
use crate::tree::{Path, Span, Step};
use std::alloc::{AllocError, Global};

/// Returns the step between brackets: `*`, or a number without a sign and a zero in
/// front.
fn index(inside: &str) -> Option<Step> {
    if inside == "*" {
        return Some(Step::Each);
    }
    let is_plain = match inside.as_bytes() {
        [b'0'] => true,
        [b'1'..=b'9', ..] => true,
        _ => false,
    };
    if !is_plain {
        return None;
    }
    match inside.parse::<u32>() {
        Ok(index) => Some(Step::Index(index)),
        Err(_) => None,
    }
}

/// Adds the steps in brackets, as `[0][*]`. False: they aren't such steps.
fn push_indices(steps: &mut Vec<Step>, text: &str) -> Result<bool, ExpressionFault> {
    for part in text.split('[').skip(1) {
        let Some(inside) = part.strip_suffix(']') else {
            return Ok(false);
        };
        let Some(step) = index(inside) else {
            return Ok(false);
        };
        steps.push(step)?;
    }
    Ok(true)
}

/// Returns whether a text is a name: it has a byte, and neither a point nor a bracket.
fn is_name(text: &str) -> bool
    ensures { IsTrue result ↔ IsName text.now }
{
    !text.is_empty()
        && text
            .as_bytes()
            .iter()
            .all(|byte| !matches!(*byte, b'.' | b'['))
}

/// Returns whether a step that has a name has one without a point and a bracket.
fn is_named(step: &Step) -> bool
    ensures { IsTrue result ↔ IsNamed step.now }
{
    match step {
        Step::Name(name) => is_name(name.as_str()),
        Step::Index(_) | Step::Each => true,
    }
}

/// Adds the text of a step: a name after a point, an index or a star in brackets.
fn push_step(alloc: Global, text: &mut String, step: &Step) -> Result<(), AllocError>
    ensures { OnOk result
        (string_bytes text.new ≡ string_bytes text.old ++ step_text step.now) }
{
    match step {
        Step::Name(name) => {
            text.push_str(".")?;
            text.push_str(name.as_str())
        }
        Step::Index(index) => {
            let told = format!(in alloc; "[{index}]")?;
            text.push_str(told.as_str())
        }
        Step::Each => text.push_str("[*]"),
    }
}

/// Adds the text of each step.
fn push_steps(alloc: Global, text: &mut String, path: &[Step]) -> Result<(), AllocError>
    ensures { OnOk result (string_bytes text.new
        ≡ string_bytes text.old ++ flat_map step_text path.now) }
{
    for step in path {
        push_step(alloc, text, step)?;
    }
    Ok(())
}

/// Returns whether a text spells a path: it is the text of these steps, and their names are names.
fn spells(alloc: Global, text: &str, path: &[Step]) -> Result<bool, AllocError>
    ensures { IfOk result (λ is. is ≡ true → SpellsPath text.now path.now) }
{
    let mut given = String::new(alloc);
    given.push_str(".")?;
    given.push_str(text)?;
    let mut told = String::new(alloc);
    push_steps(alloc, &mut told, path)?;
    Ok(path.iter().all(|step| is_named(step)) && given.as_bytes() == told.as_bytes())
}

/// Returns the steps that a text spells, if it spells any.
fn steps_in(alloc: Global, text: &str) -> Result<Option<Vec<Step>>, ExpressionFault> {
    let mut steps = Vec::new(alloc);
    for part in text.split('.') {
        let (name, indices) = match part.split_once('[') {
            Some((name, _)) => (name, part),
            None => (part, ""),
        };
        steps.push(Step::Name(String::from_str(alloc, name)?))?;
        if !push_indices(&mut steps, indices)? {
            return Ok(None);
        }
    }
    Ok(Some(steps))
}

/// Returns the path that a text spells at a place. A text that spells no path is a mistake there.
pub(crate) fn path_of(alloc: Global, text: &str, span: Span) -> Result<Path, ExpressionFault>
    ensures steps { IfOk result (λ path. SpellsPath text.now path.steps.items) }
    ensures span { IfOk result (λ path. path.span ≡ span) }
    ensures refused { IfErr result (IsMistakeAt span Wrong.NotPath) }
{
    let steps = match steps_in(alloc, text) {
        Ok(Some(steps)) => steps,
        Ok(None) => return Err(mistake_at(span, Wrong::NotPath)),
        Err(_) => return Err(ExpressionFault::Memory),
    };
    if spells(alloc, text, &steps)? {
        return Ok(Path { steps, span });
    }
    Err(mistake_at(span, Wrong::NotPath))
}
