//! Copies of what calls are made of.
ghost use Rattle.std.specs.Prelude.{◌≡◌, map, string_bytes, option_and_then, IfOk};
ghost use Rattle.capnp_calls.specs.CallViews.{step_view, taken_value};
ghost use Rattle.hagzimot_clears.specs.Planned.{taken_if_any};

use capnp_calls::{CallValue, Step};
use std::alloc::{AllocError, Global};

/// Returns a copy of a step.
fn copy_step(alloc: Global, step: &Step) -> Result<Step, AllocError>
    ensures { IfOk result (λ copy. step_view copy ≡ step_view step.now) }
{
    match step {
        Step::Name(name) => Ok(Step::Name(String::from_str(alloc, name.as_str())?)),
        Step::Index(index) => Ok(Step::Index(*index)),
    }
}

/// Returns a copy of a path. An error if an allocation is refused.
pub(crate) fn copy_path(alloc: Global, path: &[Step]) -> Result<Vec<Step>, AllocError>
    ensures { IfOk result (λ copy. map step_view copy.items ≡ map step_view path.now) }
{
    let mut copy = Vec::new(alloc);
    for step in path {
        copy.push(copy_step(alloc, step)?)?;
    }
    Ok(copy)
}

/// Returns a copy of a value that a call sets.
fn copy_value(alloc: Global, value: &CallValue) -> Result<CallValue, AllocError>
    ensures { IfOk result (λ copy. taken_value copy ≡ taken_value value.now) }
{
    match value {
        CallValue::Number(number) => Ok(CallValue::Number(*number)),
        CallValue::Bool(is) => Ok(CallValue::Bool(*is)),
        CallValue::Enum(number) => Ok(CallValue::Enum(*number)),
        CallValue::Text(text) => Ok(CallValue::Text(String::from_str(alloc, text.as_str())?)),
        CallValue::Data(bytes) => Ok(CallValue::Data(bytes.to_vec(alloc)?)),
        CallValue::Message(bytes) => Ok(CallValue::Message(bytes.to_vec(alloc)?)),
    }
}

/// Returns a copy of the value that a call sets, if it sets one. An error if an allocation is
/// refused.
pub(crate) fn copy_if_any(
    alloc: Global,
    value: &Option<CallValue>,
) -> Result<Option<CallValue>, AllocError>
    ensures { IfOk result (λ copy. taken_if_any copy ≡ taken_if_any value.now) }
{
    match value {
        Some(value) => Ok(Some(copy_value(alloc, value)?)),
        None => Ok(None),
    }
}
