//! Calls in calls files.

ghost use Rattle.std.specs.Prelude.{◌≡◌, option_map, map, Some, IfOk, IfErr};
ghost use Rattle.serde_json.specs.View.{view, items_view};
ghost use Rattle.capnp_calls.specs.CallViews.{step_view};
ghost use Rattle.capnp_relay_files.specs.Json.{find_named, each_item};
ghost use Rattle.capnp_relay_files.specs.CallsFiles.{named_verbs, given_of, step_in, verb_by, given_by, given_in, value_of_call, call_in};
ghost use Rattle.capnp_relay_files.specs.CallViews.{parts_of};
ghost use Rattle.capnp_relay_files.specs.Faults.{IsFileRefusal};

use crate::fault::FileFault;
use crate::json::{hex_in, items_at, number_at, number_in, only_member, text_at, with_keys};
use capnp_calls::{CallValue, Step, Verb};
use serde_json::{Number, Value as Json};
use std::alloc::Global;

/// The parts of a call: its path, its verb, and the value that it sets.
pub type CallParts = (Vec<Step>, Verb, Option<CallValue>);

/// Returns a step: a name, or an index.
fn step_of(alloc: Global, json: &Json) -> Result<Step, FileFault>
    ensures ok { IfOk result (λ s. step_in (view json.now) ≡ Some (step_view s)) }
    ensures refused { IfErr result (IsFileRefusal (step_in (view json.now))) }
{
    match json.as_str() {
        Some(name) => Ok(Step::Name(String::from_str(alloc, name)?)),
        None => {
            let index = number_in(json, 0xffff_ffff).ok_or(FileFault::Form)?;
            Ok(Step::Index(index as u32))
        }
    }
}

fn path_of(alloc: Global, items: &[Json]) -> Result<Vec<Step>, FileFault>
    ensures ok { IfOk result (λ v. each_item step_in (items_view items.now)
        ≡ Some (map step_view v.items)) }
    ensures refused { IfErr result (IsFileRefusal (each_item step_in (items_view items.now))) }
{
    let mut path = Vec::new(alloc);
    let mut rest = items;
    while let [first, others @ ..] = rest {
        path.push(step_of(alloc, first)?)?;
        rest = others;
    }
    Ok(path)
}

/// Returns the verb of a name that has no size.
fn verb_named(name: &str) -> Option<Verb>
    ensures { result ≡ find_named name.now named_verbs }
{
    match name {
        "get" => Some(Verb::Get),
        "set" => Some(Verb::Set),
        "init" => Some(Verb::Init),
        "clear" => Some(Verb::Clear),
        _ => None,
    }
}

/// Returns a verb; only `initn` has a size.
fn verb_by(name: &str, json: &Json) -> Option<Verb>
    ensures { result ≡ verb_by name.now (view json.now) }
{
    if name == "initn" {
        let size = number_at(json, "size", 0xffff_ffff)?;
        return Some(Verb::Initn(size as u32));
    }
    let verb = verb_named(name)?;
    match json.get("size") {
        None => Some(verb),
        Some(_) => None,
    }
}

/// Returns the value of the one key of a value's object.
fn value_by(alloc: Global, key: &str, json: &Json) -> Result<CallValue, FileFault>
    ensures ok { IfOk result (λ v. given_by key.now (view json.now) ≡ Some (given_of v)) }
    ensures refused { IfErr result (IsFileRefusal (given_by key.now (view json.now))) }
{
    match key {
        "number" => {
            let number = json.as_number().and_then(Number::as_i128);
            Ok(CallValue::Number(number.ok_or(FileFault::Form)?))
        }
        "bool" => Ok(CallValue::Bool(json.as_bool().ok_or(FileFault::Form)?)),
        "enum" => {
            let number = number_in(json, 65535).ok_or(FileFault::Form)?;
            Ok(CallValue::Enum(number as u16))
        }
        "text" => {
            let text = json.as_str().ok_or(FileFault::Form)?;
            Ok(CallValue::Text(String::from_str(alloc, text)?))
        }
        "data" => Ok(CallValue::Data(hex_in(alloc, json)?)),
        "message" => Ok(CallValue::Message(hex_in(alloc, json)?)),
        _ => Err(FileFault::Form),
    }
}

/// Returns a value: an object with one key.
fn value_of(alloc: Global, json: &Json) -> Result<CallValue, FileFault>
    ensures ok { IfOk result (λ v. given_in (view json.now) ≡ Some (given_of v)) }
    ensures refused { IfErr result (IsFileRefusal (given_in (view json.now))) }
{
    let members = json.as_object().ok_or(FileFault::Form)?;
    let (key, value) = only_member(members).ok_or(FileFault::Form)?;
    value_by(alloc, key, value)
}

/// Returns the value of a call, which may be absent.
fn value_of_call(alloc: Global, json: &Json) -> Result<Option<CallValue>, FileFault>
    ensures ok { IfOk result (λ v. value_of_call (view json.now) ≡ Some (option_map given_of v)) }
    ensures refused { IfErr result (IsFileRefusal (value_of_call (view json.now))) }
{
    match json.get("value") {
        None => Ok(None),
        Some(value) => Ok(Some(value_of(alloc, value)?)),
    }
}

fn call_of(alloc: Global, json: &Json) -> Result<CallParts, FileFault>
    ensures ok { IfOk result (λ c. call_in (view json.now) ≡ Some (parts_of c)) }
    ensures refused { IfErr result (IsFileRefusal (call_in (view json.now))) }
{
    let keys = ["path", "verb", "size", "value"];
    let Some(json) = with_keys(json, &keys) else {
        return Err(FileFault::Form);
    };
    let Some(items) = items_at(json, "path") else {
        return Err(FileFault::Form);
    };
    let path = path_of(alloc, items)?;
    let Some(name) = text_at(json, "verb") else {
        return Err(FileFault::Form);
    };
    let Some(verb) = verb_by(name, json) else {
        return Err(FileFault::Form);
    };
    let value = value_of_call(alloc, json)?;
    Ok((path, verb, value))
}

/// Returns the calls of an array.
pub(crate) fn calls_of(alloc: Global, items: &[Json]) -> Result<Vec<CallParts>, FileFault>
    ensures ok { IfOk result (λ v. each_item call_in (items_view items.now)
        ≡ Some (map parts_of v.items)) }
    ensures refused { IfErr result (IsFileRefusal (each_item call_in (items_view items.now))) }
{
    let mut calls = Vec::new(alloc);
    let mut rest = items;
    while let [first, others @ ..] = rest {
        calls.push(call_of(alloc, first)?)?;
        rest = others;
    }
    Ok(calls)
}
