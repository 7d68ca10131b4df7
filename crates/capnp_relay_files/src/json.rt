//! Reading of JSON values that have a form.

ghost use Rattle.std.specs.Prelude.{◌≡◌, option_map, option_and_then, map, Some, IfOk, IfErr};
ghost use Rattle.std.specs.List.{list_any};
ghost use Rattle.std.specs.Str.{bytes_eq};
ghost use Rattle.serde_json.specs.View.{view, items_view, members_view};
ghost use Rattle.serde_json.specs.Find.{get, as_array};
ghost use Rattle.capnp_relay_files.specs.Json.{json_value_in, has_only, with_keys, only_member, number_in, number_at, number_or, text_at, hex_in};
ghost use Rattle.capnp_relay_files.specs.Faults.{IsFileRefusal};

use crate::fault::FileFault;
use hex::FromHexError;
use serde_json::{Map, Value as Json};
use std::alloc::Global;

/// Returns the value that a file's bytes spell.
pub(crate) fn value_in(alloc: Global, bytes: &[u8]) -> Result<Json, FileFault>
    ensures ok { IfOk result (λ json. json_value_in bytes.now ≡ Some (view json)) }
    ensures refused { IfErr result (IsFileRefusal (json_value_in bytes.now)) }
{
    match Json::from_slice(alloc, bytes) {
        Ok(json) => Ok(json),
        Err(e) => {
            if e.is_memory() {
                Err(FileFault::Memory)
            } else {
                Err(FileFault::Form)
            }
        }
    }
}

fn is_among(key: &str, keys: &[&str]) -> bool
    ensures { result ≡ list_any (bytes_eq key.now) (map (λ k. k.now) keys.now) }
{
    let mut rest = keys;
    while let [first, others @ ..] = rest {
        if key == *first {
            return true;
        }
        rest = others;
    }
    false
}

fn has_only(members: &Map<String, Json>, keys: &[&str]) -> bool
    ensures { result ≡ has_only (map (λ k. k.now) keys.now) (members_view members.now.entries) }
{
    for (key, _) in members.iter() {
        if !is_among(key.as_str(), keys) {
            return false;
        }
    }
    true
}

/// Returns the value, if it is an object without other keys than these.
pub(crate) fn with_keys<'j>(json: &'j Json, keys: &[&str]) -> Option<&'j Json>
    ensures { option_map (λ v. view v.now) result
        ≡ with_keys (map (λ k. k.now) keys.now) (view json.now) }
{
    if has_only(json.as_object()?, keys) {
        Some(json)
    } else {
        None
    }
}

/// Returns the key and the value of the only member.
pub(crate) fn only_member(members: &Map<String, Json>) -> Option<(&str, &Json)>
    ensures { option_map (λ m. (m.0.now, view m.1.now)) result
        ≡ only_member (members_view members.now.entries) }
{
    let mut entries = members.iter();
    let (key, value) = entries.next()?;
    match entries.next() {
        None => Some((key.as_str(), value)),
        Some(_) => None,
    }
}

/// Returns a number that is at most `most`.
pub(crate) fn number_in(json: &Json, most: u64) -> Option<u64>
    ensures { result ≡ number_in most (view json.now) }
{
    let number = json.as_u64()?;
    if number <= most { Some(number) } else { None }
}

/// Returns the number of a key.
pub(crate) fn number_at(json: &Json, key: &str, most: u64) -> Option<u64>
    ensures { result ≡ number_at key.now most (view json.now) }
{
    number_in(json.get(key)?, most)
}

/// Returns the number of a key that may be absent.
pub(crate) fn number_or(absent: u64, json: &Json, key: &str, most: u64) -> Option<u64>
    ensures { result ≡ number_or absent key.now most (view json.now) }
{
    match json.get(key) {
        None => Some(absent),
        Some(value) => number_in(value, most),
    }
}

/// Returns the text of a key.
pub(crate) fn text_at<'j>(json: &'j Json, key: &str) -> Option<&'j str>
    ensures { option_map (λ t. t.now) result ≡ text_at key.now (view json.now) }
{
    json.get(key)?.as_str()
}

/// Returns the items of a key.
pub(crate) fn items_at<'j>(json: &'j Json, key: &str) -> Option<&'j [Json]>
    ensures { option_map (λ v. items_view v.now) result
        ≡ option_and_then as_array (get key.now (view json.now)) }
{
    Some(json.get(key)?.as_array()?.as_slice())
}

/// Returns the bytes that a text spells in hexadecimal digits.
pub(crate) fn hex_in(alloc: Global, json: &Json) -> Result<Vec<u8>, FileFault>
    ensures ok { IfOk result (λ bytes. hex_in (view json.now) ≡ Some bytes.items) }
    ensures refused { IfErr result (IsFileRefusal (hex_in (view json.now))) }
{
    let text = json.as_str().ok_or(FileFault::Form)?;
    match hex::decode(alloc, text.as_bytes()) {
        Ok(bytes) => Ok(bytes),
        Err(FromHexError::OutOfMemory) => Err(FileFault::Memory),
        Err(_) => Err(FileFault::Form),
    }
}
