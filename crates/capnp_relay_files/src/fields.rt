//! Fields in schema files.

ghost use Rattle.std.specs.Prelude.{◌≡◌, option_map, IfOk, IfErr};
ghost use Rattle.serde_json.specs.View.{view};
ghost use Rattle.capnp_records.specs.NodeViews.{member_of, field_of};
ghost use Rattle.capnp_relay_files.specs.SchemaFiles.{member_in, slot_in, group_in, field_in};
ghost use Rattle.capnp_relay_files.specs.Faults.{IsFileRefusal};

use crate::defaults::slot_default;
use crate::fault::FileFault;
use crate::json::{number_at, number_in, text_at, with_keys};
use crate::types::type_of;
use capnp_records::node::{FieldBody, FieldRecord, NO_DISCRIMINANT};
use serde_json::Value as Json;
use std::alloc::Global;

/// Returns the discriminant value of a field, if the field has that key.
fn discriminant_of(json: &Json) -> Option<u16>
    ensures { option_map member_of result ≡ member_in (view json.now) }
{
    match json.get("discriminant") {
        None => Some(NO_DISCRIMINANT),
        Some(value) => Some(number_in(value, 65534)? as u16),
    }
}

fn slot_of(alloc: Global, json: &Json) -> Result<FieldRecord, FileFault>
    ensures ok { IfOk result (λ f. slot_in (view json.now) ≡ Some (field_of f)) }
    ensures refused { IfErr result (IsFileRefusal (slot_in (view json.now))) }
{
    let keys = ["name", "type", "offset", "discriminant", "default"];
    let Some(json) = with_keys(json, &keys) else {
        return Err(FileFault::Form);
    };
    let (Some(name), Some(discriminant_value), Some(ty), Some(offset)) = (
        text_at(json, "name"),
        discriminant_of(json),
        json.get("type").and_then(type_of),
        number_at(json, "offset", 0xffff_ffff),
    ) else {
        return Err(FileFault::Form);
    };
    let default = slot_default(alloc, ty, json)?;
    Ok(FieldRecord {
        name: String::from_str(alloc, name)?,
        discriminant_value,
        annotations: Vec::new(alloc),
        body: FieldBody::Slot {
            offset: offset as u32,
            ty,
            default,
        },
    })
}

fn group_of(alloc: Global, json: &Json) -> Result<FieldRecord, FileFault>
    ensures ok { IfOk result (λ f. group_in (view json.now) ≡ Some (field_of f)) }
    ensures refused { IfErr result (IsFileRefusal (group_in (view json.now))) }
{
    let keys = ["name", "group", "discriminant"];
    let Some(json) = with_keys(json, &keys) else {
        return Err(FileFault::Form);
    };
    let (Some(name), Some(discriminant_value), Some(node)) = (
        text_at(json, "name"),
        discriminant_of(json),
        number_at(json, "group", u64::MAX),
    ) else {
        return Err(FileFault::Form);
    };
    Ok(FieldRecord {
        name: String::from_str(alloc, name)?,
        discriminant_value,
        annotations: Vec::new(alloc),
        body: FieldBody::Group { node },
    })
}

/// Returns a field: a group if it has that key, otherwise a slot.
pub(crate) fn field_of(alloc: Global, json: &Json) -> Result<FieldRecord, FileFault>
    ensures ok { IfOk result (λ f. field_in (view json.now) ≡ Some (field_of f)) }
    ensures refused { IfErr result (IsFileRefusal (field_in (view json.now))) }
{
    match json.get("group") {
        None => slot_of(alloc, json),
        Some(_) => group_of(alloc, json),
    }
}
