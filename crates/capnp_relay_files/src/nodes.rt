//! Nodes in schema files.

ghost use Rattle.std.specs.Prelude.{◌≡◌, option_map, map, IfOk, IfErr};
ghost use Rattle.serde_json.specs.View.{view, items_view};
ghost use Rattle.capnp_records.specs.NodeViews.{field_of, enumerant_of, node_of};
ghost use Rattle.capnp_relay_files.specs.Json.{each_item};
ghost use Rattle.capnp_relay_files.specs.SchemaFiles.{field_in, members_among, group_mark, struct_node_in, enumerant_in, enum_node_in, node_in};
ghost use Rattle.capnp_relay_files.specs.Faults.{IsFileRefusal};

use crate::fault::FileFault;
use crate::fields::field_of;
use crate::json::{items_at, number_at, number_or, text_at, with_keys};
use capnp_records::node::{
    EnumerantRecord, FieldRecord, NO_DISCRIMINANT, NodeBody, NodeRecord, StructRecord,
};
use serde_json::Value as Json;
use std::alloc::Global;

fn fields_of(alloc: Global, items: &[Json]) -> Result<Vec<FieldRecord>, FileFault>
    ensures ok { IfOk result (λ v. each_item field_in (items_view items.now)
        ≡ Some (map field_of v.items)) }
    ensures refused { IfErr result (IsFileRefusal (each_item field_in (items_view items.now))) }
{
    let mut fields = Vec::new(alloc);
    let mut rest = items;
    while let [first, others @ ..] = rest {
        fields.push(field_of(alloc, first)?)?;
        rest = others;
    }
    Ok(fields)
}

/// Returns the number of fields that are union members, at most 65535.
fn members_among(fields: &[FieldRecord]) -> u16
    ensures { result ≡ members_among (map field_of fields.now) }
{
    let mut count: u16 = 0;
    for field in fields {
        if field.discriminant_value != NO_DISCRIMINANT {
            count = count.saturating_add(1);
        }
    }
    count
}

/// Returns whether the struct is a group; without the key it is not a group.
fn group_mark(json: &Json) -> Option<bool>
    ensures { result ≡ group_mark (view json.now) }
{
    match json.get("group") {
        None => Some(false),
        Some(value) => value.as_bool(),
    }
}

fn struct_of(alloc: Global, json: &Json) -> Result<NodeRecord, FileFault>
    ensures ok { IfOk result (λ n. struct_node_in (view json.now) ≡ Some (node_of n)) }
    ensures refused { IfErr result (IsFileRefusal (struct_node_in (view json.now))) }
{
    let keys = ["id", "name", "data", "pointers", "fields", "group", "union"];
    let Some(json) = with_keys(json, &keys) else {
        return Err(FileFault::Form);
    };
    let (Some(id), Some(name), Some(words), Some(pointers), Some(is_group), Some(union)) = (
        number_at(json, "id", u64::MAX),
        text_at(json, "name"),
        number_at(json, "data", 65535),
        number_at(json, "pointers", 65535),
        group_mark(json),
        number_or(0, json, "union", 0xffff_ffff),
    ) else {
        return Err(FileFault::Form);
    };
    let items = items_at(json, "fields").ok_or(FileFault::Form)?;
    let fields = fields_of(alloc, items)?;
    let body = StructRecord {
        data_word_count: words as u16,
        pointer_count: pointers as u16,
        is_group,
        discriminant_count: members_among(&fields),
        discriminant_offset: union as u32,
        fields,
    };
    Ok(NodeRecord {
        id,
        display_name: String::from_str(alloc, name)?,
        annotations: Vec::new(alloc),
        body: NodeBody::Struct(body),
    })
}

fn enumerant_of(alloc: Global, json: &Json) -> Result<EnumerantRecord, FileFault>
    ensures ok { IfOk result (λ e. enumerant_in (view json.now) ≡ Some (enumerant_of e)) }
    ensures refused { IfErr result (IsFileRefusal (enumerant_in (view json.now))) }
{
    let name = json.as_str().ok_or(FileFault::Form)?;
    Ok(EnumerantRecord {
        name: String::from_str(alloc, name)?,
        annotations: Vec::new(alloc),
    })
}

fn enumerants_of(alloc: Global, items: &[Json]) -> Result<Vec<EnumerantRecord>, FileFault>
    ensures ok { IfOk result (λ v. each_item enumerant_in (items_view items.now)
        ≡ Some (map enumerant_of v.items)) }
    ensures refused { IfErr result (IsFileRefusal (each_item enumerant_in (items_view items.now))) }
{
    let mut enumerants = Vec::new(alloc);
    let mut rest = items;
    while let [first, others @ ..] = rest {
        enumerants.push(enumerant_of(alloc, first)?)?;
        rest = others;
    }
    Ok(enumerants)
}

fn enum_of(alloc: Global, json: &Json) -> Result<NodeRecord, FileFault>
    ensures ok { IfOk result (λ n. enum_node_in (view json.now) ≡ Some (node_of n)) }
    ensures refused { IfErr result (IsFileRefusal (enum_node_in (view json.now))) }
{
    let keys = ["id", "name", "enumerants"];
    let Some(json) = with_keys(json, &keys) else {
        return Err(FileFault::Form);
    };
    let (Some(id), Some(name), Some(items)) = (
        number_at(json, "id", u64::MAX),
        text_at(json, "name"),
        items_at(json, "enumerants"),
    ) else {
        return Err(FileFault::Form);
    };
    let enumerants = enumerants_of(alloc, items)?;
    Ok(NodeRecord {
        id,
        display_name: String::from_str(alloc, name)?,
        annotations: Vec::new(alloc),
        body: NodeBody::Enum(enumerants),
    })
}

/// Returns a node: an enum if it has enumerants, otherwise a struct.
pub(crate) fn node_of(alloc: Global, json: &Json) -> Result<NodeRecord, FileFault>
    ensures ok { IfOk result (λ n. node_in (view json.now) ≡ Some (node_of n)) }
    ensures refused { IfErr result (IsFileRefusal (node_in (view json.now))) }
{
    match json.get("enumerants") {
        None => struct_of(alloc, json),
        Some(_) => enum_of(alloc, json),
    }
}
