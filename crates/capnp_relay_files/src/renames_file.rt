//! Renames files.

ghost use Rattle.std.specs.Prelude.{◌≡◌, map, Some, IfOk, IfErr};
ghost use Rattle.serde_json.specs.View.{view, items_view};
ghost use Rattle.capnp_calls_versions.specs.Renamed.{renaming_of};
ghost use Rattle.capnp_relay_files.specs.Json.{each_item};
ghost use Rattle.capnp_relay_files.specs.RenamesFiles.{renaming_in, renamings_in, renames_in};
ghost use Rattle.capnp_relay_files.specs.Faults.{IsFileRefusal};

use crate::fault::FileFault;
use crate::json::{number_at, text_at, value_in, with_keys};
use capnp_calls_versions::renamings::Renaming;
use serde_json::Value as Json;
use std::alloc::Global;

fn renaming_of(alloc: Global, json: &Json) -> Result<Renaming, FileFault>
    ensures ok { IfOk result (λ r. renaming_in (view json.now) ≡ Some (renaming_of r)) }
    ensures refused { IfErr result (IsFileRefusal (renaming_in (view json.now))) }
{
    let keys = ["node", "from", "to"];
    let Some(json) = with_keys(json, &keys) else {
        return Err(FileFault::Form);
    };
    let (Some(node), Some(from), Some(to)) = (
        number_at(json, "node", u64::MAX),
        text_at(json, "from"),
        text_at(json, "to"),
    ) else {
        return Err(FileFault::Form);
    };
    Ok(Renaming {
        node,
        older: String::from_str(alloc, from)?,
        newer: String::from_str(alloc, to)?,
    })
}

fn renamings_of(alloc: Global, items: &[Json]) -> Result<Vec<Renaming>, FileFault>
    ensures ok { IfOk result (λ v. each_item renaming_in (items_view items.now)
        ≡ Some (map renaming_of v.items)) }
    ensures refused { IfErr result (IsFileRefusal (each_item renaming_in (items_view items.now))) }
{
    let mut renamings = Vec::new(alloc);
    let mut rest = items;
    while let [first, others @ ..] = rest {
        renamings.push(renaming_of(alloc, first)?)?;
        rest = others;
    }
    Ok(renamings)
}

fn renamings_in(alloc: Global, json: &Json) -> Result<Vec<Renaming>, FileFault>
    ensures ok { IfOk result (λ v. renamings_in (view json.now) ≡ Some (map renaming_of v.items)) }
    ensures refused { IfErr result (IsFileRefusal (renamings_in (view json.now))) }
{
    let items = json.as_array().ok_or(FileFault::Form)?;
    renamings_of(alloc, items)
}

/// Reads a renames file: a JSON array of objects with the keys `node`, `from` and `to`. The
/// renamings are in the file's order. It is refused with `Form` exactly when the text is not JSON
/// or has another form, and with `Memory` if memory is lacking. `Renamings::new` decides whether a
/// field is renamed twice.
pub fn renames_file(alloc: Global, bytes: &[u8]) -> Result<Vec<Renaming>, FileFault>
    ensures ok { IfOk result (λ v. renames_in bytes.now ≡ Some (map renaming_of v.items)) }
    ensures refused { IfErr result (IsFileRefusal (renames_in bytes.now)) }
{
    let json = value_in(alloc, bytes)?;
    renamings_in(alloc, &json)
}
