//! The form of renames files.
ghost use Rattle.std.specs.Prelude.{IfNone, IsUtf8};

use serde::Deserialize;
use serde_json::Error;
use std::alloc::Global;

/// A field that has another name.
#[derive(Drop, Deserialize)]
#[serde(deny_unknown_fields)]
struct Renaming {
    #[serde(rename = "node")]
    _node: u64,
    #[serde(rename = "from")]
    _from: String,
    #[serde(rename = "to")]
    _to: String,
}

/// Returns the first fault in the form of a renames file, with line and column. Returns `None` if
/// this function finds no fault.
pub fn renames_form_fault(alloc: Global, bytes: &[u8]) -> Option<Error>
    ensures { IfNone result (IsUtf8 bytes.now) }
{
    serde_json::from_slice::<Vec<Renaming>>(alloc, bytes).err()
}
