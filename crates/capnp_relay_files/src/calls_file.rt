//! Calls files.

ghost use Rattle.std.specs.Prelude.{◌≡◌, Some, IfOk, IfErr};
ghost use Rattle.serde_json.specs.View.{view};
ghost use Rattle.capnp_relay_files.specs.CallsFiles.{nesting_in, calls_text, calls_in};
ghost use Rattle.capnp_relay_files.specs.CallViews.{file_of};
ghost use Rattle.capnp_relay_files.specs.Faults.{IsFileRefusal};

use crate::calls::{CallParts, calls_of};
use crate::fault::FileFault;
use crate::json::{items_at, number_or, value_in, with_keys};
use serde_json::Value as Json;
use std::alloc::Global;

/// The contents of a calls file.
#[derive(Debug, Drop)]
pub struct CallsFile {
    /// The arguments of `Call::new` for each call.
    pub calls: Vec<CallParts>,
    /// The most words that a message may have.
    pub words: usize,
    /// The most levels that a message may have.
    pub nesting: i32,
}

/// Returns the most levels of messages; 64 if the file has no such key.
fn nesting_of(json: &Json) -> Option<i32>
    ensures { result ≡ nesting_in (view json.now) }
{
    match json.get("nesting") {
        None => Some(64),
        Some(value) => i32::try_from(value.as_i64()?).ok(),
    }
}

fn file_of(alloc: Global, json: &Json) -> Result<CallsFile, FileFault>
    ensures ok { IfOk result (λ f. calls_text (view json.now) ≡ Some (file_of f)) }
    ensures refused { IfErr result (IsFileRefusal (calls_text (view json.now))) }
{
    let keys = ["calls", "words", "nesting"];
    let Some(json) = with_keys(json, &keys) else {
        return Err(FileFault::Form);
    };
    let Some(items) = items_at(json, "calls") else {
        return Err(FileFault::Form);
    };
    let calls = calls_of(alloc, items)?;
    let (Some(words), Some(nesting)) = (
        number_or(8_388_608, json, "words", u64::MAX),
        nesting_of(json),
    ) else {
        return Err(FileFault::Form);
    };
    Ok(CallsFile {
        calls,
        words: words as usize,
        nesting,
    })
}

/// Reads a calls file: its calls, in order, and the limits of messages. The limits are 8,388,608
/// words and a nesting of 64 if the file doesn't have others. It is refused with `Form` exactly
/// when the text is not JSON or has another form, and with `Memory` if memory is lacking.
/// `Call::new` decides which calls are refused.
pub fn calls_file(alloc: Global, bytes: &[u8]) -> Result<CallsFile, FileFault>
    ensures ok { IfOk result (λ f. calls_in bytes.now ≡ Some (file_of f)) }
    ensures refused { IfErr result (IsFileRefusal (calls_in bytes.now)) }
{
    let json = value_in(alloc, bytes)?;
    file_of(alloc, &json)
}
