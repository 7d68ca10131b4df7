//! The forms of files that are given as schemas.
ghost use Rattle.std.specs.Prelude.{◌≡◌};
ghost use Rattle.hagzimot_schemas.specs.SchemaForms.{is_request};

use crate::schemas::SchemaTrouble;
use hagzimot_forms::schema_form::schema_form_fault;
use serde_json::Value as Json;
use std::alloc::Global;

/// The form that a file given as a schema seems to have.
#[derive(Clone, Copy, Debug, PartialEq, Eq)]
pub enum SchemaForm {
    /// No bytes.
    Empty,
    /// Compressed data of gzip.
    Gzip,
    /// A message, as the compiler writes it.
    Request,
    /// A JSON text.
    Json,
    /// The source of a schema, which the compiler reads.
    Source,
    /// Any other file.
    Other,
}

/// Tests whether a file is a request of the compiler, and not JSON.
pub(crate) fn is_request(bytes: &[u8]) -> bool
    ensures { result ≡ is_request bytes.now }
{
    match bytes {
        [_, _, _, last, ..] => *last == 0,
        _ => false,
    }
}

/// Returns the bytes after the white space and the comments at the head of a schema's source.
fn behind_comments(bytes: &[u8]) -> &[u8] {
    let mut rest = bytes;
    let mut is_comment = false;
    while let [first, behind @ ..] = rest {
        let is_space = matches!(*first, b' ' | b'\t' | b'\r' | b'\n');
        if *first == b'#' {
            is_comment = true;
        } else if *first == b'\n' {
            is_comment = false;
        } else if !is_comment && !is_space {
            return rest;
        }
        rest = behind;
    }
    rest
}

/// The texts with which declarations in a schema's source begin.
static BEGINNINGS: [&str; 8] = [
    "@0x",
    "using ",
    "struct ",
    "enum ",
    "interface ",
    "annotation ",
    "const ",
    "$",
];

/// Returns the form that a file given as a schema seems to have. Only this function decides it.
pub fn schema_form(bytes: &[u8]) -> SchemaForm {
    if bytes.is_empty() {
        return SchemaForm::Empty;
    }
    if bytes.starts_with(&[0x1f, 0x8b]) {
        return SchemaForm::Gzip;
    }
    if is_request(bytes) {
        return SchemaForm::Request;
    }
    let head = behind_comments(bytes);
    if BEGINNINGS
        .iter()
        .any(|text| head.starts_with(text.as_bytes()))
    {
        return SchemaForm::Source;
    }
    match bytes.trim_ascii_start() {
        [b'[', ..] | [b'{', ..] => SchemaForm::Json,
        _ => SchemaForm::Other,
    }
}

/// Returns the reason for which bytes are not a JSON schema file.
pub(crate) fn json_trouble(alloc: Global, bytes: &[u8]) -> SchemaTrouble {
    match Json::from_slice(alloc, bytes) {
        Ok(_) => SchemaTrouble::Form(schema_form_fault(alloc, bytes)),
        Err(error) => SchemaTrouble::Json(error),
    }
}
