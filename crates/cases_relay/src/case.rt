//! The members of a case.

use hex::FromHexError;
use serde_json::Value as Json;
use std::alloc::{AllocError, AllocFailed, Global};

/// Why a case can't be compared.
#[derive(Clone, Copy, Debug, PartialEq, Eq, thiserror::Error)]
pub enum Fault {
    #[error("out of memory")]
    Memory,
    #[error("no case")]
    Shape,
}

impl From<AllocError> for Fault {
    fn from(_e: AllocError) -> Fault {
        Fault::Memory
    }
}

impl<T: Drop> From<AllocFailed<T>> for Fault {
    fn from(_e: AllocFailed<T>) -> Fault {
        Fault::Memory
    }
}

impl From<capnp_units::errors::Error> for Fault {
    fn from(_e: capnp_units::errors::Error) -> Fault {
        Fault::Memory
    }
}

/// Returns the bytes that a text spells in hex, with blanks anywhere.
fn hex_in(alloc: Global, text: &str) -> Result<Vec<u8>, Fault> {
    let mut digits = Vec::new(alloc);
    for byte in text.as_bytes() {
        if *byte != b' ' {
            digits.push(*byte)?;
        }
    }
    match hex::decode(alloc, digits.as_slice()) {
        Ok(bytes) => Ok(bytes),
        Err(FromHexError::OutOfMemory) => Err(Fault::Memory),
        Err(_) => Err(Fault::Shape),
    }
}

/// Returns the bytes of a file: the bytes that a text spells in hex, or the text of another JSON
/// value.
fn file_in(alloc: Global, file: &Json) -> Result<Vec<u8>, Fault> {
    match file.as_str() {
        Some(text) => hex_in(alloc, text),
        None => Ok(file.to_string(alloc)?.into_bytes()),
    }
}

/// A case: a JSON object.
#[derive(Drop)]
pub struct Case {
    json: Json,
}

impl Case {
    /// Reads the case of a line.
    pub fn new(alloc: Global, line: &str) -> Result<Case, Fault> {
        match Json::from_str(alloc, line) {
            Ok(json) => Ok(Case { json }),
            Err(_) => Err(Fault::Shape),
        }
    }

    fn member(&self, name: &str) -> Result<&Json, Fault> {
        self.json.get(name).ok_or(Fault::Shape)
    }

    pub fn has(&self, name: &str) -> bool {
        self.json.get(name).is_some()
    }

    pub fn text(&self, name: &str) -> Result<&str, Fault> {
        self.member(name)?.as_str().ok_or(Fault::Shape)
    }

    pub fn number(&self, name: &str) -> Result<u64, Fault> {
        self.member(name)?.as_u64().ok_or(Fault::Shape)
    }

    /// Returns the bytes of a member in hex.
    pub fn bytes(&self, alloc: Global, name: &str) -> Result<Vec<u8>, Fault> {
        hex_in(alloc, self.text(name)?)
    }

    /// Returns the arguments.
    pub fn words(&self, alloc: Global) -> Result<Vec<String>, Fault> {
        let items = self.member("args")?.as_array().ok_or(Fault::Shape)?;
        let mut words = Vec::new(alloc);
        for item in items.as_slice() {
            let word = item.as_str().ok_or(Fault::Shape)?;
            words.push(String::from_str(alloc, word)?)?;
        }
        Ok(words)
    }

    /// Returns the bytes of the file of this name; `None` if there is no such file.
    pub fn file(&self, alloc: Global, name: Option<&String>) -> Result<Option<Vec<u8>>, Fault> {
        let Some(name) = name else {
            return Ok(None);
        };
        match self.member("files")?.get(name.as_str()) {
            None => Ok(None),
            Some(file) => Ok(Some(file_in(alloc, file)?)),
        }
    }
}
