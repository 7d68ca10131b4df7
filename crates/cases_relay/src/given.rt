//! The input of a run, and the results it should leave.

use crate::case::{Case, Fault};
use crate::plain;
use capnp_calls_versions::renamings::Renamings;
use capnp_relay_files::renames_file::renames_file;
use capnp_relay_program::arguments::Arguments;
use capnp_relay_program::settings::Settings;
use capnp_relay_program::version::Version;
use std::alloc::Global;

/// The arguments of a run and its files.
#[derive(Drop)]
pub struct Given {
    pub words: Vec<String>,
    pub schema: Option<Vec<u8>>,
    pub calls: Option<Vec<u8>>,
    pub newer: Option<Vec<u8>>,
    pub renames: Option<Vec<u8>>,
}

impl Given {
    pub fn new(alloc: Global, case: &Case) -> Result<Given, Fault> {
        let words = case.words(alloc)?;
        let schema = case.file(alloc, words.get(0))?;
        let calls = case.file(alloc, words.get(1))?;
        let newer = case.file(alloc, words.get(4))?;
        let renames = case.file(alloc, words.get(5))?;
        Ok(Given {
            words,
            schema,
            calls,
            newer,
            renames,
        })
    }

    /// Returns the calls and the limits, if nothing is refused.
    pub fn settings(&self, alloc: Global) -> Result<Settings, Fault> {
        let (schema, calls) = (self.schema.as_deref(), self.calls.as_deref());
        let (newer, renames) = (self.newer.as_deref(), self.renames.as_deref());
        match Settings::new(alloc, &self.words, schema, calls, newer, renames) {
            Ok(settings) => Ok(settings),
            Err(_) => Err(Fault::Shape),
        }
    }

    /// Returns the renamings of the renames file. Without such a file there are no renamings.
    pub fn renamings(&self, alloc: Global) -> Result<Renamings, Fault> {
        let Some(bytes) = &self.renames else {
            return Ok(Renamings::none(alloc));
        };
        let Ok(list) = renames_file(alloc, bytes) else {
            return Err(Fault::Shape);
        };
        match Renamings::new(list) {
            Ok(renamings) => Ok(renamings),
            Err(_) => Err(Fault::Shape),
        }
    }

    /// Parses the words of the case as arguments.
    pub fn arguments(&self) -> Result<Arguments, Fault> {
        Arguments::new(&self.words).ok_or(Fault::Shape)
    }

    /// Returns the root's id.
    pub fn root(&self) -> Result<u64, Fault> {
        Ok(self.arguments()?.root)
    }

    fn version_of(&self, alloc: Global, file: Option<&[u8]>) -> Result<Version, Fault> {
        match Version::new(alloc, file, self.root()?) {
            Ok(version) => Ok(version),
            Err(_) => Err(Fault::Shape),
        }
    }

    /// Returns the schema with its root.
    pub fn older(&self, alloc: Global) -> Result<Version, Fault> {
        self.version_of(alloc, self.schema.as_deref())
    }

    /// Returns the newer schema with its root.
    pub fn newer(&self, alloc: Global) -> Result<Version, Fault> {
        self.version_of(alloc, self.newer.as_deref())
    }
}

/// The results that a run left, or should leave.
#[derive(Drop)]
pub struct Left {
    /// The way it ended.
    pub end: String,
    pub out: Vec<u8>,
    pub log: Vec<u8>,
    /// Number of bytes of the input that weren't taken.
    pub unread: usize,
}

/// Returns the bytes of the log that a case gives: a text, or `stderr` in hex.
fn log_of(alloc: Global, case: &Case) -> Result<Vec<u8>, Fault> {
    if case.has("log") {
        return Ok(String::from_str(alloc, case.text("log")?)?.into_bytes());
    }
    case.bytes(alloc, "stderr")
}

/// Returns these bytes if they aren't the bytes that a member gives in hex.
pub fn difference_of_bytes(
    alloc: Global,
    case: &Case,
    name: &str,
    bytes: &[u8],
) -> Result<Option<String>, Fault> {
    if bytes == case.bytes(alloc, name)?.as_slice() {
        return Ok(None);
    }
    Ok(Some(format!(in alloc; "{name} {}", hex_of(alloc, bytes)?.as_str())?))
}

impl Left {
    /// Returns the difference from the results that the case gives, if any.
    pub fn difference(
        &self,
        alloc: Global,
        given: &Given,
        case: &Case,
    ) -> Result<Option<String>, Fault> {
        let end = if case.has("answer") {
            String::from_str(alloc, case.text("answer")?)?
        } else {
            format!(in alloc; "{}", case.number("status")?)?
        };
        if self.end.as_str() != end.as_str() {
            return Ok(Some(format!(in alloc; "it ends so: {}", self.end.as_str())?));
        }
        if self.log.as_slice() != log_of(alloc, case)?.as_slice() {
            return Ok(Some(format!(in alloc; "stderr {}", hex_of(alloc, &self.log)?.as_str())?));
        }
        let told = if case.has("again") {
            plain::difference(alloc, given, &self.out, case)?
        } else {
            difference_of_bytes(alloc, case, "stdout", &self.out)?
        };
        if told.is_some() {
            return Ok(told);
        }
        if case.has("unread") && case.number("unread")? != self.unread as u64 {
            return Ok(Some(format!(in alloc; "{} bytes are unread", self.unread)?));
        }
        Ok(None)
    }
}

/// Returns bytes in hex.
pub fn hex_of(alloc: Global, bytes: &[u8]) -> Result<String, Fault> {
    Ok(hex::encode(alloc, bytes)?)
}
