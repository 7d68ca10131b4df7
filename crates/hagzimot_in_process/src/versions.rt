//! The comparison of two versions of a schema.
ghost use Rattle.std.specs.Prelude.{◌≡◌, IfOk, is_none, option_copied};
ghost use Rattle.std.specs.Bool.{MatchBool};
ghost use Rattle.capnp_records.specs.Sets.{nodes_of};
ghost use Rattle.capnp_calls_versions.specs.Renamed.{renamings_of};
ghost use Rattle.hagzimot_in_process.specs.Opened.{IsSchemaOf, AreRenamingsIn, AreVersionsOf, AreCompatible};

use crate::relay::schema_of;
use capnp_calls_versions::breaks::Break;
use capnp_calls_versions::compatible::first_break;
use capnp_calls_versions::renamings::{RenamingFault, Renamings};
use capnp_calls_versions::root::Root;
use capnp_relay_files::fault::FileFault;
use capnp_relay_files::renames_file::renames_file;
use hagzimot_forms::renames_form::renames_form_fault;
use hagzimot_schemas::breaks::{Version, sentence};
use hagzimot_schemas::schemas::{RootedSchema, SchemaTrouble};
use std::alloc::{AllocError, Global};
use std::fmt;
use std::fmt::{Display, Formatter, Write};

/// The reason for which two versions aren't compared.
#[derive(Debug, Drop)]
pub enum VersionsTrouble {
    /// The older schema can't be used, or has no such root.
    Older(SchemaTrouble),
    /// The newer schema can't be used, or has no such root.
    Newer(SchemaTrouble),
    /// The renames aren't a renames file; what is wrong, with line and column, where a closer look
    /// finds it.
    Renames(Option<serde_json::Error>),
    /// Two fields of a node are renamed to one, or one is renamed twice.
    Twice,
    /// An allocation was refused.
    Memory,
}

impl From<AllocError> for VersionsTrouble {
    fn from(_e: AllocError) -> VersionsTrouble {
        VersionsTrouble::Memory
    }
}

impl Display for VersionsTrouble {
    fn fmt<W: Write>(&self, f: &mut Formatter<W>) -> fmt::Result {
        match self {
            VersionsTrouble::Older(trouble) => write!(f, "older: {trouble}"),
            VersionsTrouble::Newer(trouble) => write!(f, "newer: {trouble}"),
            VersionsTrouble::Renames(Some(error)) => {
                write!(f, "renames: not a renames file: {error}")
            }
            VersionsTrouble::Renames(None) => write!(
                f,
                "renames: not a renames file (compare it with the manual: Calls and renames)"
            ),
            VersionsTrouble::Twice => f.write_str(
                "renames: two fields of a node are renamed to one, or one is renamed twice",
            ),
            VersionsTrouble::Memory => f.write_str("out of memory"),
        }
    }
}

/// Reads the renamings of a renames file. An empty file renames nothing.
fn renamings_in(alloc: Global, bytes: &[u8]) -> Result<Renamings, VersionsTrouble>
    ensures { IfOk result (λ rs. AreRenamingsIn bytes.now (renamings_of rs)) }
{
    if bytes.is_empty() {
        return Ok(Renamings::none(alloc));
    }
    let list = match renames_file(alloc, bytes) {
        Ok(list) => list,
        Err(FileFault::Memory) => return Err(VersionsTrouble::Memory),
        Err(FileFault::Form) => {
            return Err(VersionsTrouble::Renames(renames_form_fault(alloc, bytes)));
        }
    };
    match Renamings::new(list) {
        Ok(renamings) => Ok(renamings),
        Err(RenamingFault::Memory) => Err(VersionsTrouble::Memory),
        Err(RenamingFault::Twice) => Err(VersionsTrouble::Twice),
    }
}

/// Returns the root of a version.
fn root_of(schema: &RootedSchema) -> Root<'_>
    ensures set { nodes_of result.set.now ≡ nodes_of schema.now.set }
    ensures id { result.id ≡ schema.now.root.id }
{
    Root {
        set: schema.set(),
        id: schema.root_id(),
    }
}

/// The two versions of a schema, and how fields are renamed.
#[derive(Drop)]
pub struct Versions {
    older: RootedSchema,
    newer: RootedSchema,
    renamings: Renamings,
}

impl Versions {
    /// Reads two versions, with the struct that a word names as root of both, and a renames file.
    /// Without a word the root of each is the one struct at its top. Empty renames rename nothing.
    pub fn new(
        alloc: Global,
        older: &[u8],
        newer: &[u8],
        renames: &[u8],
        root: Option<&str>,
    ) -> Result<Versions, VersionsTrouble>
        ensures { IfOk result
            (AreVersionsOf older.now newer.now renames.now (option_copied root.entry)) }
    {
        let older = match schema_of(alloc, older, root) {
            Ok(schema) => schema,
            Err(SchemaTrouble::Memory) => return Err(VersionsTrouble::Memory),
            Err(trouble) => return Err(VersionsTrouble::Older(trouble)),
        };
        let newer = match schema_of(alloc, newer, root) {
            Ok(schema) => schema,
            Err(SchemaTrouble::Memory) => return Err(VersionsTrouble::Memory),
            Err(trouble) => return Err(VersionsTrouble::Newer(trouble)),
        };
        let renamings = renamings_in(alloc, renames)?;
        Ok(Versions {
            older,
            newer,
            renamings,
        })
    }

    /// Returns the sentence of the first break of compatibility; `None` exactly if what is written
    /// under the older version reads the same under the newer.
    pub fn first_break(&self, alloc: Global) -> Result<Option<String>, AllocError>
        ensures { IfOk result (λ why. MatchBool (is_none why) (AreCompatible self.now)
            (AreCompatible self.now → ⊥)) }
    {
        let older = root_of(&self.older);
        let newer = root_of(&self.newer);
        match first_break(alloc, older, newer, &self.renamings) {
            Ok(None) => Ok(None),
            Ok(Some(broken)) => Ok(Some(self.told(alloc, broken)?)),
            Err(_) => Err(AllocError),
        }
    }

    /// Returns the sentence of a break.
    fn told(&self, alloc: Global, broken: Break) -> Result<String, AllocError> {
        let older = Version {
            nodes: self.older.nodes(),
            age: "older",
        };
        let newer = Version {
            nodes: self.newer.nodes(),
            age: "newer",
        };
        sentence(alloc, older, newer, broken)
    }
}
