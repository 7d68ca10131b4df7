//! Fields that have other names in a newer schema.

ghost use Rattle.std.specs.Prelude.{◌≡◌, true, map, IfOk, string_bytes};
ghost use Rattle.std.proofs.Props.{props};
ghost use Rattle.capnp_model.specs.Partners.{are_distinct_names, are_one_to_one};
ghost use Rattle.capnp_calls_versions.specs.Renamings.{renaming_of, name_in, key_in};

use std::alloc::{AllocError, Global};
use std::collections::HashSet;

/// A field of an older schema that has another name in a newer one.
#[derive(Debug, Drop)]
pub struct Renaming {
    /// The id of the older node that has the field.
    pub node: u64,
    /// The name of the field there.
    pub older: String,
    /// The name of the newer field that is its partner.
    pub newer: String,
}

/// The reason for which renamings are refused.
#[derive(Clone, Copy, Debug, PartialEq, Eq, thiserror::Error)]
pub enum RenamingFault {
    /// Two renamings of one node have the same older or the same newer name.
    #[error("a name that is renamed twice")]
    Twice,
    #[error("out of memory")]
    Memory,
}

impl From<AllocError> for RenamingFault {
    ghost use Rattle.std.specs.Prelude.{◌≡◌};
    ghost use Rattle.capnp_calls_versions.specs.declared.renamings.RenamingFault.{RenamingFault};

    ghost from_gives = { λ _ fault. fault ≡ RenamingFault.Memory };

    fn from(_e: AllocError) -> RenamingFault {
        RenamingFault::Memory
    }
}

/// The version of a schema.
#[derive(Clone, Copy)]
enum Version {
    Older,
    Newer,
}

/// Returns the name of the field in a version.
fn name_in(renaming: &Renaming, version: Version) -> &str
    ensures { result.now ≡ name_in version renaming.now }
{
    match version {
        Version::Older => renaming.older.as_str(),
        Version::Newer => renaming.newer.as_str(),
    }
}

/// Returns whether all renamings of one node have distinct names in a version.
fn are_apart(alloc: Global, list: &[Renaming], version: Version) -> Result<bool, AllocError>
    ensures { IfOk result (λ b. b ≡ are_distinct_names (map (key_in version) list.now)) }
{
    let mut seen: HashSet<(u64, &str)> = HashSet::new(alloc);
    let mut left = list.len();
    while left > 0 {
        left -= 1;
        let renaming = &list[left];
        if !seen.insert((renaming.node, name_in(renaming, version)))? {
            return Ok(false);
        }
    }
    Ok(true)
}

/// Renamings whose older names are distinct in each node, and whose newer names are too.
#[derive(Debug, Drop)]
pub struct Renamings {
    list: Vec<Renaming>,
    pub ghost distinct: { are_one_to_one (map renaming_of list.items) ≡ true } by { Prim.hlevel props },
}

impl Renamings {
    ghost use Rattle.std.specs.Prelude.{◌≡◌, true, map, [], IfOk, IfErr};
    ghost use Rattle.capnp_model.specs.Partners.{are_one_to_one};
    ghost use Rattle.capnp_calls_versions.specs.Renamed.{renamings_of, IsRenamingRefusal};

    /// Makes the renamings of a list. `Twice`: two renamings of one node have the same older or the
    /// same newer name.
    pub fn new(list: Vec<Renaming>) -> Result<Renamings, RenamingFault>
        ensures list { IfOk result (λ rs. renamings_of rs ≡ map renaming_of list.items) }
        ensures distinct { IfOk result (λ rs. are_one_to_one (renamings_of rs) ≡ true) }
        ensures refused { IfErr result (IsRenamingRefusal (map renaming_of list.items)) }
    {
        let alloc = *list.allocator();
        if !are_apart(alloc, &list, Version::Older)? {
            return Err(RenamingFault::Twice);
        }
        if !are_apart(alloc, &list, Version::Newer)? {
            return Err(RenamingFault::Twice);
        }
        Ok(Renamings { list })
    }

    /// Makes an empty list: no field is renamed.
    pub fn none(alloc: Global) -> Renamings
        ensures { renamings_of result ≡ [] }
    {
        Renamings {
            list: Vec::new(alloc),
        }
    }

    /// Returns the renamings, in the order in which they were given.
    pub fn list(&self) -> &[Renaming]
        ensures { map renaming_of result.now ≡ renamings_of self.now }
    {
        self.list.as_slice()
    }
}
