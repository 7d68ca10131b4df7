//! The names of partners.

ghost use Rattle.std.specs.Prelude.{◌≡◌, true, map};
ghost use Rattle.std.proofs.Props.{props};
ghost use Rattle.capnp_model.specs.Partners.{are_one_to_one};
ghost use Rattle.capnp_calls_versions.specs.Renamings.{renaming_of, FindsNewer, FindsOlder};

use crate::renamings::{Renaming, Renamings};
use std::alloc::{AllocError, Global};
use std::collections::HashMap;

/// Renamings, and the names that they give to a node's fields.
#[derive(Drop)]
pub(crate) struct Names<'a> {
    list: &'a [Renaming],
    /// The newer names, by node and older name.
    by_older: HashMap<(u64, &'a str), &'a str>,
    /// The older names, by node and newer name.
    by_newer: HashMap<(u64, &'a str), &'a str>,
    pub ghost newer: { FindsNewer (map renaming_of list.now) by_older.entries } by { Prim.hlevel props },
    pub ghost older: { FindsOlder (map renaming_of list.now) by_newer.entries } by { Prim.hlevel props },
    pub ghost distinct: { are_one_to_one (map renaming_of list.now) ≡ true } by { Prim.hlevel props },
}

impl<'a> Names<'a> {
    ghost use Rattle.std.specs.Prelude.{◌≡◌, map, find, option_map, IfOk};
    ghost use Rattle.capnp_model.specs.Partners.{Renaming as ModelRenaming, partner_name};
    ghost use Rattle.capnp_calls_versions.specs.Renamings.{is_to};
    ghost use Rattle.capnp_calls_versions.specs.Renamed.{names_in, renamings_of};

    /// Collects the names that renamings give.
    pub(crate) fn new(alloc: Global, renamings: &'a Renamings) -> Result<Names<'a>, AllocError>
        ensures { IfOk result (λ ns. names_in ns ≡ renamings_of renamings.now) }
    {
        let list = renamings.list();
        let mut by_older: HashMap<(u64, &'a str), &'a str> = HashMap::new(alloc);
        let mut by_newer: HashMap<(u64, &'a str), &'a str> = HashMap::new(alloc);
        let mut left = list.len();
        while left > 0 {
            left -= 1;
            let renaming = &list[left];
            let older = renaming.older.as_str();
            let newer = renaming.newer.as_str();
            by_older.insert((renaming.node, older), newer)?;
            by_newer.insert((renaming.node, newer), older)?;
        }
        Ok(Names {
            list,
            by_older,
            by_newer,
        })
    }

    /// Returns the name of the partner of an older node's field.
    pub(crate) fn partner<'s>(&'s self, node: u64, name: &'s str) -> &'s str
        ensures { result.now ≡ partner_name (names_in self.now) node name.now }
    {
        match self.by_older.get(&(node, name)) {
            Some(newer) => *newer,
            None => name,
        }
    }

    /// Returns the older name of the field of an older node to which a renaming gives the name.
    pub(crate) fn older(&self, node: u64, name: &str) -> Option<&'a str>
        ensures { option_map (λ s. s.now) result
            ≡ option_map (λ (r : ModelRenaming). r.older)
            (find (is_to node name.now) (names_in self.now)) }
    {
        self.by_newer.get(&(node, name)).copied()
    }
}
