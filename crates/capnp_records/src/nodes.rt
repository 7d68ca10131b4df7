//! Nodes with the place of each id, so that an id is found without a search.

ghost use Rattle.std.specs.Prelude.{◌≡◌, ℕ, map, nat_eq};
ghost use Rattle.std.specs.HashMap.{get};
ghost use Rattle.std.proofs.Props.{props};
ghost use Rattle.capnp_records.specs.NodeViews.{node_of};
ghost use Rattle.capnp_records.specs.Tables.{node_place};

use crate::node::NodeRecord;
use std::collections::HashMap;

/// Node records, with the place of each id's first node.
#[derive(Clone, Copy)]
pub(crate) struct Nodes<'a> {
    pub(crate) records: &'a [NodeRecord],
    places: &'a HashMap<u64, usize>,
    pub ghost placed: { (id : ℕ) → get nat_eq places.now id ≡ node_place id 0 (map node_of records.now) } by { Prim.hlevel props },
}

impl<'a> Nodes<'a> {
    ghost use Rattle.std.specs.Prelude.{◌≡◌, ◌<◌, ◌==◌, ℕ, not, map, length, take, get_or, nat_eq, option_map, option_copied};
    ghost use Rattle.std.specs.HashMap.{get};
    ghost use Rattle.std.specs.List.{list_any};
    ghost use Rattle.capnp_model.specs.Accepted.{find_node};
    ghost use Rattle.capnp_records.specs.Listed.{listed};
    ghost use Rattle.capnp_records.specs.NodeViews.{node_of};
    ghost use Rattle.capnp_records.specs.Tables.{node_place};

    pub(crate) fn new(records: &'a [NodeRecord], places: &'a HashMap<u64, usize>) -> Nodes<'a>
        requires { (id : ℕ) → get nat_eq places.now id ≡ node_place id 0 (map node_of records.now) }
        ensures { result.records.now ≡ records.now }
    {
        Nodes { records, places }
    }

    /// Returns the node at a place.
    pub(crate) fn at(self, place: usize) -> &'a NodeRecord
        requires { place < length self.records.now }
        ensures { result.now ≡ get_or self.entry.records.now place result.now }
    {
        &self.records[place]
    }

    /// Returns the first node of an id.
    pub(crate) fn find(self, id: u64) -> Option<&'a NodeRecord>
        ensures { option_map node_of (option_copied result) ≡ find_node (listed self.entry) id }
    {
        let Some(place) = self.places.get(&id) else {
            return None;
        };
        Some(self.at(*place))
    }

    /// Returns whether no node before a place has the id of the node there.
    pub(crate) fn is_first(self, place: usize, node: &NodeRecord) -> bool
        requires inside { place < length self.records.now }
        requires node { node.now ≡ get_or self.records.now place node.now }
        ensures { result ≡ not (list_any (λ n. n.id == (node_of node.now).id)
            (map node_of (take place self.entry.records.now))) }
    {
        match self.places.get(&node.id) {
            None => false,
            Some(first) => *first == place,
        }
    }
}
