//! Generic nodes whose parameters are bound.

use crate::identity::{id_of_key, key_of};
use crate::names::bound_name;
use crate::scopes::Scopes;
use crate::types::Binding;
use std::alloc::{AllocError, AllocFailed, Global};
use std::collections::HashMap;

/// The most nodes that may be bound.
pub const MOST_BOUND: usize = 16_384;

/// A generic node whose parameters are bound.
#[derive(Drop)]
pub struct BoundNode {
    pub id: u64,
    /// The id of the generic node.
    pub generic: u64,
    /// Its name, with the types to which its parameters are bound.
    pub name: String,
    pub bindings: Vec<Binding>,
    key: Vec<u8>,
}

/// The reason for which nodes can't be bound.
#[derive(Clone, Copy)]
pub enum BindFault {
    /// There are more than `MOST_BOUND` nodes.
    TooMany,
    /// Two nodes, or two bindings of one node, have the same id.
    Clash,
    /// An allocation was refused.
    Memory,
}

impl From<AllocError> for BindFault {
    ghost use Rattle.std.specs.Prelude.{◌≡◌};
    ghost use Rattle.capnp_relay_bindings.specs.declared.bound.BindFault.{BindFault};

    ghost from_gives = { λ _ fault. fault ≡ BindFault.Memory };

    fn from(_e: AllocError) -> BindFault {
        BindFault::Memory
    }
}

impl<T: Drop> From<AllocFailed<T>> for BindFault {
    ghost use Rattle.std.specs.Prelude.{◌≡◌};
    ghost use Rattle.capnp_relay_bindings.specs.declared.bound.BindFault.{BindFault};

    ghost from_gives = { λ _ fault. fault ≡ BindFault.Memory };

    fn from(_e: AllocFailed<T>) -> BindFault {
        BindFault::Memory
    }
}

/// The bound nodes that are reached, in the order in which they were found.
#[derive(Drop)]
pub struct BoundNodes {
    nodes: Vec<BoundNode>,
    places: HashMap<u64, usize>,
}

impl BoundNodes {
    ghost use Rattle.std.specs.Prelude.{◌≡◌, ◌≤◌, ◌++◌, [], ◌∷◌, List, length, IfSome, IfOk, IfErr, OnOk, OnErr};
    ghost use Rattle.capnp_relay_bindings.specs.declared.bound.BindFault.{BindFault};
    ghost use Rattle.capnp_relay_bindings.specs.declared.bound.BoundNode.{BoundNode};
    ghost use Rattle.capnp_relay_bindings.specs.Bound.{bound_nodes, IsNodeIn};
    ghost use Rattle.capnp_relay_bindings.specs.Identity.{bound_id};

    /// Makes an empty set of nodes.
    pub fn new(alloc: Global) -> BoundNodes
        ensures { bound_nodes result ≡ [] }
    {
        BoundNodes {
            nodes: Vec::new(alloc),
            places: HashMap::new(alloc),
        }
    }

    /// Returns the nodes.
    pub fn nodes(&self) -> &[BoundNode]
        ensures { result.now ≡ bound_nodes self.now }
    {
        self.nodes.as_slice()
    }

    /// Returns the node of an id.
    pub fn get(&self, id: u64) -> Option<&BoundNode>
        ensures { IfSome result (λ node. IsNodeIn (bound_nodes self.now) id node.now) }
    {
        let place = *self.places.get(&id)?;
        match self.nodes.get(place) {
            Some(node) if node.id == id => Some(node),
            _ => None,
        }
    }

    /// Appends a node of an id.
    fn push(
        &mut self,
        alloc: Global,
        scopes: &Scopes,
        id: u64,
        generic: u64,
        bindings: Vec<Binding>,
        key: Vec<u8>,
    ) -> Result<(), BindFault>
        ensures ok { OnOk result ((node : BoundNode) × (node.id ≡ id) × (node.key ≡ key)
            × (bound_nodes self.new ≡ bound_nodes self.old ++ node ∷ [])) }
        ensures err { OnErr result (bound_nodes self.new ≡ bound_nodes self.old) }
        ensures many { IfErr result (λ e. e ≡ BindFault.TooMany
            → 16384 ≤ length (bound_nodes self.old)) }
    {
        let place = self.nodes.len();
        if place >= MOST_BOUND {
            return Err(BindFault::TooMany);
        }
        let name = bound_name(alloc, scopes, self, generic, &bindings)?;
        self.places.insert(id, place)?;
        self.nodes.push(BoundNode {
            id,
            generic,
            name,
            bindings,
            key,
        })?;
        Ok(())
    }

    /// Returns the id of a node with these bindings: its own if nothing is bound. A new node is
    /// appended.
    pub fn bind(
        &mut self,
        alloc: Global,
        scopes: &Scopes,
        generic: u64,
        bindings: Vec<Binding>,
    ) -> Result<u64, BindFault>
        ensures id { IfOk result (λ id. id ≡ bound_id generic bindings.items) }
        ensures grows { (more : List BoundNode)
            × (bound_nodes self.new ≡ bound_nodes self.old ++ more) }
        ensures many { IfErr result (λ e. e ≡ BindFault.TooMany
            → 16384 ≤ length (bound_nodes self.old)) }
    {
        if bindings.is_empty() {
            return Ok(generic);
        }
        let key = key_of(alloc, generic, &bindings)?;
        let id = id_of_key(&key);
        if let Some(known) = self.get(id) {
            if known.key.as_slice() == key.as_slice() {
                return Ok(id);
            }
            return Err(BindFault::Clash);
        }
        if scopes.get(id).is_some() {
            return Err(BindFault::Clash);
        }
        self.push(alloc, scopes, id, generic, bindings, key)?;
        Ok(id)
    }
}
