//! The nodes of a request, and their scopes.

use std::alloc::{AllocError, Global};
use std::collections::HashMap;

/// The most scopes around a node.
const MOST_SCOPES: u32 = 64;

/// The name and scope of a node in a request.
#[derive(Drop)]
pub struct Declared {
    /// The id of the node that is its scope; 0 for a file.
    pub scope: u64,
    /// The number of its parameters.
    pub parameters: u32,
    pub is_file: bool,
    /// Its own name, without that of its scope.
    pub name: String,
    /// Its name without its file's.
    pub path: String,
}

/// The nodes of a request by their ids.
#[derive(Drop)]
pub struct Scopes {
    nodes: HashMap<u64, Declared>,
}

impl Scopes {
    ghost use Rattle.std.specs.Prelude.{◌≡◌, ◌==◌, ℕ, Some, None, if◌then◌else◌, option_copied, IfOk};
    ghost use Rattle.capnp_relay_bindings.specs.Scopes.{declared_at, scopes_around};

    /// Makes an empty set of nodes.
    pub fn new(alloc: Global) -> Scopes
        ensures { (id : ℕ) → declared_at result id ≡ None }
    {
        Scopes {
            nodes: HashMap::new(alloc),
        }
    }

    /// Stores a node at its id.
    pub fn declare(&mut self, id: u64, node: Declared) -> Result<(), AllocError>
        ensures { IfOk result (λ _. (q : ℕ) → declared_at self.new q
            ≡ (if id == q then Some node else declared_at self.old q)) }
    {
        self.nodes.insert(id, node)?;
        Ok(())
    }

    /// Returns the node of an id.
    pub fn get(&self, id: u64) -> Option<&Declared>
        ensures { option_copied result ≡ declared_at self.now id }
    {
        self.nodes.get(&id)
    }

    /// Returns the node of an id and the scopes around it, the innermost first, without the file: at
    /// most 64.
    pub fn around(&self, alloc: Global, id: u64) -> Result<Vec<u64>, AllocError>
        ensures { IfOk result (λ scopes. scopes.items
            ≡ scopes_around 64 (declared_at self.now) id) }
    {
        let mut scopes = Vec::new(alloc);
        let mut at = id;
        let mut left = MOST_SCOPES;
        while left > 0 {
            let Some(node) = self.get(at) else {
                return Ok(scopes);
            };
            if node.is_file {
                return Ok(scopes);
            }
            scopes.push(at)?;
            at = node.scope;
            left -= 1;
        }
        Ok(scopes)
    }
}
