//! Whether all nodes of a schema keep the rules.

ghost use Rattle.std.specs.Prelude.{IfOk, IsTrue};
ghost use Rattle.capnp_source_rules.specs.Nodes.{AreGoodNodes};

use crate::groups::are_good_groups;
use crate::rules::keep_rules;
use capnp_source_nodes::nodes::Node;
use std::alloc::{AllocError, Global};

/// Whether nodes keep the rules of single nodes and those of groups.
pub fn are_good_nodes(alloc: Global, nodes: &[Node]) -> Result<bool, AllocError>
    ensures { IfOk result (λ b. IsTrue b → AreGoodNodes nodes.now) }
{
    if !keep_rules(nodes) {
        return Ok(false);
    }
    are_good_groups(alloc, nodes)
}
