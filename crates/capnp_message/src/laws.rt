//! Laws of all messages.
ghost use Rattle.std.specs.Prelude.{ℕ, suc, ◌<◌, [], length};
ghost use Rattle.capnp_model.specs.Segments.{Segments, root};
ghost use Rattle.capnp_model.specs.Trees.{Tree, null};
ghost use Rattle.capnp_model_writes.specs.Footprints.{Owns};
ghost use Rattle.capnp_copy_arenas.specs.Values.{Becomes};
ghost use Rattle.capnp_stream.specs.Writing.{AreWritable};
ghost use Rattle.capnp_message.specs.Built.{used_bytes, rooted};

use crate::builder::Builder;
use capnp_copy_arenas::allocator::{Allocator, SegmentBytes};

/// The used words of a builder's segments can be written, if it has a segment.
pub fn built_segments_can_be_written<A: Allocator>(message: &Builder<A>)
    requires { 0 < length message.now.memory.arena.segments.items }
    ensures { AreWritable (used_bytes (λ h. h.used) (λ h. A.Segment.bytes h.segment)
        message.now.memory.arena.segments.items) }
{}

/// The root of a message that is built. If there is no segment, the root is null, and once it is
/// set it is the value that it was set to. No word of it is taken twice.
pub fn roots_that_are_built()
    ensures null { (n : ℕ) → Owns n (rooted []) root null }
    ensures set { (n : ℕ) (s u : Segments) (t v : Tree) → Owns n s root t
        → Becomes s u root v → Owns (suc n) u root v }
{}
