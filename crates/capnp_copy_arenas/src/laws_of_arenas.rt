//! Laws of arenas, each the contract of a function that does nothing.
ghost use Rattle.capnp_copy_arenas.specs.Deep.{IsDeep};

use crate::allocator::Allocator;
use crate::segments::BuilderArenaImpl;
use capnp_wire_objects::arena::ReaderArena;

/// Every builder's arena has fewer than 2^29 words, and pointers in it are followed as deep as
/// those words allow.
pub fn arenas_are_deep<L: Allocator>()
    ensures { IsDeep ⟦<BuilderArenaImpl<L> as ReaderArena>⟧.segments
        ⟦<BuilderArenaImpl<L> as ReaderArena>⟧.nesting }
{}
