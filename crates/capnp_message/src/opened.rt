//! Messages that continue in an allocator's memory, which holds words already.
ghost use Rattle.std.specs.Prelude.{◌≡◌, ◌≤◌, ◌++◌, [], length, IfErr, OnOk, OnErr};
ghost use Rattle.std.specs.List.{flat_map};
ghost use Rattle.capnp_units.specs.declared.kinds.ErrorKind.TheVariants.{OutOfMemory};
ghost use Rattle.capnp_message.specs.Built.{opened_words, words_held, place_held, loans_held};

use crate::builder::Builder;
use capnp_copy_arenas::allocator::{Allocator, SegmentBytes};
use capnp_message_allocators::opening::OpensSegment;
use capnp_units::errors::Result;

impl<A: OpensSegment> Builder<A> {
    /// Takes the words that the allocator was opened with as the only segment of a message that has
    /// no segment yet, in place. Later values are built after them. The allocator has at most one
    /// lent slice. If it holds no words, there is still no segment.
    ///
    /// `OutOfMemory`: the list of segments can't grow; then there is still no segment, and the
    /// words were returned to the allocator, which makes them zero.
    pub fn open(&mut self) -> Result<()>
        requires empty { self.old.memory.arena.segments.items ≡ [] }
        requires one { length (A.loans self.old.memory.arena.allocator) ≤ 1 }
        ensures words { OnOk result (words_held self.new.memory.arena
            ≡ opened_words (A.opened self.old.memory.arena.allocator)) }
        ensures refused { OnErr result (self.new.memory.arena.segments.items ≡ []) }
        ensures kind { IfErr result (λ e. e.kind ≡ OutOfMemory) }
        ensures place { place_held self.new.memory.arena ≡ place_held self.old.memory.arena }
        ensures loans { loans_held self.new.memory.arena ≡ A.loans self.old.memory.arena.allocator }
    {
        match self.memory.arena.allocator.take_opened() {
            Some((segment, used)) => self.hold_segment(segment, used),
            None => Ok(()),
        }
    }
}
