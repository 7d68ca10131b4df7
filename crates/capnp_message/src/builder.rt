//! Whole messages that are built.
ghost use Rattle.std.specs.Prelude.{◌≡◌, ◌≢◌, ◌-◌, ◌*◌, ◌^◌, ◌<◌, ◌≤◌, ◌++◌, ◌∷◌, [], length, map, min, take, IfOk, IfErr, OnOk, OnErr};
ghost use Rattle.std.specs.List.{flat_map};
ghost use Rattle.capnp_units.specs.declared.kinds.ErrorKind.TheVariants.{OutOfMemory, SizeOverflow};
ghost use Rattle.capnp_wire_objects.specs.Arenas.{words_before};
ghost use Rattle.capnp_copy_arenas.specs.Refusals.{arena_refuses};
ghost use Rattle.capnp_message.specs.Built.{used_bytes, words_held, place_held, loans_held};
ghost use Rattle.capnp_message_allocators.specs.Growth.{suggested_growth};

use capnp_copy_arenas::allocator::{Allocator, SegmentBytes};
use capnp_copy_arenas::arena::{BuilderArena, Memory};
use capnp_copy_arenas::segments::BuilderArenaImpl;
use capnp_message_allocators::heap::HeapAllocator;
use capnp_units::errors::Result;
use capnp_units::segments::ReaderSegments;
use capnp_units::sizes::SegmentId;
use capnp_wire_objects::arena::ReaderArena;
use std::alloc::Global;

/// A message that is built, over the segments of an allocator. Handles of its values hold `&mut
/// builder.memory`.
///
/// It must not be dropped: it ends by `into_allocator`, which returns every segment to the
/// allocator.
pub struct Builder<A: Allocator> {
    pub memory: Memory<BuilderArenaImpl<A>>,
}

impl<A: Allocator> Builder<A> {
    /// Makes a message without segments. Memory for the list of segments comes from `alloc`, their
    /// bytes come from the allocator.
    pub fn new(alloc: Global, allocator: A) -> Builder<A>
        ensures allocator { result.memory.arena.allocator ≡ allocator }
        ensures empty { result.memory.arena.segments.items ≡ [] }
    {
        Builder {
            memory: Memory {
                arena: BuilderArenaImpl::new(alloc, allocator),
            },
        }
    }

    /// Makes the root pointer, which is null, if the message has no segment yet.
    ///
    /// If there is no segment, it is refused with the allocator's error, or with `OutOfMemory` if
    /// the list of segments can't grow. Then there is still no segment.
    pub fn allocate_root(&mut self) -> Result<()>
        ensures made { OnOk result (self.old.memory.arena.segments.items ≡ []
            → words_held self.new.memory.arena ≡ (0 ∷ []) ∷ []) }
        ensures had { OnOk result (0 < length self.old.memory.arena.segments.items
            → self.new.memory.arena.segments.items ≡ self.old.memory.arena.segments.items) }
        ensures refused { OnErr result (words_held self.new.memory.arena
            ≡ words_held self.old.memory.arena) }
        ensures there { OnErr result (self.old.memory.arena.segments.items ≡ []) }
        ensures kind { IfErr result (λ e. e.kind ≢ SizeOverflow) }
        ensures cause { IfErr result (λ e. arena_refuses self.old.memory.arena 1 e.kind) }
        ensures place { place_held self.new.memory.arena ≡ place_held self.old.memory.arena }
        ensures loans { loans_held self.new.memory.arena ≡ loans_held self.old.memory.arena }
    {
        if self.memory.arena.len() == 0 {
            return match self.memory.arena.allocate_anywhere(1) {
                Ok(_) => Ok(()),
                Err(e) => Err(e),
            };
        }
        Ok(())
    }

    /// Returns the used bytes of each segment, in order. `alloc` provides memory only for the list.
    /// `OutOfMemory`: it was refused.
    pub fn get_segments_for_output(&self, alloc: Global) -> Result<Vec<&[u8]>>
        ensures segments { IfOk result (λ v. map (λ bytes. bytes.now) v.items
            ≡ used_bytes (λ h. h.used) (λ h. A.Segment.bytes h.segment)
            self.now.memory.arena.segments.items) }
        ensures kind { IfErr result (λ e. e.kind ≡ OutOfMemory) }
    {
        self.memory.arena.get_segments_for_output(alloc)
    }

    /// Returns the number of used words of all segments.
    pub fn size_in_words(&self) -> usize
        ensures { result ≡ min
            (words_before (map (λ h. take (8 * h.used) (A.Segment.bytes h.segment))
            self.now.memory.arena.segments.items)
            (min (length self.now.memory.arena.segments.items) (2 ^ 32))) (2 ^ 64 - 1) }
    {
        self.memory.arena.size_in_words()
    }

    /// Returns the allocator, after every segment was returned to it. The segments and the
    /// allocator together have at most one lent slice.
    pub fn into_allocator(self) -> A
        requires { length (loans_held self.memory.arena) ≤ 1 }
        ensures place { A.place result ≡ A.place self.memory.arena.allocator }
        ensures loans { A.loans result ≡ loans_held self.memory.arena }
    {
        let Builder { memory } = self;
        let Memory { arena } = memory;
        arena.into_allocator()
    }
}

impl Builder<HeapAllocator> {
    /// Makes a message on the heap, with the suggested sizes of segments.
    pub fn new_default(alloc: Global) -> Builder<HeapAllocator>
        ensures empty { result.memory.arena.segments.items ≡ [] }
        ensures growth { result.memory.arena.allocator.growth ≡ suggested_growth }
    {
        Builder::new(alloc, HeapAllocator::new(alloc))
    }
}

/// The segments are the used bytes of each segment.
impl<A: Allocator> ReaderSegments for Builder<A> {
    ghost segments = { λ b. map (λ h. take (8 * h.used) (A.Segment.bytes h.segment))
        b.memory.arena.segments.items };

    fn get_segment(&self, id: SegmentId) -> Option<&[u8]> {
        self.memory.arena.get_segment(id)
    }

    fn len(&self) -> usize {
        self.memory.arena.len()
    }
}
