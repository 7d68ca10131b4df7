//! Segments on the heap.
ghost use Rattle.std.specs.Prelude.{◌≡◌, ◌*◌, ◌≤◌, [], length, replicate, IfOk, IfErr, OnOk, OnErr};
ghost use Rattle.capnp_copy_arenas.specs.Memory.{AllZero};
ghost use Rattle.capnp_message_allocators.specs.Growth.{grown, suggested_growth, words_handed};
ghost use Rattle.capnp_units.specs.declared.kinds.ErrorKind.TheVariants.{OutOfMemory};

use crate::growth::{AllocationStrategy, Growth};
use capnp_copy_arenas::allocator::Allocator;
use capnp_units::errors::Result;
use std::alloc::Global;

/// Returns n zero bytes.
pub(crate) fn zeros(alloc: Global, bytes: usize) -> Result<Vec<u8>>
    ensures bytes { IfOk result (λ v. v.items ≡ replicate bytes 0) }
    ensures kind { IfErr result (λ e. e.kind ≡ OutOfMemory) }
{
    let all = vec![in alloc; 0u8; bytes]?;
    Ok(all)
}

/// Takes each segment from the heap: of 1024 words at first, then of about as many as all earlier
/// segments have. If more words are requested, the segment has those.
///
/// A segment is only refused with `OutOfMemory`, if the heap refuses its bytes.
#[derive(Drop)]
pub struct HeapAllocator {
    alloc: Global,
    pub(crate) growth: Growth,
}

impl HeapAllocator {
    /// Makes an allocator with the suggested sizes.
    pub fn new(alloc: Global) -> HeapAllocator
        ensures { result.growth ≡ suggested_growth }
    {
        HeapAllocator {
            alloc,
            growth: Growth::new(),
        }
    }

    /// Returns the allocator with n words in the first segment.
    pub fn first_segment_words(mut self, value: u32) -> HeapAllocator
        ensures { result.growth ≡ record self.growth { first = value; next = value } }
    {
        self.growth.start_with(value);
        self
    }

    /// Returns the allocator with this strategy of sizes.
    pub fn allocation_strategy(mut self, value: AllocationStrategy) -> HeapAllocator
        ensures { result.growth ≡ record self.growth { strategy = value } }
    {
        self.growth.strategy = value;
        self
    }

    /// Returns the allocator with at most n words in a segment, unless more are requested at once.
    pub fn max_segment_words(mut self, value: u32) -> HeapAllocator
        ensures { result.growth ≡ record self.growth { most = value } }
    {
        self.growth.most = value;
        self
    }
}

impl Allocator for HeapAllocator {
    type Segment = Vec<u8>;

    ghost loans = { λ _. [] };

    ghost place = { λ _. [] };

    ghost refuses = { λ _ _ kind. kind ≡ OutOfMemory };

    fn allocate_segment(&mut self, minimum: u32) -> Result<Vec<u8>>
        ensures zeros { IfOk result (λ v. AllZero v.items) }
        ensures room { IfOk result (λ v. 8 * minimum ≤ length v.items) }
        ensures words { IfOk result
            (λ v. length v.items ≡ 8 * words_handed self.old.growth minimum) }
        ensures refusal { IfErr result (λ e. e.kind ≡ OutOfMemory) }
        ensures grown { OnOk result
            (self.new.growth ≡ grown self.old.growth (words_handed self.old.growth minimum)) }
        ensures kept { OnErr result (self.new.growth ≡ self.old.growth) }
    {
        let words = self.growth.words_for(minimum);
        let bytes = zeros(self.alloc, 8 * words as usize)?;
        self.growth.grow(words);
        Ok(bytes)
    }

    fn deallocate_segment(&mut self, segment: Vec<u8>, _words_used: u32)
        ensures { self.new.growth ≡ record self.old.growth { next = self.old.growth.first } }
    {
        drop(segment);
        self.growth.restart();
    }
}
