//! A lent slice as the first segment, and the heap for the others.
ghost use Rattle.std.specs.Prelude.{◌≡◌, ◌≢◌, ◌+◌, ◌*◌, ◌^◌, ◌<◌, ◌≤◌, ◌++◌, [], false, length, take, IfOk, IfErr, OnErr, OnSome, IfSome, IfNone};
ghost use Rattle.capnp_units.specs.declared.kinds.ErrorKind.TheVariants.{OutOfMemory, SizeOverflow};
ghost use Rattle.capnp_copy_arenas.specs.Memory.{AllZero, ZeroFrom};
ghost use Rattle.capnp_message_allocators.specs.Growth.{GrowsBy, RestartsBy, suggested_growth};
ghost use Rattle.capnp_message_allocators.specs.Segments.{bytes_of, loans_of_segment};

use crate::growth::AllocationStrategy;
use crate::heap::HeapAllocator;
use crate::opening::OpensSegment;
use crate::segment::{Segment, wipe};
use capnp_copy_arenas::allocator::Allocator;
use capnp_units::errors::Result;
use std::alloc::Global;
use std::mem;

/// Hands out a lent slice as a segment, and segments from the heap if the slice is handed out or
/// too short. The first words of the slice may be used already: those that it was opened with.
/// Whenever the allocator has the slice, the later words are all zeros. When the allocator is
/// dropped, the whole slice is all zeros.
///
/// A segment from the heap is only refused with `OutOfMemory`.
pub struct ScratchSpaceHeapAllocator<'a> {
    pub region: &'a mut [u8],
    pub taken: bool,
    pub used: u32,
    heap: HeapAllocator,
    ghost rest: { ZeroFrom (8 * used) region.now },
    ghost inside: { taken ≡ false → 8 * used ≤ length region.now },
    ghost few: { used < 2 ^ 29 },
}

impl<'a> ScratchSpaceHeapAllocator<'a> {
    /// Makes an allocator that uses the whole words of this slice, and makes all bytes of the slice
    /// zero. Other segments come from `alloc`, with the suggested sizes.
    pub fn new(alloc: Global, scratch_space: &'a mut [u8]) -> ScratchSpaceHeapAllocator<'a>
        ensures same { result.region.ghost_name ≡ scratch_space.entry.ghost_name }
        ensures home { (result.taken ≡ false) × (result.used ≡ 0) }
        ensures kept { length result.region.now ≡ length scratch_space.old }
        ensures growth { result.heap.growth ≡ suggested_growth }
    {
        scratch_space.fill(0);
        ScratchSpaceHeapAllocator {
            region: scratch_space,
            taken: false,
            used: 0,
            heap: HeapAllocator::new(alloc),
        }
    }

    /// Makes an allocator over a slice that is all zeros already, as it is when an earlier
    /// allocator ended; none of its bytes is written. Other segments come from `alloc`, with the
    /// suggested sizes.
    pub fn resume(alloc: Global, scratch_space: &'a mut [u8]) -> ScratchSpaceHeapAllocator<'a>
        requires zeros { AllZero scratch_space.old }
        ensures same { result.region.ghost_name ≡ scratch_space.entry.ghost_name }
        ensures home { (result.taken ≡ false) × (result.used ≡ 0) }
        ensures kept { result.region.now ≡ scratch_space.old }
        ensures growth { result.heap.growth ≡ suggested_growth }
    {
        ScratchSpaceHeapAllocator {
            region: scratch_space,
            taken: false,
            used: 0,
            heap: HeapAllocator::new(alloc),
        }
    }

    /// Makes an allocator over a slice whose first words are used already, such as the words of a
    /// message that goes on. All later bytes are made zero. Other segments come from `alloc`, with
    /// the suggested sizes.
    pub fn open(
        alloc: Global,
        scratch_space: &'a mut [u8],
        used: u32,
    ) -> ScratchSpaceHeapAllocator<'a>
        requires inside { 8 * used ≤ length scratch_space.old }
        requires few { used < 2 ^ 29 }
        ensures same { result.region.ghost_name ≡ scratch_space.entry.ghost_name }
        ensures home { (result.taken ≡ false) × (result.used ≡ used) }
        ensures kept { length result.region.now ≡ length scratch_space.old }
        ensures words { take (8 * used) result.region.now ≡ take (8 * used) scratch_space.old }
        ensures growth { result.heap.growth ≡ suggested_growth }
    {
        scratch_space[8 * used as usize..].fill(0);
        ScratchSpaceHeapAllocator {
            region: scratch_space,
            taken: false,
            used,
            heap: HeapAllocator::new(alloc),
        }
    }

    /// Sets the number of words of the first segment from the heap, unless more are requested.
    pub fn second_segment_words(&mut self, value: u32)
        ensures kept { (self.new.region ≡ self.old.region) × (self.new.taken ≡ self.old.taken)
            × (self.new.used ≡ self.old.used) }
        ensures set { self.new.heap.growth
            ≡ record self.old.heap.growth { first = value; next = value } }
    {
        self.heap.growth.start_with(value);
    }

    /// Sets the strategy of sizes of segments from the heap.
    pub fn allocation_strategy(&mut self, value: AllocationStrategy)
        ensures kept { (self.new.region ≡ self.old.region) × (self.new.taken ≡ self.old.taken)
            × (self.new.used ≡ self.old.used) }
        ensures set { self.new.heap.growth ≡ record self.old.heap.growth { strategy = value } }
    {
        self.heap.growth.strategy = value;
    }
}

/// Makes the slice all zeros again.
impl Drop for ScratchSpaceHeapAllocator<'_> {
    fn drop(self)
        ensures { AllZero self.exit.0.now }
    {
        let ScratchSpaceHeapAllocator {
            region,
            taken: _,
            used,
            heap: _,
        } = self;
        wipe(region, used);
    }
}

impl<'a> Allocator for ScratchSpaceHeapAllocator<'a> {
    ghost use Rattle.capnp_message_allocators.specs.Scratch.{LendsFirst, scratch_loans, scratch_opened, scratch_refuses};

    type Segment = Segment<'a>;

    ghost loans = { scratch_loans };

    ghost place = { λ _. [] };

    ghost refuses = { scratch_refuses };

    fn allocate_segment(&mut self, minimum: u32) -> Result<Segment<'a>>
        ensures zeros { IfOk result (λ s. AllZero (bytes_of s)) }
        ensures room { IfOk result (λ s. 8 * minimum ≤ length (bytes_of s)) }
        ensures moved { IfOk result (λ s. scratch_loans self.old
            ≡ loans_of_segment s ++ scratch_loans self.new) }
        ensures kept { OnErr result (scratch_loans self.new ≡ scratch_loans self.old) }
        ensures opened { scratch_opened self.new ≡ scratch_opened self.old }
        ensures refusal { IfErr result (λ e. e.kind ≡ OutOfMemory) }
        ensures other { IfErr result (λ e. e.kind ≢ SizeOverflow) }
        ensures cause { IfErr result (λ e. scratch_refuses self.old minimum e.kind) }
        ensures lent { LendsFirst self.old minimum result }
        ensures growth { IfOk result (GrowsBy self.old.heap.growth self.new.heap.growth minimum) }
        ensures same { OnErr result (self.new.heap.growth ≡ self.old.heap.growth) }
    {
        let whole = &mut *self;
        if !whole.taken && whole.used == 0 && 8 * minimum as usize <= whole.region.len() {
            whole.taken = true;
            let slice = mem::take(&mut whole.region);
            return Ok(Segment::Lent(slice));
        }
        Ok(Segment::Owned(whole.heap.allocate_segment(minimum)?))
    }

    fn deallocate_segment(&mut self, segment: Segment<'a>, words_used: u32)
        requires one { length (loans_of_segment segment) + length (scratch_loans self.old) ≤ 1 }
        requires rest { ZeroFrom (8 * words_used) (bytes_of segment) }
        ensures moved { scratch_loans self.new
            ≡ loans_of_segment segment.entry ++ scratch_loans self.old }
        ensures opened { scratch_opened self.new ≡ scratch_opened self.old }
        ensures growth { RestartsBy self.old.heap.growth self.new.heap.growth segment.entry }
    {
        match segment {
            Segment::Lent(slice) => {
                wipe(slice, words_used);
                self.region = slice;
                self.used = 0;
                self.taken = false;
            }
            Segment::Owned(bytes) => self.heap.deallocate_segment(bytes, words_used),
        }
    }
}

impl<'a> OpensSegment for ScratchSpaceHeapAllocator<'a> {
    ghost use Rattle.capnp_message_allocators.specs.Scratch.{scratch_loans, scratch_opened};

    ghost opened = { scratch_opened };

    fn take_opened(&mut self) -> Option<(Segment<'a>, u32)>
        ensures words { IfSome result
            (λ p. take (8 * p.1) (bytes_of p.0) ≡ scratch_opened self.old) }
        ensures some { IfSome result (λ p. (0 < p.1) × (p.1 < 2 ^ 29)) }
        ensures inside { IfSome result (λ p. 8 * p.1 ≤ length (bytes_of p.0)) }
        ensures rest { IfSome result (λ p. ZeroFrom (8 * p.1) (bytes_of p.0)) }
        ensures moved { IfSome result (λ p. scratch_loans self.old
            ≡ loans_of_segment p.0 ++ scratch_loans self.new) }
        ensures once { OnSome result (scratch_opened self.new ≡ []) }
        ensures none { IfNone result (scratch_opened self.old ≡ []) }
        ensures kept { IfNone result (scratch_loans self.new ≡ scratch_loans self.old) }
        ensures growth { self.new.heap.growth ≡ self.old.heap.growth }
    {
        let whole = &mut *self;
        if whole.taken || whole.used == 0 {
            return None;
        }
        whole.taken = true;
        let slice = mem::take(&mut whole.region);
        let used = whole.used;
        whole.used = 0;
        Some((Segment::Lent(slice), used))
    }
}
