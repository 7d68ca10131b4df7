//! A lent slice as the only segment.
ghost use Rattle.std.specs.Prelude.{◌≡◌, ◌≢◌, ◌*◌, ◌≤◌, ◌++◌, ◌∷◌, ◌↔◌, [], false, length, IsOk, IfOk, IfErr, OnErr};
ghost use Rattle.capnp_units.specs.declared.kinds.ErrorKind.TheVariants.{BufferNotLargeEnough, SizeOverflow};
ghost use Rattle.capnp_copy_arenas.specs.Memory.{AllZero};
ghost use Rattle.capnp_message_allocators.specs.Loans.{loans_of};
ghost use Rattle.capnp_message_allocators.specs.Segments.{bytes_of, loans_of_segment};

use crate::segment::{Segment, wipe};
use capnp_copy_arenas::allocator::Allocator;
use capnp_units::errors::{Error, Result};
use capnp_units::kinds::ErrorKind;
use std::mem;

/// Hands out a lent slice as the only segment. The slice is all zeros whenever the allocator has
/// it.
///
/// A second segment, or a segment of more words than the slice has, is refused with
/// `BufferNotLargeEnough`.
#[derive(Drop)]
pub struct SingleSegmentAllocator<'a> {
    pub region: &'a mut [u8],
    pub taken: bool,
    ghost clean: { AllZero region.now },
}

impl<'a> SingleSegmentAllocator<'a> {
    /// Makes an allocator that uses the whole words of this slice, and makes all bytes of the slice
    /// zero.
    pub fn new(segment: &'a mut [u8]) -> SingleSegmentAllocator<'a>
        ensures same { result.region.ghost_name ≡ segment.entry.ghost_name }
        ensures home { result.taken ≡ false }
        ensures kept { length result.region.now ≡ length segment.old }
    {
        segment.fill(0);
        SingleSegmentAllocator {
            region: segment,
            taken: false,
        }
    }
}

impl<'a> Allocator for SingleSegmentAllocator<'a> {
    ghost use Rattle.capnp_message_allocators.specs.Single.{single_refuses};

    type Segment = Segment<'a>;

    ghost loans = { λ s. loans_of s.taken s.region.ghost_name };

    ghost place = { λ _. [] };

    ghost refuses = { single_refuses };

    fn allocate_segment(&mut self, minimum: u32) -> Result<Segment<'a>>
        ensures zeros { IfOk result (λ s. AllZero (bytes_of s)) }
        ensures room { IfOk result (λ s. 8 * minimum ≤ length (bytes_of s)) }
        ensures moved { IfOk result (λ s. loans_of self.old.taken self.old.region.ghost_name
            ≡ loans_of_segment s ++ loans_of self.new.taken self.new.region.ghost_name) }
        ensures kept { OnErr result (loans_of self.new.taken self.new.region.ghost_name
            ≡ loans_of self.old.taken self.old.region.ghost_name) }
        ensures refusal { IfErr result (λ e. e.kind ≡ BufferNotLargeEnough) }
        ensures other { IfErr result (λ e. e.kind ≢ SizeOverflow) }
        ensures cause { IfErr result (λ e. single_refuses self.old minimum e.kind) }
        ensures lent { IfOk result (λ s. loans_of_segment s ≡ self.old.region.ghost_name ∷ []) }
        ensures there { IsOk result
            ↔ ((self.old.taken ≡ false) × (8 * minimum ≤ length self.old.region.now)) }
    {
        let whole = &mut *self;
        if whole.taken || 8 * minimum as usize > whole.region.len() {
            return Err(Error::from(ErrorKind::BufferNotLargeEnough));
        }
        whole.taken = true;
        let slice = mem::take(&mut whole.region);
        Ok(Segment::Lent(slice))
    }

    fn deallocate_segment(&mut self, segment: Segment<'a>, words_used: u32) {
        match segment {
            Segment::Lent(slice) => {
                wipe(slice, words_used);
                self.region = slice;
                self.taken = false;
            }
            Segment::Owned(bytes) => drop(bytes),
        }
    }
}
