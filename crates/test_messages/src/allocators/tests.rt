//! Slices that are lent with words in them, and return all zeros.
ghost use Rattle.std.specs.Prelude.{◌≡◌, ◌*◌, ◌^◌, ◌<◌, ◌≤◌, length};
ghost use Rattle.capnp_copy_arenas.specs.Memory.{AllZero};

use capnp_copy_arenas::allocator::{Allocator, SegmentBytes};
use capnp_message_allocators::growth::AllocationStrategy;
use capnp_message_allocators::heap::HeapAllocator;
use capnp_message_allocators::opening::OpensSegment;
use capnp_message_allocators::scratch::ScratchSpaceHeapAllocator;
use capnp_message_allocators::segment::Segment;
use capnp_units::errors::Result;
use std::alloc::Global;
use std::test::Fail;

/// Returns a view of the segment that an allocator was opened with, which is written and returned.
fn written<L: OpensSegment>(allocator: &mut L) -> Option<(usize, u32, u8)>
    requires { length (L.loans allocator.old) ≤ 1 }
    ensures loans { L.loans allocator.new ≡ L.loans allocator.old }
    ensures place { L.place allocator.new ≡ L.place allocator.old }
{
    match allocator.take_opened() {
        None => None,
        Some((mut segment, used)) => {
            let bytes = segment.as_bytes();
            let seen = (bytes.len(), used, bytes.first().copied().unwrap_or(0));
            segment.write(0, &[7]);
            allocator.deallocate_segment(segment, used);
            Some(seen)
        }
    }
}

/// Does this over a slice whose first n words are used; it returns all zeros.
fn written_in(alloc: Global, region: &mut [u8], used: u32) -> Option<(usize, u32, u8)>
    requires inside { 8 * used ≤ length region.old }
    requires few { used < 2 ^ 29 }
    ensures { AllZero region.new }
{
    let mut scratch = ScratchSpaceHeapAllocator::open(alloc, region, used);
    let seen = written(&mut scratch);
    let again = written(&mut scratch);
    if again.is_some() { None } else { seen }
}

/// Checks that an allocator that hands nothing out leaves its slice all zeros.
fn only_opened(alloc: Global, region: &mut [u8], used: u32) -> bool
    requires inside { 8 * used ≤ length region.old }
    requires few { used < 2 ^ 29 }
    ensures { AllZero region.new }
{
    let scratch = ScratchSpaceHeapAllocator::open(alloc, region, used);
    scratch.taken
}

fn is_zero(bytes: &[u8]) -> bool {
    bytes.iter().all(|byte| *byte == 0)
}

#[test]
fn a_slice_is_opened_with_its_words(rt: HostRuntime) -> std::result::Result<(), Fail> {
    let mut bytes = [5u8; 23];
    assert!(rt; written_in(rt.alloc(), &mut bytes, 2) == Some((23, 2, 5)));
    assert!(rt; is_zero(&bytes));
    let mut bytes = [5u8; 23];
    assert!(rt; written_in(rt.alloc(), &mut bytes, 0) == None);
    assert!(rt; is_zero(&bytes));
    let mut bytes = [5u8; 23];
    assert!(rt; !only_opened(rt.alloc(), &mut bytes, 2));
    assert!(rt; is_zero(&bytes));
    Ok(())
}

/// Returns the numbers of bytes of a heap's segments for requests of n words, one after the other.
/// They have at most four words if no more are requested at once.
fn most_of_four(alloc: Global, asked: [u32; 3]) -> Result<[usize; 3]> {
    let mut heap = HeapAllocator::new(alloc)
        .first_segment_words(3)
        .max_segment_words(4);
    let mut sizes = [0; 3];
    for (size, words) in sizes.iter_mut().zip(asked) {
        *size = heap.allocate_segment(words)?.len();
    }
    Ok(sizes)
}

#[test]
fn more_words_than_a_segments_most_are_handed_out(
    rt: HostRuntime,
) -> std::result::Result<(), Fail> {
    assert!(rt; most_of_four(rt.alloc(), [1, 1, 5])? == [24, 32, 40]);
    assert!(rt; most_of_four(rt.alloc(), [5, 0x2_0000, 1])? == [40, 0x10_0000, 32]);
    Ok(())
}
