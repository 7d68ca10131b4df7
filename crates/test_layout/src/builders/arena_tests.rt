//! Segments that an arena takes on demand.

use crate::builders::support::exact_segments;
use capnp_copy_arenas::arena::BuilderArena;
use capnp_copy_arenas::segments::BuilderArenaImpl;
use capnp_message_allocators::heap::HeapAllocator;
use capnp_units::errors::Error;
use capnp_units::kinds::ErrorKind;
use capnp_wire_objects::arena::ReaderArena;
use std::test::Fail;

/// Allocates words in a segment of 300 words, the only one of the allocator: in the segment,
/// anywhere, after its end, and in a segment that doesn't exist.
#[test]
fn room_in_a_segment_is_used(rt: HostRuntime) -> Result<(), Fail> {
    let mut arena = BuilderArenaImpl::new(rt.alloc(), exact_segments(rt.alloc(), 1));
    let added = arena.allocate_segment(300);
    let first = arena.allocate(0, 200);
    let second = arena.allocate_anywhere(99);
    let third = arena.allocate(0, 1);
    let full = arena.allocate(0, 1);
    let elsewhere = arena.allocate(1, 1);
    let refused = arena.allocate_anywhere(1);
    let words = arena.size_in_words();
    let segments = arena.len();
    let allocator = arena.into_allocator();
    added?;
    assert!(rt; (first, second?, third) == (Some(0), (0, 200), Some(299)));
    assert!(rt; (full, elsewhere) == (None, None));
    assert!(rt; refused.err() == Some(Error::from(ErrorKind::OutOfMemory)));
    assert!(rt; (words, segments, allocator.left) == (300, 1, 0));
    Ok(())
}

/// Takes segments of one word and of three one after the other, and returns them.
#[test]
fn segments_are_taken_on_demand(rt: HostRuntime) -> Result<(), Fail> {
    let mut arena = BuilderArenaImpl::new(rt.alloc(), exact_segments(rt.alloc(), 3));
    let first = arena.allocate_anywhere(1);
    let second = arena.allocate_anywhere(3);
    let words = arena.size_in_words();
    let lengths = match arena.get_segments_for_output(rt.alloc()) {
        Ok(all) => (
            all.len(),
            all.first().map(|bytes| bytes.len()),
            all.last().map(|bytes| bytes.len()),
        ),
        Err(_) => (0, None, None),
    };
    let left = arena.into_allocator().left;
    assert!(rt; (first?, second?) == ((0, 0), (1, 0)));
    assert!(rt; lengths == (2, Some(8), Some(24)));
    assert!(rt; (words, left) == (4, 1));
    Ok(())
}

/// Checks the requests to an allocator that has nothing: the greatest first segment, and the
/// segment of the most words of a message; for more words it isn't asked. An allocator on the heap
/// cuts the greatest first segment to the most that is set.
#[test]
fn the_greatest_segments_are_asked_for(rt: HostRuntime) -> Result<(), Fail> {
    let none = Some(Error::from(ErrorKind::OutOfMemory));
    let mut arena = BuilderArenaImpl::new(rt.alloc(), exact_segments(rt.alloc(), 0));
    let first = arena.allocate_segment(u32::MAX);
    let asked = arena.allocator.asked;
    let most = arena.allocate_anywhere(0x1fff_ffff);
    let asked_then = arena.allocator.asked;
    let more = arena.allocate_anywhere(0x2000_0000);
    let asked_last = arena.allocator.asked;
    let segments = arena.len();
    drop(arena.into_allocator());
    assert!(rt; (first.err(), asked) == (none, u32::MAX));
    assert!(rt; (most.err(), asked_then) == (none, 0x1fff_ffff));
    assert!(rt; more.err() == Some(Error::from(ErrorKind::SizeOverflow)));
    assert!(rt; (asked_last, segments) == (0x1fff_ffff, 0));
    let heap = HeapAllocator::new(rt.alloc())
        .first_segment_words(u32::MAX)
        .max_segment_words(16);
    let mut arena = BuilderArenaImpl::new(rt.alloc(), heap);
    let first = arena.allocate_anywhere(3);
    let second = arena.allocate_anywhere(16);
    let third = arena.allocate(0, 13);
    let full = arena.allocate(1, 1);
    drop(arena.into_allocator());
    assert!(rt; (first?, second?) == ((0, 0), (1, 0)));
    assert!(rt; (third, full) == (Some(3), None));
    Ok(())
}
