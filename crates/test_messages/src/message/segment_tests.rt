//! Messages of several segments, and roots that a refusal leaves, over each allocator.
ghost use Rattle.std.specs.Prelude.{◌≡◌, ◌≤◌, ◌++◌, length};
ghost use Rattle.std.specs.List.{flat_map};
ghost use Rattle.capnp_copy_arenas.specs.Memory.{AllZero};

use capnp_copy_arenas::allocator::{Allocator, SegmentBytes};
use capnp_copy_arenas::arena::{BuilderArena, Memory};
use capnp_copy_arenas::segments::BuilderArenaImpl;
use capnp_layout_builders::pointer_builder::PointerBuilder;
use capnp_message::laws::built_segments_can_be_written;
use capnp_message::message::{
    AllocationStrategy, Builder, DEFAULT_READER_OPTIONS, HeapAllocator, Reader, ReaderOptions,
    ReaderSegments, ScratchSpaceHeapAllocator, SegmentArray, SingleSegmentAllocator,
};
use capnp_message::serialize::{
    compute_serialized_size_in_words, read_message, write_message_to_words,
};
use capnp_text::text;
use capnp_units::errors::{Error, Result};
use capnp_units::kinds::ErrorKind;
use capnp_units::limiter::ReadLimiter;
use capnp_units::sizes::StructSize;
use capnp_wire::pointer::PointerReader;
use capnp_wire_objects::place::{Place, has_words};
use std::alloc::Global;
use std::test::Fail;

const ROOT: Place = Place {
    segment: 0,
    position: 0,
};

/// Segments of 1, 0 and 2 words: the root leads to the third, which has a pad before a struct of
/// one word.
const THREE: [u8; 40] = [
    2, 0, 0, 0, 1, 0, 0, 0, 0, 0, 0, 0, 2, 0, 0, 0, 2, 0, 0, 0, 2, 0, 0, 0, 0, 0, 0, 0, 1, 0, 0, 0,
    7, 0, 0, 0, 0, 0, 0, 0,
];

/// Makes the root a struct of one word, which is a number.
fn set_number<A: BuilderArena>(memory: &mut Memory<A>, number: u64) -> Result<()>
    ensures { A.books memory.new.arena ≡ A.books memory.old.arena }
{
    if !has_words(&memory.arena, ROOT, 1) {
        return Err(Error::from(ErrorKind::OutOfBounds));
    }
    let size = StructSize {
        data_words: 1,
        pointers: 0,
    };
    let mut record = PointerBuilder::get_root(memory).init_struct(size)?;
    let start = record.place.start;
    if !has_words(&record.memory.arena, start, 1) {
        return Err(Error::from(ErrorKind::OutOfBounds));
    }
    record.set_data_field::<u64>(0, number);
    Ok(())
}

/// Adds segments without a used word.
fn add_empty<L: Allocator>(arena: &mut BuilderArenaImpl<L>, count: u32) -> Result<()>
    ensures place { L.place arena.new.allocator ≡ L.place arena.old.allocator }
    ensures loans { flat_map (λ h. L.Segment.loans h.segment) arena.new.segments.items
        ++ L.loans arena.new.allocator
        ≡ flat_map (λ h. L.Segment.loans h.segment) arena.old.segments.items
        ++ L.loans arena.old.allocator }
{
    for _ in 0..count {
        arena.allocate_segment(0)?;
    }
    Ok(())
}

/// Returns the frame of a message and its reported number of words: n empty segments, and around
/// them the root and a number that it leads to, if any.
fn framed<L: Allocator>(
    alloc: Global,
    allocator: &mut L,
    empty: u32,
    number: Option<u64>,
) -> Result<(Vec<u8>, usize)>
    requires { length (L.loans allocator.old) ≤ 1 }
    ensures loans { L.loans allocator.new ≡ L.loans allocator.old }
    ensures place { L.place allocator.new ≡ L.place allocator.old }
{
    let mut builder = Builder::new(alloc, allocator);
    let begun = match number {
        Some(_) => builder.allocate_root(),
        None => Ok(()),
    };
    let added = match begun {
        Ok(()) => add_empty(&mut builder.memory.arena, empty),
        Err(e) => Err(e),
    };
    let done = match (added, number) {
        (Ok(()), Some(value)) => set_number(&mut builder.memory, value),
        (other, _) => other,
    };
    let seen = match done {
        Ok(()) => written(alloc, &builder),
        Err(e) => Err(e),
    };
    let _back = builder.into_allocator();
    seen
}

/// Returns the frame, and its reported number of words.
fn written<L: Allocator>(alloc: Global, builder: &Builder<L>) -> Result<(Vec<u8>, usize)> {
    if builder.memory.arena.len() == 0 {
        return Err(Error::from(ErrorKind::OutOfBounds));
    }
    built_segments_can_be_written(builder);
    let words = compute_serialized_size_in_words(builder);
    Ok((write_message_to_words(alloc, builder)?, words))
}

/// Does this over segments of the heap of n words.
fn over_heap(
    alloc: Global,
    words: u32,
    empty: u32,
    number: Option<u64>,
) -> Result<(Vec<u8>, usize)> {
    let mut heap = HeapAllocator::new(alloc)
        .first_segment_words(words)
        .allocation_strategy(AllocationStrategy::FixedSize);
    framed(alloc, &mut heap, empty, number)
}

/// Does this over a slice, which returns all zeros, and then such segments of the heap.
fn over_scratch(
    alloc: Global,
    region: &mut [u8],
    words: u32,
    empty: u32,
    number: Option<u64>,
) -> Result<(Vec<u8>, usize)>
    ensures { AllZero region.new }
{
    let mut scratch = ScratchSpaceHeapAllocator::new(alloc, region);
    scratch.second_segment_words(words);
    scratch.allocation_strategy(AllocationStrategy::FixedSize);
    framed(alloc, &mut scratch, empty, number)
}

/// Does this only over a slice, which returns all zeros.
fn over_slice(
    alloc: Global,
    region: &mut [u8],
    empty: u32,
    number: Option<u64>,
) -> Result<(Vec<u8>, usize)>
    ensures { AllZero region.new }
{
    let mut single = SingleSegmentAllocator::new(region);
    framed(alloc, &mut single, empty, number)
}

/// A slice by itself has no second segment, so the number follows the root.
#[test]
fn an_empty_segment_stands_between_two(rt: HostRuntime) -> std::result::Result<(), Fail> {
    let alloc = rt.alloc();
    let (heap, words) = over_heap(alloc, 1, 1, Some(7))?;
    assert!(rt; heap.as_slice() == THREE.as_slice());
    assert!(rt; words == 5);
    let mut region = [0xeeu8; 8];
    let (scratch, words) = over_scratch(alloc, &mut region, 1, 1, Some(7))?;
    assert!(rt; scratch.as_slice() == THREE.as_slice());
    assert!(rt; words == 5);
    assert!(rt; region == [0; 8]);
    let mut region = [0xeeu8; 16];
    let second = over_slice(alloc, &mut region, 1, Some(7)).err();
    let full = Error::from(ErrorKind::BufferNotLargeEnough);
    assert!(rt; second == Some(full));
    assert!(rt; region == [0; 16]);
    let (single, words) = over_slice(alloc, &mut region, 0, Some(7))?;
    let near = [
        0, 0, 0, 0, 2, 0, 0, 0, 0, 0, 0, 0, 1, 0, 0, 0, 7, 0, 0, 0, 0, 0, 0, 0,
    ];
    assert!(rt; single.as_slice() == &near[..]);
    assert!(rt; words == 3);
    assert!(rt; region == [0; 16]);
    let message = read_message(alloc, &mut heap.as_slice(), DEFAULT_READER_OPTIONS)?;
    let mut limiter = ReadLimiter::new(Some(2));
    let root = PointerReader::get_root_from_arena(&message)?;
    let record = root.get_struct(&mut limiter, None)?;
    assert!(rt; record.get_data_field::<u64>(0) == 7);
    assert!(rt; !message.is_canonical(&mut ReadLimiter::new(None))?);
    let canonical = message.canonicalize(alloc, &mut ReadLimiter::new(None))?;
    assert!(rt; canonical.as_slice() == &[[0, 0, 0, 0, 1, 0, 0, 0], [7, 0, 0, 0, 0, 0, 0, 0]][..]);
    Ok(())
}

/// Returns the number of segments that a reader finds in a frame.
fn count_read(alloc: Global, frame: &[u8]) -> Result<usize> {
    let mut source = frame;
    let message = read_message(alloc, &mut source, DEFAULT_READER_OPTIONS)?;
    Ok(message.get_segments().len())
}

/// A reader takes 511 segments; more are still written. A slice by itself is the only segment.
#[test]
fn empty_segments_are_written_and_read(rt: HostRuntime) -> std::result::Result<(), Fail> {
    let alloc = rt.alloc();
    let many = Error::from(ErrorKind::InvalidNumberOfSegments);
    let (most, words) = over_heap(alloc, 0, 511, None)?;
    assert!(rt; (most.len(), words) == (2048, 256));
    assert!(rt; most.iter().position(|byte| *byte != 0) == Some(0));
    assert!(rt; &most[..2] == [0xfe, 1].as_slice());
    assert!(rt; count_read(alloc, &most)? == 511);
    let (more, words) = over_heap(alloc, 0, 512, None)?;
    assert!(rt; (more.len(), words) == (2056, 257));
    assert!(rt; &more[..2] == [0xff, 1].as_slice());
    assert!(rt; count_read(alloc, &more).err() == Some(many));
    let mut region = [0xeeu8; 8];
    assert!(rt; over_scratch(alloc, &mut region, 0, 511, None)?.0 == most);
    assert!(rt; over_scratch(alloc, &mut region, 0, 512, None)?.0 == more);
    assert!(rt; region == [0; 8]);
    let (one, words) = over_slice(alloc, &mut region, 1, None)?;
    assert!(rt; (one.as_slice(), words) == (&[0; 8][..], 1));
    assert!(rt; count_read(alloc, &one)? == 1);
    let second = over_slice(alloc, &mut region, 2, None).err();
    assert!(rt; second == Some(Error::from(ErrorKind::BufferNotLargeEnough)));
    assert!(rt; region == [0; 8]);
    Ok(())
}

/// The text `hi` at the root.
const HI: [u8; 16] = [1, 0, 0, 0, 0x1a, 0, 0, 0, 0x68, 0x69, 0, 0, 0, 0, 0, 0];

/// A struct of one word, which is 7.
const SEVEN: [u8; 16] = [0, 0, 0, 0, 1, 0, 0, 0, 7, 0, 0, 0, 0, 0, 0, 0];

/// Capability 0.
const CAPABILITY: [u8; 16] = [3, 0, 0, 0, 0, 0, 0, 0, 0, 0, 0, 0, 0, 0, 0, 0];

/// A pointer into the sixth segment.
const FAR: [u8; 16] = [2, 0, 0, 0, 5, 0, 0, 0, 0, 0, 0, 0, 0, 0, 0, 0];

/// Returns the reason for which the root can't be set canonically to the value of a segment, and
/// whether a text that was the root before remains then, in its words.
fn refused<L: Allocator>(
    alloc: Global,
    allocator: &mut L,
    segment: &[u8],
    options: ReaderOptions,
) -> Result<(Option<ErrorKind>, bool)>
    requires { length (L.loans allocator.old) ≤ 1 }
    ensures loans { L.loans allocator.new ≡ L.loans allocator.old }
    ensures place { L.place allocator.new ≡ L.place allocator.old }
{
    let segments = [segment];
    let source = Reader::new(SegmentArray::new(&segments), options);
    let mut limiter = options.read_limiter();
    let mut builder = Builder::new(alloc, allocator);
    let begun = builder.set_root::<text::Owned, &str>("hi");
    let done = builder.set_root_canonical(alloc, &mut limiter, &source);
    let bytes = builder.get_segment(0) == Some(&HI[..]);
    let read: Result<&[u8]> = builder.get_root_as_reader(&mut ReadLimiter::new(None));
    let text = match read {
        Ok(root) => root == b"hi\0".as_slice(),
        Err(_) => false,
    };
    let _back = builder.into_allocator();
    begun?;
    Ok((done.err().map(|e| e.kind), bytes && text))
}

/// Does this over the heap.
fn refused_on_heap(
    alloc: Global,
    segment: &[u8],
    options: ReaderOptions,
) -> Result<(Option<ErrorKind>, bool)> {
    let mut heap = HeapAllocator::new(alloc);
    refused(alloc, &mut heap, segment, options)
}

/// Does this over a slice that the text fills, with or without the heap after it. The slice returns
/// all zeros.
fn refused_in(
    alloc: Global,
    region: &mut [u8],
    alone: bool,
    segment: &[u8],
    options: ReaderOptions,
) -> Result<(Option<ErrorKind>, bool)>
    ensures { AllZero region.new }
{
    if alone {
        let mut single = SingleSegmentAllocator::new(region);
        refused(alloc, &mut single, segment, options)
    } else {
        let mut scratch = ScratchSpaceHeapAllocator::new(alloc, region);
        refused(alloc, &mut scratch, segment, options)
    }
}

#[test]
fn a_refused_canonical_root_leaves_the_old_one(rt: HostRuntime) -> std::result::Result<(), Fail> {
    let alloc = rt.alloc();
    let cases = [
        (CAPABILITY, None, 64, ErrorKind::CapabilityInCanonical),
        (FAR, None, 64, ErrorKind::OutOfBounds),
        (SEVEN, Some(0), 64, ErrorKind::ReadLimitExceeded),
        (SEVEN, None, 0, ErrorKind::NestingLimitExceeded),
        (SEVEN, None, -1, ErrorKind::NestingLimitExceeded),
    ];
    let mut region = [0xeeu8; 16];
    for (segment, words, levels, kind) in cases {
        let options = ReaderOptions {
            traversal_limit_in_words: words,
            nesting_limit: levels,
        };
        let wanted = (Some(kind), true);
        assert!(rt; refused_on_heap(alloc, &segment, options)? == wanted);
        let scratch = refused_in(alloc, &mut region, false, &segment, options)?;
        assert!(rt; scratch == wanted);
        let single = refused_in(alloc, &mut region, true, &segment, options)?;
        assert!(rt; single == wanted);
    }
    let options = DEFAULT_READER_OPTIONS;
    let full = refused_in(alloc, &mut region, true, &SEVEN, options)?;
    assert!(rt; full == (Some(ErrorKind::BufferNotLargeEnough), true));
    let set = refused_in(alloc, &mut region, false, &SEVEN, options)?;
    assert!(rt; set == (None, false));
    assert!(rt; region == [0; 16]);
    Ok(())
}
