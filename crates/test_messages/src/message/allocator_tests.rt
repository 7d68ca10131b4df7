//! Messages that are built over each allocator, and the slices that were lent.
ghost use Rattle.std.specs.Prelude.{◌≡◌, ◌≤◌, length};
ghost use Rattle.capnp_copy_arenas.specs.Memory.{AllZero};

use capnp_copy_arenas::allocator::Allocator;
use capnp_copy_arenas::arena::{BuilderArena, Memory};
use capnp_layout_builders::pointer_builder::PointerBuilder;
use capnp_message::builder::Builder;
use capnp_message::laws::built_segments_can_be_written;
use capnp_message::serialize::{
    compute_serialized_size_in_words, write_message, write_message_to_words,
};
use capnp_message::serialize_packed;
use capnp_message_allocators::growth::AllocationStrategy;
use capnp_message_allocators::heap::HeapAllocator;
use capnp_message_allocators::scratch::ScratchSpaceHeapAllocator;
use capnp_message_allocators::single::SingleSegmentAllocator;
use capnp_units::errors::{Error, Result};
use capnp_units::kinds::ErrorKind;
use capnp_units::limiter::ReadLimiter;
use capnp_units::segments::ReaderSegments;
use capnp_units::sizes::StructSize;
use capnp_wire::pointer::PointerReader;
use capnp_wire_objects::arena::ReaderArena;
use capnp_wire_objects::place::{Place, has_words};
use std::alloc::Global;
use std::test::Fail;

const ROOT: Place = Place {
    segment: 0,
    position: 0,
};

/// The value of a message's root.
#[derive(Clone, Copy)]
enum Root<'a> {
    Text(&'a [u8]),
    Struct(StructSize),
}

/// Sets the root pointer, which is allocated first.
fn set_root<A: BuilderArena>(memory: &mut Memory<A>, root: Root<'_>) -> Result<()>
    ensures { A.books memory.new.arena ≡ A.books memory.old.arena }
{
    if !has_words(&memory.arena, ROOT, 1) {
        return Err(Error::from(ErrorKind::OutOfBounds));
    }
    let mut pointer = PointerBuilder::get_root(memory);
    match root {
        Root::Text(text) => pointer.set_text(text),
        Root::Struct(size) => {
            pointer.init_struct(size)?;
            Ok(())
        }
    }
}

/// A view of a message.
#[derive(Drop)]
struct Seen {
    text: Option<Vec<u8>>,
    segments: usize,
    words: usize,
    last_words: usize,
    framed: Vec<u8>,
    framed_words: usize,
    packed: Vec<u8>,
}

/// Returns the text at the root, if there is one.
fn text_at_root<A: ReaderArena>(alloc: Global, arena: &A) -> Result<Option<Vec<u8>>> {
    let mut limiter = ReadLimiter::new(None);
    let root = PointerReader::get_root_from_arena(arena)?;
    match root.get_text(&mut limiter, None) {
        Ok(text) => Ok(Some(Vec::from_slice(alloc, text)?)),
        Err(_) => Ok(None),
    }
}

fn observed<L: Allocator>(alloc: Global, builder: &Builder<L>) -> Result<Seen> {
    let all = builder.get_segments_for_output(alloc)?;
    let last = all.last().map(|bytes| bytes.len() / 8);
    if builder.memory.arena.len() == 0 {
        return Err(Error::from(ErrorKind::OutOfBounds));
    }
    let mut framed = Vec::new(alloc);
    write_message(alloc, &mut framed, builder)?;
    if framed != write_message_to_words(alloc, builder)? {
        return Err(Error::from(ErrorKind::OutOfBounds));
    }
    let mut packed = Vec::new(alloc);
    serialize_packed::write_message(alloc, &mut packed, builder)?;
    built_segments_can_be_written(builder);
    Ok(Seen {
        text: text_at_root(alloc, &builder.memory.arena)?,
        segments: builder.len(),
        words: builder.size_in_words(),
        last_words: last.unwrap_or(0),
        framed,
        framed_words: compute_serialized_size_in_words(builder),
        packed,
    })
}

/// Builds a message with this root, whose segments are returned.
fn message<L: Allocator>(alloc: Global, allocator: &mut L, root: Root<'_>) -> Result<Seen>
    requires { length (L.loans allocator.old) ≤ 1 }
    ensures loans { L.loans allocator.new ≡ L.loans allocator.old }
    ensures place { L.place allocator.new ≡ L.place allocator.old }
{
    let mut builder = Builder::new(alloc, allocator);
    let done = match builder.allocate_root() {
        Ok(()) => set_root(&mut builder.memory, root),
        Err(e) => Err(e),
    };
    let seen = match done {
        Ok(()) => observed(alloc, &builder),
        Err(e) => Err(e),
    };
    let _back = builder.into_allocator();
    seen
}

const TWO_WORDS: Root<'static> = Root::Struct(StructSize {
    data_words: 2,
    pointers: 0,
});

/// The packed message of a pointer to the second segment, which has a pad and then two zero words.
const TWO_SEGMENTS_PACKED: [u8; 12] = [0x11, 1, 1, 1, 3, 0x11, 2, 1, 0x10, 2, 0, 1];

const HELLO: &[u8] = b"Hello, World!";

/// Builds messages one after the other with one allocator.
fn messages<L: Allocator>(
    alloc: Global,
    allocator: &mut L,
    first: Root<'_>,
    second: Root<'_>,
) -> (Result<Seen>, Result<Seen>)
    requires { length (L.loans allocator.old) ≤ 1 }
    ensures loans { L.loans allocator.new ≡ L.loans allocator.old }
    ensures place { L.place allocator.new ≡ L.place allocator.old }
{
    let one = message(alloc, allocator, first);
    let other = message(alloc, allocator, second);
    (one, other)
}

/// Builds two messages over a slice and the heap. The slice returns all zeros.
fn over_scratch(
    alloc: Global,
    region: &mut [u8],
    first: Root<'_>,
    second: Root<'_>,
) -> (Result<Seen>, Result<Seen>)
    ensures { AllZero region.new }
{
    let mut scratch = ScratchSpaceHeapAllocator::new(alloc, region);
    scratch.allocation_strategy(AllocationStrategy::FixedSize);
    scratch.second_segment_words(3);
    messages(alloc, &mut scratch, first, second)
}

/// Builds two messages only over a slice, which returns all zeros.
fn over_slice(
    alloc: Global,
    region: &mut [u8],
    first: Root<'_>,
    second: Root<'_>,
) -> (Result<Seen>, Result<Seen>)
    ensures { AllZero region.new }
{
    let mut single = SingleSegmentAllocator::new(region);
    messages(alloc, &mut single, first, second)
}

fn is_zero(bytes: &[u8]) -> bool {
    bytes.iter().all(|byte| *byte == 0)
}

#[test]
fn texts_are_built_on_the_heap(rt: HostRuntime) -> std::result::Result<(), Fail> {
    let mut heap = HeapAllocator::new(rt.alloc());
    let (first, second) = messages(rt.alloc(), &mut heap, Root::Text(HELLO), Root::Text(b""));
    let first = first?;
    assert!(rt; first.text.as_deref() == Some(HELLO));
    assert!(rt; first.segments == 1);
    assert!(rt; first.words == 3);
    assert!(rt; first.framed.len() == 32);
    assert!(rt; first.framed_words == 4);
    let second = second?;
    assert!(rt; second.text.as_deref() == Some(&b""[..]));
    assert!(rt; second.segments == 1);
    assert!(rt; second.words == 2);
    Ok(())
}

/// A first segment of one word has only the root; the struct and its pad are in the second.
#[test]
fn heap_segments_are_as_large_as_is_set(rt: HostRuntime) -> std::result::Result<(), Fail> {
    let mut heap = HeapAllocator::new(rt.alloc())
        .first_segment_words(1)
        .allocation_strategy(AllocationStrategy::FixedSize)
        .max_segment_words(1);
    let (first, second) = messages(rt.alloc(), &mut heap, TWO_WORDS, TWO_WORDS);
    let (first, second) = (first?, second?);
    assert!(rt; (first.segments, first.words, first.last_words) == (2, 4, 3));
    assert!(rt; (second.segments, second.words, second.last_words) == (2, 4, 3));
    Ok(())
}

/// The text has the root and two words in the slice; the struct of two words is on the heap after a
/// pad if the slice has two words.
#[test]
fn a_lent_slice_is_the_first_segment(rt: HostRuntime) -> std::result::Result<(), Fail> {
    let mut bytes = [0xeeu8; 24];
    let region = &mut bytes[..];
    let (first, second) = over_scratch(rt.alloc(), region, Root::Text(HELLO), TWO_WORDS);
    let (first, second) = (first?, second?);
    assert!(rt; first.text.as_deref() == Some(HELLO));
    assert!(rt; (first.segments, first.words) == (1, 3));
    assert!(rt; (second.segments, second.words) == (1, 3));
    assert!(rt; is_zero(&bytes));
    let mut bytes = [0xeeu8; 23];
    let region = &mut bytes[..];
    let (first, second) = over_scratch(rt.alloc(), region, Root::Text(HELLO), TWO_WORDS);
    let (first, second) = (first?, second?);
    assert!(rt; first.text.as_deref() == Some(HELLO));
    assert!(rt; (first.segments, first.words, first.last_words) == (2, 4, 3));
    assert!(rt; (second.segments, second.words, second.last_words) == (2, 4, 3));
    assert!(rt; is_zero(&bytes));
    let mut bytes = [0xeeu8; 16];
    let (first, second) = over_scratch(rt.alloc(), &mut bytes, TWO_WORDS, TWO_WORDS);
    assert!(rt; first?.framed_words == 6);
    assert!(rt; second?.packed.as_slice() == TWO_SEGMENTS_PACKED.as_slice());
    assert!(rt; is_zero(&bytes));
    Ok(())
}

#[test]
fn a_slice_without_a_word_isnt_used(rt: HostRuntime) -> std::result::Result<(), Fail> {
    let mut bytes = [0xeeu8; 7];
    let (first, second) = over_scratch(rt.alloc(), &mut bytes, Root::Text(HELLO), TWO_WORDS);
    assert!(rt; first?.segments == 1);
    assert!(rt; second?.segments == 1);
    assert!(rt; is_zero(&bytes));
    Ok(())
}

/// Three words hold the text; a struct of two words and a text of eight bytes with its zero byte
/// fit too, and no longer value.
#[test]
fn a_single_segment_has_no_second(rt: HostRuntime) -> std::result::Result<(), Fail> {
    let full = Error::from(ErrorKind::BufferNotLargeEnough);
    let mut bytes = [0xeeu8; 31];
    let (first, second) = over_slice(rt.alloc(), &mut bytes, Root::Text(HELLO), TWO_WORDS);
    assert!(rt; first?.text.as_deref() == Some(HELLO));
    assert!(rt; second?.words == 3);
    assert!(rt; is_zero(&bytes));
    let mut bytes = [0xeeu8; 23];
    let (first, second) = over_slice(rt.alloc(), &mut bytes, Root::Text(HELLO), Root::Text(b"hi"));
    assert!(rt; first.err() == Some(full));
    let second = second?;
    assert!(rt; second.text.as_deref() == Some(&b"hi"[..]));
    assert!(rt; second.words == 2);
    assert!(rt; is_zero(&bytes));
    let mut bytes = [0xeeu8; 7];
    let (first, second) = over_slice(rt.alloc(), &mut bytes, Root::Text(b""), Root::Text(b""));
    assert!(rt; first.err() == Some(full));
    assert!(rt; second.err() == Some(full));
    assert!(rt; is_zero(&bytes));
    Ok(())
}
