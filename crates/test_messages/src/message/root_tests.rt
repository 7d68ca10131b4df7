//! Roots that are set and read, and messages that are edited in place.
ghost use Rattle.std.specs.Prelude.{◌≡◌, ◌+◌, ◌*◌, ◌^◌, ◌<◌, ◌≤◌, ◌++◌, length};
ghost use Rattle.capnp_copy_arenas.specs.Memory.{AllZero, ZeroFrom};
ghost use Rattle.capnp_wire.specs.Views.{seen_struct};
ghost use Rattle.capnp_wire.specs.Reads.{GetGives, read_struct};

use capnp_copy_arenas::allocator::{Allocator, SegmentBytes};
use capnp_message::message::{
    Builder, DEFAULT_READER_OPTIONS, HeapAllocator, Reader, ScratchSpaceHeapAllocator,
    SegmentArray, SingleSegmentAllocator, TypedBuilder, TypedReader,
};
use capnp_message_allocators::opening::OpensSegment;
use capnp_text::text;
use capnp_units::errors::{Error, Result};
use capnp_units::kinds::ErrorKind;
use capnp_units::limiter::ReadLimiter;
use capnp_units::segments::ReaderSegments;
use capnp_units::sizes::Word;
use capnp_wire::pointer::PointerReader;
use capnp_wire::structs::StructReader;
use capnp_wire::traits::{FromPointerReader, Owned};
use capnp_wire_objects::arena::ReaderArena;
use std::alloc::Global;
use std::test::Fail;

/// Roots that are data.
#[derive(Drop)]
struct Bytes;

impl<'a, A: ReaderArena> Owned<'a, A> for Bytes {
    type Reader = &'a [u8];
}

/// A root that is a struct.
#[derive(Drop)]
struct Fields<'a, A>(StructReader<'a, A>);

impl<'a, A: ReaderArena> FromPointerReader<'a, A> for Fields<'a, A> {
    ghost reads = { λ p old result new. GetGives (λ fields. seen_struct A.segments fields.0)
        (read_struct p.basis p.levels) p old result new };

    fn get_from_pointer(
        reader: &PointerReader<'a, A>,
        limiter: &mut ReadLimiter,
        default: Option<&'a [Word]>,
    ) -> Result<Fields<'a, A>> {
        Ok(Fields(reader.get_struct(limiter, default)?))
    }
}

/// Returns the used bytes of each segment, one after the other.
fn bytes_of<S: ReaderSegments>(alloc: Global, message: &S) -> Result<Vec<u8>> {
    let mut all = Vec::new(alloc);
    let count = message.len().min(100) as u32;
    for id in 0..count {
        if let Some(bytes) = message.get_segment(id) {
            all.extend_from_slice(bytes)?;
        }
    }
    Ok(all)
}

/// Returns a view of a message whose root is set to a text: its words, and the root that is read.
fn seen_text<L: Allocator>(alloc: Global, builder: &Builder<L>) -> Result<(usize, Vec<u8>)> {
    let mut limiter = ReadLimiter::new(None);
    let root: &[u8] = builder.get_root_as_reader(&mut limiter)?;
    Ok((builder.size_in_words(), Vec::from_slice(alloc, root)?))
}

/// Builds a message whose root is set to a text, and then to another.
fn two_texts<L: Allocator>(
    alloc: Global,
    allocator: &mut L,
    first: &str,
    second: &str,
) -> Result<(usize, Vec<u8>)>
    requires { length (L.loans allocator.old) ≤ 1 }
    ensures loans { L.loans allocator.new ≡ L.loans allocator.old }
    ensures place { L.place allocator.new ≡ L.place allocator.old }
{
    let mut builder = Builder::new(alloc, allocator);
    let begun = builder.set_root::<text::Owned, &str>(first);
    let done = match begun {
        Ok(()) => builder.set_root::<text::Owned, &str>(second),
        Err(e) => Err(e),
    };
    let seen = match done {
        Ok(()) => seen_text(alloc, &builder),
        Err(e) => Err(e),
    };
    let _back = builder.into_allocator();
    seen
}

/// Does this over the heap.
fn two_texts_on_heap(alloc: Global, first: &str, second: &str) -> Result<(usize, Vec<u8>)> {
    let mut heap = HeapAllocator::new(alloc);
    two_texts(alloc, &mut heap, first, second)
}

/// Does this only over a slice.
fn two_texts_in(
    alloc: Global,
    region: &mut [u8],
    first: &str,
    second: &str,
) -> Result<(usize, Vec<u8>)> {
    let mut single = SingleSegmentAllocator::new(region);
    two_texts(alloc, &mut single, first, second)
}

/// Builds a message of the canonical words of another.
fn canonical<L: Allocator, S: ReaderSegments>(
    alloc: Global,
    allocator: &mut L,
    source: &Reader<S>,
) -> Result<Vec<u8>>
    requires { length (L.loans allocator.old) ≤ 1 }
    ensures loans { L.loans allocator.new ≡ L.loans allocator.old }
    ensures place { L.place allocator.new ≡ L.place allocator.old }
{
    let mut builder = Builder::new(alloc, allocator);
    let mut limiter = DEFAULT_READER_OPTIONS.read_limiter();
    let done = builder.set_root_canonical(alloc, &mut limiter, source);
    let bytes = match done {
        Ok(()) => bytes_of(alloc, &builder),
        Err(e) => Err(e),
    };
    let _back = builder.into_allocator();
    bytes
}

/// Sets the root to a text in a segment that has words already, and returns all used ones.
fn edited<L: Allocator>(
    alloc: Global,
    allocator: &mut L,
    segment: L::Segment,
    used: u32,
    value: &str,
) -> Result<Vec<u8>>
    requires inside { 8 * used ≤ length (L.Segment.bytes segment) }
    requires rest { ZeroFrom (8 * used) (L.Segment.bytes segment) }
    requires few { used < 2 ^ 29 }
    requires one { length (L.Segment.loans segment) + length (L.loans allocator.old) ≤ 1 }
    ensures loans { L.loans allocator.new ≡ L.Segment.loans segment ++ L.loans allocator.old }
    ensures place { L.place allocator.new ≡ L.place allocator.old }
{
    let mut builder = Builder::new(alloc, allocator);
    let held = builder.hold_segment(segment, used);
    let done = match held {
        Ok(()) => builder.set_root::<text::Owned, &str>(value),
        Err(e) => Err(e),
    };
    let bytes = match done {
        Ok(()) => bytes_of(alloc, &builder),
        Err(e) => Err(e),
    };
    let _back = builder.into_allocator();
    bytes
}

/// Sets the root of the words that an allocator was opened with to a text, and returns all used
/// words.
fn edited_there<L: OpensSegment>(alloc: Global, allocator: &mut L, value: &str) -> Result<Vec<u8>>
    requires { length (L.loans allocator.old) ≤ 1 }
    ensures loans { L.loans allocator.new ≡ L.loans allocator.old }
    ensures place { L.place allocator.new ≡ L.place allocator.old }
{
    let mut builder = Builder::new(alloc, allocator);
    let done = match builder.open() {
        Ok(()) => builder.set_root::<text::Owned, &str>(value),
        Err(e) => Err(e),
    };
    let bytes = match done {
        Ok(()) => bytes_of(alloc, &builder),
        Err(e) => Err(e),
    };
    let _back = builder.into_allocator();
    bytes
}

/// Does this in a lent slice whose first n words are used already. It returns all zeros.
fn edited_in(alloc: Global, region: &mut [u8], used: u32, value: &str) -> Result<Vec<u8>>
    requires inside { 8 * used ≤ length region.old }
    requires few { used < 2 ^ 29 }
    ensures { AllZero region.new }
{
    let mut scratch = ScratchSpaceHeapAllocator::open(alloc, region, used);
    edited_there(alloc, &mut scratch, value)
}

/// Builds a message of the canonical words of another, over the heap.
fn canonical_on_heap(alloc: Global, source: &Reader<SegmentArray<'_>>) -> Result<Vec<u8>> {
    let mut heap = HeapAllocator::new(alloc);
    canonical(alloc, &mut heap, source)
}

/// Does this in a lent slice, with or without the heap after it. The slice returns all zeros.
fn canonical_in(
    alloc: Global,
    region: &mut [u8],
    alone: bool,
    source: &Reader<SegmentArray<'_>>,
) -> Result<Vec<u8>>
    ensures { AllZero region.new }
{
    if alone {
        let mut single = SingleSegmentAllocator::new(region);
        canonical(alloc, &mut single, source)
    } else {
        let mut scratch = ScratchSpaceHeapAllocator::new(alloc, region);
        canonical(alloc, &mut scratch, source)
    }
}

#[test]
fn a_root_is_set_again(rt: HostRuntime) -> std::result::Result<(), Fail> {
    let (words, text) = two_texts_on_heap(rt.alloc(), "hi", "Hello, World!")?;
    assert!(rt; words == 4);
    assert!(rt; text.as_slice() == b"Hello, World!\0".as_slice());
    let mut short = [0xeeu8; 23];
    let full = two_texts_in(rt.alloc(), &mut short, "hi", "Hello, World!");
    assert!(rt; full.err() == Some(Error::from(ErrorKind::BufferNotLargeEnough)));
    Ok(())
}

/// The root of two segments leads to a word after a pad.
#[test]
fn a_root_is_set_to_canonical_words(rt: HostRuntime) -> std::result::Result<(), Fail> {
    let first = [2u8, 0, 0, 0, 1, 0, 0, 0];
    let second = [0u8, 0, 0, 0, 1, 0, 0, 0, 0, 1, 2, 3, 4, 5, 6, 7];
    let both: [&[u8]; 2] = [&first, &second];
    let source = Reader::new(SegmentArray::new(&both), DEFAULT_READER_OPTIONS);
    let bytes = canonical_on_heap(rt.alloc(), &source)?;
    assert!(rt; bytes.as_slice() == second.as_slice());
    let mut region = [0xeeu8; 16];
    let bytes = canonical_in(rt.alloc(), &mut region, false, &source)?;
    assert!(rt; bytes.as_slice() == second.as_slice());
    assert!(rt; region.iter().all(|byte| *byte == 0));
    let bytes = canonical_in(rt.alloc(), &mut region, true, &source)?;
    assert!(rt; bytes.as_slice() == second.as_slice());
    assert!(rt; !source.is_canonical(&mut ReadLimiter::new(None))?);
    let empty = Reader::new(SegmentArray::new(&[]), DEFAULT_READER_OPTIONS);
    let refused = canonical_on_heap(rt.alloc(), &empty);
    assert!(rt; refused.err() == Some(Error::from(ErrorKind::OutOfBounds)));
    Ok(())
}

/// The root is the text `Hey`; the segment has two words, and room for two.
#[test]
fn a_message_goes_on_behind_its_words(rt: HostRuntime) -> std::result::Result<(), Fail> {
    let words = [
        1u8, 0, 0, 0, 0x22, 0, 0, 0, 0x48, 0x65, 0x79, 0, 0, 0, 0, 0, 0, 0, 0, 0, 0, 0, 0, 0, 0, 0,
        0, 0, 0, 0, 0, 0,
    ];
    let mut heap = HeapAllocator::new(rt.alloc());
    let segment = Vec::from_slice(rt.alloc(), &words)?;
    let bytes = edited(rt.alloc(), &mut heap, segment, 2, "hi")?;
    let expected = [
        5u8, 0, 0, 0, 0x1a, 0, 0, 0, 0, 0, 0, 0, 0, 0, 0, 0, 0x68, 0x69, 0, 0, 0, 0, 0, 0,
    ];
    assert!(rt; bytes.as_slice() == expected.as_slice());
    let mut region = words;
    let bytes = edited_in(rt.alloc(), &mut region, 2, "hi")?;
    assert!(rt; bytes.as_slice() == expected.as_slice());
    assert!(rt; region.iter().all(|byte| *byte == 0));
    let mut region = words;
    let bytes = edited_in(rt.alloc(), &mut region[..23], 2, "hi")?;
    assert!(rt; bytes.len() == 32);
    assert!(rt; &bytes[..8] == [2u8, 0, 0, 0, 1, 0, 0, 0].as_slice());
    assert!(rt; region[..23].iter().all(|byte| *byte == 0));
    let mut region = [0xeeu8; 16];
    let bytes = edited_in(rt.alloc(), &mut region, 0, "hi")?;
    assert!(rt; bytes.len() == 16);
    assert!(rt; region.iter().all(|byte| *byte == 0));
    Ok(())
}

/// Builds a typed message, and then reads it.
fn typed_text(alloc: Global, value: &[u8]) -> Result<(Vec<u8>, Vec<u8>)> {
    let mut built: TypedBuilder<capnp_text::data::Owned, HeapAllocator> = TypedBuilder::new_default(
        alloc,
    );
    let done = built.set_root(value);
    let bytes = match done {
        Ok(()) => bytes_of(alloc, built.borrow_inner()),
        Err(e) => Err(e),
    };
    let read: TypedReader<_, Bytes> = built.into_inner().into_typed::<Bytes>().into_reader();
    let mut limiter = DEFAULT_READER_OPTIONS.read_limiter();
    let root = match read.get(&mut limiter) {
        Ok(root) => Vec::from_slice(alloc, root),
        Err(_) => Ok(Vec::new(alloc)),
    };
    let _heap = read.into_inner().into_segments().into_allocator();
    Ok((bytes?, root?))
}

#[test]
fn a_typed_root_is_set(rt: HostRuntime) -> std::result::Result<(), Fail> {
    let (bytes, root) = typed_text(rt.alloc(), b"hi")?;
    let expected = [1u8, 0, 0, 0, 0x12, 0, 0, 0, 0x68, 0x69, 0, 0, 0, 0, 0, 0];
    assert!(rt; bytes.as_slice() == expected.as_slice());
    assert!(rt; root.as_slice() == b"hi".as_slice());
    Ok(())
}

/// Returns fields of the root of a message to which nothing was written: a number, a number of
/// default 5, a truth value of default true, and the number of a text's bytes.
fn fields_unwritten<L: Allocator>(builder: &Builder<L>) -> Result<(u16, u16, bool, usize)> {
    let mut limiter = ReadLimiter::new(Some(0));
    let fields: Fields<'_, _> = builder.get_root_as_reader(&mut limiter)?;
    let text = fields.0.get_pointer_field(0).get_text(&mut limiter, None)?;
    Ok((
        fields.0.get_data_field::<u16>(0),
        fields.0.get_data_field_mask::<u16>(0, 5),
        fields.0.get_bool_field_mask(0, true),
        text.len(),
    ))
}

/// Does this for a new message.
fn defaults<L: Allocator>(alloc: Global, allocator: &mut L) -> Result<(u16, u16, bool, usize)>
    requires { length (L.loans allocator.old) ≤ 1 }
    ensures loans { L.loans allocator.new ≡ L.loans allocator.old }
    ensures place { L.place allocator.new ≡ L.place allocator.old }
{
    let builder = Builder::new(alloc, allocator);
    let seen = fields_unwritten(&builder);
    let _back = builder.into_allocator();
    seen
}

/// Does this over a slice, of whose words none is taken.
fn defaults_in(alloc: Global, region: &mut [u8]) -> Result<(u16, u16, bool, usize)>
    ensures { AllZero region.new }
{
    let mut single = SingleSegmentAllocator::new(region);
    defaults(alloc, &mut single)
}

#[test]
fn a_root_that_was_not_made_has_defaults(rt: HostRuntime) -> std::result::Result<(), Fail> {
    let mut region = [0xeeu8; 0];
    assert!(rt; defaults_in(rt.alloc(), &mut region)? == (0, 5, true, 0));
    Ok(())
}
