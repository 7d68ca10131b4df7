//! Messages that are read, copied canonically over each allocator, and written.
ghost use Rattle.std.specs.Prelude.{◌≡◌, ◌≤◌, length};
ghost use Rattle.capnp_copy_arenas.specs.Memory.{AllZero};

use capnp_copy_arenas::allocator::Allocator;
use capnp_message::message::{
    Builder, DEFAULT_READER_OPTIONS, HeapAllocator, ScratchSpaceHeapAllocator,
    SingleSegmentAllocator,
};
use capnp_message::serialize::{read_message, write_message_to_words};
use capnp_text::text;
use capnp_units::errors::{Error, Result};
use capnp_units::kinds::ErrorKind;
use std::alloc::Global;
use std::test::Fail;

/// Two segments: the root leads over a pad to a struct of a word.
const FAR: [u8; 40] = [
    1, 0, 0, 0, 1, 0, 0, 0, 2, 0, 0, 0, 0, 0, 0, 0, 2, 0, 0, 0, 1, 0, 0, 0, 0, 0, 0, 0, 1, 0, 0, 0,
    7, 0, 0, 0, 0, 0, 0, 0,
];

/// This struct in one segment.
const NEAR: [u8; 24] = [
    0, 0, 0, 0, 2, 0, 0, 0, 0, 0, 0, 0, 1, 0, 0, 0, 7, 0, 0, 0, 0, 0, 0, 0,
];

/// A struct of three words, whose last word is zero.
const WIDE: [u8; 40] = [
    0, 0, 0, 0, 4, 0, 0, 0, 0, 0, 0, 0, 3, 0, 0, 0, 17, 17, 17, 17, 17, 17, 17, 17, 0, 0, 0, 0, 0,
    0, 0, 128, 0, 0, 0, 0, 0, 0, 0, 0,
];

/// This struct, of two words.
const TRIMMED: [u8; 32] = [
    0, 0, 0, 0, 3, 0, 0, 0, 0, 0, 0, 0, 2, 0, 0, 0, 17, 17, 17, 17, 17, 17, 17, 17, 0, 0, 0, 0, 0,
    0, 0, 128,
];

/// Two pointers: to an empty struct, and to a struct of a word.
const TWO: [u8; 40] = [
    0, 0, 0, 0, 4, 0, 0, 0, 0, 0, 0, 0, 0, 0, 2, 0, 4, 0, 0, 0, 1, 0, 0, 0, 0xfc, 0xff, 0xff, 0xff,
    0, 0, 0, 0, 0xee, 0xee, 0xee, 0xee, 0xee, 0xee, 0xee, 0xee,
];

/// An empty segment, then one word.
const NONE_THEN_NULL: [u8; 24] = [
    0, 0, 0, 0, 0, 0, 0, 0, 0, 0, 0, 0, 1, 0, 0, 0, 0, 0, 0, 0, 0, 0, 0, 0,
];

/// A list of no voids.
const LIST: [u8; 16] = [0, 0, 0, 0, 1, 0, 0, 0, 1, 0, 0, 0, 0, 0, 0, 0];

/// Copies the first message of a text canonically into a builder, whose root is a text or nothing
/// before, and writes it.
fn rewritten<L: Allocator>(
    alloc: Global,
    allocator: &mut L,
    input: &mut &[u8],
    before: Option<&str>,
) -> Result<Vec<u8>>
    requires { length (L.loans allocator.old) ≤ 1 }
    ensures loans { L.loans allocator.new ≡ L.loans allocator.old }
    ensures place { L.place allocator.new ≡ L.place allocator.old }
{
    let source = read_message(alloc, input, DEFAULT_READER_OPTIONS)?;
    let mut limiter = DEFAULT_READER_OPTIONS.read_limiter();
    let mut builder = Builder::new(alloc, allocator);
    let begun = match before {
        Some(value) => builder.set_root::<text::Owned, &str>(value),
        None => Ok(()),
    };
    let done = match begun {
        Ok(()) => builder.set_root_canonical(alloc, &mut limiter, &source),
        Err(e) => Err(e),
    };
    let bytes = match done {
        Ok(()) if builder.memory.arena.len() > 0 => write_message_to_words(alloc, &builder),
        Ok(()) => Err(Error::from(ErrorKind::OutOfBounds)),
        Err(e) => Err(e),
    };
    let _back = builder.into_allocator();
    bytes
}

/// Does this over a slice and the heap, or only over the slice. The slice returns all zeros.
fn over_slice(
    alloc: Global,
    region: &mut [u8],
    alone: bool,
    input: &mut &[u8],
    before: Option<&str>,
) -> Result<Vec<u8>>
    ensures { AllZero region.new }
{
    if alone {
        let mut single = SingleSegmentAllocator::new(region);
        rewritten(alloc, &mut single, input, before)
    } else {
        let mut scratch = ScratchSpaceHeapAllocator::new(alloc, region);
        rewritten(alloc, &mut scratch, input, before)
    }
}

/// Returns the output for a text over the heap, over a slice and the heap, and only over the slice,
/// if all three agree.
fn over_each(alloc: Global, input: &[u8], before: Option<&str>) -> Result<Vec<u8>> {
    let mut heap = HeapAllocator::new(alloc);
    let (mut first, mut second, mut third) = (input, input, input);
    let written = rewritten(alloc, &mut heap, &mut first, before)?;
    let mut region = [0xeeu8; 64];
    let scratch = over_slice(alloc, &mut region, false, &mut second, before)?;
    let single = over_slice(alloc, &mut region, true, &mut third, before)?;
    if written == scratch && written == single && region.iter().all(|byte| *byte == 0) {
        return Ok(written);
    }
    Err(Error::from(ErrorKind::OutOfBounds))
}

#[test]
fn messages_are_rewritten_over_each_allocator(rt: HostRuntime) -> std::result::Result<(), Fail> {
    let far = over_each(rt.alloc(), &FAR, None)?;
    assert!(rt; far.as_slice() == NEAR.as_slice());
    let wide = over_each(rt.alloc(), &WIDE, None)?;
    assert!(rt; wide.as_slice() == TRIMMED.as_slice());
    let two = over_each(rt.alloc(), &TWO, None)?;
    assert!(rt; two.as_slice() == TWO.as_slice());
    let list = over_each(rt.alloc(), &LIST, None)?;
    assert!(rt; list.as_slice() == LIST.as_slice());
    Ok(())
}

/// The words of the old text are zero, and the struct follows them.
#[test]
fn a_root_is_replaced_by_a_canonical_copy(rt: HostRuntime) -> std::result::Result<(), Fail> {
    let far = over_each(rt.alloc(), &FAR, Some("hi"))?;
    let expected = [
        0u8, 0, 0, 0, 3, 0, 0, 0, 4, 0, 0, 0, 1, 0, 0, 0, 0, 0, 0, 0, 0, 0, 0, 0, 7, 0, 0, 0, 0, 0,
        0, 0,
    ];
    assert!(rt; far.as_slice() == expected.as_slice());
    let mut region = [0xeeu8; 16];
    let full = over_slice(rt.alloc(), &mut region, true, &mut &FAR[..], Some("hi"));
    assert!(rt; full.err() == Some(Error::from(ErrorKind::BufferNotLargeEnough)));
    assert!(rt; region == [0; 16]);
    Ok(())
}

/// A message without a root word has no value; the next message is still read.
#[test]
fn a_message_without_words_is_passed_by(rt: HostRuntime) -> std::result::Result<(), Fail> {
    let mut input = &NONE_THEN_NULL[..];
    let mut heap = HeapAllocator::new(rt.alloc());
    let none = rewritten(rt.alloc(), &mut heap, &mut input, None);
    assert!(rt; none.err() == Some(Error::from(ErrorKind::OutOfBounds)));
    let null = over_each(rt.alloc(), input, None)?;
    assert!(rt; null.as_slice() == &NONE_THEN_NULL[8..]);
    Ok(())
}

/// Returns the words and the bytes of the frame of a message whose root is a text.
fn greeted<L: Allocator>(alloc: Global, allocator: &mut L) -> Result<(usize, usize)>
    requires { length (L.loans allocator.old) ≤ 1 }
    ensures loans { L.loans allocator.new ≡ L.loans allocator.old }
    ensures place { L.place allocator.new ≡ L.place allocator.old }
{
    let mut builder = Builder::new(alloc, allocator);
    let done = builder.set_root::<text::Owned, &str>("Hello, World!");
    let words = builder.size_in_words();
    let bytes = match done {
        Ok(()) if builder.memory.arena.len() > 0 => write_message_to_words(alloc, &builder),
        Ok(()) => Err(Error::from(ErrorKind::OutOfBounds)),
        Err(e) => Err(e),
    };
    let _back = builder.into_allocator();
    Ok((words, bytes?.len()))
}

#[test]
fn a_text_is_three_words_over_each_allocator(rt: HostRuntime) -> std::result::Result<(), Fail> {
    assert!(rt; greeted(rt.alloc(), &mut HeapAllocator::new(rt.alloc()))? == (3, 32));
    let mut region = [0xeeu8; 24];
    let mut scratch = ScratchSpaceHeapAllocator::new(rt.alloc(), &mut region);
    assert!(rt; greeted(rt.alloc(), &mut scratch)? == (3, 32));
    drop(scratch);
    let mut single = SingleSegmentAllocator::new(&mut region);
    assert!(rt; greeted(rt.alloc(), &mut single)? == (3, 32));
    Ok(())
}
