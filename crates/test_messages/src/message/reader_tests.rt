//! Options of readers, and roots that are read under them.
ghost use Rattle.std.specs.Prelude.{◌≡◌, None};
ghost use Rattle.capnp_message.specs.Options.{default_options};

use capnp_message::message::{
    DEFAULT_READER_OPTIONS, Reader, ReaderOptions, SegmentArray, TypedReader,
};
use capnp_units::errors::{Error, Result};
use capnp_units::kinds::ErrorKind;
use capnp_units::limiter::ReadLimiter;
use capnp_units::segments::ReaderSegments;
use capnp_wire::traits::Owned;
use capnp_wire_objects::arena::ReaderArena;
use std::test::Fail;

/// A framed message whose root is data of two bytes, followed by a byte.
const DATA: [u8; 25] = [
    0, 0, 0, 0, 2, 0, 0, 0, 1, 0, 0, 0, 18, 0, 0, 0, 0x68, 0x69, 0, 0, 0, 0, 0, 0, 0xee,
];

/// Makes options that are set one after the other.
fn options(words: Option<usize>, levels: i32) -> ReaderOptions
    ensures words { result.traversal_limit_in_words ≡ words }
    ensures levels { result.nesting_limit ≡ levels }
{
    let mut options = ReaderOptions::new();
    options.traversal_limit_in_words(words);
    options.nesting_limit(levels);
    options
}

/// Makes options that are set in a chain.
fn chained(words: Option<usize>, levels: i32) -> ReaderOptions
    ensures words { result.traversal_limit_in_words ≡ words }
    ensures levels { result.nesting_limit ≡ levels }
{
    let mut options = ReaderOptions::new();
    options
        .nesting_limit(levels)
        .traversal_limit_in_words(words);
    options
}

/// Checks that options keep the other value if only one is set.
fn boundless() -> ReaderOptions
    ensures words { result.traversal_limit_in_words ≡ None }
    ensures levels { result.nesting_limit ≡ default_options.nesting_limit }
{
    let mut options = ReaderOptions::new();
    options.traversal_limit_in_words(None);
    options
}

/// Returns whether the root is data of these bytes.
fn holds_data<S: ReaderSegments>(message: &Reader<S>, bytes: &[u8]) -> Result<bool> {
    let mut limiter = DEFAULT_READER_OPTIONS.read_limiter();
    let data: &[u8] = message.get_root(&mut limiter)?;
    Ok(data == bytes)
}

#[test]
fn options_are_set(rt: HostRuntime) -> std::result::Result<(), Fail> {
    assert!(rt; ReaderOptions::new().traversal_limit_in_words == Some(8_388_608));
    assert!(rt; ReaderOptions::new().nesting_limit == 64);
    assert!(rt; ReaderOptions::default() == DEFAULT_READER_OPTIONS);
    let few = options(Some(10), 3);
    assert!(rt; few.traversal_limit_in_words == Some(10));
    assert!(rt; few.nesting_limit == 3);
    assert!(rt; chained(Some(10), 3) == few);
    assert!(rt; boundless().traversal_limit_in_words == None);
    assert!(rt; boundless().nesting_limit == 64);
    let mut limiter = few.read_limiter();
    assert!(rt; limiter.charge(10).is_ok());
    assert!(rt; limiter.charge(1).is_err());
    assert!(rt; options(None, 0).read_limiter().charge(u64::MAX).is_ok());
    Ok(())
}

#[test]
fn roots_are_read_under_the_limits(rt: HostRuntime) -> std::result::Result<(), Fail> {
    let segments = [&DATA[8..24]];
    let message = Reader::new(SegmentArray::new(&segments), DEFAULT_READER_OPTIONS);
    assert!(rt; holds_data(&message, b"hi")?);
    assert!(rt; message.size_in_words() == 2);
    assert!(rt; message.get_segments().len() == 1);
    let mut none = ReadLimiter::new(Some(0));
    let refused: Result<&[u8]> = message.get_root(&mut none);
    assert!(rt; refused.err() == Some(Error::from(ErrorKind::ReadLimitExceeded)));
    let flat = Reader::new(message.into_segments(), options(None, 0));
    let refused = holds_data(&flat, b"hi").err();
    assert!(rt; refused == Some(Error::from(ErrorKind::NestingLimitExceeded)));
    let empty = Reader::new(SegmentArray::new(&[]), DEFAULT_READER_OPTIONS);
    let refused = holds_data(&empty, b"").err();
    assert!(rt; refused == Some(Error::from(ErrorKind::OutOfBounds)));
    assert!(rt; empty.size_in_words() == 0);
    Ok(())
}

/// Roots that are data.
#[derive(Drop)]
struct Bytes;

impl<'a, A: ReaderArena> Owned<'a, A> for Bytes {
    type Reader = &'a [u8];
}

#[test]
fn a_typed_root_is_read(rt: HostRuntime) -> std::result::Result<(), Fail> {
    let segments = [&DATA[8..24]];
    let message = Reader::new(SegmentArray::new(&segments), DEFAULT_READER_OPTIONS);
    let typed = message.into_typed::<Bytes>();
    let mut limiter = ReadLimiter::new(Some(1));
    assert!(rt; typed.get(&mut limiter)? == &b"hi"[..]);
    assert!(rt; limiter.granted() == 1);
    assert!(rt; typed.get_segments().len() == 1);
    let again: TypedReader<_, Bytes> = TypedReader::from(typed.into_inner());
    assert!(rt; again.get(&mut limiter).is_err());
    Ok(())
}

/// A limiter that allows more than the options is refused because of room.
#[test]
fn the_options_bound_the_canonical_words(rt: HostRuntime) -> std::result::Result<(), Fail> {
    let segments: [&[u8]; 1] = [&DATA[8..24]];
    let message = Reader::new(SegmentArray::new(&segments), options(Some(0), 64));
    let refused = message.canonicalize(rt.alloc(), &mut ReadLimiter::new(None));
    assert!(rt; refused.err() == Some(Error::from(ErrorKind::BufferNotLargeEnough)));
    assert!(rt; message.is_canonical(&mut ReadLimiter::new(Some(1)))?);
    Ok(())
}
