//! Canonical copies, over words whose number follows from the value's size.
use capnp_layout::{
    Error, ErrorKind, PointerReader, ReadLimiter, ReaderSegments, Result, copy_canonical,
    copy_canonical_from,
};
use capnp_message::message::{
    Builder, DEFAULT_READER_OPTIONS, HeapAllocator, Reader, SegmentArray, root_of, with_message,
};
use std::alloc::Global;
use std::test::Fail;

/// A message whose struct has a data word of zeros after one that isn't zero, and a null pointer.
const UNTRIMMED: [u8; 32] = [
    0, 0, 0, 0, 2, 0, 1, 0, 17, 17, 17, 17, 17, 17, 17, 17, 0, 0, 0, 0, 0, 0, 0, 0, 0, 0, 0, 0, 0,
    0, 0, 0,
];

/// Its canonical words.
const TRIMMED: [u8; 16] = [0, 0, 0, 0, 1, 0, 0, 0, 17, 17, 17, 17, 17, 17, 17, 17];

/// Returns the used bytes of a message whose root becomes the canonical copy of another's.
fn copied(alloc: Global, message: &mut Builder<HeapAllocator>, source: &[u8]) -> Result<Vec<u8>> {
    let segments = [source];
    let source = Reader::new(SegmentArray::new(&segments), DEFAULT_READER_OPTIONS);
    let reader = PointerReader::get_root_from_arena(&source)?;
    let size = reader.total_size(&mut ReadLimiter::new(None))?;
    let mut lent = vec![in alloc; [0u8; 8]; size.word_count.min(1000) as usize + 1]?;
    let mut limiter = DEFAULT_READER_OPTIONS.read_limiter();
    let mut root = root_of(&mut message.memory)?;
    copy_canonical_from(&mut root, &mut limiter, reader, &mut lent)?;
    match message.get_segment(0) {
        Some(bytes) => Ok(Vec::from_slice(alloc, bytes)?),
        None => Err(Error::from(ErrorKind::OutOfBounds)),
    }
}

/// Does this by the one call that measures and copies.
fn measured(alloc: Global, message: &mut Builder<HeapAllocator>, source: &[u8]) -> Result<Vec<u8>> {
    let segments = [source];
    let source = Reader::new(SegmentArray::new(&segments), DEFAULT_READER_OPTIONS);
    let reader = PointerReader::get_root_from_arena(&source)?;
    let mut limiter = DEFAULT_READER_OPTIONS.read_limiter();
    let mut root = root_of(&mut message.memory)?;
    copy_canonical(alloc, &mut root, &mut limiter, reader)?;
    match message.get_segment(0) {
        Some(bytes) => Ok(Vec::from_slice(alloc, bytes)?),
        None => Err(Error::from(ErrorKind::OutOfBounds)),
    }
}

#[test]
fn a_canonical_copy_is_measured(rt: HostRuntime) -> std::result::Result<(), Fail> {
    let alloc = rt.alloc();
    let words = with_message(alloc, |message| copied(alloc, message, &UNTRIMMED))?;
    assert!(rt; words.as_slice() == TRIMMED.as_slice());
    let again = with_message(alloc, |message| measured(alloc, message, &UNTRIMMED))?;
    assert!(rt; again.as_slice() == TRIMMED.as_slice());
    let segments = [UNTRIMMED.as_slice()];
    let message = Reader::new(SegmentArray::new(&segments), DEFAULT_READER_OPTIONS);
    let mut limiter = DEFAULT_READER_OPTIONS.read_limiter();
    assert!(rt; !message.is_canonical(&mut limiter)?);
    let trimmed = message.canonicalize(alloc, &mut limiter)?;
    assert!(rt; trimmed.len() == 2 && trimmed[1] == [17u8; 8]);
    Ok(())
}
