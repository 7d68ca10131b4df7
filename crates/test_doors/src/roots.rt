//! Messages that a function builds, whose roots are of each sort.
use capnp_layout::{
    ElementSize, Error, ErrorKind, ReadLimiter, ReaderSegments, Result, data, text,
};
use capnp_message::message::{
    Builder, DEFAULT_READER_OPTIONS, DataPlace, HeapAllocator, PointerPlace, TextPlace,
    TypedBuilder, root_of, with_message,
};
use capnp_message::serialize::{
    NoAllocBufferSegments, NoAllocSegmentTableInfo, NoAllocSliceSegments,
};
use capnp_schema::any_pointer;
use std::alloc::Global;
use std::test::Fail;

/// Returns the used bytes of the first segment.
fn bytes_of<S: ReaderSegments>(alloc: Global, message: &S) -> Result<Vec<u8>> {
    match message.get_segment(0) {
        Some(bytes) => Ok(Vec::from_slice(alloc, bytes)?),
        None => Ok(Vec::new(alloc)),
    }
}

/// Makes three numbers of two bytes as the root, whose pointer has the kind of list and their
/// count.
fn numbers(alloc: Global, message: &mut Builder<HeapAllocator>) -> Result<Vec<u8>> {
    let list = root_of(&mut message.memory)?.init_list(ElementSize::TwoBytes, 3)?;
    if list.len() != 3 {
        return Err(Error::from(ErrorKind::OutOfBounds));
    }
    bytes_of(alloc, message)
}

#[test]
fn a_list_is_the_root(rt: HostRuntime) -> std::result::Result<(), Fail> {
    let alloc = rt.alloc();
    let bytes = with_message(alloc, |message| numbers(alloc, message))?;
    let expected = [1u8, 0, 0, 0, 0x1b, 0, 0, 0, 0, 0, 0, 0, 0, 0, 0, 0];
    assert!(rt; bytes.as_slice() == expected.as_slice());
    Ok(())
}

/// Makes a null root, and reads it before anything is written to it.
fn null_root(message: &mut Builder<HeapAllocator>) -> Result<(usize, usize)> {
    message.allocate_root()?;
    let mut limiter = DEFAULT_READER_OPTIONS.read_limiter();
    let read: &[u8] = message.get_root_as_reader(&mut limiter)?;
    let count = read.len();
    message.init_root::<PointerPlace>()?;
    Ok((count, message.size_in_words()))
}

#[test]
fn a_root_without_a_value_is_null(rt: HostRuntime) -> std::result::Result<(), Fail> {
    assert!(rt; with_message(rt.alloc(), null_root)? == (0, 1));
    Ok(())
}

/// Returns facts about the root of a message to which nothing was written: its number of bytes as
/// data, and whether it is the empty text and a null pointer. It also returns the words granted and
/// the pointers followed so far.
fn unwritten(message: &mut Builder<HeapAllocator>) -> Result<(usize, bool, bool, u64, u64)> {
    let mut limiter = ReadLimiter::new(Some(0));
    let bytes: &[u8] = message.get_root_as_reader(&mut limiter)?;
    let text: text::Reader<'_> = message.get_root_as_reader(&mut limiter)?;
    let any: any_pointer::Reader<'_, _> = message.get_root_as_reader(&mut limiter)?;
    let (granted, followed) = (limiter.granted(), limiter.followed());
    Ok((
        bytes.len(),
        text.eq_str(""),
        any.is_null(),
        granted,
        followed,
    ))
}

#[test]
fn a_root_that_was_not_made_is_null(rt: HostRuntime) -> std::result::Result<(), Fail> {
    assert!(rt; with_message(rt.alloc(), unwritten)? == (0, true, true, 0, 0));
    Ok(())
}

/// Returns the bytes of the text that is the root, if a segment was allocated by hand or no segment
/// was. In the first case the text has no bytes, in the second it doesn't exist.
fn by_hand(alloc: Global, allocate: bool) -> (Result<()>, Result<usize>) {
    let mut built: TypedBuilder<text::Owned, HeapAllocator> = TypedBuilder::new_default(alloc);
    let allocated = if allocate {
        built.message.memory.arena.allocate_segment(1)
    } else {
        Ok(())
    };
    let length = match built.get_root_as_reader(&mut ReadLimiter::new(None)) {
        Ok(text) => Ok(text.len()),
        Err(error) => Err(error),
    };
    let _heap = built.into_inner().into_allocator();
    (allocated, length)
}

#[test]
fn a_segment_without_words_has_no_root(rt: HostRuntime) -> std::result::Result<(), Fail> {
    let (allocated, length) = by_hand(rt.alloc(), false);
    assert!(rt; allocated.is_ok() && length? == 0);
    let (allocated, length) = by_hand(rt.alloc(), true);
    assert!(rt; allocated.is_ok());
    assert!(rt; length.err() == Some(Error::from(ErrorKind::OutOfBounds)));
    Ok(())
}

/// Returns the numbers of bytes of a text and data that are made as roots of a typed message.
fn blobs(alloc: Global) -> (Result<TextPlace>, Result<DataPlace>) {
    let mut built: TypedBuilder<text::Owned, HeapAllocator> = TypedBuilder::new_default(alloc);
    let text = built.initn_root(2);
    let mut bytes = built.into_inner().into_typed::<data::Owned>();
    let data = bytes.initn_root(3);
    let _heap = bytes.into_inner().into_allocator();
    (text, data)
}

#[test]
fn texts_and_data_are_roots(rt: HostRuntime) -> std::result::Result<(), Fail> {
    let (text, data) = blobs(rt.alloc());
    assert!(rt; text?.0.count == 2 && data?.0.count == 3);
    Ok(())
}

/// Returns the number of words of a message whose untyped root is begun by its type, then read.
fn untyped(alloc: Global) -> Result<usize> {
    let mut built: TypedBuilder<any_pointer::Owned, HeapAllocator> = TypedBuilder::new_default(
        alloc,
    );
    let begun: Result<PointerPlace> = built.init_root();
    let got: Result<PointerPlace> = built.get_root();
    let words = built.borrow_inner().size_in_words();
    let _heap = built.into_inner().into_allocator();
    begun?;
    got?;
    Ok(words)
}

#[test]
fn an_untyped_root_is_a_word(rt: HostRuntime) -> std::result::Result<(), Fail> {
    assert!(rt; untyped(rt.alloc())? == 1);
    Ok(())
}

/// Sets an untyped root to a text, and returns the number of words of the message.
fn set_hello(message: &mut Builder<HeapAllocator>) -> Result<usize> {
    let mut root = any_pointer::Builder::new(root_of(&mut message.memory)?);
    root.set_as::<text::Owned, &str>("Hello, World!")?;
    Ok(message.size_in_words())
}

#[test]
fn an_untyped_root_is_set(rt: HostRuntime) -> std::result::Result<(), Fail> {
    assert!(rt; with_message(rt.alloc(), set_hello)? == 3);
    Ok(())
}

/// A framed message: `a` is 7, and `t` is "hi".
const MESSAGE: [u8; 40] = [
    0, 0, 0, 0, 4, 0, 0, 0, 0, 0, 0, 0, 1, 0, 1, 0, 7, 0, 0, 0, 0, 0, 0, 0, 1, 0, 0, 0, 26, 0, 0,
    0, 104, 105, 0, 0, 0, 0, 0, 0,
];

#[test]
fn a_table_of_segments_is_taken(rt: HostRuntime) -> std::result::Result<(), Fail> {
    let buffer = MESSAGE.as_slice();
    let info = NoAllocSegmentTableInfo {
        segments_count: 1,
        segment_table_length_bytes: 8,
        total_segments_length_bytes: 32,
    };
    if !info.describes(buffer) {
        return Err(Fail::from("the table"));
    }
    let segments: NoAllocSliceSegments<'_> = NoAllocBufferSegments::from_segment_table_info(
        buffer, info,
    );
    assert!(rt; segments.len() == 1 && segments.get_segment(0) == Some(&MESSAGE[8..]));
    Ok(())
}
