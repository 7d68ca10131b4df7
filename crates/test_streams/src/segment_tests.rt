//! Segments that are owned, and tables of the places of segments.

use crate::messages::{THREE, is_three};
use capnp_stream::buffers::{BufferSegments, NoAllocBufferSegments};
use capnp_stream::flat::NoAllocSegmentTableInfo;
use capnp_stream::forms::Framed;
use capnp_stream::frames::read_message_in;
use capnp_stream::segments::{SegmentLengthsBuilder, words_of};
use capnp_units::errors::Result;
use capnp_units::kinds::ErrorKind;
use capnp_units::segments::ReaderSegments;
use std::alloc::Global;
use std::test::Fail;

/// Makes the table of three segments.
fn three(alloc: Global) -> Result<SegmentLengthsBuilder> {
    let mut table = SegmentLengthsBuilder::with_capacity(alloc, 3)?;
    table.try_push_segment(1)?;
    table.try_push_segment(0)?;
    table.try_push_segment(2)?;
    Ok(table)
}

#[test]
fn segments_give_their_words(rt: HostRuntime) -> std::result::Result<(), Fail> {
    let alloc = rt.alloc();
    let mut message = read_message_in::<Framed, &[u8]>(alloc, &mut THREE.as_slice(), None)?;
    let words = message.segment_words(alloc, 2)?;
    assert!(rt; words.map(|w| w.as_slice() == [9, 10].as_slice()) == Some(true));
    assert!(rt; message.segment_words(alloc, 3)?.is_none());
    assert!(rt; words_of(alloc, &THREE[24..])?.as_slice() == [9, 10].as_slice());
    assert!(rt; message.as_slice() == &THREE[16..]);
    message.as_mut_slice()[8] = 7;
    assert!(rt; message.get_segment(2).map(|s| s.first() == Some(&7)) == Some(true));
    Ok(())
}

#[test]
fn tables_tell_where_segments_lie(rt: HostRuntime) -> std::result::Result<(), Fail> {
    let alloc = rt.alloc();
    let mut table = three(alloc)?;
    assert!(rt; table.total_words() == 3);
    let large = table.try_push_segment(usize::MAX - 2).err();
    assert!(rt; large.map(|e| e.kind) == Some(ErrorKind::MessageTooLarge));
    let owned = table.into_owned_segments(alloc)?;
    assert!(rt; owned.len() == 3);
    assert!(rt; owned.get_segment(2) == Some([0u8; 16].as_slice()));
    let places = three(alloc)?.to_segment_indices();
    assert!(rt; places.as_slice() == [(0, 1), (1, 1), (1, 3)].as_slice());
    Ok(())
}

#[test]
fn sizes_past_all_memory_are_sizes(rt: HostRuntime) -> std::result::Result<(), Fail> {
    let alloc = rt.alloc();
    let mut table = SegmentLengthsBuilder::with_capacity(alloc, 2)?;
    table.try_push_segment(1 << 61)?;
    let refused = table.into_owned_segments(alloc).err();
    assert!(rt; refused.map(|e| e.kind) == Some(ErrorKind::MessageTooLarge));
    let mut table = SegmentLengthsBuilder::with_capacity(alloc, 1)?;
    table.try_push_segment(131_072)?;
    let owned = table.into_owned_segments(alloc)?;
    assert!(rt; owned.as_slice().len() == 1_048_576);
    assert!(rt; (*owned).len() == 1_048_576);
    Ok(())
}

/// Returns whether the slice after n bytes is cut into the three segments; `None` if the table
/// doesn't fit.
fn is_cut_into_three(alloc: Global, slice: &[u8], behind: usize) -> Result<Option<bool>> {
    let table = three(alloc)?;
    if !table.describes(slice, behind) {
        return Ok(None);
    }
    Ok(Some(is_three(&table.into_slice_segments(slice, behind))))
}

#[test]
fn slices_are_cut_by_a_table(rt: HostRuntime) -> std::result::Result<(), Fail> {
    let alloc = rt.alloc();
    assert!(rt; is_cut_into_three(alloc, &THREE, 16)? == Some(true));
    assert!(rt; is_cut_into_three(alloc, &THREE, 8)? == Some(false));
    assert!(rt; is_cut_into_three(alloc, &THREE, 17)? == None);
    assert!(rt; is_cut_into_three(alloc, &THREE, 41)? == None);
    Ok(())
}

#[test]
fn buffers_are_given_back(rt: HostRuntime) -> std::result::Result<(), Fail> {
    let alloc = rt.alloc();
    let mut bytes = [5u8; 42];
    bytes[..40].copy_from_slice(&THREE);
    let held = BufferSegments::new(alloc, Vec::from_slice(alloc, &bytes)?, None)?;
    assert!(rt; is_three(&held));
    assert!(rt; held.into_buffer().len() == 42);
    assert!(rt; is_three(&NoAllocBufferSegments::from_buffer(bytes, None)?));
    let info = NoAllocSegmentTableInfo {
        segments_count: 3,
        segment_table_length_bytes: 16,
        total_segments_length_bytes: 24,
    };
    assert!(rt; info.describes(&THREE));
    assert!(rt; !info.describes(&THREE[..39]));
    assert!(rt; !info.describes(&[0u8; 64]));
    Ok(())
}
