//! Copies of objects by their parts: sections that end within a word, and lists that readers never
//! return.
ghost use Rattle.std.specs.Prelude.{◌≡◌, true};
ghost use Rattle.std.specs.Option.{is_some};
ghost use Rattle.capnp_model.specs.Segments.{words_at};
ghost use Rattle.capnp_units.specs.Segments.{words_in};
ghost use Rattle.capnp_wire_objects.specs.Places.{place_view};

use crate::builders::support::{ROOT, exact_segments};
use capnp_copy_arenas::arena::BuilderArena;
use capnp_copy_arenas::blobs::set_data;
use capnp_copy_arenas::fields::StructPlace;
use capnp_copy_arenas::init::init_struct;
use capnp_copy_arenas::segments::BuilderArenaImpl;
use capnp_copy_values::contents::copy_content_from;
use capnp_copy_values::copy::copy_object;
use capnp_copy_values::lists::{ListSource, set_list};
use capnp_copy_values::structs::set_struct;
use capnp_units::errors::{Error, Result as Answer};
use capnp_units::kinds::ErrorKind;
use capnp_units::limiter::ReadLimiter;
use capnp_units::sizes::{ElementSize, StructSize};
use capnp_wire_objects::arena::{ReaderArena, ReaderArenaImpl};
use capnp_wire_objects::follow::follow_within;
use capnp_wire_objects::place::{Place, has_words};
use std::alloc::Global;
use std::test::Fail;
use test_support::bytes_of;

/// The part of a message that is copied:
/// - the object that its root names, which is paid for already;
/// - the nine bytes from the second word on, with the pointer in the fourth word;
/// - these as the content of a struct of two words and two pointers;
/// - or n voids.
#[derive(Clone, Copy)]
enum Part {
    Object,
    Struct,
    Content,
    Voids(u32),
}

/// Nine bytes, and a pointer to the text `hi`.
const NINE: [u64; 5] = [
    0,
    0x0807_0605_0403_0201,
    0x1817_1615_1413_1211,
    0x1a_0000_0001,
    0x6968,
];

/// A struct of one data word 7 and one pointer to the text `hi`, whose list follows it.
const WITH_TEXT: [u64; 4] = [0x1_0001_0000_0000, 7, 0x1a_0000_0001, 0x6968];

/// The place of the pointer of the nine bytes.
const FIRST: Place = Place {
    segment: 0,
    position: 3,
};

/// Copies the content over a new struct at the root.
fn content<A: BuilderArena, B: ReaderArena>(
    arena: &mut A,
    limiter: &mut ReadLimiter,
    source: &B,
    section: &[u8],
) -> Answer<()>
    requires { is_some (words_at (words_in (A.segments arena.old)) (place_view ROOT) 1) ≡ true }
    ensures { A.books arena.new ≡ A.books arena.old }
{
    let size = StructSize {
        data_words: 2,
        pointers: 2,
    };
    let object: StructPlace = init_struct(arena, ROOT, size)?;
    if object.start.position > 100 || !has_words(arena, object.start, 4) {
        return Err(Error::from(ErrorKind::OutOfBounds));
    }
    if object.data_words != 2 || object.pointers != 2 {
        return Err(Error::from(ErrorKind::OutOfBounds));
    }
    copy_content_from(arena, object, limiter, source, section, FIRST, 1, 64)
}

/// Copies a part over a root that has data or is null.
fn copied_over<A: BuilderArena, B: ReaderArena>(
    arena: &mut A,
    limiter: &mut ReadLimiter,
    source: &B,
    part: Part,
    before: &[u8],
) -> Answer<()>
    ensures { A.books arena.new ≡ A.books arena.old }
{
    arena.allocate_anywhere(1)?;
    if !has_words(arena, ROOT, 1) {
        return Err(Error::from(ErrorKind::OutOfBounds));
    }
    if !before.is_empty() {
        set_data(arena, ROOT, before)?;
    }
    let section: &[u8] = match source.get_segment(0) {
        Some(bytes) if bytes.len() >= 17 => &bytes[8..17],
        _ => &[],
    };
    if !has_words(arena, ROOT, 1) {
        return Err(Error::from(ErrorKind::OutOfBounds));
    }
    match part {
        Part::Object => {
            let object = follow_within(source, &mut ReadLimiter::new(None), ROOT, 64)?;
            copy_object(arena, ROOT, limiter, source, object, 63)
        }
        Part::Struct => set_struct(arena, ROOT, limiter, source, section, FIRST, 1, 64),
        Part::Content => content(arena, limiter, source, section),
        Part::Voids(count) => {
            let list = ListSource {
                start: FIRST,
                size: ElementSize::Void,
                count,
                data_words: 0,
                pointers: 0,
            };
            set_list(arena, ROOT, limiter, source, &[], list, 64)
        }
    }
}

/// The outcome of a copy: its result, the words granted and the pointers followed, and the bytes of
/// the first segment, which has 100 words.
#[derive(Drop)]
struct Outcome {
    answer: Answer<()>,
    took: (u64, u64),
    bytes: Vec<u8>,
}

fn copied(
    alloc: Global,
    message: &[u64],
    budget: u64,
    part: Part,
    before: &[u8],
) -> Result<Outcome, Fail> {
    let segments = vec![in alloc; bytes_of(alloc, message)?]?;
    let source = ReaderArenaImpl::new(&segments, 64);
    let mut limiter = ReadLimiter::new(Some(budget));
    let mut arena = BuilderArenaImpl::new(alloc, exact_segments(alloc, 1));
    let added = arena.allocate_segment(100);
    let answer = copied_over(&mut arena, &mut limiter, &source, part, before);
    let bytes = match arena.get_segment(0) {
        Some(bytes) => bytes.to_vec(alloc),
        None => Ok(Vec::new(alloc)),
    };
    drop(arena.into_allocator());
    added?;
    Ok(Outcome {
        answer,
        took: (limiter.granted(), limiter.followed()),
        bytes: bytes?,
    })
}

/// Only the objects below an object are followed and paid for: the old value remains if the copy
/// costs more words than are left.
#[test]
fn objects_that_are_paid_for(rt: HostRuntime) -> Result<(), Fail> {
    let alloc = rt.alloc();
    let done = copied(alloc, &WITH_TEXT, 1, Part::Object, b"")?;
    assert!(rt; (done.answer, done.took) == (Ok(()), (1, 1)));
    assert!(rt; done.bytes == bytes_of(alloc, &WITH_TEXT)?);
    let done = copied(alloc, &WITH_TEXT, 0, Part::Object, &[1, 2, 3])?;
    assert!(rt; done.answer.err() == Some(Error::from(ErrorKind::ReadLimitExceeded)));
    assert!(rt; done.bytes == bytes_of(alloc, &[0x1a_0000_0001, 0x03_0201, 0, 0])?);
    Ok(())
}

/// The bytes that the last word lacks are zero.
#[test]
fn sections_of_nine_bytes(rt: HostRuntime) -> Result<(), Fail> {
    let alloc = rt.alloc();
    let set = copied(alloc, &NINE, 1, Part::Struct, b"")?;
    assert!(rt; (set.answer, set.took) == (Ok(()), (1, 1)));
    let words = [0x1_0002_0000_0000, NINE[1], 0x11, 0x1a_0000_0001, 0x6968];
    assert!(rt; set.bytes == bytes_of(alloc, &words)?);
    let taken = copied(alloc, &NINE, 1, Part::Content, b"")?;
    assert!(rt; (taken.answer, taken.took) == (Ok(()), (1, 1)));
    let words = [0x2_0002_0000_0000, NINE[1], 0x11, 0x1a_0000_0005, 0, 0x6968];
    assert!(rt; taken.bytes == bytes_of(alloc, &words)?);
    Ok(())
}

/// Copies as many voids as a list can count, and one more.
#[test]
fn more_elements_than_a_list_has(rt: HostRuntime) -> Result<(), Fail> {
    let alloc = rt.alloc();
    let most = copied(alloc, &[0, 0], 0, Part::Voids(0x1fff_ffff), b"")?;
    assert!(rt; most.answer == Ok(()));
    assert!(rt; most.bytes == bytes_of(alloc, &[0xffff_fff8_ffff_fffd])?);
    let more = copied(alloc, &[0, 0], 0, Part::Voids(0x2000_0000), &[1, 2, 3])?;
    assert!(rt; more.answer.err() == Some(Error::from(ErrorKind::SizeOverflow)));
    assert!(rt; more.bytes == bytes_of(alloc, &[0x1a_0000_0001, 0x03_0201])?);
    Ok(())
}
