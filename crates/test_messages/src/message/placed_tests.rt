//! Roots of callers' types: handles that know the places of their values.
ghost use Rattle.std.specs.Prelude.{◌≡◌, ◌≤◌, ◌++◌, length};
ghost use Rattle.std.specs.List.{flat_map};
ghost use Rattle.capnp_copy_arenas.specs.Memory.{AllZero};
ghost use Rattle.capnp_message.specs.Built.{loans_held};

use capnp_copy_arenas::allocator::{Allocator, SegmentBytes};
use capnp_copy_arenas::arena::{BuilderArena, Memory};
use capnp_copy_arenas::bytes::BlobPlace;
use capnp_copy_arenas::fields::StructPlace;
use capnp_layout_builders::struct_builder::StructBuilder;
use capnp_layout_builders::text_builder::TextBuilder;
use capnp_message::message::{
    Builder, HeapAllocator, ReaderSegments, SingleSegmentAllocator, TypedBuilder,
};
use capnp_message::placed::{DataPlace, OwnedPlaced, PlacedStruct, TextPlace};
use capnp_units::errors::{Error, Result};
use capnp_units::kinds::ErrorKind;
use capnp_units::sizes::StructSize;
use capnp_wire_objects::place::has_words;
use std::alloc::Global;
use std::test::Fail;

/// A number with a label: a data word and a pointer.
#[derive(Drop)]
struct Labelled(StructPlace);

impl PlacedStruct for Labelled {
    ghost STRUCT_SIZE = { record { data_words = 1; pointers = 1 } };

    ghost place_of = { λ o. o.0 };

    const STRUCT_SIZE: StructSize = StructSize {
        data_words: 1,
        pointers: 1,
    };

    fn at_place(place: StructPlace) -> Labelled {
        Labelled(place)
    }
}

/// An older version of that struct, without the label.
#[derive(Drop)]
struct Number(StructPlace);

impl PlacedStruct for Number {
    ghost STRUCT_SIZE = { record { data_words = 1; pointers = 0 } };

    ghost place_of = { λ o. o.0 };

    const STRUCT_SIZE: StructSize = StructSize {
        data_words: 1,
        pointers: 0,
    };

    fn at_place(place: StructPlace) -> Number {
        Number(place)
    }
}

/// The type of labelled numbers.
struct LabelledNumbers;

impl OwnedPlaced for LabelledNumbers {
    type Builder = Labelled;
}

/// Writes the number of a struct.
fn put<A: BuilderArena>(memory: &mut Memory<A>, place: StructPlace, value: u32) -> Result<()>
    ensures { A.books memory.new.arena ≡ A.books memory.old.arena }
{
    let words = place.data_words as usize;
    let near = place.start.position < 1 << 60;
    if words == 0 || !near || !has_words(&memory.arena, place.start, words) {
        return Err(Error::from(ErrorKind::OutOfBounds));
    }
    let mut fields = StructBuilder { memory, place };
    fields.set_data_field::<u32>(0, value);
    Ok(())
}

/// Returns the number of a struct.
fn number_of<A: BuilderArena>(memory: &mut Memory<A>, place: StructPlace) -> Result<u32>
    ensures { A.books memory.new.arena ≡ A.books memory.old.arena }
{
    if place.data_words == 0 || place.start.position >= 1 << 60 {
        return Err(Error::from(ErrorKind::OutOfBounds));
    }
    let fields = StructBuilder { memory, place };
    Ok(fields.get_data_field::<u32>(0))
}

/// Writes a text, as far as it has room.
fn write<A: BuilderArena>(memory: &mut Memory<A>, place: BlobPlace, value: &str)
    ensures { A.books memory.new.arena ≡ A.books memory.old.arena }
{
    let mut text = TextBuilder {
        memory,
        place,
        position: 0,
    };
    if value.len() <= text.len() && place.start.position < 1 << 60 {
        text.push_str(value);
    }
}

/// Returns the used bytes of the first segment.
fn bytes_of<S: ReaderSegments>(alloc: Global, message: &S) -> Result<Vec<u8>> {
    match message.get_segment(0) {
        Some(bytes) => Ok(Vec::from_slice(alloc, bytes)?),
        None => Ok(Vec::new(alloc)),
    }
}

/// Makes the root a number, and reads it as the newer type. Returns its pointers and the number.
fn widened<L: Allocator>(builder: &mut Builder<L>) -> Result<(u16, u32)>
    ensures loans { loans_held builder.new.memory.arena ≡ loans_held builder.old.memory.arena }
    ensures place { L.place builder.new.memory.arena.allocator
        ≡ L.place builder.old.memory.arena.allocator }
{
    let made = builder.init_root::<Number>()?;
    put(&mut builder.memory, made.0, 7)?;
    let got = builder.get_root::<Labelled>()?;
    Ok((got.0.pointers, number_of(&mut builder.memory, got.0)?))
}

/// Makes the root a text, which is written, and then data of n bytes. Returns the length of the
/// text when it was read.
fn text_and_data<L: Allocator>(builder: &mut Builder<L>, count: u32) -> Result<u32>
    ensures { loans_held builder.new.memory.arena ≡ loans_held builder.old.memory.arena }
{
    let made = builder.initn_root::<TextPlace>(2)?;
    write(&mut builder.memory, made.0, "hi");
    let got = builder.get_root::<TextPlace>()?;
    builder.initn_root::<DataPlace>(count)?;
    let data = builder.get_root::<DataPlace>()?;
    Ok(got.0.count.saturating_mul(100).saturating_add(data.0.count))
}

/// Builds this message, and returns its bytes too.
fn widened_bytes<L: Allocator>(
    alloc: Global,
    builder: &mut Builder<L>,
) -> Result<((u16, u32), Vec<u8>)>
    ensures loans { loans_held builder.new.memory.arena ≡ loans_held builder.old.memory.arena }
    ensures place { L.place builder.new.memory.arena.allocator
        ≡ L.place builder.old.memory.arena.allocator }
{
    let seen = widened(builder)?;
    let bytes = bytes_of(alloc, builder)?;
    Ok((seen, bytes))
}

/// Does this over an allocator.
fn built<L: Allocator>(alloc: Global, allocator: &mut L) -> Result<((u16, u32), Vec<u8>)>
    requires { length (L.loans allocator.old) ≤ 1 }
    ensures loans { L.loans allocator.new ≡ L.loans allocator.old }
    ensures place { L.place allocator.new ≡ L.place allocator.old }
{
    let mut builder = Builder::new(alloc, allocator);
    let seen = widened_bytes(alloc, &mut builder);
    let _back = builder.into_allocator();
    seen
}

/// Does this only in a lent slice, which returns all zeros.
fn built_in(alloc: Global, region: &mut [u8]) -> Result<((u16, u32), Vec<u8>)>
    ensures { AllZero region.new }
{
    let mut single = SingleSegmentAllocator::new(region);
    built(alloc, &mut single)
}

/// The number comes after the root pointer first, and then after the zeros of the old struct.
#[test]
fn a_root_is_made_and_got_as_a_newer_type(rt: HostRuntime) -> std::result::Result<(), Fail> {
    let mut heap = HeapAllocator::new(rt.alloc());
    let (seen, bytes) = built(rt.alloc(), &mut heap)?;
    assert!(rt; seen == (1, 7));
    let expected = [
        4u8, 0, 0, 0, 1, 0, 1, 0, 0, 0, 0, 0, 0, 0, 0, 0, 7, 0, 0, 0, 0, 0, 0, 0, 0, 0, 0, 0, 0, 0,
        0, 0,
    ];
    assert!(rt; bytes.as_slice() == expected.as_slice());
    let mut region = [0xeeu8; 32];
    assert!(rt; built_in(rt.alloc(), &mut region)?.0 == (1, 7));
    assert!(rt; region.iter().all(|byte| *byte == 0));
    let full = built_in(rt.alloc(), &mut region[..24]).err();
    assert!(rt; full == Some(Error::from(ErrorKind::BufferNotLargeEnough)));
    let full = built_in(rt.alloc(), &mut region[..8]).err();
    assert!(rt; full == Some(Error::from(ErrorKind::BufferNotLargeEnough)));
    Ok(())
}

/// Makes and reads a text, data in its place, and a root that is not a struct.
fn blobs(alloc: Global) -> Result<(u32, Vec<u8>, Option<Error>)> {
    let mut builder = Builder::new_default(alloc);
    let seen = text_and_data(&mut builder, 5);
    let bytes = bytes_of(alloc, &builder);
    let refused = builder.get_root::<Labelled>().err();
    let _heap = builder.into_allocator();
    Ok((seen?, bytes?, refused))
}

#[test]
fn roots_with_a_count_are_made(rt: HostRuntime) -> std::result::Result<(), Fail> {
    let (seen, bytes, refused) = blobs(rt.alloc())?;
    assert!(rt; seen == 205);
    let expected = [
        5u8, 0, 0, 0, 0x2a, 0, 0, 0, 0, 0, 0, 0, 0, 0, 0, 0, 0, 0, 0, 0, 0, 0, 0, 0,
    ];
    assert!(rt; bytes.as_slice() == expected.as_slice());
    assert!(rt; refused == Some(Error::from(ErrorKind::WrongPointerKind)));
    Ok(())
}

/// Builds a typed message whose root is read before it is made, and then written.
fn got_and_made<A: Allocator>(typed: &mut TypedBuilder<LabelledNumbers, A>) -> Result<(u32, u32)>
    ensures { loans_held typed.new.message.memory.arena
        ≡ loans_held typed.old.message.memory.arena }
{
    let got = typed.get_root()?;
    let before = number_of(&mut typed.message.memory, got.0)?;
    let made = typed.init_root()?;
    put(&mut typed.message.memory, made.0, 9)?;
    let again = typed.get_root()?;
    Ok((before, number_of(&mut typed.message.memory, again.0)?))
}

fn typed(alloc: Global) -> Result<((u32, u32), Vec<u8>)> {
    let mut builder: TypedBuilder<LabelledNumbers, HeapAllocator> = TypedBuilder::new_default(
        alloc,
    );
    let seen = got_and_made(&mut builder);
    let bytes = bytes_of(alloc, builder.borrow_inner());
    let _heap = builder.into_inner().into_allocator();
    Ok((seen?, bytes?))
}

/// The first struct is cleared when another is made.
#[test]
fn typed_roots_are_made_and_got(rt: HostRuntime) -> std::result::Result<(), Fail> {
    let (seen, bytes) = typed(rt.alloc())?;
    assert!(rt; seen == (0, 9));
    let expected = [
        8u8, 0, 0, 0, 1, 0, 1, 0, 0, 0, 0, 0, 0, 0, 0, 0, 0, 0, 0, 0, 0, 0, 0, 0, 9, 0, 0, 0, 0, 0,
        0, 0, 0, 0, 0, 0, 0, 0, 0, 0,
    ];
    assert!(rt; bytes.as_slice() == expected.as_slice());
    Ok(())
}
