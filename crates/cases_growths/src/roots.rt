//! Roots of messages over each allocator.
ghost use Rattle.std.specs.Prelude.{◌≡◌, ◌≤◌, length};
ghost use Rattle.capnp_copy_arenas.specs.Memory.{AllZero};
ghost use Rattle.capnp_message.specs.Built.{loans_held};

use crate::fault::Fault;
use crate::marks;
use crate::messages::{end, outcome, roomy, stands, tree_of};
use crate::samples::{STRUCT, STRUCT_WORDS};
use capnp_copy_arenas::allocator::Allocator;
use capnp_copy_arenas::fields::StructPlace;
use capnp_message::message::{
    AllocationStrategy, Builder, DEFAULT_READER_OPTIONS, HeapAllocator, Reader,
    ScratchSpaceHeapAllocator, SegmentArray, SingleSegmentAllocator,
};
use capnp_message::placed::{DataPlace, PlacedStruct, PointerPlace, TextPlace};
use capnp_text::{data, text};
use capnp_units::errors::{Error, Result};
use capnp_units::kinds::ErrorKind;
use capnp_units::limiter::ReadLimiter;
use capnp_units::sizes::StructSize;
use capnp_wire_objects::arena::ReaderArena;
use std::alloc::Global;

/// A struct of a data word and a pointer.
#[derive(Drop)]
struct Record(StructPlace);

impl PlacedStruct for Record {
    ghost STRUCT_SIZE = { record { data_words = 1; pointers = 1 } };

    ghost place_of = { λ o. o.0 };

    const STRUCT_SIZE: StructSize = StructSize {
        data_words: 1,
        pointers: 1,
    };

    fn at_place(place: StructPlace) -> Record {
        Record(place)
    }
}

/// Makes the named call, at a message without segments.
fn make<L: Allocator>(
    alloc: Global,
    builder: &mut Builder<L>,
    call: &str,
    words: &[u8],
) -> Result<()>
    ensures loans { loans_held builder.new.memory.arena ≡ loans_held builder.old.memory.arena }
    ensures place { L.place builder.new.memory.arena.allocator
        ≡ L.place builder.old.memory.arena.allocator }
{
    match call {
        "allocate_root" => builder.allocate_root(),
        "set_root" => builder.set_root::<text::Owned, &str>("hi"),
        "set_root_text" => builder.set_root::<text::Owned, text::Reader<'_>>(text::Reader(b"hi")),
        "set_root_data" => builder.set_root::<data::Owned, &[u8]>(&[1, 2, 3]),
        "init_root" => {
            let _record = builder.init_root::<Record>()?;
            Ok(())
        }
        "initn_root_text" => {
            let _text = builder.initn_root::<TextPlace>(2)?;
            Ok(())
        }
        "initn_root_data" => {
            let _data = builder.initn_root::<DataPlace>(2)?;
            Ok(())
        }
        "get_root" => {
            let _record = builder.get_root::<Record>()?;
            Ok(())
        }
        "get_root_pointer" => {
            let _pointer = builder.get_root::<PointerPlace>()?;
            Ok(())
        }
        "set_root_canonical" => {
            let segments: [&[u8]; 1] = [words];
            let source = Reader::new(SegmentArray::new(&segments), DEFAULT_READER_OPTIONS);
            let mut limiter = DEFAULT_READER_OPTIONS.read_limiter();
            builder.set_root_canonical(alloc, &mut limiter, &source)
        }
        _ => Err(Error::from(ErrorKind::FieldNotFound)),
    }
}

/// Describes a message that had no segment.
pub fn seen<A: ReaderArena>(
    alloc: Global,
    arena: &A,
    done: Result<()>,
) -> std::result::Result<String, Fault> {
    let is_standing = stands(arena, &Vec::new(alloc));
    outcome(alloc, done, is_standing, tree_of(alloc, arena)?.as_str())
}

/// Makes a call at a message over an allocator, and returns its line.
fn told_over<L: Allocator>(
    rt: &HostRuntime,
    allocator: &mut L,
    call: &str,
    words: &[u8],
) -> std::result::Result<String, Fault>
    requires { length (L.loans allocator.old) ≤ 1 }
    ensures loans { L.loans allocator.new ≡ L.loans allocator.old }
    ensures place { L.place allocator.new ≡ L.place allocator.old }
{
    let mut builder = Builder::new(rt.alloc(), allocator);
    marks::begin(rt);
    let done = make(rt.alloc(), &mut builder, call, words);
    marks::end(rt);
    let told = seen(rt.alloc(), &builder.memory.arena, done);
    let _back = builder.into_allocator();
    told
}

/// Makes a call at a message over segments of the heap, of as few words as possible, and returns
/// its line.
fn told_on_heap(rt: &HostRuntime, call: &str, words: &[u8]) -> std::result::Result<String, Fault> {
    let mut heap = HeapAllocator::new(rt.alloc())
        .first_segment_words(1)
        .allocation_strategy(AllocationStrategy::FixedSize);
    told_over(rt, &mut heap, call, words)
}

/// Makes a call at a message in a slice, which the heap may follow, and returns its line. The slice
/// comes back all zeros.
fn told_in(
    rt: &HostRuntime,
    region: &mut [u8],
    is_alone: bool,
    call: &str,
    words: &[u8],
) -> std::result::Result<String, Fault>
    ensures { AllZero region.new }
{
    if is_alone {
        let mut single = SingleSegmentAllocator::new(region);
        return told_over(rt, &mut single, call, words);
    }
    let mut scratch = ScratchSpaceHeapAllocator::new(rt.alloc(), region);
    scratch.allocation_strategy(AllocationStrategy::FixedSize);
    scratch.second_segment_words(1);
    told_over(rt, &mut scratch, call, words)
}

/// Makes a case of an allocator and a call, and returns its line.
pub fn told(rt: &HostRuntime, name: &str) -> std::result::Result<String, Fault> {
    let alloc = rt.alloc();
    let (allocator, call) = name.split_once('.').ok_or(Fault::NoCase)?;
    if name == "heap.set_words" {
        return told_of_words(rt);
    }
    let words = hex::decode(alloc, STRUCT.as_bytes())?;
    let mut region = [0xeeu8; 64];
    let text = match allocator {
        "heap" => return told_on_heap(rt, call, &words),
        "scratch" => told_in(rt, &mut region[..8], false, call, &words)?,
        "single" => told_in(rt, &mut region, true, call, &words)?,
        _ => return Err(Fault::NoCase),
    };
    let count = region.iter().filter(|byte| **byte == 0).count();
    Ok(format!(in alloc; "{}; {count} bytes are zero", text.as_str())?)
}

/// Makes a message over the heap from words, and returns its line.
fn told_of_words(rt: &HostRuntime) -> std::result::Result<String, Fault> {
    let alloc = rt.alloc();
    let mut builder = Builder::new(alloc, HeapAllocator::new(alloc));
    marks::begin(rt);
    let done = builder.set_words(&STRUCT_WORDS);
    marks::end(rt);
    let told = seen(alloc, &builder.memory.arena, done);
    end(builder);
    told
}

/// Reads a message where it was built, and gives it back, which takes no memory. Returns its line.
pub fn read_back(rt: &HostRuntime) -> std::result::Result<String, Fault> {
    let alloc = rt.alloc();
    let mut builder = roomy(alloc);
    let done = builder.set_root::<text::Owned, &str>("hi");
    let mut unlimited = ReadLimiter::new(None);
    marks::begin(rt);
    let reader = builder.into_reader();
    let words = reader.size_in_words();
    let is_canonical = reader.is_canonical(&mut unlimited);
    let builder = reader.into_segments();
    marks::end(rt);
    end(builder);
    done?;
    Ok(format!(in alloc; "{words} words, canonical {}", is_canonical?)?)
}
