//! Messages whose root's type is known, and messages that continue after existing words.
ghost use Rattle.std.specs.Prelude.{◌≡◌, ◌+◌, ◌*◌, ◌^◌, ◌<◌, ◌≤◌, length};
ghost use Rattle.capnp_copy_arenas.specs.Memory.{AllZero, ZeroFrom};
ghost use Rattle.capnp_message.specs.Built.{loans_held};

use crate::fault::Fault;
use crate::marks;
use crate::messages::{end, outcome, segments_of, small, stands, tree_of};
use crate::roots::seen;
use crate::samples::OLD_TEXT;
use capnp_copy_arenas::allocator::{Allocator, SegmentBytes};
use capnp_message::message::{
    AllocationStrategy, Builder, DEFAULT_READER_OPTIONS, HeapAllocator, ScratchSpaceHeapAllocator,
    TypedBuilder, TypedReader,
};
use capnp_message::opening::OpensSegment;
use capnp_text::text;
use capnp_units::errors::{Error, Result};
use capnp_units::kinds::ErrorKind;
use capnp_units::limiter::ReadLimiter;

/// A message whose root is a text.
type Text = TypedBuilder<text::Owned, HeapAllocator>;

/// The words of the text after which a message continues.
const USED: u32 = 2;

/// Makes the named call, at a message without segments.
fn make(message: &mut Text, call: &str) -> Result<()> {
    match call {
        "set_root" => message.set_root("hi"),
        "init_root" => {
            let _text = message.init_root()?;
            Ok(())
        }
        "initn_root" => {
            let _text = message.initn_root(2)?;
            Ok(())
        }
        "get_root" => {
            let _text = message.get_root()?;
            Ok(())
        }
        _ => Err(Error::from(ErrorKind::FieldNotFound)),
    }
}

/// Makes a case, and returns its line.
pub fn told(rt: &HostRuntime, call: &str) -> std::result::Result<String, Fault> {
    let alloc = rt.alloc();
    let mut message: Text = small(alloc).into_typed();
    marks::begin(rt);
    let done = make(&mut message, call);
    marks::end(rt);
    let told = seen(alloc, &message.message.memory.arena, done);
    end(message.into_inner());
    told
}

/// Sets the root of a message that continues after a text to another text, unless it is left
/// unchanged. Returns the line.
fn told_of<L: Allocator>(
    rt: &HostRuntime,
    builder: &mut Builder<L>,
    held: Result<()>,
    is_left: bool,
) -> std::result::Result<String, Fault>
    ensures loans { loans_held builder.new.memory.arena ≡ loans_held builder.old.memory.arena }
    ensures place { L.place builder.new.memory.arena.allocator
        ≡ L.place builder.old.memory.arena.allocator }
{
    let alloc = rt.alloc();
    if is_left || held.is_err() {
        return seen(alloc, &builder.memory.arena, held);
    }
    let before = segments_of(alloc, &builder.memory.arena)?;
    marks::begin(rt);
    let done = builder.set_root::<text::Owned, &str>("hi");
    marks::end(rt);
    let is_standing = stands(&builder.memory.arena, &before);
    let tree = tree_of(alloc, &builder.memory.arena)?;
    outcome(alloc, done, is_standing, tree.as_str())
}

/// Makes a message that takes a segment with used words, and returns its line.
fn told_of_held(
    rt: &HostRuntime,
    segment: Vec<u8>,
    is_left: bool,
) -> std::result::Result<String, Fault>
    requires inside { 8 * 2 ≤ length segment.items }
    requires rest { ZeroFrom (8 * 2) segment.items }
{
    let heap = HeapAllocator::new(rt.alloc())
        .first_segment_words(1)
        .allocation_strategy(AllocationStrategy::FixedSize);
    let mut builder = Builder::new(rt.alloc(), heap);
    marks::begin(rt);
    let held = builder.hold_segment(segment, USED);
    marks::end(rt);
    let told = told_of(rt, &mut builder, held, is_left);
    end(builder);
    told
}

/// Makes a message over an allocator that holds a segment with used words, and returns its line.
fn told_of_opened<L: OpensSegment>(
    rt: &HostRuntime,
    allocator: &mut L,
    is_left: bool,
) -> std::result::Result<String, Fault>
    requires { length (L.loans allocator.old) ≤ 1 }
    ensures loans { L.loans allocator.new ≡ L.loans allocator.old }
    ensures place { L.place allocator.new ≡ L.place allocator.old }
{
    let mut builder = Builder::new(rt.alloc(), allocator);
    marks::begin(rt);
    let held = builder.open();
    marks::end(rt);
    let told = told_of(rt, &mut builder, held, is_left);
    let _back = builder.into_allocator();
    told
}

/// Makes a message in a lent slice with used words, and returns its line. The slice comes back all
/// zeros.
fn told_in(rt: &HostRuntime, region: &mut [u8], is_left: bool) -> std::result::Result<String, Fault>
    requires { 8 * 2 ≤ length region.old }
    ensures { AllZero region.new }
{
    let mut scratch = ScratchSpaceHeapAllocator::open(rt.alloc(), region, USED);
    scratch.allocation_strategy(AllocationStrategy::FixedSize);
    scratch.second_segment_words(1);
    told_of_opened(rt, &mut scratch, is_left)
}

/// Makes a case of a message that continues after existing words, and returns its line. The message
/// takes a segment of its allocator's, or opens a lent slice, and is left unchanged or set.
pub fn told_of_words(rt: &HostRuntime, call: &str) -> std::result::Result<String, Fault> {
    let alloc = rt.alloc();
    let mut words = hex::decode(alloc, OLD_TEXT.as_bytes())?;
    if words.len() != 16 {
        return Err(Fault::Unmade);
    }
    match call {
        "hold_segment" => told_of_held(rt, words, true),
        "hold_segment_and_set" => told_of_held(rt, words, false),
        "open" | "open_and_set" => {
            let told = told_in(rt, &mut words, call == "open")?;
            let count = words.iter().filter(|byte| **byte == 0).count();
            Ok(format!(in alloc; "{}; {count} bytes are zero", told.as_str())?)
        }
        _ => Err(Fault::NoCase),
    }
}

/// Reads a typed message where it was built, which takes no memory. Returns its line.
pub fn read(rt: &HostRuntime) -> std::result::Result<String, Fault> {
    let alloc = rt.alloc();
    let mut message: Text = small(alloc).into_typed();
    let done = message.set_root("hi");
    let mut unlimited = ReadLimiter::new(None);
    marks::begin(rt);
    let length = match message.get_root_as_reader(&mut unlimited) {
        Ok(text) => Ok(text.len()),
        Err(error) => Err(error),
    };
    let reader: TypedReader<_, text::Owned> = message.into_reader();
    let mut limiter = DEFAULT_READER_OPTIONS.read_limiter();
    let again = match reader.get(&mut limiter) {
        Ok(text) => Ok(text.len()),
        Err(error) => Err(error),
    };
    let builder = reader.into_inner().into_segments();
    marks::end(rt);
    end(builder);
    done?;
    Ok(format!(in alloc; "{} bytes, {} bytes", length?, again?)?)
}
