//! Pointers that are set to inputs of texts and data.
ghost use Rattle.std.specs.Prelude.{◌≡◌};

use crate::builders::support::{ROOT, exact_segments, holds};
use capnp_copy_arenas::arena::{BuilderArena, Memory};
use capnp_copy_arenas::segments::BuilderArenaImpl;
use capnp_layout_builders::pointer_builder::PointerBuilder;
use capnp_layout_builders::traits::SetterInput;
use capnp_text::{data, text};
use capnp_units::errors::{Error, Result};
use capnp_units::kinds::ErrorKind;
use capnp_wire_objects::place::has_words;
use std::alloc::Global;
use std::test::Fail;

/// Sets the root to an input.
fn put<A: BuilderArena, T, I: SetterInput<T> + Drop>(memory: &mut Memory<A>, input: I) -> Result<()>
    ensures { A.books memory.new.arena ≡ A.books memory.old.arena }
{
    if !has_words(&memory.arena, ROOT, 1) {
        return Err(Error::from(ErrorKind::OutOfBounds));
    }
    let root = PointerBuilder::get_root(memory);
    I::set_pointer_builder(root, input, false)
}

/// Returns whether each input is read as it was set: data, a text, a `str` and a `String`.
fn set_in_turn<A: BuilderArena>(
    memory: &mut Memory<A>,
    string: &String,
) -> Result<(bool, bool, bool, bool)>
    ensures { A.books memory.new.arena ≡ A.books memory.old.arena }
{
    memory.arena.allocate_anywhere(1)?;
    let bytes: &[u8] = b"\x01\x02\x03";
    put::<A, data::Owned, &[u8]>(memory, bytes)?;
    let first = holds(&memory.arena, bytes, false)?;
    put::<A, text::Owned, text::Reader<'_>>(memory, text::Reader(b"text"))?;
    let second = holds(&memory.arena, b"text", true)?;
    put::<A, text::Owned, &str>(memory, "a str")?;
    let third = holds(&memory.arena, b"a str", true)?;
    put::<A, text::Owned, &String>(memory, string)?;
    let fourth = holds(&memory.arena, string.as_bytes(), true)?;
    Ok((first, second, third, fourth))
}

/// Does this in a message of at most n segments.
fn seen(alloc: Global, segments: u32, string: &String) -> Result<(bool, bool, bool, bool)> {
    let mut memory = Memory {
        arena: BuilderArenaImpl::new(alloc, exact_segments(alloc, segments)),
    };
    let seen = set_in_turn(&mut memory, string);
    let Memory { arena } = memory;
    drop(arena.into_allocator());
    seen
}

#[test]
fn inputs_are_set(rt: HostRuntime) -> std::result::Result<(), Fail> {
    let string = String::from_str(rt.alloc(), "a longer string")?;
    let seen = seen(rt.alloc(), 8, &string);
    assert!(rt; seen? == (true, true, true, true));
    Ok(())
}

#[test]
fn no_room_for_an_input_is_told(rt: HostRuntime) -> std::result::Result<(), Fail> {
    let string = String::new(rt.alloc());
    let seen = seen(rt.alloc(), 2, &string);
    assert!(rt; seen.err() == Some(Error::from(ErrorKind::OutOfMemory)));
    Ok(())
}
