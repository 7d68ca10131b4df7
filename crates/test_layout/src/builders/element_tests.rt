//! Elements of lists that are set and read.
ghost use Rattle.std.specs.Prelude.{◌≡◌, ◌≤◌, [], length};

use crate::builders::support::{ROOT, clear_root, exact_segments, nonzero};
use capnp_copy_arenas::arena::{BuilderArena, Memory};
use capnp_copy_arenas::segments::BuilderArenaImpl;
use capnp_layout_builders::element::BuilderElement;
use capnp_layout_builders::pointer_builder::PointerBuilder;
use capnp_units::errors::{Error, Result};
use capnp_units::kinds::ErrorKind;
use capnp_units::limiter::ReadLimiter;
use capnp_units::sizes::ElementSize;
use capnp_wire::element::PrimitiveElement;
use capnp_wire::pointer::PointerReader;
use capnp_wire_objects::arena::ReaderArena;
use capnp_wire_objects::place::has_words;
use std::alloc::Global;
use std::test::Fail;

/// Writes three values into a list of ten at the root, at 0, 6 and 9, and returns the values at 5,
/// 6 and 9.
#[tactic(auto, using(capnp_layout_builders::proofs::lemmas::Fronts::plain_front))]
fn three<A: BuilderArena, T: BuilderElement>(
    memory: &mut Memory<A>,
    first: T,
    second: T,
    third: T,
) -> Result<(T, T, T)>
    ensures { A.books memory.new.arena ≡ A.books memory.old.arena }
{
    if !has_words(&memory.arena, ROOT, 1) {
        return Err(Error::from(ErrorKind::OutOfBounds));
    }
    let root = PointerBuilder::get_root(memory);
    let mut list = root.init_list(T::element_size(), 10)?;
    list.set::<T>(0, first);
    list.set::<T>(6, second);
    list.set::<T>(9, third);
    Ok((list.get::<T>(5), list.get::<T>(6), list.get::<T>(9)))
}

/// Returns the values of that list at 5, 6 and 9 by a reader.
fn three_read<A: ReaderArena, T: PrimitiveElement>(arena: &A) -> Result<(T, T, T)> {
    let mut limiter = ReadLimiter::new(None);
    let root = PointerReader::get_root_from_arena(arena)?;
    let list = root.get_list(&mut limiter, T::element_size(), None)?;
    if list.len() != 10 {
        return Err(Error::from(ErrorKind::OutOfBounds));
    }
    Ok((T::get(&list, 5), T::get(&list, 6), T::get(&list, 9)))
}

/// Returns the values of a list of ten with three values set, by the handle and by a reader, and
/// the number of words that were left when it was cleared. The root has a segment of its own.
fn seen<T: BuilderElement>(
    alloc: Global,
    first: T,
    second: T,
    third: T,
) -> (Result<(T, T, T)>, Result<(T, T, T)>, usize) {
    let mut memory = Memory {
        arena: BuilderArenaImpl::new(alloc, exact_segments(alloc, 2)),
    };
    let begun = match memory.arena.allocate_segment(1) {
        Ok(()) => memory
            .arena
            .allocate(0, 1)
            .ok_or(Error::from(ErrorKind::OutOfBounds)),
        Err(e) => Err(e),
    };
    let got = match begun {
        Ok(_) => three(&mut memory, first, second, third),
        Err(e) => Err(e),
    };
    let read = three_read::<_, T>(&memory.arena);
    clear_root(&mut memory);
    let left = nonzero(&memory.arena, 2);
    let Memory { arena } = memory;
    let _allocator = arena.into_allocator();
    (got, read, left)
}

#[test]
fn truth_values_are_set(rt: HostRuntime) -> std::result::Result<(), Fail> {
    let (got, read, left) = seen(rt.alloc(), true, true, false);
    assert!(rt; got? == (false, true, false));
    assert!(rt; read? == (false, true, false));
    assert!(rt; left == 0);
    let (got, read, left) = seen(rt.alloc(), (), (), ());
    assert!(rt; got? == ((), (), ()));
    assert!(rt; read? == ((), (), ()));
    assert!(rt; left == 0);
    Ok(())
}

#[test]
fn numbers_with_sign_are_set(rt: HostRuntime) -> std::result::Result<(), Fail> {
    let (got, read, left) = seen::<i8>(rt.alloc(), 1, -1, -128);
    assert!(rt; got? == (0, -1, -128));
    assert!(rt; read? == (0, -1, -128));
    assert!(rt; left == 0);
    let (got, read, _left) = seen::<i16>(rt.alloc(), 1, -2, 0x7fff);
    assert!(rt; got? == (0, -2, 0x7fff));
    assert!(rt; read? == (0, -2, 0x7fff));
    let (got, read, _left) = seen::<i32>(rt.alloc(), 1, -3, 9);
    assert!(rt; got? == (0, -3, 9));
    assert!(rt; read? == (0, -3, 9));
    let (got, read, _left) = seen::<i64>(rt.alloc(), 1, -4, 9);
    assert!(rt; got? == (0, -4, 9));
    assert!(rt; read? == (0, -4, 9));
    Ok(())
}
