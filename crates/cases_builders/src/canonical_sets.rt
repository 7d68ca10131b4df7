//! Canonical copies of structs and lists that are read, through a scratch message.
ghost use Rattle.std.specs.Prelude.{◌≡◌};

use crate::handles::{FAR, NOT_THERE, handle};
use crate::outcomes::{Answer, Stop};
use crate::stock::Stock;
use capnp_copy_arenas::arena::{BuilderArena, Memory};
use capnp_copy_arenas::segments::BuilderArenaImpl;
use capnp_layout_canonical::sets::{set_list_canonical, set_struct_canonical};
use capnp_units::limiter::ReadLimiter;
use capnp_units::sizes::Word;
use capnp_wire::list::ListReader;
use capnp_wire::structs::StructReader;
use capnp_wire_objects::arena::ReaderArena;
use capnp_wire_objects::place::{Place, ROOT, has_words};
use std::alloc::Global;

/// The struct or the list that is copied.
#[derive(Drop)]
pub enum Read<'a, B> {
    Struct(StructReader<'a, B>),
    List(ListReader<'a, B>),
}

/// Copies a struct or a list through the root of a scratch message.
fn set_by_way<A: BuilderArena, B: ReaderArena, C: BuilderArena>(
    memory: &mut Memory<A>,
    place: Place,
    limiter: &mut ReadLimiter,
    other: Read<'_, B>,
    scratch: &mut Memory<C>,
    lent: &mut [Word],
) -> Answer
    ensures books { A.books memory.new.arena ≡ A.books memory.old.arena }
    ensures scratch { C.books scratch.new.arena ≡ C.books scratch.old.arena }
{
    scratch.arena.allocate_anywhere(1)?;
    if !has_words(&scratch.arena, ROOT, 1) {
        return Err(NOT_THERE);
    }
    if place.position >= FAR || !has_words(&memory.arena, place, 1) {
        return Err(NOT_THERE);
    }
    let mut way = handle(scratch, ROOT);
    let mut pointer = handle(memory, place);
    let set = match other {
        Read::Struct(object) => {
            set_struct_canonical(&mut pointer, limiter, object, &mut way, lent)
        }
        Read::List(list) => set_list_canonical(&mut pointer, limiter, list, &mut way, lent),
    };
    match set {
        Ok(()) => Ok(None),
        Err(error) => Err(Stop::Refused(error.kind)),
    }
}

/// Calls `set_struct_canonical` or `set_list_canonical`, with a scratch message of its own.
pub fn set_canonical<A: BuilderArena, B: ReaderArena>(
    alloc: Global,
    memory: &mut Memory<A>,
    place: Place,
    limiter: &mut ReadLimiter,
    other: Read<'_, B>,
    lent: &mut [Word],
) -> Answer
    ensures { A.books memory.new.arena ≡ A.books memory.old.arena }
{
    let mut scratch = Memory {
        arena: BuilderArenaImpl::new(alloc, Stock::new(alloc, 64, None)),
    };
    let answer = set_by_way(memory, place, limiter, other, &mut scratch, lent);
    let Memory { arena } = scratch;
    drop(arena.into_allocator());
    answer
}
