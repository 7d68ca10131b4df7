//! A number two pointers below the root, whose edit gives a caller the root's new value.
ghost use Rattle.std.specs.Prelude.{◌≡◌, ℕ, suc, ◌<◌, true, OnOk};
ghost use Rattle.std.specs.Option.{is_some};
ghost use Rattle.capnp_model.specs.Segments.{Segments, Place, after, root, words_at};
ghost use Rattle.capnp_model.specs.Pointers.{a_struct};
ghost use Rattle.capnp_model.specs.Trees.{Tree};
ghost use Rattle.capnp_units.specs.Segments.{words_in};
ghost use Rattle.capnp_model_writes.specs.Footprints.{Owns};
ghost use Rattle.capnp_model_writes.specs.Changes.{Replaces};
ghost use Rattle.capnp_copy_arenas.specs.Structs.{object_of_struct, SetsBits};
ghost use Rattle.capnp_copy_arenas.specs.Values.{LeadsTo};
ghost use Rattle.capnp_copy_arenas.specs.declared.fields.StructPlace.{StructPlace};
ghost use Rattle.test_layout.specs.Deep.{value_at_pointer, with_behind, with_number, with_inner_number, EditsRoot};

use crate::builders::support::{ROOT, is_there};
use capnp_copy_arenas::arena::{BuilderArena, Memory};
use capnp_copy_arenas::laws::words_in_part;
use capnp_copy_arenas::segments::BuilderArenaImpl;
use capnp_layout_builders::pointer_builder::PointerBuilder;
use capnp_message_allocators::growth::AllocationStrategy;
use capnp_message_allocators::heap::HeapAllocator;
use capnp_model_writes::laws::{
    changes_of_values, changes_with_more_levels, children_of_structs, objects_of_pointers,
};
use capnp_model_writes::laws_of_clearing::shapes_of_objects;
use capnp_units::errors::{Error, Result};
use capnp_units::kinds::ErrorKind;
use capnp_units::limiter::ReadLimiter;
use capnp_units::sizes::StructSize;
use capnp_wire::pointer::PointerReader;
use capnp_wire_objects::arena::ReaderArena;
use std::test::Fail;

/// From a pointer to the value of a pointer of its struct, and back; and back from a number of its
/// struct.
fn values_behind_structs()
    ensures down { (n : ℕ) (s : Segments) (p q : Place) (d k i : ℕ) (t : Tree)
        → LeadsTo s p (a_struct q d k) → i < k → Owns (suc n) s p t
        → Owns n s (after (after q d) i) (value_at_pointer i t) }
    ensures up { (n : ℕ) (s u : Segments) (p q : Place) (d k i : ℕ) (t v : Tree)
        → LeadsTo s p (a_struct q d k) → i < k → Owns (suc n) s p t
        → Replaces n s u (after (after q d) i) v → Replaces (suc n) s u p (with_behind i v t) }
    ensures number { (n : ℕ) (s u : Segments) (p : Place) (o : StructPlace) (v : ℕ) (t : Tree)
        → LeadsTo s p (object_of_struct o) → SetsBits s u o 0 64 v → Owns (suc n) s p t
        → Replaces (suc n) s u p (with_number v t) }
{
    objects_of_pointers();
    children_of_structs();
    shapes_of_objects();
}

/// Sets the number of the struct that the first pointer of the root's struct leads to. Both structs
/// are made if they are null, and widened if they lack the pointer or the number.
fn set_inner_number<A: BuilderArena>(memory: &mut Memory<A>, value: u64) -> Result<()>
    requires there { is_some (words_at (words_in (A.segments memory.old.arena)) root 1) ≡ true }
    ensures edited { OnOk result (EditsRoot (words_in (A.segments memory.old.arena))
        (words_in (A.segments memory.new.arena)) (with_inner_number value)) }
    ensures books { A.books memory.new.arena ≡ A.books memory.old.arena }
{
    changes_of_values();
    changes_with_more_levels();
    values_behind_structs();
    words_in_part();
    let pointer = StructSize {
        data_words: 0,
        pointers: 1,
    };
    let number = StructSize {
        data_words: 1,
        pointers: 0,
    };
    let outer = PointerBuilder::get_root(memory).get_struct(pointer, None)?;
    let slot = outer.get_pointer_field(0);
    let mut inner = slot.get_struct(number, None)?;
    inner.set_data_field::<u64>(0, value);
    Ok(())
}

/// Returns the number that is set.
fn inner_number<A: ReaderArena>(arena: &A) -> Result<u64> {
    let mut limiter = ReadLimiter::new(None);
    let outer = PointerReader::get_root_from_arena(arena)?.get_struct(&mut limiter, None)?;
    let inner = outer.get_pointer_field(0).get_struct(&mut limiter, None)?;
    Ok(inner.get_data_field::<u64>(0))
}

/// Sets the number in an empty message, and again when the root's struct is wider; returns the
/// numbers that are read then.
fn set_twice<A: BuilderArena>(memory: &mut Memory<A>) -> Result<(u64, u64)>
    ensures { A.books memory.new.arena ≡ A.books memory.old.arena }
{
    memory.arena.allocate_anywhere(1)?;
    if !is_there(&memory.arena, ROOT) {
        return Err(Error::from(ErrorKind::OutOfBounds));
    }
    set_inner_number(memory, 12)?;
    let first = inner_number(&memory.arena)?;
    let wider = StructSize {
        data_words: 1,
        pointers: 2,
    };
    if !is_there(&memory.arena, ROOT) {
        return Err(Error::from(ErrorKind::OutOfBounds));
    }
    PointerBuilder::get_root(memory).get_struct(wider, None)?;
    if !is_there(&memory.arena, ROOT) {
        return Err(Error::from(ErrorKind::OutOfBounds));
    }
    set_inner_number(memory, 13)?;
    Ok((first, inner_number(&memory.arena)?))
}

/// Near, and with each struct in a segment of its own.
#[test]
fn an_inner_number_is_set(rt: HostRuntime) -> std::result::Result<(), Fail> {
    for words in [100, 1] {
        let heap = HeapAllocator::new(rt.alloc())
            .first_segment_words(words)
            .allocation_strategy(AllocationStrategy::FixedSize);
        let mut memory = Memory {
            arena: BuilderArenaImpl::new(rt.alloc(), heap),
        };
        let seen = set_twice(&mut memory);
        let Memory { arena } = memory;
        drop(arena.into_allocator());
        assert!(rt; seen? == (12, 13));
    }
    Ok(())
}
