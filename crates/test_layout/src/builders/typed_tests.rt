//! A caller's types: a person of an address book, who has an id and a name.
ghost use Rattle.std.specs.Prelude.{◌≡◌, ◌<◌, ◌^◌, option_copied, IfOk, IfErr};
ghost use Rattle.std.specs.Borrow.{sem, RestsIfErr};
ghost use Rattle.capnp_copy_arenas.specs.States.{HasWords};
ghost use Rattle.capnp_copy_arenas.specs.contracts.arena.Memory.{the_row};
ghost use Rattle.capnp_layout_builders.specs.Making.{StaysAt, memory_words};
ghost use Rattle.test_layout.specs.Persons.{IsPersonMade, IsNotMade, IsPersonGot, IsPersonNotGot};

use crate::builders::support::{ROOT, exact_segments};
use capnp_copy_arenas::arena::{BuilderArena, Memory};
use capnp_copy_arenas::fields::StructPlace;
use capnp_copy_arenas::init::init_struct;
use capnp_copy_arenas::segments::BuilderArenaImpl;
use capnp_layout_builders::gets::struct_or_default;
use capnp_layout_builders::owned::{FromPointerBuilder, OwnedStruct};
use capnp_layout_builders::pointer_builder::PointerBuilder;
use capnp_layout_builders::struct_builder::StructBuilder;
use capnp_layout_builders::text_builder::TextBuilder;
use capnp_units::errors::{Error, Result};
use capnp_units::kinds::ErrorKind;
use capnp_units::limiter::ReadLimiter;
use capnp_units::sizes::{StructSize, Word};
use capnp_wire::pointer::PointerReader;
use capnp_wire::structs::StructReader;
use capnp_wire::traits::{HasStructSize, IntoInternalStructReader};
use capnp_wire_objects::arena::ReaderArena;
use capnp_wire_objects::place::has_words;
use std::alloc::Global;
use std::test::Fail;

/// The type of persons.
struct Person;

/// A person to write: the id is the first number of 32 bits, the name the first pointer.
#[derive(Drop)]
struct PersonBuilder<'a, A> {
    memory: &'a mut Memory<A>,
    place: StructPlace,
}

impl<'a, A: BuilderArena> HasStructSize for PersonBuilder<'a, A> {
    const STRUCT_SIZE: StructSize = SIZE;
}

const SIZE: StructSize = StructSize {
    data_words: 1,
    pointers: 1,
};

impl<'a, A: BuilderArena> From<StructBuilder<'a, A>> for PersonBuilder<'a, A> {
    ghost from_gives = { λ s r. (r.memory ≡ s.memory) × (r.place ≡ s.place) };

    fn from(builder: StructBuilder<'a, A>) -> PersonBuilder<'a, A> {
        let StructBuilder { memory, place } = builder;
        PersonBuilder { memory, place }
    }
}

impl<'a, A: BuilderArena> FromPointerBuilder<'a, A> for PersonBuilder<'a, A> {
    ghost memory_of = { λ o. o.memory };

    ghost is_made = { λ s u slot n o. IsPersonMade s u slot o.place };

    ghost is_not_made = { λ s n e. IsNotMade s e };

    ghost is_got = { λ default s u slot o. IsPersonGot default s u slot o.place };

    ghost is_not_got = { λ default s u slot e. IsPersonNotGot default s u slot e };

    fn init_pointer(builder: PointerBuilder<'a, A>, _length: u32) -> Result<PersonBuilder<'a, A>>
        requires there { HasWords (A.segments builder.memory.now.arena) builder.place 1 }
        requires near { builder.place.position < 2 ^ 61 }
        ensures same { IfOk result (λ o. o.memory.ghost_name ≡ builder.entry.memory.ghost_name) }
        ensures made { let b = builder.entry in let at = memory_words A.segments in IfOk result
            (λ o. IsPersonMade (at b.memory.now) (at o.memory.now) b.place o.place) }
        ensures books { IfOk result (λ o.
            A.books o.memory.now.arena ≡ A.books builder.entry.memory.now.arena) }
        ensures kind { IfErr result
            (IsNotMade (memory_words A.segments builder.entry.memory.now)) }
        ensures* refused { let b = builder.entry in sem 𝓛 (RestsIfErr (the_row A.row) b.memory
            (λ o. o.memory.ghost_name) result (StaysAt A.segments A.books b.memory.now)) }
    {
        let PointerBuilder { memory, place } = builder;
        let place = init_struct(&mut memory.arena, place, SIZE)?;
        Ok(PersonBuilder { memory, place })
    }

    fn get_from_pointer(
        builder: PointerBuilder<'a, A>,
        default: Option<&[Word]>,
    ) -> Result<PersonBuilder<'a, A>>
        requires there { HasWords (A.segments builder.memory.now.arena) builder.place 1 }
        requires near { builder.place.position < 2 ^ 61 }
        ensures same { IfOk result (λ o. o.memory.ghost_name ≡ builder.entry.memory.ghost_name) }
        ensures got { let b = builder.entry in let at = memory_words A.segments in IfOk result (λ o.
            IsPersonGot (option_copied default.entry) (at b.memory.now) (at o.memory.now) b.place
            o.place) }
        ensures books { IfOk result (λ o.
            A.books o.memory.now.arena ≡ A.books builder.entry.memory.now.arena) }
        ensures* refused { let b = builder.entry in let at = memory_words A.segments in sem 𝓛
            (RestsIfErr (the_row A.row) b.memory (λ o. o.memory.ghost_name) result (λ n. IfErr
            result (IsPersonNotGot (option_copied default.entry) (at b.memory.now) (at n) b.place)
            × (A.books n.arena ≡ A.books b.memory.now.arena))) }
    {
        let PointerBuilder { memory, place } = builder;
        let place = struct_or_default(&mut memory.arena, place, SIZE, default)?;
        Ok(PersonBuilder { memory, place })
    }
}

/// A person to read.
#[derive(Drop)]
struct PersonReader<'a, A>(StructReader<'a, A>);

impl<'a, A: ReaderArena> From<StructReader<'a, A>> for PersonReader<'a, A> {
    ghost from_gives = { λ s r. r.0 ≡ s };

    fn from(reader: StructReader<'a, A>) -> PersonReader<'a, A> {
        PersonReader(reader)
    }
}

impl<'a, A: ReaderArena> IntoInternalStructReader<'a, A> for PersonReader<'a, A> {
    ghost inner_struct = { λ n. n.0 };

    ghost made = { λ s r same. same };

    fn into_internal_struct_reader(self) -> StructReader<'a, A> {
        self.0
    }
}

impl<'a, A: BuilderArena + 'a> OwnedStruct<'a, A> for Person {
    type Reader = PersonReader<'a, A>;

    type Builder = PersonBuilder<'a, A>;
}

impl<'a, A: BuilderArena> PersonBuilder<'a, A> {
    /// Returns the fields.
    fn into_struct(self) -> StructBuilder<'a, A>
        ensures same { result.memory.ghost_name ≡ self.entry.memory.ghost_name }
        ensures now { result.memory.now ≡ self.entry.memory.now }
        ensures place { result.place ≡ self.entry.place }
    {
        let PersonBuilder { memory, place } = self;
        StructBuilder { memory, place }
    }
}

/// Writes a person at the root, with an id and a name that is made of a type of its own.
fn written<A: BuilderArena>(memory: &mut Memory<A>, id: u32, name: &str) -> Result<()>
    ensures { A.books memory.new.arena ≡ A.books memory.old.arena }
{
    if !has_words(&memory.arena, ROOT, 1) {
        return Err(Error::from(ErrorKind::OutOfBounds));
    }
    if name.len() > 100 {
        return Err(Error::from(ErrorKind::SizeOverflow));
    }
    let root = PointerBuilder::get_root(memory);
    let person = PersonBuilder::init_pointer(root, 0)?;
    let mut fields = person.into_struct();
    let place = fields.place;
    if place.data_words != 1 || place.pointers != 1 {
        return Err(Error::from(ErrorKind::OutOfBounds));
    }
    if !has_words(&fields.memory.arena, place.start, 2) {
        return Err(Error::from(ErrorKind::OutOfBounds));
    }
    fields.set_data_field::<u32>(0, id);
    let slot = fields.get_pointer_field(0);
    let at = slot.place;
    if !has_words(&slot.memory.arena, at, 1) {
        return Err(Error::from(ErrorKind::OutOfBounds));
    }
    let mut text = TextBuilder::init_pointer(slot, name.len() as u32)?;
    let room = text.len();
    if text.position == 0 && name.len() <= room {
        text.push_str(name);
    }
    Ok(())
}

/// Returns the id and whether the name is this one, read as the type's reader.
fn read<A: BuilderArena>(arena: &A, name: &str) -> Result<(u32, bool)> {
    let mut limiter = ReadLimiter::new(None);
    let root = PointerReader::get_root_from_arena(arena)?;
    let person = root.get_struct(&mut limiter, None)?;
    let text = person.get_pointer_field(0).get_text(&mut limiter, None)?;
    Ok((person.get_data_field::<u32>(0), text == name.as_bytes()))
}

/// Reads a person for writing, near or far, which keeps its id and name.
fn got_again<A: BuilderArena>(memory: &mut Memory<A>) -> Result<(u16, u16)>
    ensures { A.books memory.new.arena ≡ A.books memory.old.arena }
{
    if !has_words(&memory.arena, ROOT, 1) {
        return Err(Error::from(ErrorKind::OutOfBounds));
    }
    let root = PointerBuilder::get_root(memory);
    let person = PersonBuilder::get_from_pointer(root, None)?;
    Ok((person.place.data_words, person.place.pointers))
}

fn seen<A: BuilderArena>(memory: &mut Memory<A>) -> Result<bool>
    ensures { A.books memory.new.arena ≡ A.books memory.old.arena }
{
    memory.arena.allocate_anywhere(1)?;
    written(memory, 123, "Alice")?;
    let first = read(&memory.arena, "Alice")?;
    let sizes = got_again(memory)?;
    let second = read(&memory.arena, "Alice")?;
    Ok(first == (123, true) && sizes == (1, 1) && second == (123, true))
}

fn all_seen(alloc: Global, segments: u32) -> Result<bool> {
    let mut memory = Memory {
        arena: BuilderArenaImpl::new(alloc, exact_segments(alloc, segments)),
    };
    let seen = seen(&mut memory);
    let Memory { arena } = memory;
    drop(arena.into_allocator());
    seen
}

/// Makes root, person and name, each in a segment of its own; in the end there is no segment for
/// the name.
#[test]
fn persons_are_built(rt: HostRuntime) -> std::result::Result<(), Fail> {
    assert!(rt; all_seen(rt.alloc(), 3)?);
    assert!(rt; all_seen(rt.alloc(), 2).err() == Some(Error::from(ErrorKind::OutOfMemory)));
    Ok(())
}
