//! Callers' types of structs, to read and to write.
ghost use Rattle.std.specs.Prelude.{◌≡◌, IfOk, true};
ghost use Rattle.capnp_model.specs.Schemas.{struct};
ghost use Rattle.capnp_units.specs.Segments.{words_in};
ghost use Rattle.capnp_values_queries.specs.Structs.{shape_of_struct};
ghost use Rattle.capnp_schema_structs.specs.Edits.{IsThere, HoldsShape};

use crate::fixtures::{SCHEMAS, root, schema_of, set_of};
use capnp_copy_arenas::allocator::Allocator;
use capnp_copy_arenas::arena::{BuilderArena, Memory};
use capnp_copy_arenas::fields::StructPlace;
use capnp_copy_arenas::segments::BuilderArenaImpl;
use capnp_copy_widening::structs::get_struct;
use capnp_layout_builders::owned::OwnedStruct;
use capnp_layout_builders::struct_builder::StructBuilder;
use capnp_message_allocators::heap::HeapAllocator;
use capnp_records::raw::RawBrandedStructSchema;
use capnp_schema_structs::dynamic_struct;
use capnp_schema_structs::dynamic_struct::has_sizes;
use capnp_schema_structs::init::struct_size;
use capnp_schema_values::callers::{downcast_struct, fits_struct};
use capnp_units::errors::{Error, Result};
use capnp_units::kinds::ErrorKind;
use capnp_units::sizes::StructSize;
use capnp_values::dynamic_value::Reader;
use capnp_values_queries::introspect::{Introspect, Type, TypeVariant};
use capnp_values_queries::structs::StructSchema;
use capnp_wire::structs::StructReader;
use capnp_wire::traits;
use capnp_wire::traits::{HasStructSize, IntoInternalStructReader};
use capnp_wire_objects::arena::{ReaderArena, ReaderArenaImpl};
use capnp_wire_objects::place::{ROOT, has_words};
use std::alloc::Global;
use std::test::Fail;
/// The type of the structs of an id.
struct Own<const ID: u64>;

impl<const ID: u64> Introspect for Own<ID> {
    ghost ty = { struct ID };

    fn introspect() -> Type {
        Type::from(TypeVariant::Struct(RawBrandedStructSchema::new(0, ID)))
    }
}

impl<'a, A: ReaderArena + 'a, const ID: u64> traits::OwnedStruct<'a, A> for Own<ID> {
    type Reader = OwnReader<'a, A>;
}

impl<'a, A: BuilderArena + 'a, const ID: u64> OwnedStruct<'a, A> for Own<ID> {
    type Reader = OwnReader<'a, A>;

    type Builder = OwnBuilder<'a, A>;
}

/// Such a struct to read.
#[derive(Drop)]
struct OwnReader<'a, A>(StructReader<'a, A>);

impl<'a, A: ReaderArena> From<StructReader<'a, A>> for OwnReader<'a, A> {
    ghost from_gives = { λ s r. r.0 ≡ s };

    fn from(reader: StructReader<'a, A>) -> OwnReader<'a, A> {
        OwnReader(reader)
    }
}

impl<'a, A: ReaderArena> IntoInternalStructReader<'a, A> for OwnReader<'a, A> {
    ghost inner_struct = { λ n. n.0 };

    ghost made = { λ s r same. same };

    fn into_internal_struct_reader(self) -> StructReader<'a, A> {
        self.0
    }
}

/// Such a struct to write.
#[derive(Drop)]
struct OwnBuilder<'a, A> {
    memory: &'a mut Memory<A>,
    place: StructPlace,
}

impl<'a, A: BuilderArena> HasStructSize for OwnBuilder<'a, A> {
    const STRUCT_SIZE: StructSize = StructSize {
        data_words: 1,
        pointers: 1,
    };
}

impl<'a, A: BuilderArena> From<StructBuilder<'a, A>> for OwnBuilder<'a, A> {
    ghost from_gives = { λ s r. (r.memory ≡ s.memory) × (r.place ≡ s.place) };

    fn from(builder: StructBuilder<'a, A>) -> OwnBuilder<'a, A> {
        let StructBuilder { memory, place } = builder;
        OwnBuilder { memory, place }
    }
}

#[test]
fn structs_as_callers_types(rt: HostRuntime) -> std::result::Result<(), Fail> {
    let set = set_of(rt.alloc(), SCHEMAS)?;
    let bytes = [0, 0, 0, 0, 1, 0, 0, 0, 7, 0, 0, 0, 0, 0, 0, 0];
    let segments = [bytes.as_slice()];
    let arena = ReaderArenaImpl::new(segments.as_slice(), 64);
    let p = root(&arena, &set, 1)?;
    assert!(rt; !p.fits::<Own<2>>());
    assert!(rt; !p.fits::<u16>());
    let value = Reader::from(p);
    let mut number = 0;
    if value.fits_struct::<Own<1>>() {
        let own = value.downcast_struct::<Own<1>>();
        number = own.into_internal_struct_reader().get_data_field::<u16>(0);
    }
    assert!(rt; number == 7);
    let null = [0; 8];
    let segments = [null.as_slice()];
    let arena = ReaderArenaImpl::new(segments.as_slice(), 64);
    let default = root(&arena, &set, 4)?.get_named("p")?;
    assert!(rt; matches!(default, Reader::Struct(_)));
    assert!(rt; !default.fits_struct::<Own<1>>());
    Ok(())
}

/// Returns whether a struct has at least its schema's sizes.
pub(crate) fn is_wide<A: BuilderArena>(
    memory: &mut Memory<A>,
    place: StructPlace,
    schema: StructSchema<'_>,
) -> bool
    ensures stays { memory.new ≡ memory.old }
    ensures wide { result ≡ true → HoldsShape place (shape_of_struct schema.entry) }
{
    let object = StructBuilder { memory, place };
    has_sizes(&object, schema)
}

/// Makes the root of a new message, as a struct of a schema's sizes.
pub(crate) fn begun<A: BuilderArena>(
    memory: &mut Memory<A>,
    schema: StructSchema<'_>,
) -> Result<StructPlace>
    ensures there { IfOk result (IsThere (words_in (A.segments memory.new.arena))) }
    ensures wide { IfOk result (λ o. HoldsShape o (shape_of_struct schema.entry)) }
{
    memory.arena.allocate_anywhere(1)?;
    if !has_words(&memory.arena, ROOT, 1) {
        return Err(Error::from(ErrorKind::OutOfBounds));
    }
    let place = get_struct(&mut memory.arena, ROOT, struct_size(schema))?;
    let words = place.data_words as usize + place.pointers as usize;
    if !has_words(&memory.arena, place.start, words) || !is_wide(memory, place, schema) {
        return Err(Error::from(ErrorKind::OutOfBounds));
    }
    Ok(place)
}

/// Sets the first number of a struct at the root of a new message to 7, if it is of the type of P.
fn written<A: BuilderArena>(memory: &mut Memory<A>, schema: StructSchema<'_>) -> Result<bool> {
    let place = begun(memory, schema)?;
    let builder = dynamic_struct::Builder {
        memory,
        place,
        schema,
    };
    if !fits_struct::<Own<1>, A>(&builder) {
        return Ok(false);
    }
    let own = downcast_struct::<A, Own<1>>(builder);
    let OwnBuilder { memory, place } = own;
    let mut fields = StructBuilder { memory, place };
    let words = place.data_words as usize;
    if words == 0 || !has_words(&fields.memory.arena, place.start, words) {
        return Err(Error::from(ErrorKind::OutOfBounds));
    }
    fields.set_data_field::<u16>(0, 7);
    Ok(true)
}

/// Returns the used bytes of the first segment.
fn first_of<A: Allocator>(alloc: Global, arena: &BuilderArenaImpl<A>) -> Result<Vec<u8>> {
    let all = arena.get_segments_for_output(alloc)?;
    if all.is_empty() {
        return Err(Error::from(ErrorKind::OutOfBounds));
    }
    Ok(Vec::from_slice(alloc, all[0])?)
}

/// Returns these bytes of an arena on the heap, and ends the arena.
pub(crate) fn finish(alloc: Global, arena: BuilderArenaImpl<HeapAllocator>) -> Result<Vec<u8>> {
    let bytes = first_of(alloc, &arena);
    drop(arena.into_allocator());
    bytes
}

/// A struct of P is written as a caller's type, another isn't.
#[test]
fn structs_are_written_as_callers_types(rt: HostRuntime) -> std::result::Result<(), Fail> {
    let alloc = rt.alloc();
    let set = set_of(alloc, SCHEMAS)?;
    let seven: &[u8] = &[
        0, 0, 0, 0, 1, 0, 1, 0, 7, 0, 0, 0, 0, 0, 0, 0, 0, 0, 0, 0, 0, 0, 0, 0,
    ];
    let other: &[u8] = &[0, 0, 0, 0, 1, 0, 0, 0, 0, 0, 0, 0, 0, 0, 0, 0];
    for (id, is_own, bytes) in [(1, true, seven), (5, false, other)] {
        let schema = schema_of(&set, id)?;
        let mut memory = Memory {
            arena: BuilderArenaImpl::new(alloc, HeapAllocator::new(alloc)),
        };
        let done = written(&mut memory, schema);
        let Memory { arena } = memory;
        let left = finish(alloc, arena);
        assert!(rt; done? == is_own, "at {id}");
        assert!(rt; left?.as_slice() == bytes, "at {id}");
    }
    Ok(())
}
