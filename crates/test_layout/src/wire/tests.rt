//! Arenas, defaults and types of a caller.

ghost use Rattle.std.specs.Prelude.{◌≡◌};

use capnp_units::errors::Error;
use capnp_units::kinds::ErrorKind;
use capnp_units::limiter::ReadLimiter;
use capnp_units::sizes::{ElementSize, StructSize, Word};
use capnp_wire::list::ListReader;
use capnp_wire::pointer::PointerReader;
use capnp_wire::structs::StructReader;
use capnp_wire::traits::{
    FromPointerReader, HasStructSize, HasTypeId, IntoInternalListReader, IntoInternalStructReader,
    Owned, OwnedStruct,
};
use capnp_wire_objects::arena::{NullArena, ReaderArena, ReaderArenaImpl};
use std::alloc::{AllocError, Global};
use std::test::Fail;

const FAR: &[u8] = &[6, 0, 0, 0, 1, 0, 0, 0];

const PAD: &[u8] = &[2, 0, 0, 0, 2, 0, 0, 0, 0, 0, 0, 0, 1, 0, 0, 0];

const FAR_PAD: &[u8] = &[2, 0, 0, 0, 2, 0, 0, 0, 2, 0, 0, 0, 0, 0, 0, 0];

const SEVEN: &[u8] = &[7, 0, 0, 0, 0, 0, 0, 0];

/// A pointer to the text `hi`, and its word.
const HI: &[Word] = &[[1, 0, 0, 0, 0x1a, 0, 0, 0], [0x68, 0x69, 0, 0, 0, 0, 0, 0]];

#[test]
fn an_arena_without_segments(rt: HostRuntime) -> Result<(), Fail> {
    let refused = PointerReader::get_root_from_arena(&NullArena).err();
    assert!(rt; refused == Some(Error::from(ErrorKind::OutOfBounds)));
    assert!(rt; NullArena.size_in_words() == 0);
    assert!(rt; NullArena.nesting_limit() == i32::MAX);
    let segments: &[&[u8]] = &[SEVEN];
    let arena = ReaderArenaImpl::new(segments, 64);
    assert!(rt; arena.size_in_words() == 1);
    assert!(rt; arena.nesting_limit() == 64);
    assert!(rt; arena.into_segments().len() == 1);
    Ok(())
}

/// Returns whether the text `hi` is read instead of a null root as data, and nothing without a
/// default.
fn reads_default<A: ReaderArena>(
    arena: &A,
    limiter: &mut ReadLimiter,
    default: &[Word],
) -> Result<bool, Error> {
    let root = PointerReader::get_root_from_arena(arena)?;
    let bytes = <&[u8] as FromPointerReader<A>>::get_from_pointer(&root, limiter, Some(default))?;
    let nothing = <&[u8] as FromPointerReader<A>>::get_from_pointer(&root, limiter, None)?;
    Ok(bytes == b"hi\0".as_slice() && nothing.is_empty())
}

#[test]
fn a_default_costs_nothing(rt: HostRuntime) -> Result<(), Fail> {
    let null: &[u8] = &[0, 0, 0, 0, 0, 0, 0, 0];
    let segments: &[&[u8]] = &[null];
    let arena = ReaderArenaImpl::new(segments, 1);
    let mut limiter = ReadLimiter::new(Some(0));
    assert!(rt; reads_default(&arena, &mut limiter, HI)?);
    assert!(rt; limiter.granted() == 0);
    Ok(())
}

/// A type of structs of one data word.
struct Number;

impl HasStructSize for Number {
    const STRUCT_SIZE: StructSize = StructSize {
        data_words: 1,
        pointers: 0,
    };
}

impl HasTypeId for Number {
    const TYPE_ID: u64 = 0xd1;
}

impl<'a, A: ReaderArena + 'a> OwnedStruct<'a, A> for Number {
    type Reader = NumberReader<'a, A>;
}

/// Such a struct to read.
#[derive(Drop)]
struct NumberReader<'a, A>(StructReader<'a, A>);

impl<'a, A: ReaderArena> From<StructReader<'a, A>> for NumberReader<'a, A> {
    ghost from_gives = { λ s r. r.0 ≡ s };

    fn from(reader: StructReader<'a, A>) -> NumberReader<'a, A> {
        NumberReader(reader)
    }
}

impl<'a, A: ReaderArena> IntoInternalStructReader<'a, A> for NumberReader<'a, A> {
    ghost inner_struct = { λ n. n.0 };

    ghost made = { λ s r same. same };

    fn into_internal_struct_reader(self) -> StructReader<'a, A> {
        self.0
    }
}

/// A list of such structs.
#[derive(Drop)]
struct NumbersReader<'a, A>(ListReader<'a, A>);

impl<'a, A: ReaderArena> IntoInternalListReader<'a, A> for NumbersReader<'a, A> {
    ghost inner_list = { λ n. n.0 };

    fn into_internal_list_reader(self) -> ListReader<'a, A> {
        self.0
    }
}

/// The type of data.
struct Data;

impl<'a, A: ReaderArena> Owned<'a, A> for Data {
    type Reader = &'a [u8];
}

/// Returns the value of a type.
fn read_as<'a, A: ReaderArena, T: Owned<'a, A>>(
    root: &PointerReader<'a, A>,
    limiter: &mut ReadLimiter,
) -> Result<T::Reader, Error> {
    <T::Reader as FromPointerReader<'a, A>>::get_from_pointer(root, limiter, None)
}

/// Returns a struct, after it was read as a type's.
fn struct_as<'a, A: ReaderArena, T: OwnedStruct<'a, A>>(
    reader: StructReader<'a, A>,
) -> StructReader<'a, A>
    ensures { result ≡ reader.entry }
{
    <T::Reader as From<StructReader<'a, A>>>::from(reader).into_internal_struct_reader()
}

/// Returns whether the root is a `Number` with the value 7, and a null pointer in it reads as an
/// absent number and empty data.
fn reads_types<A: ReaderArena>(arena: &A, limiter: &mut ReadLimiter) -> Result<bool, Error> {
    let root = PointerReader::get_root_from_arena(arena)?;
    let inner = struct_as::<A, Number>(root.get_struct(limiter, None)?);
    let null = inner.get_pointer_field(0);
    let numbers = NumbersReader(null.get_list(limiter, ElementSize::InlineComposite, None)?);
    let bytes = read_as::<A, Data>(&null, limiter)?;
    Ok(
        inner.get_data_field::<u64>(0) == 7
            && numbers.into_internal_list_reader().is_empty()
            && bytes.is_empty(),
    )
}

#[test]
fn types_of_a_caller(rt: HostRuntime) -> Result<(), Fail> {
    let words: &[u8] = &[0, 0, 0, 0, 1, 0, 0, 0, 7, 0, 0, 0, 0, 0, 0, 0];
    let segments: &[&[u8]] = &[words];
    let arena = ReaderArenaImpl::new(segments, 1);
    assert!(rt; <Number as HasStructSize>::STRUCT_SIZE.total() == 1);
    assert!(rt; <Number as HasTypeId>::TYPE_ID == 0xd1);
    assert!(rt; reads_types(&arena, &mut ReadLimiter::new(None))?);
    Ok(())
}

fn owned(alloc: Global, segments: &[&[u8]]) -> std::result::Result<Vec<Vec<u8>>, AllocError> {
    let mut all = Vec::new(alloc);
    for bytes in segments {
        all.push(bytes.to_vec(alloc)?)?;
    }
    Ok(all)
}

/// Returns the first number of the root, and the cost of following it.
fn number_at_root<A: ReaderArena>(arena: &A) -> Result<(u64, u64), Error> {
    let mut limiter = ReadLimiter::new(None);
    let root = PointerReader::get_root_from_arena(arena)?;
    let number = root.get_struct(&mut limiter, None)?.get_data_field(0);
    Ok((number, limiter.granted()))
}

#[test]
fn owned_and_lent_segments_read_alike(rt: HostRuntime) -> Result<(), Fail> {
    let alloc = rt.alloc();
    let lent: &[&[u8]] = &[FAR, PAD, SEVEN];
    assert!(rt; number_at_root(&ReaderArenaImpl::new(lent, 64))? == (7, 3));
    let far = ReaderArenaImpl::new(owned(alloc, &[FAR, PAD, SEVEN])?, 64);
    assert!(rt; number_at_root(&far)? == (7, 3));
    let malformed = ReaderArenaImpl::new(owned(alloc, &[FAR, FAR_PAD, SEVEN])?, 64);
    let refused = number_at_root(&malformed).err();
    assert!(rt; refused == Some(Error::from(ErrorKind::MalformedFarPointer)));
    Ok(())
}
