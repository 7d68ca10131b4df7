//! The object that a pointer names, one level deep.
ghost use Rattle.std.specs.Prelude.{◌≡◌, ◌+◌, ◌*◌, ◌≤◌, ◌<◌, ◌^◌, Ok, Err, IfOk};
ghost use Rattle.std.specs.Option.{ok_or, is_some};
ghost use Rattle.capnp_model.specs.Kinds.{OutOfBounds};
ghost use Rattle.capnp_model.specs.Chains.{◌and_then◌};
ghost use Rattle.capnp_model.specs.Sections.{words_for};
ghost use Rattle.capnp_model.specs.Segments.{words_at};
ghost use Rattle.capnp_model.specs.Pointers.{a_struct, a_list};
ghost use Rattle.capnp_model.specs.Traversal.{tag_in};
ghost use Rattle.capnp_model.specs.Trees.{size_bits};
ghost use Rattle.capnp_units.specs.Segments.{words_in};
ghost use Rattle.capnp_units.specs.Sizes.{size_number, data_bits};
ghost use Rattle.capnp_wire_objects.specs.Places.{place_view, seen};
ghost use Rattle.capnp_wire_objects.specs.Named.{named_view};
ghost use Rattle.capnp_wire_objects.specs.Objects.{whole, object_at, IsInside};

use crate::arena::ReaderArena;
use crate::named::{NamedObject, found_at};
use crate::place::{Place, has_words, word_at};
use crate::word_pointer::{WordPointer, pointer_of_word};
use capnp_units::errors::{Error, Result};
use capnp_units::kinds::ErrorKind;
use capnp_units::sizes::{ElementSize, data_bits_per_element};

/// An object whose words are there. Null has no words.
#[derive(Clone, Copy, Debug, PartialEq, Eq)]
pub enum Object {
    Null,
    /// A struct: its data words begin at a place, and its pointers come after them.
    Struct {
        start: Place,
        data_words: u16,
        pointers: u16,
    },
    /// A list of plain elements, of a size from `Void` to `EightBytes`.
    List {
        start: Place,
        size: ElementSize,
        count: u32,
    },
    /// A list of pointers.
    PointerList {
        start: Place,
        count: u32,
    },
    /// A list of structs. The first struct begins at a place, after the tag. The pointer claims n
    /// words for the structs, which they needn't fill.
    StructList {
        start: Place,
        words: u32,
        count: u32,
        data_words: u16,
        pointers: u16,
    },
    Capability {
        index: u32,
    },
}

/// An object, and the number of words of the landing pads that lead to it.
#[derive(Clone, Copy, Debug, PartialEq, Eq)]
pub struct Found {
    pub pads: u8,
    pub object: Object,
}

/// Returns the number of words that n plain elements fill.
#[inline(always)]
pub fn words_of_elements(size: ElementSize, count: u32) -> u64
    ensures words { result ≡ words_for (data_bits (size_number size) * count) }
    ensures few { result < 2 ^ 33 }
{
    (data_bits_per_element(size) as u64 * count as u64 + 63) / 64
}

/// Returns a struct, if its words are there.
#[inline(always)]
fn whole_struct<A: ReaderArena>(
    arena: &A,
    start: Place,
    data_words: u16,
    pointers: u16,
) -> Result<Object>
    ensures object { seen (λ o. o) result
        ≡ whole (words_in (A.segments arena.now))
        (a_struct (place_view start) data_words pointers) }
    ensures inside { IfOk result (IsInside (words_in (A.segments arena.now))) }
{
    if !has_words(arena, start, data_words as usize + pointers as usize) {
        return Err(Error::from(ErrorKind::OutOfBounds));
    }
    Ok(Object::Struct {
        start,
        data_words,
        pointers,
    })
}

/// Returns a list of plain elements, if its words are there.
#[inline(always)]
fn whole_list<A: ReaderArena>(
    arena: &A,
    start: Place,
    size: ElementSize,
    count: u32,
) -> Result<Object>
    requires { size_number size < 6 }
    ensures object { seen (λ o. o) result
        ≡ whole (words_in (A.segments arena.now))
        (a_list (place_view start) (size_number size) count) }
    ensures inside { IfOk result (IsInside (words_in (A.segments arena.now))) }
{
    if !has_words(arena, start, words_of_elements(size, count) as usize) {
        return Err(Error::from(ErrorKind::OutOfBounds));
    }
    Ok(Object::List { start, size, count })
}

/// Returns a list of pointers, if they are there.
#[inline(always)]
fn whole_pointers<A: ReaderArena>(arena: &A, start: Place, count: u32) -> Result<Object>
    ensures object { seen (λ o. o) result
        ≡ whole (words_in (A.segments arena.now)) (a_list (place_view start) 6 count) }
    ensures inside { IfOk result (IsInside (words_in (A.segments arena.now))) }
{
    if !has_words(arena, start, count as usize) {
        return Err(Error::from(ErrorKind::OutOfBounds));
    }
    Ok(Object::PointerList { start, count })
}

/// Returns a list of structs, if its tag and the words after it are there, the tag has the form of
/// a struct pointer, and its elements fit into those words.
#[inline(always)]
fn whole_structs<A: ReaderArena>(arena: &A, start: Place, words: u32) -> Result<Object>
    ensures object { seen (λ o. o) result
        ≡ whole (words_in (A.segments arena.now)) (a_list (place_view start) 7 words) }
    ensures inside { IfOk result (IsInside (words_in (A.segments arena.now))) }
{
    if !has_words(arena, start, 1 + words as usize) {
        return Err(Error::from(ErrorKind::OutOfBounds));
    }
    let tag = word_at(arena, start).ok_or(Error::from(ErrorKind::OutOfBounds))?;
    let WordPointer::Struct {
        offset: count,
        data_words,
        pointers,
    } = pointer_of_word(tag)
    else {
        return Err(Error::from(ErrorKind::WrongPointerKind));
    };
    let width = data_words as u64 + pointers as u64;
    if count as u64 * width > words as u64 {
        return Err(Error::from(ErrorKind::OutOfBounds));
    }
    Ok(Object::StructList {
        start: Place {
            segment: start.segment,
            position: start.position + 1,
        },
        words,
        count,
        data_words,
        pointers,
    })
}

/// Returns an object that a pointer names, if its words are there.
#[inline(always)]
pub fn whole<A: ReaderArena>(arena: &A, named: NamedObject) -> Result<Object>
    ensures object { seen (λ o. o) result
        ≡ whole (words_in (A.segments arena.now)) (named_view named) }
    ensures inside { IfOk result (IsInside (words_in (A.segments arena.now))) }
{
    match named {
        NamedObject::Null => Ok(Object::Null),
        NamedObject::Capability { index } => Ok(Object::Capability { index }),
        NamedObject::Struct {
            start,
            data_words,
            pointers,
        } => whole_struct(arena, start, data_words, pointers),
        NamedObject::List { start, size, count } => match size {
            ElementSize::Void
            | ElementSize::Bit
            | ElementSize::Byte
            | ElementSize::TwoBytes
            | ElementSize::FourBytes
            | ElementSize::EightBytes => whole_list(arena, start, size, count),
            ElementSize::Pointer => whole_pointers(arena, start, count),
            ElementSize::InlineComposite => whole_structs(arena, start, count),
        },
    }
}

/// Returns the object that the pointer at a place names, one level deep, and the number of words of
/// the pads that lead to it.
///
/// It is refused with
/// - `OutOfBounds`: the pointer, a pad or a word of the object isn't there, or a list of structs
///   has more elements than words for them;
/// - `MalformedFarPointer`: a pad describes its object by a far pointer;
/// - `WrongPointerKind`: a list's tag doesn't have the form of a struct pointer;
/// - `UnknownPointerType`: a pointer of the fourth form is not a capability.
#[tactic(auto, unfolding(crate::specs::Objects::object_at))]
pub fn object_at<A: ReaderArena>(arena: &A, place: Place) -> Result<Found>
    ensures object { seen (λ f. f) result
        ≡ object_at (words_in (A.segments arena.now)) (place_view place) }
    ensures inside { IfOk result (λ f. IsInside (words_in (A.segments arena.now)) f.object) }
    ensures pads { IfOk result (λ f. f.pads ≤ 2) }
{
    let found = found_at(arena, place)?;
    let object = whole(arena, found.object)?;
    Ok(Found {
        pads: found.pads,
        object,
    })
}
