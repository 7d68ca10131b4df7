//! Objects that pointers name, with far pointers followed.
ghost use Rattle.std.specs.Prelude.{◌≡◌, ◌+◌, ◌≤◌, ◌<◌, ◌^◌, Ok, Err, IfOk};
ghost use Rattle.std.specs.Option.{ok_or};
ghost use Rattle.capnp_model.specs.Kinds.{OutOfBounds};
ghost use Rattle.capnp_model.specs.Chains.{◌and_then◌};
ghost use Rattle.capnp_model.specs.Segments.{words_at};
ghost use Rattle.capnp_model.specs.Pointers.{begins, described, in_pad, found_at};
ghost use Rattle.capnp_units.specs.Segments.{words_in};
ghost use Rattle.capnp_wire_objects.specs.Places.{place_view, pointer_view, seen};
ghost use Rattle.capnp_wire_objects.specs.Named.{named_view, found_view, pad_object};

use crate::arena::ReaderArena;
use crate::place::{Place, begins_at, place_in_word, word_at};
use crate::word_pointer::{WordPointer, pointer_of_word};
use capnp_units::errors::{Error, Result};
use capnp_units::kinds::ErrorKind;
use capnp_units::sizes::ElementSize;

/// An object that a pointer names, whether its words are there or not.
#[derive(Clone, Copy)]
pub enum NamedObject {
    Null,
    Struct {
        start: Place,
        data_words: u16,
        pointers: u16,
    },
    List {
        start: Place,
        size: ElementSize,
        count: u32,
    },
    Capability {
        index: u32,
    },
}

/// The object, and the number of words of the landing pads that lead to it.
#[derive(Clone, Copy)]
pub struct FoundObject {
    pub pads: u8,
    pub object: NamedObject,
}

/// Returns the object of a describing word that ends at a place.
#[inline(always)]
fn described_behind(end: Place, pointer: WordPointer) -> Result<NamedObject>
    requires { end.position < 2 ^ 62 }
    ensures { seen named_view result ≡ described (begins (place_view end)) (pointer_view pointer) }
{
    match pointer {
        WordPointer::Struct {
            offset,
            data_words,
            pointers,
        } => {
            let start = begins_at(end, offset)?;
            Ok(NamedObject::Struct {
                start,
                data_words,
                pointers,
            })
        }
        WordPointer::List {
            offset,
            size,
            count,
        } => {
            let start = begins_at(end, offset)?;
            Ok(NamedObject::List { start, size, count })
        }
        WordPointer::Capability { index } => Ok(NamedObject::Capability { index }),
        WordPointer::Far { .. } | WordPointer::DoubleFar { .. } => {
            Err(Error::from(ErrorKind::MalformedFarPointer))
        }
        WordPointer::Unknown => Err(Error::from(ErrorKind::UnknownPointerType)),
    }
}

/// Returns the object of a describing word, at a place that is given.
#[inline(always)]
fn described_at(start: Place, pointer: WordPointer) -> Result<NamedObject>
    ensures { seen named_view result
        ≡ described (λ _. Ok (place_view start)) (pointer_view pointer) }
{
    match pointer {
        WordPointer::Struct {
            data_words,
            pointers,
            ..
        } => Ok(NamedObject::Struct {
            start,
            data_words,
            pointers,
        }),
        WordPointer::List { size, count, .. } => Ok(NamedObject::List { start, size, count }),
        WordPointer::Capability { index } => Ok(NamedObject::Capability { index }),
        WordPointer::Far { .. } | WordPointer::DoubleFar { .. } => {
            Err(Error::from(ErrorKind::MalformedFarPointer))
        }
        WordPointer::Unknown => Err(Error::from(ErrorKind::UnknownPointerType)),
    }
}

/// Returns the object of a landing pad of one word, which is a pointer.
#[inline(never)]
fn in_short_pad<A: ReaderArena>(arena: &A, pad: Place) -> Result<NamedObject>
    ensures { seen named_view result
        ≡ pad_object (words_in (A.segments arena.now)) (place_view pad) 1 }
{
    let word = word_at(arena, pad).ok_or(Error::from(ErrorKind::OutOfBounds))?;
    let end = Place {
        segment: pad.segment,
        position: pad.position + 1,
    };
    described_behind(end, pointer_of_word(word))
}

/// Returns the object of a landing pad of two words: the place at which it begins, and a pointer
/// whose offset isn't read.
#[inline(never)]
fn in_long_pad<A: ReaderArena>(arena: &A, pad: Place) -> Result<NamedObject>
    ensures { seen named_view result
        ≡ pad_object (words_in (A.segments arena.now)) (place_view pad) 2 }
{
    let far = word_at(arena, pad).ok_or(Error::from(ErrorKind::OutOfBounds))?;
    let second = Place {
        segment: pad.segment,
        position: pad.position + 1,
    };
    let word = word_at(arena, second).ok_or(Error::from(ErrorKind::OutOfBounds))?;
    described_at(place_in_word(far), pointer_of_word(word))
}

/// Returns the object that the pointer at a place names, with the number of words of the pads that
/// lead to it.
#[inline(always)]
pub fn found_at<A: ReaderArena>(arena: &A, place: Place) -> Result<FoundObject>
    ensures found { seen found_view result
        ≡ found_at (words_in (A.segments arena.now)) (place_view place) }
    ensures pads { IfOk result (λ f. f.pads ≤ 2) }
{
    let word = word_at(arena, place).ok_or(Error::from(ErrorKind::OutOfBounds))?;
    if word == 0 {
        return Ok(FoundObject {
            pads: 0,
            object: NamedObject::Null,
        });
    }
    match pointer_of_word(word) {
        WordPointer::Far { pad } => {
            let object = in_short_pad(arena, pad)?;
            Ok(FoundObject { pads: 1, object })
        }
        WordPointer::DoubleFar { pad } => {
            let object = in_long_pad(arena, pad)?;
            Ok(FoundObject { pads: 2, object })
        }
        pointer => {
            let end = Place {
                segment: place.segment,
                position: place.position + 1,
            };
            let object = described_behind(end, pointer)?;
            Ok(FoundObject { pads: 0, object })
        }
    }
}
