//! Messages that schema sources embed, as values.

use capnp_source_nodes::values::{Object, Parts, Width};
use capnp_stream::slices::read_message_from_flat_slice;
use capnp_units::kinds::ErrorKind;
use capnp_units::sizes::ElementSize;
use capnp_wire_objects::arena::{ReaderArena, ReaderArenaImpl};
use capnp_wire_objects::object::{Object as Found, object_at};
use capnp_wire_objects::place::{Place, ROOT, segment_bytes};
use std::alloc::{AllocError, AllocFailed, Global};

/// The number of levels of pointers that a message may have.
const MOST_LEVELS: u32 = 64;

/// The number of words that a message may mean: 64 MiB.
const MOST_WORDS: u64 = 1 << 23;

/// Why a message can't be embedded.
#[derive(Clone, Copy, Debug, PartialEq, Eq)]
pub enum EmbedFault {
    /// The bytes aren't a message whose root is a struct without capabilities.
    Malformed,
    /// The message is nested too deep, or means too many words.
    TooLarge,
    /// An allocation was refused.
    Memory,
}

impl From<AllocError> for EmbedFault {
    fn from(_e: AllocError) -> EmbedFault {
        EmbedFault::Memory
    }
}

impl<T: Drop> From<AllocFailed<T>> for EmbedFault {
    fn from(_e: AllocFailed<T>) -> EmbedFault {
        EmbedFault::Memory
    }
}

/// A message that is read.
#[derive(Drop)]
struct Reading<A: ReaderArena> {
    alloc: Global,
    arena: A,
    /// The number of words that may still be read.
    left: u64,
}

impl<A: ReaderArena + Drop> Reading<A> {
    /// Takes words of what may be read.
    fn take(&mut self, words: u64) -> Result<(), EmbedFault> {
        let taken = words.saturating_add(1);
        if self.left < taken {
            return Err(EmbedFault::TooLarge);
        }
        self.left -= taken;
        Ok(())
    }

    /// Returns a copy of bytes from a place on.
    fn bytes(&mut self, start: Place, length: usize) -> Result<Vec<u8>, EmbedFault> {
        let alloc = self.alloc;
        self.take(length.div_ceil(8) as u64)?;
        let segment = segment_bytes(&self.arena, start.segment);
        let Some(first) = start.position.checked_mul(8) else {
            return Err(EmbedFault::Malformed);
        };
        let Some(end) = first.checked_add(length) else {
            return Err(EmbedFault::Malformed);
        };
        let Some(bytes) = segment.get(first..end) else {
            return Err(EmbedFault::Malformed);
        };
        let mut copied = Vec::new(alloc);
        copied.extend_from_slice(bytes)?;
        Ok(copied)
    }
}

/// Returns the place that is n words on.
fn behind(start: Place, words: usize) -> Result<Place, EmbedFault> {
    match start.position.checked_add(words) {
        Some(position) => Ok(Place {
            segment: start.segment,
            position,
        }),
        None => Err(EmbedFault::Malformed),
    }
}

/// Returns the size of elements of a list without pointers, and the number of bytes of n elements.
fn width_of(size: ElementSize, count: u32) -> Option<(Width, usize)> {
    let count = count as usize;
    match size {
        ElementSize::Void => Some((Width::Void, 0)),
        ElementSize::Bit => Some((Width::Bit, count.div_ceil(8))),
        ElementSize::Byte => Some((Width::Byte, count)),
        ElementSize::TwoBytes => Some((Width::TwoBytes, count * 2)),
        ElementSize::FourBytes => Some((Width::FourBytes, count * 4)),
        ElementSize::EightBytes => Some((Width::EightBytes, count * 8)),
        ElementSize::Pointer | ElementSize::InlineComposite => None,
    }
}

/// Returns the list of elements without pointers that begins at a place.
fn elements<A: ReaderArena + Drop>(
    reading: &mut Reading<A>,
    start: Place,
    size: ElementSize,
    count: u32,
) -> Result<Object, EmbedFault> {
    let Some((size, length)) = width_of(size, count) else {
        return Err(EmbedFault::Malformed);
    };
    let bytes = reading.bytes(start, length)?;
    Ok(Object::Elements { size, count, bytes })
}

/// Returns what the pointers from a place on lead to.
#[cycle(objects)]
fn pointers_within<A: ReaderArena + Drop>(
    reading: &mut Reading<A>,
    start: Place,
    count: usize,
    levels: u32,
) -> Result<Vec<Object>, EmbedFault> {
    let mut pointers = Vec::new(reading.alloc);
    for index in 0..count {
        let place = behind(start, index)?;
        pointers.push(object_within(reading, place, levels)?)?;
    }
    Ok(pointers)
}

/// Returns the struct that begins at a place.
#[cycle(objects)]
fn parts_within<A: ReaderArena + Drop>(
    reading: &mut Reading<A>,
    start: Place,
    data_words: u16,
    pointers: u16,
    levels: u32,
) -> Result<Parts, EmbedFault> {
    let data_words = usize::from(data_words);
    let data = reading.bytes(start, 8 * data_words)?;
    let first = behind(start, data_words)?;
    let pointers = pointers_within(reading, first, usize::from(pointers), levels)?;
    Ok(Parts { data, pointers })
}

/// Returns the structs of a list whose first one begins at a place.
#[cycle(objects)]
fn structs_within<A: ReaderArena + Drop>(
    reading: &mut Reading<A>,
    start: Place,
    count: u32,
    data_words: u16,
    pointers: u16,
    levels: u32,
) -> Result<Object, EmbedFault> {
    let mut elements = Vec::new(reading.alloc);
    let mut place = start;
    for _ in 0..count {
        elements.push(parts_within(reading, place, data_words, pointers, levels)?)?;
        place = behind(place, usize::from(data_words) + usize::from(pointers))?;
    }
    Ok(Object::Structs {
        data_words,
        pointers,
        elements,
    })
}

/// Returns what the pointer at a place leads to, in which n levels may be nested.
#[cycle(objects)]
fn object_within<A: ReaderArena + Drop>(
    reading: &mut Reading<A>,
    place: Place,
    levels: u32,
) -> Result<Object, EmbedFault> {
    if levels == 0 {
        return Err(EmbedFault::TooLarge);
    }
    reading.take(1)?;
    let Ok(found) = object_at(&reading.arena, place) else {
        return Err(EmbedFault::Malformed);
    };
    match found.object {
        Found::Null => Ok(Object::Null),
        Found::Struct {
            start,
            data_words,
            pointers,
        } => {
            let parts = parts_within(reading, start, data_words, pointers, levels - 1)?;
            Ok(Object::Struct(parts))
        }
        Found::List { start, size, count } => elements(reading, start, size, count),
        Found::PointerList { start, count } => {
            let pointers = pointers_within(reading, start, count as usize, levels - 1)?;
            Ok(Object::Pointers(pointers))
        }
        Found::StructList {
            start,
            words: _,
            count,
            data_words,
            pointers,
        } => structs_within(reading, start, count, data_words, pointers, levels - 1),
        Found::Capability { .. } => Err(EmbedFault::Malformed),
    }
}

/// Returns the root of the message at the front of bytes, which has to be a struct. A root of null
/// is a struct without sections.
///
/// - `Malformed` if the bytes aren't such a message.
/// - `TooLarge` if it is nested more than 64 levels deep, or means more than 64 MiB.
/// - `Memory` if an allocation was refused.
pub fn embedded_struct(alloc: Global, bytes: &[u8]) -> Result<Object, EmbedFault> {
    let mut left = bytes;
    let segments = match read_message_from_flat_slice(alloc, &mut left, None) {
        Ok(segments) => segments,
        Err(error) if error.kind == ErrorKind::OutOfMemory => return Err(EmbedFault::Memory),
        Err(_) => return Err(EmbedFault::Malformed),
    };
    let mut reading = Reading {
        alloc,
        arena: ReaderArenaImpl::new(segments, 64),
        left: MOST_WORDS,
    };
    match object_within(&mut reading, ROOT, MOST_LEVELS)? {
        Object::Null => Ok(Object::Struct(Parts {
            data: Vec::new(alloc),
            pointers: Vec::new(alloc),
        })),
        Object::Struct(parts) => Ok(Object::Struct(parts)),
        _ => Err(EmbedFault::Malformed),
    }
}
