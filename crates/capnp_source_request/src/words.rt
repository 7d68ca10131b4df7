//! The words of a message of one segment, as they are written.

ghost use Rattle.std.specs.Prelude.{◌≡◌};

use crate::faults::RequestFault;
use crate::frames::MOST_WORDS;
use capnp_source_nodes::values::{Object, Parts, Width};
use std::alloc::Global;

/// The pointer to a struct without sections, which differs from a null pointer.
const EMPTY_STRUCT: u64 = 0xffff_fffc;
/// The size of the elements in a pointer to a list of pointers.
const POINTERS: u64 = 6;
/// The size of the elements in a pointer to a list of structs.
const STRUCTS: u64 = 7;
/// The most elements of a list.
const MOST_ELEMENTS: usize = (1 << 29) - 1;

/// Words, each zero until it is set.
#[derive(Drop)]
struct Words {
    words: Vec<u64>,
}

/// The sizes of the sections of a struct.
#[derive(Clone, Copy)]
struct Sections {
    data: u16,
    pointers: u16,
}

impl Sections {
    /// The number of words.
    fn words(self) -> usize {
        usize::from(self.data) + usize::from(self.pointers)
    }

    /// The upper half of a pointer to a struct of these sections.
    fn bits(self) -> u64 {
        u64::from(self.data) << 32 | u64::from(self.pointers) << 48
    }
}

impl Words {
    /// Adds words of zero. Returns the place of the first.
    fn reserve(&mut self, count: usize) -> Result<usize, RequestFault> {
        let start = self.words.len();
        let end = start.checked_add(count).unwrap_or(usize::MAX);
        if end > MOST_WORDS {
            return Err(RequestFault::TooLarge);
        }
        self.words.resize(end, 0)?;
        Ok(start)
    }

    /// Sets the word of a place, if there is one.
    fn set(&mut self, place: usize, word: u64) {
        if let Some(there) = self.words.get_mut(place) {
            *there = word;
        }
    }

    /// Sets words to bytes, lowest first, from a place on. At most `count` words are set.
    fn set_bytes(&mut self, place: usize, count: usize, bytes: &[u8]) {
        let mut at = place;
        for chunk in bytes.chunks(8).take(count) {
            self.set(at, word_of(chunk));
            at = at.saturating_add(1);
        }
    }
}

/// The word of up to eight bytes, the lowest first.
fn word_of(bytes: &[u8]) -> u64 {
    let mut whole = [0u8; 8];
    for (byte, there) in bytes.iter().zip(whole.iter_mut()) {
        *there = *byte;
    }
    u64::from_le_bytes(whole)
}

/// The distance from the end of a pointer to what it leads to, in the bits of the pointer.
fn distance(pointer: usize, target: usize) -> u64 {
    let words = target.saturating_sub(pointer).saturating_sub(1);
    (words as u64 & 0x1fff_ffff) << 2
}

/// A pointer to a struct.
fn struct_pointer(pointer: usize, target: usize, sections: Sections) -> u64 {
    if sections.words() == 0 {
        return EMPTY_STRUCT;
    }
    distance(pointer, target) | sections.bits()
}

/// A pointer to a list, with the number of elements or, of a list of structs, of words.
fn list_pointer(pointer: usize, target: usize, size: u64, count: usize) -> u64 {
    1 | distance(pointer, target) | (size & 7) << 32 | (count as u64 & 0x1fff_ffff) << 35
}

/// The number of elements, if a list can have that many.
fn counted(count: usize) -> Result<usize, RequestFault> {
    if count > MOST_ELEMENTS {
        return Err(RequestFault::TooLarge);
    }
    Ok(count)
}

/// A section's number of words, if a struct can have that many.
fn section(words: usize) -> Result<u16, RequestFault> {
    match u16::try_from(words) {
        Ok(words) => Ok(words),
        Err(_) => Err(RequestFault::TooLarge),
    }
}

/// The sizes of the sections that parts fill.
fn sections_of(parts: &Parts) -> Result<Sections, RequestFault> {
    Ok(Sections {
        data: section(parts.data.len().div_ceil(8))?,
        pointers: section(parts.pointers.len())?,
    })
}

/// The number of a width in a pointer, and the bits of an element.
fn width(size: Width) -> (u64, usize) {
    match size {
        Width::Void => (0, 0),
        Width::Bit => (1, 1),
        Width::Byte => (2, 8),
        Width::TwoBytes => (3, 16),
        Width::FourBytes => (4, 32),
        Width::EightBytes => (5, 64),
    }
}

/// Adds the elements of a list without pointers.
fn write_elements(
    words: &mut Words,
    pointer: usize,
    size: Width,
    count: usize,
    bytes: &[u8],
) -> Result<(), RequestFault> {
    let count = counted(count)?;
    let (number, bits) = width(size);
    let Some(bits) = count.checked_mul(bits) else {
        return Err(RequestFault::TooLarge);
    };
    let length = bits.div_ceil(64);
    let start = words.reserve(length)?;
    words.set(pointer, list_pointer(pointer, start, number, count));
    words.set_bytes(start, length, bytes);
    Ok(())
}

/// Adds what a pointer leads to, and sets the pointer.
#[cycle(objects)]
fn write_object(words: &mut Words, pointer: usize, object: &Object) -> Result<(), RequestFault> {
    match object {
        Object::Null => Ok(()),
        Object::Struct(parts) => {
            let sections = sections_of(parts)?;
            let start = words.reserve(sections.words())?;
            words.set(pointer, struct_pointer(pointer, start, sections));
            write_parts(words, start, sections, parts)
        }
        Object::Elements { size, count, bytes } => {
            write_elements(words, pointer, *size, *count as usize, bytes)
        }
        Object::Pointers(items) => {
            let count = counted(items.len())?;
            let mut place = words.reserve(count)?;
            words.set(pointer, list_pointer(pointer, place, POINTERS, count));
            for item in items {
                write_object(words, place, item)?;
                place = place.saturating_add(1);
            }
            Ok(())
        }
        Object::Structs {
            data_words,
            pointers,
            elements,
        } => {
            let sections = Sections {
                data: *data_words,
                pointers: *pointers,
            };
            let mut place = open_structs(words, pointer, sections, elements.len())?;
            for parts in elements {
                write_parts(words, place, sections, parts)?;
                place = place.saturating_add(sections.words());
            }
            Ok(())
        }
    }
}

/// Sets the sections of a struct, and adds what its pointers lead to. What has no room in the sections is left out.
#[cycle(objects)]
fn write_parts(
    words: &mut Words,
    start: usize,
    sections: Sections,
    parts: &Parts,
) -> Result<(), RequestFault> {
    let data_words = usize::from(sections.data);
    words.set_bytes(start, data_words, &parts.data);
    let mut place = start.saturating_add(data_words);
    let mut left = sections.pointers;
    for object in &parts.pointers {
        if left == 0 {
            break;
        }
        write_object(words, place, object)?;
        left = left.saturating_sub(1);
        place = place.saturating_add(1);
    }
    Ok(())
}

/// Adds the tag of a list of structs and room for its elements. Returns the place of the first.
fn open_structs(
    words: &mut Words,
    pointer: usize,
    sections: Sections,
    count: usize,
) -> Result<usize, RequestFault> {
    let count = counted(count)?;
    let length = counted(count.checked_mul(sections.words()).unwrap_or(usize::MAX))?;
    let tag = words.reserve(1)?;
    words.set(pointer, list_pointer(pointer, tag, STRUCTS, length));
    words.set(tag, (count as u64 & 0x3fff_ffff) << 2 | sections.bits());
    words.reserve(length)
}

/// The words of the message whose root is an object: the root pointer, and what it leads to in preorder.
pub fn words_of(alloc: Global, object: &Object) -> Result<Vec<u64>, RequestFault> {
    let mut words = Words {
        words: Vec::new(alloc),
    };
    let root = words.reserve(1)?;
    write_object(&mut words, root, object)?;
    Ok(words.words)
}
