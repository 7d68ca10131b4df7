//! Comparisons of two messages: whether they have the same tree, and the words of one don't
//! overlap.

use crate::marks::Marks;
use crate::outcomes::Stop;
use capnp_units::sizes::{ElementSize, data_bits_per_element};
use capnp_wire_objects::arena::ReaderArena;
use capnp_wire_objects::named::{NamedObject, found_at};
use capnp_wire_objects::object::words_of_elements;
use capnp_wire_objects::place::{Place, ROOT, place_in_word, word_at};
use std::alloc::Global;

/// The most levels of pointers of a message.
const LEVELS: u32 = 200;

/// The kind of an object.
#[derive(Clone, Copy, PartialEq, Eq)]
enum Kind {
    Null,
    Capability(u32),
    Struct,
    List(ElementSize, u32),
    Structs(u64),
}

/// An object: its elements have n data words, then m pointers each, and words before the first
/// element. The last data word of a list of numbers may have bits after the last number.
#[derive(Clone, Copy, PartialEq, Eq)]
struct Shape {
    kind: Kind,
    head: usize,
    elements: usize,
    data_words: usize,
    pointers: usize,
    last: u64,
}

/// Returns the shape of an object without words.
fn bare(kind: Kind) -> Shape {
    Shape {
        kind,
        head: 0,
        elements: 0,
        data_words: 0,
        pointers: 0,
        last: u64::MAX,
    }
}

impl Shape {
    /// Returns the number of words of an element.
    fn width(&self) -> usize {
        self.data_words.saturating_add(self.pointers)
    }

    /// Returns the number of all words.
    fn words(&self) -> usize {
        self.head
            .saturating_add(self.elements.saturating_mul(self.width()))
    }

    /// Returns the position of a data word in the object, by its number among all data words.
    fn data_word(&self, index: usize) -> usize {
        let each = self.data_words.max(1);
        self.head
            .saturating_add((index / each).saturating_mul(self.width()))
            .saturating_add(index % each)
    }

    /// Returns the position of a pointer in the object, by its number among all pointers.
    fn pointer(&self, index: usize) -> usize {
        let each = self.pointers.max(1);
        self.head
            .saturating_add((index / each).saturating_mul(self.width()))
            .saturating_add(self.data_words)
            .saturating_add(index % each)
    }
}

/// Returns a mask of the bits of the last word of a list of n numbers.
fn bits_of_last(size: ElementSize, count: u32) -> u64 {
    let bits = data_bits_per_element(size) as u64;
    match count as u64 * bits % 64 {
        0 => u64::MAX,
        rest => u64::MAX >> (64 - rest),
    }
}

/// Returns the shape of a list that isn't one of structs.
fn list_shape(size: ElementSize, count: u32) -> Shape {
    let is_pointers = size == ElementSize::Pointer;
    Shape {
        kind: Kind::List(size, count),
        head: 0,
        elements: 1,
        data_words: if is_pointers {
            0
        } else {
            words_of_elements(size, count) as usize
        },
        pointers: if is_pointers { count as usize } else { 0 },
        last: bits_of_last(size, count),
    }
}

/// Returns the shape of a list of structs, by its tag and the words that it claims.
fn structs_shape(tag: u64, claimed: u32) -> Option<Shape> {
    let shape = Shape {
        kind: Kind::Structs(tag),
        head: 1,
        elements: (tag % 0x1_0000_0000 / 4) as usize,
        data_words: (tag / 0x1_0000_0000 % 0x1_0000) as usize,
        pointers: (tag / 0x1_0000_0000_0000) as usize,
        last: u64::MAX,
    };
    if tag % 4 == 0 && shape.words() == (claimed as usize).saturating_add(1) {
        Some(shape)
    } else {
        None
    }
}

/// Returns the beginning of an object, and its shape; `None` if a list's tag isn't one.
fn shape_of<A: ReaderArena>(arena: &A, object: NamedObject) -> Option<(Place, Shape)> {
    match object {
        NamedObject::Null => Some((ROOT, bare(Kind::Null))),
        NamedObject::Capability { index } => Some((ROOT, bare(Kind::Capability(index)))),
        NamedObject::Struct {
            start,
            data_words,
            pointers,
        } => Some((
            start,
            Shape {
                kind: Kind::Struct,
                head: 0,
                elements: 1,
                data_words: data_words as usize,
                pointers: pointers as usize,
                last: u64::MAX,
            },
        )),
        NamedObject::List {
            start,
            size: ElementSize::InlineComposite,
            count,
        } => {
            let shape = structs_shape(word_at(arena, start)?, count)?;
            Some((start, shape))
        }
        NamedObject::List { start, size, count } => Some((start, list_shape(size, count))),
    }
}

/// Returns the place n words later.
fn after(place: Place, words: usize) -> Place {
    Place {
        segment: place.segment,
        position: place.position.saturating_add(words),
    }
}

/// Returns whether two objects of a shape have the same data words.
fn has_same_data<A: ReaderArena, B: ReaderArena>(
    arena: &A,
    start: Place,
    wanted: &B,
    at: Place,
    shape: Shape,
) -> bool {
    let count = shape.elements.saturating_mul(shape.data_words);
    for index in 0..count {
        let place = shape.data_word(index);
        let word = word_at(arena, after(start, place));
        let told = word_at(wanted, after(at, place));
        let (Some(word), Some(told)) = (word, told) else {
            return false;
        };
        let is_last = index.saturating_add(1) == count;
        let bits = if is_last { shape.last } else { u64::MAX };
        if (word ^ told) & bits != 0 {
            return false;
        }
    }
    true
}

/// Marks the words of the object of a pointer, with its pads, up to n levels deep. Returns whether
/// it is the value of another message's pointer, and its objects don't overlap.
#[cycle(is_value)]
fn is_value<A: ReaderArena, B: ReaderArena>(
    arena: &A,
    slot: Place,
    wanted: &B,
    place: Place,
    marks: &mut Marks,
    levels: u32,
) -> bool {
    let (Ok(found), Ok(told)) = (found_at(arena, slot), found_at(wanted, place)) else {
        return false;
    };
    let Some((start, shape)) = shape_of(arena, found.object) else {
        return false;
    };
    let Some((at, same)) = shape_of(wanted, told.object) else {
        return false;
    };
    if shape != same || levels == 0 {
        return false;
    }
    let pads = place_in_word(word_at(arena, slot).unwrap_or(0));
    if !marks.mark(start, shape.words()) || !marks.mark(pads, found.pads as usize) {
        return false;
    }
    if !has_same_data(arena, start, wanted, at, shape) {
        return false;
    }
    for index in 0..shape.elements.saturating_mul(shape.pointers) {
        let word = shape.pointer(index);
        let (slot, place) = (after(start, word), after(at, word));
        if !is_value(arena, slot, wanted, place, marks, levels - 1) {
            return false;
        }
    }
    true
}

/// Returns whether a message has the tree of another, each object and pad has words of its own, and
/// every other word is zero.
pub fn has_tree<A: ReaderArena, B: ReaderArena>(
    alloc: Global,
    arena: &A,
    wanted: &B,
) -> Result<bool, Stop> {
    let mut marks = Marks::none(alloc, arena)?;
    Ok(
        marks.mark(ROOT, 1)
            && is_value(arena, ROOT, wanted, ROOT, &mut marks, LEVELS)
            && marks.others_are_zero(arena),
    )
}
