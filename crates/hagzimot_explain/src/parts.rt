//! Parts of objects and landing pads.
ghost use Rattle.std.specs.Prelude.{◌≡◌, ◌<◌, ◌*◌, ◌+◌, ◌-◌, ◌==◌, ◌^◌, nat_lt, if◌then◌else◌, Some, None, IfSome};
ghost use Rattle.capnp_model.specs.Segments.{Segments};
ghost use Rattle.capnp_model.specs.Pointers.{pointer_of};
ghost use Rattle.capnp_units.specs.Segments.{words_in};
ghost use Rattle.capnp_wire_objects.specs.Places.{place_view};
ghost use Rattle.capnp_wire_objects.specs.Objects.{IsInside};
ghost use Rattle.hagzimot_faults.specs.declared.steps.Step.TheVariants as step;
ghost use Rattle.hagzimot_explain.specs.declared.marks.Part.TheVariants as part;
ghost use Rattle.hagzimot_explain.specs.Parts.{object_there, words_of, start_of, behind_tag, part_of, part_in, pad_of, pad_there};

use crate::marks::Part;
use capnp_wire_objects::arena::ReaderArena;
use capnp_wire_objects::object::{Object, object_at, words_of_elements};
use capnp_wire_objects::place::{Place, has_words, place_in_word, word_at};
use hagzimot_faults::steps::Step;

/// Returns the object that the pointer at a place leads to, or null if there is a fault.
pub fn object_there<A: ReaderArena>(arena: &A, place: Place) -> Object
    ensures object { result
        ≡ object_there (words_in (A.segments arena.now)) (place_view place) }
    ensures inside { IsInside (words_in (A.segments arena.now)) result }
{
    match object_at(arena, place) {
        Ok(found) => found.object,
        Err(_) => Object::Null,
    }
}

/// Returns the number of words of an object, with a list's tag.
pub fn words_of(object: Object) -> u64
    ensures words { result ≡ words_of object }
    ensures few { result < 2 ^ 34 }
{
    match object {
        Object::Null | Object::Capability { .. } => 0,
        Object::Struct {
            data_words,
            pointers,
            ..
        } => data_words as u64 + pointers as u64,
        Object::List { size, count, .. } => words_of_elements(size, count),
        Object::PointerList { count, .. } => count as u64,
        Object::StructList { words, .. } => words as u64 + 1,
    }
}

/// Returns the place of the first word of an object, a list's tag too. Null and a capability have
/// no words.
pub fn start_of(object: Object) -> Place
    ensures place { place_view result ≡ start_of object }
    ensures near { (s : Segments) → IsInside s object → result.position < 2 ^ 61 }
{
    match object {
        Object::Null | Object::Capability { .. } => Place {
            segment: 0,
            position: 0,
        },
        Object::Struct { start, .. }
        | Object::List { start, .. }
        | Object::PointerList { start, .. } => start,
        Object::StructList { start, .. } => Place {
            segment: start.segment,
            position: start.position.saturating_sub(1),
        },
    }
}

/// Returns what the word after n others is in a struct.
fn part_of_struct(data_words: u16, index: u64) -> Part
    requires { index < 2 ^ 32 }
    ensures { result ≡ (if nat_lt index data_words then part.Data index
        else part.Pointer (step.Pointer (index - data_words))) }
{
    if index < data_words as u64 {
        Part::Data { index }
    } else {
        Part::Pointer {
            step: Step::Pointer((index - data_words as u64) as u32),
        }
    }
}

/// Returns what the word after n others, the tag the first, is in a list of structs.
fn part_of_structs(count: u32, data_words: u16, pointers: u16, index: u64) -> Part
    ensures { result ≡ (if index == 0 then part.Tag
        else behind_tag count data_words pointers (index - 1)) }
{
    if index == 0 {
        return Part::Tag;
    }
    let width = data_words as u64 + pointers as u64;
    if index - 1 >= count as u64 * width {
        return Part::Unfilled;
    }
    let element = (index - 1) / width;
    let inner = (index - 1) % width;
    if inner < data_words as u64 {
        return Part::ElementData {
            element,
            index: inner,
        };
    }
    Part::Pointer {
        step: Step::Element {
            index: element as u32,
            pointer: (inner - data_words as u64) as u32,
        },
    }
}

/// Returns what the word after n others is in an object, if the object has this word.
pub fn part_in(object: Object, index: u64) -> Option<Part>
    ensures { result ≡ part_in object index }
{
    if index >= words_of(object) {
        return None;
    }
    match object {
        Object::Null | Object::Capability { .. } => None,
        Object::Struct { data_words, .. } => Some(part_of_struct(data_words, index)),
        Object::List { .. } => Some(Part::Elements { index }),
        Object::PointerList { .. } => Some(Part::Pointer {
            step: Step::Item(index as u32),
        }),
        Object::StructList {
            count,
            data_words,
            pointers,
            ..
        } => Some(part_of_structs(count, data_words, pointers, index)),
    }
}

/// A landing pad.
#[derive(Clone, Copy, Debug, PartialEq, Eq)]
pub struct Pad {
    pub place: Place,
    /// Whether it has two words.
    pub is_double: bool,
}

/// Returns the landing pad to which a far pointer's word leads, whether it is there or not.
pub fn pad_of_word(word: u64) -> Option<Pad>
    ensures { result ≡ pad_of (pointer_of word) }
{
    if word % 4 != 2 {
        return None;
    }
    Some(Pad {
        place: place_in_word(word),
        is_double: word / 4 % 2 == 1,
    })
}

/// Returns the landing pad of the pointer at a place, if its words are there.
pub fn pad_there<A: ReaderArena>(arena: &A, place: Place) -> Option<Pad>
    ensures { result ≡ pad_there (words_in (A.segments arena.now)) (place_view place) }
{
    let pad = pad_of_word(word_at(arena, place)?)?;
    let words = if pad.is_double { 2 } else { 1 };
    if !has_words(arena, pad.place, words) {
        return None;
    }
    Some(pad)
}
