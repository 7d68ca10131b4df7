//! Clearing of values: their pointer becomes null, and all words that they took become zero.
ghost use Rattle.std.specs.Prelude.{◌≡◌, ◌+◌, ◌*◌, ◌<◌, ◌≤◌, ◌^◌, ◌∷◌, [], ℕ, length, map, unwrap_or};
ghost use Rattle.capnp_model.specs.Segments.{word_at};
ghost use Rattle.capnp_model.specs.Pointers.{a_list};
ghost use Rattle.capnp_units.specs.Segments.{words_in};
ghost use Rattle.capnp_units.specs.Sizes.{size_number};
ghost use Rattle.capnp_wire_objects.specs.Places.{place_view};
ghost use Rattle.capnp_wire_objects.specs.Named.{named_view};
ghost use Rattle.capnp_model_writes.specs.Writes.{with_words};
ghost use Rattle.capnp_copy_arenas.specs.Clearing.{nonzero_words, zeroed_there, ClearsValue, ClearsObject, ClearsKids, ClearsElements};

use crate::arena::BuilderArena;
use capnp_units::sizes::ElementSize;
use capnp_wire_objects::named::{NamedObject, found_at};
use capnp_wire_objects::object::{Object, whole, words_of_elements};
use capnp_wire_objects::place::{Place, has_words, place_in_word, word_at};

/// Writes zeros over n words from a place on, if the words exist.
fn zero_there<A: BuilderArena>(arena: &mut A, place: Place, count: usize)
    ensures words { words_in (A.segments arena.new)
        ≡ zeroed_there (words_in (A.segments arena.old)) (place_view place) count }
    ensures sizes { map length (words_in (A.segments arena.new))
        ≡ map length (words_in (A.segments arena.old)) }
    ensures nonzero { nonzero_words (words_in (A.segments arena.new)) ≤ nonzero_words
        (words_in (A.segments arena.old)) }
    ensures room { A.room arena.new ≡ A.room arena.old }
    ensures books { A.books arena.new ≡ A.books arena.old }
{
    if has_words(arena, place, count) {
        arena.zero_words(place, count);
    }
}

/// Clears a list of plain elements.
fn clear_plain<A: BuilderArena>(arena: &mut A, start: Place, size: ElementSize, count: u32)
    requires { size_number size < 6 }
    ensures clears { ClearsObject (words_in (A.segments arena.old))
        (words_in (A.segments arena.new)) (a_list (place_view start) (size_number size) count) }
    ensures sizes { map length (words_in (A.segments arena.new))
        ≡ map length (words_in (A.segments arena.old)) }
    ensures nonzero { nonzero_words (words_in (A.segments arena.new)) ≤ nonzero_words
        (words_in (A.segments arena.old)) }
    ensures room { A.room arena.new ≡ A.room arena.old }
    ensures books { A.books arena.new ≡ A.books arena.old }
{
    let words = words_of_elements(size, count) as usize;
    zero_there(arena, start, words);
}

/// Writes null over a pointer that isn't null.
fn write_null<A: BuilderArena>(arena: &mut A, slot: Place)
    requires { 0 < unwrap_or (word_at (words_in (A.segments arena.old)) (place_view slot)) 0 }
    ensures words { words_in (A.segments arena.new)
        ≡ with_words (words_in (A.segments arena.old)) (place_view slot) (0 ∷ []) }
    ensures sizes { map length (words_in (A.segments arena.new))
        ≡ map length (words_in (A.segments arena.old)) }
    ensures fewer { nonzero_words (words_in (A.segments arena.new)) < nonzero_words
        (words_in (A.segments arena.old)) }
    ensures room { A.room arena.new ≡ A.room arena.old }
    ensures books { A.books arena.new ≡ A.books arena.old }
{
    arena.write_word(slot, 0);
}

/// Clears the pointer at a place: the pointer becomes null, and all words of its value become zero,
/// including those of its pads and of all values in it. Nothing else changes, and nothing is
/// allocated.
///
/// It takes a step for each pointer that isn't null, and for each pointer of the objects on the
/// way. A list of plain elements or of structs without pointers takes one step, whatever its
/// length. Each level of pointers takes stack.
#[cycle(clear)]
#[inline(always)]
pub fn clear<A: BuilderArena>(arena: &mut A, slot: Place)
    ensures clears { ClearsValue (words_in (A.segments arena.old))
        (words_in (A.segments arena.new)) (place_view slot) }
    ensures sizes { map length (words_in (A.segments arena.new))
        ≡ map length (words_in (A.segments arena.old)) }
    ensures nonzero { nonzero_words (words_in (A.segments arena.new)) ≤ nonzero_words
        (words_in (A.segments arena.old)) }
    ensures room { A.room arena.new ≡ A.room arena.old }
    ensures books { A.books arena.new ≡ A.books arena.old }
{
    let word = word_at(arena, slot).unwrap_or(0);
    if word == 0 {
        return;
    }
    clear_there(arena, slot, word);
}

/// Clears a pointer that isn't null, by its word.
#[cycle(clear)]
fn clear_there<A: BuilderArena>(arena: &mut A, slot: Place, word: u64)
    requires there { unwrap_or (word_at (words_in (A.segments arena.old)) (place_view slot)) 0
        ≡ word }
    requires some { 0 < word }
    ensures clears { ClearsValue (words_in (A.segments arena.old))
        (words_in (A.segments arena.new)) (place_view slot) }
    ensures sizes { map length (words_in (A.segments arena.new))
        ≡ map length (words_in (A.segments arena.old)) }
    ensures nonzero { nonzero_words (words_in (A.segments arena.new)) ≤ nonzero_words
        (words_in (A.segments arena.old)) }
    ensures room { A.room arena.new ≡ A.room arena.old }
    ensures books { A.books arena.new ≡ A.books arena.old }
{
    let found = found_at(arena, slot);
    write_null(arena, slot);
    if let Ok(found) = found {
        clear_object(arena, found.object);
        zero_there(arena, place_in_word(word), found.pads as usize);
    }
}

/// Clears the values of an object's pointers, and then the object's own words. The object may have
/// no pointer that names it.
#[cycle(clear)]
pub fn clear_object<A: BuilderArena>(arena: &mut A, object: NamedObject)
    ensures clears { ClearsObject (words_in (A.segments arena.old))
        (words_in (A.segments arena.new)) (named_view object) }
    ensures sizes { map length (words_in (A.segments arena.new))
        ≡ map length (words_in (A.segments arena.old)) }
    ensures nonzero { nonzero_words (words_in (A.segments arena.new)) ≤ nonzero_words
        (words_in (A.segments arena.old)) }
    ensures room { A.room arena.new ≡ A.room arena.old }
    ensures books { A.books arena.new ≡ A.books arena.old }
{
    match object {
        NamedObject::Null => {}
        NamedObject::Capability { .. } => {}
        NamedObject::Struct {
            start,
            data_words,
            pointers,
        } => {
            clear_kids(arena, start, data_words, pointers as u32);
            zero_there(arena, start, data_words as usize + pointers as usize);
        }
        NamedObject::List { start, size, count } => clear_list(arena, start, size, count),
    }
}

/// Clears the values of a list's pointers, and then the list's own words.
#[cycle(clear)]
fn clear_list<A: BuilderArena>(arena: &mut A, start: Place, size: ElementSize, count: u32)
    ensures clears { ClearsObject (words_in (A.segments arena.old))
        (words_in (A.segments arena.new)) (a_list (place_view start) (size_number size) count) }
    ensures sizes { map length (words_in (A.segments arena.new))
        ≡ map length (words_in (A.segments arena.old)) }
    ensures nonzero { nonzero_words (words_in (A.segments arena.new)) ≤ nonzero_words
        (words_in (A.segments arena.old)) }
    ensures room { A.room arena.new ≡ A.room arena.old }
    ensures books { A.books arena.new ≡ A.books arena.old }
{
    match size {
        ElementSize::Void
        | ElementSize::Bit
        | ElementSize::Byte
        | ElementSize::TwoBytes
        | ElementSize::FourBytes
        | ElementSize::EightBytes => clear_plain(arena, start, size, count),
        ElementSize::Pointer => {
            clear_kids(arena, start, 0, count);
            zero_there(arena, start, count as usize);
        }
        ElementSize::InlineComposite => {
            clear_elements(arena, start, count);
            zero_there(arena, start, 1 + count as usize);
        }
    }
}

/// Clears the pointers of a struct, if its words exist.
#[cycle(clear)]
fn clear_kids<A: BuilderArena>(arena: &mut A, start: Place, data_words: u16, pointers: u32)
    ensures clears { ClearsKids (words_in (A.segments arena.old))
        (words_in (A.segments arena.new)) (place_view start) data_words pointers }
    ensures sizes { map length (words_in (A.segments arena.new))
        ≡ map length (words_in (A.segments arena.old)) }
    ensures nonzero { nonzero_words (words_in (A.segments arena.new)) ≤ nonzero_words
        (words_in (A.segments arena.old)) }
    ensures room { A.room arena.new ≡ A.room arena.old }
    ensures books { A.books arena.new ≡ A.books arena.old }
{
    if pointers == 0 {
        return;
    }
    if !has_words(arena, start, data_words as usize + pointers as usize) {
        return;
    }
    for i in 0..pointers {
        let slot = Place {
            segment: start.segment,
            position: start.position + data_words as usize + i as usize,
        };
        clear(arena, slot);
    }
}

/// Clears the pointers of a list's structs, if the list exists. The list begins at its tag, and its
/// pointer claims n words after the tag.
#[cycle(clear)]
fn clear_elements<A: BuilderArena>(arena: &mut A, start: Place, words: u32)
    ensures clears { ClearsElements (words_in (A.segments arena.old))
        (words_in (A.segments arena.new)) (place_view start) words }
    ensures sizes { map length (words_in (A.segments arena.new))
        ≡ map length (words_in (A.segments arena.old)) }
    ensures nonzero { nonzero_words (words_in (A.segments arena.new)) ≤ nonzero_words
        (words_in (A.segments arena.old)) }
    ensures room { A.room arena.new ≡ A.room arena.old }
    ensures books { A.books arena.new ≡ A.books arena.old }
{
    let list = NamedObject::List {
        start,
        size: ElementSize::InlineComposite,
        count: words,
    };
    let Ok(
        Object::StructList {
            start: first,
            count,
            data_words,
            pointers,
            ..
        },
    ) = whole(arena, list)
    else {
        return;
    };
    if pointers == 0 {
        return;
    }
    let width = data_words as usize + pointers as usize;
    for i in 0..count {
        let element = Place {
            segment: first.segment,
            position: first.position + i as usize * width,
        };
        clear_kids(arena, element, data_words, pointers as u32);
    }
}
