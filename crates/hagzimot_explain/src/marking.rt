//! Marks on the words of a message.
ghost use Rattle.std.specs.Prelude.{◌≡◌, ◌<◌, ◌^◌, ◌+◌, Some, IfOk, option_map};
ghost use Rattle.capnp_model.specs.Chains.{◌provided◌};
ghost use Rattle.capnp_model.specs.Segments.{Segments, Place as ModelPlace};
ghost use Rattle.capnp_units.specs.Segments.{words_in};
ghost use Rattle.capnp_wire_objects.specs.Places.{place_view};
ghost use Rattle.capnp_wire_objects.specs.Objects.{IsInside};
ghost use Rattle.hagzimot_explain.specs.Rows.{value_of, for_word, is_at};
ghost use Rattle.hagzimot_explain.specs.Parts.{pad_there};
ghost use Rattle.hagzimot_explain.specs.Marks.{marked, object_mark, pad_mark, word_by};

use crate::marks::{Mark, Word};
use crate::parts::{object_there, pad_there, part_in, start_of, words_of};
use crate::rows::{rows_of, set_value, value_at};
use capnp_units::segments::ReaderSegments;
use capnp_wire_objects::arena::ReaderArena;
use capnp_wire_objects::object::Object;
use capnp_wire_objects::place::{Place, ROOT};
use std::alloc::{AllocError, Global};

/// Returns a word with a further mark.
pub fn with_mark(word: Word, mark: Mark) -> Word
    ensures { result ≡ marked (Some mark) word }
{
    match word.mark {
        Mark::NotReached => Word {
            mark,
            again: word.again,
        },
        first => Word {
            mark: first,
            again: true,
        },
    }
}

/// Marks the word at a place, if it is there.
pub fn mark_word(words: &mut Vec<Vec<Word>>, place: Place, mark: Mark)
    ensures { (q : ModelPlace) → value_of words.new.items q
        ≡ option_map (marked (mark provided is_at (place_view place) q))
        (value_of words.old.items q) }
{
    if let Some(word) = value_at(words, place) {
        set_value(words, place, with_mark(word, mark));
    }
}

/// Marks the words of the object of the pointer at a place.
pub fn mark_object(words: &mut Vec<Vec<Word>>, pointer: Place, object: Object)
    requires { (s : Segments) × IsInside s object }
    ensures { (q : ModelPlace) → value_of words.new.items q
        ≡ option_map (marked (object_mark pointer object q)) (value_of words.old.items q) }
{
    let start = start_of(object);
    for i in 0..words_of(object) {
        let place = Place {
            segment: start.segment,
            position: start.position + i as usize,
        };
        match part_in(object, i) {
            Some(part) => mark_word(words, place, Mark::Object { pointer, part }),
            None => {}
        }
    }
}

/// Marks the words of the landing pad of the pointer at a place.
pub fn mark_pad<A: ReaderArena>(words: &mut Vec<Vec<Word>>, arena: &A, pointer: Place)
    ensures { (q : ModelPlace) → value_of words.new.items q
        ≡ option_map (marked (pad_mark pointer
        (pad_there (words_in (A.segments arena.now)) (place_view pointer)) q))
        (value_of words.old.items q) }
{
    let Some(pad) = pad_there(arena, pointer) else {
        return;
    };
    let first = Mark::Pad {
        pointer,
        is_second: false,
    };
    mark_word(words, pad.place, first);
    if pad.is_double {
        let place = Place {
            segment: pad.place.segment,
            position: pad.place.position + 1,
        };
        let second = Mark::Pad {
            pointer,
            is_second: true,
        };
        mark_word(words, place, second);
    }
}

/// Marks the words of a message by pointers in it, one after the other, the root pointer first.
pub fn words_by<S: ReaderSegments, A: ReaderArena>(
    alloc: Global,
    segments: &S,
    arena: &A,
    pointers: &[Place],
) -> Result<Vec<Vec<Word>>, AllocError>
    requires { A.segments arena.now ≡ S.segments segments.now }
    ensures { IfOk result (λ words. (q : ModelPlace) → q.segment < 2 ^ 32
        → value_of words.items q ≡ for_word (words_in (S.segments segments.now)) q
        (word_by (words_in (S.segments segments.now)) pointers.now q)) }
{
    let unmarked = Word {
        mark: Mark::NotReached,
        again: false,
    };
    let mut words = rows_of(alloc, segments, unmarked)?;
    mark_word(&mut words, ROOT, Mark::Root);
    for pointer in pointers {
        mark_pad(&mut words, arena, *pointer);
        let object = object_there(arena, *pointer);
        mark_object(&mut words, *pointer, object);
    }
    Ok(words)
}
