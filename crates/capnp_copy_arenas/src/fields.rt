//! Numbers in the data sections of structs, in place.
ghost use Rattle.std.specs.Prelude.{◌≡◌, ◌+◌, ◌*◌, ◌<◌, ◌≤◌, ◌^◌, ℕ, true, length, map};
ghost use Rattle.std.specs.Option.{is_some};
ghost use Rattle.capnp_model.specs.Segments.{words_at};
ghost use Rattle.capnp_units.specs.Segments.{words_in};
ghost use Rattle.capnp_wire_objects.specs.Places.{place_view};
ghost use Rattle.capnp_copy_arenas.specs.Structs.{AreInWord, HasBits, SetsBits, WritesWord};

use crate::arena::BuilderArena;
use crate::bits::{bits_in, word_with};
use capnp_wire_objects::arena::ReaderArena;
use capnp_wire_objects::place::{Place, word_at};

/// The place of a struct: its first word, its data words, and the pointers after them.
#[derive(Clone, Copy, Debug, PartialEq, Eq)]
pub struct StructPlace {
    pub start: Place,
    pub data_words: u16,
    pub pointers: u16,
}

/// Returns the first bit of a number at an offset in units of its width, if the number is in a data
/// section of n words.
pub fn bit_at(bytes: usize, offset: usize, data_words: u16) -> usize
    requires { bytes * offset + bytes ≤ 8 * data_words }
    ensures { result ≡ 8 * (bytes * offset) }
{
    8 * (bytes * offset)
}

/// Returns n bits of a struct's data section, which are in one of its words.
pub fn get_bits<A: ReaderArena>(arena: &A, object: StructPlace, at: usize, width: u32) -> u64
    requires near { object.start.position < 2 ^ 61 }
    requires inside { AreInWord object at width }
    ensures { HasBits (words_in (A.segments arena.now)) object at width (λ bits. result ≡ bits) }
{
    let place = Place {
        segment: object.start.segment,
        position: object.start.position + at / 64,
    };
    match word_at(arena, place) {
        Some(word) => bits_in(word, (at % 64) as u32, width),
        None => 0,
    }
}

/// Writes n bits of a struct's data section, which are in one of its words.
pub fn set_bits<A: BuilderArena>(
    arena: &mut A,
    object: StructPlace,
    at: usize,
    width: u32,
    value: u64,
)
    requires there { is_some (words_at (words_in (A.segments arena.old)) (place_view object.start)
        object.data_words) ≡ true }
    requires near { object.start.position < 2 ^ 61 }
    requires inside { AreInWord object at width }
    requires fits { value < 2 ^ width }
    ensures sets { SetsBits (words_in (A.segments arena.old)) (words_in (A.segments arena.new))
        object at width value }
    ensures word { WritesWord (words_in (A.segments arena.old)) (words_in (A.segments arena.new))
        object at }
    ensures sizes { map length (words_in (A.segments arena.new))
        ≡ map length (words_in (A.segments arena.old)) }
    ensures books { A.books arena.new ≡ A.books arena.old }
{
    let place = Place {
        segment: object.start.segment,
        position: object.start.position + at / 64,
    };
    if let Some(word) = word_at(arena, place) {
        let word = word_with(word, (at % 64) as u32, width, value);
        arena.write_word(place, word);
    }
}
