//! Numbers in lists of plain elements, in place.
ghost use Rattle.std.specs.Prelude.{◌≡◌, ◌+◌, ◌*◌, ◌/◌, ◌%◌, ◌<◌, ◌≤◌, ◌^◌, ℕ, length, map};
ghost use Rattle.capnp_model.specs.Trees.{size_bits};
ghost use Rattle.capnp_units.specs.Segments.{words_in};
ghost use Rattle.capnp_units.specs.Sizes.{size_number};
ghost use Rattle.capnp_wire_objects.specs.Places.{place_view};
ghost use Rattle.capnp_copy_arenas.specs.Elements.{first_element, IsInElement, HasElement, SetsElement};

use crate::arena::BuilderArena;
use crate::bits::{bits_in, word_with};
use crate::init::ListPlace;
use capnp_units::sizes::{ElementSize, data_bits_per_element};
use capnp_wire_objects::arena::ReaderArena;
use capnp_wire_objects::place::{Place, word_at};

/// Returns the place of the first element of a list: after the tag if the elements are structs.
pub fn first_element(list: ListPlace) -> Place
    requires { list.start.position < 2 ^ 61 }
    ensures { place_view result ≡ first_element list }
{
    let start = list.start;
    match list.size {
        ElementSize::InlineComposite => Place {
            segment: start.segment,
            position: start.position + 1,
        },
        _ => start,
    }
}

/// Returns the first bit of an element of a list of plain elements.
fn bit_of_element(list: ListPlace, index: u32, width: u32) -> usize
    requires inside { IsInElement list index width }
    ensures at { result ≡ size_bits (size_number list.size) * index }
    ensures one_word { result % 64 + width ≤ 64 }
    ensures far { result + width ≤ size_bits (size_number list.size) * list.count }
    ensures near { result / 64 < 2 ^ 32 }
{
    data_bits_per_element(list.size) as usize * index as usize
}

/// Returns n bits at the front of an element of a list of plain elements. The element has at least
/// n bits.
pub fn get_element<A: ReaderArena>(arena: &A, list: ListPlace, index: u32, width: u32) -> u64
    requires near { list.start.position < 2 ^ 61 }
    requires inside { IsInElement list index width }
    ensures { HasElement (words_in (A.segments arena.now)) list index
        width (λ bits. result ≡ bits) }
{
    if width == 0 {
        return 0;
    }
    let at = bit_of_element(list, index, width);
    let place = Place {
        segment: list.start.segment,
        position: list.start.position + at / 64,
    };
    match word_at(arena, place) {
        Some(word) => bits_in(word, (at % 64) as u32, width),
        None => 0,
    }
}

/// Writes n bits at the front of an element of a list of plain elements. The element has at least n
/// bits.
pub fn set_element<A: BuilderArena>(
    arena: &mut A,
    list: ListPlace,
    index: u32,
    width: u32,
    value: u64,
)
    requires near { list.start.position < 2 ^ 61 }
    requires inside { IsInElement list index width }
    requires fits { value < 2 ^ width }
    ensures sets { SetsElement (words_in (A.segments arena.old)) (words_in (A.segments arena.new))
        list index width value }
    ensures sizes { map length (words_in (A.segments arena.new))
        ≡ map length (words_in (A.segments arena.old)) }
    ensures books { A.books arena.new ≡ A.books arena.old }
{
    if width == 0 {
        return;
    }
    let at = bit_of_element(list, index, width);
    let place = Place {
        segment: list.start.segment,
        position: list.start.position + at / 64,
    };
    if let Some(word) = word_at(arena, place) {
        let word = word_with(word, (at % 64) as u32, width, value);
        arena.write_word(place, word);
    }
}
