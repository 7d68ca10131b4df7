//! Elements of lists in place: as structs, as pointers, and the numbers at their front.
ghost use Rattle.std.specs.Prelude.{◌≡◌, ◌*◌, ◌%◌, ◌<◌, ◌≤◌, ◌^◌, length, map};
ghost use Rattle.capnp_units.specs.Segments.{words_in};
ghost use Rattle.capnp_units.specs.Sizes.{size_number};
ghost use Rattle.capnp_wire.specs.Elements.{element_bits, element_pointers};
ghost use Rattle.capnp_copy_arenas.specs.Structs.{AreInWord, SetsBits};
ghost use Rattle.capnp_layout_builders.specs.Elements.{IsWholeElement, IsStructElement, IsWithPointer, IsPointerElement, IsAtFront, HasFront, SetsFront};

use capnp_copy_arenas::arena::BuilderArena;
use capnp_copy_arenas::bits::word_with;
use capnp_copy_arenas::elements::{first_element, get_element, set_element};
use capnp_copy_arenas::fields::{StructPlace, get_bits};
use capnp_copy_arenas::init::ListPlace;
use capnp_units::sizes::{ElementSize, StructSize};
use capnp_wire_objects::arena::ReaderArena;
use capnp_wire_objects::place::{Place, word_at};

/// Returns the sections of an element whose data are whole words.
fn sections_of(list: ListPlace) -> StructSize
    requires { element_bits (size_number list.size) list.data_words % 64 ≡ 0 }
    ensures data_words { 64 * result.data_words
        ≡ element_bits (size_number list.size) list.data_words }
    ensures pointers { result.pointers ≡ element_pointers (size_number list.size) list.pointers }
{
    match list.size {
        ElementSize::InlineComposite => StructSize {
            data_words: list.data_words,
            pointers: list.pointers,
        },
        ElementSize::Pointer => StructSize {
            data_words: 0,
            pointers: 1,
        },
        ElementSize::EightBytes => StructSize {
            data_words: 1,
            pointers: 0,
        },
        _ => StructSize {
            data_words: 0,
            pointers: 0,
        },
    }
}

/// Returns the struct of an element, which is a struct, a number of 64 bits, a pointer or nothing.
pub fn struct_of(list: ListPlace, index: u32) -> StructPlace
    requires { IsWholeElement list index }
    ensures { IsStructElement list index result }
{
    let size = sections_of(list);
    let first = first_element(list);
    let width = size.data_words as usize + size.pointers as usize;
    StructPlace {
        start: Place {
            segment: first.segment,
            position: first.position + index as usize * width,
        },
        data_words: size.data_words,
        pointers: size.pointers,
    }
}

/// Returns the pointer of an element: the element itself, or the first pointer of its struct.
pub fn pointer_of(list: ListPlace, index: u32) -> Place
    requires { IsWithPointer list index }
    ensures place { IsPointerElement list index result }
    ensures near { result.position < 2 ^ 61 }
{
    let first = first_element(list);
    match list.size {
        ElementSize::InlineComposite => {
            let width = list.data_words as usize + list.pointers as usize;
            Place {
                segment: first.segment,
                position: first.position + width * index as usize + list.data_words as usize,
            }
        }
        _ => Place {
            segment: first.segment,
            position: first.position + index as usize,
        },
    }
}

/// Returns n bits at the front of an element, which has at least n bits.
pub fn get_front<A: ReaderArena>(arena: &A, list: ListPlace, index: u32, width: u32) -> u64
    requires inside { IsAtFront list index width }
    requires few { width ≤ 64 }
    ensures { HasFront (words_in (A.segments arena.now)) list index width (λ bits. result ≡ bits) }
{
    if width == 0 {
        return 0;
    }
    match list.size {
        ElementSize::InlineComposite => get_bits(arena, struct_of(list, index), 0, width),
        _ => get_element(arena, list, index, width),
    }
}

/// Writes n bits at the front of a struct's data, which have at least n bits.
fn set_struct_front<A: BuilderArena>(arena: &mut A, object: StructPlace, width: u32, value: u64)
    requires inside { AreInWord object 0 width }
    requires fits { value < 2 ^ width }
    ensures sets { SetsBits (words_in (A.segments arena.old)) (words_in (A.segments arena.new))
        object 0 width value }
    ensures sizes { map length (words_in (A.segments arena.new))
        ≡ map length (words_in (A.segments arena.old)) }
    ensures books { A.books arena.new ≡ A.books arena.old }
{
    if let Some(word) = word_at(arena, object.start) {
        let word = word_with(word, 0, width, value);
        arena.write_word(object.start, word);
    }
}

/// Writes n bits at the front of an element, which has at least n bits.
pub fn set_front<A: BuilderArena>(
    arena: &mut A,
    list: ListPlace,
    index: u32,
    width: u32,
    value: u64,
)
    requires inside { IsAtFront list index width }
    requires few { width ≤ 64 }
    requires fits { value < 2 ^ width }
    ensures sets { SetsFront (words_in (A.segments arena.old)) (words_in (A.segments arena.new))
        list index width value }
    ensures sizes { map length (words_in (A.segments arena.new))
        ≡ map length (words_in (A.segments arena.old)) }
    ensures books { A.books arena.new ≡ A.books arena.old }
{
    if width == 0 {
        return;
    }
    match list.size {
        ElementSize::InlineComposite => {
            set_struct_front(arena, struct_of(list, index), width, value);
        }
        _ => set_element(arena, list, index, width, value),
    }
}
