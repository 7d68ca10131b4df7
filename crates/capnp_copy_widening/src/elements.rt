//! Elements of lists that move to wider structs of a new list.
ghost use Rattle.std.specs.Prelude.{◌≡◌, ◌+◌, ◌*◌, ◌<◌, ◌≤◌, ◌^◌, []};
ghost use Rattle.capnp_model.specs.Segments.{after};
ghost use Rattle.capnp_units.specs.Segments.{words_in};
ghost use Rattle.capnp_units.specs.Sizes.{size_number};
ghost use Rattle.capnp_wire_objects.specs.Places.{place_view};
ghost use Rattle.capnp_copy_arenas.specs.Allocations.{total_words};
ghost use Rattle.capnp_copy_arenas.specs.States.{HasWords, KeepsSizes};
ghost use Rattle.capnp_copy_widening.specs.Moves.{HasPads, HasPadIfFar, pads_of};
ghost use Rattle.capnp_copy_widening.specs.MovedElements.{struct_begin, MovesElement, least_pointers, HasStructs, HasPointers, HasList, HasWider, FillsAsStructs};

use crate::moves::{copy_words, move_pointer, move_pointers, pad_at};
use capnp_copy_arenas::arena::BuilderArena;
use capnp_copy_arenas::elements::get_element;
use capnp_copy_arenas::fields::StructPlace;
use capnp_copy_arenas::init::ListPlace;
use capnp_units::sizes::{ElementSize, data_bits_per_element};
use capnp_wire_objects::place::Place;

/// Returns the struct of an element of a list of structs.
fn element_of(list: ListPlace, index: u32) -> StructPlace
    requires { list.start.position + 1 + index * (list.data_words + list.pointers) < 2 ^ 61 }
    ensures start { place_view result.start ≡ struct_begin list index }
    ensures size { (result.data_words ≡ list.data_words) × (result.pointers ≡ list.pointers) }
{
    let step = list.data_words as usize + list.pointers as usize;
    StructPlace {
        start: Place {
            segment: list.start.segment,
            position: list.start.position + 1 + index as usize * step,
        },
        data_words: list.data_words,
        pointers: list.pointers,
    }
}

/// Returns the place of the first pointer of a struct, after its data.
fn pointers_of(place: StructPlace) -> Place
    requires { place.start.position < 2 ^ 61 }
    ensures { place_view result ≡ after (place_view place.start) place.data_words }
{
    Place {
        segment: place.start.segment,
        position: place.start.position + place.data_words as usize,
    }
}

/// Moves the content of a struct to a struct of zeros and nulls that is at least as wide: its data
/// are copied, its children move.
fn move_element<A: BuilderArena>(
    arena: &mut A,
    from: StructPlace,
    to: StructPlace,
    pads: Option<Place>,
)
    requires from { HasWords (A.segments arena.old) from.start (from.data_words + from.pointers) }
    requires to { HasWords (A.segments arena.old) to.start (to.data_words + to.pointers) }
    requires wider { (from.data_words ≤ to.data_words) × (from.pointers ≤ to.pointers) }
    requires pads { HasPads (words_in (A.segments arena.old)) pads from.pointers }
    requires reached { HasPadIfFar pads from.start.segment to.start.segment }
    requires few { total_words (words_in (A.segments arena.old)) < 2 ^ 29 }
    ensures moves { MovesElement (words_in (A.segments arena.old))
        (words_in (A.segments arena.new)) from to (pads_of pads from.pointers) }
    ensures sizes { KeepsSizes (A.segments arena.old) (A.segments arena.new) }
    ensures books { A.books arena.new ≡ A.books arena.old }
{
    copy_words(arena, from.start, to.start, from.data_words as u32);
    let source = pointers_of(from);
    let target = pointers_of(to);
    move_pointers(arena, source, target, from.pointers as u32, pads);
}

/// Moves the elements of a list of structs to those of a new list, each to one that is at least as
/// wide.
fn move_elements<A: BuilderArena>(
    arena: &mut A,
    old: ListPlace,
    new: ListPlace,
    pads: Option<Place>,
)
    requires structs { size_number old.size ≡ 7 }
    requires there { HasStructs (words_in (A.segments arena.old)) old }
    requires wider { HasWider (words_in (A.segments arena.old)) old new }
    requires pads { HasPads (words_in (A.segments arena.old)) pads
        (old.count * least_pointers old) }
    requires reached { HasPadIfFar pads old.start.segment new.start.segment }
    requires few { total_words (words_in (A.segments arena.old)) < 2 ^ 29 }
    ensures fills { FillsAsStructs (words_in (A.segments arena.old))
        (words_in (A.segments arena.new)) old new (pads_of pads (old.count * least_pointers old)) }
    ensures sizes { KeepsSizes (A.segments arena.old) (A.segments arena.new) }
    ensures books { A.books arena.new ≡ A.books arena.old }
{
    for i in 0..old.count {
        let from = element_of(old, i);
        let to = element_of(new, i);
        move_element(arena, from, to, pad_at(pads, i * old.pointers as u32));
    }
}

/// Moves the elements of a list of pointers, each to the first pointer of a struct of a new list.
fn move_each_pointer<A: BuilderArena>(
    arena: &mut A,
    old: ListPlace,
    new: ListPlace,
    pads: Option<Place>,
)
    requires pointers { size_number old.size ≡ 6 }
    requires counted { old.claimed ≡ old.count }
    requires there { HasPointers (words_in (A.segments arena.old)) old }
    requires wider { HasWider (words_in (A.segments arena.old)) old new }
    requires pads { HasPads (words_in (A.segments arena.old)) pads
        (old.count * least_pointers old) }
    requires reached { HasPadIfFar pads old.start.segment new.start.segment }
    requires few { total_words (words_in (A.segments arena.old)) < 2 ^ 29 }
    ensures fills { FillsAsStructs (words_in (A.segments arena.old))
        (words_in (A.segments arena.new)) old new (pads_of pads (old.count * least_pointers old)) }
    ensures sizes { KeepsSizes (A.segments arena.old) (A.segments arena.new) }
    ensures books { A.books arena.new ≡ A.books arena.old }
{
    for i in 0..old.count {
        let from = Place {
            segment: old.start.segment,
            position: old.start.position + i as usize,
        };
        let to = pointers_of(element_of(new, i));
        move_pointer(arena, from, to, pad_at(pads, i));
    }
}

/// Writes the elements of a list of numbers, each as the first data word of a struct of a new list.
fn copy_numbers<A: BuilderArena>(arena: &mut A, old: ListPlace, new: ListPlace)
    requires numbers { (0 < size_number old.size) × (size_number old.size < 6) }
    requires counted { old.claimed ≡ old.count }
    requires near { old.start.position < 2 ^ 61 }
    requires wider { HasWider (words_in (A.segments arena.old)) old new }
    ensures fills { FillsAsStructs (words_in (A.segments arena.old))
        (words_in (A.segments arena.new)) old new [] }
    ensures sizes { KeepsSizes (A.segments arena.old) (A.segments arena.new) }
    ensures books { A.books arena.new ≡ A.books arena.old }
{
    for i in 0..old.count {
        let number = get_element(arena, old, i, data_bits_per_element(old.size));
        arena.write_word(element_of(new, i).start, number);
    }
}

/// Moves the content of a list to a new list of structs of zeros and nulls, each at least as wide
/// as an element.
pub fn fill_elements<A: BuilderArena>(
    arena: &mut A,
    old: ListPlace,
    new: ListPlace,
    pads: Option<Place>,
)
    requires old { HasList (words_in (A.segments arena.old)) old }
    requires wider { HasWider (words_in (A.segments arena.old)) old new }
    requires pads { HasPads (words_in (A.segments arena.old)) pads
        (old.count * least_pointers old) }
    requires reached { HasPadIfFar pads old.start.segment new.start.segment }
    requires few { total_words (words_in (A.segments arena.old)) < 2 ^ 29 }
    ensures fills { FillsAsStructs (words_in (A.segments arena.old))
        (words_in (A.segments arena.new)) old new (pads_of pads (old.count * least_pointers old)) }
    ensures sizes { KeepsSizes (A.segments arena.old) (A.segments arena.new) }
    ensures books { A.books arena.new ≡ A.books arena.old }
{
    match old.size {
        ElementSize::InlineComposite => move_elements(arena, old, new, pads),
        ElementSize::Pointer => move_each_pointer(arena, old, new, pads),
        ElementSize::Void => {}
        _ => copy_numbers(arena, old, new),
    }
}
