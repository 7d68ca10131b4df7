//! Lists that are read for writing.
ghost use Rattle.std.specs.Prelude.{◌≡◌, ◌⊎◌, ◌+◌, ◌-◌, ◌*◌, ◌<◌, ◌≤◌, ◌^◌, ℕ, true, Some, Ok, IfOk};
ghost use Rattle.std.specs.Option.{is_some};
ghost use Rattle.capnp_model.specs.Readings.{is_accepted_as};
ghost use Rattle.capnp_model.specs.Segments.{word_at, words_at};
ghost use Rattle.capnp_units.specs.Segments.{words_in};
ghost use Rattle.capnp_units.specs.Sizes.{size_number};
ghost use Rattle.capnp_units.specs.declared.sizes.ElementSize.TheVariants.{InlineComposite};
ghost use Rattle.capnp_wire_objects.specs.Places.{place_view, seen};
ghost use Rattle.capnp_wire.specs.Reads.{list_head};
ghost use Rattle.capnp_copy_arenas.specs.Elements.{IsNullOrWhole};
ghost use Rattle.capnp_copy_arenas.specs.Lists.{object_of_list};
ghost use Rattle.capnp_copy_arenas.specs.Values.{LeadsTo};
ghost use Rattle.capnp_copy_widening.specs.Got.{is_taken_by, list_named};
ghost use Rattle.capnp_copy_widening.specs.MovedElements.{HasStructs};

use capnp_copy_arenas::init::ListPlace;
use capnp_units::errors::{Error, Result};
use capnp_units::kinds::ErrorKind;
use capnp_units::sizes::{ElementSize, data_bits_per_element, pointers_per_element};
use capnp_wire_objects::arena::ReaderArena;
use capnp_wire_objects::named::found_at;
use capnp_wire_objects::object::{Object, whole};
use capnp_wire_objects::place::Place;

/// The side that accepts a list's elements as elements of an expected size.
#[derive(Clone, Copy)]
pub enum Taker {
    /// Bits are only accepted as bits.
    Reader,
    /// Bits are also accepted as voids: none of them is read.
    Builder,
}

/// Returns whether elements of a size can be read as elements of an expected size. Structs have n
/// data words and pointers.
fn is_accepted(expected: ElementSize, size: ElementSize, data_words: u16, pointers: u16) -> bool
    ensures { result ≡ is_accepted_as (size_number expected) (list_head size data_words pointers) }
{
    let bits = data_bits_per_element(expected) as u64;
    let refs = pointers_per_element(expected);
    match size {
        ElementSize::InlineComposite => {
            expected != ElementSize::Bit
                && bits <= 64 * data_words as u64
                && refs <= pointers as u32
        }
        ElementSize::Bit => expected == ElementSize::Bit,
        _ => bits <= data_bits_per_element(size) as u64 && refs <= pointers_per_element(size),
    }
}

/// Returns whether a list's elements are accepted as elements of an expected size: if they can be
/// read as such, and by a builder bits also as voids.
fn is_taken(taker: Taker, expected: ElementSize, list: ListPlace) -> bool
    ensures { result ≡ is_taken_by taker expected list }
{
    let is_accepted = is_accepted(expected, list.size, list.data_words, list.pointers);
    match taker {
        Taker::Reader => is_accepted,
        Taker::Builder => {
            (expected == ElementSize::Void && list.size == ElementSize::Bit) || is_accepted
        }
    }
}

/// Returns the list that the pointer at a place names, near or far, with elements that are accepted
/// as elements of the expected size:
/// - bits as bits, and by a builder also as voids;
/// - other plain elements and pointers as elements with at most as many bits and pointers;
/// - structs as elements that their first data word or their first pointer can be.
///
/// A null pointer has the empty list of the expected size, at the pointer itself; every other list
/// exists as a whole. Nothing is written.
///
/// It is refused
/// - like a reader refuses the object there (`object_at`);
/// - with `WrongPointerKind` if a struct or a capability is there;
/// - with `WrongElementSize` if the elements aren't accepted.
#[tactic(auto, unfolding(capnp_wire_objects::specs::Objects::object_at))]
pub fn get_list<A: ReaderArena>(
    arena: &A,
    slot: Place,
    expected: ElementSize,
    taker: Taker,
) -> Result<ListPlace>
    ensures list { seen (λ o. o) result ≡ list_named taker (words_in (A.segments arena.now)) slot
        expected }
    ensures object { IfOk result (λ o.
        (word_at (words_in (A.segments arena.now)) (place_view slot) ≡ Some 0)
        ⊎ LeadsTo (words_in (A.segments arena.now)) (place_view slot) (object_of_list o)) }
    ensures structs { IfOk result (λ o.
        (word_at (words_in (A.segments arena.now)) (place_view slot) ≡ Some 0)
        ⊎ (o.size ≡ InlineComposite → HasStructs (words_in (A.segments arena.now)) o)) }
    ensures inside { IfOk result (IsNullOrWhole (words_in (A.segments arena.now))
        (place_view slot)) }
{
    let found = found_at(arena, slot)?;
    let list = match whole(arena, found.object)? {
        Object::Null => {
            return Ok(ListPlace {
                start: slot,
                size: expected,
                claimed: 0,
                count: 0,
                data_words: 0,
                pointers: 0,
            });
        }
        Object::List { start, size, count } => ListPlace {
            start,
            size,
            claimed: count,
            count,
            data_words: 0,
            pointers: 0,
        },
        Object::PointerList { start, count } => ListPlace {
            start,
            size: ElementSize::Pointer,
            claimed: count,
            count,
            data_words: 0,
            pointers: 0,
        },
        Object::StructList {
            start,
            words,
            count,
            data_words,
            pointers,
        } => ListPlace {
            start: Place {
                segment: start.segment,
                position: start.position.saturating_sub(1),
            },
            size: ElementSize::InlineComposite,
            claimed: words,
            count,
            data_words,
            pointers,
        },
        _ => return Err(Error::from(ErrorKind::WrongPointerKind)),
    };
    if !is_taken(taker, expected, list) {
        return Err(Error::from(ErrorKind::WrongElementSize));
    }
    Ok(list)
}
