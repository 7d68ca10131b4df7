//! The words of the copy of an object, and the pointer to the copy.
ghost use Rattle.std.specs.Prelude.{◌≡◌, ◌+◌, ◌-◌, ◌*◌, ◌^◌, ◌<◌, ◌≤◌, true, IfOk, IfErr, OnErr};
ghost use Rattle.std.specs.Option.{is_some};
ghost use Rattle.capnp_model.specs.Segments.{word_at};
ghost use Rattle.capnp_model.specs.Encoding.{struct_pointer};
ghost use Rattle.capnp_units.specs.Segments.{words_in};
ghost use Rattle.capnp_units.specs.declared.kinds.ErrorKind.TheVariants.{SizeOverflow};
ghost use Rattle.capnp_wire_objects.specs.Places.{place_view};
ghost use Rattle.capnp_wire_objects.specs.Named.{named_view};
ghost use Rattle.capnp_copy_arenas.specs.Refusals.{IsSizeOrRefusal};
ghost use Rattle.capnp_copy_values.specs.Objects.{copied_words, most_counted, copied_at, copied_pointer, IsSpelled};
ghost use Rattle.capnp_copy_values.specs.CopyRooms.{GivesRoom, IsNearFor, UsesFor, IsSizeOfCopy, LacksPlace};

use capnp_copy_arenas::arena::BuilderArena;
use capnp_copy_arenas::room::{Room, allocate_near};
use capnp_units::errors::{Error, Result};
use capnp_units::kinds::ErrorKind;
use capnp_units::limits::MOST_WORDS;
use capnp_units::sizes::ElementSize;
use capnp_wire_objects::named::NamedObject;
use capnp_wire_objects::object::{Object, words_of_elements};
use capnp_wire_objects::place::Place;

/// The beginning of the upper half of a pointer word, 32 bits up.
const UPPER_HALF: u64 = 0x1_0000_0000;
/// The unit of a struct pointer's count of pointers, 48 bits up.
const POINTERS: u64 = 0x1_0000_0000_0000;
/// The unit of a list pointer's count of elements, 35 bits up.
const ELEMENTS: u64 = 0x8_0000_0000;
/// The number of a list of pointers among the sizes of elements.
const SIZE_OF_POINTERS: u64 = 6;
/// The number of a list of structs.
const SIZE_OF_STRUCTS: u64 = 7;

/// Returns the number of words of the copy of an object. It is refused with `SizeOverflow` exactly
/// when a count of its pointer or tag exceeds 2^29 - 1.
fn words_of_copy(object: Object) -> Result<u32>
    ensures words { IfOk result (λ n.
        (n ≡ copied_words object) × (n ≤ 2 ^ 29) × (most_counted object < 2 ^ 29)) }
    ensures spelled { IfOk result (λ n. IsSpelled object) }
    ensures kind { IfErr result (λ e. (e.kind ≡ SizeOverflow) × (2 ^ 29 ≤ most_counted object)) }
{
    let (most, words) = match object {
        Object::Null | Object::Capability { .. } => (0, 0),
        Object::Struct {
            data_words,
            pointers,
            ..
        } => (0, data_words as u64 + pointers as u64),
        Object::List { size, count, .. } => (count as u64, words_of_elements(size, count)),
        Object::PointerList { count, .. } => (count as u64, count as u64),
        Object::StructList {
            count,
            data_words,
            pointers,
            ..
        } => {
            let words = count as u64 * (data_words as u64 + pointers as u64);
            (words.max(count as u64), 1 + words)
        }
    };
    if most > MOST_WORDS as u64 {
        return Err(Error::from(ErrorKind::SizeOverflow));
    }
    Ok(words as u32)
}

/// Allocates room for the copy of an object that the pointer at a place will name, like
/// `allocate_near`. It is refused, and nothing is allocated,
/// - with `SizeOverflow` exactly when a count or the message's words, including a pad, would exceed
///   2^29 - 1;
/// - otherwise with the allocator's error; the allocator is only asked if there is no room.
pub(crate) fn room_for<A: BuilderArena>(arena: &mut A, slot: Place, object: Object) -> Result<Room>
    requires { is_some (word_at (words_in (A.segments arena.old)) (place_view slot)) ≡ true }
    ensures ok { IfOk result (GivesRoom (A.segments arena.old) (A.segments arena.new) slot object) }
    ensures few { IfOk result (λ r. most_counted object < 2 ^ 29) }
    ensures spelled { IfOk result (λ r. IsSpelled object) }
    ensures refused { OnErr result (A.segments arena.new ≡ A.segments arena.old) }
    ensures kind { IfErr result (IsSizeOfCopy (A.segments arena.old) object) }
    ensures near { IfOk result (IsNearFor (A.segments arena.old) (A.room arena.old) slot object) }
    ensures left { IfOk result (UsesFor (A.room arena.old) (A.room arena.new) slot object) }
    ensures full { OnErr result (LacksPlace (A.segments arena.old) (A.room arena.old) slot object) }
    ensures cause { IfErr result (IsSizeOrRefusal A.refuses) }
    ensures books { A.books arena.new ≡ A.books arena.old }
{
    let words = words_of_copy(object)?;
    allocate_near(arena, slot, words)
}

/// Returns the word of a pointer to the copy of an object, with offset 0.
pub(crate) fn pointer_word(object: Object) -> u64
    requires { most_counted object < 2 ^ 29 }
    ensures word { result ≡ copied_pointer object }
    ensures offset { result < 2 ^ 64 - 2 ^ 32 + 4 }
{
    match object {
        Object::Null => 0,
        Object::Capability { index } => 3 + UPPER_HALF * index as u64,
        Object::Struct {
            data_words,
            pointers,
            ..
        } => UPPER_HALF * data_words as u64 + POINTERS * pointers as u64,
        Object::List { size, count, .. } => {
            1 + UPPER_HALF * size.number() + ELEMENTS * count as u64
        }
        Object::PointerList { count, .. } => {
            1 + UPPER_HALF * SIZE_OF_POINTERS + ELEMENTS * count as u64
        }
        Object::StructList {
            count,
            data_words,
            pointers,
            ..
        } => {
            let words = count as u64 * (data_words as u64 + pointers as u64);
            1 + UPPER_HALF * SIZE_OF_STRUCTS + ELEMENTS * words
        }
    }
}

/// Returns the copy of an object that begins at a place.
pub(crate) fn copy_at(start: Place, object: Object) -> NamedObject
    requires { most_counted object < 2 ^ 29 }
    ensures { named_view result ≡ copied_at (place_view start) object }
{
    match object {
        Object::Null => NamedObject::Null,
        Object::Capability { index } => NamedObject::Capability { index },
        Object::Struct {
            data_words,
            pointers,
            ..
        } => NamedObject::Struct {
            start,
            data_words,
            pointers,
        },
        Object::List { size, count, .. } => NamedObject::List { start, size, count },
        Object::PointerList { count, .. } => NamedObject::List {
            start,
            size: ElementSize::Pointer,
            count,
        },
        Object::StructList {
            count,
            data_words,
            pointers,
            ..
        } => {
            let words = count as u64 * (data_words as u64 + pointers as u64);
            NamedObject::List {
                start,
                size: ElementSize::InlineComposite,
                count: words as u32,
            }
        }
    }
}

/// Returns the tag of a list of n structs.
pub(crate) fn tag_word(count: u32, data_words: u16, pointers: u16) -> u64
    requires { count < 2 ^ 29 }
    ensures { result ≡ struct_pointer count data_words pointers }
{
    4 * count as u64 + UPPER_HALF * data_words as u64 + POINTERS * pointers as u64
}
