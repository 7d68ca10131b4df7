//! Structs, and lists of structs and of plain elements, that are found in one look at their
//! segment.
ghost use Rattle.std.specs.Prelude.{◌≡◌, ℕ, List, None, IfSome};
ghost use Rattle.capnp_model.specs.Segments.{Place as ModelPlace};
ghost use Rattle.capnp_model.specs.Pointers.{to_pad, pointer_of};
ghost use Rattle.capnp_units.specs.declared.sizes.ElementSize.TheVariants.{Byte};
ghost use Rattle.capnp_units.specs.Segments.{words_in};
ghost use Rattle.capnp_wire_objects.specs.declared.object.Object.TheVariants as seen;
ghost use Rattle.capnp_wire_objects.specs.Arenas.{segment_bytes};
ghost use Rattle.capnp_wire_objects.specs.Places.{place_view};
ghost use Rattle.capnp_wire_objects.specs.Near.{list_object, struct_object, structs_object, IsMeasured, IsNear};

use crate::lists::NearList;
use crate::place::{Place, begins_at, reach, word_in};
use crate::structs::{NearStruct, NearStructs};
use crate::word_pointer::{WordPointer, pointer_of_word};
use capnp_units::sizes::{ElementSize, StructSize};

/// The numbers of the sizes of plain elements are below this number.
const PLAIN_SIZES: u64 = 6;
/// The number of kinds of pointers in the lowest two bits of a word.
const KINDS: u64 = 4;
/// The kind of pointers to lists.
const LIST: u64 = 1;
/// The number of offsets that lead forwards: their thirty bits are below this number.
const ONWARDS: u64 = 0x2000_0000;
/// The place of the highest bit of an offset, 31 bits up, below the three bits of an element's
/// size.
const OFFSET_END: u64 = 0x8000_0000;
/// Those four bits of a pointer that leads forwards to a list of bytes.
const ONWARDS_BYTES: u64 = 4;
/// The place of the count of a list's elements, 35 bits up.
const COUNT: u64 = 0x8_0000_0000;

/// Returns the list that the pointer at a place names, if it is a list of plain elements in the
/// same segment, without a landing pad, and its words are there. Then it is the result of
/// `object_at` for the place. The bytes are those of the segment, so the arena isn't asked for it.
///
/// `None` has no meaning: `object_at` returns or refuses the object, which may be a list too.
#[inline(always)]
pub fn near_list_in(bytes: &[u8], place: Place) -> Option<NearList>
    ensures near { (segments : List (List ℕ)) → bytes.now ≡ segment_bytes segments place.segment
        → IfSome result (λ list.
        IsNear (words_in segments) (place_view place) (list_object list)) }
    ensures measured { IfSome result IsMeasured }
    ensures segment { IfSome result (λ list. list.start.segment ≡ place.segment) }
{
    let word = word_in(bytes, place.position)?;
    let WordPointer::List {
        offset,
        size,
        count,
    } = pointer_of_word(word)
    else {
        return None;
    };
    if size.number() >= PLAIN_SIZES {
        return None;
    }
    let end = Place {
        segment: place.segment,
        position: place.position + 1,
    };
    let Ok(start) = begins_at(end, offset) else {
        return None;
    };
    let list = NearList::new(start, size, count);
    if !reach(bytes, start.position, list.words) {
        return None;
    }
    Some(list)
}

/// Returns the list of bytes that the pointer at a place names, if it is after the pointer in the
/// same segment, without a landing pad, and its words are there. Then it is the result of
/// `object_at` for the place. The bytes are those of the segment, so the arena isn't asked for it.
///
/// `None` has no meaning: `object_at` returns or refuses the object, which may be such a list too.
#[inline(always)]
pub fn near_bytes_in(bytes: &[u8], place: Place) -> Option<NearList>
    ensures near { (segments : List (List ℕ)) → bytes.now ≡ segment_bytes segments place.segment
        → IfSome result (λ list.
        IsNear (words_in segments) (place_view place) (list_object list)) }
    ensures measured { IfSome result IsMeasured }
    ensures segment { IfSome result (λ list. list.start.segment ≡ place.segment) }
    ensures size { IfSome result (λ list. list.size ≡ Byte) }
{
    let word = word_in(bytes, place.position)?;
    if word % KINDS != LIST || word / OFFSET_END % 16 != ONWARDS_BYTES {
        return None;
    }
    let start = Place {
        segment: place.segment,
        position: place.position + 1 + (word / KINDS % ONWARDS) as usize,
    };
    let count = (word / COUNT) as u32;
    let list = NearList::new(start, ElementSize::Byte, count);
    if !reach(bytes, start.position, list.words) {
        return None;
    }
    Some(list)
}

/// A list of pointers in the segment of the pointer to it.
#[derive(Clone, Copy)]
pub struct NearPointers {
    /// The place of the first pointer.
    pub start: Place,
    /// The number of pointers, at most 2^29 - 1.
    pub count: u32,
}

/// Returns the list that the pointer at a place names, if it is a list of pointers in the same
/// segment, without a landing pad, and its words are there. Then it is the result of `object_at`
/// for the place. The bytes are those of the segment, so the arena isn't asked for it.
///
/// `None` has no meaning: `object_at` returns or refuses the object, which may be such a list too.
#[inline(always)]
pub fn near_pointers_in(bytes: &[u8], place: Place) -> Option<NearPointers>
    ensures near { (segments : List (List ℕ)) → bytes.now ≡ segment_bytes segments place.segment
        → IfSome result (λ list.
        IsNear (words_in segments) (place_view place) (seen.PointerList list.start list.count)) }
    ensures segment { IfSome result (λ list. list.start.segment ≡ place.segment) }
{
    let word = word_in(bytes, place.position)?;
    let WordPointer::List {
        offset,
        size: ElementSize::Pointer,
        count,
    } = pointer_of_word(word)
    else {
        return None;
    };
    let end = Place {
        segment: place.segment,
        position: place.position + 1,
    };
    let Ok(start) = begins_at(end, offset) else {
        return None;
    };
    if !reach(bytes, start.position, count as usize) {
        return None;
    }
    Some(NearPointers { start, count })
}

/// Returns the list that the pointer at a place names, if it is a list of structs in the same
/// segment, without a landing pad, and its tag, its words and its elements are there. Then it is
/// the result of `object_at` for the place. The bytes are those of the segment, so the arena isn't
/// asked for it.
///
/// `None` has no meaning: `object_at` returns or refuses the object, which may be such a list too.
#[inline(always)]
pub fn near_structs_in(bytes: &[u8], place: Place) -> Option<NearStructs>
    ensures near { (segments : List (List ℕ)) → bytes.now ≡ segment_bytes segments place.segment
        → IfSome result (λ list.
        IsNear (words_in segments) (place_view place) (structs_object list)) }
    ensures segment { IfSome result (λ list. list.start.segment ≡ place.segment) }
{
    let word = word_in(bytes, place.position)?;
    let WordPointer::List {
        offset,
        size: ElementSize::InlineComposite,
        count: words,
    } = pointer_of_word(word)
    else {
        return None;
    };
    let end = Place {
        segment: place.segment,
        position: place.position + 1,
    };
    let Ok(tag_place) = begins_at(end, offset) else {
        return None;
    };
    if !reach(bytes, tag_place.position, 1 + words as usize) {
        return None;
    }
    let tag = word_in(bytes, tag_place.position)?;
    let WordPointer::Struct {
        offset: count,
        data_words,
        pointers,
    } = pointer_of_word(tag)
    else {
        return None;
    };
    let width = data_words as u64 + pointers as u64;
    if count as u64 * width > words as u64 {
        return None;
    }
    let start = Place {
        segment: tag_place.segment,
        position: tag_place.position + 1,
    };
    let size = StructSize {
        data_words,
        pointers,
    };
    Some(NearStructs {
        start,
        words,
        count,
        size,
    })
}

/// Returns the struct that the pointer at a place names, if it is in the same segment, without a
/// landing pad, and its words are there. Then it is the result of `object_at` for the place. The
/// bytes are those of the segment, so the arena isn't asked for it.
///
/// `None` has no meaning: `object_at` returns or refuses the object, which may be a struct too.
#[inline(always)]
pub fn near_struct_in(bytes: &[u8], place: Place) -> Option<NearStruct>
    ensures near { (segments : List (List ℕ)) → bytes.now ≡ segment_bytes segments place.segment
        → IfSome result (λ near.
        IsNear (words_in segments) (place_view place) (struct_object near)) }
    ensures segment { IfSome result (λ near. near.start.segment ≡ place.segment) }
{
    let word = word_in(bytes, place.position)?;
    if word == 0 {
        return None;
    }
    let WordPointer::Struct {
        offset,
        data_words,
        pointers,
    } = pointer_of_word(word)
    else {
        return None;
    };
    let end = Place {
        segment: place.segment,
        position: place.position + 1,
    };
    let Ok(start) = begins_at(end, offset) else {
        return None;
    };
    let width = data_words as usize + pointers as usize;
    if !reach(bytes, start.position, width) {
        return None;
    }
    let size = StructSize {
        data_words,
        pointers,
    };
    Some(NearStruct { start, size })
}

/// Returns the landing pad of one word to which a pointer of this word leads. Returns `None` if it
/// leads to an object without a pad, to a pad of two words, or nowhere.
#[inline(always)]
pub fn short_pad(word: u64) -> Option<Place>
    ensures pad { IfSome result (λ pad. pointer_of word ≡ to_pad 1 (place_view pad)) }
    ensures others { result ≡ None → (pad : ModelPlace) → pointer_of word ≡ to_pad 1 pad → ⊥ }
{
    match pointer_of_word(word) {
        WordPointer::Far { pad } => Some(pad),
        _ => None,
    }
}
