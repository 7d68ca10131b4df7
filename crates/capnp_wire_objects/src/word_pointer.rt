//! The contents of pointer words.
ghost use Rattle.std.specs.Prelude.{◌≡◌};
ghost use Rattle.capnp_model.specs.Pointers.{pointer_of};
ghost use Rattle.capnp_wire_objects.specs.Places.{pointer_view};

use crate::place::{OFFSETS, Place, UPPER_HALF, place_in_word};
use capnp_units::sizes::{ElementSize, WirePointerKind};

/// The number of kinds in the lowest two bits; the other parts of a word are above them.
const KINDS: u64 = 4;
/// The number of sizes of a struct's section, in sixteen bits.
const SECTION_SIZES: u64 = 0x1_0000;
/// The number of sizes of a list's elements, in three bits.
const ELEMENT_SIZES: u64 = 8;

/// The contents of a pointer word by itself. An offset is its thirty bits, unchanged.
#[derive(Clone, Copy)]
pub enum WordPointer {
    Struct {
        offset: u32,
        data_words: u16,
        pointers: u16,
    },
    List {
        offset: u32,
        size: ElementSize,
        count: u32,
    },
    /// To a landing pad of one word.
    Far {
        pad: Place,
    },
    /// To a landing pad of two words.
    DoubleFar {
        pad: Place,
    },
    Capability {
        index: u32,
    },
    Unknown,
}

/// Returns the contents of a pointer word. Its bits are drawn in `specs/Pointers.antt` of the
/// model.
#[inline(always)]
pub fn pointer_of_word(word: u64) -> WordPointer
    ensures { pointer_view result ≡ pointer_of word }
{
    let offset = (word / KINDS % OFFSETS) as u32;
    let upper = word / UPPER_HALF;
    match WirePointerKind::from_number(word % KINDS) {
        WirePointerKind::Struct => WordPointer::Struct {
            offset,
            data_words: (upper % SECTION_SIZES) as u16,
            pointers: (upper / SECTION_SIZES) as u16,
        },
        WirePointerKind::List => WordPointer::List {
            offset,
            size: ElementSize::from_number(upper % ELEMENT_SIZES),
            count: (upper / ELEMENT_SIZES) as u32,
        },
        WirePointerKind::Far => {
            let pad = place_in_word(word);
            if word / KINDS % 2 == 0 {
                WordPointer::Far { pad }
            } else {
                WordPointer::DoubleFar { pad }
            }
        }
        WirePointerKind::Other => {
            if offset == 0 {
                WordPointer::Capability {
                    index: upper as u32,
                }
            } else {
                WordPointer::Unknown
            }
        }
    }
}
