//! Pointers' words by themselves.
ghost use Rattle.std.specs.Prelude.{◌≡◌};
ghost use Rattle.capnp_model.specs.Pointers.{pointer_of};
ghost use Rattle.hagzimot_explain.specs.Contents.{contents_view};

use crate::parts::{Pad, pad_of_word};
use capnp_units::sizes::ElementSize;

/// The number of offsets that thirty bits can hold.
const OFFSETS: u64 = 0x4000_0000;
/// The place of the upper half of a word, 32 bits up.
const UPPER_HALF: u64 = 0x1_0000_0000;
/// The number of sizes of a struct's section, in sixteen bits.
const SECTION_SIZES: u64 = 0x1_0000;

/// A pointer's word by itself. An offset is its thirty bits, unchanged.
#[derive(Clone, Copy, Debug, PartialEq, Eq)]
pub enum Contents {
    Struct {
        offset: u32,
        data_words: u16,
        pointers: u16,
    },
    List {
        offset: u32,
        size: ElementSize,
        count: u32,
    },
    Far {
        pad: Pad,
    },
    Capability {
        index: u32,
    },
    Unknown,
}

/// Returns what a pointer's word says by itself.
pub fn contents_of(word: u64) -> Contents
    ensures { contents_view result ≡ pointer_of word }
{
    if let Some(pad) = pad_of_word(word) {
        return Contents::Far { pad };
    }
    let offset = (word / 4 % OFFSETS) as u32;
    let upper = word / UPPER_HALF;
    match word % 4 {
        0 => Contents::Struct {
            offset,
            data_words: (upper % SECTION_SIZES) as u16,
            pointers: (upper / SECTION_SIZES) as u16,
        },
        1 => Contents::List {
            offset,
            size: ElementSize::from_number(upper % 8),
            count: (upper / 8) as u32,
        },
        _ => {
            if offset == 0 {
                Contents::Capability {
                    index: upper as u32,
                }
            } else {
                Contents::Unknown
            }
        }
    }
}
